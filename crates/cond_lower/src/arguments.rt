// What the rule asks of a call's arguments.
ghost use Rattle.std.specs.Prelude.{◌≡◌, option_copied};
ghost use Rattle.c_tree.specs.Constants as constants;
ghost use Rattle.cond_lower.specs.Nodes as nodes;

use crate::calls::CondCall;
use c_rules::{addressed_name, plain_name};
use c_tree::{Expr, constant_of};
use dg_base::Bytes;

/// The name behind `&`, in any brackets there; none for every other form.
pub(crate) fn cond_behind<'a>(expr: &'a Expr) -> Option<&'a Bytes>
    ensures { option_copied result ≡ nodes.cond_behind expr.now }
{
    match expr {
        Expr::Address { target, .. } => plain_name(target.get()),
        _ => None,
    }
}

// The name that the first argument is the address of, if it is one.
fn first_cond<'a>(args: &'a [Expr]) -> Option<&'a Bytes>
    ensures { option_copied result ≡ nodes.first_cond args.now }
{
    match args {
        [] => None,
        [first, ..] => cond_behind(first),
    }
}

/// The condition variable that a call with these arguments is on; empty where it is on none.
pub(crate) fn cond_name<'a>(args: &'a [Expr]) -> &'a [u8]
    ensures { result.now ≡ nodes.name_or_none (nodes.first_cond args.now) }
{
    match first_cond(args) {
        None => &[],
        Some(name) => name.as_slice(),
    }
}

fn is_zero(expr: &Expr) -> bool
    ensures { result ≡ nodes.is_zero (constants.constant_of expr.now) }
{
    match constant_of(expr) {
        None => false,
        Some(constant) => constant.value == 0,
    }
}

/// Whether there are as many arguments as the call has, and the second is `&m` or `&m[e]`, or the constant 0.
pub(crate) fn arguments_fit(call: CondCall, args: &[Expr]) -> bool
    ensures { result ≡ nodes.arguments_fit call args.now }
{
    match (call, args) {
        (CondCall::Wait, [_, second]) => addressed_name(second).is_some(),
        (CondCall::Init, [_, second]) => is_zero(second),
        (CondCall::Signal, [_]) => true,
        (CondCall::Broadcast, [_]) => true,
        (CondCall::Destroy, [_]) => true,
        _ => false,
    }
}
