// The names that rules ask expressions for.
ghost use Rattle.std.specs.Prelude.{◌≡◌, option_copied};
ghost use Rattle.c_rules.specs.Routines as routines;
ghost use Rattle.c_rules.specs.Types as types;

use c_tree::Expr;
use dg_base::Bytes;

/// The name of an lvalue's variable; none for what is no lvalue.
pub fn target_name<'a>(expr: &'a Expr) -> Option<&'a Bytes>
    ensures { option_copied result ≡ types.target_name expr.now }
{
    match expr {
        Expr::Name { name, .. } => Some(name),
        Expr::Index { name, .. } => Some(name),
        Expr::Bracket { inner, .. } => target_name(inner.get()),
        _ => None,
    }
}

/// The name that an expression is, in any brackets; none for every other form.
pub fn plain_name<'a>(expr: &'a Expr) -> Option<&'a Bytes>
    ensures { option_copied result ≡ routines.plain_name expr.now }
{
    match expr {
        Expr::Name { name, .. } => Some(name),
        Expr::Bracket { inner, .. } => plain_name(inner.get()),
        _ => None,
    }
}

/// The function that the third argument of `pthread_create` names, alone or behind `&`; none for every other form.
pub fn routine_name<'a>(expr: &'a Expr) -> Option<&'a Bytes>
    ensures { option_copied result ≡ routines.routine_name expr.now }
{
    match expr {
        Expr::Name { name, .. } => Some(name),
        Expr::Address { target, .. } => plain_name(target.get()),
        _ => None,
    }
}

/// The variable whose address an argument is; none for what is no address.
pub fn addressed_name<'a>(expr: &'a Expr) -> Option<&'a Bytes>
    ensures { option_copied result ≡ types.addressed_name expr.now }
{
    match expr {
        Expr::Address { target, .. } => target_name(target.get()),
        _ => None,
    }
}
