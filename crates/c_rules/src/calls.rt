// What calls and their arguments may be.
ghost use Rattle.std.specs.Prelude.{◌≡◌};
ghost use Rattle.c_tree.specs.Constants as constants;
ghost use Rattle.c_rules.specs.Names as names;
ghost use Rattle.c_rules.specs.BuiltIns as builtins;
ghost use Rattle.c_rules.specs.Scopes as scopes;
ghost use Rattle.c_rules.specs.Types as types;

use crate::builtin::{Builtin, Role};
use crate::named::{addressed_name, plain_name, routine_name};
use crate::names::Meaning;
use crate::pass::is_mutex;
use crate::roles::{argument_count, has_value, may_lack_value, role_in};
use crate::rules::Pass;
use crate::scope::{Scopes, meaning_of};
use crate::types::{cast_fits, is_value_type, is_void};
use c_tree::{Expr, constant_of};

fn is_mutex_variable(meaning: Meaning) -> bool
    ensures { result ≡ types.is_of_type scopes.is_mutex meaning }
{
    match meaning {
        Meaning::Variable(variable) => is_mutex(variable.word),
        _ => false,
    }
}

fn is_value_variable(meaning: Meaning) -> bool
    ensures { result ≡ types.is_of_type types.is_value_type meaning }
{
    match meaning {
        Meaning::Variable(variable) => is_value_type(variable.word),
        _ => false,
    }
}

fn may_run(meaning: Meaning) -> bool
    ensures { result ≡ types.may_run meaning }
{
    match meaning {
        Meaning::Function(word, count) => count <= 1 && !is_void(word),
        _ => false,
    }
}

fn is_function(meaning: Meaning) -> bool
    ensures { result ≡ types.is_function meaning }
{
    match meaning {
        Meaning::Function(_, _) => true,
        _ => false,
    }
}

// Whether an expression is the constant 0.
fn is_zero(expr: &Expr) -> bool
    ensures { result ≡ types.is_zero_constant (constants.constant_of expr.now) }
{
    match constant_of(expr) {
        None => false,
        Some(known) => known.value == 0,
    }
}

impl<'a> Pass<'a> {
    // Whether an argument is what its role asks.
    fn argument_fits(&self, scope: &Scopes, role: Role, expr: &Expr) -> bool
        ensures { result ≡ types.argument_fits (names.meaning_of (names.functions_of self.now.items.now) scope.now) role expr.now }
    {
        match role {
            Role::Zero => is_zero(expr),
            Role::MutexAddress => match addressed_name(expr) {
                None => false,
                Some(name) => is_mutex_variable(meaning_of(self.items, scope, name.as_slice())),
            },
            Role::TargetAddress => match addressed_name(expr) {
                None => false,
                Some(name) => is_value_variable(meaning_of(self.items, scope, name.as_slice())),
            },
            Role::Routine => match routine_name(expr) {
                None => false,
                Some(name) => may_run(meaning_of(self.items, scope, name.as_slice())),
            },
            _ => true,
        }
    }

    /// Whether `&` may stand there, before this.
    pub(crate) fn address_fits(&self, scope: &Scopes, role: Role, target: &Expr) -> bool
        ensures { result ≡ types.address_fits (names.meaning_of (names.functions_of self.now.items.now) scope.now) role target.now }
    {
        match role {
            Role::MutexAddress => true,
            Role::TargetAddress => true,
            Role::Routine => match plain_name(target) {
                None => false,
                Some(name) => is_function(meaning_of(self.items, scope, name.as_slice())),
            },
            _ => false,
        }
    }

    // Whether the arguments of a built-in call are what the table asks.
    fn arguments_fit(&self, scope: &Scopes, builtin: Builtin, args: &[Expr]) -> bool
        ensures { result ≡ types.arguments_fit (names.meaning_of (names.functions_of self.now.items.now) scope.now) (builtins.role_of builtin) 0 args.now }
    {
        for (i, arg) in args.iter().enumerate() {
            if !self.argument_fits(scope, role_in(Meaning::Builtin(builtin), i), arg) {
                return false;
            }
        }
        true
    }

    /// Whether a call of what this name stands for, with these arguments, may stand there.
    pub(crate) fn call_fits(
        &self,
        scope: &Scopes,
        role: Role,
        meaning: Meaning,
        args: &[Expr],
    ) -> bool
        ensures { result ≡ types.call_fits (names.meaning_of (names.functions_of self.now.items.now) scope.now) role meaning args.now }
    {
        match meaning {
            Meaning::Function(word, count) => {
                let is_whole = args.len() == count;
                let fits = cast_fits(role, word);
                is_whole && fits
            }
            Meaning::Builtin(builtin) => {
                let is_whole = args.len() == argument_count(builtin);
                let are_fit = self.arguments_fit(scope, builtin, args);
                let fits = has_value(builtin) || may_lack_value(role);
                is_whole && (are_fit && fits)
            }
            Meaning::Variable(_) => false,
            Meaning::Nothing => false,
        }
    }
}
