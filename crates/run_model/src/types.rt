// What an expression's type is, and what name it is.
ghost use Rattle.std.specs.Prelude.{◌≡◌, option_copied};
ghost use Rattle.run_model.specs.Calls as calls;
ghost use Rattle.run_model.specs.Meaning as meanings;
ghost use Rattle.run_model.specs.Running.{context_at, setting_at};

use crate::operators::{unary_unsigned, word_unsigned};
use crate::state::Runner;
use crate::table::Table;
use c_rules::{Builtin, builtin_named};
use c_tree::{Expr, binary_unsigned};
use dg_base::Bytes;

// Whether a call of this name has a value that is Uint.
fn call_unsigned(table: &Table, name: &[u8]) -> bool
    ensures { result ≡ meanings.result_unsigned (setting_at table.now) name.now (calls.function_named (setting_at table.now) name.now) }
{
    match table.function_named(name) {
        Some(number) => match table.function(number) {
            None => false,
            Some(function) => word_unsigned(function.word),
        },
        None => is_uint_builtin(builtin_named(name)),
    }
}

fn is_uint_builtin(builtin: Option<Builtin>) -> bool
    ensures { result ≡ meanings.is_uint_builtin builtin }
{
    match builtin {
        Some(Builtin::AnyUint) => true,
        _ => false,
    }
}

/// The name that an expression is, alone or behind `&`.
pub(crate) fn spelled<'e>(table: &Table, expr: &'e Expr) -> Option<&'e Bytes>
    ensures { option_copied result ≡ (meanings.meaning (context_at table.now) expr.now).spelled }
{
    match expr {
        Expr::Name { name, .. } => Some(name),
        Expr::Bracket { inner, .. } => spelled(table, inner.get()),
        Expr::Address { target, .. } => spelled(table, target.get()),
        Expr::Number { .. } => None,
        Expr::Text { .. } => None,
        Expr::Index { .. } => None,
        Expr::Call { .. } => None,
        Expr::Cast { .. } => None,
        Expr::Unary { .. } => None,
        Expr::StepBefore { .. } => None,
        Expr::StepAfter { .. } => None,
        Expr::Binary { .. } => None,
        Expr::Choose { .. } => None,
        Expr::Assign { .. } => None,
        Expr::Comma { .. } => None,
    }
}

impl<'a> Runner<'a> {
    /// Whether an expression's value is Uint.
    pub(crate) fn unsigned(&self, table: &Table, expr: &Expr) -> bool
        ensures { result ≡ (meanings.meaning (context_at table.now) expr.now).unsigned self.now }
    {
        match expr {
            Expr::Name { name, .. } => self.name_unsigned(table, name.as_slice()),
            Expr::Number { unsigned, .. } => *unsigned,
            Expr::Text { .. } => false,
            Expr::Bracket { inner, .. } => self.unsigned(table, inner.get()),
            Expr::Index { name, .. } => self.name_unsigned(table, name.as_slice()),
            Expr::Call { name, .. } => call_unsigned(table, name.as_slice()),
            Expr::Cast { word, .. } => word_unsigned(*word),
            Expr::Unary { op, inner, .. } => unary_unsigned(*op, self.unsigned(table, inner.get())),
            Expr::StepBefore { target, .. } => self.unsigned(table, target.get()),
            Expr::StepAfter { target, .. } => self.unsigned(table, target.get()),
            Expr::Binary {
                op,
                left,
                right,
                ..
            } => {
                let left = self.unsigned(table, left.get());
                let right = self.unsigned(table, right.get());
                binary_unsigned(*op, left, right)
            }
            Expr::Choose { yes, no, .. } => {
                let yes = self.unsigned(table, yes.get());
                let no = self.unsigned(table, no.get());
                yes || no
            }
            Expr::Assign { target, .. } => self.unsigned(table, target.get()),
            Expr::Comma { right, .. } => self.unsigned(table, right.get()),
            Expr::Address { target, .. } => self.unsigned(table, target.get()),
        }
    }
}
