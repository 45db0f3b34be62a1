// What an expression's type is, and what name it is.
ghost use Rattle.std.specs.Prelude.{◌≡◌, option_copied};
ghost use Rattle.run_model.specs.Calls as calls;
ghost use Rattle.run_model.specs.Meaning as meanings;
ghost use Rattle.emit_steps.specs.Pieces as pieces;
ghost use Rattle.loop_unroll.specs.Whole.{context_at};
ghost use Rattle.emit_steps.specs.Tables.{setting_at};

use c_rules::{Builtin, builtin_named};
use c_tree::{Expr, binary_unsigned};
use dg_base::Bytes;
use emit_steps::{Emitter, Table};
use run_model::{unary_unsigned, word_unsigned};

// Whether a call of this name has a value that is Uint.
fn call_unsigned(emitter: &Emitter, table: &Table, name: &[u8]) -> bool
    ensures { result ≡ meanings.result_unsigned (setting_at table.now) name.now (calls.function_named (setting_at table.now) name.now) }
{
    emitter.look_for(name, table.items.len());
    match table.function_named(name) {
        Some(number) => match table.function(number) {
            None => false,
            Some(function) => word_unsigned(function.word),
        },
        None => is_uint_builtin(builtin_named(name)),
    }
}

fn is_uint_builtin(builtin: Option<Builtin>) -> bool
    ensures { result ≡ meanings.is_uint_builtin builtin }
{
    match builtin {
        Some(Builtin::AnyUint) => true,
        _ => false,
    }
}

/// The name that an expression is, alone or behind `&`.
pub(crate) fn spelled<'e>(table: &Table, expr: &'e Expr) -> Option<&'e Bytes>
    ensures { option_copied result ≡ (pieces.piece (context_at table.now) expr.now).spelled }
{
    match expr {
        Expr::Name { name, .. } => Some(name),
        Expr::Bracket { inner, .. } => spelled(table, inner.get()),
        Expr::Address { target, .. } => spelled(table, target.get()),
        Expr::Number { .. } => None,
        Expr::Text { .. } => None,
        Expr::Index { .. } => None,
        Expr::Call { .. } => None,
        Expr::Cast { .. } => None,
        Expr::Unary { .. } => None,
        Expr::StepBefore { .. } => None,
        Expr::StepAfter { .. } => None,
        Expr::Binary { .. } => None,
        Expr::Choose { .. } => None,
        Expr::Assign { .. } => None,
        Expr::Comma { .. } => None,
    }
}

/// Whether an expression's value is Uint.
pub(crate) fn unsigned(emitter: &Emitter, table: &Table, expr: &Expr) -> bool
    ensures { result ≡ (pieces.piece (context_at table.now) expr.now).unsigned emitter.now.scope }
{
    emitter.spend(1);
    match expr {
        Expr::Name { name, .. } => emitter.name_unsigned(table, name.as_slice()),
        Expr::Number { unsigned, .. } => *unsigned,
        Expr::Text { .. } => false,
        Expr::Bracket { inner, .. } => unsigned(emitter, table, inner.get()),
        Expr::Index { name, .. } => emitter.name_unsigned(table, name.as_slice()),
        Expr::Call { name, .. } => call_unsigned(emitter, table, name.as_slice()),
        Expr::Cast { word, .. } => word_unsigned(*word),
        Expr::Unary { op, inner, .. } => unary_unsigned(*op, unsigned(emitter, table, inner.get())),
        Expr::StepBefore { target, .. } => unsigned(emitter, table, target.get()),
        Expr::StepAfter { target, .. } => unsigned(emitter, table, target.get()),
        Expr::Binary {
            op,
            left,
            right,
            ..
        } => {
            let left = unsigned(emitter, table, left.get());
            let right = unsigned(emitter, table, right.get());
            binary_unsigned(*op, left, right)
        }
        Expr::Choose { yes, no, .. } => {
            let yes = unsigned(emitter, table, yes.get());
            let no = unsigned(emitter, table, no.get());
            yes || no
        }
        Expr::Assign { target, .. } => unsigned(emitter, table, target.get()),
        Expr::Comma { right, .. } => unsigned(emitter, table, right.get()),
        Expr::Address { target, .. } => unsigned(emitter, table, target.get()),
    }
}
