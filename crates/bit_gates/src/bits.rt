// Conjunction, disjunction and exclusive or, bit by bit.
ghost use Rattle.std.specs.Prelude.{◌≡◌, ◌<◌, ℕ, IfOk, slice_index_or, length};
ghost use Rattle.cnf_problem.specs.Literals.{value, IsOver, AreSatisfied};
ghost use Rattle.cnf_problem.specs.Formulas.{IsGate};
ghost use Rattle.bit_gates.specs.Words.{number, bit_of, word_of, IsWordOver, IsWordGate};

use crate::Word;
use crate::choice::or;
use cnf_problem::Gates;
use dg_base::{Lit, OutOfMemory};

/// An operator on bits.
#[derive(Clone, Copy, Debug, PartialEq, Eq, Drop)]
pub enum BitKind {
    And,
    Or,
    Xor,
}

// The operator's literal of two literals.
fn bit(gates: &mut Gates, kind: BitKind, a: Lit, b: Lit) -> Result<Lit, OutOfMemory>
    requires first { IsOver gates.old.vars a }
    requires second { IsOver gates.old.vars b }
    ensures { IfOk result (λ l. IsGate gates.old gates.new l (λ s. bit_of kind (value s a) (value s b))) }
{
    match kind {
        BitKind::And => gates.and(a, b),
        BitKind::Or => or(gates, a, b),
        BitKind::Xor => gates.xor(a, b),
    }
}

/// The operator's word of two words.
pub fn bitwise(gates: &mut Gates, kind: BitKind, a: &Word, b: &Word) -> Result<Word, OutOfMemory>
    requires first { IsWordOver gates.old.vars a.now }
    requires second { IsWordOver gates.old.vars b.now }
    ensures { IfOk result (λ w. IsWordGate gates.old gates.new w (λ s. word_of kind (number s a.now) (number s b.now))) }
{
    let mut word = [gates.constant(true); 32];
    for i in 0..32 {
        word[i] = bit(gates, kind, a[i], b[i])?;
    }
    Ok(word)
}
