// Words that take no gates.
ghost use Rattle.std.specs.Prelude.{◌≡◌, ◌^◌, ◌<◌, ◌≤◌, ◌-◌, ◌++◌, map, take, drop, replicate, IfOk};
ghost use Rattle.dg_base.specs.Values.{truth_of};
ghost use Rattle.cnf_problem.specs.Literals.{value, negated as negation, IsOver};
ghost use Rattle.bit_gates.specs.Words.{number, IsWordOver, Spells, AddsWord};

use crate::Word;
use cnf_problem::{Gates, negated};
use dg_base::{Lit, OutOfMemory};

/// The word of a constant.
pub fn constant_word(gates: &Gates, constant: u32) -> Word
    ensures over { IsWordOver gates.now.vars result }
    ensures exact { Spells gates.now.clauses result (λ _. constant) }
{
    let mut word = [gates.constant(true); 32];
    for i in 0..32 {
        let bit = gates.constant((constant >> i) & 1 == 1);
        word[i] = bit;
    }
    word
}

/// A word of new variables, which may spell any number.
pub fn input_word(gates: &mut Gates) -> Result<Word, OutOfMemory>
    ensures { IfOk result (λ w. AddsWord gates.old gates.new w) }
{
    let mut word = [gates.constant(true); 32];
    for i in 0..32 {
        word[i] = gates.fresh()?;
    }
    Ok(word)
}

/// The word that spells 1 where the literal is true, and 0 elsewhere.
pub fn flag(gates: &Gates, lit: Lit) -> Word
    requires { IsOver gates.now.vars lit }
    ensures over { IsWordOver gates.now.vars result }
    ensures exact { Spells gates.now.clauses result (λ s. truth_of (value s lit)) }
{
    let mut word = constant_word(gates, 0);
    word[0] = lit;
    word
}

/// The word with each bit inverted.
pub fn inverted(word: &Word) -> Word
    ensures { result ≡ map negation word.now }
{
    let mut inverse = *word;
    for i in 0..32 {
        inverse[i] = negated(word[i]);
    }
    inverse
}

// The word moved up by so many places, with the literal in those below.
pub(crate) fn moved_up(word: &Word, places: usize, fill: Lit) -> Word
    requires { places ≤ 32 }
    ensures { result ≡ replicate places fill ++ take (32 - places) word.now }
{
    let mut moved = [fill; 32];
    for i in 0..32 - places {
        moved[places + i] = word[i];
    }
    moved
}

// The word moved down by so many places, with the literal in those above.
pub(crate) fn moved_down(word: &Word, places: usize, fill: Lit) -> Word
    requires { places ≤ 32 }
    ensures { result ≡ drop places word.now ++ replicate places fill }
{
    let mut moved = [fill; 32];
    for i in 0..32 - places {
        moved[i] = word[places + i];
    }
    moved
}
