//! What an assignment says of literals and words.

ghost use Rattle.std.specs.Prelude.{◌≡◌, ◌<◌, ◌-◌, false, slice_index_or};
ghost use Rattle.dg_base.specs.Values.{truth_of};
ghost use Rattle.cnf_problem.specs.Literals.{value};
ghost use Rattle.bit_gates.specs.Words.{number};

use cnf_problem::var;
use dg_base::Lit;

// The truth value of a variable.
fn variable_truth(truths: &[bool], variable: u32) -> bool
    ensures { result ≡ slice_index_or truths.now (variable - 1) false }
{
    let place = (variable as usize).saturating_sub(1);
    place < truths.len() && truths[place]
}

/// The truth value of a literal.
pub(crate) fn truth(truths: &[bool], lit: Lit) -> bool
    ensures { result ≡ value truths.now lit }
{
    let is_true = variable_truth(truths, var(lit));
    if lit.0 % 2 == 0 { is_true } else { !is_true }
}

// The bit of a literal.
fn bit(truths: &[bool], lit: Lit) -> u32
    ensures value { result ≡ truth_of (value truths.now lit) }
    ensures low { result < 2 }
{
    if truth(truths, lit) { 1 } else { 0 }
}

/// The number that a word spells.
pub(crate) fn word_number(truths: &[bool], word: &[Lit; 32]) -> u32
    ensures { result ≡ number truths.now word.now }
{
    let mut number = 0;
    for place in (0..32).rev() {
        number = 2 * number + bit(truths, word[place]);
    }
    number
}
