// Products modulo 2^32, by shifting and adding.
ghost use Rattle.std.specs.Prelude.{◌≡◌, ◌+◌, ◌*◌, ◌%◌, ◌^◌, ◌<◌, IfOk, if◌then◌else◌};
ghost use Rattle.dg_base.specs.Values.{truth_of};
ghost use Rattle.cnf_problem.specs.Literals.{value, IsOver};
ghost use Rattle.bit_gates.specs.Words.{number, IsWordOver, IsWordGate};

use crate::Word;
use crate::adder::add;
use crate::choice::choose_word;
use crate::words::{constant_word, moved_up};
use cnf_problem::Gates;
use dg_base::{Lit, OutOfMemory};

// The sum so far and, where the bit is true, the word moved up by so many places.
fn add_row(
    gates: &mut Gates,
    sum: &Word,
    a: &Word,
    bit: Lit,
    places: usize,
) -> Result<Word, OutOfMemory>
    requires few { places < 32 }
    requires first { IsWordOver gates.old.vars sum.now }
    requires second { IsWordOver gates.old.vars a.now }
    requires third { IsOver gates.old.vars bit }
    ensures { IfOk result (λ w. IsWordGate gates.old gates.new w (λ s. (number s sum.now + truth_of (value s bit) * (number s a.now * 2 ^ places)) % 2 ^ 32)) }
{
    let no = gates.constant(false);
    let zero = constant_word(gates, 0);
    let row = choose_word(gates, bit, &moved_up(a, places, no), &zero)?;
    add(gates, sum, &row, no)
}

/// The product of two words, modulo 2^32.
pub fn multiply(gates: &mut Gates, a: &Word, b: &Word) -> Result<Word, OutOfMemory>
    requires first { IsWordOver gates.old.vars a.now }
    requires second { IsWordOver gates.old.vars b.now }
    ensures { IfOk result (λ w. IsWordGate gates.old gates.new w (λ s. (number s a.now * number s b.now) % 2 ^ 32)) }
{
    let mut product = constant_word(gates, 0);
    for i in 0..32 {
        product = add_row(gates, &product, a, b[i], i)?;
    }
    Ok(product)
}
