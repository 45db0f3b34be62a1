// Sums and differences modulo 2^32, by ripple-carry adders.
ghost use Rattle.std.specs.Prelude.{◌≡◌, ◌+◌, ◌-◌, ◌%◌, ◌^◌, ◌<◌, ◌≤◌, IfOk, take};
ghost use Rattle.dg_base.specs.Values.{truth_of};
ghost use Rattle.cnf_problem.specs.Literals.{value, IsOver};
ghost use Rattle.bit_gates.specs.Words.{number, IsWordOver, IsWordGate, IsBitSum, IsSum};

use crate::Word;
use crate::choice::choose;
use crate::words::{constant_word, inverted};
use cnf_problem::Gates;
use dg_base::{Lit, OutOfMemory};

// The sum of three bits: the lower and the higher bit.
#[derive(Clone, Copy, Debug, Drop)]
pub(crate) struct BitSum {
    pub sum: Lit,
    pub carry: Lit,
}

// The sum of some low bits of two words, and the carry out of them.
#[derive(Clone, Copy, Debug, Drop)]
pub(crate) struct Sum {
    pub word: Word,
    pub carry: Lit,
}

// A full adder.
fn bit_sum(gates: &mut Gates, a: Lit, b: Lit, carry: Lit) -> Result<BitSum, OutOfMemory>
    requires first { IsOver gates.old.vars a }
    requires second { IsOver gates.old.vars b }
    requires third { IsOver gates.old.vars carry }
    ensures { IfOk result (λ r. IsBitSum gates.old gates.new r.sum r.carry a b carry) }
{
    let apart = gates.xor(a, b)?;
    let sum = gates.xor(apart, carry)?;
    let next = choose(gates, apart, carry, a)?;
    Ok(BitSum { sum, carry: next })
}

// The sum of the low bits of two words and a carry; the other bits mean nothing.
pub(crate) fn low_sum(
    gates: &mut Gates,
    a: &Word,
    b: &Word,
    carry: Lit,
    bits: usize,
) -> Result<Sum, OutOfMemory>
    requires few { bits ≤ 32 }
    requires first { IsWordOver gates.old.vars a.now }
    requires second { IsWordOver gates.old.vars b.now }
    requires third { IsOver gates.old.vars carry }
    ensures { IfOk result (λ r. IsSum gates.old gates.new r.word r.carry bits (λ s. number s (take bits a.now) + number s (take bits b.now) + truth_of (value s carry))) }
{
    let mut word = [gates.constant(true); 32];
    let mut next = carry;
    for i in 0..bits {
        let place = bit_sum(gates, a[i], b[i], next)?;
        word[i] = place.sum;
        next = place.carry;
    }
    Ok(Sum { word, carry: next })
}

/// The sum of two words and a carry, modulo 2^32.
pub fn add(gates: &mut Gates, a: &Word, b: &Word, carry: Lit) -> Result<Word, OutOfMemory>
    requires first { IsWordOver gates.old.vars a.now }
    requires second { IsWordOver gates.old.vars b.now }
    requires third { IsOver gates.old.vars carry }
    ensures { IfOk result (λ w. IsWordGate gates.old gates.new w (λ s. (number s a.now + number s b.now + truth_of (value s carry)) % 2 ^ 32)) }
{
    let low = low_sum(gates, a, b, carry, 31)?;
    let apart = gates.xor(a[31], b[31])?;
    let mut word = low.word;
    word[31] = gates.xor(apart, low.carry)?;
    Ok(word)
}

/// The difference of two words, modulo 2^32.
pub fn subtract(gates: &mut Gates, a: &Word, b: &Word) -> Result<Word, OutOfMemory>
    requires first { IsWordOver gates.old.vars a.now }
    requires second { IsWordOver gates.old.vars b.now }
    ensures { IfOk result (λ w. IsWordGate gates.old gates.new w (λ s. (number s a.now + (2 ^ 32 - number s b.now)) % 2 ^ 32)) }
{
    let carry = gates.constant(true);
    add(gates, a, &inverted(b), carry)
}

/// The word taken from 0, modulo 2^32.
pub fn negate(gates: &mut Gates, a: &Word) -> Result<Word, OutOfMemory>
    requires { IsWordOver gates.old.vars a.now }
    ensures { IfOk result (λ w. IsWordGate gates.old gates.new w (λ s. (2 ^ 32 - number s a.now) % 2 ^ 32)) }
{
    let zero = constant_word(gates, 0);
    subtract(gates, &zero, a)
}
