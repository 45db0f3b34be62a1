// Comparisons of words.
ghost use Rattle.std.specs.Prelude.{◌≡◌, ◌<◌, IfOk, nat_lt, nat_eq, if◌then◌else◌};
ghost use Rattle.std.specs.Bool.{xor};
ghost use Rattle.cnf_problem.specs.Literals.{value, IsOver};
ghost use Rattle.cnf_problem.specs.Formulas.{IsGate};
ghost use Rattle.bit_gates.specs.Words.{number, IsWordOver};

use crate::Word;
use crate::bits::{BitKind, bitwise};
use crate::choice::{any, choose};
use cnf_problem::{Gates, negated};
use dg_base::{Lit, OutOfMemory};

// Whether a number is less than another, by their highest bits and by whether it is so of the lower ones.
fn less_by_bit(gates: &mut Gates, a: Lit, b: Lit, lower: Lit) -> Result<Lit, OutOfMemory>
    requires first { IsOver gates.old.vars a }
    requires second { IsOver gates.old.vars b }
    requires third { IsOver gates.old.vars lower }
    ensures { IfOk result (λ l. IsGate gates.old gates.new l (λ s. if xor (value s a) (value s b) then value s b else value s lower)) }
{
    let apart = gates.xor(a, b)?;
    choose(gates, apart, b, lower)
}

/// A literal that is true where the first word is less than the second.
pub fn less(gates: &mut Gates, a: &Word, b: &Word) -> Result<Lit, OutOfMemory>
    requires first { IsWordOver gates.old.vars a.now }
    requires second { IsWordOver gates.old.vars b.now }
    ensures { IfOk result (λ l. IsGate gates.old gates.new l (λ s. nat_lt (number s a.now) (number s b.now))) }
{
    let mut less = gates.constant(false);
    for i in 0..32 {
        less = less_by_bit(gates, a[i], b[i], less)?;
    }
    Ok(less)
}

/// A literal that is true where the words are equal.
pub fn equal(gates: &mut Gates, a: &Word, b: &Word) -> Result<Lit, OutOfMemory>
    requires first { IsWordOver gates.old.vars a.now }
    requires second { IsWordOver gates.old.vars b.now }
    ensures { IfOk result (λ l. IsGate gates.old gates.new l (λ s. nat_eq (number s a.now) (number s b.now))) }
{
    let apart = bitwise(gates, BitKind::Xor, a, b)?;
    Ok(negated(any(gates, &apart)?))
}
