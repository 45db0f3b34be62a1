// Words that spell whether something is so: 1 where it is, and 0 elsewhere.
ghost use Rattle.std.specs.Prelude.{IfOk, cond, not, ◌&&◌, ◌||◌, nat_eq, nat_lt, nat_le, int_lt, int_le};
ghost use Rattle.dg_base.specs.Values.{int_of, is_true, truth_of};
ghost use Rattle.bit_gates.specs.Words.{number, IsWordOver, IsWordGate};

use crate::signed::less_int;
use bit_gates::{Word, any, choose_word, equal, flag, less};
use cnf_problem::{Gates, negated};
use dg_base::OutOfMemory;

// Whether the first word is less than the second, in two's complement.
pub(crate) fn less_int_word(gates: &mut Gates, a: &Word, b: &Word) -> Result<Word, OutOfMemory>
    requires first { IsWordOver gates.old.vars a.now }
    requires second { IsWordOver gates.old.vars b.now }
    ensures { IfOk result (λ w. IsWordGate gates.old gates.new w (λ s. truth_of (int_lt (int_of (number s a.now)) (int_of (number s b.now))))) }
{
    let lower = less_int(gates, a, b)?;
    Ok(flag(gates, lower))
}

// Whether the first word is at most the second, in two's complement.
pub(crate) fn at_most_int_word(gates: &mut Gates, a: &Word, b: &Word) -> Result<Word, OutOfMemory>
    requires first { IsWordOver gates.old.vars a.now }
    requires second { IsWordOver gates.old.vars b.now }
    ensures { IfOk result (λ w. IsWordGate gates.old gates.new w (λ s. truth_of (int_le (int_of (number s a.now)) (int_of (number s b.now))))) }
{
    let greater = less_int(gates, b, a)?;
    Ok(flag(gates, negated(greater)))
}

// Whether the first word is less than the second.
pub(crate) fn less_word(gates: &mut Gates, a: &Word, b: &Word) -> Result<Word, OutOfMemory>
    requires first { IsWordOver gates.old.vars a.now }
    requires second { IsWordOver gates.old.vars b.now }
    ensures { IfOk result (λ w. IsWordGate gates.old gates.new w (λ s. truth_of (nat_lt (number s a.now) (number s b.now)))) }
{
    let lower = less(gates, a, b)?;
    Ok(flag(gates, lower))
}

// Whether the first word is at most the second.
pub(crate) fn at_most_word(gates: &mut Gates, a: &Word, b: &Word) -> Result<Word, OutOfMemory>
    requires first { IsWordOver gates.old.vars a.now }
    requires second { IsWordOver gates.old.vars b.now }
    ensures { IfOk result (λ w. IsWordGate gates.old gates.new w (λ s. truth_of (nat_le (number s a.now) (number s b.now)))) }
{
    let greater = less(gates, b, a)?;
    Ok(flag(gates, negated(greater)))
}

// Whether the words are equal.
pub(crate) fn equal_word(gates: &mut Gates, a: &Word, b: &Word) -> Result<Word, OutOfMemory>
    requires first { IsWordOver gates.old.vars a.now }
    requires second { IsWordOver gates.old.vars b.now }
    ensures { IfOk result (λ w. IsWordGate gates.old gates.new w (λ s. truth_of (nat_eq (number s a.now) (number s b.now)))) }
{
    let same = equal(gates, a, b)?;
    Ok(flag(gates, same))
}

// Whether the words are not equal.
pub(crate) fn not_equal_word(gates: &mut Gates, a: &Word, b: &Word) -> Result<Word, OutOfMemory>
    requires first { IsWordOver gates.old.vars a.now }
    requires second { IsWordOver gates.old.vars b.now }
    ensures { IfOk result (λ w. IsWordGate gates.old gates.new w (λ s. truth_of (not (nat_eq (number s a.now) (number s b.now))))) }
{
    let same = equal(gates, a, b)?;
    Ok(flag(gates, negated(same)))
}

// Whether the word is 0.
pub(crate) fn not_word(gates: &mut Gates, a: &Word) -> Result<Word, OutOfMemory>
    requires { IsWordOver gates.old.vars a.now }
    ensures { IfOk result (λ w. IsWordGate gates.old gates.new w (λ s. truth_of (not (is_true (number s a.now))))) }
{
    let some = any(gates, a)?;
    Ok(flag(gates, negated(some)))
}

// Whether neither word is 0.
pub(crate) fn both_word(gates: &mut Gates, a: &Word, b: &Word) -> Result<Word, OutOfMemory>
    requires first { IsWordOver gates.old.vars a.now }
    requires second { IsWordOver gates.old.vars b.now }
    ensures { IfOk result (λ w. IsWordGate gates.old gates.new w (λ s. truth_of (is_true (number s a.now) && is_true (number s b.now)))) }
{
    let first = any(gates, a)?;
    let second = any(gates, b)?;
    let both = gates.and(first, second)?;
    Ok(flag(gates, both))
}

// Whether the words are not both 0.
pub(crate) fn either_word(gates: &mut Gates, a: &Word, b: &Word) -> Result<Word, OutOfMemory>
    requires first { IsWordOver gates.old.vars a.now }
    requires second { IsWordOver gates.old.vars b.now }
    ensures { IfOk result (λ w. IsWordGate gates.old gates.new w (λ s. truth_of (is_true (number s a.now) || is_true (number s b.now)))) }
{
    let first = any(gates, a)?;
    let second = any(gates, b)?;
    let neither = gates.and(negated(first), negated(second))?;
    Ok(flag(gates, negated(neither)))
}

// The second word where the first isn't 0, and the third elsewhere.
pub(crate) fn chosen_word(
    gates: &mut Gates,
    a: &Word,
    b: &Word,
    c: &Word,
) -> Result<Word, OutOfMemory>
    requires first { IsWordOver gates.old.vars a.now }
    requires second { IsWordOver gates.old.vars b.now }
    requires third { IsWordOver gates.old.vars c.now }
    ensures { IfOk result (λ w. IsWordGate gates.old gates.new w (λ s. cond (is_true (number s a.now)) (number s b.now) (number s c.now))) }
{
    let some = any(gates, a)?;
    choose_word(gates, some, b, c)
}
