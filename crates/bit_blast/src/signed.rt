// Words that are read in two's complement.
ghost use Rattle.std.specs.Prelude.{◌≡◌, ◌+◌, ◌-◌, ◌%◌, ◌^◌, ◌<◌, ℕ, List, Bool, IfOk, int_lt, if◌then◌else◌};
ghost use Rattle.dg_base.specs.Values.{int_of, quotient_int, remainder_int};
ghost use Rattle.bit_gates.specs.Words.{number, IsWordOver, IsWordGate};
ghost use Rattle.cnf_problem.specs.Literals.{value, IsOver};
ghost use Rattle.cnf_problem.specs.Formulas.{IsGate};

use bit_gates::{Word, choose_word, divide, less, negate};
use cnf_problem::{Gates, negated};
use dg_base::{Lit, OutOfMemory};

// The word with its sign bit flipped: the order of such words is that of the numbers read in two's complement.
fn flipped(word: &Word) -> Word
    ensures over { (vars : ℕ) → IsWordOver vars word.now → IsWordOver vars result }
    ensures exact { (s : List Bool) → number s result ≡ (number s word.now + 2 ^ 31) % 2 ^ 32 }
{
    let mut flipped = *word;
    flipped[31] = negated(word[31]);
    flipped
}

// A literal that is true where the first word is less than the second.
pub(crate) fn less_int(gates: &mut Gates, a: &Word, b: &Word) -> Result<Lit, OutOfMemory>
    requires first { IsWordOver gates.old.vars a.now }
    requires second { IsWordOver gates.old.vars b.now }
    ensures { IfOk result (λ l. IsGate gates.old gates.new l (λ s. int_lt (int_of (number s a.now)) (int_of (number s b.now)))) }
{
    less(gates, &flipped(a), &flipped(b))
}

// The word taken from 0 where the literal is true.
fn negate_if(gates: &mut Gates, sign: Lit, a: &Word) -> Result<Word, OutOfMemory>
    requires choice { IsOver gates.old.vars sign }
    requires word { IsWordOver gates.old.vars a.now }
    ensures { IfOk result (λ w. IsWordGate gates.old gates.new w (λ s. if value s sign then (2 ^ 32 - number s a.now) % 2 ^ 32 else number s a.now)) }
{
    let negative = negate(gates, a)?;
    choose_word(gates, sign, &negative, a)
}

// The quotient towards 0, and 0 where the divisor is 0.
pub(crate) fn divide_int(gates: &mut Gates, a: &Word, b: &Word) -> Result<Word, OutOfMemory>
    requires first { IsWordOver gates.old.vars a.now }
    requires second { IsWordOver gates.old.vars b.now }
    ensures { IfOk result (λ w. IsWordGate gates.old gates.new w (λ s. quotient_int (number s a.now) (number s b.now))) }
{
    let first = negate_if(gates, a[31], a)?;
    let second = negate_if(gates, b[31], b)?;
    let parts = divide(gates, &first, &second)?;
    let sign = gates.xor(a[31], b[31])?;
    negate_if(gates, sign, &parts.quotient)
}

// The remainder with the dividend's sign, and 0 where the divisor is 0.
pub(crate) fn remainder_int_word(gates: &mut Gates, a: &Word, b: &Word) -> Result<Word, OutOfMemory>
    requires first { IsWordOver gates.old.vars a.now }
    requires second { IsWordOver gates.old.vars b.now }
    ensures { IfOk result (λ w. IsWordGate gates.old gates.new w (λ s. remainder_int (number s a.now) (number s b.now))) }
{
    let first = negate_if(gates, a[31], a)?;
    let second = negate_if(gates, b[31], b)?;
    let parts = divide(gates, &first, &second)?;
    negate_if(gates, a[31], &parts.remainder)
}
