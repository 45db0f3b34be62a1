// Quotients and remainders, by restoring division.
ghost use Rattle.std.specs.Prelude.{◌≡◌, ◌+◌, ◌*◌, ◌/◌, ◌%◌, ◌<◌, IfOk, cond, nat_eq};
ghost use Rattle.cnf_problem.specs.Literals.{value, IsOver};
ghost use Rattle.bit_gates.specs.Words.{number, IsWordOver, IsDivision, IsLongDivision, IsDivisionStep};

use crate::Word;
use crate::adder::low_sum;
use crate::choice::{any, choose_word, or};
use crate::words::{constant_word, inverted, moved_up};
use cnf_problem::Gates;
use dg_base::{Lit, OutOfMemory};

/// A quotient and the remainder.
#[derive(Clone, Copy, Debug, Drop)]
pub struct Division {
    pub quotient: Word,
    pub remainder: Word,
}

// A bit of the quotient, and the remainder behind it.
#[derive(Clone, Copy, Debug, Drop)]
struct Step {
    bit: Lit,
    remainder: Word,
}

// Takes the divisor from the remainder and the next bit of the dividend, where it is not greater.
fn division_step(
    gates: &mut Gates,
    remainder: &Word,
    next: Lit,
    b: &Word,
) -> Result<Step, OutOfMemory>
    requires first { IsWordOver gates.old.vars remainder.now }
    requires second { IsOver gates.old.vars next }
    requires third { IsWordOver gates.old.vars b.now }
    ensures { IfOk result (λ r. IsDivisionStep gates.old gates.new remainder.now next b.now r.bit r.remainder) }
{
    let yes = gates.constant(true);
    let longer = moved_up(remainder, 1, next);
    let rest = low_sum(gates, &longer, &inverted(b), yes, 32)?;
    let bit = or(gates, remainder[31], rest.carry)?;
    let remainder = choose_word(gates, bit, &rest.word, &longer)?;
    Ok(Step { bit, remainder })
}

// The quotient and the remainder where the divisor isn't 0.
fn long_division(gates: &mut Gates, a: &Word, b: &Word) -> Result<Division, OutOfMemory>
    requires first { IsWordOver gates.old.vars a.now }
    requires second { IsWordOver gates.old.vars b.now }
    ensures { IfOk result (λ r. IsLongDivision gates.old gates.new a.now b.now r.quotient r.remainder) }
{
    let mut quotient = constant_word(gates, 0);
    let mut remainder = constant_word(gates, 0);
    for i in 0..32 {
        let place = 31 - i;
        let step = division_step(gates, &remainder, a[place], b)?;
        quotient[place] = step.bit;
        remainder = step.remainder;
    }
    Ok(Division {
        quotient,
        remainder,
    })
}

/// The quotient and the remainder of two words; both are 0 where the divisor is.
pub fn divide(gates: &mut Gates, a: &Word, b: &Word) -> Result<Division, OutOfMemory>
    requires first { IsWordOver gates.old.vars a.now }
    requires second { IsWordOver gates.old.vars b.now }
    ensures { IfOk result (λ r. IsDivision gates.old gates.new a.now b.now r.quotient r.remainder) }
{
    let zero = constant_word(gates, 0);
    let is_some = any(gates, b)?;
    let parts = long_division(gates, a, b)?;
    let quotient = choose_word(gates, is_some, &parts.quotient, &zero)?;
    let remainder = choose_word(gates, is_some, &parts.remainder, &zero)?;
    Ok(Division {
        quotient,
        remainder,
    })
}
