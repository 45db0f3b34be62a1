// Choices and disjunctions.
ghost use Rattle.std.specs.Prelude.{◌≡◌, ◌<◌, ◌||◌, ◌⊎◌, ◌↔◌, IfOk, IsTrue, nat_lt, if◌then◌else◌};
ghost use Rattle.cnf_problem.specs.Literals.{value, IsOver};
ghost use Rattle.cnf_problem.specs.Formulas.{IsGate};
ghost use Rattle.bit_gates.specs.Words.{number, IsWordOver, IsWordGate};

use crate::Word;
use cnf_problem::{Gates, negated};
use dg_base::{Lit, OutOfMemory};

// A literal that is true where one of the two is.
pub(crate) fn or(gates: &mut Gates, a: Lit, b: Lit) -> Result<Lit, OutOfMemory>
    requires first { IsOver gates.old.vars a }
    requires second { IsOver gates.old.vars b }
    ensures { IfOk result (λ l. IsGate gates.old gates.new l (λ s. value s a || value s b)) }
{
    Ok(negated(gates.and(negated(a), negated(b))?))
}

// Whether the literal is one of the two.
fn is_either(lit: Lit, first: Lit, second: Lit) -> bool
    ensures { IsTrue result ↔ ((lit ≡ first) ⊎ (lit ≡ second)) }
{
    lit == first || lit == second
}

// A literal that is `a` where `c` is true, and `b` elsewhere. Where a branch is a constant or a
// literal of `c`, it is a conjunction or a disjunction.
pub(crate) fn choose(gates: &mut Gates, c: Lit, a: Lit, b: Lit) -> Result<Lit, OutOfMemory>
    requires choice { IsOver gates.old.vars c }
    requires first { IsOver gates.old.vars a }
    requires second { IsOver gates.old.vars b }
    ensures { IfOk result (λ l. IsGate gates.old gates.new l (λ s. if value s c then value s a else value s b)) }
{
    let (yes, no) = (gates.constant(true), gates.constant(false));
    if is_either(a, yes, c) {
        or(gates, c, b)
    } else if is_either(a, no, negated(c)) {
        gates.and(negated(c), b)
    } else if is_either(b, no, c) {
        gates.and(c, a)
    } else if is_either(b, yes, negated(c)) {
        or(gates, negated(c), a)
    } else {
        gates.mux(c, a, b)
    }
}

/// The word `a` where `c` is true, and `b` elsewhere.
pub fn choose_word(gates: &mut Gates, c: Lit, a: &Word, b: &Word) -> Result<Word, OutOfMemory>
    requires choice { IsOver gates.old.vars c }
    requires first { IsWordOver gates.old.vars a.now }
    requires second { IsWordOver gates.old.vars b.now }
    ensures { IfOk result (λ w. IsWordGate gates.old gates.new w (λ s. if value s c then number s a.now else number s b.now)) }
{
    let mut word = [gates.constant(true); 32];
    for i in 0..32 {
        word[i] = choose(gates, c, a[i], b[i])?;
    }
    Ok(word)
}

/// A literal that is true where the word isn't 0.
pub fn any(gates: &mut Gates, a: &Word) -> Result<Lit, OutOfMemory>
    requires { IsWordOver gates.old.vars a.now }
    ensures { IfOk result (λ l. IsGate gates.old gates.new l (λ s. nat_lt 0 (number s a.now))) }
{
    let mut any = gates.constant(false);
    for i in 0..32 {
        any = or(gates, any, a[i])?;
    }
    Ok(any)
}
