//! The clauses of one link.

ghost use Rattle.std.specs.Prelude.{◌≡◌, ◌∷◌, [], ◌++◌, IfOk, OnOk, All, length};
ghost use Rattle.cnf_problem.specs.Literals.{negated as negation, IsOver};
ghost use Rattle.order_vars.specs.Clauses.{with_clauses, bit_clauses, both_clauses, same_clauses};

use cnf_problem::{Gates, negated};
use dg_base::{Lit, OutOfMemory};

/// Where the literal is true, so are both guards.
pub(crate) fn both_happen(
    gates: &mut Gates,
    lit: Lit,
    first: Lit,
    second: Lit,
) -> Result<(), OutOfMemory>
    requires lit { IsOver gates.old.vars lit }
    requires first { IsOver gates.old.vars first }
    requires second { IsOver gates.old.vars second }
    ensures { OnOk result (gates.new ≡ with_clauses gates.old (both_clauses lit first second)) }
{
    gates.clause(&[negated(lit), first])?;
    gates.clause(&[negated(lit), second])
}

// Where the literal is true, the two bits agree.
fn same_bit(gates: &mut Gates, lit: Lit, first: Lit, second: Lit) -> Result<(), OutOfMemory>
    requires lit { IsOver gates.old.vars lit }
    requires first { IsOver gates.old.vars first }
    requires second { IsOver gates.old.vars second }
    ensures { OnOk result (gates.new ≡ with_clauses gates.old (bit_clauses lit first second)) }
{
    gates.clause(&[negated(lit), negated(first), second])?;
    gates.clause(&[negated(lit), first, negated(second)])
}

/// Where the literal is true, the bits agree.
pub(crate) fn same_bits(
    gates: &mut Gates,
    lit: Lit,
    first: &[Lit; 32],
    second: &[Lit; 32],
) -> Result<(), OutOfMemory>
    requires lit { IsOver gates.old.vars lit }
    requires first { All (IsOver gates.old.vars) first.now }
    requires second { All (IsOver gates.old.vars) second.now }
    ensures { OnOk result (gates.new ≡ with_clauses gates.old (same_clauses lit first.now second.now)) }
{
    for i in 0..32 {
        same_bit(gates, lit, first[i], second[i])?;
    }
    Ok(())
}

/// Where the literal is true, some bit is.
pub(crate) fn some_bit(gates: &mut Gates, lit: Lit, bits: &[Lit; 32]) -> Result<(), OutOfMemory>
    requires lit { IsOver gates.old.vars lit }
    requires bits { All (IsOver gates.old.vars) bits.now }
    ensures { OnOk result (gates.new ≡ with_clauses gates.old ((negation lit ∷ bits.now) ∷ [])) }
{
    let mut clause = [negated(lit); 33];
    for i in 0..32 {
        clause[i + 1] = bits[i];
    }
    gates.clause(&clause)
}

/// Where both happen, one of the orders is true.
pub(crate) fn some_order(
    gates: &mut Gates,
    guards: (Lit, Lit),
    lit: Lit,
    back: Lit,
) -> Result<(), OutOfMemory>
    requires first { IsOver gates.old.vars guards.0 }
    requires second { IsOver gates.old.vars guards.1 }
    requires lit { IsOver gates.old.vars lit }
    requires back { IsOver gates.old.vars back }
    ensures { OnOk result (gates.new ≡ with_clauses gates.old ((negation guards.0 ∷ negation guards.1 ∷ lit ∷ back ∷ []) ∷ [])) }
{
    gates.clause(&[negated(guards.0), negated(guards.1), lit, back])
}
