ghost use Rattle.std.specs.Prelude.{◌≡◌, ◌≤◌, length, true, Contains, IfOk, MatchBool};
ghost use Rattle.dg_base.specs.declared.Lit.{Lit as Literal};
ghost use Rattle.cnf_problem.specs.Literals.{value as truth, IsOver};
ghost use Rattle.trail_state.specs.Trails.{true_lits};

use crate::known::know_well;
use cnf_problem::{Problem, positive};
use dg_base::{Lit, OutOfMemory};
use std::alloc::Global;
use trail_state::Trail;

// Whether a literal is true on the trail.
fn is_true(trail: &Trail, lit: Lit) -> bool
    requires { IsOver trail.now.vars lit }
    ensures { MatchBool result (Contains (true_lits trail.now.entries) lit) (¬ Contains (true_lits trail.now.entries) lit) }
{
    match trail.value(lit) {
        Some(true) => true,
        _ => false,
    }
}

// The truth values of the variables, under which each literal of the trail is true.
pub(crate) fn truth_values(
    alloc: Global,
    problem: &Problem,
    trail: &Trail,
) -> Result<Vec<bool>, OutOfMemory>
    requires { trail.now.vars ≡ problem.now.vars }
    ensures long { IfOk result (λ values. length values.items ≡ problem.now.vars) }
    ensures each { IfOk result (λ values. (l : Literal) → Contains (true_lits trail.now.entries) l → truth values.items l ≡ true) }
{
    know_well(trail);
    let mut values = Vec::with_capacity(alloc, problem.vars as usize)?;
    for v in 0..problem.vars {
        values.push(is_true(trail, positive(v + 1)))?;
    }
    Ok(values)
}
