ghost use Rattle.std.specs.Prelude.{◌≡◌, ◌<◌, ℕ, List, Some, slice_get, length, IfOk, Contains};
ghost use Rattle.dg_base.specs.declared.Lit.{Lit as Literal};
ghost use Rattle.cnf_problem.specs.Literals.{var};
ghost use Rattle.cnf_problem.specs.Chains.{AllFalse};
ghost use Rattle.trail_state.specs.Trails.{true_lits, level, level_of};
ghost use Rattle.trail_state.specs.Forcing.{AreForced};
ghost use Rattle.conflict_learn.specs.Learning.{IsLearnt};

use crate::resolvent::Resolvent;
use dg_base::{Lit, OutOfMemory};
use std::alloc::Global;
use trail_state::{Lits, Reasons, Trail};

/// A learnt clause, and the level to go back to.
#[derive(Debug, Drop)]
pub struct Learnt {
    /// The literals, each of a variable of its own.
    pub lits: Lits,
    /// The least level at which the clause asserts a literal.
    pub back: u32,
}

/// Learns a clause from a conflict, a clause that is false on the trail and has a literal of the
/// present level. `reasons` has the clauses that forced the trail's literals.
///
/// The time is linear in the length of the trail and of the reasons that are resolved with, the
/// memory in the number of variables. An error changes nothing.
pub fn learn<R: Reasons>(
    alloc: Global,
    trail: &Trail,
    reasons: &R,
    conflict: &[Lit],
) -> Result<Learnt, OutOfMemory>
    requires above { 0 < level trail.now.entries }
    requires refuted { AllFalse (true_lits trail.now.entries) conflict.now }
    requires here { (l : Literal) × Contains conflict.now l × (level_of (var l) trail.now.entries ≡ level trail.now.entries) }
    requires forced { AreForced (R.clauses reasons.now) trail.now.entries }
    ensures { IfOk result (λ learnt. IsLearnt (R.clauses reasons.now) trail.now.entries conflict.now learnt.lits learnt.back) }
{
    let mut resolvent = Resolvent::new(alloc, trail)?;
    resolvent.add(trail, conflict);
    resolvent.reduce(trail, reasons);
    resolvent.learnt(alloc, trail)
}
