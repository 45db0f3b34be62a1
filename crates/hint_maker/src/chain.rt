// Reads a chain off a trail.
ghost use Rattle.std.specs.Prelude.{◌≡◌, ◌<◌, ◌++◌, All, Contains, IfOk, List as TheList, OnOk, length, map, reverse, slice_get, suc, take};
ghost use Rattle.dg_base.specs.declared.Lit.{Lit as Literal};
ghost use Rattle.clause_store.specs.Stores.{clauses_of};
ghost use Rattle.cnf_problem.specs.Literals.{negated as negation, var as variable};
ghost use Rattle.log_checker.specs.Hints.{named};
ghost use Rattle.trail_state.specs.Trails.{IsWell, true_lits};
ghost use Rattle.unit_refuter.specs.Refuting.{AreDerived};
ghost use Rattle.hint_maker.specs.Lean.{AreLean};
ghost use Rattle.hint_maker.specs.Walking.{AreMarked, IsEnd, IsTail, NoneIsMarked};

use crate::ends::End;
use crate::listed::{is_needed, mark};
use cnf_problem::{Problem, var};
use dg_base::{List, Lit, OutOfMemory};
use lemma_log::Hint;
use std::alloc::Global;
use trail_state::ClauseId;
use unit_refuter::Refuter;

// The hint that names a clause by its number.
fn hint_of(problem: &Problem, id: ClauseId) -> Hint
    ensures { (before : TheList (TheList Literal)) → named problem.now before result ≡ slice_get (problem.now.clauses ++ before) id.0 }
{
    let clauses = problem.clauses.len() as u32;
    if id.0 < clauses {
        Hint::Clause(id.0 + 1)
    } else {
        Hint::Ticket(id.0 - clauses)
    }
}

// One step back: where the literal at this place of the trail is needed, its reason comes in front.
fn step(
    refuter: &Refuter,
    problem: &Problem,
    lits: &[Lit],
    place: u32,
    marks: &mut [bool],
    back: &mut Vec<Hint>,
) -> Result<(), OutOfMemory>
    requires well { IsWell refuter.now.trail }
    requires derived { AreDerived (clauses_of problem.now refuter.now.store) lits.now refuter.now.trail.entries }
    requires place { place < length refuter.now.trail.entries }
    requires apart { (l : Literal) → Contains (true_lits (take (suc place) refuter.now.trail.entries)) l → ¬ Contains lits.now l }
    requires room { All (All (λ m. variable m < length marks.old)) (clauses_of problem.now refuter.now.store) }
    requires marked { AreMarked lits.now refuter.now.trail.entries marks.old (suc place) }
    ensures marked { OnOk result (AreMarked lits.now refuter.now.trail.entries marks.new place) }
    ensures tail { OnOk result ((further : TheList (TheList Literal)) → IsTail problem.now (refuter.now.store.added ++ further) lits.now refuter.now.trail.entries marks.old (suc place) (reverse back.old.items) → IsTail problem.now (refuter.now.store.added ++ further) lits.now refuter.now.trail.entries marks.new place (reverse back.new.items)) }
{
    let lit = refuter.trail().lit_at(place);
    if !is_needed(marks, lit) {
        return Ok(());
    }
    let Some(reason) = refuter.trail().reason_of(lit) else {
        unreachable!();
    };
    back.push(hint_of(problem, reason))?;
    mark(marks, lits, refuter.clause(problem, reason));
    marks[var(lit) as usize] = false;
    Ok(())
}

/// The hints of a refuted lemma, back from the end of its chain. No variable is marked before or after. The time is that of one
/// reading of the trail, and of the clauses of the chain.
pub fn chain(
    alloc: Global,
    refuter: &Refuter,
    problem: &Problem,
    lits: &[Lit],
    end: End,
    marks: &mut [bool],
) -> Result<List<Hint>, OutOfMemory>
    requires well { IsWell refuter.now.trail }
    requires derived { AreDerived (clauses_of problem.now refuter.now.store) lits.now refuter.now.trail.entries }
    requires end { IsEnd (clauses_of problem.now refuter.now.store) lits.now refuter.now.trail.entries end }
    requires room { All (All (λ m. variable m < length marks.old)) (clauses_of problem.now refuter.now.store) }
    requires none { NoneIsMarked marks.old }
    ensures none { OnOk result (NoneIsMarked marks.new) }
    ensures sized { length marks.new ≡ length marks.old }
    ensures lean { IfOk result (λ hints. (further : TheList (TheList Literal)) → AreLean problem.now (refuter.now.store.added ++ further) (map negation lits.now) hints) }
{
    let mut back = Vec::new(alloc);
    back.push(hint_of(problem, end.clause))?;
    mark(marks, lits, refuter.clause(problem, end.clause));
    for place in (0..end.before).rev() {
        step(refuter, problem, lits, place, marks, &mut back)?;
    }
    back.reverse();
    Ok(List::from_vec(back))
}
