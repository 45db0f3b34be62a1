// A search in small: propagation, decisions and learning, until level 0 is refuted.
ghost use Rattle.std.specs.Prelude.{◌≡◌, ◌≤◌, [], IfNone, IfOk, IsTrue};
ghost use Rattle.cnf_problem.specs.declared.problem.Problem.{Problem as TheProblem};
ghost use Rattle.clause_store.specs.NewWatch.{AreOver};
ghost use Rattle.clause_store.specs.Stores.{IsSettled, IsWatching, StoreView, WatchesBelow};

use super::{Rules, clause_of, is_row, learnt_by};
use clause_store::{Store, watches_are_kept};
use cnf_problem::{Clauses, Gates, Problem, var};
use dg_base::{List, Lit, OutOfMemory};
use std::alloc::Global;
use std::test::Fail;
use trail_state::{ClauseId, Trail};

// Whether each literal is of one of the first so many variables.
fn are_over(lits: &[Lit], vars: u32) -> bool
    ensures { IsTrue result → AreOver vars lits.now }
{
    for i in 0..lits.len() {
        if var(lits[i]) == 0 || var(lits[i]) > vars {
            return false;
        }
    }
    true
}

// A problem over the variables 1 to 4, of which 1 is the constant, with the clauses of these rows.
fn problem_of(alloc: Global, rows: &[&[i32]]) -> Result<Option<Problem>, OutOfMemory> {
    let mut gates = Gates::new(alloc)?;
    gates.fresh()?;
    gates.fresh()?;
    gates.fresh()?;
    for row in rows {
        let clause = clause_of(alloc, row)?;
        let lits = clause.as_slice();
        if !are_over(lits, 4) {
            return Ok(None);
        }
        gates.clause(lits)?;
    }
    let problem = gates.finish(List::new(alloc), List::new(alloc), List::new(alloc))?;
    Ok(Some(problem))
}

// A copy of the problem's clauses.
fn rules_of(alloc: Global, problem: &Problem) -> Result<Rules, OutOfMemory> {
    let mut clauses = Clauses::new(alloc);
    for i in 0..problem.clauses.len() {
        clauses.push(problem.clauses.get(i))?;
    }
    Ok(Rules { clauses })
}

// How a search ends: with a clause that is false at level 0, with a model, or without an answer,
// where a run-time test fails or a hundred rounds are not enough.
#[derive(Drop)]
enum End {
    Refuted,
    Model,
    Stopped,
}

// Decides on a literal that is unassigned. Where none is, the trail is a model.
fn decide_next(trail: &mut Trail) -> Option<End>
    ensures { IfNone result ((p : TheProblem) (s : StoreView) → IsWatching p s trail.old → IsSettled p s trail.old → IsWatching p s trail.new) }
{
    watches_are_kept();
    let _count = trail.len();
    let Some(lit) = trail.pick() else {
        return Some(End::Model);
    };
    trail.decide(lit);
    None
}

// Learns from a clause that is false, undoes the trail to level 0 and adds what was learnt.
fn learn_from(
    alloc: Global,
    store: &mut Store,
    trail: &mut Trail,
    rules: &mut Rules,
    conflict: ClauseId,
) -> Result<Option<End>, OutOfMemory>
    requires { (p : TheProblem) × WatchesBelow p store.old trail.old }
    ensures { IfOk result (λ end. IfNone end ((p : TheProblem) → WatchesBelow p store.old trail.old → IsWatching p store.new trail.new)) }
{
    if trail.level() == 0 {
        return Ok(Some(End::Refuted));
    }
    let Some(learnt) = learnt_by(alloc, trail, rules, conflict.0 as usize)? else {
        return Ok(Some(End::Stopped));
    };
    let lits = learnt.lits.as_slice();
    trail.undo_to(0);
    let vars = trail.vars();
    if trail.level() != 0 || !are_over(lits, vars) {
        return Ok(Some(End::Stopped));
    }
    store.add(lits, trail)?;
    rules.clauses.push(lits)?;
    Ok(None)
}

// Propagates, and then decides or learns.
fn round(
    alloc: Global,
    problem: &Problem,
    store: &mut Store,
    trail: &mut Trail,
    rules: &mut Rules,
) -> Result<Option<End>, OutOfMemory>
    requires { IsWatching problem.now store.old trail.old }
    ensures { IfOk result (λ end. IfNone end (IsWatching problem.now store.new trail.new)) }
{
    match store.propagate(problem, trail) {
        None => Ok(decide_next(trail)),
        Some(conflict) => learn_from(alloc, store, trail, rules, conflict),
    }
}

// An empty trail, of which lower variables are picked first.
fn trail_of(alloc: Global, vars: u32) -> Result<Trail, OutOfMemory>
    requires { vars ≤ 2147483647 }
    ensures { IfOk result (λ t. t ≡ record { vars = vars; entries = []; taken = 0 }) }
{
    let mut trail = Trail::new(alloc, vars)?;
    for last in 1..vars + 1 {
        for var in 1..last + 1 {
            trail.bump(var);
        }
    }
    Ok(trail)
}

// How a search for an assignment ends.
fn search(alloc: Global, problem: &Problem, rules: &mut Rules) -> Result<End, OutOfMemory> {
    let mut store = Store::new(alloc, problem)?;
    let mut trail = trail_of(alloc, problem.vars)?;
    for _round in 0..100 {
        if let Some(end) = round(alloc, problem, &mut store, &mut trail, rules)? {
            return Ok(end);
        }
    }
    Ok(End::Stopped)
}

// Whether the clauses behind the first so many are those of the rows, in any order of literals.
fn are_learnt(clauses: &Clauses, first: usize, rows: &[&[i32]]) -> bool {
    let mut i = first;
    for row in rows {
        if i >= clauses.len() || !is_row(clauses.get(i), row) {
            return false;
        }
        i += 1;
    }
    i == clauses.len()
}

// Whether a search of these rows is refuted, and learns these clauses before, in this order.
fn is_refuted(alloc: Global, rows: &[&[i32]], learnt: &[&[i32]]) -> Result<bool, OutOfMemory> {
    let Some(problem) = problem_of(alloc, rows)? else {
        return Ok(false);
    };
    let mut rules = rules_of(alloc, &problem)?;
    match search(alloc, &problem, &mut rules)? {
        End::Refuted => Ok(are_learnt(&rules.clauses, problem.clauses.len(), learnt)),
        End::Model | End::Stopped => Ok(false),
    }
}

// Whether a model of the rows is found.
fn has_model(alloc: Global, rows: &[&[i32]]) -> Result<bool, OutOfMemory> {
    let Some(problem) = problem_of(alloc, rows)? else {
        return Ok(false);
    };
    let mut rules = rules_of(alloc, &problem)?;
    match search(alloc, &problem, &mut rules)? {
        End::Model => Ok(true),
        End::Refuted | End::Stopped => Ok(false),
    }
}

// All signs over three variables.
fn eight() -> &'static [&'static [i32]] {
    &[
        &[2, 3, 4],
        &[2, 3, -4],
        &[2, -3, 4],
        &[2, -3, -4],
        &[-2, 3, 4],
        &[-2, 3, -4],
        &[-2, -3, 4],
        &[-2, -3, -4],
    ]
}

// Clauses of two and of three literals that no assignment makes true.
fn mixed() -> &'static [&'static [i32]] {
    &[
        &[2, 3],
        &[-2, -3],
        &[2, -3, 4],
        &[2, -3, -4],
        &[-2, 3, 4],
        &[-2, 3, -4],
    ]
}

// The mixed clauses but one.
fn satisfiable() -> &'static [&'static [i32]] {
    &[&[2, 3], &[-2, -3], &[2, -3, 4], &[2, -3, -4], &[-2, 3, 4]]
}

#[test]
fn reaches_the_empty_clause(rt: HostRuntime) -> Result<(), Fail> {
    assert!(rt; is_refuted(rt.alloc(), eight(), &[&[2, 3], &[2], &[-3]])?);
    assert!(rt; is_refuted(rt.alloc(), mixed(), &[&[2]])?);
    assert!(rt; has_model(rt.alloc(), satisfiable())?);
    Ok(())
}
