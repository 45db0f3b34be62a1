mod scanning;

use clause_store::Store;
use cnf_problem::{Gates, Problem, negated};
use dg_base::{List, Lit, OutOfMemory};
use std::alloc::Global;
use std::test::Fail;
use trail_state::Trail;

// A problem with the constant and the variables 2 to 4, of which 2 is true and implies 3.
fn chain(alloc: Global) -> Result<Problem, OutOfMemory> {
    let mut gates = Gates::new(alloc)?;
    let a = gates.fresh()?;
    let b = gates.fresh()?;
    gates.fresh()?;
    gates.clause(&[negated(a), b])?;
    gates.clause(&[a, a])?;
    gates.finish(List::new(alloc), List::new(alloc), List::new(alloc))
}

// A problem whose clauses over the variables 2 and 3 leave no value to either.
fn refuted(alloc: Global) -> Result<Problem, OutOfMemory> {
    let mut gates = Gates::new(alloc)?;
    let a = gates.fresh()?;
    let b = gates.fresh()?;
    gates.clause(&[a])?;
    gates.clause(&[negated(a), b])?;
    gates.clause(&[negated(a), negated(b)])?;
    gates.finish(List::new(alloc), List::new(alloc), List::new(alloc))
}

#[test]
fn units_are_propagated(rt: HostRuntime) -> Result<(), Fail> {
    let problem = chain(rt.alloc())?;
    let mut store = Store::new(rt.alloc(), &problem)?;
    let mut trail = Trail::new(rt.alloc(), problem.vars)?;
    assert!(rt; store.propagate(&problem, &mut trail).is_none());
    assert_eq!(rt; trail.len(), 3);
    Ok(())
}

#[test]
fn a_conflict_is_named(rt: HostRuntime) -> Result<(), Fail> {
    let problem = refuted(rt.alloc())?;
    let mut store = Store::new(rt.alloc(), &problem)?;
    let mut trail = Trail::new(rt.alloc(), problem.vars)?;
    let conflict = store.propagate(&problem, &mut trail);
    assert!(rt; conflict.is_some());
    Ok(())
}

#[test]
fn an_added_clause_is_looked_at(rt: HostRuntime) -> Result<(), Fail> {
    let problem = chain(rt.alloc())?;
    let mut store = Store::new(rt.alloc(), &problem)?;
    let mut trail = Trail::new(rt.alloc(), problem.vars)?;
    if problem.vars >= 4 {
        let id = store.add(&[Lit(9)], &trail)?;
        assert_eq!(rt; id.0, 3);
        assert!(rt; store.propagate(&problem, &mut trail).is_none());
        assert_eq!(rt; trail.len(), 4);
    }
    Ok(())
}

#[derive(Drop)]
enum Odd {
    BothSigns,
    Empty,
    Twice,
    TwiceEach,
}

// A problem with the constant, the variable 2 and clauses that cannot be watched, or need not be.
fn odd_problem(alloc: Global, odd: &Odd) -> Result<Problem, OutOfMemory> {
    let mut gates = Gates::new(alloc)?;
    let a = gates.fresh()?;
    match odd {
        Odd::BothSigns => gates.clause(&[a, negated(a)])?,
        Odd::Empty => gates.clause(&[])?,
        Odd::Twice => gates.clause(&[a, a])?,
        Odd::TwiceEach => {
            gates.clause(&[a, a])?;
            gates.clause(&[negated(a), negated(a)])?;
        }
    }
    gates.finish(List::new(alloc), List::new(alloc), List::new(alloc))
}

#[test]
fn odd_clauses_are_looked_at(rt: HostRuntime) -> Result<(), Fail> {
    // The clause that is false, and how many literals are true.
    let rows = [
        (Odd::BothSigns, None, 1),
        (Odd::Empty, Some(1), 1),
        (Odd::Twice, None, 2),
        (Odd::TwiceEach, Some(2), 2),
    ];
    for (odd, conflict, count) in rows {
        let problem = odd_problem(rt.alloc(), &odd)?;
        let mut store = Store::new(rt.alloc(), &problem)?;
        let mut trail = Trail::new(rt.alloc(), problem.vars)?;
        let found = store.propagate(&problem, &mut trail);
        assert_eq!(rt; found.map(|id| id.0), conflict);
        assert_eq!(rt; trail.len(), count);
    }
    Ok(())
}
