use crate::{
    Atom, AtomKind, Clauses, Edge, Gates, Graph, Head, Node, Problem, head, negated, positive, var,
};
use dg_base::{List, Lit, OutOfMemory};
use std::alloc::Global;
use std::test::Fail;

// Whether the literal is true under the assignment.
fn is_true(lit: Lit, assignment: &[bool]) -> bool {
    let i = var(lit) as usize;
    i > 0 && assignment.get(i - 1) == Some(&(lit.0 % 2 == 0))
}

// Whether each clause has a true literal.
fn are_satisfied(clauses: &Clauses, assignment: &[bool]) -> bool {
    for i in 0..clauses.len() {
        if !clauses.get(i).iter().any(|lit| is_true(*lit, assignment)) {
            return false;
        }
    }
    true
}

enum Gate {
    And,
    Xor,
    Mux,
}

// A problem with the constant, three inputs (variables 2 to 4) and one gate (variable 5).
fn problem_of(alloc: Global, gate: &Gate) -> Result<Problem, OutOfMemory> {
    let mut gates = Gates::new(alloc)?;
    let a = gates.fresh()?;
    let b = gates.fresh()?;
    let c = gates.fresh()?;
    match gate {
        Gate::And => gates.and(a, b)?,
        Gate::Xor => gates.xor(a, b)?,
        Gate::Mux => gates.mux(c, a, b)?,
    };
    gates.finish(List::new(alloc), List::new(alloc), List::new(alloc))
}

#[test]
fn gates_have_their_values(rt: HostRuntime) -> Result<(), Fail> {
    let (no, yes) = (false, true);
    // For each a, b and c the value of the conjunction, the exclusive or and the choice.
    let rows = [
        ([no, no, no], [no, no, no]),
        ([yes, no, no], [no, yes, no]),
        ([no, yes, no], [no, yes, yes]),
        ([yes, yes, no], [yes, no, yes]),
        ([no, no, yes], [no, no, no]),
        ([yes, no, yes], [no, yes, yes]),
        ([no, yes, yes], [no, yes, no]),
        ([yes, yes, yes], [yes, no, yes]),
    ];
    let and = problem_of(rt.alloc(), &Gate::And)?;
    let xor = problem_of(rt.alloc(), &Gate::Xor)?;
    let mux = problem_of(rt.alloc(), &Gate::Mux)?;
    for ([a, b, c], [in_and, in_xor, in_mux]) in rows {
        for (problem, want) in [(&and, in_and), (&xor, in_xor), (&mux, in_mux)] {
            let clauses = &problem.clauses;
            assert!(rt; are_satisfied(clauses, &[true, a, b, c, want]));
            assert!(rt; !are_satisfied(clauses, &[true, a, b, c, !want]));
        }
    }
    Ok(())
}

#[test]
fn constants_are_folded(rt: HostRuntime) -> Result<(), Fail> {
    let mut gates = Gates::new(rt.alloc())?;
    let (yes, no) = (gates.constant(true), gates.constant(false));
    let a = gates.fresh()?;
    assert_eq!(rt; gates.and(a, negated(a))?, no);
    assert_eq!(rt; gates.xor(a, a)?, no);
    assert_eq!(rt; gates.mux(a, yes, yes)?, yes);
    Ok(())
}

#[test]
fn clauses_lie_one_after_another(rt: HostRuntime) -> Result<(), Fail> {
    let (a, b) = (positive(1), positive(2));
    let mut clauses = Clauses::new(rt.alloc());
    assert!(rt; clauses.is_empty());
    clauses.push(&[a, b])?;
    clauses.push_all(&[&[], &[negated(a)]])?;
    assert_eq!(rt; clauses.len(), 3);
    assert_eq!(rt; clauses.get(0), [a, b].as_slice());
    assert_eq!(rt; clauses.get(1).len(), 0);
    assert_eq!(rt; clauses.get(2), [negated(a)].as_slice());
    clauses.truncate(1);
    assert_eq!(rt; clauses.len(), 1);
    assert_eq!(rt; clauses.get(0), [a, b].as_slice());
    Ok(())
}

fn crosses_threads<T: Send + Sync>(_: &T) {}

#[test]
fn finishes_a_problem(rt: HostRuntime) -> Result<(), Fail> {
    let alloc = rt.alloc();
    let mut gates = Gates::new(alloc)?;
    gates.reserve(3, 9)?;
    let lit = gates.fresh()?;
    gates.clause(&[lit])?;
    let edge = Edge {
        graph: Graph::Local,
        from: 0,
        to: 1,
    };
    let node = Node {
        block: 0,
        first: 0,
        last: 1,
    };
    let atom = Atom {
        lit,
        kind: AtomKind::ReadFrom { write: 0, read: 1 },
        edges: List::from_slice(alloc, &[edge])?,
    };
    let nodes = List::from_slice(alloc, &[node, node])?;
    let mut atoms = List::new(alloc);
    atoms.push(atom)?;
    let problem = gates.finish(nodes, atoms, List::from_slice(alloc, &[edge])?)?;
    crosses_threads(&problem);
    assert_eq!(rt; problem.clauses.len(), 2);
    let want = Head {
        model: 1,
        unroll: 2,
        vars: 2,
        clauses: 2,
        nodes: 2,
        atoms: 1,
    };
    assert_eq!(rt; head(&problem, 1, 2), want);
    Ok(())
}
