//! Problems from tables, with moves and the answer behind each.
use crate::given::{Given, problem_of};
use crate::pair::Pair;
use cnf_problem::{AtomKind, Edge, Graph, Problem, negated, positive};
use dg_base::{Lit, OutOfMemory};
use order_solver::Step;
use std::alloc::Global;
use std::test::Fail;

/// An edge of the graph of each location.
pub fn local(from: u32, to: u32) -> Edge {
    Edge {
        graph: Graph::Local,
        from,
        to,
    }
}

/// An edge of the graph of all locations.
pub fn global(from: u32, to: u32) -> Edge {
    Edge {
        graph: Graph::Global,
        from,
        to,
    }
}

/// The literal of the variable with this number, the first at 0.
pub fn of(number: u32) -> Lit {
    positive(number.min(10000) + 2)
}

fn not(number: u32) -> Lit {
    negated(of(number))
}

#[derive(Clone, Copy, Drop)]
enum Move {
    Decide(Lit),
    UndoTo(u32),
}

#[derive(Clone, Copy, Drop)]
enum Answer<'a> {
    Quiet,
    Implied(&'a [Lit]),
    Conflict(&'a [Lit]),
}

// Whether a clause has exactly these literals.
fn has_just(clause: &[Lit], lits: &[Lit]) -> bool {
    clause.len() == lits.len() && lits.iter().all(|lit| clause.contains(lit))
}

fn is_answer(step: &Step, answer: Answer) -> bool {
    match (step, answer) {
        (Step::Quiet, Answer::Quiet) => true,
        (Step::Implied(clause), Answer::Implied(lits)) => has_just(clause.as_slice(), lits),
        (Step::Conflict(clause), Answer::Conflict(lits)) => has_just(clause.as_slice(), lits),
        _ => false,
    }
}

// Makes a move and asks; whether `check` finds a conflict exactly where the answer is one, and
// `propagate` answers so.
fn is_right(
    alloc: Global,
    pair: &mut Pair,
    next: Move,
    answer: Answer,
) -> Result<bool, OutOfMemory> {
    match next {
        Move::Decide(lit) => {
            pair.decide(lit);
        }
        Move::UndoTo(level) => pair.undo_to(level),
    }
    let found = pair.check(alloc)?.is_some();
    if found != matches!(answer, Answer::Conflict(_)) {
        return Ok(false);
    }
    let step = pair.propagate(alloc)?;
    Ok(is_answer(&step, answer))
}

// The first row whose answer is wrong, on a solver and its trail.
fn wrong_move(
    alloc: Global,
    pair: &mut Pair,
    rows: &[(Move, Answer)],
) -> Result<Option<usize>, OutOfMemory> {
    for (i, (next, answer)) in rows.iter().enumerate() {
        if !is_right(alloc, pair, *next, *answer)? {
            return Ok(Some(i));
        }
    }
    Ok(None)
}

// The first row whose answer is wrong, on a new solver of a problem.
fn wrong_row(
    alloc: Global,
    given: Given,
    rows: &[(Move, Answer)],
) -> Result<Option<usize>, OutOfMemory> {
    let mut pair = Pair::new(alloc, problem_of(alloc, given)?)?;
    wrong_move(alloc, &mut pair, rows)
}

#[test]
fn three_nodes_in_a_circle(rt: HostRuntime) -> Result<(), Fail> {
    let plain = AtomKind::Plain;
    let given = Given {
        vars: 3,
        nodes: 3,
        atoms: &[(of(0), plain), (of(1), plain), (of(2), plain)],
        own: &[(0, local(0, 1)), (1, local(1, 2)), (2, local(2, 0))],
        fixed: &[],
    };
    let all = [not(0), not(1), not(2)];
    let rows = [
        (Move::Decide(of(0)), Answer::Quiet),
        (Move::Decide(of(1)), Answer::Implied(&all)),
        (Move::UndoTo(9), Answer::Implied(&all)),
        (Move::Decide(of(2)), Answer::Conflict(&all)),
        (Move::UndoTo(9), Answer::Conflict(&all)),
        (Move::UndoTo(1), Answer::Quiet),
        (Move::Decide(of(2)), Answer::Implied(&all)),
        (Move::UndoTo(0), Answer::Quiet),
        (Move::Decide(not(1)), Answer::Quiet),
        (Move::Decide(of(2)), Answer::Quiet),
        (Move::Decide(of(0)), Answer::Quiet),
    ];
    assert_eq!(rt; wrong_row(rt.alloc(), given, &rows)?, None);
    Ok(())
}

#[test]
fn a_loop_at_one_node(rt: HostRuntime) -> Result<(), Fail> {
    let given = Given {
        vars: 1,
        nodes: 2,
        atoms: &[(of(0), AtomKind::Plain)],
        own: &[(0, global(1, 1))],
        fixed: &[],
    };
    let denial = [not(0)];
    let rows = [
        (Move::UndoTo(0), Answer::Implied(&denial)),
        (Move::Decide(of(0)), Answer::Conflict(&denial)),
        (Move::UndoTo(0), Answer::Implied(&denial)),
        (Move::Decide(not(0)), Answer::Quiet),
    ];
    assert_eq!(rt; wrong_row(rt.alloc(), given, &rows)?, None);
    Ok(())
}

// Fixed edges cause nothing: an atom's edge against one is denied alone, and a cycle of fixed edges
// is an empty clause.
#[test]
fn fixed_edges(rt: HostRuntime) -> Result<(), Fail> {
    let against = Given {
        vars: 1,
        nodes: 2,
        atoms: &[(of(0), AtomKind::Plain)],
        own: &[(0, local(1, 0))],
        fixed: &[local(0, 1)],
    };
    let denial = [not(0)];
    let denied = [(Move::UndoTo(0), Answer::Implied(&denial))];
    assert_eq!(rt; wrong_row(rt.alloc(), against, &denied)?, None);
    let circle = Given {
        fixed: &[global(0, 1), global(1, 0)],
        ..against
    };
    let refused = [
        (Move::UndoTo(0), Answer::Conflict(&[])),
        (Move::Decide(of(0)), Answer::Conflict(&[])),
        (Move::UndoTo(0), Answer::Conflict(&[])),
    ];
    assert_eq!(rt; wrong_row(rt.alloc(), circle, &refused)?, None);
    Ok(())
}

// A read of write 0 before a write 2 behind it, which is before the read: either atom of the pair
// may come last, and the clause denies both.
#[test]
fn a_derived_edge_has_two_causes(rt: HostRuntime) -> Result<(), Fail> {
    let read = AtomKind::ReadFrom { write: 0, read: 1 };
    let order = AtomKind::WriteOrder {
        first: 0,
        second: 2,
    };
    let given = Given {
        vars: 3,
        nodes: 3,
        atoms: &[(of(0), read), (of(1), order), (of(2), AtomKind::Plain)],
        own: &[(1, local(0, 2)), (1, global(0, 2)), (2, global(2, 1))],
        fixed: &[],
    };
    let all = [not(0), not(1), not(2)];
    let rows = [
        (Move::Decide(of(0)), Answer::Quiet),
        (Move::Decide(of(1)), Answer::Implied(&all)),
        (Move::UndoTo(0), Answer::Quiet),
        (Move::Decide(of(1)), Answer::Quiet),
        (Move::Decide(of(0)), Answer::Implied(&all)),
        (Move::UndoTo(1), Answer::Quiet),
        (Move::Decide(of(2)), Answer::Quiet),
        (Move::Decide(of(0)), Answer::Conflict(&all)),
        (Move::UndoTo(2), Answer::Quiet),
    ];
    assert_eq!(rt; wrong_row(rt.alloc(), given, &rows)?, None);
    Ok(())
}

// An atom for each of so many nodes.
fn circle_atoms(alloc: Global, nodes: u32) -> Result<Vec<(Lit, AtomKind)>, OutOfMemory> {
    let mut atoms = Vec::new(alloc);
    for node in 0..nodes {
        atoms.push((of(node), AtomKind::Plain))?;
    }
    Ok(atoms)
}

// An edge from each of so many nodes to the next one, and from the last to the first.
fn circle_edges(alloc: Global, nodes: u32) -> Result<Vec<(usize, Edge)>, OutOfMemory> {
    let mut own = Vec::new(alloc);
    for node in 0..nodes {
        own.push((node as usize, local(node, (node + 1) % nodes)))?;
    }
    Ok(own)
}

// A circle of so many nodes, each edge an atom's.
fn circle(alloc: Global, nodes: u32) -> Result<Problem, OutOfMemory> {
    let atoms = circle_atoms(alloc, nodes)?;
    let own = circle_edges(alloc, nodes)?;
    let given = Given {
        vars: nodes,
        nodes,
        atoms: &atoms,
        own: &own,
        fixed: &[],
    };
    problem_of(alloc, given)
}

// Decides the atoms of all nodes but the first.
fn decide_line(pair: &mut Pair, nodes: u32) {
    for node in 1..nodes {
        pair.decide(of(node));
    }
}

// The length of the clause that is implied where all atoms of a circle of so many nodes but the
// first are true.
fn length_of_circle(alloc: Global, nodes: u32) -> Result<Option<usize>, OutOfMemory> {
    let mut pair = Pair::new(alloc, circle(alloc, nodes)?)?;
    decide_line(&mut pair, nodes);
    Ok(match pair.propagate(alloc)? {
        Step::Implied(clause) => Some(clause.len()),
        _ => None,
    })
}

#[test]
fn a_circle_of_a_thousand_nodes(rt: HostRuntime) -> Result<(), Fail> {
    assert_eq!(rt; length_of_circle(rt.alloc(), 1000)?, Some(1000));
    Ok(())
}
