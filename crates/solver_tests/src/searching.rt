//! Answers of the solver against plain searches: the edges of the true atoms, put together anew, have
//! a cycle or none by `acyclic`.
ghost use Rattle.std.specs.Prelude.{IsTrue};
ghost use Rattle.axiom_model.specs.Sorting.{EndsBelow};

use crate::given::Given;
use axiom_model::{Acyclic, acyclic};
use cnf_problem::{AtomKind, Graph, negated};
use dg_base::{Lit, OutOfMemory};
use order_solver::Step;
use std::alloc::Global;

fn is_below(edge: (u32, u32), nodes: u32) -> bool
    ensures { IsTrue result → EndsBelow nodes edge }
{
    edge.0 < nodes && edge.1 < nodes
}

/// Whether the edges, which are between so many nodes, have no cycle.
fn is_acyclic(alloc: Global, nodes: u32, edges: &[(u32, u32)]) -> Result<bool, OutOfMemory> {
    for edge in edges {
        if !is_below(*edge, nodes) {
            return Err(OutOfMemory);
        }
    }
    let answer = acyclic(alloc, nodes, edges)?;
    Ok(matches!(answer, Acyclic::Sorted(_)))
}

// Whether the mark at this place is set.
fn is_set(marks: &[bool], place: usize) -> bool {
    marks.get(place).copied().unwrap_or(false)
}

// Puts the own edges of the marked atoms in one graph behind the others.
fn put_own(
    given: Given,
    graph: Graph,
    marks: &[bool],
    edges: &mut Vec<(u32, u32)>,
) -> Result<(), OutOfMemory> {
    for (atom, edge) in given.own {
        if edge.graph == graph && is_set(marks, *atom) {
            edges.push((edge.from, edge.to))?;
        }
    }
    Ok(())
}

// Puts the edges behind the others that a read of this write derives with the marked atoms. Each
// node is alone in its block, so both graphs have the same derived edges.
fn put_derived(
    given: Given,
    marks: &[bool],
    write: u32,
    read: u32,
    edges: &mut Vec<(u32, u32)>,
) -> Result<(), OutOfMemory> {
    for (atom, (_, kind)) in given.atoms.iter().enumerate() {
        if let AtomKind::WriteOrder { first, second } = *kind {
            if first == write && is_set(marks, atom) {
                edges.push((read, second))?;
            }
        }
    }
    Ok(())
}

// The edges of one graph: the fixed ones, the own ones of some atoms, and the derived ones of others.
fn edges_of(
    alloc: Global,
    given: Given,
    graph: Graph,
    own: &[bool],
    deriving: &[bool],
) -> Result<Vec<(u32, u32)>, OutOfMemory> {
    let mut edges = Vec::new(alloc);
    for edge in given.fixed {
        if edge.graph == graph {
            edges.push((edge.from, edge.to))?;
        }
    }
    put_own(given, graph, own, &mut edges)?;
    for (atom, (_, kind)) in given.atoms.iter().enumerate() {
        if let AtomKind::ReadFrom { write, read } = *kind {
            if is_set(deriving, atom) {
                put_derived(given, deriving, write, read, &mut edges)?;
            }
        }
    }
    Ok(edges)
}

// Whether neither graph has a cycle.
fn are_acyclic(
    alloc: Global,
    given: Given,
    own: &[bool],
    deriving: &[bool],
) -> Result<bool, OutOfMemory> {
    let local = edges_of(alloc, given, Graph::Local, own, deriving)?;
    let global = edges_of(alloc, given, Graph::Global, own, deriving)?;
    Ok(is_acyclic(alloc, given.nodes, &local)? && is_acyclic(alloc, given.nodes, &global)?)
}

// Whether the atoms that a clause denies have a cycle.
fn is_cycle_clause(alloc: Global, given: Given, clause: &[Lit]) -> Result<bool, OutOfMemory> {
    let mut denied = Vec::new(alloc);
    for (lit, _) in given.atoms {
        denied.push(clause.contains(&negated(*lit)))?;
    }
    Ok(!are_acyclic(alloc, given, &denied, &denied)?)
}

// The value of a literal where these ones are true.
fn value_in(decided: &[Lit], lit: Lit) -> Option<bool> {
    if decided.contains(&lit) {
        Some(true)
    } else if decided.contains(&negated(lit)) {
        Some(false)
    } else {
        None
    }
}

// The values of the atoms' literals.
fn values_of(
    alloc: Global,
    given: Given,
    decided: &[Lit],
) -> Result<Vec<Option<bool>>, OutOfMemory> {
    let mut values = Vec::new(alloc);
    for (lit, _) in given.atoms {
        values.push(value_in(decided, *lit))?;
    }
    Ok(values)
}

// Whether the true atoms close no cycle, nor does the own edge of an unassigned one with them.
fn is_open(alloc: Global, given: Given, values: &[Option<bool>]) -> Result<bool, OutOfMemory> {
    let mut own = Vec::new(alloc);
    let mut deriving = Vec::new(alloc);
    for value in values {
        own.push(*value == Some(true))?;
        deriving.push(*value == Some(true))?;
    }
    for (atom, value) in values.iter().enumerate() {
        if value.is_none() && !is_open_beside(alloc, given, &mut own, &deriving, atom)? {
            return Ok(false);
        }
    }
    are_acyclic(alloc, given, &own, &deriving)
}

// The same where the own edges of one atom more are there.
fn is_open_beside(
    alloc: Global,
    given: Given,
    own: &mut Vec<bool>,
    deriving: &[bool],
    atom: usize,
) -> Result<bool, OutOfMemory> {
    if let Some(mark) = own.get_mut(atom) {
        *mark = true;
    }
    let open = are_acyclic(alloc, given, own, deriving)?;
    if let Some(mark) = own.get_mut(atom) {
        *mark = false;
    }
    Ok(open)
}

// How many literals of a clause are unassigned, where none is true.
fn unassigned_in(decided: &[Lit], clause: &[Lit]) -> Option<u32> {
    let mut count: u32 = 0;
    for lit in clause {
        match value_in(decided, *lit) {
            Some(true) => return None,
            Some(false) => {}
            None => count = count.saturating_add(1),
        }
    }
    Some(count)
}

/// Whether an answer is right where these literals are true: quiet where no cycle is closed, and else a clause of a cycle that is
/// unit where it is implied, and false where it is a conflict.
pub fn is_right(
    alloc: Global,
    given: Given,
    decided: &[Lit],
    step: &Step,
) -> Result<bool, OutOfMemory> {
    let (clause, wanted) = match step {
        Step::Quiet => {
            let values = values_of(alloc, given, decided)?;
            return is_open(alloc, given, &values);
        }
        Step::Implied(clause) => (clause.as_slice(), 1),
        Step::Conflict(clause) => (clause.as_slice(), 0),
    };
    Ok(unassigned_in(decided, clause) == Some(wanted) && is_cycle_clause(alloc, given, clause)?)
}
