//! Problems from tables.
ghost use Rattle.std.specs.Prelude.{◌<◌, All, IsTrue};
ghost use Rattle.cnf_problem.specs.Bounds.{AreGraphs, IsAtomOver, IsBetween, IsNodeOf, nodes_of};

use crate::pair::is_lit_over;
use cnf_problem::{Atom, AtomKind, Edge, Gates, Node, Problem, var};
use dg_base::{List, Lit, OutOfMemory};
use std::alloc::Global;

/// A problem without clauses whose nodes are each alone in a block: how many variables and nodes it
/// has, its atoms, their own edges by the atom's place, and the fixed edges.
#[derive(Clone, Copy, Drop)]
pub struct Given<'a> {
    pub vars: u32,
    pub nodes: u32,
    pub atoms: &'a [(Lit, AtomKind)],
    pub own: &'a [(usize, Edge)],
    pub fixed: &'a [Edge],
}

// Whether the ends of a node's block are among so many nodes.
fn is_node_of(node: Node, nodes: usize) -> bool
    ensures { IsTrue result → IsNodeOf nodes node }
{
    (node.first as usize) < nodes && (node.last as usize) < nodes
}

fn are_nodes(list: &[Node], nodes: usize) -> bool
    ensures { IsTrue result → All (IsNodeOf nodes) list.now }
{
    for node in list {
        if !is_node_of(*node, nodes) {
            return false;
        }
    }
    true
}

// Whether the nodes of an atom of this kind are among so many.
fn is_kind_over(kind: AtomKind, nodes: usize) -> bool
    ensures { IsTrue result → All (λ n. n < nodes) (nodes_of kind) }
{
    match kind {
        AtomKind::ReadFrom { write, read } => (write as usize) < nodes && (read as usize) < nodes,
        AtomKind::WriteOrder { first, second } => {
            (first as usize) < nodes && (second as usize) < nodes
        }
        AtomKind::Plain => true,
    }
}

// Whether an edge is between two of so many nodes.
fn is_between(edge: Edge, nodes: usize) -> bool
    ensures { IsTrue result → IsBetween nodes edge }
{
    (edge.from as usize) < nodes && (edge.to as usize) < nodes
}

fn are_between(edges: &[Edge], nodes: usize) -> bool
    ensures { IsTrue result → All (IsBetween nodes) edges.now }
{
    for edge in edges {
        if !is_between(*edge, nodes) {
            return false;
        }
    }
    true
}

fn is_atom_over(atom: &Atom, vars: u32, nodes: usize) -> bool
    ensures { IsTrue result → IsAtomOver vars nodes atom.now }
{
    is_lit_over(atom.lit, vars)
        && is_kind_over(atom.kind, nodes)
        && are_between(atom.edges.as_slice(), nodes)
}

fn are_atoms(list: &[Atom], vars: u32, nodes: usize) -> bool
    ensures { IsTrue result → All (IsAtomOver vars nodes) list.now }
{
    for atom in list {
        if !is_atom_over(atom, vars, nodes) {
            return false;
        }
    }
    true
}

// Whether nodes, atoms and fixed edges fit a problem with so many variables.
fn are_graphs(vars: u32, nodes: &[Node], atoms: &[Atom], fixed: &[Edge]) -> bool
    ensures { IsTrue result → AreGraphs vars nodes.now atoms.now fixed.now }
{
    let count = nodes.len();
    count <= 1000000
        && atoms.len() <= 1000000
        && are_nodes(nodes, count)
        && are_atoms(atoms, vars, count)
        && are_between(fixed, count)
}

// So many nodes that are each alone in a block.
fn nodes_of(alloc: Global, count: u32) -> Result<List<Node>, OutOfMemory> {
    let mut nodes = List::new(alloc);
    for node in 0..count {
        nodes.push(Node {
            block: node,
            first: node,
            last: node,
        })?;
    }
    Ok(nodes)
}

// The own edges of the atom at this place.
fn own_edges(alloc: Global, given: Given, place: usize) -> Result<List<Edge>, OutOfMemory> {
    let mut edges = List::new(alloc);
    for (atom, edge) in given.own {
        if *atom == place {
            edges.push(*edge)?;
        }
    }
    Ok(edges)
}

fn atoms_of(alloc: Global, given: Given) -> Result<List<Atom>, OutOfMemory> {
    let mut atoms = List::new(alloc);
    for (place, (lit, kind)) in given.atoms.iter().enumerate() {
        let edges = own_edges(alloc, given, place)?;
        atoms.push(Atom {
            lit: *lit,
            kind: *kind,
            edges,
        })?;
    }
    Ok(atoms)
}

/// The problem. Want of memory also where a variable, a node or an edge is none of it. It has one
/// variable more than are given.
pub fn problem_of(alloc: Global, given: Given) -> Result<Problem, OutOfMemory> {
    let nodes = nodes_of(alloc, given.nodes)?;
    let atoms = atoms_of(alloc, given)?;
    let fixed = List::from_slice(alloc, given.fixed)?;
    let mut gates = Gates::new(alloc)?;
    for _ in 0..given.vars {
        gates.fresh()?;
    }
    let last = gates.fresh()?;
    if !are_graphs(
        var(last),
        nodes.as_slice(),
        atoms.as_slice(),
        fixed.as_slice(),
    ) {
        return Err(OutOfMemory);
    }
    gates.finish(nodes, atoms, fixed)
}
