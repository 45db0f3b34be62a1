ghost use Rattle.std.specs.Prelude.{map};
ghost use Rattle.std.specs.List.Sorted.{IsStrictlyIncreasing};
ghost use Rattle.cnf_problem.specs.Bounds.{AreClauses, AreGraphs};
ghost use Rattle.cnf_problem.specs.Literals.{var};

use crate::clauses::Clauses;
use dg_base::{List, Lit};

/// Which of the two graphs an edge is in.
#[derive(Clone, Copy, Debug, PartialEq, Eq, Drop)]
pub enum Graph {
    /// The order of accesses to one location.
    Local,
    /// The order that all threads agree on.
    Global,
}

/// An edge between two nodes, by their numbers.
#[derive(Clone, Copy, Debug, PartialEq, Eq, Drop)]
pub struct Edge {
    pub graph: Graph,
    pub from: u32,
    pub to: u32,
}

/// What an atom says of its nodes. Where a read takes its value from a write, and another write
/// comes after that one, the read comes before the other write: such a pair of atoms derives a
/// from-read edge.
#[derive(Clone, Copy, Debug, PartialEq, Eq, Drop)]
pub enum AtomKind {
    /// The read takes its value from the write.
    ReadFrom { write: u32, read: u32 },
    /// The first write comes before the second.
    WriteOrder { first: u32, second: u32 },
    /// Nothing beside its own edges.
    Plain,
}

/// A literal, and the edges that are there where it is true.
#[derive(Debug, Drop)]
pub struct Atom {
    pub lit: Lit,
    pub kind: AtomKind,
    pub edges: List<Edge>,
}

/// A node's block, and the nodes at which edges into that block end and edges out of it begin. A
/// node that is alone in its block is both.
#[derive(Clone, Copy, Debug, PartialEq, Eq, Drop)]
pub struct Node {
    pub block: u32,
    pub first: u32,
    pub last: u32,
}

/// What a search decides: whether some assignment makes each clause true and neither graph cyclic.
/// The variables count from 1 to `vars`, the nodes from 0. From-read edges are not listed.
#[derive(Debug, Drop)]
pub struct Problem {
    pub vars: u32,
    pub clauses: Clauses,
    pub nodes: List<Node>,
    pub atoms: List<Atom>,
    /// The edges that are there under each assignment.
    pub fixed: List<Edge>,
    pub ghost over: { AreClauses vars clauses },
    pub ghost graphs: { AreGraphs vars nodes atoms fixed },
}

/// One truth value per variable, that of variable 1 first.
pub type Assignment = List<bool>;

/// How a lemma follows.
#[derive(Clone, Copy, Debug, PartialEq, Eq, Drop)]
pub enum LemmaKind {
    /// From the negations of its literals unit propagation makes a clause false.
    Unit,
    /// The atoms that its literals deny close a cycle in one of the graphs.
    Cycle,
}

/// A clause that may follow from a problem and from earlier lemmas, with the way in which it does.
/// The variables of its literals rise strictly.
#[derive(Debug, Drop)]
pub struct Lemma {
    pub kind: LemmaKind,
    pub lits: List<Lit>,
    pub ghost rising: { IsStrictlyIncreasing (map var lits) },
}

/// The numbers by which a problem is known again: how it was made, and how many variables, clauses,
/// nodes and atoms it has.
#[derive(Clone, Copy, Debug, PartialEq, Eq, Drop)]
pub struct Head {
    /// The memory model: 0 for sequential consistency, 1 for TSO, 2 for PSO.
    pub model: u8,
    /// How often each loop was unrolled.
    pub unroll: u32,
    pub vars: u32,
    pub clauses: u32,
    pub nodes: u32,
    pub atoms: u32,
}
