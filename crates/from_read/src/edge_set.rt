ghost use Rattle.std.specs.Prelude.{◌≡◌, ◌<◌, ◌≤◌, ◌+◌, ◌-◌, ◌*◌, ◌^◌, [], take, length, IfOk};
ghost use Rattle.from_read.specs.Parts.{HasEdge, IsPut, bit_of};

use cnf_problem::{Edge, Graph};
use cycle_detect::Edges;
use dg_base::OutOfMemory;
use std::alloc::Global;
use std::marker::Model;

/// An edge that two true atoms derive, and the pair that derived it first: the atom of the read,
/// and the atom that orders the writes.
#[derive(Clone, Copy, Debug, PartialEq, Eq, Drop)]
pub struct DerivedEdge {
    pub edge: Edge,
    pub read_from: u32,
    pub write_order: u32,
}

/// Derived edges, each once, in the order in which they came.
#[derive(Debug, Drop)]
pub struct EdgeSet {
    list: Vec<DerivedEdge>,
    // their ends, so that an edge is found: both graphs in one, among twice as many nodes
    ends: Edges,
}

impl Model for EdgeSet {
    ghost use Rattle.std.specs.Prelude.{◌≡◌, ◌≤◌, ◌*◌, ◌^◌, ◌<◌, ℕ, map, vec_capacity};
    ghost use Rattle.from_read.specs.Parts.{EdgeSetView, ends_of};

    ghost Value = { EdgeSetView };

    ghost view = { λ s. record { nodes = s.ends.nodes; limit = s.ends.limit; list = s.list.items } };

    ghost invariant = { λ s. (s.ends.list ≡ map (λ d. ends_of d.edge) s.list.items) × (s.ends.limit ≤ vec_capacity s.list) × (s.ends.nodes < 2 ^ 32) };
}

// The number that stands for an edge's end in its graph.
fn end_in(edge: Edge) -> u32
    requires { 2 * edge.to + 1 < 2 ^ 32 }
    ensures { result ≡ 2 * edge.to + bit_of edge.graph }
{
    match edge.graph {
        Graph::Local => 2 * edge.to,
        Graph::Global => 2 * edge.to + 1,
    }
}

impl EdgeSet {
    /// No edges yet, between so many nodes. Want of memory where there are 2^31 or more.
    pub fn new(alloc: Global, nodes: usize, limit: u32) -> Result<EdgeSet, OutOfMemory>
        ensures { IfOk result (λ s. s ≡ record { nodes = 2 * nodes; limit = limit; list = [] }) }
    {
        if nodes >= 1 << 31 {
            return Err(OutOfMemory);
        }
        Ok(EdgeSet {
            list: Vec::with_capacity(alloc, limit as usize)?,
            ends: Edges::new(alloc, 2 * nodes as u32, limit)?,
        })
    }

    /// Puts an edge last, unless it is there.
    pub fn put(&mut self, edge: Edge, read_from: u32, write_order: u32)
        requires from { 2 * edge.from < self.old.nodes }
        requires to { 2 * edge.to + 1 < self.old.nodes }
        requires room { ¬ HasEdge self.old.list edge → length self.old.list < self.old.limit }
        ensures sizes { (self.new.nodes ≡ self.old.nodes) × (self.new.limit ≡ self.old.limit) }
        ensures put { IsPut self.old.list (record { edge = edge; read_from = read_from; write_order = write_order }) self.new.list }
    {
        let ends = &mut self.ends;
        let end = end_in(edge);
        match ends.find(edge.from, end) {
            Some(_) => {}
            None => {
                ends.push(edge.from, end);
                self.list.push_reserved(DerivedEdge {
                    edge,
                    read_from,
                    write_order,
                });
            }
        }
    }

    /// Keeps the first so many edges.
    pub fn cut_to(&mut self, count: u32)
        requires { count ≤ length self.old.list }
        ensures { self.new ≡ record self.old { list = take count self.old.list } }
    {
        while self.len() > count {
            self.pop();
        }
    }

    // Takes the newest edge off.
    fn pop(&mut self)
        requires { 0 < length self.old.list }
        ensures { self.new ≡ record self.old { list = take (length self.old.list - 1) self.old.list } }
    {
        self.ends.pop();
        self.list.truncate(self.list.len() - 1);
    }

    /// The edges.
    pub fn as_slice(&self) -> &[DerivedEdge]
        ensures { result.now ≡ self.now.list }
    {
        self.list.as_slice()
    }

    /// How many edges there are.
    pub fn len(&self) -> u32
        ensures { result ≡ length self.now.list }
    {
        self.ends.len()
    }
}
