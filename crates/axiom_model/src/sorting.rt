//! What a search for an order of a graph's nodes answers.

use dg_base::List;

/// An order of the nodes of a graph in which every edge goes forward, or a cycle.
#[derive(Debug, Drop)]
pub enum Acyclic {
    /// All nodes, each once, in an order in which every edge goes forward.
    Sorted(List<u32>),
    /// Nodes without a repeated one, from the least on: each leads to the next by an edge, and the
    /// last to the first.
    Cycle(List<u32>),
}
