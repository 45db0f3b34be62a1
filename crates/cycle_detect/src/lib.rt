//! Cycle detection in a graph whose edges come and go.
//!
//! An order of all nodes is kept in which each held edge goes forward, so that the held edges have
//! no cycle, and an edge that goes forward costs one step. An edge that goes back is searched for a
//! way round between its two places, and where there is none the nodes between them are put in
//! order again: those from which the edge's start is reached, and then the others, each group as it
//! stood (Marchetti-Spaccamela, Nanni and Rohnert 1996; Pearce and Kelly 2006). The search goes
//! backward and breadth first, so a cycle that is found is as short as the held edges allow between
//! the two places.
//!
//! Edges are undone from the newest on; the order stays, since it serves fewer edges as well. All
//! memory is taken by `new`.
#![tactic(auto)]

mod edges;
mod order;
mod search;
mod shift;

pub use edges::Edges;
pub use order::Order;

#[cfg(test)]
mod tests;
