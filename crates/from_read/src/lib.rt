//! From-read edges: where a read takes its value from a write that comes before another write, the
//! read comes before that other write.
//!
//! The edges follow from pairs of true atoms, whichever of the two became true first. An atom that
//! becomes true is paired with the true atoms of the other kind, the oldest first, so that each
//! edge stands with the first pair that derives it, and edges are undone with the atoms from the
//! newest on. All memory is taken by `new`: the number of distinct edges that a problem's pairs can
//! derive is bounded by its reads and by the writes that come second.
#![tactic(auto)]

mod capacity;
mod edge_set;
mod from_read;
mod kinds;
mod pairs;

pub use edge_set::DerivedEdge;
pub use from_read::FromRead;

#[cfg(test)]
mod tests;
