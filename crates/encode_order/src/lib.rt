//! What the order atoms of a problem tell of an execution: in a consistent assignment the writes of
//! each cell that happen stand in one line, the initial one first, and each read has one source.
//!
//! The crate has no code: it states laws, each a function without a body whose contract is the law.
//! `specs/Coherence` says what is ordered, and `specs/Laws` what the laws are. The problem's clauses
//! say that of two writes of a cell that happen one comes before the other; that no three of them go
//! round in a circle is said by no clause, and follows from the problem's graphs, which have no cycle
//! under a consistent assignment.
//!
//! The order is the coherence order of axiomatic memory models, as in J. Alglave, L. Maranget and
//! M. Tautschnig, "Herding cats" (ACM TOPLAS 36(2), 2014).
#![tactic(auto)]

mod laws;

pub use laws::{
    atoms_order_writes, choices_can_be_made, clauses_hold, initial_is_first, order_is_one,
    places_are_counts, reads_have_sources, sources_are_single, sources_are_writes,
    writes_are_ordered,
};
