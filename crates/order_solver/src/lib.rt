//! The theory of orders: whether the true literals of a trail order the nodes of a problem.
//!
//! Each of the two graphs is kept as a graph without cycles in which every edge goes forward, with
//! the cause of each edge: it is fixed, or an atom's own, or derived by a pair of atoms. Literals
//! are asserted in the order of the trail and worked in one after another, each with a mark of how
//! far the graphs had come, so that undoing cuts them where they were. Where an edge would close a
//! cycle, the literals of the causes along it make a clause, in which a derived edge denies both
//! atoms of its pair.
//!
//! `check` works the asserted literals in. `propagate` looks beside that at the own edges of each
//! atom that is unassigned: they are put in and taken off again, which leaves the kept order, so
//! that later looks find them forward mostly. `new`, `check` and `propagate` alone take memory.
#![tactic(auto)]

mod caused;
mod explain;
mod solver;

pub use caused::{Cause, CausedGraph};
pub use solver::{OrderSolver, Place, Step};
