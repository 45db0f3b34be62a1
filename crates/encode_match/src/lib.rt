//! How the assignments of a problem spell the executions of a program, and the laws that say that they do.
//!
//! A checked program and a memory model become one problem by a chain of crates (`specs/Parts`, `IsChain`). An assignment spells a
//! candidate: the instances that run are its threads, the events that happen its actions, the atoms that are true its relations
//! (`specs/Spelling`). The problem is an encoding where each consistent assignment spells one failing execution, and each failing
//! execution is spelled (`specs/Encoding`, `IsEncoding`). Both directions meet in `specs/Matching`. The layers above use
//! `IsChain` and `IsEncoding` alone.
#![tactic(auto)]

mod laws;

use axiom_model::MemoryModel;
use cnf_problem::Problem;
use dg_base::{List, Lit};
use event_graph::EventGraph;
pub use laws::{assignments_match, chain_encodes, cycles_agree, encodings_decide, failures_match};

/// A number that an instance takes from outside: it is taken where the guard is true.
#[derive(Clone, Copy, Drop)]
pub struct Taken {
    /// It is taken where this is true.
    pub guard: Lit,
    /// The number, the bit of value 1 first.
    pub bits: [Lit; 32],
}

/// An instance: its function, its argument, and the numbers that it takes, in order.
#[derive(Drop)]
pub struct PartMap {
    /// The number of its function.
    pub function: u32,
    /// Its argument, the bit of value 1 first.
    pub arg: [Lit; 32],
    /// The numbers that it takes.
    pub script: List<Taken>,
}

/// How an assignment spells a candidate: node `i` is event `i` of the graph; there is one part for each instance.
#[derive(Drop)]
pub struct EventMap {
    /// The static events, and the values that go with them.
    pub graph: EventGraph,
    /// The instances, main's first.
    pub parts: List<PartMap>,
}

/// A problem, with what its assignments mean.
#[derive(Drop)]
pub struct Encoded {
    /// The problem.
    pub problem: Problem,
    /// The memory model.
    pub model: MemoryModel,
    /// What an assignment spells.
    pub map: EventMap,
}
