//! Single assignment: the guarded steps of a flat program as terms over the numbers that the program takes from outside (static single
//! assignment with guards in place of joins, as in Cytron et al., "Efficiently computing static single assignment form", and in
//! Clarke, Kroening and Lerda's bounded model checker for C).
//!
//! Walking an instance, a term stands for each local and one for "the run goes on". Each step but an assignment makes an `SsaStep`,
//! whose guard is the term that is 1 where the step is made and 0 elsewhere. Each number that is taken or read is an input of its own.
//! `specs/Parts` says what a part does under inputs, `specs/Form` what holds of every form (`IsSsaOf`), `specs/Laws` that inputs can be
//! found for a script, part by part. The layers above may use these three.
#![tactic(auto)]

pub mod assign;
mod laws;
#[cfg(test)]
mod tests;
mod walk;

use bv_term::{TermId, Terms};
use dg_base::{List, Place};
pub use laws::{earlier_parts_stay, scripts_can_be_taken};

/// A flat program in single assignment.
#[derive(Debug, Drop)]
pub struct Ssa {
    /// All terms that the parts are made of.
    pub terms: Terms,
    /// One part for each instance, in order.
    pub parts: List<SsaPart>,
    /// For each shared cell the constant that it begins with.
    pub initials: List<TermId>,
}

/// An instance.
#[derive(Debug, Drop)]
pub struct SsaPart {
    /// The number of its function.
    pub function: u32,
    /// 1 where the thread is created, 0 elsewhere.
    pub start: TermId,
    /// The thread's handle.
    pub handle: TermId,
    /// The function's argument.
    pub arg: TermId,
    /// What is done, in order: first Start; End, Stop, Bad and Fail end the run.
    pub steps: List<SsaStep>,
}

/// A step, and the term that is 1 where it is made, and 0 elsewhere.
#[derive(Debug, Clone, Copy, PartialEq, Eq, Drop)]
pub struct SsaStep {
    /// 1 where the step is made, 0 elsewhere.
    pub guard: TermId,
    /// What is done.
    pub act: SsaAct,
}

/// What a step does.
#[derive(Debug, Clone, Copy, PartialEq, Eq, Drop)]
pub enum SsaAct {
    /// A number is taken.
    Take(TermId),
    /// A number is taken, which is the value read.
    Read {
        cell: u32,
        value: TermId,
    },
    /// The value is written to the cell.
    Write {
        cell: u32,
        value: TermId,
    },
    /// A section begins.
    Open,
    /// The section ends.
    Close,
    /// A full fence.
    Fence,
    /// The thread that is this instance is created.
    Create {
        instance: u32,
        handle: TermId,
        arg: TermId,
    },
    /// The thread waits for the end of the thread with this handle.
    Join {
        handle: TermId,
    },
    /// The thread begins.
    Start,
    /// The thread comes to its end: an action and an ending.
    End,
    /// The run stops.
    Stop,
    /// The run made a choice that no execution makes.
    Bad,
    /// The run fails: with tag 0 an assertion, a division or an index at this place, with tag 1 a loop's bound is spent there.
    Fail {
        place: Place,
        tag: u8,
    },
}
