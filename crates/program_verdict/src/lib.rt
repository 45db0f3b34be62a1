//! A checked program decided under a memory model.
//!
//! The program and the model become one problem (`encode`), workers search it (`verdict_run`), and a consistent assignment is read back
//! as the execution that it spells (`decode`), whose failing thread the execution checker names (`exec_check`). What each verdict says
//! stands in `specs/Verdicts` (`IsVerdictOf`), in the words of executions alone: only `Unknown` speaks of the search. The layers above
//! use [`decide_program`] with that relation.
#![tactic(auto)]

mod failing;
mod keeping;

ghost use Rattle.std.specs.Prelude.{IfOk};
ghost use Rattle.c_check.specs.WellFormed.{IsChecked};
ghost use Rattle.program_verdict.specs.Verdicts.{IsAffordable, IsVerdictOf};

use crate::failing::failure_of;
use crate::keeping::wanted_text;
use axiom_model::{Candidate, MemoryModel};
use c_check::Checked;
use cnf_problem::refuted_has_no_assignment;
use decode::decode;
use dg_base::{Bytes, Gate, List, OutOfMemory, Place};
use encode::encode;
use encode_match::encodings_decide;
use std::alloc::Global;
use std::thread::Threads;
use verdict_run::{Decision, Report, decide};

/// How much is searched.
#[derive(Debug, Clone, Copy, PartialEq, Eq, Drop)]
pub struct Effort {
    /// How many workers search, each in a thread of its own: from 1 to 16.
    pub workers: u32,
    /// How many lemmas each worker may add: from 1 to 1000000.
    pub budget: u32,
    /// How many words of 32 bits each worker's row of shared lemmas has: up to 1048576.
    pub share_words: u32,
}

/// A failing execution, and its failing thread: the one with the least handle that fails an assertion, or where none does the one
/// that spends a bound.
#[derive(Drop)]
pub struct Failure {
    /// The execution.
    pub candidate: Candidate,
    /// Which thread.
    pub handle: u32,
    /// Where in the text.
    pub place: Place,
    /// Whether a loop used up its bound there; else an assertion failed.
    pub bound: bool,
}

/// What is decided of a program.
#[derive(Drop)]
pub enum ProgramVerdict {
    /// No execution that the model allows fails; with the text of a log that shows it, where that is wanted.
    Safe(Option<Bytes>),
    /// This one fails.
    Unsafe(Failure),
    /// Every worker has spent its budget, and no verdict stands: the numbers of each worker, and where it is wanted the text of
    /// the log of all.
    Unknown(List<Report>, Option<Bytes>),
}

/// Decides a program under a memory model. Where a log is wanted, a verdict without an execution comes with its text, in the format
/// with hints.
///
/// # Errors
/// Want of memory, to which belongs that there are more variables, clauses or events than numbers for them. It is free: no clause says
/// when it comes.
pub fn decide_program<R: Threads + Sync, G: Gate + Sync>(
    rt: &R,
    alloc: Global,
    checked: &Checked,
    model: MemoryModel,
    effort: &Effort,
    wants_log: bool,
    gate: &G,
) -> Result<ProgramVerdict, OutOfMemory>
    requires checked { IsChecked checked.now }
    requires effort { IsAffordable effort.now }
    ensures { IfOk result (IsVerdictOf checked.now model effort.now wants_log) }
{
    let encoded = encode(alloc, checked, model)?;
    let problem = &encoded.problem;
    let Effort {
        workers,
        budget,
        share_words,
    } = *effort;
    match decide(rt, alloc, problem, workers, budget, share_words, gate)? {
        Decision::Safe(log) => {
            refuted_has_no_assignment();
            encodings_decide();
            let text = wanted_text(alloc, checked, &encoded, &log, wants_log)?;
            Ok(ProgramVerdict::Safe(text))
        }
        Decision::Unsafe(assignment) => {
            let candidate = decode(alloc, checked, &encoded, &assignment)?;
            let failure = failure_of(alloc, checked, model, candidate)?;
            Ok(ProgramVerdict::Unsafe(failure))
        }
        Decision::Unknown(log, reports) => {
            let text = wanted_text(alloc, checked, &encoded, &log, wants_log)?;
            Ok(ProgramVerdict::Unknown(reports, text))
        }
    }
}
