//! Whether a candidate is an execution of a checked program that a memory model allows and that fails an assertion.
//!
//! A candidate says which threads there are, on which scripts they run, where each read takes its value, and in which order
//! the writes of each cell take effect. [`check_execution`] runs the threads and looks at one condition after the other;
//! the conditions stand in `specs/Conditions`, and `specs/Broken` says which is the first that is broken, and where
//! (`IsFirstBroken`). All of them together are `run_model`'s `ProgramFails`. The layers above may use the call, these
//! definitions, and the law that a failing execution breaks no condition.
//!
//! The model is lists: the threads of the candidate, and all actions with their events, thread by thread (`specs/EventActions`).
//! Each condition is a test of each item of a list, and the first item that does not pass is the first place.
#![tactic(auto)]

mod creates;
mod event_actions;
mod execution;
mod joins;
mod laws;
mod orders;
mod parts;
mod runs;
mod sources;
mod threads;

ghost use Rattle.std.specs.Prelude.{IfOk, IfErr};
ghost use Rattle.axiom_model.specs.Failing.{FailsFirst};
ghost use Rattle.c_check.specs.WellFormed.{IsChecked};
ghost use Rattle.run_model.specs.Threads.{ProgramFails};
ghost use Rattle.exec_check.specs.Running.{runs_of};
ghost use Rattle.exec_check.specs.Broken.{IsFirstBroken};

use axiom_model::{Candidate, Event, MemoryModel};
use c_check::Checked;
use dg_base::{List, Place};
pub use laws::{failing_executions_break_nothing, one_condition_is_broken_first};
use std::alloc::Global;
pub use threads::check_threads;

/// A thread that fails.
#[derive(Debug, Clone, Copy, PartialEq, Eq, Drop)]
pub struct Failing {
    /// Which thread.
    pub handle: u32,
    /// Where in the text.
    pub place: Place,
    /// Whether a loop used up its bound there; else an assertion failed.
    pub bound: bool,
}

/// Why a candidate is not a failing execution: the first condition that it breaks, at the first place, by handle, index or
/// cell, with an `Initial` reader before all others.
#[derive(Debug, Drop)]
pub enum Reject {
    /// Handle 0 is not there with the function main and the argument 0.
    MainMissing,
    /// The handles do not rise strictly; the first that does not.
    ThreadTwice(u32),
    /// The thread's function is not one of the program, or its handle is 2^24 or more.
    UnknownThread(u32),
    /// The thread's run needs a number more than its script has.
    ScriptShort(u32),
    /// The thread's run leaves numbers of its script unused.
    ScriptLong(u32),
    /// The thread's run makes a choice that no execution makes.
    BadRun(u32),
    /// No Create has the thread's handle, function and argument, and the handle is not 0.
    NoCreate(u32),
    /// A Create's handle is not among the threads.
    NoThread(u32),
    /// A read without exactly one pair, or whose source is no write of its value to its cell; or the reader of a pair that
    /// is no read.
    BadSource(Event),
    /// The cell's list is not the initial write, then the cell's writes, each once, or is missing; or, with the number of
    /// cells as the number given, there are more lists than cells.
    BadOrder(u32),
    /// A Join whose handle is 0, or names no thread that came to its end.
    BadJoin(Event),
    /// A cycle of program order on one cell, reads-from, coherence and from-read, from its least event on.
    LocalCycle(List<Event>),
    /// Such a cycle of the kept order, the reads-from that all threads see, coherence and from-read.
    GlobalCycle(List<Event>),
    /// Such edges between different blocks, as pairs one after the other: each leads to the block where the next begins.
    BlockCycle(List<Event>),
    /// No thread fails an assertion, and none spends a bound that is told.
    NotFailing,
    /// Want of memory; also of numbers, where there are more actions of a thread than a u32 counts.
    OutOfMemory,
}

/// Whether the candidate is an execution of the program that the model allows and that fails: the thread with the least handle
/// that fails an assertion, or where none does the one that spends a bound; or the first condition that is broken.
///
/// The time, beside that of the runs, is at most near the square of the number of actions, pairs, list entries and cells:
/// each item is looked up among the others.
pub fn check_execution(
    alloc: Global,
    checked: &Checked,
    model: MemoryModel,
    candidate: &Candidate,
) -> Result<Failing, Reject>
    requires { IsChecked checked.now }
    ensures fails { IfOk result (λ f. ProgramFails checked.now model candidate.now) }
    ensures first { IfOk result (λ f. FailsFirst candidate.now (runs_of checked.now candidate.now.threads) f.handle f.place f.bound) }
    ensures broken { IfErr result (IsFirstBroken checked.now model candidate.now) }
{
    let done = threads::run_candidate(alloc, checked, candidate)?;
    execution::check_actions(checked, candidate, &done)?;
    execution::check_model(alloc, checked, model, candidate, done.threads.as_slice())?;
    match done.failing {
        Some(failing) => Ok(failing),
        None => Err(Reject::NotFailing),
    }
}
