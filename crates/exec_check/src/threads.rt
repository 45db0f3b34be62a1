//! Threads alone: which there are, how they run, and who creates whom.

ghost use Rattle.std.specs.Prelude.{◌≡◌, IfOk, IfErr, OnOk};
ghost use Rattle.axiom_model.specs.declared.MemoryModel.{MemoryModel};
ghost use Rattle.c_check.specs.declared.checked.Checked.{Checked};
ghost use Rattle.c_check.specs.WellFormed.{IsChecked};
ghost use Rattle.exec_check.specs.declared.Reject.TheVariants as reject;
ghost use Rattle.exec_check.specs.Running.{acting};
ghost use Rattle.exec_check.specs.Conditions.{HasRuns, HasCreates, HasChildren};
ghost use Rattle.exec_check.specs.Broken.{ThreadsBreak, IsFirstBroken};
ghost use Rattle.exec_check.specs.EventActions as specs;
ghost use Rattle.exec_check.specs.EventActions.{ListsActions};
ghost use Rattle.exec_check.specs.Done.{HasDone};

use crate::creates::{missing_child, not_created};
use crate::event_actions::{EventAction, event_actions};
use crate::parts::check_parts;
use crate::runs::run_all;
use crate::{Failing, Reject};
use axiom_model::{Candidate, ThreadPart};
use c_check::Checked;
use consistency::ThreadActions;
use dg_base::List;
use std::alloc::Global;

/// What threads did that may be those of an execution.
#[derive(Drop)]
pub(crate) struct Done {
    /// Each thread with its actions.
    pub threads: List<ThreadActions>,
    /// All actions with their events, thread by thread.
    pub event_actions: List<EventAction>,
    /// The first that fails an assertion; where none does, the first that spends a bound.
    pub failing: Option<Failing>,
}

// All actions with their events. Want of memory also where a thread has more than a u32 counts.
fn listed(alloc: Global, threads: &[ThreadActions]) -> Result<List<EventAction>, Reject>
    ensures listed { IfOk result (λ l. l ≡ specs.event_actions threads.now) }
    ensures want { IfErr result (λ e. e ≡ reject.OutOfMemory) }
{
    match event_actions(alloc, threads) {
        Ok(list) => Ok(list),
        Err(_) => Err(Reject::OutOfMemory),
    }
}

// Whether some action creates each thread but main, of any program whose actions these are.
fn check_creates(event_actions: &[EventAction], parts: &[ThreadPart]) -> Result<(), Reject>
    ensures created { (p : Checked) → HasRuns p parts.now → ListsActions (acting p parts.now) event_actions.now → OnOk result (HasCreates p parts.now) }
    ensures broken { (p : Checked) → HasRuns p parts.now → ListsActions (acting p parts.now) event_actions.now → IfErr result (ThreadsBreak p parts.now) }
{
    match not_created(event_actions, parts) {
        Some(handle) => Err(Reject::NoCreate(handle)),
        None => Ok(()),
    }
}

// Whether each created thread is there, of any such program.
fn check_children(event_actions: &[EventAction], parts: &[ThreadPart]) -> Result<(), Reject>
    ensures children { (p : Checked) → HasCreates p parts.now → ListsActions (acting p parts.now) event_actions.now → OnOk result (HasChildren p parts.now) }
    ensures broken { (p : Checked) → HasCreates p parts.now → ListsActions (acting p parts.now) event_actions.now → IfErr result (ThreadsBreak p parts.now) }
{
    match missing_child(event_actions, parts) {
        Some(handle) => Err(Reject::NoThread(handle)),
        None => Ok(()),
    }
}

// What threads do that may be those of an execution: main is there, handles rise, each function is known, each thread runs
// well and is created, and no other is.
fn run_threads(alloc: Global, checked: &Checked, parts: &[ThreadPart]) -> Result<Done, Reject>
    requires { IsChecked checked.now }
    ensures children { OnOk result (HasChildren checked.now parts.now) }
    ensures did { IfOk result (HasDone checked.now parts.now) }
    ensures broken { IfErr result (ThreadsBreak checked.now parts.now) }
{
    check_parts(checked, parts)?;
    let runs = run_all(alloc, checked, parts)?;
    let event_actions = listed(alloc, runs.threads.as_slice())?;
    check_creates(event_actions.as_slice(), parts)?;
    check_children(event_actions.as_slice(), parts)?;
    Ok(Done {
        threads: runs.threads,
        event_actions,
        failing: runs.failing,
    })
}

/// What a candidate's threads do.
pub(crate) fn run_candidate(
    alloc: Global,
    checked: &Checked,
    candidate: &Candidate,
) -> Result<Done, Reject>
    requires { IsChecked checked.now }
    ensures children { OnOk result (HasChildren checked.now candidate.now.threads) }
    ensures did { IfOk result (HasDone checked.now candidate.now.threads) }
    ensures broken { (m : MemoryModel) → IfErr result (IsFirstBroken checked.now m candidate.now) }
{
    run_threads(alloc, checked, candidate.threads.as_slice())
}

/// Whether threads may be those of an execution of the program, whatever their reads' sources and the writes' orders are: main
/// is there, handles rise, each function is known, each thread runs well and is created, and no other is. An error is the first
/// of these that does not hold, or want of memory.
pub fn check_threads(alloc: Global, checked: &Checked, threads: &[ThreadPart]) -> Result<(), Reject>
    requires { IsChecked checked.now }
    ensures children { OnOk result (HasChildren checked.now threads.now) }
    ensures broken { IfErr result (ThreadsBreak checked.now threads.now) }
{
    match run_threads(alloc, checked, threads) {
        Ok(_) => Ok(()),
        Err(reject) => Err(reject),
    }
}
