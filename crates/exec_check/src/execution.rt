//! What must hold of a candidate whose threads alone are as they must be, stage by stage.

ghost use Rattle.std.specs.Prelude.{◌≡◌, ◌⊎◌, OnOk, IfErr};
ghost use Rattle.axiom_model.specs.declared.MemoryModel.{MemoryModel};
ghost use Rattle.axiom_model.specs.Models.{Consistent};
ghost use Rattle.axiom_model.specs.declared.Candidate.{Candidate};
ghost use Rattle.c_check.specs.declared.checked.Checked.{Checked};
ghost use Rattle.c_check.specs.WellFormed.{IsChecked};
ghost use Rattle.consistency.specs.Seen.{execution_seen};
ghost use Rattle.exec_check.specs.declared.Reject.TheVariants as reject;
ghost use Rattle.exec_check.specs.Running.{execution_in};
ghost use Rattle.exec_check.specs.Conditions.{HasChildren, HasSources, HasOrders, IsExecution};
ghost use Rattle.exec_check.specs.Broken.{IsFirstBroken};
ghost use Rattle.exec_check.specs.EventActions.{ListsActions};
ghost use Rattle.exec_check.specs.Done.{HasDone, Acts};

use crate::event_actions::EventAction;
use crate::threads::Done;
use crate::{Reject, joins, orders, sources};
use axiom_model::{Candidate, MemoryModel};
use c_check::Checked;
use consistency::{Inconsistent, ThreadActions, check_consistent};
use std::alloc::Global;

// The answer that the cell is out of order. A number that is no u32 is want of memory.
fn bad_order(cell: usize) -> Reject
    ensures { (result ≡ reject.OutOfMemory) ⊎ (result ≡ reject.BadOrder cell) }
{
    match u32::try_from(cell) {
        Ok(cell) => Reject::BadOrder(cell),
        Err(_) => Reject::OutOfMemory,
    }
}

// Whether each read has its source, and each reader of a pair is a read.
fn check_sources(
    checked: &Checked,
    candidate: &Candidate,
    event_actions: &[EventAction],
) -> Result<(), Reject>
    requires checked { IsChecked checked.now }
    requires children { HasChildren checked.now candidate.now.threads }
    requires listed { ListsActions (execution_in checked.now candidate.now) event_actions.now }
    ensures sourced { OnOk result (HasSources checked.now candidate.now) }
    ensures broken { (m : MemoryModel) → IfErr result (IsFirstBroken checked.now m candidate.now) }
{
    match sources::bad_source(
        checked.cells.as_slice(),
        event_actions,
        candidate.rf.as_slice(),
    ) {
        Some(event) => Err(Reject::BadSource(event)),
        None => Ok(()),
    }
}

// Whether each cell has the order of its writes.
fn check_orders(
    checked: &Checked,
    candidate: &Candidate,
    event_actions: &[EventAction],
) -> Result<(), Reject>
    requires checked { IsChecked checked.now }
    requires sources { HasSources checked.now candidate.now }
    requires listed { ListsActions (execution_in checked.now candidate.now) event_actions.now }
    ensures ordered { OnOk result (HasOrders checked.now candidate.now) }
    ensures broken { (m : MemoryModel) → IfErr result (IsFirstBroken checked.now m candidate.now) }
{
    match orders::first_bad_order(event_actions, checked.cells.len(), candidate.co.as_slice()) {
        Some(cell) => Err(bad_order(cell)),
        None => Ok(()),
    }
}

// Whether each Join waits for a thread that came to its end, of any candidate whose actions these are.
fn check_joins(event_actions: &[EventAction], threads: &[ThreadActions]) -> Result<(), Reject>
    ensures whole { (p : Checked) (c : Candidate) → HasOrders p c → Acts p c threads.now event_actions.now → OnOk result (IsExecution p c) }
    ensures broken { (p : Checked) (m : MemoryModel) (c : Candidate) → HasOrders p c → Acts p c threads.now event_actions.now → IfErr result (IsFirstBroken p m c) }
{
    match joins::bad_join(event_actions, threads) {
        Some(event) => Err(Reject::BadJoin(event)),
        None => Ok(()),
    }
}

/// Whether a candidate whose threads did this is an execution of the program.
pub(crate) fn check_actions(
    checked: &Checked,
    candidate: &Candidate,
    done: &Done,
) -> Result<(), Reject>
    requires checked { IsChecked checked.now }
    requires children { HasChildren checked.now candidate.now.threads }
    requires did { HasDone checked.now candidate.now.threads done.now }
    ensures whole { OnOk result (IsExecution checked.now candidate.now) }
    ensures broken { (m : MemoryModel) → IfErr result (IsFirstBroken checked.now m candidate.now) }
{
    let event_actions = done.event_actions.as_slice();
    check_sources(checked, candidate, event_actions)?;
    check_orders(checked, candidate, event_actions)?;
    check_joins(event_actions, done.threads.as_slice())
}

/// Whether the model allows an execution of the program whose threads have these actions.
pub(crate) fn check_model(
    alloc: Global,
    checked: &Checked,
    model: MemoryModel,
    candidate: &Candidate,
    threads: &[ThreadActions],
) -> Result<(), Reject>
    requires whole { IsExecution checked.now candidate.now }
    requires seen { execution_seen threads.now candidate.now.rf candidate.now.co ≡ execution_in checked.now candidate.now }
    ensures allowed { OnOk result (Consistent model (execution_in checked.now candidate.now)) }
    ensures broken { IfErr result (IsFirstBroken checked.now model candidate.now) }
{
    let rf = candidate.rf.as_slice();
    match check_consistent(alloc, model, threads, rf, candidate.co.as_slice()) {
        Ok(()) => Ok(()),
        Err(Inconsistent::LocalCycle(events)) => Err(Reject::LocalCycle(events)),
        Err(Inconsistent::GlobalCycle(events)) => Err(Reject::GlobalCycle(events)),
        Err(Inconsistent::BlockCycle(events)) => Err(Reject::BlockCycle(events)),
        Err(Inconsistent::OutOfMemory) => Err(Reject::OutOfMemory),
    }
}
