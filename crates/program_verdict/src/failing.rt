//! The failing thread of a failing execution.

ghost use Rattle.std.specs.Prelude.{IfOk};
ghost use Rattle.c_check.specs.WellFormed.{IsChecked};
ghost use Rattle.run_model.specs.Threads.{ProgramFails};
ghost use Rattle.program_verdict.specs.Verdicts.{IsFailure};

use crate::Failure;
use axiom_model::{Candidate, MemoryModel};
use c_check::Checked;
use dg_base::OutOfMemory;
use exec_check::{Reject, check_execution, failing_executions_break_nothing};
use std::alloc::Global;

/// A failing execution with its failing thread. The checker runs the threads; it refuses no failing execution.
///
/// # Errors
/// Want of memory alone.
pub(crate) fn failure_of(
    alloc: Global,
    checked: &Checked,
    model: MemoryModel,
    candidate: Candidate,
) -> Result<Failure, OutOfMemory>
    requires checked { IsChecked checked.now }
    requires fails { ProgramFails checked.now model candidate }
    ensures { IfOk result (IsFailure checked.now model) }
{
    match check_execution(alloc, checked, model, &candidate) {
        Ok(failing) => Ok(Failure {
            candidate,
            handle: failing.handle,
            place: failing.place,
            bound: failing.bound,
        }),
        Err(Reject::OutOfMemory) => Err(OutOfMemory),
        Err(_) => {
            failing_executions_break_nothing();
            unreachable!()
        }
    }
}
