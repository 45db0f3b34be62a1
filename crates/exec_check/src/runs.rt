//! The runs of threads.

ghost use Rattle.std.specs.Prelude.{◌≡◌, ◌⊎◌, ◌<◌, ◌^◌, All, map, length, Some, None, true, false, IfOk, IfErr, OnOk};
ghost use Rattle.axiom_model.specs.Failing.{HasWords, thread_of, failed_by};
ghost use Rattle.c_rules.specs.Names.{or_else};
ghost use Rattle.consistency.specs.Seen.{thread_seen};
ghost use Rattle.run_model.specs.Threads as endings;
ghost use Rattle.run_model.specs.Running.{run_of};
ghost use Rattle.exec_check.specs.declared.Reject.TheVariants as reject;
ghost use Rattle.exec_check.specs.First.{EachThread};
ghost use Rattle.exec_check.specs.Running.{run_told, alone, shape};
ghost use Rattle.exec_check.specs.Conditions.{IsKnown, HasThreads, HasRuns};
ghost use Rattle.exec_check.specs.Broken.{ThreadsBreak};
ghost use Rattle.exec_check.specs.ThreadTests.{wrong_run, first_wrong, seen_by, failing_at, told_failing};

use crate::{Failing, Reject};
use axiom_model::ThreadPart;
use c_check::Checked;
use consistency::ThreadActions;
use dg_base::List;
use run_model::{Ending, RunStop, ThreadRun, run_thread};
use std::alloc::Global;

/// What threads did.
#[derive(Drop)]
pub(crate) struct Runs {
    /// Each thread with its actions.
    pub threads: List<ThreadActions>,
    /// The first that fails an assertion; where none does, the first that spends a bound.
    pub failing: Option<Failing>,
}

// Whether the thread came to its end.
fn has_ended(ending: &Ending) -> bool
    ensures { result ≡ endings.has_ended ending.now }
{
    match ending {
        Ending::Ended => true,
        _ => false,
    }
}

// Whether a choice was made that no execution makes.
fn is_bad(ending: &Ending) -> bool
    ensures { result ≡ endings.is_bad ending.now }
{
    match ending {
        Ending::Bad => true,
        _ => false,
    }
}

// The thread, where it fails an assertion.
fn asserted(part: &ThreadPart, run: &ThreadRun) -> Option<Failing>
    ensures { result ≡ failing_at part.now false (failed_by false (run_of run.now)) }
{
    match &run.ending {
        Ending::Failed(place) => Some(Failing {
            handle: part.handle,
            place: *place,
            bound: false,
        }),
        _ => None,
    }
}

// The thread, where it spends a bound that is told.
fn spent(part: &ThreadPart, run: &ThreadRun) -> Option<Failing>
    ensures { result ≡ failing_at part.now true (failed_by true (run_of run.now)) }
{
    match &run.ending {
        Ending::Bound(place) => Some(Failing {
            handle: part.handle,
            place: *place,
            bound: true,
        }),
        _ => None,
    }
}

// The run of a thread, which uses its whole script and makes no bad choice.
fn run_one(alloc: Global, checked: &Checked, part: &ThreadPart) -> Result<ThreadRun, Reject>
    requires { IsKnown (shape checked.now) 0 part.now }
    ensures words { OnOk result (All (λ v. v < 2 ^ 32) part.now.script) }
    ensures told { IfOk result (λ r. run_told checked.now part.now ≡ Some (run_of r)) }
    ensures well { IfOk result (λ r. wrong_run part.now (run_told checked.now part.now) ≡ None) }
    ensures wrong { IfErr result (λ e. (e ≡ reject.OutOfMemory) ⊎ (wrong_run part.now (run_told checked.now part.now) ≡ Some e)) }
{
    let script = part.script.as_slice();
    let run = match run_thread(alloc, checked, part.function, part.handle, part.arg, script) {
        Ok(run) => run,
        Err(RunStop::ScriptShort(_)) => return Err(Reject::ScriptShort(part.handle)),
        Err(RunStop::OutOfMemory) => return Err(Reject::OutOfMemory),
    };
    if run.used as usize != script.len() {
        return Err(Reject::ScriptLong(part.handle));
    }
    if is_bad(&run.ending) {
        return Err(Reject::BadRun(part.handle));
    }
    Ok(run)
}

// The thread, as the memory models see it.
fn seen(part: &ThreadPart, run: ThreadRun) -> ThreadActions
    ensures { thread_seen result ≡ thread_of part.now (run_of run) }
{
    ThreadActions {
        handle: part.handle,
        function: part.function,
        arg: part.arg,
        ended: has_ended(&run.ending),
        bad: is_bad(&run.ending),
        actions: run.actions,
    }
}

// The first of two, where there are any.
fn earlier(first: Option<Failing>, second: Option<Failing>) -> Option<Failing>
    ensures { result ≡ or_else first second }
{
    match first {
        Some(failing) => Some(failing),
        None => second,
    }
}

// The runs of threads, each of which uses its whole script and makes no bad choice.
fn run_parts(alloc: Global, checked: &Checked, parts: &[ThreadPart]) -> Result<Runs, Reject>
    requires { EachThread (IsKnown (shape checked.now)) parts.now }
    ensures well { OnOk result (HasWords (alone parts.now) × (first_wrong checked.now parts.now ≡ None)) }
    ensures seen { IfOk result (λ r. map thread_seen r.threads ≡ map (seen_by checked.now) parts.now) }
    ensures failing { IfOk result (λ r. r.failing ≡ told_failing checked.now parts.now) }
    ensures wrong { IfErr result (λ e. (e ≡ reject.OutOfMemory) ⊎ (first_wrong checked.now parts.now ≡ Some e)) }
{
    let mut threads = List::new(alloc);
    let mut first: Option<Failing> = None;
    let mut bound: Option<Failing> = None;
    for part in parts {
        let run = run_one(alloc, checked, part)?;
        first = earlier(first, asserted(part, &run));
        bound = earlier(bound, spent(part, &run));
        if threads.push(seen(part, run)).is_err() {
            return Err(Reject::OutOfMemory);
        }
    }
    Ok(Runs {
        threads,
        failing: earlier(first, bound),
    })
}

/// The runs of threads, each of which uses its whole script and makes no bad choice.
pub(crate) fn run_all(
    alloc: Global,
    checked: &Checked,
    parts: &[ThreadPart],
) -> Result<Runs, Reject>
    requires { HasThreads checked.now parts.now }
    ensures runs { OnOk result (HasRuns checked.now parts.now) }
    ensures seen { IfOk result (λ r. map thread_seen r.threads ≡ map (seen_by checked.now) parts.now) }
    ensures failing { IfOk result (λ r. r.failing ≡ told_failing checked.now parts.now) }
    ensures broken { IfErr result (ThreadsBreak checked.now parts.now) }
{
    run_parts(alloc, checked, parts)
}
