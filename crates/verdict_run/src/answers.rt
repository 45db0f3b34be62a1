// What is made of the workers once all have ended.
ghost use Rattle.std.specs.Prelude.{◌≡◌, ℕ, ◌+◌, ◌<◌, ◌≤◌, ◌^◌, ◌↔◌, [], length, map, sum_by, slice_get, take, Some, IsTrue, IfOk, MatchOption};
ghost use Rattle.lemma_log.specs.declared.Entry.{Entry as TheEntry};
ghost use Rattle.lemma_log.specs.Merging.{AreOnce, IsMerged};
ghost use Rattle.verdict_run.specs.Decisions.{EndsEmpty};
ghost use Rattle.verdict_run.specs.Searches.{logs_of, NoModelFrom, IsFirstModel, SomeWant, AreReports, HasEmpty, IsFirstEmpty, IsCut};

use crate::decision::Report;
use crate::jobs::Ended;
use cdcl_worker::Outcome;
use cnf_problem::Assignment;
use dg_base::{List, OutOfMemory};
use lemma_log::{Entry, Log, merge};
use std::alloc::Global;

// The model of the least worker that has one.
pub(crate) fn least_model(mut ends: Vec<Ended>) -> Option<Assignment>
    ensures { MatchOption result (NoModelFrom 0 ends.items) (IsFirstModel 0 ends.items) }
{
    let mut model = None;
    while let Some(Ended { worker, outcome }) = ends.pop() {
        drop(worker);
        if let Outcome::Model(assignment) = outcome {
            model = Some(assignment);
        }
    }
    model
}

// Whether some worker answered want of memory.
pub(crate) fn wants_memory(ends: &[Ended]) -> bool
    ensures { IsTrue result ↔ SomeWant ends.now }
{
    for ended in ends {
        if matches!(ended.outcome, Outcome::OutOfMemory) {
            return true;
        }
    }
    false
}

// The numbers of each worker.
pub(crate) fn reports_of(alloc: Global, ends: &[Ended]) -> Result<List<Report>, OutOfMemory>
    requires few { sum_by length (logs_of ends.now) < 2 ^ 32 }
    requires numbers { length ends.now < 2 ^ 32 }
    ensures { IfOk result (AreReports ends.now) }
{
    let mut reports = List::new(alloc);
    for (number, ended) in ends.iter().enumerate() {
        reports.push(Report {
            worker: number as u32,
            entries: ended.worker.log().len() as u32,
            reads: List::from_slice(alloc, ended.worker.reads())?,
        })?;
    }
    Ok(reports)
}

// The log of all workers.
pub(crate) fn whole_log(alloc: Global, ends: Vec<Ended>) -> Result<Log, OutOfMemory>
    requires { AreOnce (logs_of ends.items) }
    ensures { IfOk result (λ log. IsMerged (logs_of ends.items) log.entries) }
{
    let logs: Vec<List<Entry>> = ends
        .into_iter()
        .map(|ended| ended.worker.into_log())
        .collect(alloc)?;
    merge(alloc, logs.as_slice())
}

// The place of the first empty clause.
fn first_empty(entries: &[Entry]) -> usize
    requires { HasEmpty entries.now }
    ensures { IsFirstEmpty entries.now result }
{
    for (place, entry) in entries.iter().enumerate() {
        if entry.lemma.lits.is_empty() {
            return place;
        }
    }
    unreachable!()
}

// The log up to its first empty clause.
pub(crate) fn cut(log: Log) -> Log
    requires { HasEmpty log.entries }
    ensures { IsCut log.entries result.entries }
{
    let Log { mut entries } = log;
    let last = first_empty(entries.as_slice());
    while entries.len() > last + 1 {
        entries.pop();
    }
    Log { entries }
}
