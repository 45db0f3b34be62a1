ghost use Rattle.std.specs.Prelude.{◌≡◌, ◌<◌, ◌≤◌, IfOk};
ghost use Rattle.verdict_run.specs.Decisions.{IsDecision};

use crate::answers::{cut, least_model, reports_of, wants_memory, whole_log};
use crate::jobs::{gather, jobs_of, search_all};
use clause_exchange::Exchange;
use cnf_problem::{Assignment, Problem};
use dg_base::{Gate, List, OutOfMemory};
use lemma_log::Log;
use search_core::Verdict;
use std::alloc::Global;
use std::thread::Threads;

/// The numbers of one worker.
#[derive(Debug, Drop)]
pub struct Report {
    /// The worker's number, from 0.
    pub worker: u32,
    /// How many lemmas it appended to its log.
    pub entries: u32,
    /// How many shared entries it read of each worker, of itself none.
    pub reads: List<u32>,
}

/// The answer of a search.
#[derive(Debug, Drop)]
pub enum Decision {
    /// No assignment is consistent: a good log, which ends at its first empty clause.
    Safe(Log),
    /// A consistent assignment, that of the least worker which found one.
    Unsafe(Assignment),
    /// No verdict stands, and every worker used up its budget: the log of all workers, which is
    /// good, and the numbers of each.
    Unknown(Log, List<Report>),
}

/// Searches the problem with so many workers, each in a thread of its own where one can be made,
/// with this budget of lemmas for each and so many words in which it may share them. Each worker
/// passes the gate once, before its first step. `OutOfMemory` comes where memory for the answer or
/// for the workers is wanted, or where no verdict stands and some worker found none.
pub fn decide<R: Threads + Sync, G: Gate + Sync>(
    rt: &R,
    alloc: Global,
    problem: &Problem,
    workers: u32,
    budget: u32,
    share_words: u32,
    gate: &G,
) -> Result<Decision, OutOfMemory>
    requires some { 0 < workers }
    requires few { workers ≤ 16 }
    requires least { 1 ≤ budget }
    requires most { budget ≤ 1000000 }
    requires words { share_words ≤ 1048576 }
    ensures { IfOk result (IsDecision problem.now workers budget) }
{
    let (exchange, seat) = Exchange::new(alloc, problem, workers, share_words)?;
    let mut jobs = jobs_of(alloc, problem, &exchange, seat, workers)?;
    search_all(
        rt,
        alloc,
        problem,
        &exchange,
        budget,
        gate,
        jobs.as_mut_slice(),
    );
    let (seat, ends) = gather(alloc, &exchange, jobs)?;
    exchange.workers(&seat);
    let (_, verdict) = exchange.close(seat);
    match verdict {
        Some(Verdict::Safe) => Ok(Decision::Safe(cut(whole_log(alloc, ends)?))),
        Some(Verdict::Unsafe) => match least_model(ends) {
            Some(model) => Ok(Decision::Unsafe(model)),
            None => unreachable!(),
        },
        None if wants_memory(ends.as_slice()) => Err(OutOfMemory),
        None => {
            let reports = reports_of(alloc, ends.as_slice())?;
            let log = whole_log(alloc, ends)?;
            Ok(Decision::Unknown(log, reports))
        }
    }
}
