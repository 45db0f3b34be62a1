// The workers of a search: before, while and after they work.
ghost use Rattle.std.specs.Prelude.{◌≡◌, ℕ, ◌+◌, ◌<◌, ◌≤◌, [], length, slice_get, Some, IfOk};
ghost use Rattle.clause_exchange.specs.Rule.{new_view, blank_part};
ghost use Rattle.clause_exchange.specs.Splits.{with_parts};
ghost use Rattle.clause_exchange.specs.Seats.{exchange_of};
ghost use Rattle.clause_exchange.specs.Steps.{mine};
ghost use Rattle.clause_exchange.specs.Calls.{HasOne};
ghost use Rattle.cdcl_worker.specs.Searching.{IsFresh};
ghost use Rattle.verdict_run.specs.declared.jobs.Job.{Job as TheJob};
ghost use Rattle.verdict_run.specs.Searches.{IsJob, AreJobs, HasWorked, HaveWorked, AreTaken};

use cdcl_worker::{Outcome, Worker};
use clause_exchange::{Exchange, Seat};
use cnf_problem::Problem;
use dg_base::{Gate, OutOfMemory};
use std::alloc::Global;
use std::thread;
use std::thread::Threads;

// A worker, and how its search ended.
#[derive(Drop)]
pub(crate) struct Ended {
    pub(crate) worker: Worker,
    pub(crate) outcome: Outcome,
}

// A worker with its seat.
#[derive(Drop)]
pub(crate) struct Job {
    pub(crate) seat: Seat,
    pub(crate) ended: Ended,
}

// A worker of this number that has not worked, with its seat.
fn job_of(
    alloc: Global,
    problem: &Problem,
    workers: u32,
    seat: Seat,
    number: u32,
) -> Result<Job, OutOfMemory>
    ensures seat { IfOk result (λ job. job.seat ≡ seat) }
    ensures fresh { IfOk result (λ job. IsFresh problem.now number workers job.ended.worker) }
{
    let worker = Worker::new(alloc, problem, number, workers)?;
    let ended = Ended {
        worker,
        outcome: Outcome::OutOfMemory,
    };
    Ok(Job { seat, ended })
}

// All workers with their seats, the greatest number first.
pub(crate) fn jobs_of(
    alloc: Global,
    problem: &Problem,
    exchange: &Exchange,
    mut seat: Seat,
    workers: u32,
) -> Result<Vec<Job>, OutOfMemory>
    requires same { exchange_of seat ≡ exchange.now }
    requires problem { exchange.now.problem ≡ problem.now }
    requires workers { exchange.now.workers ≡ workers }
    requires some { 0 < workers }
    requires new { seat.view ≡ new_view problem.now workers exchange.now.share_words }
    ensures jobs { IfOk result (λ jobs. AreJobs exchange.now jobs.items) }
    ensures all { IfOk result (λ jobs. length jobs.items ≡ workers) }
{
    let mut jobs = Vec::new(alloc);
    for made in 0..workers - 1 {
        let number = workers - 1 - made;
        let last = exchange.split(&mut seat, number);
        jobs.push(job_of(alloc, problem, workers, last, number)?)?;
    }
    jobs.push(job_of(alloc, problem, workers, seat, 0)?)?;
    Ok(jobs)
}

// One worker searches.
fn search<G: Gate>(
    alloc: Global,
    problem: &Problem,
    exchange: &Exchange,
    budget: u32,
    gate: &G,
    job: &mut Job,
)
    requires problem { exchange.now.problem ≡ problem.now }
    requires some { 1 ≤ budget }
    requires few { budget ≤ 1000000 }
    requires job { IsJob exchange.now job.old }
    ensures worked { HasWorked exchange.now budget job.new }
    ensures number { (mine job.new.seat.view).number ≡ (mine job.old.seat.view).number }
{
    job.ended.outcome = job
        .ended
        .worker
        .work(alloc, problem, exchange, &mut job.seat, budget, gate);
}

// All workers search, each in a thread of its own where one can be made. The fork takes no memory.
pub(crate) fn search_all<R: Threads + Sync, G: Gate + Sync>(
    rt: &R,
    alloc: Global,
    problem: &Problem,
    exchange: &Exchange,
    budget: u32,
    gate: &G,
    jobs: &mut [Job],
)
    requires problem { exchange.now.problem ≡ problem.now }
    requires some { 1 ≤ budget }
    requires few { budget ≤ 1000000 }
    requires any { 0 < length jobs.old }
    requires jobs { AreJobs exchange.now jobs.old }
    ensures { HaveWorked exchange.now budget jobs.new }
{
    let threads = jobs.len();
    let work = |_, job: &mut Job|
        requires problem { exchange.now.problem ≡ problem.now }
        requires some { 1 ≤ budget }
        requires few { budget ≤ 1000000 }
        requires job { IsJob exchange.now job.now }
        ensures worked { HasWorked exchange.entry.now budget job.exit.now }
        ensures number { (mine job.exit.now.seat.view).number ≡ (mine job.entry.now.seat.view).number }
    { search(alloc, problem, exchange, budget, gate, job) };
    thread::for_each_mut(rt, jobs, threads, &work);
}

// The seat of all workers, and the workers by their numbers.
pub(crate) fn gather(
    alloc: Global,
    exchange: &Exchange,
    mut jobs: Vec<Job>,
) -> Result<(Seat, Vec<Ended>), OutOfMemory>
    requires any { 0 < length jobs.items }
    requires same { (k : ℕ) (job : TheJob) → slice_get jobs.items k ≡ Some job → exchange_of job.seat ≡ exchange.now }
    requires one { (k : ℕ) (job : TheJob) → slice_get jobs.items k ≡ Some job → HasOne job.seat.view }
    ensures same { IfOk result (λ r. exchange_of r.0 ≡ exchange.now) }
    ensures taken { IfOk result (λ r. AreTaken jobs.items [] r.0.view.parts r.1.items) }
{
    let mut ends = Vec::new(alloc);
    let Some(
        Job {
            seat: mut all,
            ended,
        },
    ) = jobs.pop()
    else {
        unreachable!()
    };
    ends.push(ended)?;
    while let Some(Job { seat, ended }) = jobs.pop() {
        exchange.join(&mut all, seat);
        ends.push(ended)?;
    }
    Ok((all, ends))
}
