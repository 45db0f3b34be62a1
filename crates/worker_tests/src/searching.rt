// How a worker's search ends.
ghost use Rattle.std.specs.Prelude.{◌≡◌, ◌≤◌};
ghost use Rattle.clause_exchange.specs.Seats.{exchange_of};
ghost use Rattle.worker_tests.specs.Seats.{IsNewSeat};

use crate::problems::cycles_in;
use cdcl_worker::{Outcome, Worker};
use clause_exchange::{Exchange, Seat};
use cnf_problem::Problem;
use dg_base::{Gate, OutOfMemory};
use std::alloc::Global;

// What a search left: how it ended, how many lemmas the worker appended, how many of these by a
// cycle, and how many entries it read of the first row.
#[derive(Drop)]
pub(crate) struct End {
    pub(crate) outcome: Outcome,
    pub(crate) lemmas: usize,
    pub(crate) cycles: usize,
    pub(crate) read: Option<u32>,
}

fn end_of(outcome: Outcome, worker: &Worker) -> End {
    End {
        outcome,
        lemmas: worker.log().len(),
        cycles: cycles_in(worker.log()),
        read: worker.reads().first().copied(),
    }
}

// Worker `number` of so many searches with its seat.
pub(crate) fn search<G: Gate>(
    alloc: Global,
    problem: &Problem,
    exchange: &Exchange,
    mut seat: Seat,
    number: u32,
    workers: u32,
    budget: u32,
    gate: &G,
) -> Result<End, OutOfMemory>
    requires same { exchange_of seat ≡ exchange.now }
    requires unused { IsNewSeat problem.now number workers seat.view }
    requires some { 1 ≤ budget }
    requires few { budget ≤ 1000000 }
{
    let mut worker = Worker::new(alloc, problem, number, workers)?;
    let outcome = worker.work(alloc, problem, exchange, &mut seat, budget, gate);
    Ok(end_of(outcome, &worker))
}
