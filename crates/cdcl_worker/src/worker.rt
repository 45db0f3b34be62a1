ghost use Rattle.std.specs.Prelude.{◌≡◌, ◌≤◌, IfOk};
ghost use Rattle.clause_exchange.specs.Seats.{exchange_of};
ghost use Rattle.clause_exchange.specs.Steps.{mine};
ghost use Rattle.worker_log.specs.Newness.{WereNew};
ghost use Rattle.worker_log.specs.Logs.{IsBooked, IsIdle};
ghost use Rattle.cdcl_worker.specs.Outcomes.{IsOutcome};
ghost use Rattle.cdcl_worker.specs.Searching.{IsFresh};

use crate::deciding::OrderChoice;
use crate::pace::Pace;
use clause_exchange::{Exchange, Seat};
use clause_store::Store;
use cnf_problem::{Assignment, Problem};
use dg_base::{Gate, List, OutOfMemory};
use lemma_log::Entry;
use order_solver::OrderSolver;
use search_core::Verdict;
use std::alloc::Global;
use std::marker::Model;
use trail_state::Trail;
use worker_log::WorkerLog;

/// How a search ends.
#[derive(Debug, Drop)]
pub enum Outcome {
    /// The empty clause is in the log, and `Safe` was offered.
    Unsat,
    /// A consistent assignment; `Unsafe` was offered.
    Model(Assignment),
    /// The budget is used up.
    Spent,
    /// Another worker's verdict stands.
    Followed(Verdict),
    /// Want of memory.
    OutOfMemory,
}

/// One worker: conflict-driven clause learning over a problem with orders.
#[derive(Debug, Drop)]
pub struct Worker {
    pub(crate) trail: Trail,
    pub(crate) store: Store,
    pub(crate) order: OrderSolver,
    pub(crate) log: WorkerLog,
    pub(crate) choice: OrderChoice,
    pub(crate) pace: Pace,
}

impl Model for Worker {
    ghost use Rattle.cdcl_worker.specs.Outcomes.{WorkerView};

    ghost Value = { WorkerView };

    ghost view = { λ w. record { trail = w.trail; store = w.store; order = w.order; choice = w.choice; log = w.log; since = w.pace.since } };
}

impl Worker {
    /// A worker for the problem, with a number among so many workers.
    pub fn new(
        alloc: Global,
        problem: &Problem,
        number: u32,
        workers: u32,
    ) -> Result<Worker, OutOfMemory>
        ensures { IfOk result (λ w. IsFresh problem.now number workers w) }
    {
        let trail = Trail::new(alloc, problem.vars)?;
        let store = Store::new(alloc, problem)?;
        let order = OrderSolver::new(alloc, problem)?;
        let log = WorkerLog::new(alloc, number, workers)?;
        let choice = OrderChoice::new(alloc, problem, number)?;
        Ok(Worker {
            trail,
            store,
            order,
            log,
            choice,
            pace: Pace::new(),
        })
    }

    /// The lemmas that it appended.
    pub fn log(&self) -> &[Entry]
        ensures { result.now ≡ self.now.log.entries }
    {
        self.log.entries()
    }

    /// How many entries it read of each row.
    pub fn reads(&self) -> &[u32]
        ensures { result.now ≡ self.now.log.reads }
    {
        self.log.reads()
    }

    /// The lemmas, without the worker.
    pub fn into_log(self) -> List<Entry>
        ensures { result ≡ self.log.entries }
    {
        self.log.into_entries()
    }

    /// Searches until a verdict stands or the budget of lemmas is used up.
    pub fn work<G: Gate>(
        &mut self,
        alloc: Global,
        problem: &Problem,
        exchange: &Exchange,
        seat: &mut Seat,
        budget: u32,
        gate: &G,
    ) -> Outcome
        requires fresh { IsFresh problem.now (mine seat.old.view).number seat.old.view.workers self.old }
        requires same { exchange_of seat.old ≡ exchange.now }
        requires problem { seat.old.view.problem ≡ problem.now }
        requires idle { IsIdle seat.old.view }
        requires some { 1 ≤ budget }
        requires few { budget ≤ 1000000 }
        ensures same { exchange_of seat.new ≡ exchange_of seat.old }
        ensures number { (mine seat.new.view).number ≡ (mine seat.old.view).number }
        ensures booked { IsBooked self.new.log seat.new.view }
        ensures new { WereNew problem.now (mine seat.new.view) }
        ensures outcome { IsOutcome problem.now budget (mine seat.old.view) (mine seat.new.view) result }
    {
        gate.pass(self.log.number());
        match self.search(alloc, problem, exchange, seat, budget) {
            Ok(outcome) => outcome,
            Err(OutOfMemory) => Outcome::OutOfMemory,
        }
    }
}
