ghost use Rattle.std.specs.Prelude.{◌≡◌, ◌≢◌, ℕ, ◌+◌, ◌<◌, ◌≤◌, ◌++◌, [], length, IfOk, IfNone, IfSome, OnOk, OnErr};
ghost use Rattle.cnf_problem.specs.declared.problem.Problem.{Problem as TheProblem};
ghost use Rattle.cnf_problem.specs.Literals.{IsOver};
ghost use Rattle.cnf_problem.specs.Chains.{IsFixpoint, IsUnassigned, ReachesConflict};
ghost use Rattle.trail_state.specs.Trails.{true_lits, level, IsWell};
ghost use Rattle.clause_store.specs.Stores.{IsUndone, IsSettled, IsWatching, clauses_of};
ghost use Rattle.order_solver.specs.Ordering.{IsStep, IsAcyclic};
ghost use Rattle.clause_exchange.specs.declared.rule.Part.{Part as ThePart};
ghost use Rattle.clause_exchange.specs.declared.rule.View.{View as TheView};
ghost use Rattle.clause_exchange.specs.Seats.{exchange_of};
ghost use Rattle.clause_exchange.specs.Steps.{mine};
ghost use Rattle.worker_log.specs.Newness.{knows};
ghost use Rattle.worker_log.specs.Keeping.{IsLogging, IsHeeding};
ghost use Rattle.cdcl_worker.specs.Outcomes.{IsOutcome};
ghost use Rattle.cdcl_worker.specs.Searching.{IsThinking, IsSearching, MayRestart, IsLeft, IsSilent, HasCome, HasFound};

use crate::assignment::truth_values;
use crate::known::{add_all, know_well};
use crate::worker::{Outcome, Worker};
use clause_exchange::{Exchange, Seat};
use cnf_problem::{Lemma, LemmaKind, Problem};
use dg_base::{List, Lit, OutOfMemory, Steps};
use order_solver::Step;
use search_core::Verdict;
use std::alloc::Global;
use std::marker::Brand;
use std::sync::ledger::{Blank, Ledger};
use trail_state::{ClauseId, Lits};

// Where propagation and the orders have led.
#[derive(Debug, Drop)]
pub(crate) enum Found {
    // A clause is false at level 0.
    Refuted,
    // This clause is false, above level 0.
    Clause(ClauseId),
    // A cycle clause that is false.
    Conflict(Lits),
    // A cycle clause with one unassigned literal, the others being false.
    Implied(Lits),
    // All variables are assigned, no clause is false and no graph has a cycle.
    Model,
}

// Above so many atoms only cycles of true edges are looked for.
const ATOMS_LOOKED_AT: usize = 4096;

impl Worker {
    // Takes trail and orders back to a level.
    pub(crate) fn undo(&mut self, level: u32)
        ensures same { (self.new.log ≡ self.old.log) × (self.new.since ≡ self.old.since) × (self.new.store ≡ self.old.store) }
        ensures trail { IsUndone level self.old.trail self.new.trail }
        ensures thinking { (p : TheProblem) (part : ThePart) → IsThinking p self.old part → IsThinking p self.new part }
    {
        self.trail.undo_to(level);
        let known = self.order.len().min(self.trail.len());
        self.order.undo_to(known);
    }

    // Begins again from level 0, and hears what the other workers shared.
    pub(crate) fn restart(
        &mut self,
        alloc: Global,
        exchange: &Exchange,
        seat: &mut Seat,
    ) -> Result<(), OutOfMemory>
        requires same { exchange_of seat.old ≡ exchange.now }
        requires may { (p : TheProblem) × (budget : ℕ) × MayRestart p budget self.old seat.old.view }
        ensures same { exchange_of seat.new ≡ exchange_of seat.old }
        ensures silent { IsSilent (mine seat.old.view) self.new seat.new.view }
        ensures ground { OnOk result ((level self.new.trail.entries ≡ 0) × (self.new.since ≡ length (mine seat.new.view).log)) }
        ensures log { (mine seat.new.view).log ≡ (mine seat.old.view).log }
        ensures searching { OnOk result ((p : TheProblem) (budget : ℕ) → MayRestart p budget self.old seat.old.view → IsSearching p budget self.new seat.new.view) }
    {
        know_well(&self.trail);
        self.undo(0);
        let heard = self.log.heed(alloc, exchange, seat)?;
        self.pace.looked(self.log.len() as u32);
        add_all(&mut self.store, &self.trail, &heard)
    }

    // Tells the orders the literals of the trail that they don't have.
    fn tell_orders(&mut self)
        requires thinking { (p : TheProblem) × (part : ThePart) × IsThinking p self.old part }
        ensures same { (self.new.log ≡ self.old.log) × (self.new.since ≡ self.old.since) × (self.new.store ≡ self.old.store) × (self.new.trail ≡ self.old.trail) }
        ensures told { self.new.order.asserted ≡ true_lits self.new.trail.entries }
        ensures thinking { (p : TheProblem) (part : ThePart) → IsThinking p self.old part → IsThinking p self.new part }
    {
        for i in self.order.len()..self.trail.len() {
            let lit = self.trail.lit_at(i);
            self.order.assert_atom(lit);
        }
    }

    // One answer of the orders, where the trail is a fixpoint.
    fn ask_orders<L: Ledger>(
        &mut self,
        alloc: Global,
        problem: &Problem,
        budget: u32,
        blank: Blank,
    ) -> Result<Step, OutOfMemory>
        requires name { blank.name ≡ L.name }
        requires parts { blank.parts ≡ L.parts }
        requires some { 0 < L.parts }
        requires thinking { (part : ThePart) × IsThinking problem.now self.old part }
        ensures same { (self.new.log ≡ self.old.log) × (self.new.since ≡ self.old.since) × (self.new.store ≡ self.old.store) × (self.new.trail ≡ self.old.trail) }
        ensures thinking { (part : ThePart) → IsThinking problem.now self.old part → IsThinking problem.now self.new part }
        ensures quiet { result ≡ Ok Step.Quiet → IsAcyclic problem.now (true_lits self.new.trail.entries) }
        ensures step { IfOk result (λ step. step ≢ Step.Quiet → IsStep problem.now (true_lits self.new.trail.entries) step) }
    {
        let mut steps = Steps::<L>::new(blank);
        self.tell_orders();
        if problem.atoms.len() <= ATOMS_LOOKED_AT && self.log.len() < budget as usize / 2 {
            return self
                .order
                .propagate(alloc, problem, &self.trail, &mut steps);
        }
        match self.order.check(alloc, problem, &mut steps)? {
            Some(clause) => Ok(Step::Conflict(clause)),
            None => Ok(Step::Quiet),
        }
    }

    // Unit propagation; what was found, where a clause is false.
    fn propagate(&mut self, problem: &Problem) -> Option<Found>
        requires watching { IsWatching problem.now self.old.store self.old.trail }
        requires thinking { (part : ThePart) × IsThinking problem.now self.old part }
        requires well { IsWell self.old.trail }
        ensures same { (self.new.log ≡ self.old.log) × (self.new.since ≡ self.old.since) }
        ensures longer { length self.old.trail.entries ≤ length self.new.trail.entries }
        ensures come { IfNone result (HasCome problem.now self.old self.new) }
        ensures settled { IfNone result (IsSettled problem.now self.new.store self.new.trail) }
        ensures fixpoint { IfNone result (IsFixpoint (clauses_of problem.now self.new.store) (true_lits self.new.trail.entries)) }
        ensures found { IfSome result (λ found. (v : TheView) (budget : ℕ) → IsSearching problem.now budget self.old v → HasFound problem.now budget self.new v found) }
    {
        match self.store.propagate(problem, &mut self.trail) {
            None => None,
            Some(id) => {
                if self.trail.level() == 0 {
                    return Some(Found::Refuted);
                }
                Some(Found::Clause(id))
            }
        }
    }

    // Makes a decision, where all is propagated.
    fn decide(&mut self, problem: &Problem, lit: Lit)
        requires watching { IsWatching problem.now self.old.store self.old.trail }
        requires settled { IsSettled problem.now self.old.store self.old.trail }
        requires vars { self.old.trail.vars ≡ problem.now.vars }
        requires over { IsOver problem.now.vars lit }
        requires free { IsUnassigned (true_lits self.old.trail.entries) lit }
        ensures come { HasCome problem.now self.old self.new }
        ensures longer { length self.new.trail.entries ≡ length self.old.trail.entries + 1 }
        ensures well { IsWell self.new.trail }
    {
        self.trail.decide(lit);
        know_well(&self.trail);
    }

    // Propagates, asks the orders and decides, until there is something to tell.
    fn advance(
        &mut self,
        alloc: Global,
        problem: &Problem,
        budget: u32,
    ) -> Result<Found, OutOfMemory>
        requires searching { (v : TheView) × IsSearching problem.now budget self.old v }
        ensures same { (self.new.log ≡ self.old.log) × (self.new.since ≡ self.old.since) }
        ensures found { IfOk result (λ found. (v : TheView) → IsSearching problem.now budget self.old v → HasFound problem.now budget self.new v found) }
    {
        know_well(&self.trail);
        loop {
            if let Some(found) = self.propagate(problem) {
                return Ok(found);
            }
            match self.ask_orders::<Brand>(alloc, problem, budget, Blank::new(1))? {
                Step::Conflict(clause) => return Ok(Found::Conflict(clause)),
                Step::Implied(clause) => return Ok(Found::Implied(clause)),
                Step::Quiet => {}
            }
            match self.choice.next(&self.trail) {
                Some(lit) => self.decide(problem, lit),
                None => return Ok(Found::Model),
            }
        }
    }

    // The empty clause follows: it is noted, and the verdict offered.
    pub(crate) fn refute(
        &mut self,
        alloc: Global,
        exchange: &Exchange,
        seat: &mut Seat,
    ) -> Result<Outcome, OutOfMemory>
        requires same { exchange_of seat.old ≡ exchange.now }
        requires logging { IsLogging self.old.log seat.old.view }
        requires heeding { IsHeeding (mine seat.old.view) self.old.since }
        requires recent { length (mine seat.old.view).log < self.old.since + 1024 }
        requires room { length (mine seat.old.view).log ≤ 1000000 }
        requires silent { (mine seat.old.view).offers ≡ [] }
        requires refuted { ReachesConflict (seat.old.view.problem.clauses ++ knows (mine seat.old.view)) [] }
        ensures same { exchange_of seat.new ≡ exchange_of seat.old }
        ensures left { IsLeft (mine seat.old.view) self.new seat.new.view }
        ensures outcome { IfOk result (λ outcome. (budget : ℕ) → IsOutcome seat.old.view.problem budget (mine seat.old.view) (mine seat.new.view) outcome) }
        ensures err { OnErr result ((mine seat.new.view).offers ≡ []) }
    {
        let empty = Lemma {
            kind: LemmaKind::Unit,
            lits: List::new(alloc),
        };
        self.log.note(exchange, seat, empty)?;
        exchange.offer(seat, Verdict::Safe);
        Ok(Outcome::Unsat)
    }

    // The trail is a consistent assignment.
    fn offer_model(
        &mut self,
        alloc: Global,
        problem: &Problem,
        exchange: &Exchange,
        seat: &mut Seat,
    ) -> Result<Outcome, OutOfMemory>
        requires same { exchange_of seat.old ≡ exchange.now }
        requires problem { seat.old.view.problem ≡ problem.now }
        requires model { (budget : ℕ) × HasFound problem.now budget self.old seat.old.view Found.Model }
        ensures same { exchange_of seat.new ≡ exchange_of seat.old }
        ensures left { IsLeft (mine seat.old.view) self.new seat.new.view }
        ensures outcome { IfOk result (λ outcome. (budget : ℕ) → IsOutcome problem.now budget (mine seat.old.view) (mine seat.new.view) outcome) }
        ensures err { OnErr result ((mine seat.new.view).offers ≡ []) }
    {
        know_well(&self.trail);
        let values = truth_values(alloc, problem, &self.trail)?;
        exchange.offer(seat, Verdict::Unsafe);
        Ok(Outcome::Model(List::from_vec(values)))
    }

    // The budget is used up: hears the others once more, and tells whether what is known makes a
    // clause false.
    fn finish(
        &mut self,
        alloc: Global,
        problem: &Problem,
        exchange: &Exchange,
        seat: &mut Seat,
    ) -> Result<Outcome, OutOfMemory>
        requires same { exchange_of seat.old ≡ exchange.now }
        requires searching { IsSearching problem.now (length (mine seat.old.view).log) self.old seat.old.view }
        ensures same { exchange_of seat.new ≡ exchange_of seat.old }
        ensures left { IsLeft (mine seat.old.view) self.new seat.new.view }
        ensures outcome { IfOk result (λ outcome. IsOutcome problem.now (length (mine seat.old.view).log) (mine seat.old.view) (mine seat.new.view) outcome) }
        ensures err { OnErr result ((mine seat.new.view).offers ≡ []) }
    {
        self.restart(alloc, exchange, seat)?;
        match self.store.propagate(problem, &mut self.trail) {
            Some(_) => self.refute(alloc, exchange, seat),
            None => Ok(Outcome::Spent),
        }
    }

    // Looks at the other workers, where that is due.
    fn look(
        &mut self,
        alloc: Global,
        exchange: &Exchange,
        seat: &mut Seat,
    ) -> Result<(), OutOfMemory>
        requires same { exchange_of seat.old ≡ exchange.now }
        requires searching { (p : TheProblem) × (budget : ℕ) × IsSearching p budget self.old seat.old.view }
        ensures same { exchange_of seat.new ≡ exchange_of seat.old }
        ensures silent { IsSilent (mine seat.old.view) self.new seat.new.view }
        ensures log { (mine seat.new.view).log ≡ (mine seat.old.view).log }
        ensures recent { OnOk result (length (mine seat.new.view).log < self.new.since + 1022) }
        ensures searching { OnOk result ((p : TheProblem) (budget : ℕ) → IsSearching p budget self.old seat.old.view → IsSearching p budget self.new seat.new.view) }
    {
        if self.pace.is_due(self.log.len() as u32) {
            return self.restart(alloc, exchange, seat);
        }
        Ok(())
    }

    // Comes to an outcome, or to one lemma or two more.
    fn deduce(
        &mut self,
        alloc: Global,
        problem: &Problem,
        exchange: &Exchange,
        seat: &mut Seat,
        budget: u32,
    ) -> Result<Option<Outcome>, OutOfMemory>
        requires same { exchange_of seat.old ≡ exchange.now }
        requires searching { IsSearching problem.now budget self.old seat.old.view }
        requires room { length (mine seat.old.view).log < budget }
        requires recent { length (mine seat.old.view).log < self.old.since + 1022 }
        ensures same { exchange_of seat.new ≡ exchange_of seat.old }
        ensures left { IsLeft (mine seat.old.view) self.new seat.new.view }
        ensures none { IfOk result (λ o. IfNone o (IsSearching problem.now budget self.new seat.new.view × (length (mine seat.old.view).log < length (mine seat.new.view).log))) }
        ensures some { IfOk result (λ o. IfSome o (λ outcome. IsOutcome problem.now budget (mine seat.old.view) (mine seat.new.view) outcome)) }
        ensures err { OnErr result ((mine seat.new.view).offers ≡ []) }
    {
        match self.advance(alloc, problem, budget)? {
            Found::Refuted => Ok(Some(self.refute(alloc, exchange, seat)?)),
            Found::Clause(id) => {
                self.learn_from_clause(alloc, problem, exchange, seat, id)?;
                Ok(None)
            }
            Found::Conflict(clause) => {
                self.take_conflict(alloc, problem, exchange, seat, budget, clause.as_slice())
            }
            Found::Implied(clause) => {
                self.take_implied(alloc, exchange, seat, clause.as_slice())?;
                Ok(None)
            }
            Found::Model => Ok(Some(self.offer_model(alloc, problem, exchange, seat)?)),
        }
    }

    // One step of the search: an outcome, or one lemma or two more.
    fn step(
        &mut self,
        alloc: Global,
        problem: &Problem,
        exchange: &Exchange,
        seat: &mut Seat,
        budget: u32,
    ) -> Result<Option<Outcome>, OutOfMemory>
        requires same { exchange_of seat.old ≡ exchange.now }
        requires searching { IsSearching problem.now budget self.old seat.old.view }
        requires room { length (mine seat.old.view).log < budget }
        ensures same { exchange_of seat.new ≡ exchange_of seat.old }
        ensures left { IsLeft (mine seat.old.view) self.new seat.new.view }
        ensures none { IfOk result (λ o. IfNone o (IsSearching problem.now budget self.new seat.new.view × (length (mine seat.old.view).log < length (mine seat.new.view).log))) }
        ensures some { IfOk result (λ o. IfSome o (λ outcome. IsOutcome problem.now budget (mine seat.old.view) (mine seat.new.view) outcome)) }
        ensures err { OnErr result ((mine seat.new.view).offers ≡ []) }
    {
        if let Some(verdict) = exchange.verdict(seat) {
            return Ok(Some(Outcome::Followed(verdict)));
        }
        self.look(alloc, exchange, seat)?;
        self.deduce(alloc, problem, exchange, seat, budget)
    }

    // The search, with a budget of lemmas.
    pub(crate) fn search(
        &mut self,
        alloc: Global,
        problem: &Problem,
        exchange: &Exchange,
        seat: &mut Seat,
        budget: u32,
    ) -> Result<Outcome, OutOfMemory>
        requires same { exchange_of seat.old ≡ exchange.now }
        requires may { MayRestart problem.now budget self.old seat.old.view }
        ensures same { exchange_of seat.new ≡ exchange_of seat.old }
        ensures left { IsLeft (mine seat.old.view) self.new seat.new.view }
        ensures outcome { IfOk result (λ outcome. IsOutcome problem.now budget (mine seat.old.view) (mine seat.new.view) outcome) }
        ensures err { OnErr result ((mine seat.new.view).offers ≡ []) }
    {
        self.restart(alloc, exchange, seat)?;
        while self.log.len() < budget as usize {
            if let Some(outcome) = self.step(alloc, problem, exchange, seat, budget)? {
                return Ok(outcome);
            }
        }
        self.finish(alloc, problem, exchange, seat)
    }
}
