ghost use Rattle.std.specs.Prelude.{◌≡◌, ◌≢◌, ◌⊎◌, ℕ, ◌+◌, ◌<◌, ◌≤◌, ◌++◌, ◌∷◌, [], List, length, All, Contains, IfOk, IfNone, IfSome, IsTrue, OnOk, OnErr};
ghost use Rattle.dg_base.specs.declared.Lit.{Lit as Literal};
ghost use Rattle.cnf_problem.specs.declared.problem.Lemma.{Lemma as ALemma};
ghost use Rattle.cnf_problem.specs.declared.problem.Problem.{Problem as TheProblem};
ghost use Rattle.cnf_problem.specs.Literals.{var as variable, IsOver, IsWithoutRepeats};
ghost use Rattle.cnf_problem.specs.Laws.{IsWithin};
ghost use Rattle.cnf_problem.specs.Chains.{AllFalse, IsNew};
ghost use Rattle.trail_state.specs.Trails.{true_lits, level, level as level_in, level_of, up_to, IsAssigned, IsWell};
ghost use Rattle.clause_store.specs.Stores.{IsWatching, CanBeWatched, clauses_of};
ghost use Rattle.order_solver.specs.Ordering.{IsCycleClause};
ghost use Rattle.clause_exchange.specs.Seats.{exchange_of};
ghost use Rattle.clause_exchange.specs.Steps.{mine};
ghost use Rattle.worker_log.specs.Newness.{knows};
ghost use Rattle.worker_log.specs.Keeping.{Notes};
ghost use Rattle.cdcl_worker.specs.Outcomes.{IsOutcome};
ghost use Rattle.cdcl_worker.specs.Searching.{HasTwoAt, IsLast, IsSearching, MayLearn, IsLeft, IsSilent, HasFound};

use crate::known::{Known, know_well};
use crate::search::Found;
use crate::worker::{Outcome, Worker};
use clause_exchange::{Exchange, Seat};
use cnf_problem::{LemmaKind, Problem, var};
use conflict_learn::{Learnt, learn};
use dg_base::{Lit, OutOfMemory};
use lemma_log::Entry;
use search_core::Verdict;
use std::alloc::Global;
use trail_state::{ClauseId, Trail};
use worker_log::lemma_of;

// The greatest level of at most `most` at which a literal of the clause was assigned, or 0.
fn level_up_to(trail: &Trail, clause: &[Lit], most: u32) -> u32
    requires { (l : Literal) → Contains clause.now l → IsOver trail.now.vars l }
    ensures within { result ≤ most }
    ensures greatest { (l : Literal) → Contains clause.now l → IsAssigned trail.now.entries (variable l) → level_of (variable l) trail.now.entries ≤ most → level_of (variable l) trail.now.entries ≤ result }
    ensures reached { (result ≡ 0) ⊎ ((l : Literal) × Contains clause.now l × IsAssigned trail.now.entries (variable l) × (level_of (variable l) trail.now.entries ≡ result)) }
{
    let mut greatest = 0;
    for lit in clause {
        if trail.value(*lit).is_some() {
            let level = trail.level_of(*lit);
            if level <= most && level > greatest {
                greatest = level;
            }
        }
    }
    greatest
}

// Whether two literals of the clause were assigned at this level.
fn has_two_at(trail: &Trail, clause: &[Lit], level: u32) -> bool
    requires assigned { (l : Literal) → Contains clause.now l → IsAssigned trail.now.entries (variable l) }
    requires no_repeats { IsWithoutRepeats clause.now }
    ensures { IsTrue result → HasTwoAt trail.now.entries clause.now level }
{
    let mut found = false;
    for lit in clause {
        if trail.level_of(*lit) == level {
            if found {
                return true;
            }
            found = true;
        }
    }
    false
}

// The literals of the last entry.
fn last_lits(entries: &[Entry]) -> &[Lit]
    requires { 0 < length entries.now }
    ensures { IsLast entries.now result.now }
{
    entries[entries.len() - 1].lemma.lits.as_slice()
}

impl Worker {
    // Adds the last lemma of the log to the clauses.
    fn keep_last(&mut self) -> Result<(), OutOfMemory>
        requires some { 0 < length self.old.log.entries }
        requires watching { (p : TheProblem) × IsWatching p self.old.store self.old.trail }
        requires over { (clause : List Literal) → IsLast self.old.log.entries clause → All (IsOver self.old.trail.vars) clause }
        requires watchable { 0 < level self.old.trail.entries → (clause : List Literal) → IsLast self.old.log.entries clause → CanBeWatched self.old.trail.entries clause }
        ensures rest { (self.new.trail ≡ self.old.trail) × (self.new.order ≡ self.old.order) × (self.new.choice ≡ self.old.choice) × (self.new.log ≡ self.old.log) × (self.new.since ≡ self.old.since) }
        ensures added { OnOk result ((clause : List Literal) × IsLast self.old.log.entries clause × (self.new.store.added ≡ self.old.store.added ++ clause ∷ [])) }
        ensures watching { OnOk result ((p : TheProblem) → IsWatching p self.old.store self.old.trail → IsWatching p self.new.store self.new.trail) }
    {
        let lits = last_lits(self.log.entries());
        self.store.add(lits, &self.trail)?;
        Ok(())
    }

    // Notes a learnt clause, goes back to where it asserts a literal, and keeps it.
    fn keep_learnt(
        &mut self,
        alloc: Global,
        exchange: &Exchange,
        seat: &mut Seat,
        learnt: Learnt,
    ) -> Result<(), OutOfMemory>
        requires same { exchange_of seat.old ≡ exchange.now }
        requires may { (p : TheProblem) × (budget : ℕ) × (conflict : List Literal) × MayLearn p budget self.old seat.old.view conflict learnt.lits learnt.back }
        requires recent { length (mine seat.old.view).log < self.old.since + 1024 }
        ensures same { exchange_of seat.new ≡ exchange_of seat.old }
        ensures silent { IsSilent (mine seat.old.view) self.new seat.new.view }
        ensures longer { OnOk result (length (mine seat.new.view).log ≡ length (mine seat.old.view).log + 1) }
        ensures searching { OnOk result ((p : TheProblem) (budget : ℕ) (conflict : List Literal) → MayLearn p budget self.old seat.old.view conflict learnt.lits learnt.back → IsSearching p budget self.new seat.new.view) }
    {
        know_well(&self.trail);
        let lemma = lemma_of(alloc, LemmaKind::Unit, learnt.lits.as_slice())?;
        self.log.note(exchange, seat, lemma)?;
        for lit in learnt.lits.as_slice() {
            self.trail.bump(var(*lit));
        }
        self.pace.conflict();
        self.undo(learnt.back);
        self.keep_last()
    }

    // Learns from a clause of the store that is false, above level 0.
    pub(crate) fn learn_from_clause(
        &mut self,
        alloc: Global,
        problem: &Problem,
        exchange: &Exchange,
        seat: &mut Seat,
        id: ClauseId,
    ) -> Result<(), OutOfMemory>
        requires same { exchange_of seat.old ≡ exchange.now }
        requires found { (budget : ℕ) × HasFound problem.now budget self.old seat.old.view (Found.Clause id) × (length (mine seat.old.view).log < budget) }
        requires recent { length (mine seat.old.view).log < self.old.since + 1024 }
        ensures same { exchange_of seat.new ≡ exchange_of seat.old }
        ensures silent { IsSilent (mine seat.old.view) self.new seat.new.view }
        ensures longer { OnOk result (length (mine seat.new.view).log ≡ length (mine seat.old.view).log + 1) }
        ensures searching { OnOk result ((budget : ℕ) → HasFound problem.now budget self.old seat.old.view (Found.Clause id) → length (mine seat.old.view).log < budget → IsSearching problem.now budget self.new seat.new.view) }
    {
        know_well(&self.trail);
        let known = Known {
            problem,
            store: &self.store,
        };
        let learnt = learn(alloc, &self.trail, &known, self.store.clause(problem, id))?;
        self.keep_learnt(alloc, exchange, seat, learnt)
    }

    // Notes a cycle clause.
    fn note_cycle(
        &mut self,
        alloc: Global,
        exchange: &Exchange,
        seat: &mut Seat,
        clause: &[Lit],
    ) -> Result<(), OutOfMemory>
        requires same { exchange_of seat.old ≡ exchange.now }
        requires searching { (budget : ℕ) × IsSearching seat.old.view.problem budget self.old seat.old.view }
        requires recent { length (mine seat.old.view).log < self.old.since + 1024 }
        requires cycle { IsCycleClause seat.old.view.problem clause.now }
        requires new { clause.now ≢ [] → IsNew (seat.old.view.problem.clauses ++ knows (mine seat.old.view)) clause.now }
        ensures same { exchange_of seat.new ≡ exchange_of seat.old }
        ensures rest { (self.new.trail ≡ self.old.trail) × (self.new.store ≡ self.old.store) × (self.new.order ≡ self.old.order) × (self.new.choice ≡ self.old.choice) × (self.new.since ≡ self.old.since) }
        ensures silent { IsSilent (mine seat.old.view) self.new seat.new.view }
        ensures noted { OnOk result ((lemma : ALemma) × Notes lemma (mine seat.old.view) (mine seat.new.view) × IsWithin lemma.lits clause.now × IsWithin clause.now lemma.lits) }
    {
        let lemma = lemma_of(alloc, LemmaKind::Cycle, clause)?;
        self.log.note(exchange, seat, lemma)
    }

    // Notes a cycle clause, goes back to a level at which it can be watched, and keeps it.
    fn keep_cycle(
        &mut self,
        alloc: Global,
        exchange: &Exchange,
        seat: &mut Seat,
        clause: &[Lit],
        level: u32,
    ) -> Result<(), OutOfMemory>
        requires same { exchange_of seat.old ≡ exchange.now }
        requires searching { (budget : ℕ) × IsSearching seat.old.view.problem budget self.old seat.old.view × (length (mine seat.old.view).log < budget) }
        requires well { IsWell self.old.trail }
        requires recent { length (mine seat.old.view).log < self.old.since + 1024 }
        requires cycle { IsCycleClause seat.old.view.problem clause.now }
        requires new { IsNew (seat.old.view.problem.clauses ++ knows (mine seat.old.view)) clause.now }
        requires watchable { (lits : List Literal) → IsWithin clause.now lits → 0 < level_in (up_to level self.old.trail.entries) → CanBeWatched (up_to level self.old.trail.entries) lits }
        ensures same { exchange_of seat.new ≡ exchange_of seat.old }
        ensures silent { IsSilent (mine seat.old.view) self.new seat.new.view }
        ensures longer { OnOk result (length (mine seat.new.view).log ≡ length (mine seat.old.view).log + 1) }
        ensures searching { OnOk result ((budget : ℕ) → IsSearching seat.old.view.problem budget self.old seat.old.view → length (mine seat.old.view).log < budget → IsSearching seat.old.view.problem budget self.new seat.new.view) }
        ensures trail { OnOk result ((self.new.trail.entries ≡ up_to level self.old.trail.entries) × (self.new.since ≡ self.old.since)) }
        ensures last { OnOk result ((lits : List Literal) × IsLast self.new.log.entries lits × IsWithin lits clause.now × IsWithin clause.now lits × Contains (clauses_of seat.old.view.problem self.new.store) lits) }
    {
        self.note_cycle(alloc, exchange, seat, clause)?;
        self.undo(level);
        self.keep_last()
    }

    // A cycle clause is false at level 0.
    fn take_last_conflict(
        &mut self,
        alloc: Global,
        exchange: &Exchange,
        seat: &mut Seat,
        clause: &[Lit],
    ) -> Result<Outcome, OutOfMemory>
        requires same { exchange_of seat.old ≡ exchange.now }
        requires found { (budget : ℕ) × HasFound seat.old.view.problem budget self.old seat.old.view (Found.Conflict clause.now) × (length (mine seat.old.view).log < budget) }
        requires ground { (l : Literal) → Contains clause.now l → level_of (variable l) self.old.trail.entries ≡ 0 }
        requires recent { length (mine seat.old.view).log + 1 < self.old.since + 1024 }
        ensures same { exchange_of seat.new ≡ exchange_of seat.old }
        ensures left { IsLeft (mine seat.old.view) self.new seat.new.view }
        ensures outcome { IfOk result (λ outcome. (budget : ℕ) → IsOutcome seat.old.view.problem budget (mine seat.old.view) (mine seat.new.view) outcome) }
        ensures err { OnErr result ((mine seat.new.view).offers ≡ []) }
    {
        know_well(&self.trail);
        self.note_cycle(alloc, exchange, seat, clause)?;
        if clause.is_empty() {
            exchange.offer(seat, Verdict::Safe);
            return Ok(Outcome::Unsat);
        }
        self.refute(alloc, exchange, seat)
    }

    // Keeps a cycle clause that is false, and learns from it where it has two literals or more of its
    // greatest level and the log has room.
    pub(crate) fn take_conflict(
        &mut self,
        alloc: Global,
        problem: &Problem,
        exchange: &Exchange,
        seat: &mut Seat,
        budget: u32,
        clause: &[Lit],
    ) -> Result<Option<Outcome>, OutOfMemory>
        requires same { exchange_of seat.old ≡ exchange.now }
        requires found { HasFound problem.now budget self.old seat.old.view (Found.Conflict clause.now) }
        requires room { length (mine seat.old.view).log < budget }
        requires recent { length (mine seat.old.view).log + 1 < self.old.since + 1024 }
        ensures same { exchange_of seat.new ≡ exchange_of seat.old }
        ensures left { IsLeft (mine seat.old.view) self.new seat.new.view }
        ensures none { IfOk result (λ o. IfNone o (IsSearching problem.now budget self.new seat.new.view × (length (mine seat.old.view).log < length (mine seat.new.view).log))) }
        ensures some { IfOk result (λ o. IfSome o (λ outcome. IsOutcome problem.now budget (mine seat.old.view) (mine seat.new.view) outcome)) }
        ensures err { OnErr result ((mine seat.new.view).offers ≡ []) }
    {
        know_well(&self.trail);
        let top = level_up_to(&self.trail, clause, self.trail.level());
        if top == 0 {
            return Ok(Some(self.take_last_conflict(alloc, exchange, seat, clause)?));
        }
        if !has_two_at(&self.trail, clause, top) {
            let second = level_up_to(&self.trail, clause, top - 1);
            self.keep_cycle(alloc, exchange, seat, clause, second)?;
            return Ok(None);
        }
        self.keep_cycle(alloc, exchange, seat, clause, top)?;
        if self.log.len() >= budget as usize {
            return Ok(None);
        }
        self.learn_from_cycle(alloc, problem, exchange, seat)?;
        Ok(None)
    }

    // Learns from the last clause of the log, which is false and has a literal of the present level.
    fn learn_from_cycle(
        &mut self,
        alloc: Global,
        problem: &Problem,
        exchange: &Exchange,
        seat: &mut Seat,
    ) -> Result<(), OutOfMemory>
        requires same { exchange_of seat.old ≡ exchange.now }
        requires searching { (budget : ℕ) × IsSearching problem.now budget self.old seat.old.view × (length (mine seat.old.view).log < budget) }
        requires above { 0 < level self.old.trail.entries }
        requires last { (clause : List Literal) × IsLast self.old.log.entries clause × Contains (clauses_of problem.now self.old.store) clause × AllFalse (true_lits self.old.trail.entries) clause × ((l : Literal) × Contains clause l × (level_of (variable l) self.old.trail.entries ≡ level self.old.trail.entries)) }
        requires recent { length (mine seat.old.view).log < self.old.since + 1024 }
        ensures same { exchange_of seat.new ≡ exchange_of seat.old }
        ensures silent { IsSilent (mine seat.old.view) self.new seat.new.view }
        ensures longer { OnOk result (length (mine seat.new.view).log ≡ length (mine seat.old.view).log + 1) }
        ensures searching { OnOk result ((budget : ℕ) → IsSearching problem.now budget self.old seat.old.view → length (mine seat.old.view).log < budget → IsSearching problem.now budget self.new seat.new.view) }
    {
        know_well(&self.trail);
        let known = Known {
            problem,
            store: &self.store,
        };
        let learnt = learn(alloc, &self.trail, &known, last_lits(self.log.entries()))?;
        self.keep_learnt(alloc, exchange, seat, learnt)
    }

    // Keeps a cycle clause with one unassigned literal, at the level where it became unit.
    pub(crate) fn take_implied(
        &mut self,
        alloc: Global,
        exchange: &Exchange,
        seat: &mut Seat,
        clause: &[Lit],
    ) -> Result<(), OutOfMemory>
        requires same { exchange_of seat.old ≡ exchange.now }
        requires found { (budget : ℕ) × HasFound seat.old.view.problem budget self.old seat.old.view (Found.Implied clause.now) × (length (mine seat.old.view).log < budget) }
        requires recent { length (mine seat.old.view).log < self.old.since + 1024 }
        ensures same { exchange_of seat.new ≡ exchange_of seat.old }
        ensures silent { IsSilent (mine seat.old.view) self.new seat.new.view }
        ensures longer { OnOk result (length (mine seat.new.view).log ≡ length (mine seat.old.view).log + 1) }
        ensures searching { OnOk result ((budget : ℕ) → HasFound seat.old.view.problem budget self.old seat.old.view (Found.Implied clause.now) → length (mine seat.old.view).log < budget → IsSearching seat.old.view.problem budget self.new seat.new.view) }
    {
        know_well(&self.trail);
        let level = level_up_to(&self.trail, clause, self.trail.level());
        self.keep_cycle(alloc, exchange, seat, clause, level)
    }
}
