// Refutes clauses by unit propagation.
ghost use Rattle.std.specs.Prelude.{◌≡◌, ◌<◌, ◌++◌, ◌∷◌, [], All, Contains, IfOk, List as TheList, None, OnErr, OnOk, Some, false, length, option_map, slice_get, true};
ghost use Rattle.dg_base.specs.declared.Lit.{Lit as Literal};
ghost use Rattle.cnf_problem.specs.Literals.{IsOver, negated as negation};
ghost use Rattle.cnf_problem.specs.declared.problem.Problem.{Problem as TheProblem};
ghost use Rattle.trail_state.specs.Trails.{level, true_lits};
ghost use Rattle.clause_store.specs.NewWatch.{AreOver};
ghost use Rattle.clause_store.specs.Stores.{clauses_of};
ghost use Rattle.unit_refuter.specs.Refuting.{AreDerived, CanBeRefuted, Denies, HasOutcome, IsRaised, IsReady, IsSettledToo};

use clause_store::Store;
use cnf_problem::{Problem, negated};
use dg_base::{List, Lit, OutOfMemory};
use std::alloc::Global;
use std::marker::Model;
use trail_state::{ClauseId, Trail};

/// What came of denying a clause.
#[derive(Clone, Copy, Debug, PartialEq, Eq, Drop)]
pub enum Denied {
    /// Some literal of the clause is true by the other clauses alone.
    Satisfied,
    /// This clause is false where the denied one is.
    Conflict(ClauseId),
    /// Propagation came to rest: no clause is false, and none is unit.
    Rest,
}

/// A problem's clauses and more behind them, and on level 0 of a trail what follows from them by unit propagation. Once a clause
/// is false there, all is refuted, and no further clause is looked at.
#[derive(Debug, Drop)]
pub struct Refuter {
    store: Store,
    trail: Trail,
    conflict: Option<ClauseId>,
}

impl Model for Refuter {
    ghost use Rattle.std.specs.Prelude.{option_map};
    ghost use Rattle.unit_refuter.specs.Refuting.{RefuterView};

    ghost Value = { RefuterView };

    ghost view = { λ r. record { store = r.store; trail = r.trail; conflict = option_map (λ id. id.0) r.conflict } };
}

// Makes the negations true that are not yet; false where one can't be, since its literal is true.
fn assume(trail: &mut Trail, lits: &[Lit]) -> bool
    requires over { All (IsOver trail.old.vars) lits.now }
    requires ground { level trail.old.entries ≡ 0 }
    ensures denies { Denies lits.now trail.old.entries trail.new.entries }
    ensures same { trail.new ≡ record trail.old { entries = trail.new.entries } }
    ensures all { result ≡ true → All (λ l. Contains (true_lits trail.new.entries) (negation l)) lits.now }
    ensures not_all { result ≡ false → (l : Literal) × Contains lits.now l × Contains (true_lits trail.new.entries) l }
{
    for lit in lits {
        let denied = negated(*lit);
        match trail.value(denied) {
            Some(true) => {}
            Some(false) => return false,
            None => {
                if trail.level() == 0 {
                    trail.decide(denied);
                } else {
                    trail.assign(denied, ClauseId(0));
                }
            }
        }
    }
    true
}

impl Refuter {
    /// The problem's clauses alone. The time is two readings of them.
    pub fn new(alloc: Global, problem: &Problem) -> Result<Refuter, OutOfMemory>
        ensures { IfOk result (IsReady problem.now []) }
    {
        Ok(Refuter {
            store: Store::new(alloc, problem)?,
            trail: Trail::new(alloc, problem.vars)?,
            conflict: None,
        })
    }

    // Propagates what follows from the clauses alone; a clause that is false by them, where one is.
    fn settle(&mut self, problem: &Problem) -> Option<ClauseId>
        requires { (clauses : TheList (TheList Literal)) × IsReady problem.now clauses self.old }
        ensures settled { (clauses : TheList (TheList Literal)) → IsReady problem.now clauses self.old → IsSettledToo problem.now clauses self.new }
        ensures told { self.new.conflict ≡ option_map (λ id. id.0) result }
    {
        if self.conflict.is_none() {
            self.conflict = self.store.propagate(problem, &mut self.trail);
        }
        self.conflict
    }

    // Denies a clause and propagates, where no clause is false by the clauses alone.
    fn deny(&mut self, problem: &Problem, lits: &[Lit]) -> Denied
        requires settled { (clauses : TheList (TheList Literal)) × IsSettledToo problem.now clauses self.old }
        requires live { self.old.conflict ≡ None }
        requires clause { CanBeRefuted problem.now lits.now }
        ensures outcome { (clauses : TheList (TheList Literal)) → IsSettledToo problem.now clauses self.old → HasOutcome problem.now clauses lits.now self.new result }
        ensures derived { AreDerived (clauses_of problem.now self.new.store) lits.now self.new.trail.entries }
        ensures raised { (clauses : TheList (TheList Literal)) → IsSettledToo problem.now clauses self.old → IsRaised problem.now clauses self.new }
    {
        if !assume(&mut self.trail, lits) {
            return Denied::Satisfied;
        }
        if self.trail.level() == 0 {
            return Denied::Rest;
        }
        match self.store.propagate(problem, &mut self.trail) {
            Some(clause) => Denied::Conflict(clause),
            None => Denied::Rest,
        }
    }

    /// Denies a clause and propagates; `restore` takes the denial back. It takes no memory; the time is that of the propagation.
    pub fn refute(&mut self, problem: &Problem, lits: &[Lit]) -> Denied
        requires ready { (clauses : TheList (TheList Literal)) × IsReady problem.now clauses self.old }
        requires clause { CanBeRefuted problem.now lits.now }
        ensures outcome { (clauses : TheList (TheList Literal)) → IsReady problem.now clauses self.old → HasOutcome problem.now clauses lits.now self.new result }
        ensures derived { AreDerived (clauses_of problem.now self.new.store) lits.now self.new.trail.entries }
        ensures raised { (clauses : TheList (TheList Literal)) → IsReady problem.now clauses self.old → IsRaised problem.now clauses self.new }
    {
        match self.settle(problem) {
            Some(clause) => Denied::Conflict(clause),
            None => self.deny(problem, lits),
        }
    }

    /// Takes the denial back.
    pub fn restore(&mut self)
        ensures { (p : TheProblem) (clauses : TheList (TheList Literal)) → IsRaised p clauses self.old → IsReady p clauses self.new }
    {
        self.trail.undo_to(0);
    }

    /// Puts a clause behind the others.
    pub fn add(&mut self, lits: &[Lit]) -> Result<(), OutOfMemory>
        requires { (p : TheProblem) × ((clauses : TheList (TheList Literal)) × IsReady p clauses self.old × AreOver p.vars lits.now) }
        ensures ok { OnOk result ((p : TheProblem) (clauses : TheList (TheList Literal)) → IsReady p clauses self.old → IsReady p (clauses ++ lits.now ∷ []) self.new) }
        ensures err { OnErr result (self.new ≡ self.old) }
    {
        if self.conflict.is_some() {
            return Ok(());
        }
        self.store.add(lits, &self.trail)?;
        Ok(())
    }

    /// The trail: what follows from the clauses alone, and between `refute` and `restore` what follows from the denial too.
    pub fn trail(&self) -> &Trail
        ensures { result.now ≡ self.now.trail }
    {
        &self.trail
    }

    /// The literals of the clause with this number: the problem's clauses come first, those that were added behind them.
    pub fn clause<'a>(&'a self, problem: &'a Problem, id: ClauseId) -> &'a [Lit]
        requires { id.0 < length (clauses_of problem.now self.now.store) }
        ensures { slice_get (clauses_of problem.now self.now.store) id.0 ≡ Some result.now }
    {
        self.store.clause(problem, id)
    }

    /// The literals of the trail, the oldest first.
    pub fn reached(&self, alloc: Global) -> Result<List<Lit>, OutOfMemory>
        ensures { IfOk result (λ lits. lits ≡ true_lits self.now.trail.entries) }
    {
        let mut lits = List::new(alloc);
        for i in 0..self.trail.len() {
            lits.push(self.trail.lit_at(i))?;
        }
        Ok(lits)
    }
}
