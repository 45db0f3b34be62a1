// Checks a log entry by entry.
ghost use Rattle.std.specs.Prelude.{◌≡◌, ◌<◌, ◌++◌, ◌∷◌, [], All, IfErr, IfOk, List as TheList, OnErr, OnOk, length, map};
ghost use Rattle.dg_base.specs.declared.Lit.{Lit as Literal};
ghost use Rattle.cnf_problem.specs.Chains.{ReachesConflict};
ghost use Rattle.cnf_problem.specs.Edges.{IsCyclic};
ghost use Rattle.cnf_problem.specs.Literals.{IsOver, negated as negation};
ghost use Rattle.cnf_problem.specs.Problems.{Follows, FollowsBy};
ghost use Rattle.cnf_problem.specs.declared.problem.LemmaKind.TheVariants.{Unit as ByUnit, Cycle as ByCycle};
ghost use Rattle.cnf_problem.specs.declared.problem.Problem.{Problem as TheProblem};
ghost use Rattle.lemma_log.specs.declared.Entry.{Entry as TheEntry};
ghost use Rattle.unit_refuter.specs.Refuting.{IsReady};
ghost use Rattle.log_checker.specs.Checking.{HasTaken};
ghost use Rattle.log_checker.specs.Goodness.{EndsEmpty, IsGood, clauses_of};
ghost use Rattle.log_checker.specs.Graphs.{AreFound, IsDenied};
ghost use Rattle.log_checker.specs.Refusals.{IsEntryRefusal, IsRefusal};

use crate::denied::AtomsByLit;
use crate::numbers::bad_number;
use crate::refused::Refused;
use cnf_problem::{LemmaKind, Problem};
use dg_base::OutOfMemory;
use lemma_log::{Entry, Log};
use std::alloc::Global;
use std::marker::Model;
use unit_refuter::{Denied, Refuter};

/// The log is good, has so many entries, and its last is the empty clause.
#[derive(Clone, Copy, Debug, PartialEq, Eq, Drop)]
pub struct Accepted {
    pub entries: u32,
}

/// A checker that takes the entries of a log in turn.
#[derive(Debug, Drop)]
pub struct Checker {
    alloc: Global,
    refuter: Refuter,
    atoms: AtomsByLit,
    taken: u32,
    ends_empty: bool,
}

impl Model for Checker {
    ghost use Rattle.log_checker.specs.Checking.{CheckerView};

    ghost Value = { CheckerView };

    ghost view = { λ c. record { refuter = c.refuter; atoms = c.atoms; taken = c.taken; ends_empty = c.ends_empty } };
}

impl Checker {
    /// A checker that has taken no entry. The time is a few readings of the problem, and one propagation.
    pub fn new(alloc: Global, problem: &Problem) -> Result<Checker, OutOfMemory>
        ensures { IfOk result (HasTaken problem.now []) }
    {
        Ok(Checker {
            alloc,
            refuter: Refuter::new(alloc, problem)?,
            atoms: AtomsByLit::new(alloc, problem)?,
            taken: 0,
            ends_empty: false,
        })
    }

    // Whether a lemma follows by unit propagation: where not, the literals at which it came to rest.
    fn unit(&mut self, problem: &Problem, entry: &Entry) -> Result<(), Refused>
        requires ready { (clauses : TheList (TheList Literal)) × IsReady problem.now clauses self.old.refuter }
        requires over { All (IsOver problem.now.vars) entry.now.lemma.lits }
        requires kind { entry.now.lemma.kind ≡ ByUnit }
        ensures same { self.new ≡ record self.old { refuter = self.new.refuter } }
        ensures ready { (clauses : TheList (TheList Literal)) → IsReady problem.now clauses self.old.refuter → IsReady problem.now clauses self.new.refuter }
        ensures follows { OnOk result ((clauses : TheList (TheList Literal)) → IsReady problem.now clauses self.old.refuter → ReachesConflict (problem.now.clauses ++ clauses) (map negation entry.now.lemma.lits)) }
        ensures refused { IfErr result (λ r. (clauses : TheList (TheList Literal)) → IsReady problem.now clauses self.old.refuter → IsEntryRefusal problem.now clauses entry.now r) }
    {
        let denied = self.refuter.refute(problem, entry.lemma.lits.as_slice());
        match denied {
            Denied::Satisfied => {
                self.refuter.restore();
                Ok(())
            }
            Denied::Conflict(_) => {
                self.refuter.restore();
                Ok(())
            }
            Denied::Rest => {
                let reached = self.refuter.reached(self.alloc);
                self.refuter.restore();
                Err(Refused::NotImplied(entry.ticket, reached?))
            }
        }
    }

    // Whether the atoms that a lemma denies close a cycle: where not, orders of the nodes.
    fn cycle(&self, problem: &Problem, entry: &Entry) -> Result<(), Refused>
        requires found { AreFound problem.now self.now.atoms }
        requires over { All (IsOver problem.now.vars) entry.now.lemma.lits }
        requires kind { entry.now.lemma.kind ≡ ByCycle }
        ensures follows { OnOk result (IsCyclic problem.now (IsDenied entry.now.lemma.lits)) }
        ensures refused { IfErr result (λ r. (clauses : TheList (TheList Literal)) → IsEntryRefusal problem.now clauses entry.now r) }
    {
        let lits = entry.lemma.lits.as_slice();
        match self.atoms.orders(self.alloc, problem, lits)? {
            None => Ok(()),
            Some(orders) => Err(Refused::NoCycle(entry.ticket, orders.local, orders.global)),
        }
    }

    // Whether a lemma follows, by its kind.
    fn follows(&mut self, problem: &Problem, entry: &Entry) -> Result<(), Refused>
        requires ready { (clauses : TheList (TheList Literal)) × IsReady problem.now clauses self.old.refuter }
        requires found { AreFound problem.now self.old.atoms }
        requires over { All (IsOver problem.now.vars) entry.now.lemma.lits }
        ensures same { self.new ≡ record self.old { refuter = self.new.refuter } }
        ensures ready { (clauses : TheList (TheList Literal)) → IsReady problem.now clauses self.old.refuter → IsReady problem.now clauses self.new.refuter }
        ensures follows { OnOk result ((clauses : TheList (TheList Literal)) → IsReady problem.now clauses self.old.refuter → FollowsBy entry.now.lemma.kind problem.now clauses entry.now.lemma.lits) }
        ensures refused { IfErr result (λ r. (clauses : TheList (TheList Literal)) → IsReady problem.now clauses self.old.refuter → IsEntryRefusal problem.now clauses entry.now r) }
    {
        match entry.lemma.kind {
            LemmaKind::Unit => self.unit(problem, entry),
            LemmaKind::Cycle => self.cycle(problem, entry),
        }
    }

    /// Takes the next entry, where it follows from the problem and the entries taken. After a refusal the checker has taken what
    /// it had. An entry by unit propagation costs its propagation, a cycle lemma a sorting of both graphs.
    pub fn entry(&mut self, problem: &Problem, entry: &Entry) -> Result<(), Refused>
        requires taken { (entries : TheList TheEntry) × HasTaken problem.now entries self.old }
        requires ticket { entry.now.ticket ≡ self.old.taken }
        requires room { self.old.taken < 4294967295 }
        ensures follows { OnOk result ((entries : TheList TheEntry) → HasTaken problem.now entries self.old → Follows problem.now (clauses_of entries) entry.now.lemma) }
        ensures ok { OnOk result ((entries : TheList TheEntry) → HasTaken problem.now entries self.old → HasTaken problem.now (entries ++ entry.now ∷ []) self.new) }
        ensures refused { IfErr result (λ r. (entries : TheList TheEntry) → HasTaken problem.now entries self.old → IsEntryRefusal problem.now (clauses_of entries) entry.now r) }
        ensures err { OnErr result ((entries : TheList TheEntry) → HasTaken problem.now entries self.old → HasTaken problem.now entries self.new) }
    {
        let lits = entry.lemma.lits.as_slice();
        if let Some(var) = bad_number(problem.vars, lits) {
            return Err(Refused::BadNumber(entry.ticket, var));
        }
        self.follows(problem, entry)?;
        self.refuter.add(lits)?;
        self.taken += 1;
        self.ends_empty = lits.is_empty();
        Ok(())
    }

    /// Whether the last entry taken is empty.
    pub fn finish(self) -> Result<Accepted, Refused>
        ensures ok { IfOk result (λ a. (p : TheProblem) (entries : TheList TheEntry) → HasTaken p entries self → EndsEmpty entries × (a.entries ≡ length entries)) }
        ensures refused { IfErr result (λ r. (p : TheProblem) (entries : TheList TheEntry) → HasTaken p entries self → IsRefusal p entries r) }
    {
        if self.ends_empty {
            Ok(Accepted {
                entries: self.taken,
            })
        } else {
            Err(Refused::NoEmpty(self.taken))
        }
    }
}

/// Checks a whole log. The time is that of propagating each entry's negation once.
pub fn check_log(alloc: Global, problem: &Problem, log: &Log) -> Result<Accepted, Refused>
    ensures good { OnOk result (IsGood problem.now log.now.entries) }
    ensures ends_empty { OnOk result (EndsEmpty log.now.entries) }
    ensures count { IfOk result (λ a. a.entries ≡ length log.now.entries) }
    ensures refused { IfErr result (IsRefusal problem.now log.now.entries) }
{
    let mut checker = Checker::new(alloc, problem)?;
    for entry in log.entries.as_slice() {
        checker.entry(problem, entry)?;
    }
    checker.finish()
}
