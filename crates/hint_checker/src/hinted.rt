// Checks a hinted log.
ghost use Rattle.std.specs.Prelude.{◌≡◌, ◌≤◌, ◌<◌, ◌+◌, ◌^◌, All, IfErr, IfOk, List as TheList, OnOk, length, map};
ghost use Rattle.dg_base.specs.declared.Lit.{Lit as Literal};
ghost use Rattle.cnf_problem.specs.Edges.{IsCyclic};
ghost use Rattle.cnf_problem.specs.Literals.{IsOver, negated as negation};
ghost use Rattle.cnf_problem.specs.declared.problem.LemmaKind.TheVariants.{Unit as ByUnit, Cycle as ByCycle};
ghost use Rattle.lemma_log.specs.declared.hints.Hint.{Hint as TheHint};
ghost use Rattle.log_checker.specs.Goodness.{EndsEmpty, clauses_of};
ghost use Rattle.log_checker.specs.Graphs.{IsDenied};
ghost use Rattle.log_checker.specs.Hints.{AreRight, FollowsHinted, IsGoodHinted};
ghost use Rattle.log_checker.specs.Refusals.{IsHintedRefusal};
ghost use Rattle.log_checker.specs.declared.refused.Refused.TheVariants.{NoEmpty as NotEmpty};
ghost use Rattle.hint_checker.specs.Checking.{IsHintedEntryRefusal, IsReadyFor};
ghost use Rattle.hint_checker.specs.Counting.{literals_of_hints, most_looks, most_looks_in};

use crate::chain::wrong_hint;
use cnf_problem::{LemmaKind, Problem};
use dg_base::{OutOfMemory, Steps};
use lemma_log::{Entry, Hint, HintedLog};
use log_checker::{Accepted, AtomsByLit, Refused, bad_number};
use std::alloc::Global;
use std::sync::ledger::Ledger;
use trail_state::Trail;

// A checker between entries: an empty set, and the problem's atoms by their literals.
#[derive(Debug, Drop)]
struct HintChecker {
    alloc: Global,
    set: Trail,
    atoms: AtomsByLit,
}

impl HintChecker {
    fn new(alloc: Global, problem: &Problem) -> Result<HintChecker, OutOfMemory>
        ensures { IfOk result (IsReadyFor problem.now) }
    {
        Ok(HintChecker {
            alloc,
            set: Trail::new(alloc, problem.vars)?,
            atoms: AtomsByLit::new(alloc, problem)?,
        })
    }

    // Whether the hints of a lemma by unit propagation are right: where not, the position of the first wrong one.
    fn unit<L: Ledger>(
        &mut self,
        problem: &Problem,
        before: &[Entry],
        entry: &Entry,
        hints: &[Hint],
        steps: &mut Steps<L>,
    ) -> Result<(), Refused>
        requires ready { IsReadyFor problem.now self.old }
        requires before { All (All (IsOver problem.now.vars)) (clauses_of before.now) }
        requires over { All (IsOver problem.now.vars) entry.now.lemma.lits }
        requires kind { entry.now.lemma.kind ≡ ByUnit }
        ensures ready { IsReadyFor problem.now self.new }
        ensures right { OnOk result (AreRight problem.now (clauses_of before.now) (map negation entry.now.lemma.lits) hints.now) }
        ensures refused { IfErr result (IsHintedEntryRefusal problem.now (clauses_of before.now) entry.now hints.now) }
        ensures steps { steps.new ≤ steps.old + (length entry.now.lemma.lits + literals_of_hints problem.now (clauses_of before.now) hints.now) }
    {
        let lits = entry.lemma.lits.as_slice();
        let wrong = wrong_hint(&mut self.set, problem, before, lits, hints, steps);
        self.set.undo_to(0);
        match wrong {
            Some(position) => Err(Refused::BadHint(entry.ticket, position)),
            None => Ok(()),
        }
    }

    // Whether the atoms that a lemma denies close a cycle: where not, orders of the nodes.
    fn cycle(&self, problem: &Problem, entry: &Entry) -> Result<(), Refused>
        requires ready { IsReadyFor problem.now self.now }
        requires over { All (IsOver problem.now.vars) entry.now.lemma.lits }
        requires kind { entry.now.lemma.kind ≡ ByCycle }
        ensures follows { OnOk result (IsCyclic problem.now (IsDenied entry.now.lemma.lits)) }
        ensures refused { IfErr result (λ r. (before : TheList (TheList Literal)) (hints : TheList TheHint) → IsHintedEntryRefusal problem.now before entry.now hints r) }
    {
        let lits = entry.lemma.lits.as_slice();
        match self.atoms.orders(self.alloc, problem, lits)? {
            None => Ok(()),
            Some(orders) => Err(Refused::NoCycle(entry.ticket, orders.local, orders.global)),
        }
    }

    // Whether an entry has right hints, or follows by a cycle, behind these entries.
    fn entry<L: Ledger>(
        &mut self,
        problem: &Problem,
        before: &[Entry],
        entry: &Entry,
        hints: &[Hint],
        steps: &mut Steps<L>,
    ) -> Result<(), Refused>
        requires ready { IsReadyFor problem.now self.old }
        requires before { All (All (IsOver problem.now.vars)) (clauses_of before.now) }
        ensures ready { IsReadyFor problem.now self.new }
        ensures follows { OnOk result (FollowsHinted problem.now (clauses_of before.now) entry.now hints.now) }
        ensures refused { IfErr result (IsHintedEntryRefusal problem.now (clauses_of before.now) entry.now hints.now) }
        ensures steps { steps.new ≤ steps.old + most_looks entry.now.lemma.kind problem.now (clauses_of before.now) entry.now.lemma.lits hints.now }
    {
        if let Some(var) = bad_number(problem.vars, entry.lemma.lits.as_slice()) {
            return Err(Refused::BadNumber(entry.ticket, var));
        }
        match entry.lemma.kind {
            LemmaKind::Unit => self.unit(problem, before, entry, hints, steps),
            LemmaKind::Cycle => self.cycle(problem, entry),
        }
    }
}

// Whether the last entry is empty.
fn accepted(entries: &[Entry]) -> Result<Accepted, Refused>
    requires few { length entries.now < 2 ^ 32 }
    ensures ok { IfOk result (λ a. EndsEmpty entries.now × (a.entries ≡ length entries.now)) }
    ensures refused { IfErr result (λ r. (¬ EndsEmpty entries.now) × (r ≡ NotEmpty (length entries.now))) }
{
    let count = entries.len() as u32;
    match entries.last() {
        Some(entry) => {
            if entry.lemma.lits.is_empty() {
                Ok(Accepted { entries: count })
            } else {
                Err(Refused::NoEmpty(count))
            }
        }
        None => Err(Refused::NoEmpty(count)),
    }
}

/// Checks a log by its hints. A step is one look at a literal: each literal of a lemma by unit propagation and of its hinted
/// clauses is looked at once at most, and none of a cycle lemma's; that one costs a sorting of both graphs.
pub fn check_hinted<L: Ledger>(
    alloc: Global,
    problem: &Problem,
    log: &HintedLog,
    steps: &mut Steps<L>,
) -> Result<Accepted, Refused>
    ensures good { OnOk result (IsGoodHinted problem.now log.now.log.entries log.now.hints) }
    ensures ends_empty { OnOk result (EndsEmpty log.now.log.entries) }
    ensures count { IfOk result (λ a. a.entries ≡ length log.now.log.entries) }
    ensures refused { IfErr result (IsHintedRefusal problem.now log.now.log.entries log.now.hints) }
    ensures steps { steps.new ≤ steps.old + most_looks_in problem.now log.now.log.entries log.now.hints (length log.now.log.entries) }
{
    let mut checker = HintChecker::new(alloc, problem)?;
    let entries = log.log.entries.as_slice();
    for (i, entry) in entries.iter().enumerate() {
        let hints = log.hints.as_slice()[i].as_slice();
        checker.entry(problem, &entries[..i], entry, hints, steps)?;
    }
    accepted(entries)
}
