// Adds hints to a log.
ghost use Rattle.std.specs.Prelude.{◌≡◌, ◌≤◌, ◌+◌, ◌++◌, ◌∷◌, [], All, IfOk, List as TheList, OnOk, length, map};
ghost use Rattle.dg_base.specs.declared.Lit.{Lit as Literal};
ghost use Rattle.cnf_problem.specs.Literals.{IsOver, negated as negation};
ghost use Rattle.cnf_problem.specs.Problems.{Follows};
ghost use Rattle.cnf_problem.specs.declared.problem.LemmaKind.TheVariants.{Unit as ByUnit, Cycle as ByCycle};
ghost use Rattle.cnf_problem.specs.declared.problem.Problem.{Problem as TheProblem};
ghost use Rattle.log_checker.specs.Goodness.{IsGood};
ghost use Rattle.log_checker.specs.Hints.{IsGoodHinted};
ghost use Rattle.hint_maker.specs.Adding.{IsReadyFor};
ghost use Rattle.hint_maker.specs.Lean.{AreAllLean, AreLean};

use crate::chain::chain;
use crate::ends::end_of;
use cnf_problem::{Lemma, LemmaKind, Problem};
use dg_base::{List, OutOfMemory};
use lemma_log::{Entry, Hint, HintedLog, Log};
use std::alloc::Global;
use unit_refuter::Refuter;

// Reads chains off the trail of a refuter. Between entries no variable is marked.
#[derive(Drop)]
struct Hinter {
    alloc: Global,
    refuter: Refuter,
    marks: Vec<bool>,
}

// The entry again.
fn copied(alloc: Global, entry: &Entry) -> Result<Entry, OutOfMemory>
    ensures { IfOk result (λ copy. copy ≡ entry.now) }
{
    let lits = List::from_slice(alloc, entry.lemma.lits.as_slice())?;
    Ok(Entry {
        ticket: entry.ticket,
        worker: entry.worker,
        lemma: Lemma {
            kind: entry.lemma.kind,
            lits,
        },
    })
}

impl Hinter {
    fn new(alloc: Global, problem: &Problem) -> Result<Hinter, OutOfMemory>
        ensures { IfOk result (IsReadyFor problem.now []) }
    {
        Ok(Hinter {
            alloc,
            refuter: Refuter::new(alloc, problem)?,
            marks: Vec::from_elem(alloc, false, problem.vars as usize + 1)?,
        })
    }

    // The hints of a lemma by unit propagation that follows from the clauses.
    fn unit(&mut self, problem: &Problem, entry: &Entry) -> Result<List<Hint>, OutOfMemory>
        requires ready { (clauses : TheList (TheList Literal)) × IsReadyFor problem.now clauses self.old × Follows problem.now clauses entry.now.lemma }
        requires kind { entry.now.lemma.kind ≡ ByUnit }
        ensures ready { OnOk result ((clauses : TheList (TheList Literal)) → IsReadyFor problem.now clauses self.old → IsReadyFor problem.now clauses self.new) }
        ensures lean { IfOk result (λ hints. (clauses : TheList (TheList Literal)) → IsReadyFor problem.now clauses self.old → Follows problem.now clauses entry.now.lemma → AreLean problem.now clauses (map negation entry.now.lemma.lits) hints) }
    {
        let lits = entry.lemma.lits.as_slice();
        let denied = self.refuter.refute(problem, lits);
        let end = end_of(self.refuter.trail(), lits, denied);
        let marks = self.marks.as_mut_slice();
        let hints = chain(self.alloc, &self.refuter, problem, lits, end, marks)?;
        self.refuter.restore();
        Ok(hints)
    }

    // The hints of an entry that follows from the clauses: a cycle lemma has none.
    fn hints(&mut self, problem: &Problem, entry: &Entry) -> Result<List<Hint>, OutOfMemory>
        requires ready { (clauses : TheList (TheList Literal)) × IsReadyFor problem.now clauses self.old × Follows problem.now clauses entry.now.lemma }
        ensures ready { OnOk result ((clauses : TheList (TheList Literal)) → IsReadyFor problem.now clauses self.old → IsReadyFor problem.now clauses self.new) }
        ensures lean { IfOk result (λ hints. entry.now.lemma.kind ≡ ByUnit → (clauses : TheList (TheList Literal)) → IsReadyFor problem.now clauses self.old → Follows problem.now clauses entry.now.lemma → AreLean problem.now clauses (map negation entry.now.lemma.lits) hints) }
        ensures none { IfOk result (λ hints. entry.now.lemma.kind ≡ ByCycle → hints ≡ []) }
    {
        match entry.lemma.kind {
            LemmaKind::Unit => self.unit(problem, entry),
            LemmaKind::Cycle => Ok(List::new(self.alloc)),
        }
    }

    // Puts the entry's clause behind the others.
    fn add(&mut self, entry: &Entry) -> Result<(), OutOfMemory>
        requires ready { (problem : TheProblem) × ((clauses : TheList (TheList Literal)) × IsReadyFor problem clauses self.old × All (IsOver problem.vars) entry.now.lemma.lits) }
        ensures { OnOk result ((problem : TheProblem) (clauses : TheList (TheList Literal)) → IsReadyFor problem clauses self.old → All (IsOver problem.vars) entry.now.lemma.lits → IsReadyFor problem (clauses ++ entry.now.lemma.lits ∷ []) self.new) }
    {
        self.refuter.add(entry.lemma.lits.as_slice())?;
        Ok(())
    }
}

/// The log with hints for each lemma by unit propagation: each literal that one makes true is needed by a later one. The time is
/// that of checking the log, and of one reading of the trail for each of its lemmas.
pub fn add_hints(alloc: Global, problem: &Problem, log: &Log) -> Result<HintedLog, OutOfMemory>
    requires { IsGood problem.now log.now.entries }
    ensures entries { IfOk result (λ h. h.log.entries ≡ log.now.entries) }
    ensures good { IfOk result (λ h. IsGoodHinted problem.now h.log.entries h.hints) }
    ensures lean { IfOk result (λ h. AreAllLean problem.now h.log.entries h.hints) }
    ensures few { IfOk result (λ h. All (λ hints. length hints ≤ problem.now.vars + 1) h.hints) }
{
    let mut hinter = Hinter::new(alloc, problem)?;
    let mut entries = List::new(alloc);
    let mut hints = List::new(alloc);
    for entry in log.entries.as_slice() {
        hints.push(hinter.hints(problem, entry)?)?;
        hinter.add(entry)?;
        entries.push(copied(alloc, entry)?)?;
    }
    Ok(HintedLog {
        log: Log { entries },
        hints,
    })
}
