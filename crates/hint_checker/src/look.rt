// Looks at the clause that a hint names, where some literals are true.
ghost use Rattle.std.specs.Prelude.{◌≡◌, ◌≤◌, ◌+◌, ◌++◌, ◌∷◌, [], All, List as TheList, MatchOption, None as Nothing, Some as Just, length};
ghost use Rattle.dg_base.specs.declared.Lit.{Lit as Literal};
ghost use Rattle.cnf_problem.specs.Chains.{IsUnassigned};
ghost use Rattle.cnf_problem.specs.Literals.{IsOver};
ghost use Rattle.trail_state.specs.Trails.{HasValue, true_lits};
ghost use Rattle.log_checker.specs.Goodness.{clauses_of};
ghost use Rattle.log_checker.specs.Hints.{named as the_named};
ghost use Rattle.hint_checker.specs.Counting.{literals_named};
ghost use Rattle.hint_checker.specs.Findings.{IsFinding, IsFindingAt};

use cnf_problem::Problem;
use dg_base::{Lit, Steps};
use lemma_log::{Entry, Hint};
use std::sync::ledger::Ledger;
use trail_state::Trail;

/// What a look at a clause finds.
#[derive(Clone, Copy, Debug, PartialEq, Eq, Drop)]
pub enum Finding {
    /// Each literal is false.
    False,
    /// This literal is unassigned, and each other one is false.
    Gives(Lit),
    /// Some literal is true, or two are unassigned, or there is no clause.
    Neither,
}

impl Finding {
    // With one more literal, which is unassigned.
    fn with_unassigned(self, lit: Lit) -> Finding
        ensures { (lits clause : TheList Literal) → IsUnassigned lits lit → IsFinding lits clause self → IsFinding lits (clause ++ lit ∷ []) result }
    {
        match self {
            Finding::False => Finding::Gives(lit),
            Finding::Gives(other) => {
                if other == lit {
                    Finding::Gives(other)
                } else {
                    Finding::Neither
                }
            }
            Finding::Neither => Finding::Neither,
        }
    }

    // With one more literal, which has this value.
    fn with(self, lit: Lit, value: Option<bool>) -> Finding
        ensures { (lits clause : TheList Literal) → HasValue lits lit value → IsFinding lits clause self → IsFinding lits (clause ++ lit ∷ []) result }
    {
        match value {
            Some(true) => Finding::Neither,
            Some(false) => self,
            None => self.with_unassigned(lit),
        }
    }
}

// Looks at each literal of a clause once.
fn look<L: Ledger>(set: &Trail, clause: &[Lit], steps: &mut Steps<L>) -> Finding
    requires { All (IsOver set.now.vars) clause.now }
    ensures finding { IsFinding (true_lits set.now.entries) clause.now result }
    ensures steps { steps.new ≡ steps.old + length clause.now }
{
    let mut finding = Finding::False;
    for lit in clause {
        steps.tick();
        finding = finding.with(*lit, set.value(*lit));
    }
    finding
}

// The clause that a hint names behind these entries.
fn named<'a>(problem: &'a Problem, before: &'a [Entry], hint: Hint) -> Option<&'a [Lit]>
    ensures { MatchOption result (the_named problem.now (clauses_of before.now) hint ≡ Nothing) (λ c. the_named problem.now (clauses_of before.now) hint ≡ Just c.now) }
{
    match hint {
        Hint::Clause(number) => {
            if number == 0 || number as usize > problem.clauses.len() {
                None
            } else {
                Some(problem.clauses.get(number as usize - 1))
            }
        }
        Hint::Ticket(ticket) => match before.get(ticket as usize) {
            Some(entry) => Some(entry.lemma.lits.as_slice()),
            None => None,
        },
    }
}

/// Looks at each literal of the clause that a hint names behind these entries.
pub fn look_at<L: Ledger>(
    set: &Trail,
    problem: &Problem,
    before: &[Entry],
    hint: Hint,
    steps: &mut Steps<L>,
) -> Finding
    requires vars { set.now.vars ≡ problem.now.vars }
    requires over { All (All (IsOver problem.now.vars)) (clauses_of before.now) }
    ensures finding { IsFindingAt problem.now (clauses_of before.now) (true_lits set.now.entries) hint result }
    ensures steps { steps.new ≡ steps.old + literals_named problem.now (clauses_of before.now) hint }
{
    match named(problem, before, hint) {
        Some(clause) => look(set, clause, steps),
        None => Finding::Neither,
    }
}
