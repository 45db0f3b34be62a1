// Follows the chain of a lemma's hints.
ghost use Rattle.std.specs.Prelude.{◌≡◌, ◌≤◌, ◌+◌, ◌-◌, ◌++◌, ◌∷◌, [], All, MatchOption, length, map};
ghost use Rattle.std.specs.List.Sorted.{IsStrictlyIncreasing};
ghost use Rattle.cnf_problem.specs.Chains.{IsUnassigned};
ghost use Rattle.cnf_problem.specs.Literals.{IsOver, negated as negation, var as variable};
ghost use Rattle.trail_state.specs.Trails.{true_lits, up_to};
ghost use Rattle.log_checker.specs.Goodness.{clauses_of};
ghost use Rattle.log_checker.specs.Hints.{AreRight, GoesWrong};
ghost use Rattle.hint_checker.specs.Counting.{literals_of_hints};

use crate::look::{Finding, look_at};
use cnf_problem::{Problem, negated};
use dg_base::{Lit, Steps};
use lemma_log::{Entry, Hint};
use std::sync::ledger::Ledger;
use trail_state::{ClauseId, Trail};

// Puts a literal into the set, a trail of one level: its first literal begins the level, and nobody reads the reasons of the others.
fn put(set: &mut Trail, lit: Lit)
    requires over { IsOver set.old.vars lit }
    requires free { IsUnassigned (true_lits set.old.entries) lit }
    requires above { up_to 0 set.old.entries ≡ [] }
    ensures lits { true_lits set.new.entries ≡ true_lits set.old.entries ++ lit ∷ [] }
    ensures above { up_to 0 set.new.entries ≡ [] }
    ensures vars { set.new.vars ≡ set.old.vars }
{
    if set.level() == 0 {
        set.decide(lit);
    } else {
        set.assign(lit, ClauseId(0));
    }
}

// Puts the negations of a lemma's literals into the empty set.
fn deny<L: Ledger>(set: &mut Trail, lits: &[Lit], steps: &mut Steps<L>)
    requires empty { set.old.entries ≡ [] }
    requires over { All (IsOver set.old.vars) lits.now }
    requires rising { IsStrictlyIncreasing (map variable lits.now) }
    ensures lits { true_lits set.new.entries ≡ map negation lits.now }
    ensures above { up_to 0 set.new.entries ≡ [] }
    ensures vars { set.new.vars ≡ set.old.vars }
    ensures steps { steps.new ≡ steps.old + length lits.now }
{
    for lit in lits {
        steps.tick();
        put(set, negated(*lit));
    }
}

// The position of the next hint: one more than so many literals were made true by hints.
fn position(set: &Trail, lits: &[Lit]) -> u32
    requires vars { set.now.vars ≤ 2147483647 }
    requires denied { length lits.now ≤ length set.now.entries }
    ensures { result ≡ length set.now.entries - length lits.now + 1 }
{
    set.len() - lits.len() as u32 + 1
}

/// The position of the first wrong hint of a lemma by unit propagation, behind these entries; None where all are right. The set is
/// empty at first, and is to be undone to level 0 afterwards.
pub fn wrong_hint<L: Ledger>(
    set: &mut Trail,
    problem: &Problem,
    before: &[Entry],
    lits: &[Lit],
    hints: &[Hint],
    steps: &mut Steps<L>,
) -> Option<u32>
    requires empty { set.old.entries ≡ [] }
    requires vars { set.old.vars ≡ problem.now.vars }
    requires before { All (All (IsOver problem.now.vars)) (clauses_of before.now) }
    requires over { All (IsOver problem.now.vars) lits.now }
    requires rising { IsStrictlyIncreasing (map variable lits.now) }
    ensures position { MatchOption result (AreRight problem.now (clauses_of before.now) (map negation lits.now) hints.now) (λ n. GoesWrong problem.now (clauses_of before.now) (map negation lits.now) hints.now n) }
    ensures above { up_to 0 set.new.entries ≡ [] }
    ensures vars { set.new.vars ≡ set.old.vars }
    ensures steps { steps.new ≤ steps.old + (length lits.now + literals_of_hints problem.now (clauses_of before.now) hints.now) }
{
    deny(set, lits, steps);
    let Some((last, front)) = hints.split_last() else {
        return Some(0);
    };
    for hint in front {
        match look_at(set, problem, before, *hint, steps) {
            Finding::Gives(lit) => put(set, lit),
            _ => return Some(position(set, lits)),
        }
    }
    match look_at(set, problem, before, *last, steps) {
        Finding::False => None,
        _ => Some(position(set, lits)),
    }
}
