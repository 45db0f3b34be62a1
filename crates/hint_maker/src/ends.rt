// Where a chain ends.
ghost use Rattle.std.specs.Prelude.{◌≡◌, Contains, IfNone, IfSome, List as TheList, false, map};
ghost use Rattle.std.specs.List.Sorted.{IsStrictlyIncreasing};
ghost use Rattle.dg_base.specs.declared.Lit.{Lit as Literal};
ghost use Rattle.cnf_problem.specs.Literals.{var as variable};
ghost use Rattle.trail_state.specs.Trails.{IsWell, true_lits};
ghost use Rattle.unit_refuter.specs.Refuting.{AreDerived};
ghost use Rattle.hint_maker.specs.Walking.{IsEnd, IsFirstTrue, IsRefuted};

use crate::listed::{is_listed, is_true};
use dg_base::Lit;
use trail_state::{ClauseId, Trail};
use unit_refuter::Denied;

/// The clause at the end of a chain, and how many literals of the trail come before it.
#[derive(Clone, Copy, Debug, PartialEq, Eq, Drop)]
pub struct End {
    pub clause: ClauseId,
    pub before: u32,
}

// Whether some literal of the lemma is true.
fn is_any_true(trail: &Trail, lits: &[Lit]) -> bool
    requires { IsWell trail.now }
    ensures { result ≡ false → (l : Literal) → Contains lits.now l → ¬ Contains (true_lits trail.now.entries) l }
{
    for lit in lits {
        if is_true(trail, *lit) {
            return true;
        }
    }
    false
}

// The first place of the trail at which a literal of the lemma is true.
fn first_true(trail: &Trail, lits: &[Lit]) -> Option<u32>
    requires { IsWell trail.now }
    ensures none { IfNone result ((l : Literal) → Contains (true_lits trail.now.entries) l → ¬ Contains lits.now l) }
    ensures some { IfSome result (IsFirstTrue lits.now trail.now.entries) }
{
    if !is_any_true(trail, lits) {
        return None;
    }
    for i in 0..trail.len() {
        if is_listed(lits, trail.lit_at(i)) {
            return Some(i);
        }
    }
    None
}

/// Where the chain of a refuted lemma ends: at the reason of the first literal of the trail that is one of the lemma's; where none
/// is, at the clause that is false.
pub fn end_of(trail: &Trail, lits: &[Lit], denied: Denied) -> End
    requires rising { IsStrictlyIncreasing (map variable lits.now) }
    requires refuted { (clauses : TheList (TheList Literal)) × AreDerived clauses lits.now trail.now.entries × IsRefuted clauses lits.now trail.now.entries denied }
    ensures end { (clauses : TheList (TheList Literal)) → AreDerived clauses lits.now trail.now.entries → IsRefuted clauses lits.now trail.now.entries denied → IsEnd clauses lits.now trail.now.entries result }
    ensures well { IsWell trail.now }
{
    let whole = trail.len();
    match first_true(trail, lits) {
        Some(before) => match trail.reason_of(trail.lit_at(before)) {
            Some(clause) => End { clause, before },
            None => unreachable!(),
        },
        None => match denied {
            Denied::Conflict(clause) => End {
                clause,
                before: whole,
            },
            Denied::Satisfied => unreachable!(),
            Denied::Rest => unreachable!(),
        },
    }
}
