// Propagation of the literals that were not taken yet.
ghost use Rattle.std.specs.Prelude.{◌≡◌, ◌<◌, ◌++◌, ℕ, IfNone, IfSome, length};
ghost use Rattle.trail_state.specs.Forcing.{AddsForced, IsConflict};
ghost use Rattle.trail_state.specs.Trails.{IsWell, TrailView, level, true_lits};
ghost use Rattle.clause_store.specs.Stores.{AreWatched, IsUndone};

use crate::fresh_clauses::know_well;
use crate::links::Links;
use crate::watch_lists::visit_all;
use cnf_problem::Clauses;
use trail_state::Trail;

/// Takes each literal of the trail that was not taken yet, and visits the clauses that watch its
/// negation, until none is left or a clause is false, which is answered.
pub fn visit_taken(
    first: &Clauses,
    added: &Clauses,
    trail: &mut Trail,
    links: &mut Links,
) -> Option<u32>
    requires watched { AreWatched (first.now ++ added.now) trail.old.vars links.old (length (first.now ++ added.now)) trail.old }
    requires well { IsWell trail.old }
    ensures forced { AddsForced (first.now ++ added.now) trail.old.entries trail.new.entries }
    ensures watched { IfNone result (AreWatched (first.now ++ added.now) trail.old.vars links.new (length (first.now ++ added.now)) trail.new) }
    ensures taken { IfNone result (trail.new.taken ≡ length trail.new.entries) }
    ensures conflict { IfSome result (λ id. IsConflict (first.now ++ added.now) id (true_lits trail.new.entries)) }
    ensures below { IfSome result (λ _. (n : ℕ) (u : TrailView) → n < level trail.new.entries → IsUndone n trail.new u → AreWatched (first.now ++ added.now) trail.old.vars links.new (length (first.now ++ added.now)) u) }
{
    while let Some(lit) = trail.take_next() {
        know_well(trail);
        let conflict = visit_all(first, added, trail, links, lit);
        if conflict.is_some() {
            return conflict;
        }
    }
    None
}
