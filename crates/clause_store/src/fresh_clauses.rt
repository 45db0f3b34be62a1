// Looks at whole clauses.
ghost use Rattle.std.specs.Prelude.{◌≡◌, ◌≢◌, ◌<◌, ◌≤◌, ◌+◌, ◌*◌, ◌++◌, Contains, IfNone, IfSome, length};
ghost use Rattle.trail_state.specs.Forcing.{AddsForced, IsConflict};
ghost use Rattle.trail_state.specs.Trails.{IsWell, true_lits};
ghost use Rattle.clause_store.specs.NewWatch.{AreOver};
ghost use Rattle.clause_store.specs.Stores.{AreWatched};
ghost use Rattle.clause_store.specs.Visiting.{IsLookedAt};
ghost use Rattle.clause_store.specs.Watching.{clause_of, watched as watched_by};

use crate::clause_list::clause_at;
use crate::links::Links;
use crate::watch_lists::visit_clause;
use cnf_problem::Clauses;
use dg_base::Lit;
use trail_state::Trail;

// What holds of every trail.
pub fn know_well(trail: &Trail)
    ensures { IsWell trail.now }
{
    let _ = trail.len();
}

// Looks at a whole clause, of which `watch` is a watched literal, or none where its code is 0.
// Answers whether the clause is false, and makes its last literal true where one is left.
fn look_whole(trail: &mut Trail, clause: &[Lit], id: u32, watch: Lit) -> bool
    requires over { AreOver trail.old.vars clause.now }
    requires listed { watch.0 ≢ 0 → Contains clause.now watch }
    ensures looked { IsLookedAt clause.now trail.old.entries id watch trail.new.entries result }
    ensures taken { trail.new.taken ≡ trail.old.taken }
    ensures vars { trail.new.vars ≡ trail.old.vars }
{
    if watch.0 != 0 {
        return visit_clause(trail, clause, id, watch, watch).refuted;
    }
    if clause.is_empty() {
        return true;
    }
    let lit = clause[0];
    visit_clause(trail, clause, id, lit, lit).refuted
}

// Looks at clause `id`.
fn examine(first: &Clauses, added: &Clauses, trail: &mut Trail, links: &Links, id: u32) -> bool
    requires watched { AreWatched (first.now ++ added.now) trail.old.vars links.now id trail.old }
    requires within { id < length (first.now ++ added.now) }
    ensures looked { IsLookedAt (clause_of (first.now ++ added.now) (2 * id)) trail.old.entries id (watched_by links.now.owner_of (2 * id)) trail.new.entries result }
    ensures taken { trail.new.taken ≡ trail.old.taken }
    ensures vars { trail.new.vars ≡ trail.old.vars }
{
    let watch = Lit(links.owner(2 * id));
    look_whole(trail, clause_at(first, added, id as usize), id, watch)
}

/// Looks at each clause that was not looked at since it came. Answers one that is false, if there
/// is one. The time is a look at each of these clauses.
pub fn examine_fresh(
    first: &Clauses,
    added: &Clauses,
    trail: &mut Trail,
    links: &Links,
    examined: &mut u32,
) -> Option<u32>
    requires watched { AreWatched (first.now ++ added.now) trail.old.vars links.now examined.old trail.old }
    requires well { IsWell trail.old }
    ensures watched { AreWatched (first.now ++ added.now) trail.old.vars links.now examined.new trail.new }
    ensures forced { AddsForced (first.now ++ added.now) trail.old.entries trail.new.entries }
    ensures none { IfNone result (examined.new ≡ length (first.now ++ added.now)) }
    ensures some { IfSome result (λ id. IsConflict (first.now ++ added.now) id (true_lits trail.new.entries)) }
{
    let count = (links.len() / 2) as u32;
    for id in *examined..count {
        if examine(first, added, trail, links, id) {
            return Some(id);
        }
        *examined = id + 1;
    }
    None
}
