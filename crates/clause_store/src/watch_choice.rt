// Which two literals a clause's links watch.
ghost use Rattle.std.specs.Prelude.{◌≡◌, ◌≢◌, ◌<◌, ◌≤◌, ◌⊎◌};
ghost use Rattle.std.specs.Bool.{MatchBool};
ghost use Rattle.cnf_problem.specs.Literals.{IsOver};
ghost use Rattle.trail_state.specs.Trails.{IsWell, level};
ghost use Rattle.clause_store.specs.Choosing.{HasRank, IsBest, IsChosen};
ghost use Rattle.clause_store.specs.NewWatch.{AreOver};
ghost use Rattle.clause_store.specs.Stores.{CanBeWatched};

use crate::fresh_clauses::know_well;
use crate::new_watch::is_false;
use dg_base::Lit;
use trail_state::Trail;

/// The literal that is none: no literal has its code.
pub const NONE: Lit = Lit(0);

// How well a literal can be watched.
fn rank(trail: &Trail, lit: Lit) -> u32
    requires over { IsOver trail.now.vars lit }
    requires well { IsWell trail.now }
    ensures { HasRank trail.now.entries lit result }
{
    if !is_false(trail, lit) {
        2
    } else if trail.level_of(lit) == trail.level() {
        1
    } else {
        0
    }
}

// Whether these are two literals.
fn is_other(lit: Lit, except: Lit) -> bool
    ensures { MatchBool result (lit ≢ except) (lit ≡ except) }
{
    lit != except
}

// Whether a literal of this rank is better than the best one so far, or the first one.
fn is_better(best: Lit, best_rank: u32, rank: u32) -> bool
    ensures { MatchBool result ((best.0 ≡ 0) ⊎ (best_rank < rank)) ((best.0 ≢ 0) × (rank ≤ best_rank)) }
{
    best.0 == 0 || rank > best_rank
}

// The literal of the clause, other than `except`, that can be watched best, with its rank.
fn best_watch(trail: &Trail, clause: &[Lit], except: Lit) -> (Lit, u32)
    requires over { AreOver trail.now.vars clause.now }
    requires well { IsWell trail.now }
    ensures { IsBest trail.now.entries clause.now except result.0 result.1 }
{
    let mut best = NONE;
    let mut best_rank = 0;
    for i in 0..clause.len() {
        let lit = clause[i];
        if is_other(lit, except) {
            let rank = rank(trail, lit);
            if is_better(best, best_rank, rank) {
                best = lit;
                best_rank = rank;
            }
        }
    }
    (best, best_rank)
}

/// Chooses the two literals that a clause's links watch, first those that are not false, then those
/// that became false on the last level. A clause without two different literals is not watched.
/// The time is two readings of the clause.
pub fn choose(trail: &Trail, clause: &[Lit]) -> (Lit, Lit)
    requires over { AreOver trail.now.vars clause.now }
    requires watchable { 0 < level trail.now.entries → CanBeWatched trail.now.entries clause.now }
    ensures { IsChosen trail.now.entries clause.now result.0 result.1 }
{
    know_well(trail);
    let (first, _) = best_watch(trail, clause, NONE);
    let (second, _) = best_watch(trail, clause, first);
    if second.0 == 0 {
        (NONE, NONE)
    } else {
        (first, second)
    }
}
