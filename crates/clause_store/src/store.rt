// The store.
ghost use Rattle.std.specs.Prelude.{◌≡◌, ◌<◌, ◌++◌, ◌∷◌, [], ℕ, IfNone, IfOk, IfSome, OnErr, OnOk, Some, length, slice_get};
ghost use Rattle.cnf_problem.specs.Chains.{IsFixpoint};
ghost use Rattle.cnf_problem.specs.declared.problem.Problem.{Problem as TheProblem};
ghost use Rattle.trail_state.specs.Forcing.{AddsForced, IsConflict};
ghost use Rattle.trail_state.specs.Trails.{level, true_lits};
ghost use Rattle.clause_store.specs.NewWatch.{AreOver};
ghost use Rattle.clause_store.specs.Stores.{CanBeWatched, IsSettled, IsWatching, WatchesBelow, clauses_of};

use crate::clause_list::clause_at;
use crate::fresh_clauses::{examine_fresh, know_well};
use crate::links::Links;
use crate::propagate::visit_taken;
use crate::watch_choice::choose;
use cnf_problem::{Clauses, Problem};
use dg_base::{Lit, OutOfMemory};
use std::alloc::Global;
use std::marker::Model;
use trail_state::{ClauseId, Trail};

/// Clauses that a search adds to a problem's, and the watch lists of both. Number `i` names the
/// problem's clause `i`, or, behind those, a clause that was added. A clause takes four words
/// beside its literals.
#[derive(Debug, Drop)]
pub struct Store {
    added: Clauses,
    links: Links,
    examined: u32,
}

impl Model for Store {
    ghost use Rattle.clause_store.specs.Stores.{StoreView};

    ghost Value = { StoreView };

    ghost view = { λ s. record { added = s.added; links = s.links; examined = s.examined } };
}

impl Store {
    /// A store that adds nothing yet to the problem's clauses, whose watches are chosen. It is
    /// refused for want of memory, and where there are more than 2147483647 clauses. The time is two
    /// readings of the clauses.
    pub fn new(alloc: Global, problem: &Problem) -> Result<Store, OutOfMemory>
        ensures added { IfOk result (λ s. s.added ≡ []) }
        ensures watching { IfOk result (λ s. IsWatching problem.now s (record { vars = problem.now.vars; entries = []; taken = 0 })) }
    {
        let trail = Trail::new(alloc, problem.vars)?;
        let mut links = Links::new(alloc, 2 * problem.vars as usize + 2)?;
        for id in 0..problem.clauses.len() {
            let (first, second) = choose(&trail, problem.clauses.get(id));
            links.lay(first.0, second.0)?;
        }
        Ok(Store {
            added: Clauses::new(alloc),
            links,
            examined: 0,
        })
    }

    /// The literals of a clause of the problem or of one that was added.
    pub fn clause<'a>(&'a self, problem: &'a Problem, id: ClauseId) -> &'a [Lit]
        requires { id.0 < length (clauses_of problem.now self.now) }
        ensures { slice_get (clauses_of problem.now self.now) id.0 ≡ Some result.now }
    {
        clause_at(&problem.clauses, &self.added, id.0 as usize)
    }

    /// Unit propagation to a fixpoint (Moskewicz et al. 2001): makes each literal true that some
    /// clause forces, with that clause as its reason, until no clause is unit, which answers
    /// `None`, or some clause is false, which is answered. It takes no memory. The time is a look at
    /// each clause that came since the last call, and at each clause that watches a literal that
    /// became false. After a conflict the trail is undone to a lower level before the next call.
    pub fn propagate(&mut self, problem: &Problem, trail: &mut Trail) -> Option<ClauseId>
        requires watching { IsWatching problem.now self.old trail.old }
        ensures added { self.new.added ≡ self.old.added }
        ensures forced { AddsForced (clauses_of problem.now self.old) trail.old.entries trail.new.entries }
        ensures none { IfNone result (IsFixpoint (clauses_of problem.now self.old) (true_lits trail.new.entries)) }
        ensures watching { IfNone result (IsWatching problem.now self.new trail.new) }
        ensures settled { IfNone result (IsSettled problem.now self.new trail.new) }
        ensures some { IfSome result (λ id. IsConflict (clauses_of problem.now self.old) id.0 (true_lits trail.new.entries)) }
        ensures below { IfSome result (λ _. WatchesBelow problem.now self.new trail.new) }
    {
        know_well(trail);
        let fresh = examine_fresh(
            &problem.clauses,
            &self.added,
            trail,
            &self.links,
            &mut self.examined,
        );
        know_well(trail);
        if let Some(id) = fresh {
            return Some(ClauseId(id));
        }
        let conflict = visit_taken(&problem.clauses, &self.added, trail, &mut self.links);
        know_well(trail);
        match conflict {
            Some(id) => Some(ClauseId(id)),
            None => None,
        }
    }

    /// Puts a clause behind the others. Above level 0 it has two different literals that are false
    /// on no lower level. It is refused for want of memory, and where there would be more than
    /// 2147483647 clauses.
    pub fn add(&mut self, lits: &[Lit], trail: &Trail) -> Result<ClauseId, OutOfMemory>
        requires watching { (p : TheProblem) × IsWatching p self.old trail.now }
        requires over { AreOver trail.now.vars lits.now }
        requires watchable { 0 < level trail.now.entries → CanBeWatched trail.now.entries lits.now }
        ensures added { OnOk result (self.new.added ≡ self.old.added ++ lits.now ∷ []) }
        ensures id { IfOk result (λ id. (p : TheProblem) → IsWatching p self.old trail.now → id.0 ≡ length (clauses_of p self.old)) }
        ensures watching { OnOk result ((p : TheProblem) → IsWatching p self.old trail.now → IsWatching p self.new trail.now) }
        ensures err { OnErr result (self.new ≡ self.old) }
    {
        let id = (self.links.len() / 2) as u32;
        let (first, second) = choose(trail, lits);
        let len = self.added.len();
        self.added.push(lits)?;
        if let Err(refusal) = self.links.lay(first.0, second.0) {
            self.added.truncate(len);
            return Err(refusal);
        }
        Ok(ClauseId(id))
    }
}
