ghost use Rattle.std.specs.Prelude.{◌<◌, ◌≡◌, ◌++◌, length, slice_get, All, OnOk, Some};
ghost use Rattle.cnf_problem.specs.declared.problem.Problem.{Problem as TheProblem};
ghost use Rattle.cnf_problem.specs.Literals.{IsOver};
ghost use Rattle.trail_state.specs.Trails.{IsWell, level};
ghost use Rattle.clause_store.specs.Stores.{IsWatching};

use clause_store::Store;
use cnf_problem::{Clauses, Problem};
use dg_base::{Lit, OutOfMemory};
use trail_state::{Reason, Reasons, Trail};

// What holds of every trail.
pub(crate) fn know_well(trail: &Trail)
    ensures { IsWell trail.now }
{
    let _ = trail.len();
}

// Adds clauses to the store, at level 0.
pub(crate) fn add_all(
    store: &mut Store,
    trail: &Trail,
    clauses: &Clauses,
) -> Result<(), OutOfMemory>
    requires watching { (p : TheProblem) × IsWatching p store.old trail.now }
    requires over { All (All (IsOver trail.now.vars)) clauses.now }
    requires ground { level trail.now.entries ≡ 0 }
    ensures added { OnOk result (store.new.added ≡ store.old.added ++ clauses.now) }
    ensures watching { OnOk result ((p : TheProblem) → IsWatching p store.old trail.now → IsWatching p store.new trail.now) }
{
    for i in 0..clauses.len() {
        store.add(clauses.get(i), trail)?;
    }
    Ok(())
}

// The clauses of a search: the problem's and those that its store added.
#[derive(Drop)]
pub(crate) struct Known<'a> {
    pub(crate) problem: &'a Problem,
    pub(crate) store: &'a Store,
}

impl<'a> Reasons for Known<'a> {
    ghost use Rattle.clause_store.specs.Stores.{clauses_of};

    ghost clauses = { λ k. clauses_of k.problem.now k.store.now };

    fn clause(&self, reason: Reason) -> &[Lit] {
        self.store.clause(self.problem, reason)
    }
}
