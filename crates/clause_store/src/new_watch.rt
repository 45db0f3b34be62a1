ghost use Rattle.std.specs.Prelude.{◌≡◌, ◌≢◌, ◌<◌, ◌⊎◌, ℕ, Contains, length};
ghost use Rattle.std.specs.Bool.{MatchBool};
ghost use Rattle.cnf_problem.specs.Literals.{IsOver};
ghost use Rattle.cnf_problem.specs.Chains.{IsFalse};
ghost use Rattle.trail_state.specs.Trails.{true_lits};
ghost use Rattle.clause_store.specs.NewWatch.{HasSeen, AreOver};

use dg_base::Lit;
use trail_state::Trail;

/// What a look at a clause found, once one of its watched literals became false.
#[derive(Clone, Copy, Debug, Drop)]
pub enum Seen {
    // the other watched literal is true
    Satisfied,
    // this literal is not false, and can be watched
    Moved(Lit),
    // the other watched literal is the last one that is not false
    Unit,
    // all literals are false
    False,
}

/// Whether a literal is false on the trail.
pub fn is_false(trail: &Trail, lit: Lit) -> bool
    requires { IsOver trail.now.vars lit }
    ensures { MatchBool result (IsFalse (true_lits trail.now.entries) lit) (¬ IsFalse (true_lits trail.now.entries) lit) }
{
    match trail.value(lit) {
        Some(false) => true,
        _ => false,
    }
}

// Whether a literal is another one than `other`, and not false.
fn can_watch(trail: &Trail, lit: Lit, other: Lit) -> bool
    requires { IsOver trail.now.vars lit }
    ensures { MatchBool result ((lit ≢ other) × ¬ IsFalse (true_lits trail.now.entries) lit) ((lit ≡ other) ⊎ IsFalse (true_lits trail.now.entries) lit) }
{
    if lit == other {
        return false;
    }
    !is_false(trail, lit)
}

/// Looks at a clause, of which `other` is a watched literal.
pub fn look(trail: &Trail, clause: &[Lit], other: Lit) -> Seen
    requires range { AreOver trail.now.vars clause.now }
    requires listed { Contains clause.now other }
    ensures { HasSeen (true_lits trail.now.entries) clause.now other result }
{
    let value = trail.value(other);
    if let Some(true) = value {
        return Seen::Satisfied;
    }
    for i in 0..clause.len() {
        let lit = clause[i];
        if can_watch(trail, lit, other) {
            return Seen::Moved(lit);
        }
    }
    match value {
        None => Seen::Unit,
        Some(_) => Seen::False,
    }
}
