// Which literals are a lemma's, which are true, and which variables are marked.
ghost use Rattle.std.specs.Prelude.{◌≡◌, ◌<◌, ◌↔◌, All, Contains, IsTrue, length};
ghost use Rattle.cnf_problem.specs.Literals.{IsOver, var as variable};
ghost use Rattle.trail_state.specs.Trails.{IsWell, true_lits};
ghost use Rattle.hint_maker.specs.Walking.{AddsMarks, is_marked};

use cnf_problem::var;
use dg_base::Lit;
use trail_state::Trail;

/// Whether a lemma has the literal.
pub fn is_listed(lits: &[Lit], lit: Lit) -> bool
    ensures { IsTrue result ↔ Contains lits.now lit }
{
    for other in lits {
        if *other == lit {
            return true;
        }
    }
    false
}

fn is_over(trail: &Trail, lit: Lit) -> bool
    ensures { IsTrue result ↔ IsOver trail.now.vars lit }
{
    let v = var(lit);
    1 <= v && v <= trail.vars()
}

/// Whether a literal is true. Its variable may be none of the trail's.
pub fn is_true(trail: &Trail, lit: Lit) -> bool
    requires { IsWell trail.now }
    ensures { IsTrue result ↔ Contains (true_lits trail.now.entries) lit }
{
    if !is_over(trail, lit) {
        return false;
    }
    match trail.value(lit) {
        Some(value) => value,
        None => false,
    }
}

/// Whether a literal's variable is marked.
pub fn is_needed(marks: &[bool], lit: Lit) -> bool
    ensures { result ≡ is_marked marks.now (variable lit) }
{
    match marks.get(var(lit) as usize) {
        Some(mark) => *mark,
        None => false,
    }
}

/// Marks the variables of a clause, but for those of the lemma's literals.
pub fn mark(marks: &mut [bool], lits: &[Lit], clause: &[Lit])
    requires { All (λ m. variable m < length marks.old) clause.now }
    ensures { AddsMarks lits.now clause.now marks.old marks.new }
{
    for lit in clause {
        if !is_listed(lits, *lit) {
            marks[var(*lit) as usize] = true;
        }
    }
}
