// The variables of a lemma.
ghost use Rattle.std.specs.Prelude.{◌↔◌, All, IsTrue, MatchOption};
ghost use Rattle.cnf_problem.specs.Literals.{IsOver};
ghost use Rattle.log_checker.specs.Refusals.{IsBadNumber};

use cnf_problem::var;
use dg_base::Lit;

fn is_over(vars: u32, lit: Lit) -> bool
    ensures { IsTrue result ↔ IsOver vars lit }
{
    let v = var(lit);
    1 <= v && v <= vars
}

/// The first variable that is 0 or greater than `vars`.
pub fn bad_number(vars: u32, lits: &[Lit]) -> Option<u32>
    ensures { MatchOption result (All (IsOver vars) lits.now) (IsBadNumber vars lits.now) }
{
    for lit in lits {
        if !is_over(vars, *lit) {
            return Some(var(*lit));
        }
    }
    None
}
