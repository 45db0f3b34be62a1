ghost use Rattle.std.specs.Prelude.{◌≡◌, map, IfOk};
ghost use Rattle.std.specs.List.Sorted.{IsStrictlyIncreasing};
ghost use Rattle.cnf_problem.specs.Literals.{var, IsWithoutRepeats};
ghost use Rattle.cnf_problem.specs.Laws.{IsWithin};

use cnf_problem::{Lemma, LemmaKind};
use dg_base::{List, Lit, OutOfMemory};
use std::alloc::Global;

// The literals by their variables.
fn sorted(alloc: Global, lits: &[Lit]) -> Result<Vec<Lit>, OutOfMemory>
    requires { IsWithoutRepeats lits.now }
    ensures rising { IfOk result (λ v. IsStrictlyIncreasing (map var v.items)) }
    ensures same { IfOk result (λ v. IsWithin v.items lits.now × IsWithin lits.now v.items) }
{
    let mut sorted = Vec::from_slice(alloc, lits)?;
    sorted.sort_unstable_by_key(|lit| lit.0);
    Ok(sorted)
}

/// The lemma of a kind with these literals, no two of which are of one variable.
pub fn lemma_of(alloc: Global, kind: LemmaKind, lits: &[Lit]) -> Result<Lemma, OutOfMemory>
    requires { IsWithoutRepeats lits.now }
    ensures kind { IfOk result (λ m. m.kind ≡ kind) }
    ensures same { IfOk result (λ m. IsWithin m.lits lits.now × IsWithin lits.now m.lits) }
{
    let lits = sorted(alloc, lits)?;
    Ok(Lemma {
        kind,
        lits: List::from_vec(lits),
    })
}
