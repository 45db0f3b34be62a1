ghost use Rattle.std.specs.Prelude.{◌≡◌, ℕ, ◌≤◌, All, IfOk, IfSome, IsNone};
ghost use Rattle.cnf_problem.specs.Literals.{IsOver};
ghost use Rattle.cnf_problem.specs.Chains.{IsUnassigned};
ghost use Rattle.trail_state.specs.Trails.{true_lits, IsAssigned};

use cnf_problem::{Atom, AtomKind, Problem};
use dg_base::{Lit, OutOfMemory};
use std::alloc::Global;
use std::marker::Model;
use trail_state::Trail;

// The literals of a problem's order atoms, in the order in which a worker decides them true: first
// the orders of the writes to the cell with the fewest writes, from its first write on, then what
// reads of it take their values from; or, for every other worker, all by their first nodes.
#[derive(Debug, Drop)]
pub(crate) struct OrderChoice {
    lits: Vec<Lit>,
}

impl Model for OrderChoice {
    ghost use Rattle.std.specs.Prelude.{List};
    ghost use Rattle.dg_base.specs.declared.Lit.{Lit as Literal};

    ghost Value = { List Literal };

    ghost view = { λ c. c.lits.items };
}

// A literal and what it is sorted by.
#[derive(Debug, Clone, Copy, Drop)]
struct Ranked {
    rank: (u32, u32, u32, u32),
    lit: Lit,
}

// How many atoms order each write before others.
fn writes_after(alloc: Global, problem: &Problem) -> Result<Vec<u32>, OutOfMemory> {
    let mut counts = Vec::from_elem(alloc, 0u32, problem.nodes.len())?;
    for atom in problem.atoms.as_slice() {
        if let AtomKind::WriteOrder { first, second: _ } = atom.kind {
            counts[first as usize] = counts[first as usize].saturating_add(1);
        }
    }
    Ok(counts)
}

// The count of a write.
fn count_of(counts: &[u32], write: u32) -> u32 {
    counts.get(write as usize).copied().unwrap_or(0)
}

// Where an atom of orders stands among the decisions of a worker with this number.
fn rank_of(atom: &Atom, counts: &[u32], number: u32) -> Option<(u32, u32, u32, u32)> {
    let (write, kind, node) = match atom.kind {
        AtomKind::WriteOrder { first, second } => (first, 0, second),
        AtomKind::ReadFrom { write, read } => (write, 1, read),
        AtomKind::Plain => return None,
    };
    let count = count_of(counts, write);
    if number % 2 == 0 {
        Some((count, kind, write, node))
    } else {
        Some((write, node, kind, count))
    }
}

impl OrderChoice {
    pub(crate) fn new(
        alloc: Global,
        problem: &Problem,
        number: u32,
    ) -> Result<OrderChoice, OutOfMemory>
        ensures { IfOk result (λ choice. All (IsOver problem.now.vars) choice) }
    {
        let counts = writes_after(alloc, problem)?;
        let mut ranked = Vec::new(alloc);
        for atom in problem.atoms.as_slice() {
            if let Some(rank) = rank_of(atom, &counts, number) {
                ranked.push(Ranked {
                    rank,
                    lit: atom.lit,
                })?;
            }
        }
        ranked.sort_unstable_by_key(|ranked| ranked.rank);
        let mut lits = Vec::with_capacity(alloc, ranked.len())?;
        for one in &ranked {
            lits.push(one.lit)?;
        }
        Ok(OrderChoice { lits })
    }

    // The literal to decide next: the first of these that is unassigned, or the trail's own choice.
    pub(crate) fn next(&self, trail: &Trail) -> Option<Lit>
        requires { All (IsOver trail.now.vars) self.now }
        ensures all { IsNone result → (v : ℕ) → 1 ≤ v → v ≤ trail.now.vars → IsAssigned trail.now.entries v }
        ensures free { IfSome result (λ l. IsOver trail.now.vars l × IsUnassigned (true_lits trail.now.entries) l) }
    {
        for lit in &self.lits {
            if trail.value(*lit).is_none() {
                return Some(*lit);
            }
        }
        trail.pick()
    }
}
