// The graphs of the atoms that a lemma denies.
ghost use Rattle.std.specs.Prelude.{◌≡◌, ◌<◌, ◌↔◌, ◌⊎◌, ℕ, All, Contains, IfOk, MatchOption, Some, length, slice_get};
ghost use Rattle.axiom_model.specs.Sorting.{GoesForward, HasEdge as IsListed, IsOrderOf};
ghost use Rattle.cnf_problem.specs.Edges.{HasCycle, IsCyclic};
ghost use Rattle.cnf_problem.specs.Literals.{IsOver};
ghost use Rattle.cnf_problem.specs.declared.problem.Atom.{Atom as TheAtom};
ghost use Rattle.cnf_problem.specs.declared.problem.Graph.TheVariants.{Global as InGlobal, Local as InLocal};
ghost use Rattle.log_checker.specs.Graphs.{AreDenied, AreFound, IsDenied};
ghost use Rattle.log_checker.specs.Pairs.{all_edges, pairs_in};
ghost use Rattle.log_checker.specs.Refusals.{IsOrder};

use crate::edge_list::edges_of;
use axiom_model::{Acyclic, acyclic};
use cnf_problem::{Graph, Problem, negated};
use dg_base::{List, Lit, OutOfMemory};
use std::alloc::Global;
use std::marker::Model;

/// The atoms of each literal: `last` has for each literal's code one more than the place of its last atom, and `earlier` for each
/// atom one more than the place of the one before it with the same literal; 0 where there is none.
#[derive(Debug, Drop)]
pub struct AtomsByLit {
    last: Vec<u32>,
    earlier: Vec<u32>,
}

impl Model for AtomsByLit {
    ghost use Rattle.log_checker.specs.Graphs.{AtomsView};

    ghost Value = { AtomsView };

    ghost view = { λ v. record { last = v.last.items; earlier = v.earlier.items } };
}

/// Orders of the nodes in which each edge goes forward, of the local and of the global graph.
#[derive(Debug, Drop)]
pub struct Orders {
    pub local: List<u32>,
    pub global: List<u32>,
}

// An order of the nodes in which each edge of one graph goes forward, where the atoms at these places hold; None where it has a
// cycle.
fn order_of(
    alloc: Global,
    problem: &Problem,
    graph: Graph,
    places: &[u32],
) -> Result<Option<List<u32>>, OutOfMemory>
    requires { All (λ k. k < length problem.now.atoms) places.now }
    ensures { IfOk result (λ o. MatchOption o (HasCycle (IsListed (pairs_in graph (all_edges problem.now places.now)))) (λ order. IsOrderOf (length problem.now.nodes) order × All (GoesForward order) (pairs_in graph (all_edges problem.now places.now)))) }
{
    let edges = edges_of(alloc, problem, graph, places)?;
    match acyclic(alloc, problem.nodes.len() as u32, &edges)? {
        Acyclic::Sorted(order) => Ok(Some(order)),
        Acyclic::Cycle(_) => Ok(None),
    }
}

impl AtomsByLit {
    /// The atoms of a problem by their literals. The time is linear in variables and atoms.
    pub fn new(alloc: Global, problem: &Problem) -> Result<AtomsByLit, OutOfMemory>
        ensures { IfOk result (AreFound problem.now) }
    {
        let mut last = Vec::from_elem(alloc, 0, 2 * problem.vars as usize + 2)?;
        let mut earlier = Vec::new(alloc);
        for (i, atom) in problem.atoms.as_slice().iter().enumerate() {
            let code = atom.lit.0 as usize;
            earlier.push(last[code])?;
            last[code] = i as u32 + 1;
        }
        Ok(AtomsByLit { last, earlier })
    }

    // Puts the places of a literal's atoms behind these.
    fn put_places(
        &self,
        problem: &Problem,
        lit: Lit,
        places: &mut Vec<u32>,
    ) -> Result<(), OutOfMemory>
        requires found { AreFound problem.now self.now }
        requires over { IsOver problem.now.vars lit }
        ensures { IfOk result (λ _. (k : ℕ) → Contains places.new.items k ↔ (Contains places.old.items k ⊎ ((a : TheAtom) × (slice_get problem.now.atoms k ≡ Some a) × (a.lit ≡ lit)))) }
    {
        let mut next = self.last[lit.0 as usize];
        while next > 0 {
            places.push(next - 1)?;
            next = self.earlier[next as usize - 1];
        }
        Ok(())
    }

    // The places of the atoms that the literals deny.
    fn denied(
        &self,
        alloc: Global,
        problem: &Problem,
        lits: &[Lit],
    ) -> Result<Vec<u32>, OutOfMemory>
        requires found { AreFound problem.now self.now }
        requires over { All (IsOver problem.now.vars) lits.now }
        ensures { IfOk result (λ places. AreDenied problem.now lits.now places.items) }
    {
        let mut places = Vec::new(alloc);
        for lit in lits {
            self.put_places(problem, negated(*lit), &mut places)?;
        }
        Ok(places)
    }

    /// Orders of both graphs where the atoms hold that the literals deny; None where one of them has a cycle. The time is linear
    /// in nodes and edges, and in the pairs of denied sources and write orders.
    pub fn orders(
        &self,
        alloc: Global,
        problem: &Problem,
        lits: &[Lit],
    ) -> Result<Option<Orders>, OutOfMemory>
        requires found { AreFound problem.now self.now }
        requires over { All (IsOver problem.now.vars) lits.now }
        ensures { IfOk result (λ o. MatchOption o (IsCyclic problem.now (IsDenied lits.now)) (λ s. IsOrder problem.now lits.now InLocal s.local × IsOrder problem.now lits.now InGlobal s.global)) }
    {
        let places = self.denied(alloc, problem, lits)?;
        let Some(local) = order_of(alloc, problem, Graph::Local, &places)? else {
            return Ok(None);
        };
        let Some(global) = order_of(alloc, problem, Graph::Global, &places)? else {
            return Ok(None);
        };
        Ok(Some(Orders { local, global }))
    }
}
