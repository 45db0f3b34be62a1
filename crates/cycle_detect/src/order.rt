ghost use Rattle.std.specs.Prelude.{◌≡◌, ◌⊎◌, ℕ, ◌+◌, ◌-◌, ◌≤◌, ◌<◌, ◌∷◌, ◌++◌, [], take, length, IfOk, IfSome, IfNone, MatchOption, slice_get, slice_index, Some};
ghost use Rattle.cnf_problem.specs.Edges.{HasCycle};
ghost use Rattle.cycle_detect.specs.Orders.{Held, IsPlace, IsKept, IsClosed, steps_back};

use crate::edges::Edges;
use crate::search::{Visit, forget, search, trace};
use crate::shift::shift;
use dg_base::{OutOfMemory, Steps};
use std::alloc::Global;
use std::marker::Model;
use std::sync::ledger::Ledger;

/// Edges between numbered nodes, and an order of all nodes in which each of them goes forward.
#[derive(Debug, Drop)]
pub struct Order {
    edges: Edges,
    order: Vec<u32>,
    // for each node its place in the order
    places: Vec<u32>,
    // for each node whether the search that goes on has reached it
    seen: Vec<bool>,
    visits: Vec<Visit>,
    aside: Vec<u32>,
    cycle: Vec<u32>,
}

impl Model for Order {
    ghost use Rattle.std.specs.Prelude.{◌≤◌, vec_capacity};
    ghost use Rattle.cycle_detect.specs.Orders.{OrderView};
    ghost use Rattle.cycle_detect.specs.Parts.{AreParts};

    ghost Value = { OrderView };

    ghost view = { λ o. record { nodes = o.edges.nodes; max_edges = o.edges.limit; edges = o.edges.list; order = o.order.items; cycle = o.cycle.items } };

    ghost invariant = { λ o. AreParts (record { nodes = o.edges.nodes; max_edges = o.edges.limit; edges = o.edges.list; order = o.order.items; cycle = o.cycle.items }) o.places.items o.seen.items × (o.edges.nodes ≤ vec_capacity o.visits) × (o.edges.nodes ≤ vec_capacity o.aside) × (o.edges.nodes ≤ vec_capacity o.cycle) };
}

// All nodes in the order of their numbers.
fn in_turn(alloc: Global, nodes: u32) -> Result<Vec<u32>, OutOfMemory>
    ensures long { IfOk result (λ v. length v.items ≡ nodes) }
    ensures each { IfOk result (λ v. (k : ℕ) → k < nodes → slice_index v.items k ≡ k) }
{
    let mut turn = Vec::with_capacity(alloc, nodes as usize)?;
    for node in 0..nodes {
        turn.push_reserved(node);
    }
    Ok(turn)
}

impl Order {
    /// So many nodes, in the order of their numbers, and no edges yet. No other call takes memory.
    pub fn new(alloc: Global, nodes: u32, max_edges: u32) -> Result<Order, OutOfMemory>
        ensures sizes { IfOk result (λ o. (o.nodes ≡ nodes) × (o.max_edges ≡ max_edges)) }
        ensures edges { IfOk result (λ o. o.edges ≡ []) }
        ensures kept { IfOk result (λ o. IsKept o) }
    {
        let count = nodes as usize;
        Ok(Order {
            edges: Edges::new(alloc, nodes, max_edges)?,
            order: in_turn(alloc, nodes)?,
            places: in_turn(alloc, nodes)?,
            seen: Vec::from_elem(alloc, false, count)?,
            visits: Vec::with_capacity(alloc, count)?,
            aside: Vec::with_capacity(alloc, count)?,
            cycle: Vec::with_capacity(alloc, count)?,
        })
    }

    /// Holds one more edge, unless it would close a cycle: then the number of the cycle's nodes,
    /// which `last_cycle` tells.
    pub fn add<L: Ledger>(&mut self, from: u32, to: u32, steps: &mut Steps<L>) -> Option<u32>
        requires from { from < self.old.nodes }
        requires to { to < self.old.nodes }
        requires room { length self.old.edges < self.old.max_edges }
        ensures sizes { (self.new.nodes ≡ self.old.nodes) × (self.new.max_edges ≡ self.old.max_edges) }
        ensures kept { IsKept self.new }
        ensures acyclic { ¬ HasCycle (Held self.new.edges) }
        ensures none { IfNone result (self.new.edges ≡ self.old.edges ++ (from, to) ∷ []) }
        ensures some { IfSome result (λ n. (self.new.edges ≡ self.old.edges) × (self.new.order ≡ self.old.order) × (length self.new.cycle ≡ n) × IsClosed self.old.edges from to self.new.cycle × HasCycle (Held (self.old.edges ++ (from, to) ∷ []))) }
        ensures forward { (i j : ℕ) → IsPlace self.old.order from i → IsPlace self.old.order to j → i < j → (self.new.order ≡ self.old.order) × (steps.new ≡ steps.old + 1) }
        ensures back { (i j : ℕ) → IsPlace self.old.order from i → IsPlace self.old.order to j → j ≤ i → steps.new ≤ steps.old + steps_back self.old j i }
        ensures near { (i j k n : ℕ) → IsPlace self.old.order from i → IsPlace self.old.order to j → IsPlace self.old.order n k → IsPlace self.new.order n k ⊎ ((j ≤ k) × (k ≤ i)) }
    {
        steps.tick();
        let low = self.places[to as usize];
        let high = self.places[from as usize];
        if high < low {
            self.edges.push(from, to);
            return None;
        }
        if let Some(at) = search(
            &self.edges,
            &self.places,
            from,
            to,
            &mut self.visits,
            &mut self.seen,
            steps,
        ) {
            trace(&self.visits, at, &mut self.cycle, steps);
            forget(&self.visits, &mut self.seen, steps);
            return Some(self.cycle.len() as u32);
        }
        shift(
            &mut self.order,
            &mut self.places,
            &mut self.seen,
            &mut self.aside,
            low as usize,
            high as usize,
            steps,
        );
        self.edges.push(from, to);
        None
    }

    /// The nodes of the last cycle, from where the edge ends to where it begins.
    pub fn last_cycle(&self) -> &[u32]
        ensures { result.now ≡ self.now.cycle }
    {
        self.cycle.as_slice()
    }

    /// How many edges are held.
    pub fn mark(&self) -> u32
        ensures count { result ≡ length self.now.edges }
        ensures kept { IsKept self.now }
        ensures acyclic { ¬ HasCycle (Held self.now.edges) }
    {
        self.edges.len()
    }

    /// Which held edge has these ends, the newest of them: none exactly where there is none.
    pub fn held(&self, from: u32, to: u32) -> Option<u32>
        requires { to < self.now.nodes }
        ensures { MatchOption result (¬ Held self.now.edges from to) (λ i. slice_get self.now.edges i ≡ Some (from, to)) }
    {
        self.edges.find(from, to)
    }

    /// Keeps the first so many edges alone. The order stays.
    pub fn undo_to(&mut self, mark: u32)
        requires { mark ≤ length self.old.edges }
        ensures { self.new ≡ record self.old { edges = take mark self.old.edges } }
    {
        while self.mark() > mark {
            self.undo_last();
        }
    }

    // Takes the newest edge off.
    fn undo_last(&mut self)
        requires { 0 < length self.old.edges }
        ensures { self.new ≡ record self.old { edges = take (length self.old.edges - 1) self.old.edges } }
    {
        self.edges.pop();
    }
}
