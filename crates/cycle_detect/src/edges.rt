ghost use Rattle.std.specs.Prelude.{◌≡◌, ◌≢◌, ◌<◌, ◌≤◌, ◌+◌, ◌-◌, ℕ, [], ◌∷◌, ◌++◌, take, length, IfOk, MatchOption, slice_get, Some};
ghost use Rattle.cycle_detect.specs.Orders.{Held};
ghost use Rattle.cycle_detect.specs.Parts.{IsLastInto};

use dg_base::OutOfMemory;
use std::alloc::Global;
use std::marker::Model;

/// Edges in the order in which they came, of which the newest can be taken off. The edges that
/// enter a node are linked, the newest first.
#[derive(Debug, Drop)]
pub struct Edges {
    nodes: u32,
    limit: u32,
    ends: Vec<(u32, u32)>,
    // for each edge the edge before it that enters the same node
    older: Vec<Option<u32>>,
    // for each node the newest edge that enters it
    newest: Vec<Option<u32>>,
}

impl Model for Edges {
    ghost use Rattle.std.specs.Prelude.{◌<◌, ◌≤◌, ◌^◌, length, vec_capacity};
    ghost use Rattle.cycle_detect.specs.Parts.{EdgesView, AreLinked};

    ghost Value = { EdgesView };

    ghost view = { λ e. record { nodes = e.nodes; limit = e.limit; list = e.ends.items } };

    ghost invariant = { λ e. AreLinked e.nodes e.ends.items e.older.items e.newest.items × (length e.ends.items ≤ e.limit) × (e.limit ≤ vec_capacity e.ends) × (e.limit ≤ vec_capacity e.older) × (e.limit < 2 ^ 32) };
}

impl Edges {
    /// No edges yet.
    pub fn new(alloc: Global, nodes: u32, limit: u32) -> Result<Edges, OutOfMemory>
        ensures { IfOk result (λ e. e ≡ record { nodes = nodes; limit = limit; list = [] }) }
    {
        Ok(Edges {
            nodes,
            limit,
            ends: Vec::with_capacity(alloc, limit as usize)?,
            older: Vec::with_capacity(alloc, limit as usize)?,
            newest: Vec::from_elem(alloc, None, nodes as usize)?,
        })
    }

    /// How many nodes there are.
    pub fn nodes(&self) -> u32
        ensures { result ≡ self.now.nodes }
    {
        self.nodes
    }

    /// How many edges there are.
    pub fn len(&self) -> u32
        ensures count { result ≡ length self.now.list }
        ensures room { length self.now.list ≤ self.now.limit }
        ensures within { (x y : ℕ) → Held self.now.list x y → (x < self.now.nodes) × (y < self.now.nodes) }
    {
        self.ends.len() as u32
    }

    /// Puts an edge behind the others.
    pub fn push(&mut self, from: u32, to: u32)
        requires from { from < self.old.nodes }
        requires to { to < self.old.nodes }
        requires room { length self.old.list < self.old.limit }
        ensures { self.new ≡ record self.old { list = self.old.list ++ (from, to) ∷ [] } }
    {
        let id = self.ends.len() as u32;
        self.older.push_reserved(self.newest[to as usize]);
        self.newest[to as usize] = Some(id);
        self.ends.push_reserved((from, to));
    }

    /// Takes the newest edge off.
    pub fn pop(&mut self)
        requires { 0 < length self.old.list }
        ensures { self.new ≡ record self.old { list = take (length self.old.list - 1) self.old.list } }
    {
        let last = self.ends.len() - 1;
        let (_, to) = self.ends[last];
        self.newest[to as usize] = self.older[last];
        self.ends.truncate(last);
        self.older.truncate(last);
    }

    /// Where an edge begins and ends.
    pub fn ends(&self, id: u32) -> (u32, u32)
        requires { id < length self.now.list }
        ensures edge { slice_get self.now.list id ≡ Some result }
        ensures within { (result.0 < self.now.nodes) × (result.1 < self.now.nodes) }
    {
        self.ends[id as usize]
    }

    /// The newest edge that enters a node.
    pub fn last_into(&self, node: u32) -> Option<u32>
        requires { node < self.now.nodes }
        ensures { IsLastInto self.now.list node (length self.now.list) result }
    {
        self.newest[node as usize]
    }

    /// The newest of the edges before this one that enters the same node.
    pub fn before(&self, id: u32) -> Option<u32>
        requires { id < length self.now.list }
        ensures { (x y : ℕ) → slice_get self.now.list id ≡ Some (x, y) → IsLastInto self.now.list y id result }
    {
        self.older[id as usize]
    }

    /// The newest edge with these ends: none exactly where there is none.
    pub fn find(&self, from: u32, to: u32) -> Option<u32>
        requires { to < self.now.nodes }
        ensures { MatchOption result (¬ Held self.now.list from to) (λ i. slice_get self.now.list i ≡ Some (from, to)) }
    {
        let mut next = self.last_into(to);
        while let Some(id) = next {
            let (source, _) = self.ends(id);
            if source == from {
                return Some(id);
            }
            next = self.before(id);
        }
        None
    }
}
