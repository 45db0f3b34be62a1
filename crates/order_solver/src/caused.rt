ghost use Rattle.std.specs.Prelude.{◌≡◌, ◌<◌, ◌∷◌, ◌++◌, [], true, false, length, slice_get, IfOk, MatchOption, Some};
ghost use Rattle.cnf_problem.specs.Edges.{HasCycle};
ghost use Rattle.cycle_detect.specs.Orders.{Held, IsClosed};
ghost use Rattle.order_solver.specs.Parts.{cut_graph};

use cycle_detect::Order;
use dg_base::{OutOfMemory, Steps};
use std::alloc::Global;
use std::marker::Model;
use std::sync::ledger::Ledger;

/// Why an edge is there.
#[derive(Clone, Copy, Debug, PartialEq, Eq, Drop)]
pub enum Cause {
    /// It is there under each assignment.
    Fixed,
    /// The atom with this number has it.
    Own(u32),
    /// The atom of a read and an atom that orders two writes derive it.
    Pair { read_from: u32, write_order: u32 },
}

/// A graph without cycles, and the cause of each of its edges.
#[derive(Debug, Drop)]
pub struct CausedGraph {
    order: Order,
    causes: Vec<Cause>,
}

impl Model for CausedGraph {
    ghost use Rattle.std.specs.Prelude.{◌≡◌, ◌≤◌, length, vec_capacity};
    ghost use Rattle.order_solver.specs.Ordering.{GraphView};

    ghost Value = { GraphView };

    ghost view = { λ g. record { nodes = g.order.nodes; room = g.order.max_edges; edges = g.order.edges; causes = g.causes.items; cycle = g.order.cycle } };

    ghost invariant = { λ g. (length g.causes.items ≡ length g.order.edges) × (g.order.max_edges ≤ vec_capacity g.causes) };
}

impl CausedGraph {
    /// So many nodes and no edges yet, of which there may be so many.
    pub fn new(alloc: Global, nodes: u32, max_edges: u32) -> Result<CausedGraph, OutOfMemory>
        ensures sizes { IfOk result (λ g. (g.nodes ≡ nodes) × (g.room ≡ max_edges)) }
        ensures none { IfOk result (λ g. (g.edges ≡ []) × (g.causes ≡ [])) }
    {
        Ok(CausedGraph {
            order: Order::new(alloc, nodes, max_edges)?,
            causes: Vec::with_capacity(alloc, max_edges as usize)?,
        })
    }

    /// Holds one more edge, unless it closes a cycle: whether it does.
    pub fn closes<L: Ledger>(
        &mut self,
        from: u32,
        to: u32,
        cause: Cause,
        steps: &mut Steps<L>,
    ) -> bool
        requires from { from < self.old.nodes }
        requires to { to < self.old.nodes }
        requires room { length self.old.edges < self.old.room }
        ensures sizes { (self.new.nodes ≡ self.old.nodes) × (self.new.room ≡ self.old.room) }
        ensures held { result ≡ false → (self.new.edges ≡ self.old.edges ++ (from, to) ∷ []) × (self.new.causes ≡ self.old.causes ++ cause ∷ []) }
        ensures closed { result ≡ true → (self.new.edges ≡ self.old.edges) × (self.new.causes ≡ self.old.causes) × IsClosed self.old.edges from to self.new.cycle }
        ensures long { length self.old.causes ≡ length self.old.edges }
        ensures acyclic { ¬ HasCycle (Held self.new.edges) }
    {
        if self.order.add(from, to, steps).is_some() {
            return true;
        }
        self.causes.push_reserved(cause);
        false
    }

    /// How many edges are held. They have no cycle.
    pub fn mark(&self) -> u32
        ensures count { result ≡ length self.now.edges }
        ensures causes { length self.now.causes ≡ length self.now.edges }
        ensures within { (x y : _) → Held self.now.edges x y → (x < self.now.nodes) × (y < self.now.nodes) }
        ensures acyclic { ¬ HasCycle (Held self.now.edges) }
    {
        self.order.mark()
    }

    /// Keeps the first so many edges alone, if there are more.
    pub fn undo_to(&mut self, mark: u32)
        ensures { self.new ≡ cut_graph mark self.old }
    {
        if mark < self.order.mark() {
            self.order.undo_to(mark);
            self.causes.truncate(mark as usize);
        }
    }

    /// The nodes of the last cycle that an edge would have closed, from where it ends to where it
    /// begins.
    pub fn last_cycle(&self) -> &[u32]
        ensures nodes { result.now ≡ self.now.cycle }
        ensures causes { length self.now.causes ≡ length self.now.edges }
    {
        self.order.last_cycle()
    }

    /// The cause of the newest held edge with these ends: none exactly where there is none.
    pub fn cause_of(&self, from: u32, to: u32) -> Option<Cause>
        requires { to < self.now.nodes }
        ensures { MatchOption result (¬ Held self.now.edges from to) (λ c. (i : _) × (slice_get self.now.edges i ≡ Some (from, to)) × (slice_get self.now.causes i ≡ Some c)) }
    {
        let edge = self.order.held(from, to)?;
        Some(self.causes[edge as usize])
    }
}
