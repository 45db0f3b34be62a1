//! The pass over the events of a list, from the last to the first.

ghost use Rattle.std.specs.Prelude.{◌≡◌, ℕ, ◌+◌, ◌^◌, ◌<◌, List, ◌↔◌, ◌++◌, [], IfOk, IsTrue, None, length, map, nat_eq};
ghost use Rattle.std.specs.HashMap.{get};
ghost use Rattle.cnf_problem.specs.declared.problem.Graph.TheVariants as graph;
ghost use Rattle.axiom_model.specs.declared.MemoryModel.{MemoryModel};
ghost use Rattle.cnf_problem.specs.declared.problem.Edge.{Edge};
ghost use Rattle.memory_models.specs.declared.FenceEdge.{FenceEdge};
ghost use Rattle.memory_models.specs.declared.StaticEvent.{StaticEvent};
ghost use Rattle.memory_models.specs.declared.StaticKind.TheVariants as kind;
ghost use Rattle.memory_models.specs.Ahead.{From, Later, Stands};
ghost use Rattle.memory_models.specs.Events.{AreStatic, IsAt, OneBlock, OneThread};
ghost use Rattle.memory_models.specs.Keeping.{edge};
ghost use Rattle.memory_models.specs.Roles.{AreOut, cell_edges, fence, fenced_to_weak, next_from, role_of, strong_from, to_strong, to_weak, weak_from};

use crate::role::Role;
use crate::{Edges, FenceEdge, StaticEvent, StaticKind};
use axiom_model::MemoryModel;
use cnf_problem::{Edge, Graph};
use dg_base::{List, Lit, OutOfMemory};
use std::alloc::Global;
use std::collections::HashMap;

/// The events ahead that edges may lead to: ways lead on from them to all others of the thread.
#[derive(Drop)]
pub(crate) struct Ahead {
    alloc: Global,
    /// The next block that waits for all before it.
    pub strong: Option<u32>,
    /// The weak events that no read stands before: the next read, and under PSO the writes before it.
    pub weak: List<u32>,
    /// For each cell the next access.
    pub next: HashMap<u32, u32>,
}

// Links an event to each of those ahead.
fn link_all(edges: &mut List<Edge>, place: u32, ahead: &[u32]) -> Result<(), OutOfMemory>
    ensures { IfOk result (λ _. edges.new ≡ edges.old ++ map (edge graph.Global place) ahead.now) }
{
    for to in ahead {
        edges.push(Edge {
            graph: Graph::Global,
            from: place,
            to: *to,
        })?;
    }
    Ok(())
}

// Links an event to each of those ahead, where it happens.
fn fence_all(
    fences: &mut List<FenceEdge>,
    place: u32,
    guard: Lit,
    ahead: &[u32],
) -> Result<(), OutOfMemory>
    ensures { IfOk result (λ _. fences.new ≡ fences.old ++ map (fence guard place) ahead.now) }
{
    for to in ahead {
        let edge = Edge {
            graph: Graph::Global,
            from: place,
            to: *to,
        };
        fences.push(FenceEdge { edge, guard })?;
    }
    Ok(())
}

impl Ahead {
    /// Nothing lies ahead.
    pub fn new(alloc: Global) -> Ahead
        ensures strong { result.strong ≡ None }
        ensures weak { result.weak ≡ [] }
        ensures next { (c : ℕ) → get nat_eq result.next c ≡ None }
    {
        Ahead {
            alloc,
            strong: None,
            weak: List::new(alloc),
            next: HashMap::new(alloc),
        }
    }

    /// What lies ahead of the event at a place: where a thread ends with it, nothing.
    pub fn before(self, events: &[StaticEvent], place: u32) -> Ahead
        requires within { place < length events.now }
        requires are { AreStatic events.now }
        ensures { (m : MemoryModel) (fixed : List Edge) (fences : List FenceEdge) → Stands m events.now (place + 1) (From events.now (place + 1)) fixed fences self.strong self.weak (get nat_eq self.next) → Stands m events.now (place + 1) (Later events.now place) fixed fences result.strong result.weak (get nat_eq result.next) }
    {
        if goes_on(events, place) {
            self
        } else {
            Ahead::new(self.alloc)
        }
    }

    // The edge out of an access to the next one of its cell, which it then is itself.
    fn access(
        &mut self,
        fixed: &mut List<Edge>,
        place: u32,
        event: &StaticEvent,
    ) -> Result<(), OutOfMemory>
        ensures fixed { IfOk result (λ _. fixed.new ≡ fixed.old ++ cell_edges place event.now (get nat_eq self.old.next)) }
        ensures strong { self.new.strong ≡ self.old.strong }
        ensures weak { self.new.weak ≡ self.old.weak }
        ensures next { IfOk result (λ _. (c : ℕ) → get nat_eq self.new.next c ≡ next_from place event.now (get nat_eq self.old.next) c) }
    {
        if !matches!(event.kind, StaticKind::Read | StaticKind::Write) {
            return Ok(());
        }
        if let Some(to) = self.next.get(&event.cell).copied() {
            fixed.push(Edge {
                graph: Graph::Local,
                from: place,
                to,
            })?;
        }
        self.next.insert(event.cell, place)?;
        Ok(())
    }

    // The edges out of an event that ends its block.
    fn leave(
        &self,
        edges: &mut Edges,
        place: u32,
        role: Role,
        guard: Lit,
    ) -> Result<(), OutOfMemory>
        ensures fixed { IfOk result (λ _. edges.new.fixed ≡ (edges.old.fixed ++ to_strong place self.now.strong) ++ to_weak role place self.now.weak) }
        ensures fences { IfOk result (λ _. edges.new.fences ≡ edges.old.fences ++ fenced_to_weak role guard place self.now.weak) }
    {
        if let Some(to) = self.strong {
            edges.fixed.push(Edge {
                graph: Graph::Global,
                from: place,
                to,
            })?;
        }
        match role {
            Role::Reader => link_all(&mut edges.fixed, place, self.weak.as_slice()),
            Role::Writer => Ok(()),
            Role::Fence => fence_all(&mut edges.fences, place, guard, self.weak.as_slice()),
        }
    }

    // An event with which a block begins lies ahead of those before it, and hides those that it
    // leads to.
    fn enter(
        &mut self,
        model: MemoryModel,
        place: u32,
        event: &StaticEvent,
    ) -> Result<(), OutOfMemory>
        ensures strong { IfOk result (λ _. self.new.strong ≡ strong_from model place event.now self.old.strong) }
        ensures weak { IfOk result (λ _. self.new.weak ≡ weak_from model place event.now self.old.weak) }
        ensures next { (c : ℕ) → get nat_eq self.new.next c ≡ get nat_eq self.old.next c }
    {
        if event.block != place {
            return Ok(());
        }
        let role = Role::of(model, place, event);
        if role.is_strong(model) {
            self.strong = Some(place);
            return Ok(());
        }
        if role == Role::Reader {
            self.weak = List::new(self.alloc);
        }
        self.weak.push(place)?;
        Ok(())
    }
}

// Whether the event is an initial write.
fn is_initial(event: &StaticEvent) -> bool
    ensures { IsTrue result ↔ (event.now.kind ≡ kind.Initial) }
{
    matches!(event.kind, StaticKind::Initial)
}

// Whether the event behind a place is one of the same thread, and both are actions of it.
fn goes_on(events: &[StaticEvent], place: u32) -> bool
    requires { place < length events.now }
    ensures { IsTrue result ↔ OneThread events.now place (place + 1) }
{
    let here = events[place as usize];
    match events.get(place as usize + 1) {
        None => false,
        Some(next) => {
            here.kind != StaticKind::Initial
                && next.kind != StaticKind::Initial
                && here.instance == next.instance
        }
    }
}

// Whether the event behind a place is one of the same block.
fn block_goes_on(events: &[StaticEvent], place: u32) -> bool
    requires { place < length events.now }
    ensures { IsTrue result ↔ OneBlock events.now place (place + 1) }
{
    let here = events[place as usize];
    match events.get(place as usize + 1) {
        None => false,
        Some(next) => here.block == next.block,
    }
}

// The global edges out of the event at a place.
fn link_out(
    model: MemoryModel,
    events: &[StaticEvent],
    place: u32,
    ahead: &Ahead,
    edges: &mut Edges,
) -> Result<(), OutOfMemory>
    requires within { place < length events.now }
    requires few { length events.now < 2 ^ 32 }
    ensures { (e : StaticEvent) → IsAt events.now place e → IfOk result (λ _. AreOut events.now place e (role_of model place e) ahead.now.strong ahead.now.weak edges.old.fixed edges.new.fixed edges.old.fences edges.new.fences) }
{
    if block_goes_on(events, place) {
        edges.fixed.push(Edge {
            graph: Graph::Global,
            from: place,
            to: place + 1,
        })?;
        return Ok(());
    }
    let event = events[place as usize];
    ahead.leave(edges, place, Role::of(model, place, &event), event.guard)?;
    Ok(())
}

/// The edges out of the event at a place, which then lies ahead of those before it.
pub(crate) fn pass(
    model: MemoryModel,
    events: &[StaticEvent],
    place: u32,
    ahead: &mut Ahead,
    edges: &mut Edges,
) -> Result<(), OutOfMemory>
    requires within { place < length events.now }
    requires few { length events.now < 2 ^ 32 }
    requires are { AreStatic events.now }
    requires behind { Stands model events.now (place + 1) (Later events.now place) edges.old.fixed edges.old.fences ahead.old.strong ahead.old.weak (get nat_eq ahead.old.next) }
    ensures { IfOk result (λ _. Stands model events.now place (From events.now place) edges.new.fixed edges.new.fences ahead.new.strong ahead.new.weak (get nat_eq ahead.new.next)) }
{
    let event = events[place as usize];
    if is_initial(&event) {
        return Ok(());
    }
    ahead.access(&mut edges.fixed, place, &event)?;
    link_out(model, events, place, ahead, edges)?;
    ahead.enter(model, place, &event)?;
    Ok(())
}
