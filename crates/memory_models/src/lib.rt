//! What each memory model keeps of program order, as few edges between the static events of a thread.
//!
//! A static event is an action that a thread may make; which happen is not known yet. An edge is
//! there always (`fixed`), or where the fence that it leaves happens (`fences`). For every set of
//! events that may happen together (`specs/Events`, `IsPossible`), ways over the edges that are there
//! lead between events that happen exactly where the model orders them by program order alone
//! (`specs/Keeping`, `KeepsOrder`). The layers above use [`static_edges`] through that alone.
//!
//! The kept order is the preserved program order of J. Alglave, "A formal hierarchy of weak memory
//! models" (Formal Methods in System Design, 2012), with full fences and sections. The edges are this
//! project's own: an event outside sections, or a whole section, is *strong* where every earlier
//! event is kept before it, else *weak*. One pass from the last event to the first keeps the next
//! strong one and the weak ones up to the next read; each event leads to those that wait for it. A
//! fence leads to weak events only where it happens.
#![tactic(auto)]

mod pass;
mod role;

ghost use Rattle.std.specs.Prelude.{IfOk};
ghost use Rattle.memory_models.specs.Events.{AreStatic};
ghost use Rattle.memory_models.specs.Keeping.{AreStaticEdges};

use crate::pass::{Ahead, pass};
use axiom_model::MemoryModel;
use cnf_problem::Edge;
use dg_base::{List, Lit, OutOfMemory};
use std::alloc::Global;

/// What a static event is. All kinds but `Initial`, `Read` and `Write` are full fences.
#[derive(Debug, Clone, Copy, PartialEq, Eq, Drop)]
pub enum StaticKind {
    /// The initial write of a cell.
    Initial,
    Read,
    Write,
    /// A section begins or ends, or a fence.
    Full,
    Start,
    End,
    Join,
    /// The thread of this instance is created.
    Create(u32),
}

/// An action that a thread may make. Event `i` of a list is node `i` of the problem.
#[derive(Debug, Clone, Copy, Drop)]
pub struct StaticEvent {
    /// The thread's instance; 4294967295 for an initial write.
    pub instance: u32,
    pub kind: StaticKind,
    /// The cell of an initial write, a read or a write.
    pub cell: u32,
    /// True where the event happens.
    pub guard: Lit,
    /// The number of the section's first event, or of the event itself.
    pub block: u32,
}

/// The value that goes with an event, the least bit first: of an initial write, a read or a write
/// the value, of Start and End the thread's own handle, of Create and Join the handle that is named.
/// For a full fence nothing rests on it.
#[derive(Clone, Copy, Drop)]
pub struct EventBits {
    pub bits: [Lit; 32],
}

/// An edge that is there where the fence that it leaves happens.
#[derive(Debug, Clone, Copy, Drop)]
pub struct FenceEdge {
    pub edge: Edge,
    /// The guard of the event that the edge leaves.
    pub guard: Lit,
}

/// Edges between static events.
#[derive(Debug, Drop)]
pub struct Edges {
    pub fixed: List<Edge>,
    pub fences: List<FenceEdge>,
}

/// The edges that stand for what a model keeps of program order. Under SC and TSO they are at most
/// six times as many as the events.
///
/// # Errors
/// Want of memory, which more than 4294967295 events are.
pub fn static_edges(
    alloc: Global,
    model: MemoryModel,
    events: &[StaticEvent],
) -> Result<Edges, OutOfMemory>
    requires { AreStatic events.now }
    ensures { IfOk result (λ e. AreStaticEdges model events.now e.fixed e.fences) }
{
    let Ok(count) = u32::try_from(events.len()) else {
        return Err(OutOfMemory);
    };
    let mut edges = Edges {
        fixed: List::new(alloc),
        fences: List::new(alloc),
    };
    let mut ahead = Ahead::new(alloc);
    for place in (0..count).rev() {
        ahead = ahead.before(events, place);
        pass(model, events, place, &mut ahead, &mut edges)?;
    }
    Ok(edges)
}
