//! Whether a memory model allows an execution, with evidence.
//!
//! An execution is given by the actions of its threads, a source for each read (reads-from, rf) and
//! an order of the writes of each cell (coherence, co). [`check_consistent`] decides the three
//! conditions of `axiom_model`'s `Consistent`: no cycle among the edges on one cell, none among the
//! edges that the model keeps, and none of the latter between different blocks. Where one is broken
//! the answer is a cycle that shows it; what such evidence is stands in `specs/Evidence`.
//!
//! The actions are numbered, thread by thread. Each condition becomes a list of edges between
//! numbers, which `axiom_model::acyclic` orders or refutes. The list does not hold every pair of
//! program order and of coherence: it holds pairs of these relations whose chains are all their
//! pairs.
#![tactic(auto)]

mod blocks;
mod cycles;
mod edges;
mod laws;
mod links;
mod numbering;
mod relations;

ghost use Rattle.std.specs.Prelude.{IfErr, OnOk};
ghost use Rattle.axiom_model.specs.WellMade.{Shape, WellMade};
ghost use Rattle.axiom_model.specs.Models.{Consistent};
ghost use Rattle.consistency.specs.Seen.{execution_seen};
ghost use Rattle.consistency.specs.Evidence.{IsEvidence, FirstBroken};

use axiom_model::{Action, Event, MemoryModel, RfPair};
use dg_base::{List, OutOfMemory};
pub use laws::answers_exclude_each_other;
pub use links::same_event;
use relations::Condition;
use std::alloc::Global;

/// What a thread of an execution did.
#[derive(Debug, Drop)]
pub struct ThreadActions {
    /// Who it is: 0 for the main thread.
    pub handle: u32,
    /// The number of its function, from 0 in the order of the text.
    pub function: u32,
    /// The function's argument.
    pub arg: u32,
    /// What it did, in turn.
    pub actions: List<Action>,
    /// Whether it came to its end.
    pub ended: bool,
    /// Whether it made a choice that no execution makes.
    pub bad: bool,
}

/// Why a model does not allow an execution, or want of memory. No event of the lists is `Initial`,
/// since nothing leads into the initial writes.
#[derive(Debug, Drop)]
pub enum Inconsistent {
    /// A cycle of program order on one cell, reads-from, coherence and from-read: each event leads to
    /// the next, and the last to the first. No event is repeated, and the first is the least by handle,
    /// then by index.
    LocalCycle(List<Event>),
    /// Such a cycle of the kept order, the reads-from that all threads see at once, coherence and
    /// from-read; there is no local one.
    GlobalCycle(List<Event>),
    /// Pairs one after the other, the first end before the second, each an edge of the global condition
    /// between different blocks: a pair leads to the block where the next begins, and the last to that
    /// where the first begins. No block is entered twice, and the first pair begins at the least of the
    /// first ends. There is no cycle of events.
    BlockCycle(List<Event>),
    /// Want of memory; also of numbers, where there are more actions than a u32 counts.
    OutOfMemory,
}

impl From<OutOfMemory> for Inconsistent {
    ghost use Rattle.std.specs.Prelude.{◌≡◌};
    ghost use Rattle.consistency.specs.declared.Inconsistent.TheVariants.{OutOfMemory};

    ghost from_gives = { λ _ e. e ≡ OutOfMemory };

    fn from(_: OutOfMemory) -> Self {
        Inconsistent::OutOfMemory
    }
}

/// Whether the model allows an execution that is well made; where it does not, evidence against the
/// first of the three conditions that is broken.
///
/// For n actions, pairs and writes in orders the time is at most near n squared: an event of a pair or
/// of an order is looked up among all actions, and from an action those behind it are looked at up to
/// the next that it needs. Memory is near linear: each relation is listed by pairs whose chains are all
/// its pairs.
pub fn check_consistent(
    alloc: Global,
    model: MemoryModel,
    threads: &[ThreadActions],
    rf: &[RfPair],
    co: &[List<Event>],
) -> Result<(), Inconsistent>
    requires { (s : Shape) × WellMade s (execution_seen threads.now rf.now co.now) }
    ensures consistent { OnOk result (Consistent model (execution_seen threads.now rf.now co.now)) }
    ensures evidence { IfErr result (IsEvidence model (execution_seen threads.now rf.now co.now)) }
    ensures first_broken { IfErr result (FirstBroken model (execution_seen threads.now rf.now co.now)) }
{
    let nodes = numbering::numbered(alloc, threads)?;
    let nodes = nodes.as_slice();
    let local = edges::edges_of(alloc, Condition::Local, nodes, rf, co)?;
    if let Some(cycle) = cycles::event_cycle(alloc, nodes, local.as_slice())? {
        return Err(Inconsistent::LocalCycle(cycle));
    }
    let global = edges::edges_of(alloc, Condition::Global(model), nodes, rf, co)?;
    if let Some(cycle) = cycles::event_cycle(alloc, nodes, global.as_slice())? {
        return Err(Inconsistent::GlobalCycle(cycle));
    }
    if let Some(ends) = blocks::block_cycle(alloc, nodes, global.as_slice())? {
        return Err(Inconsistent::BlockCycle(ends));
    }
    Ok(())
}
