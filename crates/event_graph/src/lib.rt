//! The static events of a program: the initial writes of its cells, and for each instance the actions that it may make, in program
//! order, with their guards, values and blocks as literals.
//!
//! Node `i` of the problem is event `i`. The events are a function of the single assignment form and of the words of its terms
//! (`specs/Graphs`). The laws (`specs/Laws`) say all that the layers above need of that function: the list is one of static events, and
//! under each assignment in which the words spell the terms' values the events that happen may happen together, are the actions of the
//! threads' runs in their order, and have the sections of the runs as blocks.
#![tactic(auto)]

mod laws;
mod walk;

ghost use Rattle.std.specs.Prelude.{◌≡◌, length, IfOk};
ghost use Rattle.event_graph.specs.Graphs.{IsFormOfSome, events_of, bits_of};

use crate::walk::{initial_writes, walk_part};
use bit_blast::Bits;
use dg_base::{List, OutOfMemory};
pub use laws::{actions_are_nodes, blocks_are_sections, events_are_possible, events_are_static};
use memory_models::{EventBits, StaticEvent};
use ssa_form::Ssa;
use std::alloc::Global;

/// The static events, and for each one its value.
#[derive(Drop)]
pub struct EventGraph {
    pub events: List<StaticEvent>,
    pub bits: List<EventBits>,
}

/// The static events of a program.
///
/// # Errors
/// Want of memory, and more events or instances than there are numbers for.
pub fn events(alloc: Global, ssa: &Ssa, bits: &Bits) -> Result<EventGraph, OutOfMemory>
    requires form { IsFormOfSome ssa.now }
    requires words { length bits.now.words ≡ length ssa.now.terms }
    ensures events { IfOk result (λ g. g.events ≡ events_of ssa.now bits.now.words) }
    ensures bits { IfOk result (λ g. g.bits ≡ bits_of ssa.now bits.now.words) }
{
    let words = bits.words.as_slice();
    let parts = ssa.parts.as_slice();
    let Ok(count) = u32::try_from(parts.len()) else {
        return Err(OutOfMemory);
    };
    let mut graph = initial_writes(alloc, words, ssa.initials.as_slice())?;
    for instance in 0..count {
        walk_part(&mut graph, words, instance, &parts[instance as usize])?;
    }
    Ok(graph)
}
