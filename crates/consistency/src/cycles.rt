//! Cycles of events.

ghost use Rattle.std.specs.Prelude.{◌≡◌, ◌^◌, ◌<◌, length, map, All, IfOk, MatchOption};
ghost use Rattle.consistency.specs.declared.relations.Condition.{Condition};
ghost use Rattle.axiom_model.specs.Execution.{Execution};
ghost use Rattle.axiom_model.specs.Cycles.{NoCycle};
ghost use Rattle.axiom_model.specs.Sorting.{EndsBelow};
ghost use Rattle.consistency.specs.Evidence.{IsEventCycle};
ghost use Rattle.consistency.specs.Numbering.{event_at, IsNumbering};
ghost use Rattle.consistency.specs.Relations.{Edge};
ghost use Rattle.consistency.specs.Graphs.{Lists};

use crate::numbering::{Node, event_at};
use axiom_model::{Acyclic, Event, acyclic};
use dg_base::{List, OutOfMemory};
use std::alloc::Global;

// The events with these numbers.
fn events_at(alloc: Global, nodes: &[Node], numbers: &[u32]) -> Result<List<Event>, OutOfMemory>
    ensures { IfOk result (λ l. l ≡ map (event_at nodes.now) numbers.now) }
{
    let mut events = List::new(alloc);
    for number in numbers {
        events.push(event_at(nodes, *number))?;
    }
    Ok(events)
}

/// A cycle of the relation that the edges stand for, from its least event on, where there is one.
pub(crate) fn event_cycle(
    alloc: Global,
    nodes: &[Node],
    edges: &[(u32, u32)],
) -> Result<Option<List<Event>>, OutOfMemory>
    requires fits { length nodes.now < 2 ^ 32 }
    requires ends { All (EndsBelow (length nodes.now)) edges.now }
    ensures { IfOk result (λ o. (c : Condition) (x : Execution)
        → IsNumbering x nodes.now → Lists nodes.now (Edge c x) edges.now
        → MatchOption o (NoCycle (Edge c x)) (IsEventCycle x (Edge c x))) }
{
    match acyclic(alloc, nodes.len() as u32, edges)? {
        Acyclic::Sorted(_) => Ok(None),
        Acyclic::Cycle(cycle) => Ok(Some(events_at(alloc, nodes, cycle.as_slice())?)),
    }
}
