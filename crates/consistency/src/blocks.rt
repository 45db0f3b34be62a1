//! Cycles of blocks.

ghost use Rattle.std.specs.Prelude.{◌≡◌, ◌^◌, ◌<◌, length, All, IfOk, MatchOption};
ghost use Rattle.axiom_model.specs.declared.MemoryModel.{MemoryModel};
ghost use Rattle.axiom_model.specs.Execution.{Execution};
ghost use Rattle.axiom_model.specs.Models.{GlobalEdge, Leaves};
ghost use Rattle.axiom_model.specs.Cycles.{NoCycle};
ghost use Rattle.axiom_model.specs.Sorting.{EndsBelow};
ghost use Rattle.consistency.specs.Evidence.{IsBlockCycle};
ghost use Rattle.consistency.specs.Numbering.{IsNumbering};
ghost use Rattle.consistency.specs.Graphs.{Lists};
ghost use Rattle.consistency.specs.Blocks.{block_edges, crossing, ends_at, crossings, cycle_ends, BlocksBelow};

use crate::numbering::{Node, block_at, event_at};
use axiom_model::{Acyclic, Event, acyclic};
use dg_base::{List, OutOfMemory};
use std::alloc::Global;

// The edges between different blocks.
fn block_edges(
    alloc: Global,
    nodes: &[Node],
    edges: &[(u32, u32)],
) -> Result<List<(u32, u32)>, OutOfMemory>
    ensures { IfOk result (λ l. l ≡ block_edges nodes.now edges.now) }
{
    let mut between = List::new(alloc);
    for edge in edges {
        let source = block_at(nodes, edge.0);
        let target = block_at(nodes, edge.1);
        if source != target {
            between.push((source, target))?;
        }
    }
    Ok(between)
}

// The first edge from one block to another.
fn crossing(nodes: &[Node], source: u32, target: u32, edges: &[(u32, u32)]) -> Option<(u32, u32)>
    ensures { result ≡ crossing nodes.now source target edges.now }
{
    for edge in edges {
        if block_at(nodes, edge.0) == source && block_at(nodes, edge.1) == target {
            return Some(*edge);
        }
    }
    None
}

// The ends of the first edge from one block to another.
fn crossing_ends(
    alloc: Global,
    nodes: &[Node],
    source: u32,
    target: u32,
    edges: &[(u32, u32)],
) -> Result<List<Event>, OutOfMemory>
    ensures { IfOk result (λ l. l ≡ ends_at nodes.now (crossing nodes.now source target edges.now)) }
{
    let mut ends = List::new(alloc);
    if let Some(edge) = crossing(nodes, source, target, edges) {
        ends.push(event_at(nodes, edge.0))?;
        ends.push(event_at(nodes, edge.1))?;
    }
    Ok(ends)
}

// The ends of an edge from the first block to the next of the list, from each to the next, and from
// the last to the first.
fn crossings(
    alloc: Global,
    nodes: &[Node],
    edges: &[(u32, u32)],
    first: u32,
    rest: &[u32],
) -> Result<List<Event>, OutOfMemory>
    ensures { IfOk result (λ l. l ≡ crossings nodes.now edges.now first rest.now first) }
{
    let mut ends = List::new(alloc);
    let mut last = first;
    for block in rest {
        ends.append(crossing_ends(alloc, nodes, last, *block, edges)?)?;
        last = *block;
    }
    ends.append(crossing_ends(alloc, nodes, last, first, edges)?)?;
    Ok(ends)
}

// The ends of the edges of a cycle of blocks.
fn cycle_ends(
    alloc: Global,
    nodes: &[Node],
    edges: &[(u32, u32)],
    cycle: &[u32],
) -> Result<List<Event>, OutOfMemory>
    ensures { IfOk result (λ l. l ≡ cycle_ends nodes.now edges.now cycle.now) }
{
    match cycle.split_first() {
        Some((first, rest)) => crossings(alloc, nodes, edges, *first, rest),
        None => Ok(List::new(alloc)),
    }
}

/// The ends of the edges of a cycle between different blocks, where there is one. A block is told by
/// the number of its first action.
pub(crate) fn block_cycle(
    alloc: Global,
    nodes: &[Node],
    edges: &[(u32, u32)],
) -> Result<Option<List<Event>>, OutOfMemory>
    requires fits { length nodes.now < 2 ^ 32 }
    requires ends { All (EndsBelow (length nodes.now)) edges.now }
    requires blocks { BlocksBelow nodes.now }
    ensures { IfOk result (λ o. (m : MemoryModel) (x : Execution)
        → IsNumbering x nodes.now → Lists nodes.now (GlobalEdge m x) edges.now
        → MatchOption o (NoCycle (Leaves m x)) (IsBlockCycle m x)) }
{
    let between = block_edges(alloc, nodes, edges)?;
    match acyclic(alloc, nodes.len() as u32, between.as_slice())? {
        Acyclic::Sorted(_) => Ok(None),
        Acyclic::Cycle(cycle) => Ok(Some(cycle_ends(alloc, nodes, edges, cycle.as_slice())?)),
    }
}
