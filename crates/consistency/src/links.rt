//! The pairs of events that reads-from, coherence and from-read give.

ghost use Rattle.std.specs.Prelude.{◌≡◌, IfOk};
ghost use Rattle.consistency.specs.Edges.{source_links, follow_links, order_links, co_links, same_event, next_behind, next_of, next_in, cell_in, later_links, links_of};

use crate::numbering::Node;
use crate::relations::{Condition, cell_of};
use axiom_model::{Event, RfPair};
use dg_base::{List, OutOfMemory};
use std::alloc::Global;

/// A pair of events.
#[derive(Debug, Clone, Copy, Drop)]
pub(crate) struct Link {
    pub source: Event,
    pub target: Event,
}

// From sources to reads.
fn source_links(
    alloc: Global,
    condition: Condition,
    rf: &[RfPair],
) -> Result<List<Link>, OutOfMemory>
    ensures { IfOk result (λ l. l ≡ source_links condition rf.now) }
{
    let mut links = List::new(alloc);
    for pair in rf {
        if condition.sees(pair) {
            links.push(Link {
                source: pair.source,
                target: pair.reader,
            })?;
        }
    }
    Ok(links)
}

// From each event to the next, beginning with this one.
fn follow_links(alloc: Global, first: Event, rest: &[Event]) -> Result<List<Link>, OutOfMemory>
    ensures { IfOk result (λ l. l ≡ follow_links first rest.now) }
{
    let mut links = List::new(alloc);
    let mut last = first;
    for event in rest {
        links.push(Link {
            source: last,
            target: *event,
        })?;
        last = *event;
    }
    Ok(links)
}

// From each event of the list to the next.
fn order_links(alloc: Global, order: &[Event]) -> Result<List<Link>, OutOfMemory>
    ensures { IfOk result (λ l. l ≡ order_links order.now) }
{
    match order.split_first() {
        Some((first, rest)) => follow_links(alloc, *first, rest),
        None => Ok(List::new(alloc)),
    }
}

// The same in each cell's order.
fn co_links(alloc: Global, co: &[List<Event>]) -> Result<List<Link>, OutOfMemory>
    ensures { IfOk result (λ l. l ≡ co_links co.now) }
{
    let mut links = List::new(alloc);
    for order in co {
        links.append(order_links(alloc, order.as_slice())?)?;
    }
    Ok(links)
}

/// Whether both are one event.
pub fn same_event(first: &Event, second: &Event) -> bool
    ensures { result ≡ same_event first.now second.now }
{
    *first == *second
}

// The event right behind another in a list.
fn next_behind(order: &[Event], event: &Event) -> Option<Event>
    ensures { result ≡ next_behind order.now event.now }
{
    for (place, other) in order.iter().enumerate() {
        if same_event(other, event) {
            return order.get(place + 1).copied();
        }
    }
    None
}

// The event right behind another in a cell's order.
fn next_in(co: &[List<Event>], cell: Option<u32>, event: &Event) -> Option<Event>
    ensures { result ≡ next_in co.now cell event.now }
{
    let Some(cell) = cell else { return None };
    match co.get(cell as usize) {
        Some(order) => next_behind(order.as_slice(), event),
        None => None,
    }
}

// The cell of an event's action.
fn cell_in(nodes: &[Node], event: &Event) -> Option<u32>
    ensures { result ≡ cell_in nodes.now event.now }
{
    for node in nodes {
        if node.is(event) {
            return cell_of(&node.action);
        }
    }
    None
}

// From reads to the writes right behind their sources.
fn later_links(
    alloc: Global,
    nodes: &[Node],
    co: &[List<Event>],
    rf: &[RfPair],
) -> Result<List<Link>, OutOfMemory>
    ensures { IfOk result (λ l. l ≡ later_links nodes.now co.now rf.now) }
{
    let mut links = List::new(alloc);
    for pair in rf {
        if let Some(target) = next_in(co, cell_in(nodes, &pair.reader), &pair.source) {
            links.push(Link {
                source: pair.reader,
                target,
            })?;
        }
    }
    Ok(links)
}

/// The pairs of reads-from that the condition sees, of coherence and of from-read; of the last two
/// those to the next write alone.
pub(crate) fn links_of(
    alloc: Global,
    condition: Condition,
    nodes: &[Node],
    rf: &[RfPair],
    co: &[List<Event>],
) -> Result<List<Link>, OutOfMemory>
    ensures { IfOk result (λ l. l ≡ links_of condition nodes.now rf.now co.now) }
{
    let mut later = co_links(alloc, co)?;
    later.append(later_links(alloc, nodes, co, rf)?)?;
    let mut links = source_links(alloc, condition, rf)?;
    links.append(later)?;
    Ok(links)
}
