//! The edges of a condition, as pairs of numbers.

ghost use Rattle.std.specs.Prelude.{◌≡◌, ◌+◌, ◌^◌, ◌<◌, length, IfOk};
ghost use Rattle.consistency.specs.Edges.{row, forward_edges, cross_edges, node_edges, numbered_links, edges_of};

use crate::links::{Link, links_of};
use crate::numbering::{Node, place_of};
use crate::relations::{Condition, Relation, reaches_out};
use axiom_model::{Event, RfPair};
use dg_base::{List, OutOfMemory};
use std::alloc::Global;

// The edges from a node with this number to nodes of a list whose first has the number `first`.
fn row(
    alloc: Global,
    relation: Relation,
    number: u32,
    node: &Node,
    first: u32,
    nodes: &[Node],
) -> Result<List<(u32, u32)>, OutOfMemory>
    requires { first + length nodes.now < 2 ^ 32 }
    ensures { IfOk result (λ l. l ≡ row relation number node.now first nodes.now) }
{
    let mut edges = List::new(alloc);
    let mut target = first;
    for other in nodes {
        if relation.links(node, other) {
            edges.push((number, target))?;
        }
        if relation.stops(node, other) {
            return Ok(edges);
        }
        target += 1;
    }
    Ok(edges)
}

// The edges from each node to nodes behind it.
fn forward_edges(
    alloc: Global,
    relation: Relation,
    nodes: &[Node],
) -> Result<List<(u32, u32)>, OutOfMemory>
    requires { length nodes.now < 2 ^ 32 }
    ensures { IfOk result (λ l. l ≡ forward_edges relation 0 nodes.now) }
{
    let mut edges = List::new(alloc);
    let mut number: u32 = 0;
    for node in nodes {
        let (_, later) = nodes.split_at(number as usize + 1);
        edges.append(row(alloc, relation, number, node, number + 1, later)?)?;
        number += 1;
    }
    Ok(edges)
}

// The edges from each node to nodes of all threads.
fn cross_edges(alloc: Global, nodes: &[Node]) -> Result<List<(u32, u32)>, OutOfMemory>
    requires { length nodes.now < 2 ^ 32 }
    ensures { IfOk result (λ l. l ≡ cross_edges nodes.now 0 nodes.now) }
{
    let mut edges = List::new(alloc);
    let mut number: u32 = 0;
    for node in nodes {
        if reaches_out(&node.action) {
            edges.append(row(alloc, Relation::Across, number, node, 0, nodes)?)?;
        }
        number += 1;
    }
    Ok(edges)
}

// The edges that the nodes alone tell.
fn node_edges(
    alloc: Global,
    condition: Condition,
    nodes: &[Node],
) -> Result<List<(u32, u32)>, OutOfMemory>
    requires { length nodes.now < 2 ^ 32 }
    ensures { IfOk result (λ l. l ≡ node_edges condition nodes.now) }
{
    match condition {
        Condition::Local => forward_edges(alloc, Relation::Cell, nodes),
        Condition::Global(model) => {
            let mut rest = forward_edges(alloc, Relation::Section, nodes)?;
            rest.append(cross_edges(alloc, nodes)?)?;
            let mut edges = forward_edges(alloc, Relation::Kept(model), nodes)?;
            edges.append(rest)?;
            Ok(edges)
        }
    }
}

// The links between events that have numbers.
fn numbered_links(
    alloc: Global,
    nodes: &[Node],
    links: &[Link],
) -> Result<List<(u32, u32)>, OutOfMemory>
    requires { length nodes.now < 2 ^ 32 }
    ensures { IfOk result (λ l. l ≡ numbered_links nodes.now links.now) }
{
    let mut edges = List::new(alloc);
    for link in links {
        let ends = (place_of(nodes, &link.source), place_of(nodes, &link.target));
        if let (Some(source), Some(target)) = ends {
            edges.push((source, target))?;
        }
    }
    Ok(edges)
}

/// The edges of the condition: pairs of it whose chains are all its pairs between actions.
pub(crate) fn edges_of(
    alloc: Global,
    condition: Condition,
    nodes: &[Node],
    rf: &[RfPair],
    co: &[List<Event>],
) -> Result<List<(u32, u32)>, OutOfMemory>
    requires { length nodes.now < 2 ^ 32 }
    ensures { IfOk result (λ l. l ≡ edges_of condition nodes.now rf.now co.now) }
{
    let links = links_of(alloc, condition, nodes, rf, co)?;
    let mut edges = node_edges(alloc, condition, nodes)?;
    edges.append(numbered_links(alloc, nodes, links.as_slice())?)?;
    Ok(edges)
}
