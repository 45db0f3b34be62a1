//! The kept order, and a graph with the causes of its edges.
ghost use Rattle.std.specs.Prelude.{◌≡◌, ◌<◌, ◌≤◌, ◌+◌, length};

use axiom_model::{Acyclic, acyclic};
use cycle_detect::Order;
use dg_base::{OutOfMemory, Steps};
use order_solver::{Cause, CausedGraph};
use std::alloc::Global;
use std::marker::Brand;
use std::sync::ledger::{Blank, Ledger};
use std::test::Fail;

// Adds an edge, counting its steps from nothing.
fn add_counted<L: Ledger>(order: &mut Order, from: u32, to: u32, blank: Blank) -> Option<u32>
    requires name { blank.name ≡ L.name }
    requires parts { blank.parts ≡ L.parts }
    requires some { 0 < L.parts }
    requires from { from < order.old.nodes }
    requires to { to < order.old.nodes }
    requires room { length order.old.edges < order.old.max_edges }
    ensures sizes { (order.new.nodes ≡ order.old.nodes) × (order.new.max_edges ≡ order.old.max_edges) }
    ensures count { length order.new.edges ≤ length order.old.edges + 1 }
{
    let mut steps = Steps::<L>::new(blank);
    order.add(from, to, &mut steps)
}

// Adds an edge.
fn grow(order: &mut Order, from: u32, to: u32) -> Option<u32>
    requires from { from < order.old.nodes }
    requires to { to < order.old.nodes }
    requires room { length order.old.edges < order.old.max_edges }
    ensures sizes { (order.new.nodes ≡ order.old.nodes) × (order.new.max_edges ≡ order.old.max_edges) }
    ensures count { length order.new.edges ≤ length order.old.edges + 1 }
{
    add_counted::<Brand>(order, from, to, Blank::new(1))
}

// Keeps the first so many edges, where there are more.
fn cut(order: &mut Order, mark: u32)
    ensures sizes { (order.new.nodes ≡ order.old.nodes) × (order.new.max_edges ≡ order.old.max_edges) }
    ensures count { length order.new.edges ≤ length order.old.edges }
{
    if mark < order.mark() {
        order.undo_to(mark);
    }
}

#[test]
fn three_nodes_are_sorted_or_in_a_circle(rt: HostRuntime) -> Result<(), Fail> {
    let sorted = acyclic(rt.alloc(), 3, &[(0, 1), (1, 2)])?;
    assert!(rt;
        matches!(&sorted, Acyclic::Sorted(order) if order.as_slice() == [0, 1, 2].as_slice())
    );
    let circle = acyclic(rt.alloc(), 3, &[(0, 1), (1, 2), (2, 0)])?;
    assert!(rt;
        matches!(&circle, Acyclic::Cycle(cycle) if cycle.as_slice() == [0, 1, 2].as_slice())
    );
    Ok(())
}

#[test]
fn three_nodes_are_kept_in_order(rt: HostRuntime) -> Result<(), Fail> {
    let mut order = Order::new(rt.alloc(), 3, 4)?;
    assert_eq!(rt; grow(&mut order, 0, 1), None);
    assert_eq!(rt; grow(&mut order, 1, 2), None);
    assert_eq!(rt; grow(&mut order, 2, 0), Some(3));
    cut(&mut order, 1);
    assert_eq!(rt; grow(&mut order, 2, 0), None);
    Ok(())
}

// The edge of a line of a thousand nodes that is put in at this turn: from its front each edge goes on from
// the last one, and from its back each leads to where the last one began.
fn line_edge(turn: u32, is_from_back: bool) -> (u32, u32)
    requires { turn < 999 }
    ensures { (result.0 < 1000) × (result.1 < 1000) }
{
    if is_from_back {
        (turn + 1, turn)
    } else {
        (turn, turn + 1)
    }
}

// How many edges of a line of a thousand nodes are held, and how many nodes the cycle has that an edge from its end to its start
// closes.
fn held_of_line(alloc: Global, is_from_back: bool) -> Result<(u32, Option<u32>), OutOfMemory> {
    let mut order = Order::new(alloc, 1000, 1000)?;
    let mut held = 0;
    for i in 0..999 {
        let (from, to) = line_edge(i, is_from_back);
        if grow(&mut order, from, to).is_none() {
            held += 1;
        }
    }
    let closed = if is_from_back {
        grow(&mut order, 0, 999)
    } else {
        grow(&mut order, 999, 0)
    };
    Ok((held, closed))
}

#[test]
fn a_line_from_its_front(rt: HostRuntime) -> Result<(), Fail> {
    let (held, closed) = held_of_line(rt.alloc(), false)?;
    assert_eq!(rt; held, 999);
    assert_eq!(rt; closed, Some(1000));
    Ok(())
}

#[test]
fn a_line_from_its_back(rt: HostRuntime) -> Result<(), Fail> {
    let (held, closed) = held_of_line(rt.alloc(), true)?;
    assert_eq!(rt; held, 999);
    assert_eq!(rt; closed, Some(1000));
    Ok(())
}

// Holds one more edge of a graph, counting the steps from nothing.
fn closes_counted<L: Ledger>(
    graph: &mut CausedGraph,
    from: u32,
    to: u32,
    cause: Cause,
    blank: Blank,
) -> bool
    requires name { blank.name ≡ L.name }
    requires parts { blank.parts ≡ L.parts }
    requires some { 0 < L.parts }
    requires from { from < graph.old.nodes }
    requires to { to < graph.old.nodes }
    requires room { length graph.old.edges < graph.old.room }
    ensures sizes { (graph.new.nodes ≡ graph.old.nodes) × (graph.new.room ≡ graph.old.room) }
    ensures count { length graph.new.edges ≤ length graph.old.edges + 1 }
{
    let mut steps = Steps::<L>::new(blank);
    graph.closes(from, to, cause, &mut steps)
}

fn closes(graph: &mut CausedGraph, from: u32, to: u32, cause: Cause) -> bool
    requires from { from < graph.old.nodes }
    requires to { to < graph.old.nodes }
    requires room { length graph.old.edges < graph.old.room }
    ensures sizes { (graph.new.nodes ≡ graph.old.nodes) × (graph.new.room ≡ graph.old.room) }
    ensures count { length graph.new.edges ≤ length graph.old.edges + 1 }
{
    closes_counted::<Brand>(graph, from, to, cause, Blank::new(1))
}

#[test]
fn edges_have_causes(rt: HostRuntime) -> Result<(), Fail> {
    let mut graph = CausedGraph::new(rt.alloc(), 3, 3)?;
    let pair = Cause::Pair {
        read_from: 5,
        write_order: 6,
    };
    assert!(rt; !closes(&mut graph, 0, 1, Cause::Fixed));
    assert!(rt; !closes(&mut graph, 1, 2, pair));
    assert!(rt; closes(&mut graph, 2, 0, Cause::Own(4)));
    assert_eq!(rt; graph.last_cycle(), [0, 1, 2].as_slice());
    assert_eq!(rt; graph.cause_of(1, 2), Some(pair));
    graph.undo_to(1);
    assert_eq!(rt; graph.mark(), 1);
    assert_eq!(rt; graph.cause_of(1, 2), None);
    Ok(())
}
