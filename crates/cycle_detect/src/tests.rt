ghost use Rattle.std.specs.Prelude.{◌≡◌, ◌<◌, ◌≤◌, ◌+◌, length};

use crate::Order;
use dg_base::Steps;
use std::marker::Brand;
use std::sync::ledger::{Blank, Ledger};
use std::test::Fail;

// Adds an edge, counting its steps from nothing.
fn add_counted<L: Ledger>(order: &mut Order, from: u32, to: u32, blank: Blank) -> Option<u32>
    requires name { blank.name ≡ L.name }
    requires parts { blank.parts ≡ L.parts }
    requires some { 0 < L.parts }
    requires from { from < order.old.nodes }
    requires to { to < order.old.nodes }
    requires room { length order.old.edges < order.old.max_edges }
    ensures sizes { (order.new.nodes ≡ order.old.nodes) × (order.new.max_edges ≡ order.old.max_edges) }
    ensures count { length order.new.edges ≤ length order.old.edges + 1 }
{
    let mut steps = Steps::<L>::new(blank);
    order.add(from, to, &mut steps)
}

// Adds an edge.
fn grow(order: &mut Order, from: u32, to: u32) -> Option<u32>
    requires from { from < order.old.nodes }
    requires to { to < order.old.nodes }
    requires room { length order.old.edges < order.old.max_edges }
    ensures sizes { (order.new.nodes ≡ order.old.nodes) × (order.new.max_edges ≡ order.old.max_edges) }
    ensures count { length order.new.edges ≤ length order.old.edges + 1 }
{
    add_counted::<Brand>(order, from, to, Blank::new(1))
}

// Keeps the first so many edges, where there are more.
fn cut(order: &mut Order, mark: u32)
    ensures sizes { (order.new.nodes ≡ order.old.nodes) × (order.new.max_edges ≡ order.old.max_edges) }
    ensures count { length order.new.edges ≤ length order.old.edges }
{
    if mark < order.mark() {
        order.undo_to(mark);
    }
}

#[test]
fn three_nodes_in_a_circle(rt: HostRuntime) -> Result<(), Fail> {
    let mut order = Order::new(rt.alloc(), 3, 8)?;
    assert_eq!(rt; grow(&mut order, 0, 1), None);
    assert_eq!(rt; grow(&mut order, 1, 2), None);
    assert_eq!(rt; grow(&mut order, 2, 0), Some(3));
    assert_eq!(rt; order.last_cycle(), [0, 1, 2].as_slice());
    assert_eq!(rt; order.held(1, 2), Some(1));
    cut(&mut order, 1);
    assert_eq!(rt; order.held(1, 2), None);
    assert_eq!(rt; grow(&mut order, 2, 0), None);
    assert_eq!(rt; grow(&mut order, 1, 2), Some(3));
    assert_eq!(rt; order.last_cycle(), [2, 0, 1].as_slice());
    assert_eq!(rt; grow(&mut order, 1, 1), Some(1));
    assert_eq!(rt; order.last_cycle(), [1].as_slice());
    assert_eq!(rt; order.mark(), 2);
    Ok(())
}

#[test]
fn a_line_backwards(rt: HostRuntime) -> Result<(), Fail> {
    let mut order = Order::new(rt.alloc(), 1000, 1002)?;
    for i in 0..999 {
        assert_eq!(rt; grow(&mut order, 999 - i, 998 - i), None);
    }
    assert_eq!(rt; grow(&mut order, 0, 999), Some(1000));
    Ok(())
}

// Whether a way along these edges leads from one of 32 nodes to another.
fn leads(edges: &[(u32, u32)], from: u32, to: u32) -> bool {
    let mut reached: u32 = 1 << (from % 32);
    for _ in 0..32 {
        for (x, y) in edges {
            if (reached >> (*x % 32)) & 1 == 1 {
                reached |= 1 << (*y % 32);
            }
        }
    }
    (reached >> (to % 32)) & 1 == 1
}

#[test]
fn edges_at_random_with_undoing(rt: HostRuntime) -> Result<(), Fail> {
    let mut order = Order::new(rt.alloc(), 8, 600)?;
    let mut edges: Vec<(u32, u32)> = Vec::with_capacity(rt.alloc(), 600)?;
    let mut seed: u32 = 1;
    for i in 0..600u32 {
        seed = seed.wrapping_mul(1664525).wrapping_add(1013904223);
        let from = (seed >> 20) % 8;
        let to = (seed >> 24) % 8;
        let closes = leads(&edges, to, from);
        assert_eq!(rt; grow(&mut order, from, to).is_some(), closes);
        if !closes {
            edges.push((from, to))?;
        }
        if i % 16 == 15 {
            let keep = order.mark() / 3;
            edges.truncate(keep as usize);
            cut(&mut order, keep);
        }
        assert_eq!(rt; order.mark() as usize, edges.len());
    }
    Ok(())
}
