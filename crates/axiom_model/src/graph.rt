//! The search for an order of a graph's nodes in which every edge goes forward.

ghost use Rattle.std.specs.Prelude.{◌≡◌, ℕ, ◌+◌, ◌<◌, ◌≤◌, ◌↔◌, IsTrue, List as list, length, All, reverse, slice_get, slice_index, IfOk};
ghost use Rattle.axiom_model.specs.Cycles.{NoCycle};
ghost use Rattle.axiom_model.specs.Sorting.{EndsBelow, HasEdge, IsSimpleCycle, IsAnswer, IsSorted};
ghost use Rattle.axiom_model.specs.Walking.{TurnsBack};

use crate::sorting::Acyclic;
use crate::walk::Walk;
use dg_base::{List, OutOfMemory};
use std::alloc::Global;

// The place of a node that is on the path.
fn place_of(path: &[u32], node: u32) -> usize
    requires { (k : ℕ) × (slice_get path.now k ≡ Some node) }
    ensures { slice_get path.now result ≡ Some node }
{
    let mut place = 0;
    while path[place] != node {
        place += 1;
    }
    place
}

// The place of the least node.
fn place_of_least(nodes: &[u32]) -> usize
    requires { 0 < length nodes.now }
    ensures within { result < length nodes.now }
    ensures least { All (λ v. slice_index nodes.now result ≤ v) nodes.now }
{
    let mut least = 0;
    for (place, node) in nodes.iter().enumerate() {
        if *node < nodes[least] {
            least = place;
        }
    }
    least
}

// The nodes from the last to the first.
fn reversed(alloc: Global, nodes: &[u32]) -> Result<List<u32>, OutOfMemory>
    ensures { IfOk result (λ l. l ≡ reverse nodes.now) }
{
    let nodes: Vec<u32> = nodes.iter().rev().copied().collect(alloc)?;
    Ok(List::from_vec(nodes))
}

// Cuts the cycle out of a path that turns back, without what led to it, and turns it to its least
// node. The path lies against the edges.
fn cut(alloc: Global, path: &[u32], source: u32) -> Result<List<u32>, OutOfMemory>
    requires { (k : ℕ) × (slice_get path.now k ≡ Some source) }
    ensures { IfOk result (λ l. (edges : list (ℕ × ℕ)) → TurnsBack edges path.now source → IsSimpleCycle edges l) }
{
    let (_, section) = path.split_at(place_of(path, source));
    let (front, back) = section.split_at(place_of_least(section) + 1);
    let mut cycle = reversed(alloc, front)?;
    cycle.append(reversed(alloc, back)?)?;
    Ok(cycle)
}

/// An order of the nodes of a graph, 0 to `nodes - 1`, in which every edge, from its first to its
/// second number, goes forward; or a cycle, where there is one. Time and memory are linear in nodes
/// and edges. The one refusal is for want of memory.
///
/// The order is that in which a walk depth first leaves the nodes (R. E. Tarjan, "Edge-disjoint
/// spanning trees and depth-first search", Acta Informatica, 1976), here against the edges, so that
/// it needs no turning. The edges wait in linked lists, as in A. B. Kahn, "Topological sorting of
/// large networks" (Communications of the ACM, 1962).
pub fn acyclic(alloc: Global, nodes: u32, edges: &[(u32, u32)]) -> Result<Acyclic, OutOfMemory>
    requires { All (EndsBelow nodes) edges.now }
    ensures answer { IfOk result (λ a. IsAnswer nodes edges.now a) }
    ensures sorted_without_cycles { IfOk result (λ a. IsSorted a ↔ NoCycle (HasEdge edges.now)) }
{
    let mut walk = Walk::new(alloc, nodes, edges)?;
    for root in 0..nodes {
        if let Some(source) = walk.settle(edges, root)? {
            let cycle = cut(alloc, walk.path.as_slice(), source)?;
            return Ok(Acyclic::Cycle(cycle));
        }
    }
    let Walk {
        order,
        earlier: _,
        left: _,
        marks: _,
        path: _,
    } = walk;
    Ok(Acyclic::Sorted(order))
}

#[cfg(test)]
mod tests {
    use super::*;
    use std::test::Fail;

    // Whether both ends of each edge are below `nodes`.
    fn ends_below(nodes: u32, edges: &[(u32, u32)]) -> bool
        ensures { IsTrue result → All (EndsBelow nodes) edges.now }
    {
        edges.iter().all(|edge| edge.0 < nodes && edge.1 < nodes)
    }

    // Whether the list is an order of all nodes in which every edge goes forward.
    fn is_order(nodes: u32, edges: &[(u32, u32)], order: &[u32]) -> bool {
        let forward = |edge: &(u32, u32)| match (
            order.iter().position(|node| *node == edge.0),
            order.iter().position(|node| *node == edge.1),
        ) {
            (Some(source), Some(target)) => source < target,
            _ => false,
        };
        order.len() == nodes as usize
            && (0..nodes).all(|node| order.contains(&node))
            && edges.iter().all(forward)
    }

    // Whether the list is a cycle without a repeated node, from its least node on.
    fn is_cycle(edges: &[(u32, u32)], cycle: &[u32]) -> bool {
        let (Some(first), Some(last)) = (cycle.first(), cycle.last()) else {
            return false;
        };
        let mut before = *last;
        for (place, node) in cycle.iter().enumerate() {
            let repeated = cycle.iter().position(|other| other == node) != Some(place);
            if repeated || *node < *first || !edges.contains(&(before, *node)) {
                return false;
            }
            before = *node;
        }
        true
    }

    // Whether the answer is right, and a cycle where one is expected.
    fn is_right(
        alloc: Global,
        nodes: u32,
        edges: &[(u32, u32)],
        cyclic: bool,
    ) -> Result<bool, OutOfMemory> {
        if !ends_below(nodes, edges) {
            return Ok(false);
        }
        Ok(match acyclic(alloc, nodes, edges)? {
            Acyclic::Sorted(order) => !cyclic && is_order(nodes, edges, order.as_slice()),
            Acyclic::Cycle(cycle) => cyclic && is_cycle(edges, cycle.as_slice()),
        })
    }

    // Whether the answer is this one.
    fn answers(
        alloc: Global,
        nodes: u32,
        edges: &[(u32, u32)],
        cyclic: bool,
        list: &[u32],
    ) -> Result<bool, OutOfMemory> {
        if !ends_below(nodes, edges) {
            return Ok(false);
        }
        Ok(match acyclic(alloc, nodes, edges)? {
            Acyclic::Sorted(order) => !cyclic && order.as_slice() == list,
            Acyclic::Cycle(cycle) => cyclic && cycle.as_slice() == list,
        })
    }

    /// Graphs, whether they have a cycle, and the answer.
    #[test]
    fn known_answers(rt: HostRuntime) -> Result<(), Fail> {
        let table: [(u32, &[(u32, u32)], bool, &[u32]); 6] = [
            (3, &[(0, 1), (1, 2)], false, &[0, 1, 2]),
            (3, &[(0, 1), (1, 2), (2, 0)], true, &[0, 1, 2]),
            (3, &[], false, &[0, 1, 2]),
            (0, &[], false, &[]),
            (4, &[(3, 1), (1, 2), (2, 3), (0, 1)], true, &[1, 2, 3]),
            (3, &[(2, 1), (1, 0)], false, &[2, 1, 0]),
        ];
        for (nodes, edges, cyclic, list) in table {
            assert!(rt;
                answers(rt.alloc(), nodes, edges, cyclic, list)?,
                "{edges:?}"
            );
        }
        Ok(())
    }

    /// Graphs, and whether they have a cycle: a self loop, two cycles, a cycle amid a path, repeated
    /// edges, two ways from one node to another, a long cycle beside a node that leads to it.
    #[test]
    fn small_graphs(rt: HostRuntime) -> Result<(), Fail> {
        let table: [(u32, &[(u32, u32)], bool); 6] = [
            (2, &[(1, 1)], true),
            (4, &[(0, 1), (1, 0), (2, 3), (3, 2)], true),
            (4, &[(3, 2), (2, 1), (1, 2), (1, 0)], true),
            (3, &[(0, 2), (0, 2), (1, 2), (0, 2)], false),
            (5, &[(4, 0), (4, 1), (0, 3), (1, 3), (3, 2)], false),
            (5, &[(4, 0), (0, 3), (3, 2), (2, 4), (1, 3)], true),
        ];
        for (nodes, edges, cyclic) in table {
            assert!(rt; is_right(rt.alloc(), nodes, edges, cyclic)?, "{edges:?}");
        }
        Ok(())
    }
}
