ghost use Rattle.std.specs.Prelude.{◌≡◌, ◌≢◌, ◌<◌, ◌≤◌, ◌+◌, ◌-◌, ◌^◌, ℕ, [], ◌∷◌, ◌++◌, length, count_by, IfNone, IfSome, slice_get, slice_index, Some, true, false, vec_capacity};
ghost use Rattle.cycle_detect.specs.Orders.{Held};
ghost use Rattle.cycle_detect.specs.Parts.{AreVisits, IsVisitOf, IsClosedAt, IsTrace, is_seen, enters, looked};

use crate::edges::Edges;
use dg_base::Steps;
use std::sync::ledger::Ledger;

/// A node that a search has reached, and the visit of the node that an edge leads to from it.
#[derive(Clone, Copy, Debug, Drop)]
pub struct Visit {
    node: u32,
    next: u32,
}

// Visits the nodes from which edges lead into a visited one, but for those with a place below `low`.
fn visit_sources<L: Ledger>(
    edges: &Edges,
    places: &[u32],
    low: u32,
    from: u32,
    node: u32,
    at: u32,
    visits: &mut Vec<Visit>,
    seen: &mut [bool],
    steps: &mut Steps<L>,
)
    requires small { length seen.old < 2 ^ 32 }
    requires nodes { length seen.old ≡ edges.now.nodes }
    requires places { length places.now ≡ edges.now.nodes }
    requires forward { (x y : ℕ) → Held edges.now.list x y → slice_index places.now x < slice_index places.now y }
    requires room { edges.now.nodes ≤ vec_capacity visits.old }
    requires here { IsVisitOf visits.old.items at node }
    requires visits { AreVisits edges.now.list places.now low from visits.old.items seen.old }
    ensures visits { AreVisits edges.now.list places.now low from visits.new.items seen.new }
    ensures kept { (i : ℕ) (v : Visit) → slice_get visits.old.items i ≡ Some v → slice_get visits.new.items i ≡ Some v }
    ensures seen { (n : ℕ) → is_seen seen.old n ≡ true → is_seen seen.new n ≡ true }
    ensures closed { IsClosedAt edges.now.list places.now low seen.new node }
    ensures capacity { vec_capacity visits.new ≡ vec_capacity visits.old }
    ensures steps { steps.new ≡ steps.old + count_by (enters node) edges.now.list }
{
    let mut next = edges.last_into(node);
    while let Some(id) = next {
        steps.tick();
        let (source, _) = edges.ends(id);
        reach(edges, places, low, from, source, node, at, visits, seen);
        next = edges.before(id);
    }
}

// Visits one node from which an edge leads into a visited one.
fn reach(
    edges: &Edges,
    places: &[u32],
    low: u32,
    from: u32,
    source: u32,
    node: u32,
    at: u32,
    visits: &mut Vec<Visit>,
    seen: &mut [bool],
)
    requires small { length seen.old < 2 ^ 32 }
    requires nodes { length seen.old ≡ edges.now.nodes }
    requires places { length places.now ≡ edges.now.nodes }
    requires forward { slice_index places.now source < slice_index places.now node }
    requires within { source < edges.now.nodes }
    requires edge { Held edges.now.list source node }
    requires room { edges.now.nodes ≤ vec_capacity visits.old }
    requires here { IsVisitOf visits.old.items at node }
    requires visits { AreVisits edges.now.list places.now low from visits.old.items seen.old }
    ensures visits { AreVisits edges.now.list places.now low from visits.new.items seen.new }
    ensures kept { (i : ℕ) (v : Visit) → slice_get visits.old.items i ≡ Some v → slice_get visits.new.items i ≡ Some v }
    ensures seen { (n : ℕ) → is_seen seen.old n ≡ true → is_seen seen.new n ≡ true }
    ensures source { low ≤ slice_index places.now source → is_seen seen.new source ≡ true }
    ensures capacity { vec_capacity visits.new ≡ vec_capacity visits.old }
{
    if places[source as usize] >= low && !seen[source as usize] {
        seen[source as usize] = true;
        visits.push_reserved(Visit {
            node: source,
            next: at,
        });
    }
}

/// Searches backward from `from`, breadth first, over nodes whose place is at least that of `to`.
/// Answers the visit of `to`, where it is reached.
pub fn search<L: Ledger>(
    edges: &Edges,
    places: &[u32],
    from: u32,
    to: u32,
    visits: &mut Vec<Visit>,
    seen: &mut [bool],
    steps: &mut Steps<L>,
) -> Option<u32>
    requires small { length seen.old < 2 ^ 32 }
    requires nodes { length seen.old ≡ edges.now.nodes }
    requires places { length places.now ≡ edges.now.nodes }
    requires forward { (x y : ℕ) → Held edges.now.list x y → slice_index places.now x < slice_index places.now y }
    requires room { edges.now.nodes ≤ vec_capacity visits.old }
    requires from { from < edges.now.nodes }
    requires to { to < edges.now.nodes }
    requires back { slice_index places.now to ≤ slice_index places.now from }
    requires unseen { (n : ℕ) → is_seen seen.old n ≡ false }
    ensures visits { AreVisits edges.now.list places.now (slice_index places.now to) from visits.new.items seen.new }
    ensures some { IfSome result (λ at. IsVisitOf visits.new.items at to) }
    ensures closed { IfNone result ((y : ℕ) → is_seen seen.new y ≡ true → IsClosedAt edges.now.list places.now (slice_index places.now to) seen.new y) }
    ensures apart { IfNone result (is_seen seen.new to ≡ false) }
    ensures capacity { vec_capacity visits.new ≡ vec_capacity visits.old }
    ensures steps { steps.new ≤ steps.old + length visits.new.items + looked edges.now.list visits.new.items }
{
    let low = places[to as usize];
    visits.clear();
    visits.push_reserved(Visit {
        node: from,
        next: 0,
    });
    seen[from as usize] = true;
    let mut at: u32 = 0;
    while (at as usize) < visits.len() {
        steps.tick();
        let node = visits[at as usize].node;
        if node == to {
            return Some(at);
        }
        visit_sources(edges, places, low, from, node, at, visits, seen, steps);
        at += 1;
    }
    None
}

/// The nodes from a visited one on, along the visits, to where the search began.
pub fn trace<L: Ledger>(visits: &[Visit], start: u32, nodes: &mut Vec<u32>, steps: &mut Steps<L>)
    requires start { start < length visits.now }
    requires tree { (i : ℕ) (v : Visit) → 0 < i → slice_get visits.now i ≡ Some v → v.next < i }
    requires once { (i j : ℕ) (v w : Visit) → slice_get visits.now i ≡ Some v → slice_get visits.now j ≡ Some w → v.node ≡ w.node → i ≡ j }
    requires room { length visits.now ≤ vec_capacity nodes.old }
    ensures trace { IsTrace visits.now start 0 nodes.new.items }
    ensures capacity { vec_capacity nodes.new ≡ vec_capacity nodes.old }
    ensures steps { steps.new ≡ steps.old + length nodes.new.items }
{
    let mut at = start;
    nodes.clear();
    steps.tick();
    nodes.push_reserved(visits[at as usize].node);
    while at != 0 {
        at = visits[at as usize].next;
        steps.tick();
        nodes.push_reserved(visits[at as usize].node);
    }
}

/// Forgets that the visited nodes were seen.
pub fn forget<L: Ledger>(visits: &[Visit], seen: &mut [bool], steps: &mut Steps<L>)
    requires within { (i : ℕ) (v : Visit) → slice_get visits.now i ≡ Some v → v.node < length seen.old }
    ensures left { (n : ℕ) → is_seen seen.new n ≡ true → (is_seen seen.old n ≡ true) × ((i : ℕ) (v : Visit) → slice_get visits.now i ≡ Some v → v.node ≢ n) }
    ensures steps { steps.new ≡ steps.old + length visits.now }
{
    for visit in visits {
        steps.tick();
        seen[visit.node as usize] = false;
    }
}
