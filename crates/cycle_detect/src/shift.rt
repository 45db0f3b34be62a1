ghost use Rattle.std.specs.Prelude.{◌≡◌, ◌≢◌, ◌<◌, ◌≤◌, ◌+◌, ◌-◌, ◌*◌, ◌^◌, ℕ, [], ◌∷◌, ◌++◌, take, filter, length, count_by, not, slice_index, slice_range, true, false, vec_capacity};
ghost use Rattle.cycle_detect.specs.Parts.{ArePlaces, is_seen, parted, moved};

use dg_base::Steps;
use std::sync::ledger::Ledger;

// Puts the nodes that are seen before the others, each group as it stood.
fn part<L: Ledger>(nodes: &mut [u32], seen: &[bool], aside: &mut Vec<u32>, steps: &mut Steps<L>)
    requires range { (k : ℕ) → k < length nodes.old → slice_index nodes.old k < length seen.now }
    requires room { length nodes.old ≤ vec_capacity aside.old }
    ensures nodes { nodes.new ≡ parted seen.now nodes.old }
    ensures capacity { vec_capacity aside.new ≡ vec_capacity aside.old }
    ensures steps { steps.new ≡ steps.old + length nodes.old + count_by (λ n. not (is_seen seen.now n)) nodes.old }
{
    let write = gather(nodes, seen, aside, steps);
    for i in 0..aside.len() {
        steps.tick();
        nodes[write + i] = aside[i];
    }
}

// Moves the nodes that are seen to the front, puts the others aside, and tells how many moved.
fn gather<L: Ledger>(
    nodes: &mut [u32],
    seen: &[bool],
    aside: &mut Vec<u32>,
    steps: &mut Steps<L>,
) -> usize
    requires range { (k : ℕ) → k < length nodes.old → slice_index nodes.old k < length seen.now }
    requires room { length nodes.old ≤ vec_capacity aside.old }
    ensures front { take result nodes.new ≡ filter (is_seen seen.now) nodes.old }
    ensures aside { aside.new.items ≡ filter (λ n. not (is_seen seen.now n)) nodes.old }
    ensures count { result + length aside.new.items ≡ length nodes.old }
    ensures capacity { vec_capacity aside.new ≡ vec_capacity aside.old }
    ensures steps { steps.new ≡ steps.old + length nodes.old }
{
    aside.clear();
    let mut write = 0;
    for read in 0..nodes.len() {
        steps.tick();
        let node = nodes[read];
        if seen[node as usize] {
            nodes[write] = node;
            write += 1;
        } else {
            aside.push_reserved(node);
        }
    }
    write
}

// Tells the nodes at these places their places, and forgets that they were seen.
fn renumber<L: Ledger>(
    order: &[u32],
    low: usize,
    high: usize,
    places: &mut [u32],
    seen: &mut [bool],
    steps: &mut Steps<L>,
)
    requires small { length order.now < 2 ^ 32 }
    requires long { length places.old ≡ length order.now }
    requires seen_long { length seen.old ≡ length order.now }
    requires within { high < length order.now }
    requires ordered { low ≤ high }
    requires range { (k : ℕ) → k < length order.now → slice_index order.now k < length order.now }
    requires once { (i j : ℕ) → i < length order.now → j < length order.now → slice_index order.now i ≡ slice_index order.now j → i ≡ j }
    ensures inside { (k : ℕ) → low ≤ k → k ≤ high → (slice_index places.new (slice_index order.now k) ≡ k) × (is_seen seen.new (slice_index order.now k) ≡ false) }
    ensures outside { (n : ℕ) → ((k : ℕ) → low ≤ k → k ≤ high → slice_index order.now k ≢ n) → (slice_index places.new n ≡ slice_index places.old n) × (is_seen seen.new n ≡ is_seen seen.old n) }
    ensures steps { steps.new ≡ steps.old + (high + 1 - low) }
{
    for place in low..high + 1 {
        steps.tick();
        let node = order[place] as usize;
        places[node] = place as u32;
        seen[node] = false;
    }
}

/// Puts the nodes between two places in order again: those that are seen, then the others, each
/// group as it stood. None of them is seen any more.
pub fn shift<L: Ledger>(
    order: &mut [u32],
    places: &mut [u32],
    seen: &mut [bool],
    aside: &mut Vec<u32>,
    low: usize,
    high: usize,
    steps: &mut Steps<L>,
)
    requires small { length order.old < 2 ^ 32 }
    requires placed { ArePlaces order.old places.old }
    requires seen_long { length seen.old ≡ length order.old }
    requires within { high < length order.old }
    requires ordered { low ≤ high }
    requires room { length order.old ≤ vec_capacity aside.old }
    ensures order { order.new ≡ moved seen.old low high order.old }
    ensures placed { ArePlaces order.new places.new }
    ensures inside { (k : ℕ) → low ≤ k → k ≤ high → is_seen seen.new (slice_index order.old k) ≡ false }
    ensures outside { (n : ℕ) → is_seen seen.new n ≡ true → is_seen seen.old n ≡ true }
    ensures capacity { vec_capacity aside.new ≡ vec_capacity aside.old }
    ensures steps { steps.new ≡ steps.old + 2 * (high + 1 - low) + count_by (λ n. not (is_seen seen.old n)) (slice_range order.old low (high + 1)) }
{
    part(&mut order[low..high + 1], seen, aside, steps);
    renumber(order, low, high, places, seen, steps);
}
