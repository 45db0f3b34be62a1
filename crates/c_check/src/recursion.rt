// Recursion, and an order of the items in which calls lead forward.
ghost use Rattle.std.specs.Prelude.{◌≡◌, ◌++◌, ◌<◌, ℕ, map, length, OnOk, IfOk, MatchOption, MatchResult};
ghost use Rattle.c_check.specs.Graph.{Path, IsClosed, edges_from, callees_of};
ghost use Rattle.c_check.specs.Ordering.{IsRowOrder, IsCallOrder, IsRecursionRefusal};

use crate::calls::callees_of;
use crate::reachability::first_back;
use axiom_model::{Acyclic, acyclic};
use c_tree::Item;
use dg_base::{List, OutOfMemory, Refusal};
use sqlite_items::at;
use std::alloc::Global;

// Adds the edges of one row.
fn push_edges(edges: &mut List<(u32, u32)>, from: u32, row: &[usize]) -> Result<(), OutOfMemory>
    ensures { OnOk result (edges.new ≡ edges.old ++ map (λ j. (from, j)) row.now) }
{
    for to in row {
        match u32::try_from(*to) {
            Ok(to) => edges.push((from, to))?,
            Err(_) => return Err(OutOfMemory),
        }
    }
    Ok(())
}

// The rows as edges between numbers.
fn edges_of(alloc: Global, rows: &[List<usize>]) -> Result<List<(u32, u32)>, OutOfMemory>
    ensures { IfOk result (λ l. l ≡ edges_from 0 rows.now) }
{
    let mut edges = List::new(alloc);
    for (i, row) in rows.iter().enumerate() {
        match u32::try_from(i) {
            Ok(from) => push_edges(&mut edges, from, row.as_slice())?,
            Err(_) => return Err(OutOfMemory),
        }
    }
    Ok(edges)
}

// An order in which the rows lead forward, if there is one.
#[tactic(auto, using(crate::proofs::Edges::edges_below, crate::proofs::Edges::ordered_rows, crate::proofs::Edges::back_by_cycle))]
fn row_order(alloc: Global, rows: &[List<usize>]) -> Result<Option<List<u32>>, OutOfMemory>
    requires { IsClosed rows.now }
    ensures { IfOk result (λ o. MatchOption o ((i : ℕ) × Path rows.now i i) (λ order. IsRowOrder rows.now order)) }
{
    let edges = edges_of(alloc, rows)?;
    let nodes = match u32::try_from(rows.len()) {
        Ok(nodes) => nodes,
        Err(_) => return Err(OutOfMemory),
    };
    match acyclic(alloc, nodes, edges.as_slice())? {
        Acyclic::Sorted(order) => Ok(Some(order)),
        Acyclic::Cycle(_) => Ok(None),
    }
}

// The first function from which calls lead back to it, where there is one.
#[tactic(auto, using(crate::proofs::Edges::rows_closed))]
fn first_recursion(alloc: Global, items: &[Item], rows: &[List<usize>]) -> Refusal
    requires rows { rows.now ≡ callees_of items.now }
    requires back { (i : ℕ) × Path rows.now i i }
    ensures { IsRecursionRefusal items.now result }
{
    match first_back(alloc, rows) {
        Err(_) => Refusal::OutOfMemory,
        Ok(None) => unreachable!(),
        Ok(Some(number)) => match at(items, number) {
            Some(Item::Function(function)) => Refusal::Recursion(function.place),
            Some(Item::Prototype { .. }) => unreachable!(),
            Some(Item::Shared(_)) => unreachable!(),
            None => unreachable!(),
        },
    }
}

/// An order of the items, by their numbers, in which each call and create leads forward; or the refusal of recursion.
#[tactic(auto, using(crate::proofs::Edges::rows_closed, crate::proofs::Edges::call_ordered))]
pub(crate) fn call_order(alloc: Global, items: &[Item]) -> Result<List<u32>, Refusal>
    ensures { MatchResult result (λ order. IsCallOrder items.now order) (λ e. IsRecursionRefusal items.now e) }
{
    let rows = match callees_of(alloc, items) {
        Ok(rows) => rows,
        Err(_) => return Err(Refusal::OutOfMemory),
    };
    match row_order(alloc, rows.as_slice()) {
        Err(_) => Err(Refusal::OutOfMemory),
        Ok(None) => Err(first_recursion(alloc, items, rows.as_slice())),
        Ok(Some(order)) => Ok(order),
    }
}
