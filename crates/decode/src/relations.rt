//! The relations: sources of reads and orders of writes.

ghost use Rattle.std.specs.Prelude.{◌≡◌, ℕ, ◌<◌, ◌≤◌, ◌≢◌, ◌&&◌, length, map, slice_get, IfOk, OnOk};
ghost use Rattle.cnf_problem.specs.Literals.{value};
ghost use Rattle.order_vars.specs.Links.{is_initial as is_first};
ghost use Rattle.encode_match.specs.Spelling.{reads_from, initials_in, is_read as is_reading};
ghost use Rattle.decode.specs.Relations.{pair_of, is_cell_write, IsAdded, AreApart, IsLineOf, AreLines};

use crate::values::truth;
use axiom_model::{Event, RfPair};
use dg_base::{List, OutOfMemory};
use memory_models::{StaticEvent, StaticKind};
use std::alloc::Global;

// Whether the event is a read that happens.
fn is_read(truths: &[bool], event: &StaticEvent) -> bool
    ensures { result ≡ (is_reading event.now.kind && value truths.now event.now.guard) }
{
    matches!(event.kind, StaticKind::Read) && truth(truths, event.guard)
}

/// A pair for each read that happens.
pub(crate) fn pairs(
    alloc: Global,
    truths: &[bool],
    events: &[StaticEvent],
    places: &[Event],
    sources: &[u32],
) -> Result<List<RfPair>, OutOfMemory>
    requires places { length places.now ≡ length events.now }
    requires sources { length sources.now ≡ length events.now }
    requires low { (r : ℕ) → (w : ℕ) → slice_get sources.now r ≡ Some w → w < length events.now }
    ensures { IfOk result (λ pairs. pairs ≡ map (pair_of places.now sources.now) (reads_from truths.now 0 events.now)) }
{
    let mut pairs = List::new(alloc);
    for node in 0..events.len() {
        if is_read(truths, &events[node]) {
            let reader = places[node];
            let source = places[sources[node] as usize];
            pairs.push(RfPair { reader, source })?;
        }
    }
    Ok(pairs)
}

// Whether the event is a write of the cell that happens.
fn writes(truths: &[bool], cell: usize, event: &StaticEvent) -> bool
    ensures { result ≡ is_cell_write truths.now cell event.now }
{
    matches!(event.kind, StaticKind::Initial | StaticKind::Write)
        && event.cell as usize == cell
        && truth(truths, event.guard)
}

// Puts an event at a place of a line, which grows to have it.
fn put(line: &mut List<Event>, place: usize, event: Event) -> Result<(), OutOfMemory>
    ensures there { OnOk result (slice_get line.new place ≡ Some event) }
    ensures kept { OnOk result ((k : ℕ) → k ≢ place → k < length line.old → slice_get line.new k ≡ slice_get line.old k) }
    ensures short { OnOk result ((m : ℕ) → length line.old ≤ m → place < m → length line.new ≤ m) }
{
    while line.len() < place {
        line.push(Event::Initial)?;
    }
    if place < line.len() {
        line.set(place, event);
    } else {
        line.push(event)?;
    }
    Ok(())
}

// Adds the event of a node to a cell's line, where it is a write of the cell that happens.
fn add_write(
    line: &mut List<Event>,
    truths: &[bool],
    cell: usize,
    event: &StaticEvent,
    rank: usize,
    place: Event,
) -> Result<(), OutOfMemory>
    ensures { OnOk result (IsAdded (is_cell_write truths.now cell event.now) rank place line.old line.new) }
{
    if !writes(truths, cell, event) {
        return Ok(());
    }
    put(line, rank, place)
}

// A cell's writes that happen, in their order.
fn order(
    alloc: Global,
    truths: &[bool],
    events: &[StaticEvent],
    places: &[Event],
    ranks: &[usize],
    cell: usize,
) -> Result<List<Event>, OutOfMemory>
    requires places { length places.now ≡ length events.now }
    requires ranks { length ranks.now ≡ length events.now }
    requires apart { AreApart truths.now events.now ranks.now cell }
    ensures { IfOk result (IsLineOf truths.now events.now places.now ranks.now cell (length events.now)) }
{
    let mut line = List::new(alloc);
    for node in 0..events.len() {
        add_write(
            &mut line,
            truths,
            cell,
            &events[node],
            ranks[node],
            places[node],
        )?;
    }
    Ok(line)
}

// Whether the event is the initial write of a cell.
fn is_initial(kind: StaticKind) -> bool
    ensures { result ≡ is_first kind }
{
    matches!(kind, StaticKind::Initial)
}

// How many cells there are.
fn cells(events: &[StaticEvent]) -> usize
    ensures { result ≡ initials_in events.now }
{
    let mut cells = 0;
    for event in events {
        if is_initial(event.kind) {
            cells += 1;
        }
    }
    cells
}

/// For each cell its writes that happen, in their order.
pub(crate) fn orders(
    alloc: Global,
    truths: &[bool],
    events: &[StaticEvent],
    places: &[Event],
    ranks: &[usize],
) -> Result<List<List<Event>>, OutOfMemory>
    requires places { length places.now ≡ length events.now }
    requires ranks { length ranks.now ≡ length events.now }
    requires apart { (c : ℕ) → AreApart truths.now events.now ranks.now c }
    ensures { IfOk result (AreLines truths.now events.now places.now ranks.now) }
{
    let mut orders = List::new(alloc);
    for cell in 0..cells(events) {
        orders.push(order(alloc, truths, events, places, ranks, cell)?)?;
    }
    Ok(orders)
}
