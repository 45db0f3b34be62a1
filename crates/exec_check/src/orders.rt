//! The order of the writes of each cell.

ghost use Rattle.std.specs.Prelude.{◌≡◌};
ghost use Rattle.std.specs.List.{list_any, list_all};
ghost use Rattle.exec_check.specs.ActionTests as tests;

use crate::event_actions::EventAction;
use axiom_model::{Action, Event};
use consistency::same_event;
use dg_base::List;

// Whether the list has the event.
fn has_event(events: &[Event], event: &Event) -> bool
    ensures { result ≡ tests.has_event events.now event.now }
{
    for other in events {
        if same_event(event, other) {
            return true;
        }
    }
    false
}

// Whether no event stands in the list twice.
fn no_repeats(events: &[Event]) -> bool
    ensures { result ≡ tests.no_repeats events.now }
{
    let mut number = 0usize;
    for event in events {
        number += 1;
        let (_, later) = events.split_at(number);
        if has_event(later, event) {
            return false;
        }
    }
    true
}

// Whether the action writes the cell.
fn writes_cell(cell: usize, action: &Action) -> bool
    ensures { result ≡ tests.writes_cell cell action.now }
{
    match *action {
        Action::Write { cell: c, .. } => c as usize == cell,
        _ => false,
    }
}

// Whether some action at the event writes the cell.
fn is_write(event_actions: &[EventAction], cell: usize, event: &Event) -> bool
    ensures { result ≡ tests.is_write event_actions.now cell event.now }
{
    for event_action in event_actions {
        if same_event(&event_action.event, event) && writes_cell(cell, &event_action.action) {
            return true;
        }
    }
    false
}

// Whether each event of the list is a write of the cell.
fn are_writes(event_actions: &[EventAction], cell: usize, events: &[Event]) -> bool
    ensures { result ≡ list_all (tests.is_write event_actions.now cell) events.now }
{
    for event in events {
        if !is_write(event_actions, cell, event) {
            return false;
        }
    }
    true
}

// Whether the list has each write of the cell.
fn are_listed(cell: usize, events: &[Event], event_actions: &[EventAction]) -> bool
    ensures { result ≡ list_all (tests.is_listed cell events.now) event_actions.now }
{
    for event_action in event_actions {
        if writes_cell(cell, &event_action.action) && !has_event(events, &event_action.event) {
            return false;
        }
    }
    true
}

// Whether the list is the initial write, then the cell's writes, each once.
fn orders_cell(event_actions: &[EventAction], cell: usize, events: &[Event]) -> bool
    ensures { result ≡ tests.orders_cell event_actions.now cell events.now }
{
    match events.split_first() {
        None => false,
        Some((first, writes)) => {
            same_event(&Event::Initial, first)
                && no_repeats(writes)
                && are_writes(event_actions, cell, writes)
                && are_listed(cell, writes, event_actions)
        }
    }
}

/// The first cell without its order of writes, or the number of cells where there are more lists.
pub(crate) fn first_bad_order(
    event_actions: &[EventAction],
    cells: usize,
    co: &[List<Event>],
) -> Option<usize>
    ensures { result ≡ tests.bad_order_from event_actions.now cells 0 co.now }
{
    let mut cell = 0usize;
    for list in co {
        if cell >= cells || !orders_cell(event_actions, cell, list.as_slice()) {
            return Some(cell);
        }
        cell += 1;
    }
    if cell < cells { Some(cell) } else { None }
}
