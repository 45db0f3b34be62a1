//! Reads and the writes whose values they take.

ghost use Rattle.std.specs.Prelude.{◌≡◌, slice_get};
ghost use Rattle.std.specs.List.{list_any};
ghost use Rattle.exec_check.specs.ThreadTests.{first_not, passing};
ghost use Rattle.exec_check.specs.EventActions.{event_of};
ghost use Rattle.exec_check.specs.ActionTests as tests;

use crate::event_actions::{EventAction, is_below};
use axiom_model::{Action, Event, RfPair};
use c_check::CellInfo;
use consistency::same_event;

// Whether the action writes the value to the cell.
fn is_write_of(cell: u32, value: u32, action: &Action) -> bool
    ensures { result ≡ tests.is_write_of cell value action.now }
{
    match *action {
        Action::Write { cell: c, value: v } => c == cell && v == value,
        _ => false,
    }
}

// Whether some action at the event writes the value to the cell.
fn writes_at(event_actions: &[EventAction], event: &Event, cell: u32, value: u32) -> bool
    ensures { result ≡ list_any (tests.writes_at event.now cell value) event_actions.now }
{
    for event_action in event_actions {
        if same_event(&event_action.event, event)
            && is_write_of(cell, value, &event_action.action)
        {
            return true;
        }
    }
    false
}

// Whether the cell begins with the value.
fn begins_as(cells: &[CellInfo], cell: u32, value: u32) -> bool
    ensures { result ≡ tests.begins_as (slice_get cells.now cell) value }
{
    match cells.get(cell as usize) {
        Some(info) => info.initial == value,
        None => false,
    }
}

// Whether the event writes the value to the cell.
fn is_source(
    cells: &[CellInfo],
    event_actions: &[EventAction],
    cell: u32,
    value: u32,
    event: &Event,
) -> bool
    ensures { result ≡ tests.is_source cells.now event_actions.now cell value event.now }
{
    match *event {
        Event::Initial => begins_as(cells, cell, value),
        Event::At { .. } => writes_at(event_actions, event, cell, value),
    }
}

// How many pairs have this reader.
fn pairs_of(event: &Event, rf: &[RfPair]) -> usize
    ensures { result ≡ passing (tests.reads_at event.now) rf.now }
{
    let mut pairs = 0usize;
    for pair in rf {
        if same_event(&pair.reader, event) {
            pairs += 1;
        }
    }
    pairs
}

// Whether some pair has this reader and a source that writes the value to the cell.
fn is_given(
    cells: &[CellInfo],
    event_actions: &[EventAction],
    event: &Event,
    cell: u32,
    value: u32,
    rf: &[RfPair],
) -> bool
    ensures { result ≡ list_any (tests.gives cells.now event_actions.now event.now cell value) rf.now }
{
    for pair in rf {
        if same_event(&pair.reader, event)
            && is_source(cells, event_actions, cell, value, &pair.source)
        {
            return true;
        }
    }
    false
}

// Whether the action, if it is a read, has exactly one pair, and its source writes the value to the cell.
fn has_source(
    cells: &[CellInfo],
    event_actions: &[EventAction],
    rf: &[RfPair],
    event_action: &EventAction,
) -> bool
    ensures { result ≡ tests.has_source cells.now event_actions.now rf.now event_action.now }
{
    let event = &event_action.event;
    match event_action.action {
        Action::Read { cell, value } => {
            pairs_of(event, rf) == 1 && is_given(cells, event_actions, event, cell, value, rf)
        }
        _ => true,
    }
}

// The first read that does not have its one source.
fn without_source(cells: &[CellInfo], event_actions: &[EventAction], rf: &[RfPair]) -> Option<Event>
    ensures { result ≡ first_not (tests.has_source cells.now event_actions.now rf.now) event_of event_actions.now }
{
    for event_action in event_actions {
        if !has_source(cells, event_actions, rf, event_action) {
            return Some(event_action.event);
        }
    }
    None
}

// Whether the action is a read.
fn is_read(action: &Action) -> bool
    ensures { result ≡ tests.is_read action.now }
{
    match *action {
        Action::Read { .. } => true,
        _ => false,
    }
}

// Whether some action at the event is a read.
fn is_read_at(event_actions: &[EventAction], event: &Event) -> bool
    ensures { result ≡ list_any (tests.is_read_at event.now) event_actions.now }
{
    for event_action in event_actions {
        if same_event(&event_action.event, event) && is_read(&event_action.action) {
            return true;
        }
    }
    false
}

// The lesser of two events, of which the first may be missing.
fn lesser(least: Option<Event>, event: Event) -> Event
    ensures { result ≡ tests.lesser least event }
{
    match least {
        None => event,
        Some(other) => if is_below(&event, &other) {
            event
        } else {
            other
        },
    }
}

// The least of an event and the readers that are no reads.
fn least_unread(event_actions: &[EventAction], first: Option<Event>, rf: &[RfPair]) -> Option<Event>
    ensures { result ≡ tests.least_unread event_actions.now first rf.now }
{
    let mut least = first;
    for pair in rf {
        if !is_read_at(event_actions, &pair.reader) {
            least = Some(lesser(least, pair.reader));
        }
    }
    least
}

/// The first event that is a read without its one source, or the reader of a pair and no read.
pub(crate) fn bad_source(
    cells: &[CellInfo],
    event_actions: &[EventAction],
    rf: &[RfPair],
) -> Option<Event>
    ensures { result ≡ tests.least_unread event_actions.now (first_not (tests.has_source cells.now event_actions.now rf.now) event_of event_actions.now) rf.now }
{
    least_unread(event_actions, without_source(cells, event_actions, rf), rf)
}
