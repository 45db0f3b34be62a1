//! Which event of the candidate each node is.

ghost use Rattle.std.specs.Prelude.{◌≡◌, ℕ, ◌<◌, ◌-◌, ◌^◌, true, length, slice_index, IfOk};
ghost use Rattle.event_graph.specs.Laws.{is_initial as is_first};
ghost use Rattle.decode.specs.Tables.{acts, place_by, indices_behind, AreNumbered, ArePlaces};

use crate::values::truth;
use axiom_model::Event;
use dg_base::{List, OutOfMemory};
use memory_models::{StaticEvent, StaticKind};
use std::alloc::Global;

// Whether the event is the initial write of a cell.
fn is_initial(kind: StaticKind) -> bool
    ensures { result ≡ is_first kind }
{
    matches!(kind, StaticKind::Initial)
}

// The event of a node, where it happens: an action takes the next index of its instance.
fn next_event(
    truths: &[bool],
    event: &StaticEvent,
    handles: &[Option<u32>],
    indices: &mut List<u32>,
) -> Event
    requires numbered { acts truths.now event.now ≡ true → event.now.instance < length handles.now }
    requires same { length indices.old ≡ length handles.now }
    requires room { (i : ℕ) → i < length indices.old → slice_index indices.old i < 2 ^ 32 - 1 }
    ensures event { result ≡ place_by truths.now event.now handles.now indices.old }
    ensures indices { indices.new ≡ indices_behind truths.now event.now indices.old }
{
    if is_initial(event.kind) || !truth(truths, event.guard) {
        return Event::Initial;
    }
    let instance = event.instance as usize;
    let index = indices.as_slice()[instance];
    indices.set(instance, index + 1);
    let handle = handles[instance].unwrap_or(0);
    Event::At { handle, index }
}

/// For each node its event: an action's index counts the earlier ones of its instance that happen. At a node that does not happen it
/// means nothing.
pub(crate) fn places(
    alloc: Global,
    truths: &[bool],
    events: &[StaticEvent],
    handles: &[Option<u32>],
) -> Result<List<Event>, OutOfMemory>
    requires { AreNumbered truths.now events.now (length handles.now) }
    ensures { IfOk result (ArePlaces truths.now events.now handles.now) }
{
    let Ok(count) = u32::try_from(events.len()) else {
        return Err(OutOfMemory);
    };
    let mut indices = List::from_vec(vec![in alloc; 0u32; handles.len()]?);
    let mut places = List::new(alloc);
    for place in 0..count {
        let event = next_event(truths, &events[place as usize], handles, &mut indices);
        places.push(event)?;
    }
    Ok(places)
}
