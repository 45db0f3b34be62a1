//! Lists of static events, seen at each event and the next.

ghost use Rattle.std.specs.Prelude.{◌≡◌, ◌+◌, ◌<◌, ◌↔◌, IsTrue, length};
ghost use Rattle.memory_models.specs.declared.StaticKind.TheVariants.{Full as full, Initial as initial};
ghost use Rattle.memory_models.specs.Events.{AreStatic};
ghost use Rattle.models_tests.specs.Listed.{Follows, IsPlaced};

use memory_models::{StaticEvent, StaticKind};

/// Whether it is the initial write of a cell.
pub(crate) fn is_initial(event: &StaticEvent) -> bool
    ensures { IsTrue result ↔ (event.now.kind ≡ initial) }
{
    matches!(event.kind, StaticKind::Initial)
}

fn is_full(event: &StaticEvent) -> bool
    ensures { IsTrue result ↔ (event.now.kind ≡ full) }
{
    matches!(event.kind, StaticKind::Full)
}

// Whether an event may stand behind another at a place.
fn follows(place: u32, event: &StaticEvent, next: &StaticEvent) -> bool
    ensures { IsTrue result → Follows place event.now next.now }
{
    let acts = !is_initial(event) && !is_initial(next);
    if place < u32::MAX && next.block == place + 1 {
        (is_initial(event) || !is_initial(next))
            && (!acts || event.instance <= next.instance)
            && (event.block >= place || is_full(event))
    } else {
        acts && next.block == event.block
            && event.instance == next.instance
            && (event.block != place || is_full(event))
    }
}

// Whether the first event is a block of its own.
fn is_first(place: u32, event: &StaticEvent) -> bool
    ensures { IsTrue result → place ≡ 0 → event.now.block ≡ 0 }
{
    place != 0 || event.block == 0
}

// Whether a section that is open at the last event ends with it.
fn is_last(place: u32, event: &StaticEvent) -> bool
    ensures { IsTrue result → event.now.block < place → event.now.kind ≡ full }
{
    event.block >= place || is_full(event)
}

// Whether the event at a place stands rightly there, and before the next.
fn is_placed(events: &[StaticEvent], place: u32) -> bool
    requires { place < length events.now }
    ensures { IsTrue result → IsPlaced events.now place }
{
    let event = events[place as usize];
    if !is_first(place, &event) {
        return false;
    }
    match events.get(place as usize + 1) {
        Some(next) => follows(place, &event, next),
        None => is_last(place, &event),
    }
}

/// Whether the events are static ones, as `static_edges` and `order_vars` want them: their
/// conditions, seen at each event and the next.
pub fn are_static(events: &[StaticEvent]) -> bool
    ensures { IsTrue result → AreStatic events.now }
{
    let Ok(count) = u32::try_from(events.len()) else {
        return false;
    };
    for place in 0..count {
        if !is_placed(events, place) {
            return false;
        }
    }
    true
}
