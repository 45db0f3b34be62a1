//! All actions of an execution with their events.

ghost use Rattle.std.specs.Prelude.{◌≡◌, IfOk};
ghost use Rattle.exec_check.specs.EventActions as specs;

use axiom_model::{Action, Event};
use consistency::ThreadActions;
use dg_base::{List, OutOfMemory};
use std::alloc::Global;

/// An action with its event.
#[derive(Debug, Clone, Copy, Drop)]
pub(crate) struct EventAction {
    /// Whose action it is, and which.
    pub event: Event,
    /// What is done.
    pub action: Action,
}

// The actions of a thread with their events. Want of memory also where there are more than a u32 counts.
fn actions_from(
    alloc: Global,
    handle: u32,
    actions: &[Action],
) -> Result<List<EventAction>, OutOfMemory>
    ensures { IfOk result (λ l. l ≡ specs.actions_from handle 0 actions.now) }
{
    let mut list = List::new(alloc);
    if u32::try_from(actions.len()).is_err() {
        return Err(OutOfMemory);
    }
    let mut index = 0u32;
    for action in actions {
        list.push(EventAction {
            event: Event::At { handle, index },
            action: *action,
        })?;
        index += 1;
    }
    Ok(list)
}

/// All actions with their events, thread by thread. Want of memory also where a thread has more than a u32 counts.
pub(crate) fn event_actions(
    alloc: Global,
    threads: &[ThreadActions],
) -> Result<List<EventAction>, OutOfMemory>
    ensures { IfOk result (λ l. l ≡ specs.event_actions threads.now) }
{
    let mut list = List::new(alloc);
    for thread in threads {
        list.append(actions_from(alloc, thread.handle, thread.actions.as_slice())?)?;
    }
    Ok(list)
}

/// Whether the first event comes before the second: `Initial` before all others, then by handle, then by index.
pub(crate) fn is_below(one: &Event, other: &Event) -> bool
    ensures { result ≡ specs.is_below one.now other.now }
{
    *one < *other
}
