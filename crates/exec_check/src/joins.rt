//! Joins and the threads for which they wait.

ghost use Rattle.std.specs.Prelude.{◌≡◌};
ghost use Rattle.std.specs.List.{list_any};
ghost use Rattle.exec_check.specs.ThreadTests.{first_not};
ghost use Rattle.exec_check.specs.EventActions.{event_of};
ghost use Rattle.exec_check.specs.ActionTests as tests;

use crate::event_actions::EventAction;
use axiom_model::{Action, Event};
use consistency::ThreadActions;

// Whether there is a thread with this handle that came to its end.
fn has_ended(threads: &[ThreadActions], handle: u32) -> bool
    ensures { result ≡ list_any (tests.has_ended handle) threads.now }
{
    for thread in threads {
        if thread.handle == handle && thread.ended {
            return true;
        }
    }
    false
}

// Whether the action, if it is a Join, waits for a thread other than main that came to its end.
fn joins_ended(threads: &[ThreadActions], event_action: &EventAction) -> bool
    ensures { result ≡ tests.joins_ended threads.now event_action.now }
{
    match event_action.action {
        Action::Join { handle } => handle != 0 && has_ended(threads, handle),
        _ => true,
    }
}

/// The first Join that waits for main, or for no thread that came to its end.
pub(crate) fn bad_join(event_actions: &[EventAction], threads: &[ThreadActions]) -> Option<Event>
    ensures { result ≡ first_not (tests.joins_ended threads.now) event_of event_actions.now }
{
    for event_action in event_actions {
        if !joins_ended(threads, event_action) {
            return Some(event_action.event);
        }
    }
    None
}
