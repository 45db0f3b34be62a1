//! Threads and the actions that create them.

ghost use Rattle.std.specs.Prelude.{◌≡◌};
ghost use Rattle.std.specs.List.{list_any};
ghost use Rattle.exec_check.specs.ThreadTests.{first_not, handle_of};
ghost use Rattle.exec_check.specs.ActionTests as tests;

use crate::event_actions::EventAction;
use axiom_model::{Action, ThreadPart};

// Whether the action creates the thread.
fn creates(thread: &ThreadPart, event_action: &EventAction) -> bool
    ensures { result ≡ tests.creates thread.now event_action.now }
{
    match event_action.action {
        Action::Create {
            handle,
            function,
            arg,
        } => handle == thread.handle && function == thread.function && arg == thread.arg,
        _ => false,
    }
}

// Whether the thread is main, or some action creates it.
fn is_created(event_actions: &[EventAction], thread: &ThreadPart) -> bool
    ensures { result ≡ tests.is_created event_actions.now thread.now }
{
    if thread.handle == 0 {
        return true;
    }
    for event_action in event_actions {
        if creates(thread, event_action) {
            return true;
        }
    }
    false
}

/// The handle of the first thread that is not main and that no action creates.
pub(crate) fn not_created(event_actions: &[EventAction], threads: &[ThreadPart]) -> Option<u32>
    ensures { result ≡ first_not (tests.is_created event_actions.now) handle_of threads.now }
{
    for thread in threads {
        if !is_created(event_actions, thread) {
            return Some(thread.handle);
        }
    }
    None
}

// Whether there is a thread with this handle.
fn has_handle(threads: &[ThreadPart], handle: u32) -> bool
    ensures { result ≡ list_any (tests.has_handle handle) threads.now }
{
    for thread in threads {
        if thread.handle == handle {
            return true;
        }
    }
    false
}

// Whether the thread is there, if the action creates one.
fn has_child(threads: &[ThreadPart], event_action: &EventAction) -> bool
    ensures { result ≡ tests.has_child threads.now event_action.now }
{
    match event_action.action {
        Action::Create { handle, .. } => has_handle(threads, handle),
        _ => true,
    }
}

// The handle of the thread that the action creates.
fn child_of(event_action: &EventAction) -> u32
    ensures { result ≡ tests.child_of event_action.now }
{
    match event_action.action {
        Action::Create { handle, .. } => handle,
        _ => 0,
    }
}

/// The handle of the first created thread that is not there.
pub(crate) fn missing_child(event_actions: &[EventAction], threads: &[ThreadPart]) -> Option<u32>
    ensures { result ≡ first_not (tests.has_child threads.now) tests.child_of event_actions.now }
{
    for event_action in event_actions {
        if !has_child(threads, event_action) {
            return Some(child_of(event_action));
        }
    }
    None
}
