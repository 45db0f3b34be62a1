// Parts of texts, appended to a buffer.
ghost use Rattle.std.specs.Prelude.{◌≡◌, ◌++◌, OnOk};
ghost use Rattle.std.specs.List.{AllByRecursion};
ghost use Rattle.witness_text.specs.Spelling.{HasEventNumbers};
ghost use Rattle.witness_text.specs.Witness.{event_text, events_text};

use axiom_model::Event;
use dg_base::OutOfMemory;
use line_text::{put, put_number};

/// Appends `init` or `H.I`.
pub fn put_event(out: &mut Vec<u8>, event: Event) -> Result<(), OutOfMemory>
    ensures text { OnOk result (out.new.items ≡ out.old.items ++ event_text event) }
    ensures numbers { HasEventNumbers event }
{
    match event {
        Event::Initial => put(out, b"init"),
        Event::At { handle, index } => {
            put_number(out, handle)?;
            put(out, b".")?;
            put_number(out, index)
        }
    }
}

/// Appends the events, each behind one blank.
pub fn put_events(out: &mut Vec<u8>, events: &[Event]) -> Result<(), OutOfMemory>
    ensures text { OnOk result (out.new.items ≡ out.old.items ++ events_text events.now) }
    ensures numbers { OnOk result (AllByRecursion HasEventNumbers events.now) }
{
    for event in events {
        put(out, b" ")?;
        put_event(out, *event)?;
    }
    Ok(())
}
