// The text of why a candidate is no failing execution.
ghost use Rattle.std.specs.Prelude.{◌≡◌, ◌++◌, OnOk, codes};
ghost use Rattle.c_check.specs.PlainNames.{cell_names};
ghost use Rattle.witness_text.specs.Witness.{event_text, events_text, name_at};
ghost use Rattle.dg_top.specs.RejectText.{reject_text};

use crate::text::put_numbered;
use axiom_model::Event;
use c_check::CellInfo;
use dg_base::OutOfMemory;
use exec_check::Reject;
use line_text::put;
use witness_text::{put_event, put_events};

fn put_at(out: &mut Vec<u8>, name: &[u8], event: Event) -> Result<(), OutOfMemory>
    ensures { OnOk result (out.new.items ≡ out.old.items ++ (name.now ++ event_text event)) }
{
    put(out, name)?;
    put_event(out, event)
}

fn put_cycle(out: &mut Vec<u8>, name: &[u8], events: &[Event]) -> Result<(), OutOfMemory>
    ensures { OnOk result (out.new.items ≡ out.old.items ++ (name.now ++ events_text events.now)) }
{
    put(out, name)?;
    put_events(out, events)
}

// The name of the cell with this number; no bytes where there is none.
fn cell_name(cells: &[CellInfo], number: u32) -> &[u8]
    ensures { result.now ≡ name_at (cell_names cells.now) number }
{
    match cells.get(number as usize) {
        Some(cell) => cell.name.as_slice(),
        None => &[],
    }
}

fn put_order(out: &mut Vec<u8>, cells: &[CellInfo], number: u32) -> Result<(), OutOfMemory>
    ensures { OnOk result (out.new.items ≡ out.old.items ++ (codes "BadOrder " ++ name_at (cell_names cells.now) number)) }
{
    put(out, b"BadOrder ")?;
    put(out, cell_name(cells, number))
}

/// Appends why, and for want of memory nothing.
pub fn put_reject(out: &mut Vec<u8>, cells: &[CellInfo], reject: &Reject) -> Result<(), OutOfMemory>
    ensures { OnOk result (out.new.items ≡ out.old.items ++ reject_text (cell_names cells.now) reject.now) }
{
    match reject {
        Reject::MainMissing => put(out, b"MainMissing"),
        Reject::ThreadTwice(handle) => put_numbered(out, b"ThreadTwice ", *handle),
        Reject::UnknownThread(handle) => put_numbered(out, b"UnknownThread ", *handle),
        Reject::ScriptShort(handle) => put_numbered(out, b"ScriptShort ", *handle),
        Reject::ScriptLong(handle) => put_numbered(out, b"ScriptLong ", *handle),
        Reject::BadRun(handle) => put_numbered(out, b"BadRun ", *handle),
        Reject::NoCreate(handle) => put_numbered(out, b"NoCreate ", *handle),
        Reject::NoThread(handle) => put_numbered(out, b"NoThread ", *handle),
        Reject::BadSource(event) => put_at(out, b"BadSource ", *event),
        Reject::BadOrder(cell) => put_order(out, cells, *cell),
        Reject::BadJoin(event) => put_at(out, b"BadJoin ", *event),
        Reject::LocalCycle(events) => put_cycle(out, b"LocalCycle", events.as_slice()),
        Reject::GlobalCycle(events) => put_cycle(out, b"GlobalCycle", events.as_slice()),
        Reject::BlockCycle(events) => put_cycle(out, b"BlockCycle", events.as_slice()),
        Reject::NotFailing => put(out, b"NotFailing"),
        Reject::OutOfMemory => Ok(()),
    }
}
