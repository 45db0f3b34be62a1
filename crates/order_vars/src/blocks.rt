//! The nodes of events: where their blocks begin and end.

ghost use Rattle.std.specs.Prelude.{◌≡◌, ◌<◌, length, IfOk, ℕ, slice_index};
ghost use Rattle.memory_models.specs.Events.{AreStatic};
ghost use Rattle.order_vars.specs.Atoms.{nodes_of, last_in};

use cnf_problem::Node;
use dg_base::{List, OutOfMemory};
use memory_models::StaticEvent;
use std::alloc::Global;

// Each block's last event, at the place of its first. At other places it means nothing.
fn lasts(alloc: Global, events: &[StaticEvent]) -> Result<List<u32>, OutOfMemory>
    requires { AreStatic events.now }
    ensures count { IfOk result (λ ls. length ls ≡ length events.now) }
    ensures last { IfOk result (λ ls. (b : ℕ) → b < length events.now → slice_index ls b ≡ last_in b b 0 events.now) }
{
    let Ok(count) = u32::try_from(events.len()) else {
        return Err(OutOfMemory);
    };
    let mut lasts = List::new(alloc);
    for place in 0..count {
        lasts.push(place)?;
        let block = events[place as usize].block as usize;
        lasts.set(block, place);
    }
    Ok(lasts)
}

/// The nodes of events: a section is entered at its first event and left at its last.
///
/// # Errors
/// Want of memory, which more than 4294967295 events are.
pub fn nodes(alloc: Global, events: &[StaticEvent]) -> Result<List<Node>, OutOfMemory>
    requires { AreStatic events.now }
    ensures { IfOk result (λ ns. ns ≡ nodes_of events.now) }
{
    let ends = lasts(alloc, events)?;
    let ends = ends.as_slice();
    let mut nodes = List::new(alloc);
    for event in events {
        nodes.push(Node {
            block: event.block,
            first: event.block,
            last: ends[event.block as usize],
        })?;
    }
    Ok(nodes)
}
