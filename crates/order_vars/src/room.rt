//! Room for the clauses.

ghost use Rattle.std.specs.Prelude.{◌≡◌};

use crate::tie::{Tie, how_tied};
use cnf_problem::Gates;
use dg_base::OutOfMemory;
use memory_models::StaticEvent;

// How many clauses, and how many literals in them.
#[derive(Clone, Copy, Drop)]
struct Room {
    clauses: usize,
    lits: usize,
}

// The room for one link.
fn room_for(tie: Tie) -> Room {
    let (clauses, lits) = match tie {
        Tie::Apart | Tie::Initial => (0, 0),
        Tie::Source => (66, 197),
        Tie::Rival => (5, 12),
        Tie::End => (67, 230),
    };
    Room { clauses, lits }
}

/// Makes room for the clauses of all links, so that they are not copied while they grow. Where the
/// room that is wanted has no number, none is made.
pub(crate) fn reserve(events: &[StaticEvent], gates: &mut Gates) -> Result<(), OutOfMemory>
    ensures { gates.new ≡ gates.old }
{
    // One clause more for each read and join.
    let mut room = Room {
        clauses: events.len(),
        lits: events.len(),
    };
    for (to, second) in events.iter().enumerate() {
        for (from, first) in events.iter().enumerate() {
            let more = room_for(how_tied(first, second, from < to));
            room.clauses = room.clauses.saturating_add(more.clauses);
            room.lits = room.lits.saturating_add(more.lits);
        }
    }
    gates.reserve(room.clauses, room.lits)
}
