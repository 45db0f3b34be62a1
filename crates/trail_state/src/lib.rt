//! The trail of a clause-learning search, and what its parts share.
//!
//! A trail is seen as the list of its literals, oldest first, each decided or forced by a clause
//! with a number; the level is the number of decisions, and `undo_to` keeps the entries of the
//! levels up to one. Beside the list stands how many entries `take_next` handed out. Values, levels
//! and reasons are kept per variable and looked up at once; the unassigned variables are a heap by
//! activity, of which `pick` answers the top with the sign that it had last.
//!
//! Its invariant: each variable is on the trail once at most and is one of the trail's, each slot
//! tells what the list says of its variable, and the heap holds exactly the unassigned variables,
//! so that with the entries they are as many as the variables. `new` alone takes memory.
//!
//! The layers above may use that of every trail (`len` tells it), what it means that clauses force
//! a trail's literals, the lemmas on cuts and values, clauses by number (`Reasons`), short lists of
//! literals (`Lits`) and the sequence of restarts (`luby`).
#![tactic(auto)]

mod entry;
mod heap;
mod lits;
mod reasons;
mod restarts;
mod trail;

pub use lits::Lits;
pub use reasons::{ClauseId, Reason, Reasons};
pub use restarts::luby;
pub use trail::Trail;
