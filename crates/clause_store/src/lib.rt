//! The clauses of a search, and unit propagation by two watched literals (Moskewicz et al. 2001).
//!
//! A `Store` holds the clauses that a search adds to a problem's; the problem's own are shared by
//! reference and never copied. Clauses are numbered, the problem's first. Each clause has two
//! links, and each link watches a literal: it is in that literal's list, and the lists are linked
//! through the links, so that propagation takes no memory.
//!
//! A store is seen as the clauses that were added, its links, and how many clauses propagation has
//! looked at whole. `IsWatching problem store trail` says that the watches fit a trail: each link's
//! literal stands in its clause, and the two of a clause differ; on each lower level, and on the
//! present one as far as the trail was taken, where one of the two is false the other is true. A
//! clause without two different literals is not watched: it came on level 0, and is true there once
//! it was looked at. A clause that propagation has not looked at since it came may be unit or false.
//!
//! The layers above use `Store` alone, and the laws that say what decisions, forced literals and
//! undoing keep. `IsWatching` holds of a new store and an empty trail.
#![tactic(auto)]

mod clause_list;
mod fresh_clauses;
mod laws;
mod links;
mod new_watch;
mod propagate;
mod store;
mod watch_choice;
mod watch_lists;

pub use laws::{watched_is_fixpoint_below, watches_are_kept};
pub use store::Store;
