//! Checks a proof log by its hints: each entry names the clauses of its unit chain (as in LRAT; Cruz-Filipe, Heule, Hunt, Kaufmann
//! and Schneider-Kamp 2017), so that a check looks at these alone, and needs no watched literals.
//!
//! The set of literals that a chain has made true is a `Trail` of one level, which is undone behind each entry. A look at a clause
//! finds it false, or with one literal that it gives, or neither; the first hint that finds the wrong of these is told by its
//! position. Cycle lemmas are checked as in a log without hints (`log_checker`). What right hints are, and that a good hinted log
//! is a good log, is said there.
//!
//! The layers above may use `check_hinted` with its contract: the answer is exact, and each literal of an entry and of a hinted
//! clause is looked at once at most.
#![tactic(auto)]

mod chain;
mod hinted;
mod look;

pub use hinted::check_hinted;
