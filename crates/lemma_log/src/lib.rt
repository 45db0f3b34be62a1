//! Entries of a proof log, and the log: the lemmas of a search in the order of their tickets, alone or with hints.
//!
//! A log is seen as the list of its entries. Its invariant: the tickets are 0, 1, 2 and so on. The
//! layers above may use that an entry's place in the log is its ticket, and that `merge` has each
//! entry of the logs that it puts together once, and no others. A hinted log has for each entry the
//! clauses of its unit chain (hinted reverse unit propagation, as in LRAT; Cruz-Filipe, Heule, Hunt,
//! Kaufmann and Schneider-Kamp, 2017), and none for a cycle lemma.
#![tactic(auto)]

ghost use Rattle.lemma_log.specs.Tickets.{AreInOrder};

use cnf_problem::Lemma;
use dg_base::List;

mod hints;
mod merging;

pub use hints::{AnyLog, Hint, HintedEntry, HintedLog};
pub use merging::merge;

/// A lemma that a worker appended.
#[derive(Debug, Drop)]
pub struct Entry {
    /// Its place among the entries of all workers, from 0.
    pub ticket: u32,
    /// The number of the worker that appended it, from 0.
    pub worker: u32,
    pub lemma: Lemma,
}

/// The entries of all workers, by their tickets.
#[derive(Debug, Drop)]
pub struct Log {
    pub entries: List<Entry>,
    pub ghost in_order: { AreInOrder entries },
}
