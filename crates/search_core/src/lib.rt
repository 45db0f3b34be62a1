//! The search of several workers on one problem as a transition system: what each appends to its
//! log, shares, reads and offers, in any order. There are no threads here and nothing runs; the
//! layers that do run show that each of their atomic steps is an event of this core, or none.
//!
//! A state has for each worker its log, the entries that it shared, and how many shared entries of
//! each other worker it may read; beside them the next ticket, counted from 0, and the verdict. A
//! worker may append only what follows from its own log and from what it may read.
//!
//! The law of the core: each ticket below the next one is in exactly one log; each entry follows
//! from the problem and the entries of lower tickets, so it is true in every consistent assignment;
//! what is read was shared, and what is shared is the worker's own; a verdict is right and stays;
//! and all logs together, by their tickets, are a proof log of lemmas (Goldberg and Novikov 2003).
//! The layers above may use it after any list of events. A worker that has spent its budget is
//! known to have appended as many different lemmas, each new when it was appended.
#![tactic(auto)]

ghost use Rattle.search_core.specs.CoreLaws.{SoundAfterEvents, SoundIsKept, NoOppositeOffers, VerdictStays};
ghost use Rattle.search_core.specs.Spent.{SpentLemmasDiffer};

use cnf_problem::Lemma;
use dg_base::List;

/// An entry of a log. It stands in contracts and in views alone.
#[derive(Drop)]
pub struct Entry {
    /// Its place among the entries of all logs, from 0.
    pub ticket: u32,
    pub lemma: Lemma,
    /// For each worker the number of its shared entries that might be read at the append.
    pub seen: List<u32>,
}

/// The answer of a search.
#[derive(Clone, Copy, Debug, PartialEq, Eq, Drop)]
pub enum Verdict {
    /// No assignment is consistent.
    Safe,
    /// Some assignment is consistent.
    Unsafe,
}

/// The law of the core: what holds after any list of events from the start, and is kept by each
/// kind of event.
pub fn holds_after_any_events()
    ensures sound { SoundAfterEvents }
    ensures kept { SoundIsKept }
    ensures offers { NoOppositeOffers }
    ensures stays { VerdictStays }
{}

/// A worker that used up its budget made as many different lemmas.
pub fn spent_lemmas_differ()
    ensures { SpentLemmasDiffer }
{}
