// Hints: which clauses make up the unit chain of a lemma.
ghost use Rattle.lemma_log.specs.Hinting.{AreHintsFor};

use crate::{Entry, Log};
use dg_base::List;

/// A clause of a unit chain.
#[derive(Clone, Copy, Debug, PartialEq, Eq, Drop)]
pub enum Hint {
    /// A clause of the problem, counted from 1.
    Clause(u32),
    /// The entry with this ticket.
    Ticket(u32),
}

/// An entry with its hints.
#[derive(Debug, Drop)]
pub struct HintedEntry {
    pub entry: Entry,
    pub hints: List<Hint>,
}

/// A log with a list of hints for each entry, which is empty for a cycle lemma.
#[derive(Debug, Drop)]
pub struct HintedLog {
    pub log: Log,
    pub hints: List<List<Hint>>,
    pub ghost matched: { AreHintsFor log.entries hints },
}

/// A log without hints or with them.
#[derive(Debug, Drop)]
pub enum AnyLog {
    Plain(Log),
    Hinted(HintedLog),
}
