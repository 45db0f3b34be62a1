//! The log of one worker of a search: the lemmas that it appended through its seat at the exchange,
//! and how many entries it read of each other worker's row.
//!
//! A log is seen as its number, its entries and the numbers of its readings. Its invariant, with the
//! view of the seat: the entries are the log that the exchange keeps of the number; each entry was
//! shared, or is too long, or found no room in the row; no two shared ones have the same ticket; and
//! each was new over all that the number knew when it appended it, unless it is empty (a lemma is
//! new where unit propagation does not show it). It holds after each call, on an error too: the
//! place of an entry is reserved before its ticket is drawn.
//!
//! The layers above append with `note` what follows and is new, and call `heed`, which looks at all
//! other rows and reads what they have, within each 1024 entries. They may use that what the number
//! knows grows by just the lemma that is noted, or by just the clauses that are heard.
#![tactic(auto)]

mod laws;
mod lemmas;
mod log;
#[cfg(test)]
mod tests;

pub use laws::spent_is_shown;
pub use lemmas::lemma_of;
pub use log::WorkerLog;
