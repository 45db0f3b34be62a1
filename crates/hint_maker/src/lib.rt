//! Makes the hints of a proof log: which clauses make up the unit chain of each lemma (as in LRAT; Cruz-Filipe, Heule, Hunt,
//! Kaufmann and Schneider-Kamp 2017).
//!
//! Each lemma is denied and propagated (`unit_refuter`). Then the chain is read off the trail, back from the clause that is false:
//! this clause needs the literals that make its own false, and each needed literal, from the youngest to the oldest, puts its reason
//! in front of the hints and needs what that reason needs. Where a literal of the lemma itself is true by the other clauses, the
//! chain ends at the oldest such literal: its reason is false once the lemma is denied.
//!
//! The layers above may use `add_hints` with its contract: the hints are right, no more than one for each variable and one more,
//! and each literal that a hint makes true is needed by a later one (`AreLean`).
#![tactic(auto)]

mod adding;
mod chain;
mod ends;
mod listed;

pub use adding::add_hints;
