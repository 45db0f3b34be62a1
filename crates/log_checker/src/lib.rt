//! Checks a proof log: whether each entry follows from the problem and the entries before it, and the last one is the empty clause.
//! Where it isn't so, the first entry that fails is told, with evidence.
//!
//! A lemma by unit propagation is denied and propagated (`unit_refuter`), so that an entry costs what its own propagation costs.
//! Where propagation comes to rest, the trail is the evidence. A cycle lemma is checked by sorting both graphs where the atoms hold
//! that it denies; an index by literals finds these, and the orders are the evidence. What right hints are (as in LRAT) is defined
//! here too; the crates above check them and make them.
//!
//! A `Checker` is seen as what it has taken: its invariant is that these entries are a good log of its problem, and that the
//! refuter knows their clauses and assumes nothing. `check_log` is that checker over a whole log. The layers above may use the
//! calls with their contracts, among them `bad_number` and `AtomsByLit`, by which an entry's variables and a cycle lemma are checked,
//! and the laws: the evidence suffices, and a good hinted log is a good log.
#![tactic(auto)]

mod checker;
mod denied;
mod edge_list;
mod laws;
mod numbers;
mod refused;

pub use checker::{Accepted, Checker, check_log};
pub use denied::{AtomsByLit, Orders};
pub use laws::{evidence_suffices, hints_are_chains};
pub use numbers::bad_number;
pub use refused::Refused;
