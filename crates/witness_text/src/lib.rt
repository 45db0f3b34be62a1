//! The text of a candidate execution, both ways. `print_witness` writes it, `read_witness` reads it back, or tells the line at
//! which the text goes wrong.
//!
//! The text is a function of the candidate (`specs/Witness`); which candidates have one, and what a reader says of a text that
//! spells none, stands in `specs/Spelling`. The reader is a machine over lines (`specs/Machine`) whose state is the candidate as
//! far as it was read, and one function for each kind of line (`specs/Lines`). The invariant: the lines read so far are the first
//! lines of a text, so each accepted run of lines can be completed; and since a step never looks ahead, the reader stops behind
//! the longest such run.
//!
//! The layers above may use both functions with their contracts, these definitions, and the laws: a text spells at most one
//! candidate, and no text is a proper prefix of another.
#![tactic(auto)]

mod laws;
mod lines;
mod printing;
mod reading;
mod text;

pub use laws::{no_proper_prefix, one_candidate};
pub use printing::print_witness;
pub use reading::{WitnessFault, read_witness};
pub use text::{put_event, put_events};
