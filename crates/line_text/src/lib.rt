//! Texts that are written and read line by line: their words and numbers, and what it means that a text goes wrong at a line.
//!
//! A kind of text is told by its spellings, a relation between values and bytes. A reader of it is a machine over lines: a start,
//! a step for each line, and a value where the last line was read. `proofs/Reading` has the law that every such reader rests on:
//! where the lines read so far always begin some spelling, and each spelling is read to its value, a text spells at most one
//! value, no spelling is a proper prefix of another, and the reader stops behind the longest run of whole lines with which some
//! spelling begins. The layers above show four facts of their machine and cite it.
#![tactic(auto)]

mod laws;
#[cfg(test)]
mod tests;
mod words;
mod writing;

pub use laws::{cuts_at_first, reads_decimals};
pub use words::{cut, first_word, next_word, number};
pub use writing::{put, put_number};
