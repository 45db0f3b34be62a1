//! What every crate speaks of: places in a text, refusals, literals, lists, the operators on words
//! of 32 bits, steps that a contract can bound, want of memory, the words of the command line, and
//! the outside.
//!
//! The outside is met through two traits alone. `Desk` is files and standard output: its contracts
//! name the files, the printed bytes and the faults of the desk that was handed in, where it tells
//! them, so that what a program answers for its files is proved over any desk. `HostDesk` is the
//! machine's and tells none of its content, `MemDesk` fails at the calls it was given, and
//! `HonestDesk` never fails. `Gate` is passed by each worker before its first step.
//!
//! An operator takes and gives words of 32 bits; where `int` and `unsigned` differ there are two
//! operators, and an `int` is read in two's complement. `value_of` in specs/Values is their table.
//! Of lists, proofs/Lists holds the facts that std lacks.
#![tactic(auto)]

mod faults;
mod gate;
mod honest_desk;
mod host_desk;
mod mem_desk;
mod operators;
mod outside;
mod refusal;
mod steps;
#[cfg(test)]
mod tests;
mod want;
mod words;

pub use gate::{Gate, OpenGate};
pub use honest_desk::HonestDesk;
pub use host_desk::HostDesk;
pub use mem_desk::MemDesk;
pub use operators::{Op, apply};
pub use outside::{Desk, FileEntry, LONGEST_FILE, Operation, Trouble};
pub use refusal::{LimitKind, Refusal};
pub use steps::Steps;
pub use want::OutOfMemory;
pub use words::Words;

/// A list, which contracts see as the list of its items.
pub use sqlite_items::Items as List;

/// A list of bytes.
pub type Bytes = List<u8>;

/// A place in a text: line and column, both from 1. The column is counted in bytes, and a line feed
/// ends a line.
#[derive(Debug, Clone, Copy, PartialEq, Eq, Drop)]
pub struct Place {
    pub line: u32,
    pub col: u32,
}

/// A literal: two times its variable, plus 1 where it is negated. Variables count from 1.
#[derive(Debug, Clone, Copy, PartialEq, Eq, Default, Drop)]
pub struct Lit(pub u32);
