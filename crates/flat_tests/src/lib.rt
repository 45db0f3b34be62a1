//! Tests of unrolling, from C text: an instance of the flat program does on a script what the thread does.
//!
//! A plain interpreter of flat programs stands beside the runs of threads; both are written as text and compared. A table has a
//! row for each program, with runs of it that were worked out by hand, and one function goes through it.
#![tactic(auto)]

#[cfg(test)]
mod agreeing;
#[cfg(test)]
mod flat_runs;
#[cfg(test)]
mod programs;
#[cfg(test)]
mod told;
