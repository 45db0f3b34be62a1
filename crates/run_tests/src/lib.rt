//! Tests of runs and executions, from C text: what a thread does on a script, and what is told of a candidate under each model.
//!
//! They stand above the crates that they try, so that each of these is proved once. A table has a row for each case, and one
//! function goes through it.
#![tactic(auto)]

#[cfg(test)]
mod candidates;
#[cfg(test)]
mod executions;
#[cfg(test)]
mod runs;
