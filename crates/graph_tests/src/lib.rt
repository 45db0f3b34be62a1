//! Tests of event graphs, from C text: the events of small programs, beside tables that were written by hand.
#![tactic(auto)]

#[cfg(test)]
mod programs;
#[cfg(test)]
mod tables;
#[cfg(test)]
mod told;
