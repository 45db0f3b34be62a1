//! Tests of proof logs as texts: texts by hand, both ways, in pieces, and the lines at which texts go wrong.
#![tactic(auto)]

#[cfg(test)]
mod faults;
#[cfg(test)]
mod pieces;
#[cfg(test)]
mod texts;
