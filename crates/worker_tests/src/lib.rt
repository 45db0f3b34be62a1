//! Tests of whole workers, in a crate of their own so that `cdcl_worker` and `verdict_run` are proved
//! once: one worker alone, one that works behind another, and several in threads. Their problems
//! are small, and what has to stand in a log is known by hand.
#![tactic(auto)]

#[cfg(test)]
mod alone;
#[cfg(test)]
mod in_turn;
#[cfg(test)]
mod problems;
#[cfg(test)]
mod searching;
#[cfg(test)]
mod together;
