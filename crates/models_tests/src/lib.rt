//! Tests of what the models keep: edges between static events against the kept order, pair by pair,
//! by hand and over all short lists.
#![tactic(auto)]

#[cfg(test)]
mod kept_order;
pub mod listed;
