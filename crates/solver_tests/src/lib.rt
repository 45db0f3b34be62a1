//! Tests of the theory of orders: the kept order, the graphs with their causes, the solver on problems
//! from tables, and its answers on random problems against plain searches.
#![tactic(auto)]

pub mod given;
#[cfg(test)]
mod graphs;
pub mod pair;
#[cfg(test)]
mod random;
#[cfg(test)]
mod rows;
#[cfg(test)]
mod searching;
