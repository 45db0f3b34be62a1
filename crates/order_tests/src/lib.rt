//! Tests of ordering atoms: how many there are, their edges, and how many choices of their truth
//! values the clauses leave.
#![tactic(auto)]

#[cfg(test)]
mod atoms;
