//! Tests of bit blasting: each operator on pairs of words, by the values that the clauses give its
//! literals.
#![tactic(auto)]

#[cfg(test)]
mod operators;
#[cfg(test)]
mod valuation;
