//! Tests of programs without condition variables, on trees made by hand.
#![tactic(auto)]

#[cfg(test)]
mod lowering;
