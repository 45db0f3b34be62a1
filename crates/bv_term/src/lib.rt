//! Terms over 32-bit words: inputs, constants, and operators of older terms (the word level of a bit-vector encoding, as
//! in Kroening and Strichman's *Decision Procedures*).
//!
//! Terms are seen as a list; a term is named by its place in it, and may be an argument of any number of later ones. Its
//! value is a recursion along that list (`specs/Values`): an input has the value that is given for its number, a constant
//! its own, an operator the operator's value of its arguments'. The invariant: each term stands behind its arguments, and
//! each constant fits 32 bits. Terms are only added, so an older term keeps its value.
//!
//! The layers above may use what each term is, that a term made of constants is that constant, and the laws: the value of
//! a term follows from what it is, fits 32 bits where the inputs do, and stays as terms are added.
#![tactic(auto)]

mod laws;
mod term;
mod terms;
#[cfg(test)]
mod tests;

pub use laws::{growth_composes, values_are_words, values_by_terms};
pub use term::{Term, TermId};
pub use terms::Terms;
