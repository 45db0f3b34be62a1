//! Tests of the front end, from texts and words: tokens, and trees of expressions, statements and programs; names, types,
//! sections, recursion and limits of whole texts, with the place of each refusal; what is told of a program.
//!
//! They stand above the crates that they try, so that each of these is proved once. A table has a row for each case, and one
//! function goes through it.
#![tactic(auto)]

#[cfg(test)]
mod expressions;
#[cfg(test)]
mod levels;
#[cfg(test)]
mod lexing;
#[cfg(test)]
mod limits;
#[cfg(test)]
mod names;
#[cfg(test)]
mod programs;
#[cfg(test)]
mod refusals;
#[cfg(test)]
mod statements;
#[cfg(test)]
mod types;
#[cfg(test)]
mod words;
