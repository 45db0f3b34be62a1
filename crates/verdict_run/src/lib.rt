//! The verdict of several workers that search one problem, each in a thread of its own.
//!
//! The seats of all workers are split off one exchange before any of them starts, and joined again
//! when all have ended: the words of the exchange and what the joined seat saw then show a state of
//! the core of the search, and the verdict that stands. So the answer rests on what each worker
//! ensures of its own log and number alone, whatever the interleaving of their steps.
//!
//! A refutation is the log of all workers, by their tickets, up to its first empty clause: each
//! entry follows from the problem and those before it. A model is that of the least worker that has
//! one. Without a verdict every worker has used up its budget on new lemmas; the answer is then the
//! log of all workers and the numbers of each.
#![tactic(auto)]

mod answers;
mod decision;
mod jobs;
#[cfg(test)]
mod tests;

pub use decision::{Decision, Report, decide};
