//! One worker of a search: conflict-driven clause learning with the theory of orders (Marques-Silva
//! and Sakallah 1999; Moskewicz et al. 2001), beside other workers at an exchange.
//!
//! A worker is seen as its trail, its clauses, its orders and its log. Its invariant between two
//! steps (`IsSearching`): the clauses that it added to the problem's are what its number knows, its
//! own lemmas and those that it read; each literal that has a reason is forced by it; the watches fit
//! the trail, so that each lower level is a fixpoint of unit propagation; and the orders have a
//! beginning of the trail. So each clause that the worker learns is new over what it knows.
//!
//! `work` ends with the empty clause in the log, a consistent assignment, the whole budget spent on
//! new lemmas, another worker's verdict, or want of memory. The layers above may use what
//! `IsOutcome` says of each, and in each case that the log is the number's log in the exchange.
#![tactic(auto)]

mod assignment;
mod conflicts;
mod deciding;
mod known;
mod pace;
mod search;
mod worker;

pub use worker::{Outcome, Worker};
