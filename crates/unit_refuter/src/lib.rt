//! Refutes clauses by unit propagation (reverse unit propagation; Goldberg and Novikov 2003).
//!
//! A `Refuter` has a problem's clauses and those that were added behind them, in a store with watched literals, and on level 0 of
//! its trail what follows from them alone, so that a refutation costs what its own propagation costs. It denies a clause by making
//! the negations of its literals true on level 1, and propagates.
//!
//! It is seen as its store, its trail, and the clause that is false by the clauses alone, where one was found: from then on
//! everything is refuted, and no further clause is looked at. `IsReady problem clauses refuter` says that it knows these clauses
//! behind the problem's, and assumes nothing; between `refute` and `restore` it is raised. The layers above may use the calls with
//! their contracts, and what a trail shows of a denied clause (`AreDerived`).
#![tactic(auto)]

mod refuter;

pub use refuter::{Denied, Refuter};
