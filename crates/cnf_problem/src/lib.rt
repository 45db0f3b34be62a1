//! The problem that a search decides, and what a search may conclude.
//!
//! A problem is a set of clauses beside two graphs, the local and the global one, whose edges hang
//! on literals. The graphs have fixed edges, edges of atoms, which are there where the atom's
//! literal is true, and from-read edges, which two true atoms derive. An assignment is consistent
//! where each clause is true and neither graph has a cycle. This is satisfiability modulo ordering
//! consistency (He, Sun and Fan 2021; Sun, Fan and He 2022).
//!
//! A lemma is a clause that follows from the problem and from earlier lemmas: by reverse unit
//! propagation (Goldberg and Novikov 2003), or because the atoms that it denies close a cycle. The
//! laws say that lemmas are sound, that the empty one refutes the problem, and that what is learnt
//! at a fixpoint of unit propagation is new.
//!
//! `Gates` builds the clauses; it is seen as the number of its variables and the list of its
//! clauses. Its invariant, which each problem inherits: every literal is of a variable from 1 to
//! the number of variables, which is at most 2147483647. A problem's edges, atoms and blocks name
//! only its own nodes, and it has fewer than 4294967296 clauses, nodes and atoms. The layers above
//! may use all of this of every problem, whoever made it, and that a lemma's variables rise.
#![tactic(auto)]

mod clauses;
mod gates;
mod heading;
mod laws;
mod literals;
mod problem;

pub use clauses::Clauses;
pub use gates::Gates;
pub use heading::head;
pub use laws::{
    extensions_compose, fixpoint_has_chains, fixpoint_makes_new, following_is_true,
    follows_from_more, new_is_not_listed, refuted_has_no_assignment,
};
pub use literals::{MAX_VARS, TRUE, negated, positive, var};
pub use problem::{Assignment, Atom, AtomKind, Edge, Graph, Head, Lemma, LemmaKind, Node, Problem};

#[cfg(test)]
mod tests;
