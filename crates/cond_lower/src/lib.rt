//! Programs without condition variables: the tree of a program with them becomes one with two shared variables in the place of
//! each, and with calls of small functions that are sections in the place of the calls on them.
//!
//! `specs/Nodes` and `specs/Rule` say where a condition variable may stand, and which place breaks that first;
//! `specs/Lowering` says what the tree becomes. What a run of the program with condition variables is, and that it is the run of
//! this tree, stands in `cond_runs`.
#![tactic(auto)]

mod arguments;
mod calls;
mod expressions;
mod fault;
mod names;
mod node;
mod notes;
mod program;
mod rule;
mod sections;
mod trees;

pub use calls::CondCall;
pub use fault::{CondFault, Wakeups};
pub use node::Node;
pub use program::lower;
