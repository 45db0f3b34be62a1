//! Inlining and unrolling: from a checked program to a flat one, whose instances run as the program's threads do.
//!
//! A piece of the program is emitted under a guard, a local that is 1 where control is there; where it is 0 none of the
//! piece's steps is made. Each copy of a piece has locals of its own, so what is not reached is 0. `specs/Stating` and
//! `emit_steps`' definitions say form by form what is emitted, as `run_model`'s definitions say what is done: a step there is an
//! emission here. Instances are a queue, first in first out, so that handles rise with their numbers.
//! The layers above use [`unroll`] through `specs/Unrolled` alone.
#![tactic(auto)]

mod calls;
mod declarations;
mod expressions;
mod statements;
mod targets;
mod types;
mod whole;

pub use whole::unroll;
