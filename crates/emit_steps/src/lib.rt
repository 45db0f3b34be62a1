//! What is emitted of a program, step by step: the locals, the table of numbers, the cells of variables, sections, threads.
//!
//! Each step stands under a guard, a local that is 1 where control is there; where it is 0 the step is not made. Locals are never
//! used again for another purpose, so what is not reached is 0. Local 0 is the argument, 1 the thread's own handle, 2 holds 1, 3
//! holds 0, 4 the number of creates done; the others are new ones. `specs/Emitting`, `specs/Pieces` and `specs/Calling` say form
//! by form what is emitted, as `run_model`'s definitions say what is done: a step there is an emission here.
#![tactic(auto)]

mod cells;
mod emitter;
mod instance;
mod scopes;
mod sections;
mod state;
mod table;

pub use emitter::{ENTRY, MOST, NONE, ONE};
pub use state::{Cell, Emitter, Number, Variable};
pub use table::{Table, shared_of};
