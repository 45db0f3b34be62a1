//! The run of one thread on a script of numbers: which actions it makes, how it ends, and how much of the script it used.
//!
//! A script stands for all that a thread does not decide itself: the values of its reads, the choices of nondeterministic
//! calls, and at each section and join whether it goes on. The model is a recursion on the tree that reads like the table
//! of the language: the meaning of a form is made from the meanings of its parts, as steps on a state (`specs/Steps`) one
//! after the other. Values are kept in cells (`specs/Cells`); expressions, built-in calls and statements have their meaning
//! in `specs/Meaning`, `specs/Calls` and `specs/Statements`; `specs/Threads` has the run of a thread (`thread_run`), a run
//! for which the script is too short (`short_run`), and the candidates that fail an assertion (`ProgramFails`).
//! [`run_thread`] computes `thread_run`. The layers above may use it, those definitions and the laws.
#![tactic(auto)]

mod calls;
mod cells;
mod declarations;
mod expressions;
mod laws;
mod operators;
mod sections;
mod state;
mod statements;
mod table;
mod thread;
mod types;

pub use laws::{calls_have_fuel, creates_are_numbered, runs_depend_on_what_they_used};
pub use operators::{step_op, unary_op, unary_unsigned, word_unsigned};
pub use state::{Ending, Need};
pub use table::{cell_count, count_functions};
pub use thread::{RunStop, ThreadRun, run_thread};
