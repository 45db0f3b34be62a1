//! The runs of programs with condition variables.
//!
//! `specs/Rows` says what the calls on condition variables do: a run is that of `run_model` over a setting in which these calls
//! have a meaning, and in which a condition variable has two shared cells where waits go on by signals alone. The laws say that the
//! lowered program has the same cells and functions (`specs/Cells`), and that a call of each section that it has is seen as the row
//! of the call on a condition variable is, and that so is what each such call becomes (`specs/Sections`).
#![tactic(auto)]

mod laws;

pub use laws::{calls_are_rows, cells_are_alike, sections_are_rows};
