//! Made programs to try the tool on: copies of store buffering, as many as a number says, in one program. The two threads of a
//! copy each write one variable and then read the other, and main asserts that not both read 0: sequential consistency excludes
//! it, a store buffer allows it.
//!
//! The text is a function of the number (`specs/Made`). The layers above may use that, and when a number is refused.
#![tactic(auto)]

mod lines;
mod making;
#[cfg(test)]
mod tests;

pub use making::{MOST_COPIES, MakeFault, make_program, try_make_program};
