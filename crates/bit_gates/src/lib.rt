//! Words of 32 literals, the least bit first, and the gates that compute on them.
#![tactic(auto)]

mod adder;
mod bits;
mod choice;
mod compare;
mod product;
mod quotient;
mod shift;
mod words;

pub use adder::{add, negate, subtract};
pub use bits::{BitKind, bitwise};
pub use choice::{any, choose_word};
pub use compare::{equal, less};
use dg_base::Lit;
pub use product::multiply;
pub use quotient::{Division, divide};
pub use shift::{shift_left, shift_right};
pub use words::{constant_word, flag, input_word, inverted};

/// 32 literals that spell a number, the least bit first.
pub type Word = [Lit; 32];
