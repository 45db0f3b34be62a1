//! The tokens of a program, and what the text of a number is worth. The lexer makes them, and the parsers read them: they
//! stand below both, so that neither stands on the other.
//!
//! A token keeps its kind, its place and its bytes. A number's text says its value and whether it is unsigned, by its
//! digits, its prefix and its suffix (`specs/Numbers`). Nothing is kept of a number but its text, so each layer that wants
//! the value reads it by `number_value` and `is_unsigned`.
#![tactic(auto)]

mod numbers;

use dg_base::{Bytes, List, Place};
pub use numbers::{is_supported_number, is_unsigned, number_value};

/// What a token is.
#[derive(Debug, Clone, Copy, PartialEq, Eq, Drop)]
pub enum TokenKind {
    /// A letter or `_`, and letters, digits and `_` behind it.
    Name,
    /// A digit, and letters, digits, `_` and `.` behind it.
    Number,
    /// A text between quotes.
    Text,
    /// An operator, a bracket or a separator.
    Mark,
}

/// A token.
#[derive(Debug, Drop)]
pub struct Token {
    /// What it is.
    pub kind: TokenKind,
    /// Where it begins; where a macro gave it, where the macro's name begins.
    pub place: Place,
    /// Its bytes, the quotes of a text among them.
    pub text: Bytes,
}

/// The tokens of a text.
#[derive(Debug, Drop)]
pub struct Tokens {
    /// The tokens in their order.
    pub list: List<Token>,
    /// The place behind the text.
    pub end: Place,
}
