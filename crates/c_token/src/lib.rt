//! From the bytes of a program to its tokens. `lexer::tokens` gives the list that a text stands for, or the first reason why it
//! has none, and its contract says exactly which: `answer` of `specs/Tokens` is the lexical grammar as one definition.
//!
//! A text is read in four layers, each with a definition of its own. It falls into pieces, each as long as it can be:
//! tokens, blanks, comments and the heads of directives (`specs/Bytes`, `specs/Pieces`). The macros are put in their
//! places, and a directive that isn't supported stays as a token (`specs/Macros`). What says nothing here is left out: from
//! `extern` to its `;`, what stands between the brackets behind `main`, attributes, qualifiers (`specs/Dropping`). What is
//! left is searched for a word that isn't supported, and counted; a few names stand for other tokens (`specs/Tokens`).
//!
//! The invariant: a macro that doubles again and again has more tokens than any memory holds, so no macro is written out. It
//! is kept as uses of earlier macros with its count, and with the brackets that its last uses close and open. One pass from
//! the front (`specs/Skimming`) then knows of each bracket behind `__attribute__` whether it is closed. It passes a macro at
//! once where the macro doesn't end what is left out, or where it was passed before in the same region: then what was kept of it
//! is held once more (`specs/Sieving`, `specs/Tables`, `specs/Searching`, which the proofs tie to the definitions above).
//!
//! The layer above may use `lexer::tokens` with its contract. The types of tokens, and what a number's text is worth, are
//! those of `token_list`.
#![tactic(auto)]

mod bytes;
pub mod lexer;
mod macros;
mod pieces;
mod search;
mod segments;
mod sieve;
mod skim;
mod words;

pub use token_list::{Token, TokenKind, Tokens, is_unsigned, number_value};
