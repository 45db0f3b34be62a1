//! The checked program that a text is, or the text's first refusal: the lexer, the parser and the checks in a row.
//!
//! `specs/Accepting` puts their definitions together: the text's tokens are one program at most, and that program is well
//! formed for a loop bound; or something goes wrong first, in the tokens, in the grammar or in a rule. An error of a layer is
//! the text's refusal, since each layer reads what the one below it gave for the text.
//!
//! The layer above may use [`read_program`] with its contract, those definitions, and the laws: a text is one program at most,
//! has one checked program and one refusal at most, never both, and not neither; and the names of what is accepted are plain, so that a
//! witness of the program can be read back from its text.
#![tactic(auto)]

mod laws;
mod reading;

pub use laws::{
    accepted_or_refused, names_are_plain, not_neither, one_checked, one_program_of_text,
    one_refusal,
};
pub use reading::read_program;
