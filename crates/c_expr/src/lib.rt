//! The exact parser of expressions. `expr` reads, from a token on, the longest run with which some text of the asked form
//! begins; it gives the run's tree where the run is itself such a text, and else refuses it at the token behind the run.
//!
//! The grammar is a relation between lists of tokens and trees (`specs/Expressions`, over the words of `specs/Words`), with
//! a level for how tightly a text binds and a number of nodes that may lie on one way down. The parser is a machine
//! (`specs/Machine`): a stack of nodes that are not whole yet, and one step for each token. Its invariant: the stack holds
//! the nodes of a text that begins with the tokens read, and what it still wants completes that text within the depth. So
//! what was read is always viable, and since a run never looks ahead, it ends behind the longest viable run.
//!
//! The layer above may use `expr` and its contract, `word_of`, the grammar, and the laws that a list has at most one tree,
//! one longest run and one answer, and that a text before a word that closes it is what is found there.
#![tactic(auto)]

mod form;
mod frame;
mod laws;
mod number;
mod parser;
mod stack;
mod tops;
mod type_words;
mod word;

pub use form::ExprForm;
pub use laws::{
    closer_ends, none_before, one_before, one_parse, one_run, one_tree, parsed_or_refused,
    text_parses, text_starts, types_by_words,
};
pub use parser::expr;
pub use type_words::{first_word, grown, may_grow};
pub use word::{Keyword, TypeName, Word, word_of};
