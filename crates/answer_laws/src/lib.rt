//! That there always is an answer.
//!
//! `dg_top` says which answers words and files allow (`specs/Answers`), and that at most one of them is a failing thread. The
//! laws here say that some answer is always allowed, where no log is read or kept, so that what is said of every allowed answer is
//! said of something. Their form is this: it is impossible that each case is impossible.
//!
//! Of `replay`: each text spells a candidate or is refused at a line, and a candidate of words that breaks no condition first
//! is a failing execution. Of `verify`: a program fails only where a failing execution of it has a text. And of
//! every accepted text: an execution that a model allows has a text, with its pairs in the order of their readers, if its runs
//! have at most 2^32 actions; all its other numbers have 32 bits.
#![tactic(auto)]

mod laws;

pub use laws::{
    accepted_texts_have_word_constants, allowed_is_spelled, failing_is_spelled,
    some_answer_is_allowed, some_replay_is_allowed, some_verdict_is_allowed,
    unbroken_candidates_fail, unopposed_executions_are_consistent,
    witnesses_are_spelled_or_refused,
};
