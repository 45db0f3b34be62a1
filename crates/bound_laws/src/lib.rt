//! What a verdict says of larger bounds on loops.
//!
//! `full_bound` has the law of checked programs whose numbers are words. The laws here are of texts and answers: the numbers of an
//! accepted text are words, and where spent bounds are told and no execution of it fails for its bound, as where `SAFE` is printed,
//! none fails for a larger bound.
#![tactic(auto)]

mod laws;

pub use laws::{accepted_texts_have_words_only, no_failure_is_covered, safe_is_covered};
