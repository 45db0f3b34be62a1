//! Terms over 32-bit words as literals: 32 literals for each term, the least bit first (bit blasting, as in Kroening and Strichman's
//! *Decision Procedures*). In each assignment of the clauses they spell the term's value, and whatever values the inputs have, some
//! assignment gives them.
#![tactic(auto)]

ghost use Rattle.std.specs.Prelude.{IfOk};
ghost use Rattle.bit_blast.specs.Blasting.{Blasts};

mod operators;
mod signed;
mod term_words;
mod truths;

use crate::term_words::term_word;
use bit_gates::Word;
use bv_term::Terms;
use cnf_problem::Gates;
use dg_base::{List, OutOfMemory};
use std::alloc::Global;

/// For each term, by its number, 32 literals, the least bit first.
#[derive(Debug, Drop)]
pub struct Bits {
    pub words: List<Word>,
}

/// Puts gates for all terms. After a refusal the gates are only good to be dropped.
pub fn blast(alloc: Global, terms: &Terms, gates: &mut Gates) -> Result<Bits, OutOfMemory>
    ensures { IfOk result (λ b. Blasts gates.old gates.new terms.now b.words) }
{
    let mut words = List::new(alloc);
    let list = terms.as_slice();
    for term in list {
        let word = term_word(gates, *term, words.as_slice())?;
        words.push(word)?;
    }
    Ok(Bits { words })
}
