// The word of one term.
ghost use Rattle.std.specs.Prelude.{◌<◌, length, All, IfOk};
ghost use Rattle.bv_term.specs.Values.{IsBehind};
ghost use Rattle.bit_gates.specs.Words.{IsWordOver};
ghost use Rattle.bit_blast.specs.Blasting.{word_at, IsOperatorGate, IsTermWord};

use crate::operators::operator_word;
use bit_gates::{Word, constant_word, input_word};
use bv_term::Term;
use cnf_problem::Gates;
use dg_base::{Op, OutOfMemory};

// The word of a term behind those of the terms before it.
pub(crate) fn term_word(gates: &mut Gates, term: Term, words: &[Word]) -> Result<Word, OutOfMemory>
    requires behind { IsBehind (length words.now) term }
    requires over { All (IsWordOver gates.old.vars) words.now }
    ensures { IfOk result (IsTermWord gates.old gates.new words.now term) }
{
    match term {
        Term::Input => input_word(gates),
        Term::Constant(value) => Ok(constant_word(gates, value)),
        Term::Apply(op, a, b, c) => {
            applied_word(gates, op, a.0 as usize, b.0 as usize, c.0 as usize, words)
        }
    }
}

// The operator's word of three of the words.
fn applied_word(
    gates: &mut Gates,
    op: Op,
    a: usize,
    b: usize,
    c: usize,
    words: &[Word],
) -> Result<Word, OutOfMemory>
    requires first { a < length words.now }
    requires second { b < length words.now }
    requires third { c < length words.now }
    requires over { All (IsWordOver gates.old.vars) words.now }
    ensures { IfOk result (IsOperatorGate gates.old gates.new op (word_at words.now a) (word_at words.now b) (word_at words.now c)) }
{
    operator_word(gates, op, &words[a], &words[b], &words[c])
}
