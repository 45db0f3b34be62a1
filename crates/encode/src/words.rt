//! The literals of terms.

ghost use Rattle.std.specs.Prelude.{◌≡◌};
ghost use Rattle.bit_blast.specs.Blasting.{word_at};
ghost use Rattle.event_graph.specs.Graphs.{guard_lit};
ghost use Rattle.encode.specs.Words.{HasWord};

use bit_gates::Word;
use bv_term::TermId;
use dg_base::Lit;

/// The literals of a term.
pub(crate) fn word(words: &[Word], term: TermId) -> Word
    requires { HasWord words.now term }
    ensures { result ≡ word_at words.now term.0 }
{
    words[term.0 as usize]
}

/// The literal that is true where a guard is 1.
pub(crate) fn guard(words: &[Word], term: TermId) -> Lit
    requires { HasWord words.now term }
    ensures { result ≡ guard_lit words.now term }
{
    words[term.0 as usize][0]
}
