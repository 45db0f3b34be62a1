ghost use Rattle.std.specs.Prelude.{◌≡◌, ◌<◌};
ghost use Rattle.clause_exchange.specs.Rule.{verdict_of};
ghost use Rattle.clause_exchange.specs.Steps.{code_of};

use search_core::Verdict;

/// The verdict of a word: 0 is none.
pub(crate) fn verdict_in(word: u64) -> Option<Verdict>
    requires { word < 3 }
    ensures { result ≡ verdict_of word }
{
    match word {
        0 => None,
        1 => Some(Verdict::Safe),
        _ => Some(Verdict::Unsafe),
    }
}

/// The word of a verdict.
pub(crate) fn verdict_code(verdict: Verdict) -> u64
    ensures { result ≡ code_of verdict }
{
    match verdict {
        Verdict::Safe => 1,
        Verdict::Unsafe => 2,
    }
}
