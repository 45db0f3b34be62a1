//! Laws of bounds.

ghost use Rattle.bound_laws.specs.Laws.{AcceptedHasWordsOnly, NoFailureIsCovered, SafeIsCovered, SafeIsOfProgram};

use answer_laws::accepted_texts_have_word_constants;
use c_program::one_checked;
use full_bound::full_bound_suffices;

/// The constants of each accepted text are below 2^32, and so are the values that its shared cells begin with.
pub fn accepted_texts_have_words_only()
    ensures { AcceptedHasWordsOnly }
{
    accepted_texts_have_word_constants();
}

/// Where spent bounds are told and no execution of a text fails for its bound, none fails for that bound or a larger one, whether
/// spent bounds are told there or not. Where a log is answered with `ACCEPTED` or `MIGRATED`, none fails for its bound.
pub fn no_failure_is_covered()
    ensures { NoFailureIsCovered }
{
    accepted_texts_have_words_only();
    full_bound_suffices();
}

/// Where words and files allow `SAFE`, the job reads one file, which is accepted for the bound; and where the words ask that spent
/// bounds are told (`--full`), no execution of it fails for that bound or a larger one, under the model of the words, whether spent
/// bounds are told there or not.
pub fn safe_is_covered()
    ensures accepted { SafeIsOfProgram }
    ensures covered { SafeIsCovered }
{
    one_checked();
    no_failure_is_covered();
}
