//! Laws of answers.

ghost use Rattle.answer_laws.specs.Laws.{SomeAnswerIsAllowed, SomeReplayIsAllowed, SomeVerdictIsAllowed, UnbrokenFails, UnopposedIsConsistent, WitnessesAreSpelledOrRefused};
ghost use Rattle.answer_laws.specs.Spelled.{AcceptedHasWordConstants, AllowedIsSpelled, FailingIsSpelled};

use c_program::not_neither;
use run_laws::{candidates_are_of_words, runs_are_short};

/// Each text spells a candidate or is refused at a line: a longest run of its whole lines with which some spelling begins is
/// always there.
pub fn witnesses_are_spelled_or_refused()
    ensures { WitnessesAreSpelledOrRefused }
{}

/// A model allows each well made execution against which there is no evidence: where a condition is broken there is a cycle
/// that repeats no event or block and begins at its least event.
pub fn unopposed_executions_are_consistent()
    ensures { UnopposedIsConsistent }
{}

/// A candidate of words that breaks no condition first is a failing execution: the conditions and their first places leave no
/// candidate out.
pub fn unbroken_candidates_fail()
    ensures { UnbrokenFails }
{}

/// The constants of each accepted text are below 2^32.
pub fn accepted_texts_have_word_constants()
    ensures { AcceptedHasWordConstants }
{}

/// Each execution of an accepted text that a model allows has a text, with its pairs in the order of their readers.
pub fn allowed_is_spelled()
    ensures { AllowedIsSpelled }
{
    candidates_are_of_words();
    runs_are_short();
    accepted_texts_have_word_constants();
}

/// Where such an execution fails, one that has a text fails.
pub fn failing_is_spelled()
    ensures { FailingIsSpelled }
{
    allowed_is_spelled();
}

/// Of each text that is given as a witness for a checked program, under each model, something is answered.
pub fn some_replay_is_allowed()
    ensures { SomeReplayIsAllowed }
{}

/// Of each accepted text, under each model, there is a verdict, where no file is named for its log; whatever is named for a witness.
pub fn some_verdict_is_allowed()
    ensures { SomeVerdictIsAllowed }
{
    failing_is_spelled();
}

/// For all words that neither read nor keep a log, and all files, some answer is allowed. That a program without a failing execution
/// has a log that shows it is no law here.
pub fn some_answer_is_allowed()
    ensures { SomeAnswerIsAllowed }
{
    not_neither();
    some_replay_is_allowed();
    some_verdict_is_allowed();
}
