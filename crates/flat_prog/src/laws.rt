//! What holds of every flat run, and the runs of a program by hand.

ghost use Rattle.flat_prog.specs.Laws.{StepsGoOn, RunsUseFirst, CountsUp};

/// The steps of two lists are made in turn.
pub fn steps_go_on()
    ensures { StepsGoOn }
{}

/// A run uses the first numbers of its script and depends on no others: with any others behind these, or
/// with none, it is the same, and on fewer it is short.
pub fn runs_use_first_numbers()
    ensures { RunsUseFirst }
{}

/// A thread that reads, asserts and writes does what one expects of it.
pub fn a_thread_counts_up()
    ensures { CountsUp }
{}
