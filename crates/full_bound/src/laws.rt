//! What holds of runs that are cut, and of bounds on loops.

ghost use Rattle.full_bound.specs.Alone.{ThreadsCanEnd, CutRunsCanEnd};
ghost use Rattle.full_bound.specs.FullBound.{FullBoundSuffices};

/// A thread of a checked program can always be ended by itself, whatever words the cells hold: from its start, and
/// from before each action of a run that stands outside of sections. It makes the same actions up to there, and
/// then others that read what was written last and wait for no thread; its run is not Bad.
pub fn cut_runs_can_end()
    ensures from_start { ThreadsCanEnd }
    ensures from_cut { CutRunsCanEnd }
{}

/// A bound on loops at which spent bounds are told is enough for every larger bound: where a checked program
/// has a failing execution for a larger bound, whether spent bounds are told there or not, it has one for the
/// bound, under the same model. The larger bound is any number; the program need not be well formed for it.
pub fn full_bound_suffices()
    ensures { FullBoundSuffices }
{}
