//! What holds of failing executions and of first broken conditions.

ghost use Rattle.exec_check.specs.Broken.{FailingBreaksNothing, OneFirstBroken};

/// A failing execution breaks no condition: of it `check_execution` answers `Ok`, or wants memory.
pub fn failing_executions_break_nothing()
    ensures { FailingBreaksNothing }
{}

/// Two first broken conditions of one candidate are one, but for the cycle that is shown; want of memory is none.
pub fn one_condition_is_broken_first()
    ensures { OneFirstBroken }
{}
