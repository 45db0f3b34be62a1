//! What the lowered program and the program with condition variables have in common.
ghost use Rattle.cond_runs.specs.Cells.{SharedAlike, CellsAlike, FunctionsAlike};
ghost use Rattle.cond_runs.specs.Sections.{BroadcastIsRow, CallsAreRows, EnterIsRow, InitIsRow, ProgramsCallRows, SignalIsRow, TakeIsRow};

/// The lowered program has the shared variables, the cells with their first values, and the functions of the program with
/// condition variables, each with its number; behind the functions stand the sections.
pub fn cells_are_alike()
    ensures shared { SharedAlike }
    ensures cells { CellsAlike }
    ensures functions { FunctionsAlike }
{}

/// A call of a section that the lowered program has is seen as the row of the call is: the same actions and numbers used, and the
/// same state where it goes on.
pub fn sections_are_rows()
    ensures enter { EnterIsRow }
    ensures take { TakeIsRow }
    ensures signal { SignalIsRow }
    ensures broadcast { BroadcastIsRow }
    ensures init { InitIsRow }
{}

/// What a call on a condition variable becomes is seen as the row of the call is, where the sections are called as their rows are;
/// and so they are in a program that has them.
pub fn calls_are_rows()
    ensures called { CallsAreRows }
    ensures programs { ProgramsCallRows }
{}
