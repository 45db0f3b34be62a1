// Laws of answers.
ghost use Rattle.std.specs.Prelude.{◌≢◌};
ghost use Rattle.dg_top.specs.Laws.{AcceptedIsSafe, FailingIsAlone, MigratedIsSafe, SafeExcludesUnsafe, UnsafeIsReplayed};

use crate::command::run;
use c_program::{accepted_or_refused, names_are_plain, one_checked};
use dg_base::{Gate, HonestDesk, Words};
use exec_check::failing_executions_break_nothing;
use program_log::accepted_is_safe as accepted_logs_are_safe;
use std::alloc::Global;
use std::thread::Threads;
use witness_text::one_candidate;

/// A witness that is answered with `FAILING`, a handle and a place, has no other answer: so this answer comes exactly where
/// the witness spells a failing execution.
pub fn failing_is_alone()
    ensures { FailingIsAlone }
{
    one_checked();
    accepted_or_refused();
    names_are_plain();
    one_candidate();
    failing_executions_break_nothing();
}

/// No words and files allow both `SAFE` and `UNSAFE`.
pub fn safe_excludes_unsafe()
    ensures { SafeExcludesUnsafe }
{
    one_checked();
}

/// A witness that is printed behind `UNSAFE` is replayed as `FAILING`, with the same thread and place, for the same text and
/// options.
pub fn unsafe_is_replayed()
    ensures { UnsafeIsReplayed }
{}

/// Where a log is answered with `ACCEPTED` or `MIGRATED`, no execution of the program fails.
pub fn accepted_is_safe()
    ensures accepted { AcceptedIsSafe }
    ensures migrated { MigratedIsSafe }
{
    one_checked();
    accepted_logs_are_safe();
}

/// A run over a desk whose outside never fails answers neither 5 nor 6.
pub fn run_over_honest_desk<R: Threads + Sync, G: Gate + Sync>(
    rt: &R,
    alloc: Global,
    words: &Words,
    desk: &mut HonestDesk,
    gate: &G,
) -> u8
    ensures fetched { result ≢ 5 }
    ensures printed { result ≢ 6 }
{
    run(rt, alloc, words, desk, gate)
}
