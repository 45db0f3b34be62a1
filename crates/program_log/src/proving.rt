// A whole text, read and checked.
ghost use Rattle.std.specs.Prelude.{◌≡◌, ◌≢◌, ◌+◌, ◌<◌, ℕ, IfErr, IfOk, List as TheList, OnOk, false, length};
ghost use Rattle.log_checker.specs.Goodness.{EndsEmpty};
ghost use Rattle.log_checker.specs.Hints.{IsGoodHinted};
ghost use Rattle.log_checker.specs.Refusals.{IsHintedRefusal};
ghost use Rattle.log_text.specs.Spelling.{Spells, written};
ghost use Rattle.program_log.specs.declared.answers.LogAnswer.TheVariants.{OtherProblem, Refused as AnswerRefused};
ghost use Rattle.log_checker.specs.declared.refused.Refused.TheVariants.{OutOfMemory as NoMemory};
ghost use Rattle.program_log.specs.Logs.{IsGoodLog, entries_of};
ghost use Rattle.program_log.specs.Proving.{IsLogRefusal, IsProved};

use crate::answers::LogAnswer;
use crate::heads::{OtherLine, first_other, head_of};
use c_check::Checked;
use cnf_problem::{Head, Problem};
use dg_base::{OutOfMemory, Steps};
use encode_match::Encoded;
use hint_checker::check_hinted;
use lemma_log::{AnyLog, HintedLog};
use log_checker::{Accepted, Refused, check_log};
use log_text::{LogFault, read_any};
use std::alloc::Global;
use std::marker::Brand;
use std::sync::ledger::{Blank, Ledger};

/// What a whole text is for a program.
#[derive(Debug, Drop)]
pub enum Proved {
    /// The text of this log, which is accepted and has so many entries.
    Proof(u32, AnyLog),
    /// The text is answered otherwise.
    Other(LogAnswer),
}

// Checks a hinted log, and counts the looks from nothing.
fn check_counted<L: Ledger>(
    alloc: Global,
    problem: &Problem,
    log: &HintedLog,
    blank: Blank,
) -> Result<Accepted, Refused>
    requires name { blank.name ≡ L.name }
    requires parts { blank.parts ≡ L.parts }
    requires some { 0 < L.parts }
    ensures good { OnOk result (IsGoodHinted problem.now log.now.log.entries log.now.hints) }
    ensures ends_empty { OnOk result (EndsEmpty log.now.log.entries) }
    ensures count { IfOk result (λ a. a.entries ≡ length log.now.log.entries) }
    ensures refused { IfErr result (IsHintedRefusal problem.now log.now.log.entries log.now.hints) }
{
    let mut steps = Steps::<L>::new(blank);
    check_hinted(alloc, problem, log, &mut steps)
}

/// Checks a log, one with hints by these.
pub fn check_any(alloc: Global, problem: &Problem, log: &AnyLog) -> Result<Accepted, Refused>
    ensures good { OnOk result (IsGoodLog problem.now log.now) }
    ensures ends_empty { OnOk result (EndsEmpty (entries_of log.now)) }
    ensures count { IfOk result (λ a. a.entries ≡ length (entries_of log.now)) }
    ensures refused { IfErr result (IsLogRefusal problem.now log.now) }
{
    match log {
        AnyLog::Plain(log) => check_log(alloc, problem, log),
        AnyLog::Hinted(log) => check_counted::<Brand>(alloc, problem, log, Blank::new(1)),
    }
}

/// The answer where the heads differ.
pub fn other_problem(other: OtherLine) -> LogAnswer
    requires { other.place < 6 }
    ensures { result ≡ OtherProblem (other.place + 2) other.theirs other.ours }
{
    LogAnswer::OtherProblem(other.place + 2, other.theirs, other.ours)
}

/// The answer to a log that is refused.
pub fn refused(why: Refused) -> Result<LogAnswer, OutOfMemory>
    ensures is { IfOk result (λ a. a ≡ AnswerRefused why) }
    ensures told { OnOk result (why ≢ NoMemory) }
{
    match why {
        Refused::OutOfMemory => Err(OutOfMemory),
        why => Ok(LogAnswer::Refused(why)),
    }
}

// What a log that was read is, with this head.
fn prove_log(
    alloc: Global,
    checked: &Checked,
    encoded: &Encoded,
    theirs: &Head,
    log: AnyLog,
) -> Result<Proved, OutOfMemory>
    ensures { IfOk result (λ a. (text : TheList ℕ) → Spells false (written theirs.now log) text → IsProved checked.now encoded.now text a) }
{
    let ours = head_of(checked, encoded);
    if let Some(other) = first_other(alloc, theirs, &ours)? {
        return Ok(Proved::Other(other_problem(other)));
    }
    match check_any(alloc, &encoded.problem, &log) {
        Ok(accepted) => Ok(Proved::Proof(accepted.entries, log)),
        Err(why) => Ok(Proved::Other(refused(why)?)),
    }
}

/// What a whole text is for a program.
pub fn prove_text(
    alloc: Global,
    checked: &Checked,
    encoded: &Encoded,
    text: &[u8],
) -> Result<Proved, OutOfMemory>
    ensures { IfOk result (IsProved checked.now encoded.now text.now) }
{
    match read_any(alloc, text) {
        Ok((theirs, log)) => prove_log(alloc, checked, encoded, &theirs, log),
        Err(LogFault::LogText(line)) => Ok(Proved::Other(LogAnswer::BadLog(line))),
        Err(LogFault::OutOfMemory) => Err(OutOfMemory),
    }
}
