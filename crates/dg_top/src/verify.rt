// The job `verify`: whether some execution of a program fails.
ghost use Rattle.std.specs.Prelude.{◌≡◌, ◌≤◌, ◌∷◌, [], IfOk, option_map};
ghost use Rattle.c_check.specs.WellFormed.{IsChecked};
ghost use Rattle.program_verdict.specs.Verdicts.{IsAffordable, IsFailure};
ghost use Rattle.word_settings.specs.declared.settings.Job.TheVariants.{Verify};
ghost use Rattle.dg_top.specs.Answers as answers;
ghost use Rattle.dg_top.specs.Answers.{IsAnswer, IsVerdict};
ghost use Rattle.dg_top.specs.Replies.{IsFailureReply, IsOneOf, kept_in, kept_of};

use crate::pairs::in_reader_order;
use crate::reply::{Keeping, Reply, keep_in, refuse};
use crate::verdict_reply::{safe, unknown, unsafe_at};
use axiom_model::{MemoryModel, order_of_reads_is_free};
use c_check::Checked;
use c_program::read_program;
use dg_base::{Bytes, Gate, OutOfMemory};
use program_verdict::{Effort, Failure, ProgramVerdict, decide_program};
use run_laws::runs_are_short;
use std::alloc::Global;
use std::thread::Threads;
use word_settings::{FileName, Settings};

// How much is searched.
fn effort_of(settings: &Settings) -> Effort
    ensures { result ≡ answers.effort_of settings.now }
{
    Effort {
        workers: settings.workers,
        budget: settings.budget,
        share_words: settings.share,
    }
}

// A log's text that is kept, where a file is named.
fn keep_log(
    alloc: Global,
    file: &Option<FileName>,
    text: Option<Bytes>,
) -> Result<Option<Keeping>, OutOfMemory>
    ensures { IfOk result (λ kept. option_map kept_of kept ≡ kept_in file.now text) }
{
    match (file, text) {
        (Some(name), Some(bytes)) => Ok(Some(keep_in(alloc, name, bytes)?)),
        _ => Ok(None),
    }
}

// The answer with a failing execution. Its pairs are put in the order of their readers, as a witness lists them.
fn show_failure(
    alloc: Global,
    checked: &Checked,
    model: MemoryModel,
    failure: Failure,
    witness: &Option<FileName>,
) -> Result<Reply, OutOfMemory>
    requires checked { IsChecked checked.now }
    requires failure { IsFailure checked.now model failure }
    ensures { IfOk result (IsOneOf (IsFailureReply model checked.now witness.now)) }
{
    let Failure {
        candidate,
        handle,
        place,
        bound,
    } = failure;
    let candidate = in_reader_order(alloc, candidate)?;
    order_of_reads_is_free();
    runs_are_short();
    let failure = Failure {
        candidate,
        handle,
        place,
        bound,
    };
    unsafe_at(alloc, checked, &failure, witness)
}

/// Decides a program under the settings' model, and keeps the log or the witness where a file is named for it.
pub fn decide<R: Threads + Sync, G: Gate + Sync>(
    rt: &R,
    alloc: Global,
    settings: &Settings,
    log: &Option<FileName>,
    witness: &Option<FileName>,
    checked: &Checked,
    gate: &G,
) -> Result<Reply, OutOfMemory>
    requires effort { IsAffordable (answers.effort_of settings.now) }
    requires checked { IsChecked checked.now }
    ensures { IfOk result (IsOneOf (IsVerdict settings.now.model (answers.effort_of settings.now) checked.now log.now witness.now)) }
{
    let model = settings.model;
    let effort = effort_of(settings);
    match decide_program(rt, alloc, checked, model, &effort, log.is_some(), gate)? {
        ProgramVerdict::Safe(text) => {
            let kept = keep_log(alloc, log, text)?;
            safe(alloc, kept)
        }
        ProgramVerdict::Unsafe(failure) => show_failure(alloc, checked, model, failure, witness),
        ProgramVerdict::Unknown(reports, text) => {
            let kept = keep_log(alloc, log, text)?;
            unknown(alloc, reports.as_slice(), kept)
        }
    }
}

/// The first refusal of the text, or what is decided of its program.
pub fn verify<R: Threads + Sync, G: Gate + Sync>(
    rt: &R,
    alloc: Global,
    settings: &Settings,
    log: &Option<FileName>,
    witness: &Option<FileName>,
    text: &[u8],
    gate: &G,
) -> Result<Reply, OutOfMemory>
    requires job { settings.now.job ≡ Verify log.now witness.now }
    requires bound { (1 ≤ settings.now.bound) × (settings.now.bound ≤ 64) }
    requires effort { IsAffordable (answers.effort_of settings.now) }
    ensures { IfOk result (IsOneOf (IsAnswer settings.now (text.now ∷ []))) }
{
    match read_program(alloc, text, settings.bound, settings.full) {
        Ok(checked) => decide(rt, alloc, settings, log, witness, &checked, gate),
        Err(refusal) => refuse(alloc, &refusal),
    }
}
