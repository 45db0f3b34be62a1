// The job `make`: made programs, printed or verified.
ghost use Rattle.std.specs.Prelude.{◌≡◌, ◌≢◌, ◌≤◌, [], true, false, IfOk, None, length};
ghost use Rattle.program_verdict.specs.Verdicts.{IsAffordable};
ghost use Rattle.prog_maker.specs.Made.{made_text};
ghost use Rattle.word_settings.specs.declared.settings.Job.TheVariants.{Make};
ghost use Rattle.dg_top.specs.Answers as answers;
ghost use Rattle.dg_top.specs.Answers.{Answer, IsAnswer, Made, MadeVerdict, status_of};
ghost use Rattle.dg_top.specs.Replies.{IsOneOf, Spells};

use crate::reply::{Reply, refuse};
use crate::verify::decide;
use c_program::read_program;
use dg_base::{Gate, OutOfMemory};
use line_text::{put, put_number};
use prog_maker::make_program;
use std::alloc::Global;
use std::thread::Threads;
use word_settings::Settings;

// The made program's text.
fn made(alloc: Global, number: u32) -> Result<Reply, OutOfMemory>
    requires number { (1 ≤ number) × (number ≤ 16) }
    ensures { IfOk result (Spells (Made number) None) }
{
    let program = make_program(alloc, number)?;
    let text = Vec::from_slice(alloc, program.as_slice())?;
    Ok(Reply {
        status: 0,
        text,
        kept: None,
    })
}

// The first word of the verdict with this status.
fn verdict_word(status: u8) -> &'static [u8]
    ensures { (a : Answer) → answers.verdict_word a ≢ [] → status ≡ status_of a → result.now ≡ answers.verdict_word a }
{
    match status {
        0 => b"SAFE",
        1 => b"UNSAFE",
        _ => b"UNKNOWN",
    }
}

// The line that tells the verdict on a made program of so many bytes.
fn made_verdict(alloc: Global, number: u32, bytes: u32, status: u8) -> Result<Reply, OutOfMemory>
    requires bytes { bytes ≡ length (made_text number) }
    ensures { (a : Answer) → answers.verdict_word a ≢ [] → status ≡ status_of a → IfOk result (Spells (MadeVerdict number a) None) }
{
    let mut text = Vec::from_slice(alloc, b"made ")?;
    put_number(&mut text, number)?;
    put(&mut text, b" bytes ")?;
    put_number(&mut text, bytes)?;
    put(&mut text, b" ")?;
    put(&mut text, verdict_word(status))?;
    put(&mut text, b"\n")?;
    Ok(Reply {
        status,
        text,
        kept: None,
    })
}

// What is decided of the made program.
fn make_and_verify<R: Threads + Sync, G: Gate + Sync>(
    rt: &R,
    alloc: Global,
    settings: &Settings,
    number: u32,
    gate: &G,
) -> Result<Reply, OutOfMemory>
    requires job { settings.now.job ≡ Make number true }
    requires number { (1 ≤ number) × (number ≤ 16) }
    requires bound { (1 ≤ settings.now.bound) × (settings.now.bound ≤ 64) }
    requires effort { IsAffordable (answers.effort_of settings.now) }
    ensures { IfOk result (IsOneOf (IsAnswer settings.now [])) }
{
    let program = make_program(alloc, number)?;
    let Ok(bytes) = u32::try_from(program.len()) else {
        return Err(OutOfMemory);
    };
    match read_program(alloc, program.as_slice(), settings.bound, settings.full) {
        Ok(checked) => {
            let verdict = decide(rt, alloc, settings, &None, &None, &checked, gate)?;
            made_verdict(alloc, number, bytes, verdict.status)
        }
        Err(refusal) => refuse(alloc, &refusal),
    }
}

/// The made program's text, or where it is to be verified what is decided of it.
pub fn make<R: Threads + Sync, G: Gate + Sync>(
    rt: &R,
    alloc: Global,
    settings: &Settings,
    number: u32,
    run: bool,
    gate: &G,
) -> Result<Reply, OutOfMemory>
    requires job { settings.now.job ≡ Make number run }
    requires number { (1 ≤ number) × (number ≤ 16) }
    requires bound { (1 ≤ settings.now.bound) × (settings.now.bound ≤ 64) }
    requires effort { IsAffordable (answers.effort_of settings.now) }
    ensures { IfOk result (IsOneOf (IsAnswer settings.now [])) }
{
    if run {
        make_and_verify(rt, alloc, settings, number, gate)
    } else {
        made(alloc, number)
    }
}
