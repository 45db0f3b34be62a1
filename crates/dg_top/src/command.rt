// The top call: from the words of the command line and the desk to the status.
ghost use Rattle.std.specs.Prelude.{◌≡◌, ◌≢◌, ◌⊎◌, ◌≤◌, ◌<◌, ◌∷◌, [], List as TheList, None, IfOk, IfSome, OnOk, OnErr, Ok, Err, IsErr, length, option_map, string_bytes};
ghost use Rattle.dg_base.specs.declared.outside.Operation.TheVariants.{Fetch, Keep};
ghost use Rattle.dg_base.specs.declared.outside.Trouble.TheVariants.{Failed, Long};
ghost use Rattle.dg_base.specs.Outside.{Changes, IsFault, Told, Unchanged};
ghost use Rattle.program_verdict.specs.Verdicts.{IsAffordable};
ghost use Rattle.word_settings.specs.declared.settings.Job.TheVariants as job;
ghost use Rattle.word_settings.specs.Settings as read;
ghost use Rattle.word_settings.specs.Settings.{IsNumbered, Word, file_count};
ghost use Rattle.dg_top.specs.Answers.{Allowed, IsAnswer, IsAnswerOf, effort_of};
ghost use Rattle.dg_top.specs.Outcomes.{HasKept, IsStatus, MayHaveKept, Outcome};
ghost use Rattle.dg_top.specs.Replies.{FetchFails, IsFetched, IsOneOf, KeepsAmong, OutputFails, Replies, files_kept, files_read, kept_names, kept_of};

use crate::check::check;
use crate::make::make;
use crate::migrate::migrate;
use crate::replay::replay;
use crate::reply::{Reply, bad_words, long_file};
use crate::verify::verify;
use dg_base::{Bytes, Desk, Gate, OutOfMemory, Trouble, Words};
use std::alloc::Global;
use std::thread::Threads;
use word_settings::{FileName, Job, Settings, settings_of};

// The bytes of the file, or None where they are too many.
fn fetched<D: Desk>(alloc: Global, desk: &mut D, name: &str) -> Result<Option<Bytes>, Trouble>
    ensures fetched { IfOk result (λ o. Told (λ fs. IsFetched fs name.now o) (D.files desk.old)) }
    ensures files { D.files desk.new ≡ D.files desk.old }
    ensures printed { D.printed desk.new ≡ D.printed desk.old }
    ensures never_long { result ≢ Err Long }
    ensures fault { result ≡ Err Failed → IsFault Fetch name.now (D.faults desk.old) (D.faults desk.new) }
    ensures no_fault { result ≢ Err Failed → D.faults desk.new ≡ D.faults desk.old }
{
    let mut bytes = Bytes::new(alloc);
    match desk.fetch(name, &mut bytes) {
        Ok(()) => Ok(Some(bytes)),
        Err(Trouble::Long) => Ok(None),
        Err(Trouble::Failed) => Err(Trouble::Failed),
        Err(Trouble::OutOfMemory) => Err(Trouble::OutOfMemory),
    }
}

// `verify` on its file.
fn verify_file<R: Threads + Sync, D: Desk, G: Gate + Sync>(
    rt: &R,
    alloc: Global,
    settings: &Settings,
    log: &Option<FileName>,
    witness: &Option<FileName>,
    desk: &mut D,
    gate: &G,
) -> Result<Reply, Trouble>
    requires job { settings.now.job ≡ job.Verify log.now witness.now }
    requires files { length settings.now.files ≡ 1 }
    requires bound { (1 ≤ settings.now.bound) × (settings.now.bound ≤ 64) }
    requires effort { IsAffordable (effort_of settings.now) }
    ensures replies { IfOk result (Replies (IsAnswerOf settings.now) (D.files desk.old)) }
    ensures status { IfOk result (λ r. r.status ≢ 3) }
    ensures keeps { IfOk result (KeepsAmong (kept_names settings.now.job)) }
    ensures files { D.files desk.new ≡ D.files desk.old }
    ensures printed { D.printed desk.new ≡ D.printed desk.old }
    ensures never_long { result ≢ Err Long }
    ensures fault { result ≡ Err Failed → FetchFails settings.now.files (D.faults desk.old) (D.faults desk.new) }
    ensures no_fault { result ≢ Err Failed → D.faults desk.new ≡ D.faults desk.old }
{
    let name = settings.files.word(0);
    let Some(text) = fetched(alloc, desk, name)? else {
        return Ok(long_file(alloc, name)?);
    };
    Ok(verify(rt, alloc, settings, log, witness, text.as_slice(), gate)?)
}

// The answer to the texts of a program and of another file.
fn answer_of_two(
    alloc: Global,
    settings: &Settings,
    text: &[u8],
    other: &[u8],
) -> Result<Reply, OutOfMemory>
    requires two { file_count settings.now.job ≡ 2 }
    requires bound { (1 ≤ settings.now.bound) × (settings.now.bound ≤ 64) }
    ensures { IfOk result (IsOneOf (IsAnswer settings.now (text.now ∷ other.now ∷ []))) }
{
    match &settings.job {
        Job::Replay => replay(alloc, settings, text, other),
        Job::Check => check(alloc, settings, text, other),
        Job::Migrate { new } => migrate(alloc, settings, new, text, other),
        Job::Verify { .. } | Job::Make { .. } => unreachable!(),
    }
}

// A job on two files; the second is read behind the program.
fn two_files<D: Desk>(alloc: Global, settings: &Settings, desk: &mut D) -> Result<Reply, Trouble>
    requires two { file_count settings.now.job ≡ 2 }
    requires files { length settings.now.files ≡ 2 }
    requires bound { (1 ≤ settings.now.bound) × (settings.now.bound ≤ 64) }
    ensures replies { IfOk result (Replies (IsAnswerOf settings.now) (D.files desk.old)) }
    ensures status { IfOk result (λ r. r.status ≢ 3) }
    ensures keeps { IfOk result (KeepsAmong (kept_names settings.now.job)) }
    ensures files { D.files desk.new ≡ D.files desk.old }
    ensures printed { D.printed desk.new ≡ D.printed desk.old }
    ensures never_long { result ≢ Err Long }
    ensures fault { result ≡ Err Failed → FetchFails settings.now.files (D.faults desk.old) (D.faults desk.new) }
    ensures no_fault { result ≢ Err Failed → D.faults desk.new ≡ D.faults desk.old }
{
    let program = settings.files.word(0);
    let other = settings.files.word(1);
    let Some(text) = fetched(alloc, desk, program)? else {
        return Ok(long_file(alloc, program)?);
    };
    match fetched(alloc, desk, other) {
        Ok(Some(told)) => Ok(answer_of_two(alloc, settings, text.as_slice(), told.as_slice())?),
        Ok(None) => Ok(long_file(alloc, other)?),
        Err(trouble) => Err(trouble),
    }
}

// The answer of a job, before anything is kept or printed.
fn answer<R: Threads + Sync, D: Desk, G: Gate + Sync>(
    rt: &R,
    alloc: Global,
    settings: &Settings,
    desk: &mut D,
    gate: &G,
) -> Result<Reply, Trouble>
    requires bound { (1 ≤ settings.now.bound) × (settings.now.bound ≤ 64) }
    requires effort { IsAffordable (effort_of settings.now) }
    requires number { IsNumbered settings.now.job }
    requires count { length settings.now.files ≡ file_count settings.now.job }
    ensures replies { IfOk result (Replies (IsAnswerOf settings.now) (D.files desk.old)) }
    ensures status { IfOk result (λ r. r.status ≢ 3) }
    ensures keeps { IfOk result (KeepsAmong (kept_names settings.now.job)) }
    ensures files { D.files desk.new ≡ D.files desk.old }
    ensures printed { D.printed desk.new ≡ D.printed desk.old }
    ensures never_long { result ≢ Err Long }
    ensures fault { result ≡ Err Failed → FetchFails settings.now.files (D.faults desk.old) (D.faults desk.new) }
    ensures no_fault { result ≢ Err Failed → D.faults desk.new ≡ D.faults desk.old }
{
    match &settings.job {
        Job::Verify { log, witness } => verify_file(rt, alloc, settings, log, witness, desk, gate),
        Job::Make { number, run } => Ok(make(rt, alloc, settings, *number, *run, gate)?),
        Job::Replay | Job::Check | Job::Migrate { .. } => two_files(alloc, settings, desk),
    }
}

// Reads the words, and answers.
fn reply_to<R: Threads + Sync, D: Desk, G: Gate + Sync>(
    rt: &R,
    alloc: Global,
    words: &Words,
    desk: &mut D,
    gate: &G,
) -> Result<Reply, Trouble>
    ensures replies { IfOk result (Replies (Allowed words.now) (D.files desk.old)) }
    ensures status { IfOk result (λ r. r.status ≡ 3 → IsErr (read.settings_of words.now)) }
    ensures keeps { IfOk result (KeepsAmong (files_kept (read.settings_of words.now))) }
    ensures bad_words { IsErr (read.settings_of words.now) → IfOk result (λ r. r.status ≡ 3) }
    ensures failed { result ≡ Err Failed → IsErr (read.settings_of words.now) → ⊥ }
    ensures files { D.files desk.new ≡ D.files desk.old }
    ensures printed { D.printed desk.new ≡ D.printed desk.old }
    ensures never_long { result ≢ Err Long }
    ensures fault { result ≡ Err Failed → FetchFails (files_read (read.settings_of words.now)) (D.faults desk.old) (D.faults desk.new) }
    ensures no_fault { result ≢ Err Failed → D.faults desk.new ≡ D.faults desk.old }
{
    match settings_of(alloc, words) {
        Ok(settings) => answer(rt, alloc, &settings, desk, gate),
        Err(fault) => Ok(bad_words(alloc, fault)?),
    }
}

// Keeps the file of a reply, if it has one.
fn keep<D: Desk>(desk: &mut D, reply: &Reply) -> Result<(), Trouble>
    ensures kept { OnOk result (Changes (HasKept (option_map kept_of reply.now.kept)) (D.files desk.old) (D.files desk.new)) }
    ensures left { OnErr result (Changes (MayHaveKept (option_map kept_of reply.now.kept)) (D.files desk.old) (D.files desk.new)) }
    ensures nothing { reply.now.kept ≡ None → (result ≡ Ok tt) × (D.files desk.new ≡ D.files desk.old) }
    ensures printed { D.printed desk.new ≡ D.printed desk.old }
    ensures never_long { result ≢ Err Long }
    ensures fault { result ≡ Err Failed → IfSome reply.now.kept (λ k. IsFault Keep (string_bytes k.name) (D.faults desk.old) (D.faults desk.new)) }
    ensures no_fault { result ≢ Err Failed → D.faults desk.new ≡ D.faults desk.old }
{
    match &reply.kept {
        Some(kept) => desk.keep(kept.name.as_str(), kept.bytes.as_slice()),
        None => Ok(()),
    }
}

// Keeps the file of a reply, prints its text, and answers the status.
fn give<D: Desk>(desk: &mut D, reply: &Reply) -> u8
    requires status { reply.now.status < 5 }
    ensures outcome { (ws : TheList Word) → Replies (Allowed ws) (D.files desk.old) reply.now → Told (λ files. Outcome ws files (D.files desk.new) (D.printed desk.old) (D.printed desk.new) result) (D.files desk.old) }
    ensures keepless { reply.now.kept ≡ None → D.files desk.new ≡ D.files desk.old }
    ensures quiet { result ≡ 7 → Unchanged (D.printed desk.old) (D.printed desk.new) }
    ensures fault { (names : TheList Word) → KeepsAmong names reply.now → result ≡ 6 → OutputFails names (D.faults desk.old) (D.faults desk.new) }
    ensures no_fault { result ≢ 6 → D.faults desk.new ≡ D.faults desk.old }
    ensures status { (result ≡ reply.now.status) ⊎ ((result ≡ 6) ⊎ (result ≡ 7)) }
{
    match keep(desk, reply) {
        Ok(()) => {}
        Err(Trouble::Failed) => return 6,
        Err(Trouble::Long) => return 7,
        Err(Trouble::OutOfMemory) => return 7,
    }
    match desk.print(reply.text.as_slice()) {
        Ok(()) => reply.status,
        Err(Trouble::Failed) => 6,
        Err(Trouble::Long) => 7,
        Err(Trouble::OutOfMemory) => 7,
    }
}

/// Does all that the shipped program does: reads the words, fetches the files, answers, keeps the file
/// that is asked for, prints the answer. The first word is the program's name. The answer is the status
/// of the process.
pub fn run<R: Threads + Sync, D: Desk, G: Gate + Sync>(
    rt: &R,
    alloc: Global,
    words: &Words,
    desk: &mut D,
    gate: &G,
) -> u8
    ensures outcome { Told (λ files. Outcome words.now files (D.files desk.new) (D.printed desk.old) (D.printed desk.new) result) (D.files desk.old) }
    ensures unchanged { (result ≡ 3) ⊎ ((result ≡ 4) ⊎ (result ≡ 5)) → D.files desk.new ≡ D.files desk.old }
    ensures keepless { files_kept (read.settings_of words.now) ≡ [] → D.files desk.new ≡ D.files desk.old }
    ensures quiet { (result ≡ 5) ⊎ (result ≡ 7) → Unchanged (D.printed desk.old) (D.printed desk.new) }
    ensures fetch_fault { result ≡ 5 → FetchFails (files_read (read.settings_of words.now)) (D.faults desk.old) (D.faults desk.new) }
    ensures output_fault { result ≡ 6 → OutputFails (files_kept (read.settings_of words.now)) (D.faults desk.old) (D.faults desk.new) }
    ensures no_fault { result ≢ 5 → result ≢ 6 → D.faults desk.new ≡ D.faults desk.old }
    ensures no_settings { result ≡ 3 → IsErr (read.settings_of words.now) }
    ensures status_3 { IsErr (read.settings_of words.now) → (result ≡ 3) ⊎ ((result ≡ 6) ⊎ (result ≡ 7)) }
    ensures known { IsStatus result }
{
    match reply_to(rt, alloc, words, desk, gate) {
        Ok(reply) => give(desk, &reply),
        Err(Trouble::Failed) => 5,
        Err(Trouble::Long) => 7,
        Err(Trouble::OutOfMemory) => 7,
    }
}
