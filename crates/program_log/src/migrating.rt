// Logs kept with hints, and brought into that format.
ghost use Rattle.std.specs.Prelude.{IfOk};
ghost use Rattle.c_check.specs.WellFormed.{IsChecked};
ghost use Rattle.log_checker.specs.Goodness.{IsGood};
ghost use Rattle.log_checker.specs.Hints.{IsGoodHinted};
ghost use Rattle.program_log.specs.Logs.{HaveWorkers, IsGoodLog, IsHintedText, IsMigration, entries_of};

use crate::answers::Migration;
use crate::heads::head_of;
use crate::proving::{Proved, prove_text};
use axiom_model::MemoryModel;
use c_check::Checked;
use dg_base::{Bytes, OutOfMemory};
use encode::encode;
use encode_match::Encoded;
use hint_maker::add_hints;
use lemma_log::{AnyLog, HintedLog, Log};
use log_text::{print_hinted, read_can_be_printed};
use std::alloc::Global;

// The text of a hinted log.
fn text_of(
    alloc: Global,
    checked: &Checked,
    encoded: &Encoded,
    hinted: &HintedLog,
) -> Result<Bytes, OutOfMemory>
    requires good { IsGoodHinted encoded.now.problem hinted.now.log.entries hinted.now.hints }
    requires workers { HaveWorkers hinted.now.log.entries }
    ensures { IfOk result (IsHintedText checked.now encoded.now hinted.now.log.entries) }
{
    let head = head_of(checked, encoded);
    print_hinted(alloc, &head, hinted)
}

/// The text of a good log, in the format with hints, which are made here.
///
/// # Errors
/// Want of memory alone.
pub fn hinted_text(
    alloc: Global,
    checked: &Checked,
    encoded: &Encoded,
    log: &Log,
) -> Result<Bytes, OutOfMemory>
    requires good { IsGood encoded.now.problem log.now.entries }
    requires workers { HaveWorkers log.now.entries }
    ensures { IfOk result (IsHintedText checked.now encoded.now log.now.entries) }
{
    let hinted = add_hints(alloc, &encoded.problem, log)?;
    text_of(alloc, checked, encoded, &hinted)
}

// The text of a log that was accepted. Hints that are there stay.
fn anew(
    alloc: Global,
    checked: &Checked,
    encoded: &Encoded,
    log: &AnyLog,
) -> Result<Bytes, OutOfMemory>
    requires good { IsGoodLog encoded.now.problem log.now }
    requires workers { HaveWorkers (entries_of log.now) }
    ensures { IfOk result (IsHintedText checked.now encoded.now (entries_of log.now)) }
{
    match log {
        AnyLog::Plain(log) => hinted_text(alloc, checked, encoded, log),
        AnyLog::Hinted(hinted) => text_of(alloc, checked, encoded, hinted),
    }
}

/// A log's text brought into the format with hints, where a check accepts it; a log that has hints keeps them.
///
/// # Errors
/// Want of memory alone.
pub fn migrate_text(
    alloc: Global,
    checked: &Checked,
    model: MemoryModel,
    text: &[u8],
) -> Result<Migration, OutOfMemory>
    requires { IsChecked checked.now }
    ensures { IfOk result (IsMigration model checked.now text.now) }
{
    let encoded = encode(alloc, checked, model)?;
    match prove_text(alloc, checked, &encoded, text)? {
        Proved::Proof(entries, log) => {
            read_can_be_printed();
            let new = anew(alloc, checked, &encoded, &log)?;
            Ok(Migration::Migrated(entries, new))
        }
        Proved::Other(answer) => Ok(Migration::Refused(answer)),
    }
}
