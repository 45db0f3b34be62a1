// Reading a whole text.
ghost use Rattle.std.specs.Prelude.{◌≡◌, [], IfErr, IfOk, OnOk, false, length, true};
ghost use Rattle.lemma_log.specs.declared.hints.AnyLog.TheVariants.{Plain};
ghost use Rattle.log_text.specs.Faults.{IsFaultOf};
ghost use Rattle.log_text.specs.Spelling.{Spells, hinted_rows, rows_of, written};

use crate::reading::{LogFault, LogReader};
use crate::run::no_head;
use cnf_problem::Head;
use dg_base::{List, OutOfMemory};
use lemma_log::{AnyLog, Entry, Hint, HintedLog, Log};
use std::alloc::Global;

// What a reader has read and not given: the entries, and their hints.
fn take_all(
    alloc: Global,
    reader: &mut LogReader,
) -> Result<(List<Entry>, List<List<Hint>>), OutOfMemory>
    ensures rows { IfOk result (λ p. hinted_rows p.0 p.1 ≡ rows_of reader.old.ready) }
    ensures one_each { IfOk result (λ p. length p.1 ≡ length p.0) }
    ensures taken { OnOk result (reader.new ≡ record reader.old { ready = [] }) }
{
    let mut entries = List::new(alloc);
    let mut lists = List::new(alloc);
    while let Some((entry, hints)) = reader.next_hints() {
        entries.push(entry)?;
        lists.push(hints)?;
    }
    Ok((entries, lists))
}

// The head, whether there are hints, the entries and the hints of a text.
fn parts(
    alloc: Global,
    plain_only: bool,
    text: &[u8],
) -> Result<(Head, bool, List<Entry>, List<List<Hint>>), LogFault>
    ensures read { IfOk result (λ p. Spells plain_only (record { hinted = p.1; head = p.0; rows = hinted_rows p.2 p.3 }) text.now) }
    ensures one_each { IfOk result (λ p. length p.3 ≡ length p.2) }
    ensures refused { IfErr result (IsFaultOf plain_only text.now) }
{
    let mut reader = LogReader::of(alloc, plain_only)?;
    reader.feed(text)?;
    let (entries, lists) = take_all(alloc, &mut reader)?;
    // Both are known where the text has ended.
    let head = reader.head().unwrap_or(no_head());
    let hinted = reader.hinted().unwrap_or(false);
    reader.finish()?;
    Ok((head, hinted, entries, lists))
}

/// Reads a log of either format: the one log that the text spells, or the line at which it goes wrong, which is the one behind
/// the longest run of whole lines with which some spelling begins.
pub fn read_any(alloc: Global, text: &[u8]) -> Result<(Head, AnyLog), LogFault>
    ensures read { IfOk result (λ v. Spells false (written v.0 v.1) text.now) }
    ensures refused { IfErr result (IsFaultOf false text.now) }
{
    let (head, hinted, entries, hints) = parts(alloc, false, text)?;
    let log = Log { entries };
    if hinted {
        Ok((head, AnyLog::Hinted(HintedLog { log, hints })))
    } else {
        Ok((head, AnyLog::Plain(log)))
    }
}

/// Reads a log of the format without hints.
pub fn read_log(alloc: Global, text: &[u8]) -> Result<(Head, Log), LogFault>
    ensures read { IfOk result (λ v. Spells true (written v.0 (Plain v.1)) text.now) }
    ensures refused { IfErr result (IsFaultOf true text.now) }
{
    let (head, _, entries, _) = parts(alloc, true, text)?;
    Ok((head, Log { entries }))
}
