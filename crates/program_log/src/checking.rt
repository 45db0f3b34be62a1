// The job `check`: a text read in pieces, whose entries are checked as they come.
ghost use Rattle.std.specs.Prelude.{◌≡◌, ℕ, IfErr, IfOk, List as TheList, OnOk, false, length};
ghost use Rattle.c_check.specs.WellFormed.{IsChecked};
ghost use Rattle.lemma_log.specs.Hinting.{AreHintsFor};
ghost use Rattle.lemma_log.specs.Tickets.{AreInOrder};
ghost use Rattle.log_checker.specs.Goodness.{EndsEmpty};
ghost use Rattle.log_checker.specs.Hints.{IsGoodHinted};
ghost use Rattle.log_checker.specs.Refusals.{IsHintedRefusal};
ghost use Rattle.log_text.specs.Faults.{IsFaultOf};
ghost use Rattle.log_text.specs.Spelling.{HasHead};
ghost use Rattle.program_log.specs.Heads.{head_of};
ghost use Rattle.program_log.specs.Logs.{IsAnswerFor, IsCheck};
ghost use Rattle.program_log.specs.Pieces.{IsWhole};

use crate::answers::LogAnswer;
use crate::heads;
use crate::proving::{check_any, other_problem, refused};
use crate::standing::{Standing, go_on};
use axiom_model::MemoryModel;
use c_check::Checked;
use cnf_problem::{Head, Problem};
use dg_base::{List, OutOfMemory};
use encode::encode;
use encode_match::Encoded;
use lemma_log::{AnyLog, Entry, Hint, HintedLog, Log};
use log_checker::{Accepted, Refused};
use log_text::{LogFault, LogReader};
use std::alloc::Global;

// How many bytes are read at once.
const PIECE: usize = 65536;

// How the log of a whole text stands: the text is read to its end, whatever is known before.
fn read_pieces(
    alloc: Global,
    problem: &Problem,
    ours: &Head,
    text: &[u8],
) -> Result<Standing, LogFault>
    ensures ok { IfOk result (IsWhole problem.now ours.now text.now) }
    ensures refused { IfErr result (IsFaultOf false text.now) }
{
    let mut reader = LogReader::new(alloc)?;
    let mut standing = None;
    let mut rest = text;
    while !rest.is_empty() {
        let (piece, behind) = rest.split_at(PIECE.min(rest.len()));
        reader.feed(piece)?;
        standing = go_on(alloc, problem, ours, standing, &mut reader)?;
        rest = behind;
    }
    reader.finish()?;
    match standing {
        Some(standing) => Ok(standing),
        None => unreachable!(),
    }
}

// Checks a log with hints.
fn check_collected(
    alloc: Global,
    problem: &Problem,
    entries: List<Entry>,
    hints: List<List<Hint>>,
) -> Result<Accepted, Refused>
    requires in_order { AreInOrder entries }
    requires matched { AreHintsFor entries hints }
    ensures good { OnOk result (IsGoodHinted problem.now entries hints) }
    ensures ends_empty { OnOk result (EndsEmpty entries) }
    ensures count { IfOk result (λ a. a.entries ≡ length entries) }
    ensures refused { IfErr result (IsHintedRefusal problem.now entries hints) }
{
    let log = HintedLog {
        log: Log { entries },
        hints,
    };
    check_any(alloc, problem, &AnyLog::Hinted(log))
}

// What is answered of a whole text whose log stands so.
fn answer_of(
    alloc: Global,
    checked: &Checked,
    encoded: &Encoded,
    standing: Standing,
) -> Result<LogAnswer, OutOfMemory>
    requires whole { (text : TheList ℕ) × IsWhole encoded.now.problem (head_of checked.now encoded.now) text standing }
    requires numbers { HasHead (head_of checked.now encoded.now) }
    ensures { IfOk result (λ a. (text : TheList ℕ) → IsWhole encoded.now.problem (head_of checked.now encoded.now) text standing → IsAnswerFor checked.now encoded.now text a) }
{
    match standing {
        Standing::Other(other) => Ok(other_problem(other)),
        Standing::Failed(why) => refused(why),
        Standing::Plain(checker) => match checker.finish() {
            Ok(accepted) => Ok(LogAnswer::Accepted(accepted.entries)),
            Err(why) => refused(why),
        },
        Standing::Hinted(entries, hints) => {
            match check_collected(alloc, &encoded.problem, entries, hints) {
                Ok(accepted) => Ok(LogAnswer::Accepted(accepted.entries)),
                Err(why) => refused(why),
            }
        }
    }
}

// What is answered of a log's text for a program and its problem.
fn check_for(
    alloc: Global,
    checked: &Checked,
    encoded: &Encoded,
    text: &[u8],
) -> Result<LogAnswer, OutOfMemory>
    ensures { IfOk result (IsAnswerFor checked.now encoded.now text.now) }
{
    let ours = heads::head_of(checked, encoded);
    match read_pieces(alloc, &encoded.problem, &ours, text) {
        Ok(standing) => answer_of(alloc, checked, encoded, standing),
        Err(LogFault::LogText(line)) => Ok(LogAnswer::BadLog(line)),
        Err(LogFault::OutOfMemory) => Err(OutOfMemory),
    }
}

/// What is answered of a log's text for a program under a memory model. The log's text is judged before its head, and its head before
/// its entries. It is read in pieces: a log without hints costs the propagation of each entry, and memory for the entries' clauses; one
/// with hints is checked once it is read, by a look at each literal of the hinted clauses.
///
/// # Errors
/// Want of memory alone.
pub fn check_text(
    alloc: Global,
    checked: &Checked,
    model: MemoryModel,
    text: &[u8],
) -> Result<LogAnswer, OutOfMemory>
    requires { IsChecked checked.now }
    ensures { IfOk result (IsCheck model checked.now text.now) }
{
    let encoded = encode(alloc, checked, model)?;
    check_for(alloc, checked, &encoded, text)
}
