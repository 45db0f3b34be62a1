// What is said of a log, as status and text.
ghost use Rattle.std.specs.Prelude.{◌≡◌, ◌++◌, Some, None, IfOk, OnOk};
ghost use Rattle.dg_top.specs.Answers.{Migrated, OfLog};
ghost use Rattle.dg_top.specs.LogLines.{log_answer_text, log_status, other_text, refused_text};
ghost use Rattle.dg_top.specs.Replies.{Spells, kept_of};

use crate::reply::{Keeping, Reply};
use crate::text::put_numbered;
use dg_base::OutOfMemory;
use line_text::put;
use log_checker::Refused;
use program_log::LogAnswer;
use std::alloc::Global;

// Appends why a log is refused.
fn put_refused(out: &mut Vec<u8>, why: &Refused) -> Result<(), OutOfMemory>
    ensures { OnOk result (out.new.items ≡ out.old.items ++ refused_text why.now) }
{
    match why {
        Refused::BadNumber(ticket, variable) => {
            put_numbered(out, b"BadNumber ", *ticket)?;
            put_numbered(out, b" ", *variable)
        }
        Refused::NotImplied(ticket, _) => put_numbered(out, b"NotImplied ", *ticket),
        Refused::BadHint(ticket, position) => {
            put_numbered(out, b"BadHint ", *ticket)?;
            put_numbered(out, b" ", *position)
        }
        Refused::NoCycle(ticket, _, _) => put_numbered(out, b"NoCycle ", *ticket),
        Refused::NoEmpty(entries) => put_numbered(out, b"NoEmpty ", *entries),
        Refused::OutOfMemory => Ok(()),
    }
}

// Appends the lines that tell a log of another problem.
fn put_other(out: &mut Vec<u8>, line: u32, theirs: &[u8], ours: &[u8]) -> Result<(), OutOfMemory>
    ensures { OnOk result (out.new.items ≡ out.old.items ++ other_text line theirs.now ours.now) }
{
    put_numbered(out, b"REFUSED OtherProblem ", line)?;
    put(out, b"\nlog ")?;
    put(out, theirs)?;
    put(out, b"\nhere ")?;
    put(out, ours)?;
    put(out, b"\n")
}

// Appends what is said of a log.
fn put_log_answer(out: &mut Vec<u8>, answer: &LogAnswer) -> Result<(), OutOfMemory>
    ensures { OnOk result (out.new.items ≡ out.old.items ++ log_answer_text answer.now) }
{
    match answer {
        LogAnswer::Accepted(entries) => put_numbered(out, b"ACCEPTED ", *entries)?,
        LogAnswer::OtherProblem(line, theirs, ours) => {
            return put_other(out, *line, theirs.as_slice(), ours.as_slice());
        }
        LogAnswer::Refused(why) => {
            put(out, b"REFUSED ")?;
            put_refused(out, why)?;
        }
        LogAnswer::BadLog(line) => put_numbered(out, b"refused G1 LogText ", *line)?,
    }
    put(out, b"\n")
}

// The status of what is said of a log.
fn status_of(answer: &LogAnswer) -> u8
    ensures { result ≡ log_status answer.now }
{
    match answer {
        LogAnswer::Accepted(_) => 0,
        LogAnswer::OtherProblem(..) | LogAnswer::Refused(_) => 1,
        LogAnswer::BadLog(_) => 4,
    }
}

/// What is said of a log.
pub fn of_log(alloc: Global, answer: &LogAnswer) -> Result<Reply, OutOfMemory>
    ensures { IfOk result (Spells (OfLog answer.now) None) }
{
    let mut text = Vec::new(alloc);
    put_log_answer(&mut text, answer)?;
    Ok(Reply {
        status: status_of(answer),
        text,
        kept: None,
    })
}

/// A log of so many entries is kept anew.
pub fn migrated(alloc: Global, entries: u32, kept: Keeping) -> Result<Reply, OutOfMemory>
    ensures { IfOk result (Spells (Migrated entries) (Some (kept_of kept))) }
{
    let mut text = Vec::new(alloc);
    put_numbered(&mut text, b"MIGRATED ", entries)?;
    put(&mut text, b"\n")?;
    Ok(Reply {
        status: 0,
        text,
        kept: Some(kept),
    })
}
