// How a log stands while its text is read.
ghost use Rattle.std.specs.Prelude.{◌≡◌, ◌≢◌, ◌<◌, ◌++◌, ◌∷◌, [], ℕ, IfOk, List as TheList, OnOk, false};
ghost use Rattle.cnf_problem.specs.declared.problem.Head.{Head as TheHead};
ghost use Rattle.lemma_log.specs.declared.Entry.{Entry as TheEntry};
ghost use Rattle.log_checker.specs.declared.refused.Refused.TheVariants.{OutOfMemory as NoMemory};
ghost use Rattle.log_checker.specs.Checking.{HasTaken};
ghost use Rattle.log_text.specs.Fed.{HasRead};
ghost use Rattle.log_text.specs.Formats.{Row};
ghost use Rattle.log_text.specs.Spelling.{row_of};
ghost use Rattle.program_log.specs.declared.standing.Standing.TheVariants.{Failed};
ghost use Rattle.program_log.specs.Pieces.{HasStanding, IsBetween, IsBegun, IsChecked, IsFed, IsHeadOf, IsStanding, MayTake};

use crate::heads::{OtherLine, first_other};
use cnf_problem::{Head, Problem};
use dg_base::{List, OutOfMemory};
use lemma_log::{Entry, Hint};
use log_checker::{Checker, Refused};
use log_text::LogReader;
use std::alloc::Global;

/// How a log stands whose head is known, by the entries that were read.
#[derive(Debug, Drop)]
pub enum Standing {
    /// It is of another problem; its entries are dropped.
    Other(OtherLine),
    /// It has no hints, and each entry follows.
    Plain(Checker),
    /// It has hints; its entries and theirs are checked once all are there.
    Hinted(List<Entry>, List<List<Hint>>),
    /// It has no hints, and this is why its first bad entry is refused; the entries behind that one are dropped.
    Failed(Refused),
}

// How a log with this head and format stands before its entries.
fn begun(
    alloc: Global,
    problem: &Problem,
    ours: &Head,
    theirs: &Head,
    hinted: bool,
) -> Result<Standing, OutOfMemory>
    ensures { IfOk result (λ s. (fed : TheList ℕ) → IsHeadOf fed theirs.now hinted → IsStanding problem.now ours.now (IsHeadOf fed) [] s) }
{
    if let Some(other) = first_other(alloc, theirs, ours)? {
        return Ok(Standing::Other(other));
    }
    if hinted {
        return Ok(Standing::Hinted(List::new(alloc), List::new(alloc)));
    }
    Ok(Standing::Plain(Checker::new(alloc, problem)?))
}

// How the log stands before its entries: None where its head is not known.
fn opened(
    alloc: Global,
    problem: &Problem,
    ours: &Head,
    reader: &LogReader,
) -> Result<Option<Standing>, OutOfMemory>
    ensures { IfOk result (λ o. (fed : TheList ℕ) → HasRead false reader.now fed [] → IsBegun problem.now ours.now reader.now fed o) }
{
    let Some(theirs) = reader.head() else {
        return Ok(None);
    };
    let Some(hinted) = reader.hinted() else {
        return Ok(None);
    };
    Ok(Some(begun(alloc, problem, ours, &theirs, hinted)?))
}

// The standing where an entry is refused.
fn failed(why: Refused) -> Result<Standing, OutOfMemory>
    ensures is { IfOk result (λ s. s ≡ Failed why) }
    ensures told { OnOk result (why ≢ NoMemory) }
{
    match why {
        Refused::OutOfMemory => Err(OutOfMemory),
        why => Ok(Standing::Failed(why)),
    }
}

// The standing behind an entry without hints.
fn check_one(
    problem: &Problem,
    mut checker: Checker,
    entry: &Entry,
) -> Result<Standing, OutOfMemory>
    requires taken { (entries : TheList TheEntry) × HasTaken problem.now entries checker }
    requires ticket { entry.now.ticket ≡ checker.taken }
    requires room { checker.taken < 4294967295 }
    ensures { IfOk result (λ s. (entries : TheList TheEntry) → HasTaken problem.now entries checker → IsChecked problem.now (entries ++ entry.now ∷ []) s) }
{
    match checker.entry(problem, entry) {
        Ok(()) => Ok(Standing::Plain(checker)),
        Err(why) => failed(why),
    }
}

// The standing behind one entry more.
fn take_one(
    problem: &Problem,
    standing: Standing,
    entry: Entry,
    hints: List<Hint>,
) -> Result<Standing, OutOfMemory>
    requires { MayTake problem.now entry standing }
    ensures { IfOk result (λ s. (ours : TheHead) (fed : TheList ℕ) (given : TheList Row) → IsStanding problem.now ours (IsHeadOf fed) given standing
        → IsStanding problem.now ours (IsHeadOf fed) (given ++ row_of entry hints ∷ []) s) }
{
    match standing {
        Standing::Plain(checker) => check_one(problem, checker, &entry),
        Standing::Hinted(mut entries, mut lists) => {
            entries.push(entry)?;
            lists.push(hints)?;
            Ok(Standing::Hinted(entries, lists))
        }
        Standing::Other(other) => Ok(Standing::Other(other)),
        Standing::Failed(why) => Ok(Standing::Failed(why)),
    }
}

// The standing behind all entries that were read.
fn take_all(
    problem: &Problem,
    standing: Standing,
    reader: &mut LogReader,
) -> Result<Standing, OutOfMemory>
    requires { (ours : TheHead) × ((fed : TheList ℕ) × HasStanding problem.now ours reader.old fed standing) }
    ensures standing { IfOk result (λ s. (ours : TheHead) (fed : TheList ℕ) → HasStanding problem.now ours reader.old fed standing → HasStanding problem.now ours reader.new fed s) }
    ensures taken { OnOk result (reader.new.ready ≡ []) }
{
    let mut now = standing;
    while let Some((entry, hints)) = reader.next_hints() {
        now = take_one(problem, now, entry, hints)?;
    }
    Ok(now)
}

// The same where the head was not known before.
fn begin(
    alloc: Global,
    problem: &Problem,
    ours: &Head,
    reader: &mut LogReader,
) -> Result<Option<Standing>, OutOfMemory>
    requires { (fed : TheList ℕ) × HasRead false reader.old fed [] }
    ensures { IfOk result (λ o. (fed : TheList ℕ) → HasRead false reader.old fed [] → IsBetween problem.now ours.now reader.new fed o) }
{
    match opened(alloc, problem, ours, reader)? {
        Some(standing) => Ok(Some(take_all(problem, standing, reader)?)),
        None => Ok(None),
    }
}

/// How the log stands behind one piece more: None where its head is still not known.
pub fn go_on(
    alloc: Global,
    problem: &Problem,
    ours: &Head,
    before: Option<Standing>,
    reader: &mut LogReader,
) -> Result<Option<Standing>, OutOfMemory>
    requires { (fed : TheList ℕ) × IsFed problem.now ours.now reader.old fed before }
    ensures { IfOk result (λ o. (fed : TheList ℕ) → IsFed problem.now ours.now reader.old fed before → IsBetween problem.now ours.now reader.new fed o) }
{
    match before {
        Some(standing) => Ok(Some(take_all(problem, standing, reader)?)),
        None => begin(alloc, problem, ours, reader),
    }
}
