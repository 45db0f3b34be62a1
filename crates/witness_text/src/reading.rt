// Reading a witness, line by line.
ghost use Rattle.std.specs.Prelude.{◌≡◌, [], IfOk, IfErr, MatchOption, None, Some, slice_get};
ghost use Rattle.witness_text.specs.Machine.{between, ended, may_follow, on_end, on_head, on_order, on_script, on_source, on_thread, part_of, start, step};
ghost use Rattle.c_check.specs.PlainNames.{HasPlainNames, cell_names};
ghost use Rattle.witness_text.specs.Spelling.{Spells, event_before, handle_before, reader_before};
ghost use Rattle.witness_text.specs.Faults.{IsFaultOf};
ghost use Rattle.witness_text.specs.declared.reading.WitnessFault.TheVariants.{OutOfMemory};

use crate::lines::{ThreadHead, head, order, script, source};
use axiom_model::{Candidate, Event, RfPair, ThreadPart};
use c_check::{CellInfo, Checked};
use dg_base::{List, OutOfMemory};
use line_text::cut;
use std::alloc::{AllocError, Global};

/// Why a text was not read.
#[derive(Debug, Clone, Copy, PartialEq, Eq, Drop, thiserror::Error)]
pub enum WitnessFault {
    /// The text spells no candidate; the number of the line at which it goes wrong, from 1.
    #[error("no witness: line {0}")]
    WitnessText(u32),
    /// Memory ran out.
    #[error("out of memory")]
    OutOfMemory,
}

impl From<OutOfMemory> for WitnessFault {
    ghost from_gives = { λ _ fault. fault ≡ OutOfMemory };

    fn from(_: OutOfMemory) -> Self {
        WitnessFault::OutOfMemory
    }
}

/// Where the reader is.
#[derive(Debug, Clone, Copy, Drop)]
pub enum Stage {
    /// Before the first line.
    Head,
    /// Between the lines of whole threads, pairs and orders.
    Between,
    /// Behind a thread's first line.
    Script(ThreadHead),
    /// Behind the last line.
    End,
}

/// What was read.
#[derive(Debug, Drop)]
pub struct Reading {
    /// Where the reader is.
    pub stage: Stage,
    /// The candidate as far as it was read.
    pub candidate: Candidate,
}

fn started(alloc: Global) -> Reading
    ensures { result ≡ start }
{
    Reading {
        stage: Stage::Head,
        candidate: Candidate {
            threads: List::new(alloc),
            rf: List::new(alloc),
            co: List::new(alloc),
        },
    }
}

fn on_head(candidate: Candidate, line: &[u8]) -> Option<Reading>
    ensures { result ≡ on_head candidate line.now }
{
    if line == b"deagle-witness 1".as_slice() {
        Some(Reading {
            stage: Stage::Between,
            candidate,
        })
    } else {
        None
    }
}

// Whether a thread with this handle may stand behind the last one.
fn thread_may_follow(threads: &[ThreadPart], handle: u32) -> bool
    ensures { (head : ThreadHead) → head.handle ≡ handle → result ≡ may_follow handle_before threads.now (part_of head []) }
{
    match threads.last() {
        Some(last) => last.handle < handle,
        None => true,
    }
}

// Whether the first event stands before the second one, by handle and index; an initial write stands before and behind nothing.
fn event_before(first: Event, second: Event) -> bool
    ensures { result ≡ event_before first second }
{
    match (first, second) {
        (
            Event::At { handle, index },
            Event::At {
                handle: other_handle,
                index: other_index,
            },
        ) => handle < other_handle || (handle == other_handle && index < other_index),
        (Event::At { .. }, Event::Initial) => false,
        (Event::Initial, _) => false,
    }
}

// Whether the pair may stand behind the last one.
fn pair_may_follow(pairs: &[RfPair], pair: RfPair) -> bool
    ensures { result ≡ may_follow reader_before pairs.now pair }
{
    match pairs.last() {
        Some(last) => event_before(last.reader, pair.reader),
        None => true,
    }
}

// Behind `thread `.
fn on_thread(checked: &Checked, candidate: Candidate, text: &[u8]) -> Option<Reading>
    ensures { result ≡ on_thread checked.now.functions candidate text.now }
{
    if !(candidate.rf.is_empty() && candidate.co.is_empty()) {
        return None;
    }
    let head = head(checked.functions.as_slice(), text)?;
    if thread_may_follow(candidate.threads.as_slice(), head.handle) {
        Some(Reading {
            stage: Stage::Script(head),
            candidate,
        })
    } else {
        None
    }
}

// Behind `rf `.
fn on_source(mut candidate: Candidate, text: &[u8]) -> Result<Option<Reading>, AllocError>
    ensures { IfOk result (λ next. next ≡ on_source candidate text.now) }
{
    if !candidate.co.is_empty() {
        return Ok(None);
    }
    let Some(pair) = source(text) else {
        return Ok(None);
    };
    if !pair_may_follow(candidate.rf.as_slice(), pair) {
        return Ok(None);
    }
    candidate.rf.push(pair)?;
    Ok(Some(Reading {
        stage: Stage::Between,
        candidate,
    }))
}

fn cell_name(cells: &[CellInfo], number: usize) -> Option<&[u8]>
    ensures { MatchOption result (slice_get (cell_names cells.now) number ≡ None) (λ name. slice_get (cell_names cells.now) number ≡ Some name.now) }
{
    let cell = cells.get(number)?;
    Some(cell.name.as_slice())
}

// Behind `co `.
fn on_order(
    alloc: Global,
    checked: &Checked,
    mut candidate: Candidate,
    text: &[u8],
) -> Result<Option<Reading>, OutOfMemory>
    ensures { IfOk result (λ next. next ≡ on_order (cell_names checked.now.cells) candidate text.now) }
{
    let Some(cell) = cell_name(checked.cells.as_slice(), candidate.co.len()) else {
        return Ok(None);
    };
    match order(alloc, cell, text)? {
        Some(events) => {
            candidate.co.push(events)?;
            Ok(Some(Reading {
                stage: Stage::Between,
                candidate,
            }))
        }
        None => Ok(None),
    }
}

fn on_end(checked: &Checked, candidate: Candidate, line: &[u8]) -> Option<Reading>
    ensures { result ≡ on_end (cell_names checked.now.cells) candidate line.now }
{
    if line == b"end".as_slice() && candidate.co.len() == checked.cells.len() {
        Some(Reading {
            stage: Stage::End,
            candidate,
        })
    } else {
        None
    }
}

fn between(
    alloc: Global,
    checked: &Checked,
    candidate: Candidate,
    line: &[u8],
) -> Result<Option<Reading>, OutOfMemory>
    ensures { IfOk result (λ next. next ≡ between checked.now.functions (cell_names checked.now.cells) candidate line.now) }
{
    if let Some(text) = line.strip_prefix(b"thread ") {
        Ok(on_thread(checked, candidate, text))
    } else if let Some(text) = line.strip_prefix(b"rf ") {
        Ok(on_source(candidate, text)?)
    } else if let Some(text) = line.strip_prefix(b"co ") {
        on_order(alloc, checked, candidate, text)
    } else {
        Ok(on_end(checked, candidate, line))
    }
}

fn on_script(
    alloc: Global,
    mut candidate: Candidate,
    head: ThreadHead,
    line: &[u8],
) -> Result<Option<Reading>, OutOfMemory>
    ensures { IfOk result (λ next. next ≡ on_script candidate head line.now) }
{
    match script(alloc, line)? {
        Some(script) => {
            candidate.threads.push(ThreadPart {
                handle: head.handle,
                function: head.function,
                arg: head.arg,
                script,
            })?;
            Ok(Some(Reading {
                stage: Stage::Between,
                candidate,
            }))
        }
        None => Ok(None),
    }
}

impl Reading {
    // Reads one line; none where no witness goes on with it.
    fn step(
        self,
        alloc: Global,
        checked: &Checked,
        line: &[u8],
    ) -> Result<Option<Reading>, OutOfMemory>
        ensures { IfOk result (λ next. next ≡ step checked.now.functions (cell_names checked.now.cells) self line.now) }
    {
        match self.stage {
            Stage::Head => Ok(on_head(self.candidate, line)),
            Stage::Between => between(alloc, checked, self.candidate, line),
            Stage::Script(head) => on_script(alloc, self.candidate, head, line),
            Stage::End => Ok(None),
        }
    }

    // What was read, where the last line was read and nothing stands behind it.
    fn ended(self, rest: &[u8]) -> Option<Candidate>
        ensures { result ≡ ended self rest.now }
    {
        match self.stage {
            Stage::End => match rest {
                [] => Some(self.candidate),
                [_, ..] => None,
            },
            Stage::Head => None,
            Stage::Between => None,
            Stage::Script(_) => None,
        }
    }
}

/// Reads a witness: the one candidate that the text spells, or the line at which it goes wrong, which is the one behind the longest
/// run of whole lines with which some witness begins.
pub fn read_witness(
    alloc: Global,
    checked: &Checked,
    text: &[u8],
) -> Result<Candidate, WitnessFault>
    requires { HasPlainNames checked.now.functions (cell_names checked.now.cells) }
    ensures read { IfOk result (λ candidate. Spells checked.now.functions (cell_names checked.now.cells) candidate text.now) }
    ensures refused { IfErr result (IsFaultOf checked.now.functions (cell_names checked.now.cells) text.now) }
{
    let mut reading = started(alloc);
    let mut rest = text;
    let mut number: u32 = 1;
    while let Some((line, behind)) = cut(b'\n', rest) {
        match reading.step(alloc, checked, line)? {
            Some(next) => reading = next,
            None => return Err(WitnessFault::WitnessText(number)),
        }
        rest = behind;
        number = number.saturating_add(1);
    }
    match reading.ended(rest) {
        Some(candidate) => Ok(candidate),
        None => Err(WitnessFault::WitnessText(number)),
    }
}
