// Reading a log in pieces.
ghost use Rattle.std.specs.Prelude.{◌≡◌, ◌≢◌, ◌++◌, ◌∷◌, [], ℕ, Bool, List as TheList, false, Err, IfErr, IfOk, MatchOption, OnErr, OnOk, None, Some};
ghost use Rattle.line_text.specs.Lines.{BeginsWhole};
ghost use Rattle.log_text.specs.Faults.{IsFaultOf, IsFaultOfLines, IsKept};
ghost use Rattle.log_text.specs.Fed.{HasRead, HasReadOn, Tells};
ghost use Rattle.log_text.specs.Formats.{Row, Written};
ghost use Rattle.log_text.specs.Machine.{has_ended, head_of, hinted_of};
ghost use Rattle.log_text.specs.Spelling.{Spells, rows_given};
ghost use Rattle.log_text.specs.declared.reading.LogFault.TheVariants.{OutOfMemory as NoMemory};

use crate::run::Run;
use crate::stage::Stage;
use cnf_problem::Head;
use dg_base::{List, OutOfMemory};
use lemma_log::{Entry, Hint, HintedEntry};
use line_text::cut;
use std::alloc::{AllocError, Global};
use std::collections::VecDeque;
use std::marker::Model;

/// Why a text was not read.
#[derive(Debug, Clone, Copy, PartialEq, Eq, Drop, thiserror::Error)]
pub enum LogFault {
    /// The text spells no log; the number of the line at which it goes wrong, from 1.
    #[error("no log: line {0}")]
    LogText(u32),
    /// Memory ran out.
    #[error("out of memory")]
    OutOfMemory,
}

impl From<OutOfMemory> for LogFault {
    ghost from_gives = { λ _ fault. fault ≡ NoMemory };

    fn from(_: OutOfMemory) -> Self {
        LogFault::OutOfMemory
    }
}

impl From<AllocError> for LogFault {
    ghost from_gives = { λ _ fault. fault ≡ NoMemory };

    fn from(_: AllocError) -> Self {
        LogFault::OutOfMemory
    }
}

/// A reader of a log's text, which comes in pieces. It keeps the bytes of a line until the line is whole, and the entries of the
/// lines that it has read until they are taken.
#[derive(Debug, Drop)]
pub struct LogReader {
    alloc: Global,
    stage: Stage,
    number: u32,
    held: Vec<u8>,
    ready: VecDeque<HintedEntry>,
    fault: Option<u32>,
}

impl Model for LogReader {
    ghost use Rattle.log_text.specs.Fed.{ReaderView};

    ghost Value = { ReaderView };

    ghost view = { λ r. record { stage = r.stage; number = r.number; held = r.held.items; ready = r.ready.items; fault = r.fault } };
}

// Whether the last line was read, and nothing stands behind it.
fn has_ended(stage: Stage, held: &[u8]) -> bool
    ensures { result ≡ has_ended stage held.now }
{
    match stage {
        Stage::End(_, _) => match held {
            [] => true,
            [_, ..] => false,
        },
        Stage::Format(_) => false,
        Stage::InHead(_, _, _) => false,
        Stage::Body(_, _, _) => false,
    }
}

// The bytes of both.
fn joined(alloc: Global, held: &[u8], piece: &[u8]) -> Result<Vec<u8>, OutOfMemory>
    ensures { IfOk result (λ bytes. bytes.items ≡ held.now ++ piece.now) }
{
    let mut bytes = Vec::from_slice(alloc, held)?;
    bytes.extend_from_slice(piece)?;
    Ok(bytes)
}

impl LogReader {
    // A reader that was fed nothing; whether it reads the format without hints alone.
    pub(crate) fn of(alloc: Global, plain_only: bool) -> Result<LogReader, OutOfMemory>
        ensures { IfOk result (λ r. HasRead plain_only r [] []) }
    {
        Ok(LogReader {
            alloc,
            stage: Stage::Format(plain_only),
            number: 1,
            held: Vec::new(alloc),
            ready: VecDeque::new(alloc),
            fault: None,
        })
    }

    /// A reader of both formats that was fed nothing.
    pub fn new(alloc: Global) -> Result<LogReader, OutOfMemory>
        ensures { IfOk result (λ r. HasRead false r [] []) }
    {
        LogReader::of(alloc, false)
    }

    /// Reads on. It is refused where the whole lines fed so far begin no spelling, with the first line at which this is so, and
    /// from then on always so; the entries of the lines before it can still be taken. Where memory ran out, the reader is as
    /// before. The time is linear in the piece and in what was held.
    pub fn feed(&mut self, piece: &[u8]) -> Result<(), LogFault>
        ensures reads { result ≢ Err NoMemory → (b : Bool) (fed : TheList ℕ) (given : TheList Row) → HasRead b self.old fed given → HasRead b self.new (fed ++ piece.now) given }
        ensures ok { OnOk result ((b : Bool) (fed : TheList ℕ) (given : TheList Row) → HasRead b self.old fed given → BeginsWhole (Spells b) (fed ++ piece.now)) }
        ensures refused { IfErr result (λ e. (b : Bool) (fed : TheList ℕ) (given : TheList Row) → HasRead b self.old fed given → IsFaultOfLines b (fed ++ piece.now) e) }
        ensures memory { result ≡ Err NoMemory → self.new ≡ self.old }
    {
        if let Some(line) = self.fault {
            return Err(LogFault::LogText(line));
        }
        if cut(b'\n', piece).is_none() {
            self.held.extend_from_slice(piece)?;
            return Ok(());
        }
        if self.held.is_empty() {
            return self.read_on(piece);
        }
        let bytes = joined(self.alloc, self.held.as_slice(), piece)?;
        self.read_on(bytes.as_slice())
    }

    // Reads the whole lines of these bytes, which are those that are held and a piece, and holds what stands behind them.
    fn read_on(&mut self, bytes: &[u8]) -> Result<(), LogFault>
        requires { self.old.fault ≡ None }
        ensures read { result ≢ Err NoMemory → HasReadOn self.old self.new bytes.now }
        ensures ok { OnOk result (self.new.fault ≡ None) }
        ensures refused { IfErr result (IsKept self.new.fault) }
        ensures memory { result ≡ Err NoMemory → self.new ≡ self.old }
    {
        let mut run = Run::new(self.alloc, self.stage, self.number);
        let (stopped, rest) = run.lines(self.alloc, bytes)?;
        let held = Vec::from_slice(self.alloc, rest)?;
        self.ready.append(&mut run.fresh)?;
        self.stage = run.stage;
        self.number = run.number;
        self.held = held;
        if stopped {
            self.fault = Some(run.number);
            return Err(LogFault::LogText(run.number));
        }
        Ok(())
    }

    /// The next entry that was read, with its hints: None exactly where all were taken. It takes no memory.
    pub fn next_hints(&mut self) -> Option<(Entry, List<Hint>)>
        ensures next { MatchOption result ((self.old.ready ≡ []) × (self.new ≡ self.old)) (λ p. (self.old.ready ≡ record { entry = p.0; hints = p.1 } ∷ self.new.ready) × (self.new ≡ record self.old { ready = self.new.ready })) }
        ensures reads { (b : Bool) (fed : TheList ℕ) (given : TheList Row) → HasRead b self.old fed given → HasRead b self.new fed (given ++ rows_given result) }
    {
        let HintedEntry { entry, hints } = self.ready.pop_front()?;
        Some((entry, hints))
    }

    /// The head: None exactly where fewer than seven whole lines with which some spelling begins were fed.
    pub fn head(&self) -> Option<Head>
        ensures { result ≡ head_of self.now.stage }
    {
        match self.stage {
            Stage::Format(_) => None,
            Stage::InHead(_, _, _) => None,
            Stage::Body(_, head, _) => Some(head),
            Stage::End(_, head) => Some(head),
        }
    }

    /// Whether there are hints: None exactly where no whole line with which some spelling begins was fed.
    pub fn hinted(&self) -> Option<bool>
        ensures { result ≡ hinted_of self.now.stage }
    {
        match self.stage {
            Stage::Format(_) => None,
            Stage::InHead(hinted, _, _) => Some(hinted),
            Stage::Body(hinted, _, _) => Some(hinted),
            Stage::End(hinted, _) => Some(hinted),
        }
    }

    /// Whether the bytes fed, in whatever pieces, spell a log, whose entries are those given and left; or the line at which they
    /// go wrong.
    pub fn finish(self) -> Result<(), LogFault>
        ensures ok { OnOk result ((b : Bool) (fed : TheList ℕ) (given : TheList Row) → HasRead b self fed given → (w : Written) × Spells b w fed × Tells self given w) }
        ensures refused { IfErr result (λ e. (b : Bool) (fed : TheList ℕ) (given : TheList Row) → HasRead b self fed given → IsFaultOf b fed e) }
        ensures no_memory { result ≢ Err NoMemory }
    {
        if let Some(line) = self.fault {
            return Err(LogFault::LogText(line));
        }
        if has_ended(self.stage, self.held.as_slice()) {
            return Ok(());
        }
        Err(LogFault::LogText(self.number))
    }
}
