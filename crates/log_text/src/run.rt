// A run of the machine over whole lines.
ghost use Rattle.std.specs.Prelude.{◌≡◌, ◌+◌, min, IfOk, MatchBool, []};
ghost use Rattle.log_text.specs.Machine.{behind as stage_behind, head_with, model_in_line, named, next_stage, no_head, on_format};
ghost use Rattle.log_text.specs.Running.{HasTaken, HasTakenLines, IsDone, StopsAt};

use crate::lines::row;
use crate::stage::{HeadLine, Stage};
use cnf_problem::Head;
use dg_base::OutOfMemory;
use lemma_log::HintedEntry;
use line_text::{cut, number};
use std::alloc::Global;
use std::collections::VecDeque;

/// A run over lines: where it is, the number of the line that comes next, and the entries that the lines gave.
#[derive(Debug, Drop)]
pub struct Run {
    pub stage: Stage,
    pub number: u32,
    pub fresh: VecDeque<HintedEntry>,
}

/// The head before its lines were read.
pub fn no_head() -> Head
    ensures { result ≡ no_head }
{
    Head {
        model: 0,
        unroll: 0,
        vars: 0,
        clauses: 0,
        nodes: 0,
        atoms: 0,
    }
}

fn on_format(plain_only: bool, line: &[u8]) -> Option<Stage>
    ensures { result ≡ on_format plain_only line.now }
{
    let head = no_head();
    if line == b"deagle-log 1".as_slice() {
        Some(Stage::InHead(false, HeadLine::Model, head))
    } else if line == b"deagle-log 2".as_slice() && !plain_only {
        Some(Stage::InHead(true, HeadLine::Model, head))
    } else {
        None
    }
}

fn model(line: &[u8]) -> Option<u8>
    ensures { result ≡ model_in_line line.now }
{
    let name = line.strip_prefix(b"model ")?;
    if name == b"sc".as_slice() {
        Some(0)
    } else if name == b"tso".as_slice() {
        Some(1)
    } else if name == b"pso".as_slice() {
        Some(2)
    } else {
        None
    }
}

// The number behind a name.
fn named(name: &[u8], line: &[u8]) -> Option<u32>
    ensures { result ≡ named name.now line.now }
{
    number(line.strip_prefix(name)?)
}

// The head with this line of it.
fn head_with(at: HeadLine, head: Head, line: &[u8]) -> Option<Head>
    ensures { result ≡ head_with at head line.now }
{
    let mut head = head;
    match at {
        HeadLine::Model => head.model = model(line)?,
        HeadLine::Unroll => head.unroll = named(b"unroll ", line)?,
        HeadLine::Vars => head.vars = named(b"vars ", line)?,
        HeadLine::Clauses => head.clauses = named(b"clauses ", line)?,
        HeadLine::Nodes => head.nodes = named(b"nodes ", line)?,
        HeadLine::Atoms => head.atoms = named(b"atoms ", line)?,
    }
    Some(head)
}

// Where a line of the head leads.
fn behind(hinted: bool, at: HeadLine, head: Head) -> Stage
    ensures { result ≡ stage_behind hinted at head }
{
    match at {
        HeadLine::Model => Stage::InHead(hinted, HeadLine::Unroll, head),
        HeadLine::Unroll => Stage::InHead(hinted, HeadLine::Vars, head),
        HeadLine::Vars => Stage::InHead(hinted, HeadLine::Clauses, head),
        HeadLine::Clauses => Stage::InHead(hinted, HeadLine::Nodes, head),
        HeadLine::Nodes => Stage::InHead(hinted, HeadLine::Atoms, head),
        HeadLine::Atoms => Stage::Body(hinted, head, 0),
    }
}

// Where a line that gives no entry leads.
fn next_stage(stage: Stage, line: &[u8]) -> Option<Stage>
    ensures { result ≡ next_stage stage line.now }
{
    match stage {
        Stage::Format(plain_only) => on_format(plain_only, line),
        Stage::InHead(hinted, at, head) => {
            let head = head_with(at, head, line)?;
            Some(behind(hinted, at, head))
        }
        Stage::Body(hinted, head, _) => {
            if line == b"end".as_slice() {
                Some(Stage::End(hinted, head))
            } else {
                None
            }
        }
        Stage::End(_, _) => None,
    }
}

impl Run {
    /// A run that starts here.
    pub fn new(alloc: Global, stage: Stage, number: u32) -> Run
        ensures { (result.stage ≡ stage) × (result.number ≡ number) × (result.fresh.items ≡ []) }
    {
        Run {
            stage,
            number,
            fresh: VecDeque::new(alloc),
        }
    }

    // Goes on to the next line from this stage.
    fn go(&mut self, stage: Stage)
        ensures { (self.new.stage ≡ stage) × (self.new.number ≡ min (self.old.number + 1) 4294967295) × (self.new.fresh ≡ self.old.fresh) }
    {
        self.stage = stage;
        self.number = self.number.saturating_add(1);
    }

    // Reads one line; false where the run does not go on with it.
    fn line(&mut self, alloc: Global, line: &[u8]) -> Result<bool, OutOfMemory>
        ensures { IfOk result (λ went. MatchBool went (HasTaken self.old self.new line.now) (StopsAt self.old self.new line.now)) }
    {
        if let Some(stage) = next_stage(self.stage, line) {
            self.go(stage);
            return Ok(true);
        }
        let Stage::Body(hinted, head, next) = self.stage else {
            return Ok(false);
        };
        let Some(entry) = row(alloc, hinted, next, line)? else {
            return Ok(false);
        };
        self.fresh.push_back(entry)?;
        self.go(Stage::Body(hinted, head, next + 1));
        Ok(true)
    }

    /// Reads the whole lines of the bytes, or stops at one; answers whether it stopped, and the bytes that are left.
    pub fn lines<'a>(
        &mut self,
        alloc: Global,
        bytes: &'a [u8],
    ) -> Result<(bool, &'a [u8]), OutOfMemory>
        ensures taken { IfOk result (λ p. HasTakenLines self.old self.new bytes.now p.1.now) }
        ensures done { IfOk result (λ p. IsDone p.0 self.new p.1.now) }
    {
        let mut rest = bytes;
        while let Some((line, behind)) = cut(b'\n', rest) {
            if !self.line(alloc, line)? {
                return Ok((true, rest));
            }
            rest = behind;
        }
        Ok((false, rest))
    }
}
