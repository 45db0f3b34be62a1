// Printing a log.
ghost use Rattle.std.specs.Prelude.{◌≡◌, ◌≤◌, ◌++◌, ◌∷◌, [], IfOk, OnOk, false, if◌then◌else◌, map, slice_index_or, true};
ghost use Rattle.std.specs.List.{AllByRecursion};
ghost use Rattle.cnf_problem.specs.Literals.{var as variable};
ghost use Rattle.line_text.specs.Lines.{text_of};
ghost use Rattle.line_text.specs.Words.{shown};
ghost use Rattle.cnf_problem.specs.declared.problem.LemmaKind.TheVariants.{Unit as ByUnit};
ghost use Rattle.lemma_log.specs.declared.hints.AnyLog.TheVariants.{Hinted, Plain};
ghost use Rattle.log_text.specs.Formats.{first_line, head_line, head_lines, hint_text, hint_words, kind_text, lit_text, log_text, model_line, model_text, number_line, row_line};
ghost use Rattle.log_text.specs.Numbers.{HasHeadNumbers, HasRowNumbers, IsHeadNumber, IsHintNumber};
ghost use Rattle.log_text.specs.Spelling.{AreHintsWritable, IsLogWritable, IsNumber, Spells, hinted_rows, row_of, written};

use crate::stage::HeadLine;
use cnf_problem::{Head, LemmaKind, var};
use dg_base::{List, Lit, OutOfMemory};
use lemma_log::{Entry, Hint, HintedLog, Log};
use line_text::{put, put_number};
use std::alloc::Global;

fn put_lit(out: &mut Vec<u8>, lit: Lit) -> Result<(), OutOfMemory>
    ensures text { OnOk result (out.new.items ≡ out.old.items ++ lit_text lit) }
    ensures number { variable lit ≤ 2147483647 }
{
    if lit.0 % 2 == 1 {
        put(out, b"-")?;
    }
    put_number(out, var(lit))
}

fn put_hint(out: &mut Vec<u8>, hint: Hint) -> Result<(), OutOfMemory>
    ensures text { OnOk result (out.new.items ≡ out.old.items ++ hint_text hint) }
    ensures number { IsHintNumber hint }
{
    match hint {
        Hint::Clause(number) => {
            put(out, b"p")?;
            put_number(out, number)
        }
        Hint::Ticket(ticket) => {
            put(out, b"t")?;
            put_number(out, ticket)
        }
    }
}

fn put_kind(out: &mut Vec<u8>, kind: LemmaKind) -> Result<(), OutOfMemory>
    ensures { OnOk result (out.new.items ≡ out.old.items ++ kind_text kind) }
{
    match kind {
        LemmaKind::Unit => put(out, b"u"),
        LemmaKind::Cycle => put(out, b"c"),
    }
}

// The literals, each behind a blank.
fn put_lits(out: &mut Vec<u8>, lits: &[Lit]) -> Result<(), OutOfMemory>
    ensures text { OnOk result (out.new.items ≡ out.old.items ++ shown lit_text lits.now) }
    ensures numbers { OnOk result (AllByRecursion (λ l. variable l ≤ 2147483647) lits.now) }
{
    for lit in lits {
        put(out, b" ")?;
        put_lit(out, *lit)?;
    }
    Ok(())
}

// The hints, each behind a blank.
fn put_hints(out: &mut Vec<u8>, hints: &[Hint]) -> Result<(), OutOfMemory>
    ensures text { OnOk result (out.new.items ≡ out.old.items ++ shown hint_text hints.now) }
    ensures numbers { OnOk result (AllByRecursion IsHintNumber hints.now) }
{
    for hint in hints {
        put(out, b" ")?;
        put_hint(out, *hint)?;
    }
    Ok(())
}

// Where the text has hints and the lemma is by unit propagation, the hints and a `0`.
fn put_hints_behind(
    out: &mut Vec<u8>,
    hinted: bool,
    kind: LemmaKind,
    hints: &[Hint],
) -> Result<(), OutOfMemory>
    ensures text { OnOk result (out.new.items ≡ out.old.items ++ shown (λ v. v) (if hinted then hint_words kind hints.now else [])) }
    ensures numbers { OnOk result (hinted ≡ true → kind ≡ ByUnit → AllByRecursion IsHintNumber hints.now) }
{
    if !hinted {
        return Ok(());
    }
    match kind {
        LemmaKind::Unit => {
            put_hints(out, hints)?;
            put(out, b" 0")
        }
        LemmaKind::Cycle => Ok(()),
    }
}

// `TICKET WORKER KIND`, the literals and a `0`, and then the hints.
fn put_row(
    out: &mut Vec<u8>,
    hinted: bool,
    entry: &Entry,
    hints: &[Hint],
) -> Result<(), OutOfMemory>
    ensures text { OnOk result (out.new.items ≡ out.old.items ++ (row_line hinted (row_of entry.now hints.now) ++ 10 ∷ [])) }
    ensures numbers { OnOk result (HasRowNumbers hinted (row_of entry.now hints.now)) }
{
    put_number(out, entry.ticket)?;
    put(out, b" ")?;
    put_number(out, entry.worker)?;
    put(out, b" ")?;
    put_kind(out, entry.lemma.kind)?;
    put_lits(out, entry.lemma.lits.as_slice())?;
    put(out, b" 0")?;
    put_hints_behind(out, hinted, entry.lemma.kind, hints)?;
    put(out, b"\n")
}

// The hints of the entry at this place.
fn hints_at(hints: &[List<Hint>], at: usize) -> &[Hint]
    ensures { result.now ≡ slice_index_or hints.now at [] }
{
    match hints.get(at) {
        Some(hints) => hints.as_slice(),
        None => &[],
    }
}

// The lines of all entries.
fn put_entries(
    out: &mut Vec<u8>,
    hinted: bool,
    entries: &[Entry],
    hints: &[List<Hint>],
) -> Result<(), OutOfMemory>
    ensures text { OnOk result (out.new.items ≡ out.old.items ++ text_of (map (row_line hinted) (hinted_rows entries.now hints.now))) }
    ensures numbers { OnOk result (AllByRecursion (HasRowNumbers hinted) (hinted_rows entries.now hints.now)) }
{
    for (at, entry) in entries.iter().enumerate() {
        put_row(out, hinted, entry, hints_at(hints, at))?;
    }
    Ok(())
}

fn model_name(model: u8) -> &'static [u8]
    ensures { result.now ≡ model_text model }
{
    match model {
        0 => b"sc",
        1 => b"tso",
        _ => b"pso",
    }
}

fn put_model(out: &mut Vec<u8>, model: u8) -> Result<(), OutOfMemory>
    ensures { OnOk result (out.new.items ≡ out.old.items ++ model_line model) }
{
    put(out, b"model ")?;
    put(out, model_name(model))
}

fn put_named(out: &mut Vec<u8>, name: &[u8], number: u32) -> Result<(), OutOfMemory>
    ensures text { OnOk result (out.new.items ≡ out.old.items ++ number_line name.now number) }
    ensures number { IsNumber number }
{
    put(out, name)?;
    put_number(out, number)
}

/// Appends this line of a head, without its line feed.
pub fn put_head_line(out: &mut Vec<u8>, head: &Head, at: HeadLine) -> Result<(), OutOfMemory>
    ensures text { OnOk result (out.new.items ≡ out.old.items ++ head_line head.now at) }
    ensures number { IsHeadNumber head.now at }
{
    match at {
        HeadLine::Model => put_model(out, head.model),
        HeadLine::Unroll => put_named(out, b"unroll ", head.unroll),
        HeadLine::Vars => put_named(out, b"vars ", head.vars),
        HeadLine::Clauses => put_named(out, b"clauses ", head.clauses),
        HeadLine::Nodes => put_named(out, b"nodes ", head.nodes),
        HeadLine::Atoms => put_named(out, b"atoms ", head.atoms),
    }
}

// The same line, with its line feed.
fn put_whole_head_line(out: &mut Vec<u8>, head: &Head, at: HeadLine) -> Result<(), OutOfMemory>
    ensures text { OnOk result (out.new.items ≡ out.old.items ++ (head_line head.now at ++ 10 ∷ [])) }
    ensures number { IsHeadNumber head.now at }
{
    put_head_line(out, head, at)?;
    put(out, b"\n")
}

fn put_head(out: &mut Vec<u8>, head: &Head) -> Result<(), OutOfMemory>
    ensures text { OnOk result (out.new.items ≡ out.old.items ++ text_of (head_lines head.now)) }
    ensures numbers { OnOk result (HasHeadNumbers head.now) }
{
    put_whole_head_line(out, head, HeadLine::Model)?;
    put_whole_head_line(out, head, HeadLine::Unroll)?;
    put_whole_head_line(out, head, HeadLine::Vars)?;
    put_whole_head_line(out, head, HeadLine::Clauses)?;
    put_whole_head_line(out, head, HeadLine::Nodes)?;
    put_whole_head_line(out, head, HeadLine::Atoms)
}

fn first_line(hinted: bool) -> &'static [u8]
    ensures { result.now ≡ first_line hinted ++ 10 ∷ [] }
{
    if hinted {
        b"deagle-log 2\n"
    } else {
        b"deagle-log 1\n"
    }
}

// The whole text; without hints the list of hints is empty.
fn put_log(
    out: &mut Vec<u8>,
    hinted: bool,
    head: &Head,
    entries: &[Entry],
    hints: &[List<Hint>],
) -> Result<(), OutOfMemory>
    ensures text { OnOk result (out.new.items ≡ out.old.items ++ log_text (record { hinted = hinted; head = head.now; rows = hinted_rows entries.now hints.now })) }
    ensures head_numbers { OnOk result (HasHeadNumbers head.now) }
    ensures numbers { OnOk result (AllByRecursion (HasRowNumbers hinted) (hinted_rows entries.now hints.now)) }
{
    put(out, first_line(hinted))?;
    put_head(out, head)?;
    put_entries(out, hinted, entries, hints)?;
    put(out, b"end\n")
}

/// The text of a log, in the format without hints.
pub fn print_log(alloc: Global, head: &Head, log: &Log) -> Result<List<u8>, OutOfMemory>
    requires { IsLogWritable head.now log.now.entries }
    ensures text { IfOk result (λ text. text ≡ log_text (written head.now (Plain log.now))) }
    ensures spells { IfOk result (Spells true (written head.now (Plain log.now))) }
{
    let mut out = Vec::new(alloc);
    put_log(&mut out, false, head, log.entries.as_slice(), &[])?;
    Ok(List::from_vec(out))
}

/// The text of a hinted log.
pub fn print_hinted(alloc: Global, head: &Head, log: &HintedLog) -> Result<List<u8>, OutOfMemory>
    requires log { IsLogWritable head.now log.now.log.entries }
    requires hints { AreHintsWritable log.now.hints }
    ensures text { IfOk result (λ text. text ≡ log_text (written head.now (Hinted log.now))) }
    ensures spells { IfOk result (Spells false (written head.now (Hinted log.now))) }
{
    let mut out = Vec::new(alloc);
    put_log(
        &mut out,
        true,
        head,
        log.log.entries.as_slice(),
        log.hints.as_slice(),
    )?;
    Ok(List::from_vec(out))
}
