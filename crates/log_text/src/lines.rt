// What the lines of entries say.
ghost use Rattle.std.specs.Prelude.{◌≡◌, ◌<◌, ◌≤◌, true, IfOk, IfSome, MatchOption, None, Some, option_map};
ghost use Rattle.line_text.specs.Words.{opens, words_behind};
ghost use Rattle.log_text.specs.Lines.{hint_in, hints_behind, hints_from, kind_in, lit_in, lits_from, opening_in, row_in, variable_in, worker_in};
ghost use Rattle.log_text.specs.Spelling.{entry_row};

use cnf_problem::{Lemma, LemmaKind, MAX_VARS, negated, positive, var};
use dg_base::{List, Lit, OutOfMemory};
use lemma_log::{Entry, Hint, HintedEntry};
use line_text::{first_word, next_word, number};
use std::alloc::Global;

fn worker(word: &[u8]) -> Option<u32>
    ensures { result ≡ worker_in word.now }
{
    let n = number(word)?;
    if n < 16 { Some(n) } else { None }
}

fn kind(word: &[u8]) -> Option<LemmaKind>
    ensures { result ≡ kind_in word.now }
{
    if word == b"u".as_slice() {
        Some(LemmaKind::Unit)
    } else if word == b"c".as_slice() {
        Some(LemmaKind::Cycle)
    } else {
        None
    }
}

// A variable from 1 to 2147483647.
fn variable(word: &[u8]) -> Option<u32>
    ensures value { result ≡ variable_in word.now }
    ensures small { IfSome result (λ v. v ≤ 2147483647) }
{
    let n = number(word)?;
    if 1 <= n && n <= MAX_VARS {
        Some(n)
    } else {
        None
    }
}

fn literal(word: &[u8]) -> Option<Lit>
    ensures { result ≡ lit_in word.now }
{
    match word.strip_prefix(b"-") {
        Some(word) => Some(negated(positive(variable(word)?))),
        None => Some(positive(variable(word)?)),
    }
}

fn hint(word: &[u8]) -> Option<Hint>
    ensures { result ≡ hint_in word.now }
{
    if let Some(word) = word.strip_prefix(b"p") {
        let n = number(word)?;
        if n == 0 { None } else { Some(Hint::Clause(n)) }
    } else if let Some(word) = word.strip_prefix(b"t") {
        Some(Hint::Ticket(number(word)?))
    } else {
        None
    }
}

// The literals up to a `0`, whose variables rise, and what stands behind it.
fn literals(alloc: Global, text: &[u8]) -> Result<Option<(List<Lit>, &[u8])>, OutOfMemory>
    requires { opens text.now ≡ true }
    ensures { IfOk result (λ o. MatchOption o (lits_from 0 (words_behind text.now) ≡ None)
        (λ p. (lits_from 0 (words_behind text.now) ≡ Some (record { read = p.0; behind = words_behind p.1.now })) × (opens p.1.now ≡ true))) }
{
    let mut lits = List::new(alloc);
    let mut last = 0;
    let mut rest = text;
    while let Some((word, behind)) = next_word(rest) {
        if word == b"0".as_slice() {
            return Ok(Some((lits, behind)));
        }
        let Some(lit) = literal(word) else {
            return Ok(None);
        };
        if var(lit) <= last {
            return Ok(None);
        }
        lits.push(lit)?;
        last = var(lit);
        rest = behind;
    }
    Ok(None)
}

// The hints up to a `0`, and what stands behind it.
fn hints(alloc: Global, text: &[u8]) -> Result<Option<(List<Hint>, &[u8])>, OutOfMemory>
    requires { opens text.now ≡ true }
    ensures { IfOk result (λ o. MatchOption o (hints_from (words_behind text.now) ≡ None)
        (λ p. (hints_from (words_behind text.now) ≡ Some (record { read = p.0; behind = words_behind p.1.now })) × (opens p.1.now ≡ true))) }
{
    let mut hints = List::new(alloc);
    let mut rest = text;
    while let Some((word, behind)) = next_word(rest) {
        if word == b"0".as_slice() {
            return Ok(Some((hints, behind)));
        }
        let Some(hint) = hint(word) else {
            return Ok(None);
        };
        hints.push(hint)?;
        rest = behind;
    }
    Ok(None)
}

// The hints of an entry of this kind, which stand behind its literals.
fn hints_behind(
    alloc: Global,
    hinted: bool,
    kind: LemmaKind,
    text: &[u8],
) -> Result<Option<List<Hint>>, OutOfMemory>
    requires { opens text.now ≡ true }
    ensures { IfOk result (λ o. o ≡ hints_behind hinted kind (words_behind text.now)) }
{
    if !hinted || kind == LemmaKind::Cycle {
        return Ok(if text.is_empty() {
            Some(List::new(alloc))
        } else {
            None
        });
    }
    match hints(alloc, text)? {
        Some((hints, rest)) if rest.is_empty() => Ok(Some(hints)),
        _ => Ok(None),
    }
}

// `TICKET WORKER KIND` with this ticket: the worker, the kind, and the rest of the line.
fn opening(next: u32, line: &[u8]) -> Option<(u32, LemmaKind, &[u8])>
    ensures { MatchOption result (opening_in next line.now ≡ None)
        (λ p. (opening_in next line.now ≡ Some (record { worker = p.0; kind = p.1; behind = words_behind p.2.now })) × (opens p.2.now ≡ true) × (next < 4294967295)) }
{
    let (word, rest) = first_word(line);
    if number(word)? != next || next == u32::MAX {
        return None;
    }
    let (word, rest) = next_word(rest)?;
    let worker = worker(word)?;
    let (word, rest) = next_word(rest)?;
    let kind = kind(word)?;
    Some((worker, kind, rest))
}

/// The entry of a line, which has this ticket; None where the line is no such entry's.
pub fn row(
    alloc: Global,
    hinted: bool,
    next: u32,
    line: &[u8],
) -> Result<Option<HintedEntry>, OutOfMemory>
    ensures value { IfOk result (λ o. option_map entry_row o ≡ row_in hinted next line.now) }
    ensures small { IfOk result (λ o. IfSome o (λ _. next < 4294967295)) }
{
    let Some((worker, kind, text)) = opening(next, line) else {
        return Ok(None);
    };
    let Some((lits, text)) = literals(alloc, text)? else {
        return Ok(None);
    };
    let Some(hints) = hints_behind(alloc, hinted, kind, text)? else {
        return Ok(None);
    };
    Ok(Some(HintedEntry {
        entry: Entry {
            ticket: next,
            worker,
            lemma: Lemma { kind, lits },
        },
        hints,
    }))
}
