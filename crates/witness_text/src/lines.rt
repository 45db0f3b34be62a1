// What stands behind the first word of a line.
ghost use Rattle.std.specs.Prelude.{◌≡◌, IfOk, bytes_eq};
ghost use Rattle.std.specs.List.{position};
ghost use Rattle.line_text.specs.Words.{number_in, words_in};
ghost use Rattle.witness_text.specs.Lines.{action_in, event_in, function_in, head_in, order_in, script_in, source_in};

use axiom_model::{Event, RfPair};
use dg_base::{Bytes, List, OutOfMemory};
use line_text::{cut, next_word, number};
use std::alloc::Global;

/// What a thread's first line says.
#[derive(Debug, Clone, Copy, Drop)]
pub struct ThreadHead {
    /// Who it is.
    pub handle: u32,
    /// The number of its function.
    pub function: u32,
    /// The function's argument.
    pub arg: u32,
}

// `H.I`, the action with this index of the thread with this handle.
fn action(text: &[u8]) -> Option<Event>
    ensures { result ≡ action_in text.now }
{
    let (handle, index) = cut(b'.', text)?;
    let handle = number(handle)?;
    let index = number(index)?;
    Some(Event::At { handle, index })
}

// `init`, or `H.I`.
fn event(text: &[u8]) -> Option<Event>
    ensures { result ≡ event_in text.now }
{
    if text == b"init".as_slice() {
        Some(Event::Initial)
    } else {
        action(text)
    }
}

// The place of the first function with this name.
fn place_of(functions: &[Bytes], name: &[u8]) -> Option<usize>
    ensures { result ≡ position (λ f. bytes_eq f name.now) functions.now }
{
    functions.iter().position(|f| f.as_slice() == name)
}

// The number of the first function with this name.
fn function(functions: &[Bytes], name: &[u8]) -> Option<u32>
    ensures { result ≡ function_in functions.now name.now }
{
    let at = place_of(functions, name)?;
    if at < 1 << 32 { Some(at as u32) } else { None }
}

/// `H NAME ARG`.
pub fn head(functions: &[Bytes], text: &[u8]) -> Option<ThreadHead>
    ensures { result ≡ head_in functions.now text.now }
{
    let (handle, behind) = cut(b' ', text)?;
    let (name, arg) = cut(b' ', behind)?;
    let handle = number(handle)?;
    let function = function(functions, name)?;
    let arg = number(arg)?;
    Some(ThreadHead {
        handle,
        function,
        arg,
    })
}

/// `H.I H.I` or `H.I init`.
pub fn source(text: &[u8]) -> Option<RfPair>
    ensures { result ≡ source_in text.now }
{
    let (reader, source) = cut(b' ', text)?;
    let reader = action(reader)?;
    let source = event(source)?;
    Some(RfPair { reader, source })
}

// Numbers, each behind one blank.
fn numbers(alloc: Global, text: &[u8]) -> Result<Option<List<u32>>, OutOfMemory>
    ensures { IfOk result (λ read. read ≡ words_in number_in text.now) }
{
    let mut read = List::new(alloc);
    let mut rest = text;
    while let Some((word, behind)) = next_word(rest) {
        match number(word) {
            Some(n) => read.push(n)?,
            None => return Ok(None),
        }
        rest = behind;
    }
    if rest.is_empty() {
        Ok(Some(read))
    } else {
        Ok(None)
    }
}

// Events, each behind one blank.
fn events(alloc: Global, text: &[u8]) -> Result<Option<List<Event>>, OutOfMemory>
    ensures { IfOk result (λ read. read ≡ words_in event_in text.now) }
{
    let mut read = List::new(alloc);
    let mut rest = text;
    while let Some((word, behind)) = next_word(rest) {
        match event(word) {
            Some(e) => read.push(e)?,
            None => return Ok(None),
        }
        rest = behind;
    }
    if rest.is_empty() {
        Ok(Some(read))
    } else {
        Ok(None)
    }
}

/// `CELL` and the events of its order.
pub fn order(alloc: Global, cell: &[u8], text: &[u8]) -> Result<Option<List<Event>>, OutOfMemory>
    ensures { IfOk result (λ read. read ≡ order_in cell.now text.now) }
{
    match text.strip_prefix(cell) {
        Some(rest) => events(alloc, rest),
        None => Ok(None),
    }
}

/// `script` and its numbers.
pub fn script(alloc: Global, line: &[u8]) -> Result<Option<List<u32>>, OutOfMemory>
    ensures { IfOk result (λ read. read ≡ script_in line.now) }
{
    match line.strip_prefix(b"script") {
        Some(rest) => numbers(alloc, rest),
        None => Ok(None),
    }
}
