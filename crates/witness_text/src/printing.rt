// Printing a witness.
ghost use Rattle.std.specs.Prelude.{◌≡◌, ◌++◌, ◌∷◌, [], List, ℕ, IfOk, OnOk, codes, decimal, flat_map, map, slice_get};
ghost use Rattle.c_check.specs.PlainNames.{cell_names};
ghost use Rattle.std.specs.List.{AllByRecursion};
ghost use Rattle.witness_text.specs.Spelling.{HasEventNumbers, HasNumbers, HasPairNumbers, HasThreadNumbers, IsNumber, IsSpellable, Spells};
ghost use Rattle.line_text.specs.Lines.{text_of};
ghost use Rattle.witness_text.specs.Witness.{co_line, co_lines, name_at, numbers_text, rf_line, script_line, thread_line, thread_lines, witness_text};

use crate::text::{put_event, put_events};
use axiom_model::{Candidate, Event, RfPair, ThreadPart};
use c_check::{CellInfo, Checked};
use dg_base::{Bytes, List, OutOfMemory};
use line_text::{put, put_number};
use std::alloc::Global;

fn put_numbers(out: &mut Vec<u8>, numbers: &[u32]) -> Result<(), OutOfMemory>
    ensures text { OnOk result (out.new.items ≡ out.old.items ++ numbers_text numbers.now) }
    ensures numbers { AllByRecursion IsNumber numbers.now }
{
    for number in numbers {
        put(out, b" ")?;
        put_number(out, *number)?;
    }
    Ok(())
}

// The name with this number, or nothing.
fn put_function(out: &mut Vec<u8>, functions: &[Bytes], function: u32) -> Result<(), OutOfMemory>
    ensures { OnOk result (out.new.items ≡ out.old.items ++ name_at functions.now function) }
{
    match functions.get(function as usize) {
        Some(name) => put(out, name.as_slice()),
        None => Ok(()),
    }
}

fn put_thread_line(
    out: &mut Vec<u8>,
    functions: &[Bytes],
    part: &ThreadPart,
) -> Result<(), OutOfMemory>
    ensures text { OnOk result (out.new.items ≡ out.old.items ++ thread_line functions.now part.now.handle part.now.function part.now.arg) }
    ensures numbers { OnOk result (IsNumber part.now.handle × IsNumber part.now.function × IsNumber part.now.arg) }
{
    put(out, b"thread ")?;
    put_number(out, part.handle)?;
    put(out, b" ")?;
    put_function(out, functions, part.function)?;
    put(out, b" ")?;
    put_number(out, part.arg)
}

fn put_thread(out: &mut Vec<u8>, functions: &[Bytes], part: &ThreadPart) -> Result<(), OutOfMemory>
    ensures text { OnOk result (out.new.items ≡ out.old.items ++ text_of (thread_lines functions.now part.now)) }
    ensures numbers { OnOk result (HasThreadNumbers part.now) }
{
    put_thread_line(out, functions, part)?;
    put(out, b"\n")?;
    put(out, b"script")?;
    put_numbers(out, part.script.as_slice())?;
    put(out, b"\n")
}

fn put_threads(
    out: &mut Vec<u8>,
    functions: &[Bytes],
    parts: &[ThreadPart],
) -> Result<(), OutOfMemory>
    ensures text { OnOk result (out.new.items ≡ out.old.items ++ text_of (flat_map (thread_lines functions.now) parts.now)) }
    ensures numbers { OnOk result (AllByRecursion HasThreadNumbers parts.now) }
{
    for part in parts {
        put_thread(out, functions, part)?;
    }
    Ok(())
}

fn put_source(out: &mut Vec<u8>, pair: &RfPair) -> Result<(), OutOfMemory>
    ensures text { OnOk result (out.new.items ≡ out.old.items ++ (rf_line pair.now ++ 10 ∷ [])) }
    ensures numbers { OnOk result (HasPairNumbers pair.now) }
{
    put(out, b"rf ")?;
    put_event(out, pair.reader)?;
    put(out, b" ")?;
    put_event(out, pair.source)?;
    put(out, b"\n")
}

fn put_sources(out: &mut Vec<u8>, pairs: &[RfPair]) -> Result<(), OutOfMemory>
    ensures text { OnOk result (out.new.items ≡ out.old.items ++ text_of (map rf_line pairs.now)) }
    ensures numbers { OnOk result (AllByRecursion HasPairNumbers pairs.now) }
{
    for pair in pairs {
        put_source(out, pair)?;
    }
    Ok(())
}

// The name of the cell with this number, or nothing.
fn put_cell(out: &mut Vec<u8>, cells: &[CellInfo], cell: usize) -> Result<(), OutOfMemory>
    ensures { OnOk result (out.new.items ≡ out.old.items ++ name_at (cell_names cells.now) cell) }
{
    match cells.get(cell) {
        Some(info) => put(out, info.name.as_slice()),
        None => Ok(()),
    }
}

fn put_order(
    out: &mut Vec<u8>,
    cells: &[CellInfo],
    cell: usize,
    events: &[Event],
) -> Result<(), OutOfMemory>
    ensures text { OnOk result (out.new.items ≡ out.old.items ++ (co_line (name_at (cell_names cells.now) cell) events.now ++ 10 ∷ [])) }
    ensures numbers { OnOk result (AllByRecursion HasEventNumbers events.now) }
{
    put(out, b"co ")?;
    put_cell(out, cells, cell)?;
    put_events(out, events)?;
    put(out, b"\n")
}

fn put_orders(
    out: &mut Vec<u8>,
    cells: &[CellInfo],
    orders: &[List<Event>],
) -> Result<(), OutOfMemory>
    ensures text { OnOk result (out.new.items ≡ out.old.items ++ text_of (co_lines (cell_names cells.now) 0 orders.now)) }
    ensures numbers { OnOk result (AllByRecursion (AllByRecursion HasEventNumbers) orders.now) }
{
    for (cell, events) in orders.iter().enumerate() {
        put_order(out, cells, cell, events.as_slice())?;
    }
    Ok(())
}

fn put_witness(
    out: &mut Vec<u8>,
    checked: &Checked,
    candidate: &Candidate,
) -> Result<(), OutOfMemory>
    ensures text { OnOk result (out.new.items ≡ out.old.items ++ witness_text checked.now.functions (cell_names checked.now.cells) candidate.now) }
    ensures numbers { OnOk result (HasNumbers candidate.now) }
{
    put(out, b"deagle-witness 1\n")?;
    put_threads(
        out,
        checked.functions.as_slice(),
        candidate.threads.as_slice(),
    )?;
    put_sources(out, candidate.rf.as_slice())?;
    put_orders(out, checked.cells.as_slice(), candidate.co.as_slice())?;
    put(out, b"end\n")
}

/// The text that spells a candidate: of each thread two lines, of each pair and of the order of each cell one.
pub fn print_witness(
    alloc: Global,
    checked: &Checked,
    candidate: &Candidate,
) -> Result<List<u8>, OutOfMemory>
    requires { IsSpellable checked.now.functions (cell_names checked.now.cells) candidate.now }
    ensures { IfOk result (Spells checked.now.functions (cell_names checked.now.cells) candidate.now) }
{
    let mut out = Vec::new(alloc);
    put_witness(&mut out, checked, candidate)?;
    Ok(List::from_vec(out))
}
