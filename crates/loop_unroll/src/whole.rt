// The instances of a program.
ghost use Rattle.std.specs.Prelude.{◌≡◌, ◌<◌, ◌^◌, IfOk, length, map};
ghost use Rattle.c_rules.specs.Names.{functions_of};
ghost use Rattle.c_check.specs.declared.checked.CellInfo.{CellInfo};
ghost use Rattle.c_check.specs.WellFormed.{IsChecked};
ghost use Rattle.emit_steps.specs.Tables.{setting_at};
ghost use Rattle.loop_unroll.specs.Whole as whole;
ghost use Rattle.loop_unroll.specs.Unrolled.{IsUnrolled};

use crate::calls::body;
use c_check::{CellInfo, Checked};
use dg_base::{List, OutOfMemory};
use emit_steps::{Emitter, MOST, ONE, Table, shared_of};
use flat_prog::{Flat, Instance};
use run_model::count_functions;
use std::alloc::Global;

/// How many forms may stand inside one another, over all calls that a thread is in. So many fit a stack of 8 MiB with room to
/// spare: a form takes some 4 KiB where nothing is optimised.
const ROOM: usize = 1000;

/// How much work the unrolling of a program takes at most, in units of [`Emitter::spend`]: so it takes seconds and less than a
/// gigabyte, whatever the text. A program that is as large as the limits of its text allow takes a thirtieth.
const WORK: u64 = 536870912;

// What is emitted of an instance of the function of a number, whose first Create names the instance `first`.
fn emitter_of(
    alloc: Global,
    table: &Table,
    number: u32,
    first: u32,
    left: u64,
) -> Result<Emitter, OutOfMemory>
    requires { table.now.calls ≡ length (functions_of table.now.items.now) }
    ensures { IfOk result (λ e. whole.IsEmitted (setting_at table.now) number first e) }
{
    match table.function(number as usize) {
        None => Err(OutOfMemory),
        Some(function) => {
            let mut emitter = Emitter::new(alloc, first, left);
            body(&mut emitter, table, ROOM, function, &[0], ONE)?;
            Ok(emitter)
        }
    }
}

// The instances of a table's program, main's first: a queue of functions, first in first out.
fn instances_of(alloc: Global, table: &Table, main: u32) -> Result<List<Instance>, OutOfMemory>
    requires { table.now.calls ≡ length (functions_of table.now.items.now) }
    ensures queue { IfOk result (λ is. whole.AreInstances (setting_at table.now) main is) }
    ensures count { IfOk result (λ is. length is < 2 ^ 24) }
{
    let mut functions = List::new(alloc);
    functions.push(main)?;
    let mut instances = List::new(alloc);
    let mut left = WORK;
    for n in 0..MOST as usize {
        let function = match functions.get(n) {
            None => return Ok(instances),
            Some(function) => *function,
        };
        let first = match u32::try_from(functions.len()) {
            Ok(first) => first,
            Err(_) => return Err(OutOfMemory),
        };
        let emitter = emitter_of(alloc, table, function, first, left)?;
        left = emitter.left();
        let (instance, created) = emitter.finish(function)?;
        instances.push(instance)?;
        functions.append(created)?;
    }
    Err(OutOfMemory)
}

// The value that each shared cell begins with.
fn initials_of(alloc: Global, cells: &[CellInfo]) -> Result<List<u32>, OutOfMemory>
    ensures { IfOk result (λ initials. initials ≡ map (λ (c : CellInfo). c.initial) cells.now) }
{
    let mut initials = List::new(alloc);
    for cell in cells {
        initials.push(cell.initial)?;
    }
    Ok(initials)
}

// The number of main.
fn main_of(table: &Table) -> Result<u32, OutOfMemory>
    ensures { IfOk result (λ f. f ≡ whole.main_in (setting_at table.now).functions) }
{
    match table.function_named(b"main") {
        None => Ok(0),
        Some(number) => match u32::try_from(number) {
            Ok(number) => Ok(number),
            Err(_) => Err(OutOfMemory),
        },
    }
}

/// The flat program of a checked one. It is refused for want of memory alone, to which belongs that an instance has 2^24 steps
/// or locals or more, the program so many instances, or the unrolling more work than [`WORK`].
pub fn unroll(alloc: Global, checked: &Checked) -> Result<Flat, OutOfMemory>
    requires { IsChecked checked.now }
    ensures { IfOk result (IsUnrolled checked.now) }
{
    let items = checked.program.items.as_slice();
    let shared = shared_of(alloc, items)?;
    let table = Table {
        shared: shared.as_slice(),
        items,
        turns: checked.k,
        full: checked.full,
        calls: count_functions(items),
    };
    let instances = instances_of(alloc, &table, main_of(&table)?)?;
    Ok(Flat {
        instances,
        initials: initials_of(alloc, checked.cells.as_slice())?,
    })
}
