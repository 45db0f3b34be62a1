// Declarations of local variables.
ghost use Rattle.std.specs.Prelude.{◌≡◌};
ghost use Rattle.c_check.specs.Limits as limits;
ghost use Rattle.emit_steps.specs.Emitting.{Emits};
ghost use Rattle.loop_unroll.specs.Stating as stating;
ghost use Rattle.loop_unroll.specs.Whole.{context_at};

use crate::expressions::eval;
use c_tree::{Decl, Declarator, Expr, Initialiser, TypeWord};
use dg_base::OutOfMemory;
use emit_steps::{Emitter, Table};
use flat_prog::FlatAct;
use run_model::cell_count;

// Takes a number into each of so many locals.
#[tactic(auto, using(crate::proofs::Counting::one_more))]
fn take_cells(emitter: &mut Emitter, guard: u32, first: u32, count: u32) -> Result<(), OutOfMemory>
    ensures { Emits result emitter.new (stating.take_cells guard first count emitter.old) }
{
    let end = match first.checked_add(count) {
        Some(end) => end,
        None => return Err(OutOfMemory),
    };
    for local in first..end {
        emitter.emit(guard, FlatAct::Take { to: local })?;
    }
    Ok(())
}

// Stores a value in the cell `j`, where there are so many.
fn store_value(
    emitter: &mut Emitter,
    guard: u32,
    first: u32,
    count: u32,
    j: usize,
    value: u32,
) -> Result<(), OutOfMemory>
    ensures { Emits result emitter.new (stating.store_value guard first count j value emitter.old) }
{
    if j < count as usize {
        let local = match first.checked_add(j as u32) {
            Some(local) => local,
            None => return Err(OutOfMemory),
        };
        emitter.copy_to(guard, local, value)?;
    }
    Ok(())
}

// Stores each value in the next cell, before the next is evaluated.
#[cycle(emit)]
fn store_values(
    emitter: &mut Emitter,
    table: &Table,
    room: usize,
    guard: u32,
    first: u32,
    count: u32,
    values: &[Expr],
) -> Result<(), OutOfMemory>
    ensures { Emits result emitter.new (stating.store_values (context_at table.now) guard first count 0 values.now emitter.old) }
{
    for (j, value) in values.iter().enumerate() {
        let v = eval(emitter, table, room, value, guard)?;
        store_value(emitter, guard, first, count, j, v)?;
    }
    Ok(())
}

// What the cells of a local variable begin with.
#[cycle(emit)]
fn first_values(
    emitter: &mut Emitter,
    table: &Table,
    room: usize,
    word: TypeWord,
    guard: u32,
    first: u32,
    declarator: &Declarator,
) -> Result<(), OutOfMemory>
    ensures { Emits result emitter.new (stating.first_values (context_at table.now) word guard first (limits.cell_count declarator.now) declarator.now.initialiser emitter.old) }
{
    let count = cell_count(declarator);
    match &declarator.initialiser {
        None => match word {
            TypeWord::Thread => Ok(()),
            TypeWord::Int => take_cells(emitter, guard, first, count),
            TypeWord::Uint => take_cells(emitter, guard, first, count),
            TypeWord::Void => take_cells(emitter, guard, first, count),
            TypeWord::VoidPointer => take_cells(emitter, guard, first, count),
            TypeWord::Mutex => take_cells(emitter, guard, first, count),
            TypeWord::Cond => take_cells(emitter, guard, first, count),
        },
        Some(Initialiser::One(value)) => {
            let v = eval(emitter, table, room, value, guard)?;
            store_value(emitter, guard, first, count, 0, v)
        }
        Some(Initialiser::Braces(values)) => {
            store_values(emitter, table, room, guard, first, count, values.as_slice())
        }
    }
}

// A declared variable.
#[cycle(emit)]
fn declare_one(
    emitter: &mut Emitter,
    table: &Table,
    room: usize,
    word: TypeWord,
    guard: u32,
    declarator: &Declarator,
) -> Result<(), OutOfMemory>
    ensures { Emits result emitter.new (stating.declare_one (context_at table.now) word guard declarator.now emitter.old) }
{
    let count = cell_count(declarator);
    let first = emitter.fresh_cells(count)?;
    emitter.enter(word, declarator.name.as_slice(), first, count)?;
    first_values(emitter, table, room, word, guard, first, declarator)
}

/// Declared variables of one type.
#[cycle(emit)]
pub(crate) fn declare(
    emitter: &mut Emitter,
    table: &Table,
    room: usize,
    guard: u32,
    decl: &Decl,
) -> Result<(), OutOfMemory>
    ensures { Emits result emitter.new (stating.declare_all (context_at table.now) decl.now.word guard decl.now.declarators emitter.old) }
{
    for declarator in decl.declarators.as_slice() {
        declare_one(emitter, table, room, decl.word, guard, declarator)?;
    }
    Ok(())
}
