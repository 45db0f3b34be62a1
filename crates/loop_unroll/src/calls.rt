// Calls of functions and of built-in calls.
ghost use Rattle.std.specs.Prelude.{◌≡◌, map, IfOk};
ghost use Rattle.run_model.specs.Calls as model;
ghost use Rattle.run_model.specs.Threads as threads;
ghost use Rattle.emit_steps.specs.Emitting.{Emits};
ghost use Rattle.emit_steps.specs.Pieces as pieces;
ghost use Rattle.emit_steps.specs.Calling as calling;
ghost use Rattle.loop_unroll.specs.Stating as stating;
ghost use Rattle.loop_unroll.specs.Whole.{context_at};
ghost use Rattle.emit_steps.specs.Tables.{setting_at};

use crate::expressions::{cells, eval, values};
use crate::statements::sequence;
use crate::targets::Targets;
use crate::types::spelled;
use c_rules::{Builtin, builtin_named};
use c_tree::{Expr, Function, Stmt};
use dg_base::{List, OutOfMemory, Place};
use emit_steps::{Cell, Emitter, NONE, Table};
use sqlite_items::at;

// Whether a call of the function is a section.
#[tactic(auto, unfolding(run_model::specs::Threads::is_atomic))]
fn is_atomic(function: &Function) -> bool
    ensures { result ≡ threads.is_atomic function.now }
{
    function.name.as_slice().starts_with(b"__VERIFIER_atomic_")
}

// The number of the function that an argument names.
fn function_in(
    emitter: &Emitter,
    table: &Table,
    args: &[Expr],
    i: usize,
) -> Result<u32, OutOfMemory>
    ensures { IfOk result (λ f. f ≡ model.function_in (setting_at table.now) (pieces.argument (map (pieces.piece (context_at table.now)) args.now) i).spelled) }
{
    let name = match at(args, i) {
        None => return Ok(0),
        Some(arg) => spelled(table, arg),
    };
    let name = match name {
        None => return Ok(0),
        Some(name) => name,
    };
    emitter.look_for(name.as_slice(), table.items.len());
    match table.function_named(name.as_slice()) {
        None => Ok(0),
        Some(number) => match u32::try_from(number) {
            Ok(number) => Ok(number),
            Err(_) => Err(OutOfMemory),
        },
    }
}

/// A call.
#[cycle(emit)]
pub(crate) fn call(
    emitter: &mut Emitter,
    table: &Table,
    room: usize,
    place: Place,
    name: &[u8],
    args: &[Expr],
    guard: u32,
) -> Result<u32, OutOfMemory>
    ensures { Emits result emitter.new (pieces.call (context_at table.now) place name.now (map (pieces.piece (context_at table.now)) args.now) (model.function_named (setting_at table.now) name.now) guard emitter.old) }
{
    emitter.look_for(name, table.items.len());
    match table.function_named(name) {
        Some(number) => {
            let values = values(emitter, table, room, args, guard)?;
            call_function(emitter, table, room, number, values.as_slice(), guard)
        }
        None => match builtin_named(name) {
            None => emitter.stop_without(guard),
            Some(builtin) => call_builtin(emitter, table, room, place, builtin, args, guard),
        },
    }
}

// A call of the function of a number.
#[cycle(emit)]
#[tactic(auto, using(crate::proofs::Calling::call_found))]
fn call_function(
    emitter: &mut Emitter,
    table: &Table,
    room: usize,
    number: usize,
    values: &[u32],
    guard: u32,
) -> Result<u32, OutOfMemory>
    ensures { Emits result emitter.new (stating.call_within table.now.calls (setting_at table.now) number values.now guard emitter.old) }
{
    if table.calls == 0 {
        return emitter.stop_without(guard);
    }
    let within = Table {
        calls: table.calls - 1,
        ..*table
    };
    match table.function(number) {
        None => emitter.stop_without(guard),
        Some(function) => call_body(emitter, &within, room, function, values, guard),
    }
}

// A call of a function; it is a section if its name says so.
#[cycle(emit)]
#[tactic(auto, using(crate::proofs::Calling::call_plain))]
fn call_body(
    emitter: &mut Emitter,
    table: &Table,
    room: usize,
    function: &Function,
    values: &[u32],
    guard: u32,
) -> Result<u32, OutOfMemory>
    ensures { Emits result emitter.new (calling.call_body function.now guard (stating.run_body (context_at table.now) function.now values.now guard) emitter.old) }
{
    if is_atomic(function) {
        emitter.begin_section(guard)?;
        let v = body(emitter, table, room, function, values, guard)?;
        emitter.end_section()?;
        return Ok(v);
    }
    body(emitter, table, room, function, values, guard)
}

/// The body of a function, with its parameters as its only variables.
#[cycle(emit)]
pub(crate) fn body(
    emitter: &mut Emitter,
    table: &Table,
    room: usize,
    function: &Function,
    values: &[u32],
    guard: u32,
) -> Result<u32, OutOfMemory>
    ensures { Emits result emitter.new (stating.run_body (context_at table.now) function.now values.now guard emitter.old) }
{
    let outer = emitter.replace_scope(Vec::new(emitter.alloc()));
    emitter.parameters(guard, function.params.as_slice(), values)?;
    let result_local = statements(emitter, table, room, function.body.as_slice(), guard)?;
    emitter.replace_scope(outer);
    Ok(result_local)
}

// The statements of a body; the answer is the local where its value is put.
#[cycle(emit)]
fn statements(
    emitter: &mut Emitter,
    table: &Table,
    room: usize,
    body: &[Stmt],
    guard: u32,
) -> Result<u32, OutOfMemory>
    ensures { Emits result emitter.new (stating.statements (context_at table.now) body.now guard emitter.old) }
{
    let value = emitter.fresh()?;
    let done = emitter.fresh()?;
    let again = emitter.fresh()?;
    let targets = Targets {
        done,
        again,
        result: value,
    };
    sequence(emitter, table, room, body, targets, guard)?;
    Ok(value)
}

// The cells that an argument may name.
#[cycle(emit)]
fn argument_cells(
    emitter: &mut Emitter,
    table: &Table,
    room: usize,
    args: &[Expr],
    i: usize,
    guard: u32,
) -> Result<List<Cell>, OutOfMemory>
    ensures { Emits result emitter.new ((pieces.argument (map (pieces.piece (context_at table.now)) args.now) i).find guard emitter.old) }
{
    match at(args, i) {
        None => emitter.no_cell(guard),
        Some(arg) => cells(emitter, table, room, arg, guard),
    }
}

// The value of an argument.
#[cycle(emit)]
fn argument(
    emitter: &mut Emitter,
    table: &Table,
    room: usize,
    args: &[Expr],
    i: usize,
    guard: u32,
) -> Result<u32, OutOfMemory>
    ensures { Emits result emitter.new ((pieces.argument (map (pieces.piece (context_at table.now)) args.now) i).run guard emitter.old) }
{
    match at(args, i) {
        None => Ok(NONE),
        Some(arg) => eval(emitter, table, room, arg, guard),
    }
}

// A call of a built-in call that evaluates an argument.
#[cycle(emit)]
fn call_builtin(
    emitter: &mut Emitter,
    table: &Table,
    room: usize,
    place: Place,
    builtin: Builtin,
    args: &[Expr],
    guard: u32,
) -> Result<u32, OutOfMemory>
    ensures { Emits result emitter.new (pieces.builtin_call (setting_at table.now) place builtin (map (pieces.piece (context_at table.now)) args.now) guard emitter.old) }
{
    match builtin {
        Builtin::PthreadCreate => {
            let target = argument_cells(emitter, table, room, args, 0, guard)?;
            let arg = argument(emitter, table, room, args, 3, guard)?;
            let function = function_in(emitter, table, args, 2)?;
            emitter.create(guard, target.as_slice(), function, arg)
        }
        Builtin::PthreadJoin => {
            let handle = argument(emitter, table, room, args, 0, guard)?;
            emitter.join(guard, handle)
        }
        Builtin::PthreadExit => {
            argument(emitter, table, room, args, 0, guard)?;
            emitter.exit_thread(guard)
        }
        Builtin::Exit => {
            argument(emitter, table, room, args, 0, guard)?;
            emitter.stop_without(guard)
        }
        Builtin::Abort => emitter.stop_without(guard),
        Builtin::Lock => {
            let mutex = argument_cells(emitter, table, room, args, 0, guard)?;
            emitter.lock(guard, mutex.as_slice())
        }
        Builtin::Unlock => {
            let mutex = argument_cells(emitter, table, room, args, 0, guard)?;
            emitter.unlock(guard, mutex.as_slice())
        }
        Builtin::Init => {
            let mutex = argument_cells(emitter, table, room, args, 0, guard)?;
            emitter.unlock(guard, mutex.as_slice())
        }
        Builtin::Destroy => {
            argument_cells(emitter, table, room, args, 0, guard)?;
            Ok(NONE)
        }
        Builtin::Assert => {
            let value = argument(emitter, table, room, args, 0, guard)?;
            emitter.assert(place, guard, value)
        }
        Builtin::Assume => {
            let value = argument(emitter, table, room, args, 0, guard)?;
            emitter.assume(guard, value)
        }
        Builtin::AssertFail => emitter.fail_without(guard, place),
        Builtin::ReachError => emitter.fail_without(guard, place),
        Builtin::AnyInt => emitter.any(guard),
        Builtin::AnyUint => emitter.any(guard),
        Builtin::AnyBool => emitter.any_bool(guard),
        Builtin::Begin => {
            emitter.begin_section(guard)?;
            Ok(NONE)
        }
        Builtin::Finish => {
            emitter.end_section()?;
            Ok(NONE)
        }
        Builtin::Synchronize => emitter.fence(guard),
    }
}
