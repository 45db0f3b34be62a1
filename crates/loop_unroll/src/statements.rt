// Statements.
ghost use Rattle.std.specs.Prelude.{◌≡◌, option_copied};
ghost use Rattle.emit_steps.specs.Emitting.{Emits};
ghost use Rattle.loop_unroll.specs.Stating as stating;
ghost use Rattle.loop_unroll.specs.Whole.{context_at};
ghost use Rattle.emit_steps.specs.Tables.{setting_at};

use crate::declarations::declare;
use crate::expressions::{eval, optional};
use crate::targets::Targets;
use c_tree::{Expr, Start, Stmt};
use dg_base::{OutOfMemory, Place};
use emit_steps::{Emitter, NONE, ONE, Table};
use flat_prog::FlatAct;

// An expression that may be absent, behind a reference.
fn part(expr: &Option<Expr>) -> Option<&Expr>
    ensures { option_copied result ≡ expr.now }
{
    match expr {
        None => None,
        Some(expr) => Some(expr),
    }
}

// A loop at this place has used up its bound.
fn spend(emitter: &mut Emitter, table: &Table, place: Place, guard: u32) -> Result<(), OutOfMemory>
    ensures { Emits result emitter.new (stating.spend (setting_at table.now) place guard emitter.old) }
{
    if table.full {
        emitter.emit(guard, FlatAct::Fail { place, tag: 1 })
    } else {
        emitter.stop(guard)
    }
}

// Where the test does not hold the loop is done; the answer is the guard under which it goes on.
fn leave(emitter: &mut Emitter, done: u32, guard: u32, value: u32) -> Result<u32, OutOfMemory>
    ensures { Emits result emitter.new (stating.leave done guard value emitter.old) }
{
    let out = emitter.unless(guard, value)?;
    emitter.mark(out, done)?;
    emitter.when(guard, value)
}

// Control goes to a target; nothing is behind.
fn jump(emitter: &mut Emitter, guard: u32, to: u32) -> Result<u32, OutOfMemory>
    ensures { Emits result emitter.new (stating.jump guard to emitter.old) }
{
    emitter.mark(guard, to)?;
    Ok(NONE)
}

// A statement. The answer is the guard behind it.
#[cycle(emit)]
fn exec(
    emitter: &mut Emitter,
    table: &Table,
    room: usize,
    stmt: &Stmt,
    targets: Targets,
    guard: u32,
) -> Result<u32, OutOfMemory>
    ensures { Emits result emitter.new (stating.execute (context_at table.now) stmt.now targets guard emitter.old) }
{
    let room = emitter.inner(room)?;
    match stmt {
        Stmt::Empty { .. } => Ok(guard),
        Stmt::Expr { expr, .. } => {
            eval(emitter, table, room, expr, guard)?;
            Ok(guard)
        }
        Stmt::Declare(decl) => {
            declare(emitter, table, room, guard, decl)?;
            Ok(guard)
        }
        Stmt::Block { body, .. } => {
            let outer = emitter.scope_size();
            let behind = sequence(emitter, table, room, body.as_slice(), targets, guard)?;
            emitter.leave_scope(outer);
            Ok(behind)
        }
        Stmt::Label { body, .. } => inside(emitter, table, room, body.get(), targets, guard),
        Stmt::If { test, yes, no, .. } => {
            let value = eval(emitter, table, room, test, guard)?;
            let if_true = emitter.when(guard, value)?;
            let if_false = emitter.unless(guard, value)?;
            let a = inside(emitter, table, room, yes.get(), targets, if_true)?;
            let b = match no {
                None => if_false,
                Some(no) => inside(emitter, table, room, no.get(), targets, if_false)?,
            };
            emitter.join_guards(a, b)
        }
        Stmt::While { place, test, body } => {
            turns(
                emitter,
                table,
                room,
                *place,
                Some(test),
                None,
                body.get(),
                targets.result,
                guard,
            )
        }
        Stmt::DoWhile { place, body, test } => {
            do_turns(
                emitter,
                table,
                room,
                *place,
                body.get(),
                test,
                targets.result,
                guard,
            )
        }
        Stmt::For {
            start,
            test,
            step,
            body,
            place,
        } => {
            let outer = emitter.scope_size();
            begin_for(emitter, table, room, guard, start)?;
            let behind = turns(
                emitter,
                table,
                room,
                *place,
                part(test),
                part(step),
                body.get(),
                targets.result,
                guard,
            )?;
            emitter.leave_scope(outer);
            Ok(behind)
        }
        Stmt::Return { value, .. } => {
            let value = optional(emitter, table, room, part(value), NONE, guard)?;
            emitter.copy_to(guard, targets.result, value)?;
            Ok(NONE)
        }
        Stmt::Break { .. } => jump(emitter, guard, targets.done),
        Stmt::Continue { .. } => jump(emitter, guard, targets.again),
    }
}

// A statement that is part of another one: what it declares is gone behind it.
#[cycle(emit)]
fn inside(
    emitter: &mut Emitter,
    table: &Table,
    room: usize,
    stmt: &Stmt,
    targets: Targets,
    guard: u32,
) -> Result<u32, OutOfMemory>
    ensures { Emits result emitter.new (stating.inside (stating.execute (context_at table.now) stmt.now) targets guard emitter.old) }
{
    let outer = emitter.scope_size();
    let behind = exec(emitter, table, room, stmt, targets, guard)?;
    emitter.leave_scope(outer);
    Ok(behind)
}

/// Statements in turn. The answer is the guard behind the last.
#[cycle(emit)]
pub(crate) fn sequence(
    emitter: &mut Emitter,
    table: &Table,
    room: usize,
    body: &[Stmt],
    targets: Targets,
    guard: u32,
) -> Result<u32, OutOfMemory>
    ensures { Emits result emitter.new (stating.execute_all (context_at table.now) body.now targets guard emitter.old) }
{
    let mut behind = guard;
    for stmt in body {
        behind = exec(emitter, table, room, stmt, targets, behind)?;
    }
    Ok(behind)
}

// The body of a turn. The answer is the guard of what comes next, also where the body was left by `continue`.
#[cycle(emit)]
fn one_turn(
    emitter: &mut Emitter,
    table: &Table,
    room: usize,
    body: &Stmt,
    done: u32,
    value: u32,
    guard: u32,
) -> Result<u32, OutOfMemory>
    ensures { Emits result emitter.new (stating.one_turn (stating.execute (context_at table.now) body.now) done value guard emitter.old) }
{
    let again = emitter.fresh()?;
    let targets = Targets {
        done,
        again,
        result: value,
    };
    let out = inside(emitter, table, room, body, targets, guard)?;
    emitter.join_guards(out, again)
}

// The turns of a loop with its test before the body. The answer is the guard behind the loop.
#[cycle(emit)]
#[tactic(auto, using(crate::proofs::Counting::turn_left))]
fn turns(
    emitter: &mut Emitter,
    table: &Table,
    room: usize,
    place: Place,
    test: Option<&Expr>,
    step: Option<&Expr>,
    body: &Stmt,
    value: u32,
    guard: u32,
) -> Result<u32, OutOfMemory>
    ensures { Emits result emitter.new (stating.loop (context_at table.now) place (option_copied test.entry) (option_copied step.entry) (stating.execute (context_at table.now) body.now) (stating.targets 0 0 value) guard emitter.old) }
{
    let done = emitter.fresh()?;
    let mut here = guard;
    for _turn in 0..table.turns {
        let v = optional(emitter, table, room, test, ONE, here)?;
        let on = leave(emitter, done, here, v)?;
        here = one_turn(emitter, table, room, body, done, value, on)?;
        optional(emitter, table, room, step, NONE, here)?;
    }
    let v = optional(emitter, table, room, test, ONE, here)?;
    let on = leave(emitter, done, here, v)?;
    spend(emitter, table, place, on)?;
    Ok(done)
}

// The turns of a loop with its test behind the body. The answer is the guard behind the loop.
#[cycle(emit)]
#[tactic(auto, using(crate::proofs::Counting::do_turn_left))]
fn do_turns(
    emitter: &mut Emitter,
    table: &Table,
    room: usize,
    place: Place,
    body: &Stmt,
    test: &Expr,
    value: u32,
    guard: u32,
) -> Result<u32, OutOfMemory>
    ensures { Emits result emitter.new (stating.do_loop (context_at table.now) place (stating.execute (context_at table.now) body.now) test.now (stating.targets 0 0 value) guard emitter.old) }
{
    let done = emitter.fresh()?;
    let mut here = guard;
    for _turn in 0..table.turns {
        here = one_turn(emitter, table, room, body, done, value, here)?;
        let v = eval(emitter, table, room, test, here)?;
        here = leave(emitter, done, here, v)?;
    }
    spend(emitter, table, place, here)?;
    Ok(done)
}

// The start of a `for`.
#[cycle(emit)]
fn begin_for(
    emitter: &mut Emitter,
    table: &Table,
    room: usize,
    guard: u32,
    start: &Start,
) -> Result<(), OutOfMemory>
    ensures { Emits result emitter.new (stating.begin_for (context_at table.now) start.now guard emitter.old) }
{
    match start {
        Start::Nothing => Ok(()),
        Start::Expr(expr) => {
            eval(emitter, table, room, expr, guard)?;
            Ok(())
        }
        Start::Declare(decl) => declare(emitter, table, room, guard, decl),
    }
}
