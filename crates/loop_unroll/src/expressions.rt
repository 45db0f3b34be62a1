// Expressions: their values and the cells that they name.
//
// All functions that lead back to an expression are one recursion. It takes `room`, one less for each form inside another,
// so that a tree which is too deep for the stack is refused as want of memory.
ghost use Rattle.std.specs.Prelude.{◌≡◌, option_copied, map, []};
ghost use Rattle.emit_steps.specs.Emitting.{Emits};
ghost use Rattle.emit_steps.specs.Pieces as pieces;
ghost use Rattle.loop_unroll.specs.Stating as stating;
ghost use Rattle.loop_unroll.specs.Whole.{context_at};

use crate::calls::call;
use crate::types::unsigned;
use c_tree::{AssignOp, BinaryOp, Expr, StepOp, binary_op, divides};
use dg_base::{List, Op, OutOfMemory, Place};
use emit_steps::{Cell, Emitter, NONE, ONE, Table};
use run_model::{step_op, unary_op};

/// An operator, its place, and whether its operands are Uint.
#[derive(Clone, Copy, Drop)]
struct Operator {
    place: Place,
    op: BinaryOp,
    left_unsigned: bool,
    right_unsigned: bool,
}

// A division fails at its place where the divisor is 0.
fn test_divisor(
    emitter: &mut Emitter,
    operator: Operator,
    guard: u32,
    y: u32,
) -> Result<(), OutOfMemory>
    ensures { Emits result emitter.new (pieces.test_divisor operator.place operator.op guard y emitter.old) }
{
    if divides(operator.op) {
        let fails = emitter.unless(guard, y)?;
        emitter.fail(fails, operator.place)?;
    }
    Ok(())
}

// The operator's value of two values.
fn operate(
    emitter: &mut Emitter,
    operator: Operator,
    guard: u32,
    x: u32,
    y: u32,
) -> Result<u32, OutOfMemory>
    ensures { Emits result emitter.new (pieces.operate operator.place operator.op operator.left_unsigned operator.right_unsigned guard x y emitter.old) }
{
    test_divisor(emitter, operator, guard, y)?;
    let op = binary_op(operator.op, operator.left_unsigned, operator.right_unsigned);
    emitter.set(guard, op, &[x, y])
}

// The operator's value of two values, which these expressions have.
fn typed(
    emitter: &mut Emitter,
    table: &Table,
    place: Place,
    op: BinaryOp,
    left: &Expr,
    right: &Expr,
    guard: u32,
    x: u32,
    y: u32,
) -> Result<u32, OutOfMemory>
    ensures { Emits result emitter.new (pieces.typed place op (pieces.piece (context_at table.now) left.now) (pieces.piece (context_at table.now) right.now) guard x y emitter.old) }
{
    let operator = Operator {
        place,
        op,
        left_unsigned: unsigned(emitter, table, left),
        right_unsigned: unsigned(emitter, table, right),
    };
    operate(emitter, operator, guard, x, y)
}

/// The value of an expression.
#[cycle(emit)]
pub(crate) fn eval(
    emitter: &mut Emitter,
    table: &Table,
    room: usize,
    expr: &Expr,
    guard: u32,
) -> Result<u32, OutOfMemory>
    ensures { Emits result emitter.new ((pieces.piece (context_at table.now) expr.now).run guard emitter.old) }
{
    let room = emitter.inner(room)?;
    match expr {
        Expr::Number { value, .. } => emitter.number(*value),
        Expr::Text { .. } => Ok(NONE),
        Expr::Address { .. } => Ok(NONE),
        Expr::Bracket { inner, .. } => eval(emitter, table, room, inner.get(), guard),
        Expr::Cast { inner, .. } => eval(emitter, table, room, inner.get(), guard),
        Expr::Name { .. } | Expr::Index { .. } => {
            let cells = cells(emitter, table, room, expr, guard)?;
            emitter.read(cells.as_slice())
        }
        Expr::Call { place, name, args } => {
            call(
                emitter,
                table,
                room,
                *place,
                name.as_slice(),
                args.as_slice(),
                guard,
            )
        }
        Expr::Unary { op, inner, .. } => {
            let v = eval(emitter, table, room, inner.get(), guard)?;
            emitter.set(guard, unary_op(*op), &[v])
        }
        Expr::StepBefore { place, op, target } => {
            let (_, behind) = count(emitter, table, room, *place, *op, target.get(), guard)?;
            Ok(behind)
        }
        Expr::StepAfter { place, op, target } => {
            let (before, _) = count(emitter, table, room, *place, *op, target.get(), guard)?;
            Ok(before)
        }
        Expr::Binary {
            place,
            op,
            left,
            right,
        } => binary(
            emitter,
            table,
            room,
            *place,
            *op,
            left.get(),
            right.get(),
            guard,
        ),
        Expr::Choose { test, yes, no, .. } => {
            choose(emitter, table, room, test.get(), yes.get(), no.get(), guard)
        }
        Expr::Assign {
            place,
            op,
            target,
            value,
        } => assign(
            emitter,
            table,
            room,
            *place,
            *op,
            target.get(),
            value.get(),
            guard,
        ),
        Expr::Comma { left, right, .. } => {
            eval(emitter, table, room, left.get(), guard)?;
            eval(emitter, table, room, right.get(), guard)
        }
    }
}

/// The cells that an lvalue may name, or an lvalue behind `&`.
#[cycle(emit)]
pub(crate) fn cells(
    emitter: &mut Emitter,
    table: &Table,
    room: usize,
    expr: &Expr,
    guard: u32,
) -> Result<List<Cell>, OutOfMemory>
    ensures { Emits result emitter.new ((pieces.piece (context_at table.now) expr.now).find guard emitter.old) }
{
    let room = emitter.inner(room)?;
    match expr {
        Expr::Name { place, name } => {
            emitter.find_cells(table, *place, name.as_slice(), guard, None)
        }
        Expr::Index { place, name, index } => {
            let i = eval(emitter, table, room, index.get(), guard)?;
            emitter.find_cells(table, *place, name.as_slice(), guard, Some(i))
        }
        Expr::Bracket { inner, .. } => cells(emitter, table, room, inner.get(), guard),
        Expr::Address { target, .. } => cells(emitter, table, room, target.get(), guard),
        Expr::Number { .. } => emitter.no_cell(guard),
        Expr::Text { .. } => emitter.no_cell(guard),
        Expr::Call { .. } => emitter.no_cell(guard),
        Expr::Cast { .. } => emitter.no_cell(guard),
        Expr::Unary { .. } => emitter.no_cell(guard),
        Expr::StepBefore { .. } => emitter.no_cell(guard),
        Expr::StepAfter { .. } => emitter.no_cell(guard),
        Expr::Binary { .. } => emitter.no_cell(guard),
        Expr::Choose { .. } => emitter.no_cell(guard),
        Expr::Assign { .. } => emitter.no_cell(guard),
        Expr::Comma { .. } => emitter.no_cell(guard),
    }
}

// An operator between two operands. The right one of `&&` and `||` stands under a guard of its own.
#[cycle(emit)]
fn binary(
    emitter: &mut Emitter,
    table: &Table,
    room: usize,
    place: Place,
    op: BinaryOp,
    left: &Expr,
    right: &Expr,
    guard: u32,
) -> Result<u32, OutOfMemory>
    ensures { Emits result emitter.new (pieces.binary_run place op (pieces.piece (context_at table.now) left.now) (pieces.piece (context_at table.now) right.now) guard emitter.old) }
{
    let x = eval(emitter, table, room, left, guard)?;
    match op {
        BinaryOp::LogicAnd => {
            let if_true = emitter.when(guard, x)?;
            let y = eval(emitter, table, room, right, if_true)?;
            emitter.when(if_true, y)
        }
        BinaryOp::LogicOr => {
            let value = emitter.when(guard, x)?;
            let if_false = emitter.unless(guard, x)?;
            let y = eval(emitter, table, room, right, if_false)?;
            emitter.set_to(if_false, value, Op::NotEqual, &[y, NONE])?;
            Ok(value)
        }
        _ => {
            let y = eval(emitter, table, room, right, guard)?;
            typed(emitter, table, place, op, left, right, guard, x, y)
        }
    }
}

// The value of one of two expressions.
#[cycle(emit)]
fn choose(
    emitter: &mut Emitter,
    table: &Table,
    room: usize,
    test: &Expr,
    yes: &Expr,
    no: &Expr,
    guard: u32,
) -> Result<u32, OutOfMemory>
    ensures { Emits result emitter.new (pieces.choose (pieces.piece (context_at table.now) test.now) (pieces.piece (context_at table.now) yes.now) (pieces.piece (context_at table.now) no.now) guard emitter.old) }
{
    let x = eval(emitter, table, room, test, guard)?;
    let if_true = emitter.when(guard, x)?;
    let if_false = emitter.unless(guard, x)?;
    let value = emitter.fresh()?;
    let y = eval(emitter, table, room, yes, if_true)?;
    emitter.copy_to(if_true, value, y)?;
    let z = eval(emitter, table, room, no, if_false)?;
    emitter.copy_to(if_false, value, z)?;
    Ok(value)
}

// An assignment.
#[cycle(emit)]
fn assign(
    emitter: &mut Emitter,
    table: &Table,
    room: usize,
    place: Place,
    op: AssignOp,
    target: &Expr,
    value: &Expr,
    guard: u32,
) -> Result<u32, OutOfMemory>
    ensures { Emits result emitter.new (pieces.assign place op (pieces.piece (context_at table.now) target.now) (pieces.piece (context_at table.now) value.now) guard emitter.old) }
{
    let cells = cells(emitter, table, room, target, guard)?;
    match op {
        AssignOp::Plain => {
            let v = eval(emitter, table, room, value, guard)?;
            emitter.write(cells.as_slice(), v)?;
            Ok(v)
        }
        AssignOp::With(op) => {
            let old = emitter.read(cells.as_slice())?;
            let v = eval(emitter, table, room, value, guard)?;
            let new = typed(emitter, table, place, op, target, value, guard, old, v)?;
            emitter.write(cells.as_slice(), new)?;
            Ok(new)
        }
    }
}

// `++` or `--`: the values before and behind.
#[cycle(emit)]
fn count(
    emitter: &mut Emitter,
    table: &Table,
    room: usize,
    place: Place,
    op: StepOp,
    target: &Expr,
    guard: u32,
) -> Result<(u32, u32), OutOfMemory>
    ensures { Emits result emitter.new (pieces.count place op (pieces.piece (context_at table.now) target.now) guard emitter.old) }
{
    let cells = cells(emitter, table, room, target, guard)?;
    let before = emitter.read(cells.as_slice())?;
    let operator = Operator {
        place,
        op: step_op(op),
        left_unsigned: unsigned(emitter, table, target),
        right_unsigned: false,
    };
    let behind = operate(emitter, operator, guard, before, ONE)?;
    emitter.write(cells.as_slice(), behind)?;
    Ok((before, behind))
}

/// The value of an expression that may be absent, and then is in this local.
#[cycle(emit)]
pub(crate) fn optional(
    emitter: &mut Emitter,
    table: &Table,
    room: usize,
    expr: Option<&Expr>,
    absent: u32,
    guard: u32,
) -> Result<u32, OutOfMemory>
    ensures { Emits result emitter.new (stating.eval_if (context_at table.now) absent (option_copied expr.entry) guard emitter.old) }
{
    match expr {
        None => Ok(absent),
        Some(expr) => eval(emitter, table, room, expr, guard),
    }
}

/// The values of expressions, from left to right.
#[cycle(emit)]
pub(crate) fn values(
    emitter: &mut Emitter,
    table: &Table,
    room: usize,
    exprs: &[Expr],
    guard: u32,
) -> Result<List<u32>, OutOfMemory>
    ensures { Emits result emitter.new (pieces.values_of [] (map (pieces.piece (context_at table.now)) exprs.now) guard emitter.old) }
{
    let mut values = List::new(emitter.alloc());
    for expr in exprs {
        let v = eval(emitter, table, room, expr, guard)?;
        values.push(v)?;
    }
    Ok(values)
}
