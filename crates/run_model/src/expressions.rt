// Expressions: their values and the cells that they name.
//
// All functions that lead back to an expression are one recursion. It takes `room`, one less for each form inside another,
// so that a tree which is too deep for the stack is refused as want of memory.
ghost use Rattle.std.specs.Prelude.{◌≡◌, option_copied, map, [], IfOk};
ghost use Rattle.run_model.specs.Meaning as meanings;
ghost use Rattle.run_model.specs.Statements.{eval_if};
ghost use Rattle.run_model.specs.Steps.{State, in_turn};
ghost use Rattle.run_model.specs.Running.{Gives, context_at};

use crate::operators::{settles, step_op, truth, unary_op};
use crate::state::{Runner, Slot, Stop, fail, inner};
use crate::table::Table;
use c_tree::{AssignOp, BinaryOp, Expr, StepOp, binary_op, divides};
use dg_base::{List, Place, apply};

// The operator's value of two values, which fails at its place where it divides by 0.
fn operate(place: Place, op: BinaryOp, left: bool, right: bool, a: u32, b: u32) -> Result<u32, Stop>
    ensures { (s : State) → Gives result s (meanings.operate place op left right a b s) }
{
    if divides(op) && b == 0 {
        Err(fail(place))
    } else {
        Ok(apply(binary_op(op, left, right), &[a, b]))
    }
}

impl<'a> Runner<'a> {
    /// The value of an expression.
    #[cycle(run)]
    #[tactic(auto, using(crate::proofs::Passing::passes))]
    pub(crate) fn eval(&mut self, table: &Table, room: usize, expr: &Expr) -> Result<u32, Stop>
        ensures { Gives result self.new ((meanings.meaning (context_at table.now) expr.now).run self.old) }
    {
        let room = inner(room)?;
        match expr {
            Expr::Number { value, .. } => Ok(*value),
            Expr::Text { .. } => Ok(0),
            Expr::Address { .. } => Ok(0),
            Expr::Bracket { inner, .. } => self.eval(table, room, inner.get()),
            Expr::Cast { inner, .. } => self.eval(table, room, inner.get()),
            Expr::Name { .. } | Expr::Index { .. } => {
                let slot = self.cell(table, room, expr)?;
                self.read(slot)
            }
            Expr::Call { place, name, args } => {
                self.call(table, room, *place, name.as_slice(), args.as_slice())
            }
            Expr::Unary { op, inner, .. } => {
                let v = self.eval(table, room, inner.get())?;
                Ok(apply(unary_op(*op), &[v]))
            }
            Expr::StepBefore { place, op, target } => {
                let (_, after) = self.count(table, room, *place, *op, target.get())?;
                Ok(after)
            }
            Expr::StepAfter { place, op, target } => {
                let (before, _) = self.count(table, room, *place, *op, target.get())?;
                Ok(before)
            }
            Expr::Binary {
                place,
                op,
                left,
                right,
            } => self.binary(table, room, *place, *op, left.get(), right.get()),
            Expr::Choose { test, yes, no, .. } => {
                if self.eval(table, room, test.get())? == 0 {
                    self.eval(table, room, no.get())
                } else {
                    self.eval(table, room, yes.get())
                }
            }
            Expr::Assign {
                place,
                op,
                target,
                value,
            } => self.assign(table, room, *place, *op, target.get(), value.get()),
            Expr::Comma { left, right, .. } => {
                self.eval(table, room, left.get())?;
                self.eval(table, room, right.get())
            }
        }
    }

    /// The cell that an lvalue names, or an lvalue behind `&`.
    #[cycle(run)]
    #[tactic(auto, using(crate::proofs::Passing::passes))]
    pub(crate) fn cell(&mut self, table: &Table, room: usize, expr: &Expr) -> Result<Slot, Stop>
        ensures { Gives result self.new ((meanings.meaning (context_at table.now) expr.now).find self.old) }
    {
        let room = inner(room)?;
        match expr {
            Expr::Name { place, name } => self.slot(table, *place, name.as_slice(), 0),
            Expr::Index { place, name, index } => {
                let i = self.eval(table, room, index.get())?;
                self.slot(table, *place, name.as_slice(), i)
            }
            Expr::Bracket { inner, .. } => self.cell(table, room, inner.get()),
            Expr::Address { target, .. } => self.cell(table, room, target.get()),
            Expr::Number { .. } => Err(self.stop()),
            Expr::Text { .. } => Err(self.stop()),
            Expr::Call { .. } => Err(self.stop()),
            Expr::Cast { .. } => Err(self.stop()),
            Expr::Unary { .. } => Err(self.stop()),
            Expr::StepBefore { .. } => Err(self.stop()),
            Expr::StepAfter { .. } => Err(self.stop()),
            Expr::Binary { .. } => Err(self.stop()),
            Expr::Choose { .. } => Err(self.stop()),
            Expr::Assign { .. } => Err(self.stop()),
            Expr::Comma { .. } => Err(self.stop()),
        }
    }

    // An operator between two operands.
    #[cycle(run)]
    #[tactic(auto, using(crate::proofs::Passing::passes))]
    fn binary(
        &mut self,
        table: &Table,
        room: usize,
        place: Place,
        op: BinaryOp,
        left: &Expr,
        right: &Expr,
    ) -> Result<u32, Stop>
        ensures { Gives result self.new (meanings.binary place op (meanings.meaning (context_at table.now) left.now) (meanings.meaning (context_at table.now) right.now) self.old) }
    {
        let x = self.eval(table, room, left)?;
        if settles(op, x) {
            return Ok(truth(x));
        }
        let y = self.eval(table, room, right)?;
        let u = self.unsigned(table, left);
        let w = self.unsigned(table, right);
        operate(place, op, u, w, x, y)
    }

    // An assignment.
    #[cycle(run)]
    #[tactic(auto, using(crate::proofs::Passing::passes))]
    fn assign(
        &mut self,
        table: &Table,
        room: usize,
        place: Place,
        op: AssignOp,
        target: &Expr,
        value: &Expr,
    ) -> Result<u32, Stop>
        ensures { Gives result self.new (meanings.assign place op (meanings.meaning (context_at table.now) target.now) (meanings.meaning (context_at table.now) value.now) self.old) }
    {
        let slot = self.cell(table, room, target)?;
        match op {
            AssignOp::Plain => {
                let v = self.eval(table, room, value)?;
                self.write(slot, v)?;
                Ok(v)
            }
            AssignOp::With(op) => {
                let old = self.read(slot)?;
                let right = self.eval(table, room, value)?;
                let u = self.unsigned(table, target);
                let w = self.unsigned(table, value);
                let new = operate(place, op, u, w, old, right)?;
                self.write(slot, new)?;
                Ok(new)
            }
        }
    }

    // `++` or `--`: the values before and behind.
    #[cycle(run)]
    #[tactic(auto, using(crate::proofs::Passing::passes))]
    fn count(
        &mut self,
        table: &Table,
        room: usize,
        place: Place,
        op: StepOp,
        target: &Expr,
    ) -> Result<(u32, u32), Stop>
        ensures { Gives result self.new (meanings.count place op (meanings.meaning (context_at table.now) target.now) self.old) }
    {
        let slot = self.cell(table, room, target)?;
        let before = self.read(slot)?;
        let u = self.unsigned(table, target);
        let behind = operate(place, step_op(op), u, false, before, 1)?;
        self.write(slot, behind)?;
        Ok((before, behind))
    }

    /// The value of an expression that may be absent, and then is this one.
    #[cycle(run)]
    pub(crate) fn optional(
        &mut self,
        table: &Table,
        room: usize,
        expr: Option<&Expr>,
        absent: u32,
    ) -> Result<u32, Stop>
        ensures { Gives result self.new (eval_if (context_at table.now) absent (option_copied expr.entry) self.old) }
    {
        match expr {
            None => Ok(absent),
            Some(expr) => self.eval(table, room, expr),
        }
    }

    /// The values of expressions, from left to right.
    #[cycle(run)]
    #[tactic(auto, using(crate::proofs::Passing::passes))]
    pub(crate) fn values(
        &mut self,
        table: &Table,
        room: usize,
        exprs: &[Expr],
    ) -> Result<List<u32>, Stop>
        ensures { Gives result self.new (in_turn [] (meanings.runs_of (map (meanings.meaning (context_at table.now)) exprs.now)) self.old) }
    {
        let mut values = List::new(self.alloc);
        for expr in exprs {
            let v = self.eval(table, room, expr)?;
            if values.push(v).is_err() {
                return Err(Stop::OutOfMemory);
            }
        }
        Ok(values)
    }
}
