// Statements.
ghost use Rattle.std.specs.Prelude.{◌≡◌, option_copied};
ghost use Rattle.run_model.specs.Meaning as meanings;
ghost use Rattle.run_model.specs.Statements as statements;
ghost use Rattle.run_model.specs.Running.{Gives, context_at, setting_at};
ghost use Rattle.run_model.specs.Calls.{spend};

use crate::state::{Flow, Runner, Stop, inner};
use crate::table::Table;
use c_tree::{Expr, Start, Stmt};
use dg_base::Place;

// An expression that may be absent, behind a reference.
fn part(expr: &Option<Expr>) -> Option<&Expr>
    ensures { option_copied result ≡ expr.now }
{
    match expr {
        None => None,
        Some(expr) => Some(expr),
    }
}

// How a loop is left behind its body, if it is.
fn leaves(flow: Flow) -> Option<Flow>
    ensures { result ≡ statements.leaves flow }
{
    match flow {
        Flow::Next => None,
        Flow::Continued => None,
        Flow::Broke => Some(Flow::Next),
        Flow::Returned(v) => Some(Flow::Returned(v)),
    }
}

impl<'a> Runner<'a> {
    // A statement.
    #[cycle(run)]
    #[tactic(auto, using(crate::proofs::Passing::passes))]
    fn exec(&mut self, table: &Table, room: usize, stmt: &Stmt) -> Result<Flow, Stop>
        ensures { Gives result self.new (statements.execute (context_at table.now) stmt.now self.old) }
    {
        let room = inner(room)?;
        match stmt {
            Stmt::Empty { .. } => Ok(Flow::Next),
            Stmt::Expr { expr, .. } => {
                self.eval(table, room, expr)?;
                Ok(Flow::Next)
            }
            Stmt::Declare(decl) => {
                self.declare(table, room, decl)?;
                Ok(Flow::Next)
            }
            Stmt::Block { body, .. } => {
                let outer = self.locals.len();
                let flow = self.sequence(table, room, body.as_slice())?;
                self.locals.truncate(outer);
                Ok(flow)
            }
            Stmt::Label { body, .. } => self.branch(table, room, body.get()),
            Stmt::If { test, yes, no, .. } => {
                if self.eval(table, room, test)? != 0 {
                    return self.branch(table, room, yes.get());
                }
                match no {
                    None => Ok(Flow::Next),
                    Some(no) => self.branch(table, room, no.get()),
                }
            }
            Stmt::While { place, test, body } => {
                self.turns(table, room, *place, Some(test), None, body.get())
            }
            Stmt::DoWhile { place, body, test } => {
                self.do_turns(table, room, *place, body.get(), test)
            }
            Stmt::For {
                start,
                test,
                step,
                body,
                place,
            } => {
                let outer = self.locals.len();
                self.begin_for(table, room, start)?;
                let flow = self.turns(table, room, *place, part(test), part(step), body.get())?;
                self.locals.truncate(outer);
                Ok(flow)
            }
            Stmt::Return { value, .. } => {
                let v = self.optional(table, room, part(value), 0)?;
                Ok(Flow::Returned(v))
            }
            Stmt::Break { .. } => Ok(Flow::Broke),
            Stmt::Continue { .. } => Ok(Flow::Continued),
        }
    }

    // A statement that is part of another one: what it declares is gone behind it.
    #[cycle(run)]
    #[tactic(auto, using(crate::proofs::Passing::passes))]
    fn branch(&mut self, table: &Table, room: usize, stmt: &Stmt) -> Result<Flow, Stop>
        ensures { Gives result self.new (statements.scoped (statements.execute (context_at table.now) stmt.now) self.old) }
    {
        let outer = self.locals.len();
        let flow = self.exec(table, room, stmt)?;
        self.locals.truncate(outer);
        Ok(flow)
    }

    /// Statements in turn, up to one that does not leave off at its end.
    #[cycle(run)]
    #[tactic(auto, using(crate::proofs::Passing::passes))]
    pub(crate) fn sequence(
        &mut self,
        table: &Table,
        room: usize,
        body: &[Stmt],
    ) -> Result<Flow, Stop>
        ensures { Gives result self.new (statements.execute_all (context_at table.now) body.now self.old) }
    {
        for stmt in body {
            match self.exec(table, room, stmt)? {
                Flow::Next => {}
                other => return Ok(other),
            }
        }
        Ok(Flow::Next)
    }

    // The turns of a loop with its test before the body.
    #[cycle(run)]
    #[tactic(auto, using(crate::proofs::Passing::passes, crate::proofs::Turns::one_turn))]
    fn turns(
        &mut self,
        table: &Table,
        room: usize,
        place: Place,
        test: Option<&Expr>,
        step: Option<&Expr>,
        body: &Stmt,
    ) -> Result<Flow, Stop>
        ensures { Gives result self.new (statements.turns (context_at table.now) place (option_copied test.entry) (option_copied step.entry) (statements.execute (context_at table.now) body.now) self.old) }
    {
        for _turn in 0..table.turns {
            if self.optional(table, room, test, 1)? == 0 {
                return Ok(Flow::Next);
            }
            if let Some(flow) = leaves(self.branch(table, room, body)?) {
                return Ok(flow);
            }
            self.optional(table, room, step, 0)?;
        }
        if self.optional(table, room, test, 1)? == 0 {
            return Ok(Flow::Next);
        }
        Err(self.spend(table, place))
    }

    // The turns of a loop with its test behind the body.
    #[cycle(run)]
    #[tactic(auto, using(crate::proofs::Passing::passes, crate::proofs::Turns::one_do_turn))]
    fn do_turns(
        &mut self,
        table: &Table,
        room: usize,
        place: Place,
        body: &Stmt,
        test: &Expr,
    ) -> Result<Flow, Stop>
        ensures { Gives result self.new (statements.do_loop (spend (setting_at table.now) place) table.now.turns (meanings.eval (context_at table.now) test.now) (statements.scoped (statements.execute (context_at table.now) body.now)) self.old) }
    {
        for _turn in 0..table.turns {
            if let Some(flow) = leaves(self.branch(table, room, body)?) {
                return Ok(flow);
            }
            if self.eval(table, room, test)? == 0 {
                return Ok(Flow::Next);
            }
        }
        Err(self.spend(table, place))
    }

    // The start of a `for`.
    #[cycle(run)]
    #[tactic(auto, using(crate::proofs::Passing::passes))]
    fn begin_for(&mut self, table: &Table, room: usize, start: &Start) -> Result<(), Stop>
        ensures { Gives result self.new (statements.begin_for (context_at table.now) start.now self.old) }
    {
        match start {
            Start::Nothing => Ok(()),
            Start::Expr(expr) => {
                self.eval(table, room, expr)?;
                Ok(())
            }
            Start::Declare(decl) => self.declare(table, room, decl),
        }
    }
}
