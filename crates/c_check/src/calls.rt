// Which functions call which.
ghost use Rattle.std.specs.Prelude.{◌≡◌, ◌++◌, ◌∷◌, ◌<◌, [], map, length, OnOk, IfOk, option_copied};
ghost use Rattle.std.specs.Option.{IfSome};
ghost use Rattle.c_rules.specs.Routines as routines;
ghost use Rattle.c_check.specs.Recursion as calls;
ghost use Rattle.c_check.specs.Graph.{numbers_of, callees_in, callees_of};

use c_rules::routine_name;
use c_tree::{Declarator, Expr, Function, Initialiser, Item, Start, Stmt};
use dg_base::{Bytes, List, OutOfMemory};
use std::alloc::Global;

/// The number among the items of the function with a body of a name.
pub(crate) fn number_of(items: &[Item], name: &[u8]) -> Option<usize>
    ensures number { result ≡ calls.number_of items.now name.now }
    ensures within { IfSome result (λ i. i < length items.now) }
{
    for (i, item) in items.iter().enumerate() {
        match item {
            Item::Function(function) => {
                if function.name.as_slice() == name {
                    return Some(i);
                }
            }
            Item::Prototype { .. } => {}
            Item::Shared(_) => {}
        }
    }
    None
}

// The function of a thread that an expression names, as the walk over calls has it.
#[tactic(auto, using(crate::proofs::Namings::called_routine))]
fn called_routine(expr: &Expr) -> Option<&Bytes>
    ensures { option_copied result ≡ (calls.called expr.now).naming.routine }
{
    routine_name(expr)
}

// The function that the third of these expressions names.
#[tactic(auto, using(crate::proofs::Namings::few_routines))]
fn third_routine(args: &[Expr]) -> Option<&Bytes>
    ensures { option_copied result ≡ routines.third_routine (calls.namings (map calls.called args.now)) }
{
    match args {
        [_, _, third, ..] => called_routine(third),
        _ => None,
    }
}

/// The function of the thread that a call makes, if it is one of pthread_create.
pub(crate) fn created_by<'a>(name: &[u8], args: &'a [Expr]) -> Option<&'a Bytes>
    ensures { option_copied result ≡ routines.created_by name.now (calls.namings (map calls.called args.now)) }
{
    if b"pthread_create".as_slice() == name {
        third_routine(args)
    } else {
        None
    }
}

// Gathers the numbers of the functions that are called.
#[derive(Clone, Copy, Drop)]
struct Gatherer<'a> {
    items: &'a [Item],
}

impl<'a> Gatherer<'a> {
    #[tactic(auto, unfolding(crate::specs::Graph::numbers_of))]
    fn name(&self, name: &[u8], into: &mut List<usize>) -> Result<(), OutOfMemory>
        ensures { OnOk result (into.new ≡ into.old ++ numbers_of self.now.items.now (name.now ∷ [])) }
    {
        match number_of(self.items, name) {
            None => Ok(()),
            Some(number) => Ok(into.push(number)?),
        }
    }

    #[tactic(auto, using(crate::proofs::Gathering::none_gathered))]
    fn created(&self, name: &[u8], args: &[Expr], into: &mut List<usize>) -> Result<(), OutOfMemory>
        ensures { OnOk result (into.new ≡ into.old ++ numbers_of self.now.items.now (calls.names_in (routines.created_by name.now (calls.namings (map calls.called args.now))))) }
    {
        match created_by(name, args) {
            None => Ok(()),
            Some(routine) => self.name(routine.as_slice(), into),
        }
    }

    #[cycle(expr)]
    #[tactic(auto, using(crate::proofs::Forms::called_laws, crate::proofs::Gathering::none_gathered, crate::proofs::Gathering::then, crate::proofs::Gathering::then_one, crate::proofs::Gathering::then_last, crate::proofs::Gathering::then_one_last))]
    fn expr(&self, expr: &Expr, into: &mut List<usize>) -> Result<(), OutOfMemory>
        ensures { OnOk result (into.new ≡ into.old ++ numbers_of self.now.items.now (calls.called_in expr.now)) }
    {
        match expr {
            Expr::Name { .. } => Ok(()),
            Expr::Number { .. } => Ok(()),
            Expr::Text { .. } => Ok(()),
            Expr::Bracket { inner, .. } => self.expr(inner.get(), into),
            Expr::Index { index, .. } => self.expr(index.get(), into),
            Expr::Call { name, args, .. } => {
                self.exprs(args.as_slice(), into)?;
                self.name(name.as_slice(), into)?;
                self.created(name.as_slice(), args.as_slice(), into)
            }
            Expr::Cast { inner, .. } => self.expr(inner.get(), into),
            Expr::Unary { inner, .. } => self.expr(inner.get(), into),
            Expr::StepBefore { target, .. } => self.expr(target.get(), into),
            Expr::StepAfter { target, .. } => self.expr(target.get(), into),
            Expr::Binary { left, right, .. } => {
                self.expr(left.get(), into)?;
                self.expr(right.get(), into)
            }
            Expr::Choose { test, yes, no, .. } => {
                self.expr(test.get(), into)?;
                self.expr(yes.get(), into)?;
                self.expr(no.get(), into)
            }
            Expr::Assign { target, value, .. } => {
                self.expr(target.get(), into)?;
                self.expr(value.get(), into)
            }
            Expr::Comma { left, right, .. } => {
                self.expr(left.get(), into)?;
                self.expr(right.get(), into)
            }
            Expr::Address { target, .. } => self.expr(target.get(), into),
        }
    }

    #[cycle(expr)]
    #[tactic(auto, using(crate::proofs::Gathering::none_left, crate::proofs::Gathering::next_expr))]
    fn exprs(&self, exprs: &[Expr], into: &mut List<usize>) -> Result<(), OutOfMemory>
        ensures { OnOk result (into.new ≡ into.old ++ numbers_of self.now.items.now (calls.all_called (map calls.called exprs.now))) }
    {
        for expr in exprs {
            self.expr(expr, into)?;
        }
        Ok(())
    }

    #[tactic(auto, using(crate::proofs::Gathering::none_gathered))]
    fn option(&self, expr: &Option<Expr>, into: &mut List<usize>) -> Result<(), OutOfMemory>
        ensures { OnOk result (into.new ≡ into.old ++ numbers_of self.now.items.now (calls.called_in_option expr.now)) }
    {
        match expr {
            None => Ok(()),
            Some(expr) => self.expr(expr, into),
        }
    }

    #[tactic(auto, using(crate::proofs::Gathering::none_gathered))]
    fn start(&self, start: &Option<Initialiser>, into: &mut List<usize>) -> Result<(), OutOfMemory>
        ensures { OnOk result (into.new ≡ into.old ++ numbers_of self.now.items.now (calls.called_in_start start.now)) }
    {
        match start {
            None => Ok(()),
            Some(Initialiser::One(value)) => self.expr(value, into),
            Some(Initialiser::Braces(values)) => self.exprs(values.as_slice(), into),
        }
    }

    #[tactic(auto, using(crate::proofs::Gathering::none_left, crate::proofs::Gathering::next_declarator))]
    fn declarators(
        &self,
        declarators: &[Declarator],
        into: &mut List<usize>,
    ) -> Result<(), OutOfMemory>
        ensures { OnOk result (into.new ≡ into.old ++ numbers_of self.now.items.now (calls.called_in_declarators declarators.now)) }
    {
        for declarator in declarators {
            self.option(&declarator.size, into)?;
            self.start(&declarator.initialiser, into)?;
        }
        Ok(())
    }

    #[tactic(auto, using(crate::proofs::Gathering::none_gathered))]
    fn for_start(&self, start: &Start, into: &mut List<usize>) -> Result<(), OutOfMemory>
        ensures { OnOk result (into.new ≡ into.old ++ numbers_of self.now.items.now (calls.called_in_for start.now)) }
    {
        match start {
            Start::Nothing => Ok(()),
            Start::Expr(expr) => self.expr(expr, into),
            Start::Declare(decl) => self.declarators(decl.declarators.as_slice(), into),
        }
    }

    #[cycle(stmt)]
    #[tactic(auto, using(crate::proofs::Forms::stmt_laws, crate::proofs::Gathering::none_gathered, crate::proofs::Gathering::then, crate::proofs::Gathering::then_last))]
    fn stmt(&self, stmt: &Stmt, into: &mut List<usize>) -> Result<(), OutOfMemory>
        ensures { OnOk result (into.new ≡ into.old ++ numbers_of self.now.items.now (calls.called_in_stmt stmt.now)) }
    {
        match stmt {
            Stmt::Empty { .. } => Ok(()),
            Stmt::Expr { expr, .. } => self.expr(expr, into),
            Stmt::Declare(decl) => self.declarators(decl.declarators.as_slice(), into),
            Stmt::Block { body, .. } => self.stmts(body.as_slice(), into),
            Stmt::Label { body, .. } => self.stmt(body.get(), into),
            Stmt::If { test, yes, no, .. } => {
                self.expr(test, into)?;
                self.stmt(yes.get(), into)?;
                match no {
                    None => Ok(()),
                    Some(no) => self.stmt(no.get(), into),
                }
            }
            Stmt::While { test, body, .. } => {
                self.expr(test, into)?;
                self.stmt(body.get(), into)
            }
            Stmt::DoWhile { body, test, .. } => {
                self.stmt(body.get(), into)?;
                self.expr(test, into)
            }
            Stmt::For {
                start,
                test,
                step,
                body,
                ..
            } => {
                self.for_start(start, into)?;
                self.option(test, into)?;
                self.option(step, into)?;
                self.stmt(body.get(), into)
            }
            Stmt::Return { value, .. } => self.option(value, into),
            Stmt::Break { .. } => Ok(()),
            Stmt::Continue { .. } => Ok(()),
        }
    }

    #[cycle(stmt)]
    #[tactic(auto, using(crate::proofs::Gathering::none_left, crate::proofs::Gathering::next_stmt))]
    fn stmts(&self, stmts: &[Stmt], into: &mut List<usize>) -> Result<(), OutOfMemory>
        ensures { OnOk result (into.new ≡ into.old ++ numbers_of self.now.items.now (calls.in_all (map calls.called_in_stmt stmts.now))) }
    {
        for stmt in stmts {
            self.stmt(stmt, into)?;
        }
        Ok(())
    }
}

// What an item calls, by the numbers of the functions.
#[tactic(auto, using(crate::proofs::Gathering::none_gathered))]
fn callees_in(alloc: Global, items: &[Item], item: &Item) -> Result<List<usize>, OutOfMemory>
    ensures { IfOk result (λ l. l ≡ callees_in items.now item.now) }
{
    let mut into = List::new(alloc);
    match item {
        Item::Function(function) => {
            let gatherer = Gatherer { items };
            gatherer.stmts(function.body.as_slice(), &mut into)?;
        }
        Item::Prototype { .. } => {}
        Item::Shared(_) => {}
    }
    Ok(into)
}

/// What each item calls, by the numbers of the functions.
pub(crate) fn callees_of(alloc: Global, items: &[Item]) -> Result<List<List<usize>>, OutOfMemory>
    ensures { IfOk result (λ l. l ≡ callees_of items.now) }
{
    let mut all = List::new(alloc);
    for item in items {
        let callees = callees_in(alloc, items, item)?;
        all.push(callees)?;
    }
    Ok(all)
}
