// The nodes of a program, listed in the order of the text.
ghost use Rattle.std.specs.Prelude.{◌≡◌, ◌++◌, ◌∷◌, [], map, OnOk, IfOk};
ghost use Rattle.cond_lower.specs.Nodes as nodes;

use crate::arguments::{arguments_fit, cond_behind};
use crate::calls::{CondCall, cond_call_named, is_cond, is_cond_start};
use crate::node::Node;
use c_tree::{
    Decl, Declarator, Expr, Function, Initialiser, Item, Param, Program, Start, Stmt, TypeWord,
};
use dg_base::{Bytes, List, Place};
use std::alloc::{AllocError, Global};

/// Lists what the rule looks at.
#[derive(Clone, Copy, Drop)]
pub(crate) struct Notes {
    pub(crate) alloc: Global,
}

impl Notes {
    fn name(&self, place: Place, name: &Bytes, list: &mut List<Node>) -> Result<(), AllocError>
        ensures { OnOk result (list.new ≡ list.old ++ Node.Names place name.now ∷ []) }
    {
        let name = Bytes::from_slice(self.alloc, name.as_slice())?;
        list.push(Node::Names { place, name })
    }

    fn word(&self, place: Place, word: TypeWord, list: &mut List<Node>) -> Result<(), AllocError>
        ensures { OnOk result (list.new ≡ list.old ++ nodes.cast_node place word) }
    {
        if is_cond(word) {
            list.push(Node::Breaks { place })
        } else {
            Ok(())
        }
    }

    #[cycle(expr)]
    fn exprs(&self, exprs: &[Expr], list: &mut List<Node>) -> Result<(), AllocError>
        ensures { OnOk result (list.new ≡ list.old ++ nodes.nodes_of_all (map nodes.noted exprs.now)) }
    {
        for expr in exprs {
            self.expr(expr, list)?;
        }
        Ok(())
    }

    // A call that breaks the rule in itself.
    #[cycle(expr)]
    fn unfit(&self, place: Place, args: &[Expr], list: &mut List<Node>) -> Result<(), AllocError>
        ensures { OnOk result (list.new ≡ list.old ++ (Node.Breaks place ∷ nodes.nodes_of_all (map nodes.noted args.now))) }
    {
        list.push(Node::Breaks { place })?;
        self.exprs(args, list)
    }

    // The arguments of a call on a condition variable, which fit.
    #[cycle(expr)]
    fn on_cond(&self, place: Place, args: &[Expr], list: &mut List<Node>) -> Result<(), AllocError>
        ensures { OnOk result (list.new ≡ list.old ++ nodes.on_cond place (nodes.first_cond args.now) (map nodes.noted args.now)) }
    {
        match args {
            [] => list.push(Node::Breaks { place }),
            [first, rest @ ..] => match cond_behind(first) {
                None => self.unfit(place, args, list),
                Some(cond) => {
                    let name = Bytes::from_slice(self.alloc, cond.as_slice())?;
                    list.push(Node::Calls { place, name })?;
                    self.exprs(rest, list)
                }
            },
        }
    }

    // What stands behind the name of a call.
    #[cycle(expr)]
    #[tactic(auto, using(crate::proofs::Wholes::wholes_are))]
    fn behind_name(
        &self,
        place: Place,
        call: Option<CondCall>,
        args: &[Expr],
        list: &mut List<Node>,
    ) -> Result<(), AllocError>
        ensures { OnOk result (list.new ≡ list.old ++ nodes.behind_name place call (map nodes.noted args.now)) }
    {
        match call {
            None => self.exprs(args, list),
            Some(call) => {
                if arguments_fit(call, args) {
                    self.on_cond(place, args, list)
                } else {
                    self.unfit(place, args, list)
                }
            }
        }
    }

    // The nodes of an expression.
    #[cycle(expr)]
    fn expr(&self, expr: &Expr, list: &mut List<Node>) -> Result<(), AllocError>
        ensures { OnOk result (list.new ≡ list.old ++ nodes.expr_nodes expr.now) }
    {
        match expr {
            Expr::Name { place, name } => self.name(*place, name, list),
            Expr::Number { .. } => Ok(()),
            Expr::Text { .. } => Ok(()),
            Expr::Index { place, name, index } => {
                self.name(*place, name, list)?;
                self.expr(index.get(), list)
            }
            Expr::Call { place, name, args } => {
                self.name(*place, name, list)?;
                let call = cond_call_named(name.as_slice());
                self.behind_name(*place, call, args.as_slice(), list)
            }
            Expr::Cast { place, word, inner } => {
                self.word(*place, *word, list)?;
                self.expr(inner.get(), list)
            }
            Expr::Bracket { inner, .. }
            | Expr::Unary { inner, .. }
            | Expr::StepBefore { target: inner, .. }
            | Expr::StepAfter { target: inner, .. }
            | Expr::Address { target: inner, .. } => self.expr(inner.get(), list),
            Expr::Binary { left, right, .. }
            | Expr::Comma { left, right, .. }
            | Expr::Assign {
                target: left,
                value: right,
                ..
            } => {
                self.expr(left.get(), list)?;
                self.expr(right.get(), list)
            }
            Expr::Choose { test, yes, no, .. } => {
                self.expr(test.get(), list)?;
                self.expr(yes.get(), list)?;
                self.expr(no.get(), list)
            }
        }
    }

    fn option(&self, expr: &Option<Expr>, list: &mut List<Node>) -> Result<(), AllocError>
        ensures { OnOk result (list.new ≡ list.old ++ nodes.option_nodes expr.now) }
    {
        match expr {
            None => Ok(()),
            Some(expr) => self.expr(expr, list),
        }
    }

    fn start(&self, start: &Option<Initialiser>, list: &mut List<Node>) -> Result<(), AllocError>
        ensures { OnOk result (list.new ≡ list.old ++ nodes.start_nodes start.now) }
    {
        match start {
            None => Ok(()),
            Some(Initialiser::One(value)) => self.expr(value, list),
            Some(Initialiser::Braces(values)) => self.exprs(values.as_slice(), list),
        }
    }

    fn declarator(
        &self,
        shared: bool,
        word: TypeWord,
        declarator: &Declarator,
        list: &mut List<Node>,
    ) -> Result<(), AllocError>
        ensures { OnOk result (list.new ≡ list.old ++ nodes.declarator_nodes shared word declarator.now) }
    {
        let is_cond = is_cond(word);
        list.push(Node::Declares {
            place: declarator.place,
            name: Bytes::from_slice(self.alloc, declarator.name.as_slice())?,
            is_cond,
            fits: !is_cond || cond_fits(shared, declarator),
        })?;
        self.option(&declarator.size, list)?;
        self.start(&declarator.initialiser, list)
    }

    fn declarators(
        &self,
        shared: bool,
        word: TypeWord,
        declarators: &[Declarator],
        list: &mut List<Node>,
    ) -> Result<(), AllocError>
        ensures { OnOk result (list.new ≡ list.old ++ nodes.declarators_nodes shared word declarators.now) }
    {
        for declarator in declarators {
            self.declarator(shared, word, declarator, list)?;
        }
        Ok(())
    }

    fn decl(&self, shared: bool, decl: &Decl, list: &mut List<Node>) -> Result<(), AllocError>
        ensures { OnOk result (list.new ≡ list.old ++ nodes.decl_nodes shared decl.now) }
    {
        self.declarators(shared, decl.word, decl.declarators.as_slice(), list)
    }

    fn for_start(&self, start: &Start, list: &mut List<Node>) -> Result<(), AllocError>
        ensures { OnOk result (list.new ≡ list.old ++ nodes.for_nodes start.now) }
    {
        match start {
            Start::Nothing => Ok(()),
            Start::Expr(expr) => self.expr(expr, list),
            Start::Declare(decl) => self.decl(false, decl, list),
        }
    }

    #[cycle(stmt)]
    fn stmts(&self, stmts: &[Stmt], list: &mut List<Node>) -> Result<(), AllocError>
        ensures { OnOk result (list.new ≡ list.old ++ nodes.all_stmt_nodes stmts.now) }
    {
        for stmt in stmts {
            self.stmt(stmt, list)?;
        }
        Ok(())
    }

    // The nodes of a statement.
    #[cycle(stmt)]
    fn stmt(&self, stmt: &Stmt, list: &mut List<Node>) -> Result<(), AllocError>
        ensures { OnOk result (list.new ≡ list.old ++ nodes.stmt_nodes stmt.now) }
    {
        match stmt {
            Stmt::Empty { .. } => Ok(()),
            Stmt::Expr { expr, .. } => self.expr(expr, list),
            Stmt::Declare(decl) => self.decl(false, decl, list),
            Stmt::Block { body, .. } => self.stmts(body.as_slice(), list),
            Stmt::Label { body, .. } => self.stmt(body.get(), list),
            Stmt::If { test, yes, no, .. } => {
                self.expr(test, list)?;
                self.stmt(yes.get(), list)?;
                match no {
                    None => Ok(()),
                    Some(no) => self.stmt(no.get(), list),
                }
            }
            Stmt::While { test, body, .. } => {
                self.expr(test, list)?;
                self.stmt(body.get(), list)
            }
            Stmt::DoWhile { body, test, .. } => {
                self.stmt(body.get(), list)?;
                self.expr(test, list)
            }
            Stmt::For {
                start,
                test,
                step,
                body,
                ..
            } => {
                self.for_start(start, list)?;
                self.option(test, list)?;
                self.option(step, list)?;
                self.stmt(body.get(), list)
            }
            Stmt::Return { value, .. } => self.option(value, list),
            Stmt::Break { .. } => Ok(()),
            Stmt::Continue { .. } => Ok(()),
        }
    }

    fn params(&self, params: &[Param], list: &mut List<Node>) -> Result<(), AllocError>
        ensures { OnOk result (list.new ≡ list.old ++ map nodes.param_node params.now) }
    {
        for param in params {
            let is_cond = is_cond(param.word);
            list.push(Node::Declares {
                place: param.place,
                name: Bytes::from_slice(self.alloc, param.name.as_slice())?,
                is_cond,
                fits: !is_cond,
            })?;
        }
        Ok(())
    }

    fn function(&self, function: &Function, list: &mut List<Node>) -> Result<(), AllocError>
        ensures { OnOk result (list.new ≡ list.old ++ nodes.function_nodes function.now) }
    {
        list.push(Node::Declares {
            place: function.place,
            name: Bytes::from_slice(self.alloc, function.name.as_slice())?,
            is_cond: false,
            fits: head_fits(function),
        })?;
        self.params(function.params.as_slice(), list)?;
        self.stmts(function.body.as_slice(), list)
    }

    fn item(&self, item: &Item, list: &mut List<Node>) -> Result<(), AllocError>
        ensures { OnOk result (list.new ≡ list.old ++ nodes.item_nodes item.now) }
    {
        match item {
            Item::Function(function) => self.function(function, list),
            Item::Prototype { place, word, .. } => self.word(*place, *word, list),
            Item::Shared(decl) => self.decl(true, decl, list),
        }
    }

    /// What the rule looks at in a program, in the order of the text.
    pub(crate) fn program(&self, program: &Program) -> Result<List<Node>, AllocError>
        ensures { IfOk result (λ list. list ≡ nodes.nodes_of program.now) }
    {
        let mut list = List::new(self.alloc);
        for item in program.items.as_slice() {
            self.item(item, &mut list)?;
        }
        Ok(list)
    }
}

// Nothing, or PTHREAD_COND_INITIALIZER.
fn begins_well(start: &Option<Initialiser>) -> bool
    ensures { result ≡ nodes.begins_well start.now }
{
    match start {
        None => true,
        Some(Initialiser::One(Expr::Name { name, .. })) => is_cond_start(name.as_slice()),
        Some(Initialiser::One(_)) => false,
        Some(Initialiser::Braces(_)) => false,
    }
}

// A condition variable is a shared scalar that begins well.
fn cond_fits(shared: bool, declarator: &Declarator) -> bool
    ensures { result ≡ nodes.cond_fits shared declarator.now }
{
    shared && declarator.size.is_none() && begins_well(&declarator.initialiser)
}

// No function has the type or one of the five names.
fn head_fits(function: &Function) -> bool
    ensures { result ≡ nodes.head_fits function.now }
{
    !is_cond(function.word) && cond_call_named(function.name.as_slice()).is_none()
}
