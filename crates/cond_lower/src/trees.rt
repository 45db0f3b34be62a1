// Declarations, statements and programs without condition variables.
ghost use Rattle.std.specs.Prelude.{◌≡◌, ◌++◌, map, option_map, OnOk, IfOk};
ghost use Rattle.c_tree.specs.declared.stmt.Stmt.{Stmt};
ghost use Rattle.cond_lower.specs.Calls as calls;
ghost use Rattle.cond_lower.specs.Lowering as lowering;

use crate::calls::is_cond;
use crate::expressions::Lowering;
use crate::fault::Wakeups;
use crate::names::{tokens, waiting};
use crate::sections::push_sections;
use c_tree::{
    Decl, Declarator, Expr, Function, Initialiser, Item, Param, Program, Start, Stmt, TypeWord,
};
use dg_base::{Bytes, List, Place};
use sqlite_items::Boxed;
use std::alloc::{AllocError, Global};

// The declarator of a shared variable that begins with 0.
fn counter(place: Place, name: Bytes) -> Declarator
    ensures { result ≡ lowering.counter place name }
{
    Declarator {
        place,
        name,
        size: None,
        initialiser: None,
    }
}

// The two variables of each condition variable.
#[tactic(auto, using(crate::proofs::Added::two))]
fn counters(alloc: Global, conds: &[Declarator]) -> Result<List<Declarator>, AllocError>
    ensures { IfOk result (λ ds. ds ≡ lowering.counters conds.now) }
{
    let mut list = List::new(alloc);
    for cond in conds {
        let name = cond.name.as_slice();
        list.push(counter(cond.place, waiting(alloc, name)?))?;
        list.push(counter(cond.place, tokens(alloc, name)?))?;
    }
    Ok(list)
}

// The sections on each condition variable.
fn push_all_sections(
    alloc: Global,
    conds: &[Declarator],
    items: &mut List<Item>,
) -> Result<(), AllocError>
    ensures { OnOk result (items.new ≡ items.old ++ lowering.sections_of conds.now) }
{
    for cond in conds {
        push_sections(alloc, cond.place, cond.name.as_slice(), items)?;
    }
    Ok(())
}

fn copied_param(alloc: Global, param: &Param) -> Result<Param, AllocError>
    ensures { IfOk result (λ p. p ≡ param.now) }
{
    Ok(Param {
        place: param.place,
        word: param.word,
        name: Bytes::from_slice(alloc, param.name.as_slice())?,
    })
}

fn copied_params(alloc: Global, params: &[Param]) -> Result<List<Param>, AllocError>
    ensures { IfOk result (λ ps. ps ≡ params.now) }
{
    let mut list = List::new(alloc);
    for param in params {
        list.push(copied_param(alloc, param)?)?;
    }
    Ok(list)
}

impl Lowering {
    fn option(&self, expr: &Option<Expr>) -> Result<Option<Expr>, AllocError>
        ensures { IfOk result (λ x. x ≡ option_map (lowering.lower_expr self.now.wakeups) expr.now) }
    {
        match expr {
            None => Ok(None),
            Some(expr) => Ok(Some(self.expr(expr)?)),
        }
    }

    fn start(&self, start: &Option<Initialiser>) -> Result<Option<Initialiser>, AllocError>
        ensures { IfOk result (λ x. x ≡ option_map (lowering.lower_start self.now.wakeups) start.now) }
    {
        match start {
            None => Ok(None),
            Some(Initialiser::One(value)) => Ok(Some(Initialiser::One(self.expr(value)?))),
            Some(Initialiser::Braces(values)) => {
                Ok(Some(Initialiser::Braces(self.exprs(values.as_slice())?)))
            }
        }
    }

    fn declarator(&self, declarator: &Declarator) -> Result<Declarator, AllocError>
        ensures { IfOk result (λ d. d ≡ lowering.lower_declarator self.now.wakeups declarator.now) }
    {
        let size = self.option(&declarator.size)?;
        let initialiser = self.start(&declarator.initialiser)?;
        Ok(Declarator {
            place: declarator.place,
            name: Bytes::from_slice(self.alloc, declarator.name.as_slice())?,
            size,
            initialiser,
        })
    }

    fn decl(&self, decl: &Decl) -> Result<Decl, AllocError>
        ensures { IfOk result (λ d. d ≡ lowering.lower_decl self.now.wakeups decl.now) }
    {
        let mut declarators = List::new(self.alloc);
        for declarator in decl.declarators.as_slice() {
            declarators.push(self.declarator(declarator)?)?;
        }
        Ok(Decl {
            word: decl.word,
            declarators,
        })
    }

    fn for_start(&self, start: &Start) -> Result<Start, AllocError>
        ensures { IfOk result (λ s. s ≡ lowering.lower_for self.now.wakeups start.now) }
    {
        match start {
            Start::Nothing => Ok(Start::Nothing),
            Start::Expr(expr) => Ok(Start::Expr(self.expr(expr)?)),
            Start::Declare(decl) => Ok(Start::Declare(self.decl(decl)?)),
        }
    }

    #[cycle(stmt)]
    fn stmts(&self, stmts: &[Stmt]) -> Result<List<Stmt>, AllocError>
        ensures { IfOk result (λ xs. xs ≡ map (lowering.lower_stmt self.now.wakeups) stmts.now) }
    {
        let mut list = List::new(self.alloc);
        for stmt in stmts {
            list.push(self.stmt(stmt)?)?;
        }
        Ok(list)
    }

    #[cycle(stmt)]
    fn while_loop(&self, body: &Stmt, place: Place, test: &Expr) -> Result<Stmt, AllocError>
        ensures { IfOk result (λ s. s ≡ Stmt.While place (lowering.lower_expr self.now.wakeups test.now) (lowering.lower_stmt self.now.wakeups body.now)) }
    {
        let body = Boxed::new(self.alloc, self.stmt(body)?)?;
        Ok(Stmt::While {
            place,
            test: self.expr(test)?,
            body,
        })
    }

    #[cycle(stmt)]
    fn do_loop(&self, body: &Stmt, place: Place, test: &Expr) -> Result<Stmt, AllocError>
        ensures { IfOk result (λ s. s ≡ Stmt.DoWhile place (lowering.lower_stmt self.now.wakeups body.now) (lowering.lower_expr self.now.wakeups test.now)) }
    {
        let body = Boxed::new(self.alloc, self.stmt(body)?)?;
        Ok(Stmt::DoWhile {
            place,
            body,
            test: self.expr(test)?,
        })
    }

    #[cycle(stmt)]
    fn for_loop(
        &self,
        body: &Stmt,
        place: Place,
        start: &Start,
        test: &Option<Expr>,
        step: &Option<Expr>,
    ) -> Result<Stmt, AllocError>
        ensures { IfOk result (λ s. s ≡ Stmt.For place (lowering.lower_for self.now.wakeups start.now) (option_map (lowering.lower_expr self.now.wakeups) test.now) (option_map (lowering.lower_expr self.now.wakeups) step.now) (lowering.lower_stmt self.now.wakeups body.now)) }
    {
        let body = Boxed::new(self.alloc, self.stmt(body)?)?;
        let start = self.for_start(start)?;
        let test = self.option(test)?;
        Ok(Stmt::For {
            place,
            start,
            test,
            step: self.option(step)?,
            body,
        })
    }

    // An `if` without an `else`.
    #[cycle(stmt)]
    fn bare_if(&self, yes: &Stmt, place: Place, test: &Expr) -> Result<Stmt, AllocError>
        ensures { IfOk result (λ s. s ≡ Stmt.If place (lowering.lower_expr self.now.wakeups test.now) (lowering.lower_stmt self.now.wakeups yes.now) None) }
    {
        let yes = Boxed::new(self.alloc, self.stmt(yes)?)?;
        Ok(Stmt::If {
            place,
            test: self.expr(test)?,
            yes,
            no: None,
        })
    }

    // The statement behind an `else`, and then the whole.
    #[cycle(stmt)]
    fn if_else(&self, no: &Stmt, place: Place, test: &Expr, yes: Stmt) -> Result<Stmt, AllocError>
        ensures { IfOk result (λ s. s ≡ Stmt.If place (lowering.lower_expr self.now.wakeups test.now) yes (Some (lowering.lower_stmt self.now.wakeups no.now))) }
    {
        let yes = Boxed::new(self.alloc, yes)?;
        let no = Boxed::new(self.alloc, self.stmt(no)?)?;
        Ok(Stmt::If {
            place,
            test: self.expr(test)?,
            yes,
            no: Some(no),
        })
    }

    #[cycle(stmt)]
    fn label(&self, body: &Stmt, place: Place, name: &Bytes) -> Result<Stmt, AllocError>
        ensures { IfOk result (λ s. s ≡ Stmt.Label place name.now (lowering.lower_stmt self.now.wakeups body.now)) }
    {
        Ok(Stmt::Label {
            place,
            name: Bytes::from_slice(self.alloc, name.as_slice())?,
            body: Boxed::new(self.alloc, self.stmt(body)?)?,
        })
    }

    // A statement without condition variables.
    #[cycle(stmt)]
    fn stmt(&self, stmt: &Stmt) -> Result<Stmt, AllocError>
        ensures { IfOk result (λ s. s ≡ lowering.lower_stmt self.now.wakeups stmt.now) }
    {
        match stmt {
            Stmt::Empty { place } => Ok(Stmt::Empty { place: *place }),
            Stmt::Expr { place, expr } => Ok(Stmt::Expr {
                place: *place,
                expr: self.expr(expr)?,
            }),
            Stmt::Declare(decl) => Ok(Stmt::Declare(self.decl(decl)?)),
            Stmt::Block { place, body } => Ok(Stmt::Block {
                place: *place,
                body: self.stmts(body.as_slice())?,
            }),
            Stmt::Label { place, name, body } => self.label(body.get(), *place, name),
            Stmt::If {
                place,
                test,
                yes,
                no,
            } => match no {
                None => self.bare_if(yes.get(), *place, test),
                Some(no) => {
                    let yes = self.stmt(yes.get())?;
                    self.if_else(no.get(), *place, test, yes)
                }
            },
            Stmt::While { place, test, body } => self.while_loop(body.get(), *place, test),
            Stmt::DoWhile { place, body, test } => self.do_loop(body.get(), *place, test),
            Stmt::For {
                place,
                start,
                test,
                step,
                body,
            } => self.for_loop(body.get(), *place, start, test, step),
            Stmt::Return { place, value } => Ok(Stmt::Return {
                place: *place,
                value: self.option(value)?,
            }),
            Stmt::Break { place } => Ok(Stmt::Break { place: *place }),
            Stmt::Continue { place } => Ok(Stmt::Continue { place: *place }),
        }
    }

    fn function(&self, function: &Function) -> Result<Function, AllocError>
        ensures { IfOk result (λ f. f ≡ lowering.lower_function self.now.wakeups function.now) }
    {
        let params = copied_params(self.alloc, function.params.as_slice())?;
        let body = self.stmts(function.body.as_slice())?;
        Ok(Function {
            place: function.place,
            word: function.word,
            name: Bytes::from_slice(self.alloc, function.name.as_slice())?,
            params,
            body,
        })
    }

    // Adds what a declaration of shared variables becomes.
    fn shared(&self, decl: &Decl, items: &mut List<Item>) -> Result<(), AllocError>
        ensures { OnOk result (items.new ≡ items.old ++ lowering.lower_shared self.now.wakeups (calls.is_cond decl.now.word) decl.now) }
    {
        if !is_cond(decl.word) {
            return items.push(Item::Shared(self.decl(decl)?));
        }
        match self.wakeups {
            Wakeups::Any => Ok(()),
            Wakeups::Signalled => items.push(Item::Shared(Decl {
                word: TypeWord::Uint,
                declarators: counters(self.alloc, decl.declarators.as_slice())?,
            })),
        }
    }

    // Adds what an item becomes.
    fn item(&self, item: &Item, items: &mut List<Item>) -> Result<(), AllocError>
        ensures { OnOk result (items.new ≡ items.old ++ lowering.lower_item self.now.wakeups item.now) }
    {
        match item {
            Item::Function(function) => items.push(Item::Function(self.function(function)?)),
            Item::Prototype { place, word, name } => items.push(Item::Prototype {
                place: *place,
                word: *word,
                name: Bytes::from_slice(self.alloc, name.as_slice())?,
            }),
            Item::Shared(decl) => self.shared(decl, items),
        }
    }

    // Adds the sections on the condition variables that an item declares.
    fn item_sections(&self, item: &Item, items: &mut List<Item>) -> Result<(), AllocError>
        ensures { OnOk result (items.new ≡ items.old ++ lowering.sections_in item.now) }
    {
        match item {
            Item::Shared(decl) => {
                if is_cond(decl.word) {
                    push_all_sections(self.alloc, decl.declarators.as_slice(), items)
                } else {
                    Ok(())
                }
            }
            Item::Function(_) => Ok(()),
            Item::Prototype { .. } => Ok(()),
        }
    }

    // Adds what items become.
    fn items(&self, text: &[Item], items: &mut List<Item>) -> Result<(), AllocError>
        ensures { OnOk result (items.new ≡ items.old ++ lowering.lower_items self.now.wakeups text.now) }
    {
        for item in text {
            self.item(item, items)?;
        }
        Ok(())
    }

    // Adds the functions behind all those of the text.
    fn sections(&self, text: &[Item], items: &mut List<Item>) -> Result<(), AllocError>
        ensures { OnOk result (items.new ≡ items.old ++ lowering.added self.now.wakeups text.now) }
    {
        match self.wakeups {
            Wakeups::Any => Ok(()),
            Wakeups::Signalled => self.all_sections(text, items),
        }
    }

    fn all_sections(&self, text: &[Item], items: &mut List<Item>) -> Result<(), AllocError>
        ensures { OnOk result (items.new ≡ items.old ++ lowering.all_sections text.now) }
    {
        for item in text {
            self.item_sections(item, items)?;
        }
        Ok(())
    }

    /// The program without condition variables.
    pub(crate) fn program(&self, program: &Program) -> Result<Program, AllocError>
        ensures { IfOk result (λ p. p ≡ lowering.lowered self.now.wakeups program.now) }
    {
        let mut items = List::new(self.alloc);
        self.items(program.items.as_slice(), &mut items)?;
        self.sections(program.items.as_slice(), &mut items)?;
        Ok(Program { items })
    }
}
