// One pass over a program in the order of the text.
ghost use Rattle.std.specs.Prelude.{◌≡◌, map, OnOk, None};
ghost use Rattle.c_rules.specs.Names as names;
ghost use Rattle.c_rules.specs.Scopes as scopes;
ghost use Rattle.c_rules.specs.Walk as walk;
ghost use Rattle.c_rules.specs.Passes.{Gives, Extends, rules_of, pass_walk};

use crate::declared::declarator_fits;
use crate::rules::{Pass, Rule, fail_at, unless};
use crate::scope::Scopes;
use crate::stop::Stop;
use c_tree::{Declarator, Expr, Start, Stmt, TypeWord};
use dg_base::Place;

impl<'a> Pass<'a> {
    // A declarator, and then the variable is in scope.
    #[tactic(auto, using(crate::proofs::Passing::passes, crate::proofs::Passing::goes_on, crate::proofs::Passing::none_in, crate::proofs::Passing::rest))]
    fn declarator(
        &self,
        scope: &mut Scopes,
        word: TypeWord,
        declarator: &Declarator,
    ) -> Result<(), Stop>
        ensures found { Gives result ((rules_of self.now.rule self.now.items.now).declarator scope.old word declarator.now) }
        ensures scope { OnOk result (scope.new ≡ walk.declare word declarator.now scope.old) }
    {
        match self.rule {
            Rule::Redeclared => {
                let is_new = !scope.declares(declarator.name.as_slice());
                fail_at(unless(is_new, declarator.place))?;
                Ok(scope.declare_variable(self.alloc, word, declarator)?)
            }
            Rule::Undeclared => {
                fail_at(self.unknown_in_size(scope, &declarator.size))?;
                scope.declare_variable(self.alloc, word, declarator)?;
                let starts_mutex = is_mutex(word);
                fail_at(self.unknown_in_start(scope, starts_mutex, &declarator.initialiser))
            }
            Rule::Types => {
                fail_at(self.broken_size(scope, &declarator.size))?;
                let fits = declarator_fits(scope.is_top(), word, declarator);
                scope.declare_variable(self.alloc, word, declarator)?;
                fail_at(self.broken_start(scope, word, &declarator.initialiser))?;
                fail_at(unless(fits, declarator.place))
            }
        }
    }

    #[tactic(auto, using(crate::proofs::Passing::passes, crate::proofs::Passing::goes_on, crate::proofs::Passing::none_in, crate::proofs::Passing::rest, crate::proofs::Growing::same, crate::proofs::Growing::declared, crate::proofs::Growing::further))]
    pub(crate) fn declare(
        &self,
        scope: &mut Scopes,
        word: TypeWord,
        declarators: &[Declarator],
    ) -> Result<(), Stop>
        ensures found { Gives result (walk.declarators (pass_walk self.now.rule self.now.items.now) word declarators.now scope.old) }
        ensures scope { OnOk result (scope.new ≡ walk.declare_all word declarators.now scope.old) }
        ensures grown { OnOk result (Extends scope.old scope.new) }
    {
        for declarator in declarators {
            self.declarator(scope, word, declarator)?;
        }
        Ok(())
    }

    // What is broken at the start of a `for`, and then its names are in scope.
    #[tactic(auto, using(crate::proofs::Growing::same))]
    fn start(&self, scope: &mut Scopes, start: &Start) -> Result<(), Stop>
        ensures found { Gives result (walk.found_start (pass_walk self.now.rule self.now.items.now) start.now scope.old) }
        ensures scope { OnOk result (scope.new ≡ walk.behind_start start.now scope.old) }
        ensures grown { OnOk result (Extends scope.old scope.new) }
    {
        match start {
            Start::Nothing => Ok(()),
            Start::Expr(expr) => fail_at(self.value(scope, expr)),
            Start::Declare(decl) => self.declare(scope, decl.word, decl.declarators.as_slice()),
        }
    }

    fn optional_test(&self, scope: &Scopes, expr: &Option<Expr>) -> Option<Place>
        ensures { result ≡ walk.found_test (pass_walk self.now.rule self.now.items.now) expr.now scope.now }
    {
        match expr {
            None => None,
            Some(expr) => self.value(scope, expr),
        }
    }

    fn optional_value(&self, scope: &Scopes, expr: &Option<Expr>) -> Option<Place>
        ensures { result ≡ walk.found_value (pass_walk self.now.rule self.now.items.now) expr.now scope.now }
    {
        match expr {
            None => None,
            Some(expr) => self.value(scope, expr),
        }
    }

    fn optional_returned(&self, scope: &Scopes, place: Place, expr: &Option<Expr>) -> Option<Place>
        ensures { result ≡ walk.found_returned (pass_walk self.now.rule self.now.items.now) place expr.now scope.now }
    {
        match expr {
            None => None,
            Some(expr) => self.returned(scope, place, expr),
        }
    }

    // A statement of a block.
    #[cycle(statement)]
    #[tactic(auto, using(crate::proofs::Passing::passes, crate::proofs::Passing::goes_on, crate::proofs::Passing::none_in, crate::proofs::Passing::rest, crate::proofs::Growing::same))]
    fn statement(&self, scope: &mut Scopes, stmt: &Stmt) -> Result<(), Stop>
        ensures found { Gives result ((walk.walk (pass_walk self.now.rule self.now.items.now) stmt.now).found scope.old) }
        ensures scope { OnOk result (scope.new ≡ (walk.walk (pass_walk self.now.rule self.now.items.now) stmt.now).behind scope.old) }
        ensures grown { OnOk result (Extends scope.old scope.new) }
    {
        match stmt {
            Stmt::Empty { .. } => Ok(()),
            Stmt::Expr { expr, .. } => fail_at(self.effect(scope, expr)),
            Stmt::Declare(decl) => self.declare(scope, decl.word, decl.declarators.as_slice()),
            Stmt::Block { body, .. } => self.block(scope, body.as_slice()),
            Stmt::Label { body, .. } => self.part(scope, body.get()),
            Stmt::If { test, yes, no, .. } => {
                fail_at(self.value(scope, test))?;
                self.part(scope, yes.get())?;
                match no {
                    None => Ok(()),
                    Some(no) => self.part(scope, no.get()),
                }
            }
            Stmt::While { test, body, .. } => {
                fail_at(self.value(scope, test))?;
                self.turn(scope, body.get())
            }
            Stmt::DoWhile { body, test, .. } => {
                self.turn(scope, body.get())?;
                fail_at(self.value(scope, test))
            }
            Stmt::For {
                start,
                test,
                step,
                body,
                ..
            } => {
                let outer = scope.enter();
                self.start(scope, start)?;
                fail_at(self.optional_test(scope, test))?;
                fail_at(self.optional_value(scope, step))?;
                self.turn(scope, body.get())?;
                scope.leave(outer);
                Ok(())
            }
            Stmt::Return { place, value } => fail_at(self.optional_returned(scope, *place, value)),
            Stmt::Break { place } => fail_at(self.jump(scope, *place)),
            Stmt::Continue { place } => fail_at(self.jump(scope, *place)),
        }
    }

    // A statement that is part of another one.
    #[cycle(statement)]
    #[tactic(auto, using(crate::proofs::Growing::left_part))]
    fn part(&self, scope: &mut Scopes, stmt: &Stmt) -> Result<(), Stop>
        ensures found { Gives result ((walk.walk (pass_walk self.now.rule self.now.items.now) stmt.now).found scope.old) }
        ensures scope { OnOk result (scope.new ≡ scope.old) }
    {
        let outer = scope.outer();
        self.statement(scope, stmt)?;
        scope.leave(outer);
        Ok(())
    }

    // The statement of a loop's turns.
    #[cycle(statement)]
    #[tactic(auto, using(crate::proofs::Growing::left_loop))]
    fn turn(&self, scope: &mut Scopes, stmt: &Stmt) -> Result<(), Stop>
        ensures found { Gives result ((walk.walk (pass_walk self.now.rule self.now.items.now) stmt.now).found (walk.loop_in scope.old)) }
        ensures scope { OnOk result (scope.new ≡ scope.old) }
    {
        let outer = scope.enter_loop();
        self.statement(scope, stmt)?;
        scope.leave(outer);
        Ok(())
    }

    // The statements of a block.
    #[cycle(statement)]
    #[tactic(auto, using(crate::proofs::Growing::left))]
    fn block(&self, scope: &mut Scopes, body: &[Stmt]) -> Result<(), Stop>
        ensures found { Gives result (walk.in_turn (pass_walk self.now.rule self.now.items.now) (map (walk.walk (pass_walk self.now.rule self.now.items.now)) body.now) (walk.enter scope.old)) }
        ensures scope { OnOk result (scope.new ≡ scope.old) }
    {
        let outer = scope.enter();
        self.sequence(scope, body)?;
        scope.leave(outer);
        Ok(())
    }

    // Statements in turn.
    #[cycle(statement)]
    #[tactic(auto, using(crate::proofs::Passing::passes, crate::proofs::Passing::goes_on, crate::proofs::Passing::none_in, crate::proofs::Passing::rest, crate::proofs::Growing::same, crate::proofs::Growing::further))]
    pub(crate) fn sequence(&self, scope: &mut Scopes, body: &[Stmt]) -> Result<(), Stop>
        ensures found { Gives result (walk.in_turn (pass_walk self.now.rule self.now.items.now) (map (walk.walk (pass_walk self.now.rule self.now.items.now)) body.now) scope.old) }
        ensures grown { OnOk result (Extends scope.old scope.new) }
    {
        for stmt in body {
            self.statement(scope, stmt)?;
        }
        Ok(())
    }
}

/// Whether the type is that of mutexes.
pub(crate) fn is_mutex(word: TypeWord) -> bool
    ensures { result ≡ scopes.is_mutex word }
{
    match word {
        TypeWord::Mutex => true,
        _ => false,
    }
}
