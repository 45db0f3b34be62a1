// The walk over a body that counts.
ghost use Rattle.std.specs.Prelude.{◌≡◌, ◌+◌, map, take, slice_get, OnOk, IfOk};
ghost use Rattle.c_rules.specs.Walk as walk;
ghost use Rattle.c_rules.specs.Passes.{Extends};
ghost use Rattle.c_check.specs.Counts as counts;
ghost use Rattle.c_check.specs.Capped.{capped_sums, table_named, table_walk};

use crate::counter::Counter;
use crate::counts::Counts;
use c_rules::Scopes;
use c_tree::{Declarator, Expr, Initialiser, Start, Stmt, TypeWord};
use dg_base::OutOfMemory;

impl<'a> Counter<'a> {
    fn value(&self, scope: &Scopes, expr: &Expr) -> Counts
        ensures { result ≡ counts.counts_in capped_sums (table_named self.now.items.now self.now.table.now) scope.now expr.now }
    {
        self.cost(scope, expr).reading()
    }

    #[tactic(auto, using(crate::proofs::Adding::none_in_all, crate::proofs::Adding::next_sum, crate::proofs::Adding::next_whole, crate::proofs::Adding::none_none))]
    fn values(&self, scope: &Scopes, exprs: &[Expr]) -> Counts
        ensures { result ≡ counts.counts_in_all capped_sums (table_named self.now.items.now self.now.table.now) scope.now exprs.now }
    {
        let mut found = Counts::none();
        for expr in exprs {
            found = found.together(self.value(scope, expr));
        }
        found
    }

    // A value that weighs 1: a test, or a returned value.
    fn weighed(&self, scope: &Scopes, expr: &Expr) -> Counts
        ensures { result ≡ counts.weighed capped_sums (table_named self.now.items.now self.now.table.now) scope.now expr.now }
    {
        Counts::of_weight(1).together(self.value(scope, expr))
    }

    fn turns(&self, counts: Counts) -> Counts
        ensures { result ≡ capped_sums.times self.now.k counts }
    {
        counts.times(self.k)
    }

    fn tests(&self, counts: Counts) -> Counts
        ensures { result ≡ capped_sums.times (self.now.k + 1) counts }
    {
        counts.times(self.k + 1)
    }

    fn initialiser(&self, scope: &Scopes, start: &Option<Initialiser>) -> Counts
        ensures { result ≡ counts.counts_at_start capped_sums (table_named self.now.items.now self.now.table.now) scope.now start.now }
    {
        match start {
            None => Counts::none(),
            Some(Initialiser::One(value)) => Counts::of_weight(1).together(self.value(
                scope, value,
            )),
            Some(Initialiser::Braces(values)) => {
                Counts::of_weight(1).together(self.values(scope, values.as_slice()))
            }
        }
    }

    fn declarator(
        &self,
        scope: &mut Scopes,
        word: TypeWord,
        declarator: &Declarator,
    ) -> Result<Counts, OutOfMemory>
        ensures found { IfOk result (λ c. c ≡ counts.counts_at_start capped_sums (table_named self.now.items.now self.now.table.now) (walk.declare word declarator.now scope.old) declarator.now.initialiser) }
        ensures scope { OnOk result (scope.new ≡ walk.declare word declarator.now scope.old) }
    {
        scope.declare_variable(self.alloc, word, declarator)?;
        Ok(self.initialiser(scope, &declarator.initialiser))
    }

    #[tactic(auto, using(crate::proofs::Adding::none_declarators, crate::proofs::Adding::next_sum, crate::proofs::Adding::next_whole, crate::proofs::Adding::none_none, c_rules::proofs::Growing::same, c_rules::proofs::Growing::declared, c_rules::proofs::Growing::further))]
    pub(crate) fn declare(
        &self,
        scope: &mut Scopes,
        word: TypeWord,
        declarators: &[Declarator],
    ) -> Result<Counts, OutOfMemory>
        ensures found { IfOk result (λ c. c ≡ walk.declarators (table_walk self.now.k self.now.items.now self.now.table.now) word declarators.now scope.old) }
        ensures scope { OnOk result (scope.new ≡ walk.declare_all word declarators.now scope.old) }
        ensures grown { OnOk result (Extends scope.old scope.new) }
    {
        let mut found = Counts::none();
        for declarator in declarators {
            let counts = self.declarator(scope, word, declarator)?;
            found = found.together(counts);
        }
        Ok(found)
    }

    // The start of a `for`, and then its names are in scope.
    #[tactic(auto, using(c_rules::proofs::Growing::same))]
    fn start(&self, scope: &mut Scopes, start: &Start) -> Result<Counts, OutOfMemory>
        ensures found { IfOk result (λ c. c ≡ walk.found_start (table_walk self.now.k self.now.items.now self.now.table.now) start.now scope.old) }
        ensures scope { OnOk result (scope.new ≡ walk.behind_start start.now scope.old) }
        ensures grown { OnOk result (Extends scope.old scope.new) }
    {
        match start {
            Start::Nothing => Ok(Counts::none()),
            Start::Expr(expr) => Ok(self.value(scope, expr)),
            Start::Declare(decl) => self.declare(scope, decl.word, decl.declarators.as_slice()),
        }
    }

    fn optional_test(&self, scope: &Scopes, expr: &Option<Expr>) -> Counts
        ensures { result ≡ walk.found_test (table_walk self.now.k self.now.items.now self.now.table.now) expr.now scope.now }
    {
        match expr {
            None => Counts::of_weight(1),
            Some(expr) => self.weighed(scope, expr),
        }
    }

    fn optional_value(&self, scope: &Scopes, expr: &Option<Expr>) -> Counts
        ensures { result ≡ walk.found_value (table_walk self.now.k self.now.items.now self.now.table.now) expr.now scope.now }
    {
        match expr {
            None => Counts::none(),
            Some(expr) => self.value(scope, expr),
        }
    }

    // A statement of a block.
    #[cycle(statement)]
    #[tactic(auto, using(c_rules::proofs::Growing::same))]
    fn statement(&self, scope: &mut Scopes, stmt: &Stmt) -> Result<Counts, OutOfMemory>
        ensures found { IfOk result (λ c. c ≡ (walk.walk (table_walk self.now.k self.now.items.now self.now.table.now) stmt.now).found scope.old) }
        ensures scope { OnOk result (scope.new ≡ (walk.walk (table_walk self.now.k self.now.items.now self.now.table.now) stmt.now).behind scope.old) }
        ensures grown { OnOk result (Extends scope.old scope.new) }
    {
        match stmt {
            Stmt::Empty { .. } => Ok(Counts::none()),
            Stmt::Expr { expr, .. } => Ok(self.value(scope, expr)),
            Stmt::Declare(decl) => self.declare(scope, decl.word, decl.declarators.as_slice()),
            Stmt::Block { body, .. } => self.block(scope, body.as_slice()),
            Stmt::Label { body, .. } => self.part(scope, body.get()),
            Stmt::If { test, yes, no, .. } => {
                let test = self.weighed(scope, test);
                let yes = self.part(scope, yes.get())?;
                let no = match no {
                    None => Counts::none(),
                    Some(no) => self.part(scope, no.get())?,
                };
                Ok(test.together(yes.together(no)))
            }
            Stmt::While { test, body, .. } => {
                let tests = self.tests(self.weighed(scope, test));
                let body = self.turn(scope, body.get())?;
                Ok(tests.together(self.turns(body)))
            }
            Stmt::DoWhile { body, test, .. } => {
                let test = self.weighed(scope, test);
                let body = self.turn(scope, body.get())?;
                Ok(self.turns(body.together(test)))
            }
            Stmt::For {
                start,
                test,
                step,
                body,
                ..
            } => {
                let outer = scope.enter();
                let start = self.start(scope, start)?;
                let tests = self.tests(self.optional_test(scope, test));
                let steps = self.turns(self.optional_value(scope, step));
                let body = self.turn(scope, body.get())?;
                scope.leave(outer);
                Ok(start.together(tests.together(steps.together(self.turns(body)))))
            }
            Stmt::Return { value, .. } => match value {
                None => Ok(Counts::none()),
                Some(value) => Ok(self.weighed(scope, value)),
            },
            Stmt::Break { .. } => Ok(Counts::none()),
            Stmt::Continue { .. } => Ok(Counts::none()),
        }
    }

    // A statement that is part of another one.
    #[cycle(statement)]
    #[tactic(auto, using(c_rules::proofs::Growing::left_part))]
    fn part(&self, scope: &mut Scopes, stmt: &Stmt) -> Result<Counts, OutOfMemory>
        ensures found { IfOk result (λ c. c ≡ (walk.walk (table_walk self.now.k self.now.items.now self.now.table.now) stmt.now).found scope.old) }
        ensures scope { OnOk result (scope.new ≡ scope.old) }
    {
        let outer = scope.outer();
        let found = self.statement(scope, stmt)?;
        scope.leave(outer);
        Ok(found)
    }

    // The statement of a loop's turns.
    #[cycle(statement)]
    #[tactic(auto, using(c_rules::proofs::Growing::left_loop))]
    fn turn(&self, scope: &mut Scopes, stmt: &Stmt) -> Result<Counts, OutOfMemory>
        ensures found { IfOk result (λ c. c ≡ (walk.walk (table_walk self.now.k self.now.items.now self.now.table.now) stmt.now).found (walk.loop_in scope.old)) }
        ensures scope { OnOk result (scope.new ≡ scope.old) }
    {
        let outer = scope.enter_loop();
        let found = self.statement(scope, stmt)?;
        scope.leave(outer);
        Ok(found)
    }

    // The statements of a block.
    #[cycle(statement)]
    #[tactic(auto, using(c_rules::proofs::Growing::left))]
    fn block(&self, scope: &mut Scopes, body: &[Stmt]) -> Result<Counts, OutOfMemory>
        ensures found { IfOk result (λ c. c ≡ walk.in_turn (table_walk self.now.k self.now.items.now self.now.table.now) (map (walk.walk (table_walk self.now.k self.now.items.now self.now.table.now)) body.now) (walk.enter scope.old)) }
        ensures scope { OnOk result (scope.new ≡ scope.old) }
    {
        let outer = scope.enter();
        let found = self.sequence(scope, body)?;
        scope.leave(outer);
        Ok(found)
    }

    // Statements in turn.
    #[cycle(statement)]
    #[tactic(auto, using(crate::proofs::Adding::none_in_turn, crate::proofs::Adding::next_sum, crate::proofs::Adding::next_whole, crate::proofs::Adding::none_none, c_rules::proofs::Growing::same, c_rules::proofs::Growing::further))]
    pub(crate) fn sequence(&self, scope: &mut Scopes, body: &[Stmt]) -> Result<Counts, OutOfMemory>
        ensures found { IfOk result (λ c. c ≡ walk.in_turn (table_walk self.now.k self.now.items.now self.now.table.now) (map (walk.walk (table_walk self.now.k self.now.items.now self.now.table.now)) body.now) scope.old) }
        ensures grown { OnOk result (Extends scope.old scope.new) }
    {
        let mut found = Counts::none();
        for stmt in body {
            let counts = self.statement(scope, stmt)?;
            found = found.together(counts);
        }
        Ok(found)
    }
}
