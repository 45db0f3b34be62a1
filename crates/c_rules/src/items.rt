// A pass over the items of a program.
ghost use Rattle.std.specs.Prelude.{◌≡◌, ◌++◌, ◌↔◌, [], IsTrue, OnOk, MatchResult, None, not, codes};
ghost use Rattle.std.specs.Prelude.{◌∷◌};
ghost use Rattle.c_tree.specs.declared.program.Item.TheVariants as item_form;
ghost use Rattle.c_rules.specs.Scopes as scopes;
ghost use Rattle.c_rules.specs.Walk as walk;
ghost use Rattle.c_rules.specs.Naming.{HasMain, IsNamed, IsNameRefusal};
ghost use Rattle.c_rules.specs.Typing.{IsTyped, IsTypeRefusal};
ghost use Rattle.c_rules.specs.Passes.{Gives, Extends, rules_of, pass_walk};

use crate::declared::broken_param;
use crate::names::{builtin_named, function_named, may_be_defined};
use crate::rules::{Pass, Rule, fail_at, unless};
use crate::scope::Scopes;
use crate::stop::{Stop, earlier};
use c_tree::{Function, Item, Param, Program};
use dg_base::{Place, Refusal};
use std::alloc::Global;

fn is_param(params: &[Param], name: &[u8]) -> bool
    ensures { result ≡ scopes.is_param params.now name.now }
{
    for param in params {
        if param.name.as_slice() == name {
            return true;
        }
    }
    false
}

// The first parameter that has the name of one before it.
fn repeated_param(params: &[Param]) -> Option<Place>
    ensures { result ≡ scopes.repeated_param [] params.now }
{
    for (i, param) in params.iter().enumerate() {
        if is_param(&params[..i], param.name.as_slice()) {
            return Some(param.place);
        }
    }
    None
}

impl<'a> Pass<'a> {
    fn may_name_function(&self, scope: &Scopes, name: &[u8]) -> bool
        ensures { result ≡ scopes.may_name_function scope.now name.now }
    {
        let is_declared = scope.declares(name);
        let is_builtin = builtin_named(name).is_some();
        let may_be = may_be_defined(name);
        !is_declared && (!is_builtin || may_be)
    }

    // What is broken at a function's name and parameters.
    fn head(&self, scope: &Scopes, function: &Function) -> Option<Place>
        ensures { result ≡ (rules_of self.now.rule self.now.items.now).head scope.now function.now }
    {
        match self.rule {
            Rule::Redeclared => earlier(
                unless(
                    self.may_name_function(scope, function.name.as_slice()),
                    function.place,
                ),
                repeated_param(function.params.as_slice()),
            ),
            Rule::Undeclared => None,
            Rule::Types => broken_param(function.params.as_slice()),
        }
    }

    // Declares a parameter.
    #[tactic(auto, using(crate::proofs::Growing::one_more))]
    fn parameter(&self, scope: &mut Scopes, param: &Param) -> Result<(), Stop>
        ensures none { Gives result None }
        ensures scope { OnOk result (scope.new ≡ record scope.old { entries = scope.old.entries ++ (walk.param_entries (param.now ∷ [])) }) }
        ensures grown { OnOk result (Extends scope.old scope.new) }
    {
        Ok(scope.declare_parameter(self.alloc, param)?)
    }

    // Declares a function's parameters.
    #[tactic(auto, using(crate::proofs::Growing::same, crate::proofs::Growing::further))]
    fn parameters(&self, scope: &mut Scopes, params: &[Param]) -> Result<(), Stop>
        ensures none { Gives result None }
        ensures scope { OnOk result (scope.new ≡ record scope.old { entries = scope.old.entries ++ walk.param_entries params.now }) }
        ensures grown { OnOk result (Extends scope.old scope.new) }
    {
        for param in params {
            self.parameter(scope, param)?;
        }
        Ok(())
    }

    // A function with its body.
    #[tactic(auto, using(crate::proofs::Passing::passes, crate::proofs::Passing::goes_on, crate::proofs::Passing::none_in, crate::proofs::Growing::further, crate::proofs::Growing::left_function))]
    fn function(&self, scope: &mut Scopes, function: &Function) -> Result<(), Stop>
        ensures found { Gives result (walk.walk_item (pass_walk self.now.rule self.now.items.now) (item_form.Function function.now) scope.old) }
        ensures scope { OnOk result (scope.new ≡ scope.old) }
    {
        fail_at(self.head(scope, function))?;
        self.body(scope, function)
    }

    #[tactic(auto, using(crate::proofs::Growing::further, crate::proofs::Growing::left_function))]
    fn body(&self, scope: &mut Scopes, function: &Function) -> Result<(), Stop>
        ensures found { Gives result (walk.walk_body (pass_walk self.now.rule self.now.items.now) scope.old.entries function.now) }
        ensures scope { OnOk result (scope.new ≡ scope.old) }
    {
        let outer = scope.enter_function(function.word);
        self.parameters(scope, function.params.as_slice())?;
        self.sequence(scope, function.body.as_slice())?;
        scope.leave(outer);
        Ok(())
    }

    fn declare_function(&self, scope: &mut Scopes, function: &Function) -> Result<(), Stop>
        ensures none { Gives result None }
        ensures scope { OnOk result (scope.new ≡ walk.declare_function function.now scope.old) }
    {
        Ok(scope.declare_function(self.alloc, function)?)
    }

    #[tactic(auto, using(crate::proofs::Passing::passes, crate::proofs::Passing::goes_on, crate::proofs::Passing::none_in))]
    fn item(&self, scope: &mut Scopes, item: &Item) -> Result<(), Stop>
        ensures found { Gives result (walk.walk_item (pass_walk self.now.rule self.now.items.now) item.now scope.old) }
        ensures scope { OnOk result (scope.new ≡ walk.behind_item item.now scope.old) }
    {
        match item {
            Item::Function(function) => {
                self.function(scope, function)?;
                self.declare_function(scope, function)
            }
            Item::Prototype { .. } => Ok(()),
            Item::Shared(decl) => self.declare(scope, decl.word, decl.declarators.as_slice()),
        }
    }

    #[tactic(auto, using(crate::proofs::Passing::passes, crate::proofs::Passing::goes_on, crate::proofs::Passing::none_in))]
    fn items(&self, scope: &mut Scopes) -> Result<(), Stop>
        ensures { Gives result (walk.walk_items (pass_walk self.now.rule self.now.items.now) self.now.items.now scope.old) }
    {
        for item in self.items {
            self.item(scope, item)?;
        }
        Ok(())
    }
}

// A pass over a program: what is broken first.
fn pass(alloc: Global, rule: Rule, program: &Program) -> Result<(), Stop>
    ensures { Gives result (walk.walk_program (pass_walk rule program.now.items) program.now) }
{
    let pass = Pass {
        alloc,
        rule,
        items: program.items.as_slice(),
    };
    let mut scope = Scopes::new(alloc);
    pass.items(&mut scope)
}

fn has_main(program: &Program) -> bool
    ensures { IsTrue result ↔ HasMain program.now }
{
    function_named(program.items.as_slice(), b"main".as_slice()).is_some()
}

/// Checks the names of a program: there is a function `main` with a body, each name is declared once in its scope, and each
/// name that is used is known. The first of these that is broken is the refusal.
pub fn check_names(alloc: Global, program: &Program) -> Result<(), Refusal>
    ensures { MatchResult result (λ r. IsNamed program.now) (λ e. IsNameRefusal program.now e) }
{
    if !has_main(program) {
        return Err(Refusal::NoMain);
    }
    match pass(alloc, Rule::Redeclared, program) {
        Ok(()) => {}
        Err(Stop::Broken(place)) => return Err(Refusal::Duplicate(place)),
        Err(Stop::OutOfMemory) => return Err(Refusal::OutOfMemory),
    }
    match pass(alloc, Rule::Undeclared, program) {
        Ok(()) => Ok(()),
        Err(Stop::Broken(place)) => Err(Refusal::Unknown(place)),
        Err(Stop::OutOfMemory) => Err(Refusal::OutOfMemory),
    }
}

/// Checks the types of a program, and that expressions, `return`, `break` and `continue` stand where they may. The refusal is
/// the first place, children before parents and left to right, where one of these rules is broken.
///
/// It speaks of programs whose names `check_names` has accepted: where a name stands for nothing, its place is refused too.
pub fn check_types(alloc: Global, program: &Program) -> Result<(), Refusal>
    ensures { MatchResult result (λ r. IsTyped program.now) (λ e. IsTypeRefusal program.now e) }
{
    match pass(alloc, Rule::Types, program) {
        Ok(()) => Ok(()),
        Err(Stop::Broken(place)) => Err(Refusal::BadType(place)),
        Err(Stop::OutOfMemory) => Err(Refusal::OutOfMemory),
    }
}
