// The rules that passes look after.
ghost use Rattle.std.specs.Prelude.{◌≡◌, [], not};
ghost use Rattle.c_rules.specs.Names as names;
ghost use Rattle.c_rules.specs.Scopes as scopes;
ghost use Rattle.c_rules.specs.Walk as walk;
ghost use Rattle.c_rules.specs.Passes.{Gives, rules_of};

use crate::builtin::Role;
use crate::scope::Scopes;
use crate::stop::{Stop, earlier};
use crate::types::is_void;
use c_tree::{Expr, Item};
use dg_base::Place;
use std::alloc::Global;

/// A rule that one pass over a program looks after.
#[derive(Clone, Copy, Drop)]
pub enum Rule {
    /// Names are declared once in each scope.
    Redeclared,
    /// Names are known.
    Undeclared,
    /// Types fit, and things stand where they may.
    Types,
}

/// A pass over a program with these items.
#[derive(Clone, Copy, Drop)]
pub(crate) struct Pass<'a> {
    pub alloc: Global,
    pub rule: Rule,
    pub items: &'a [Item],
}

/// What the pass answers where this is broken.
pub(crate) fn fail_at(found: Option<Place>) -> Result<(), Stop>
    ensures { Gives result found }
{
    match found {
        None => Ok(()),
        Some(place) => Err(Stop::Broken(place)),
    }
}

/// Broken here, unless the test holds.
pub fn unless(holds: bool, place: Place) -> Option<Place>
    ensures { result ≡ scopes.unless holds place }
{
    (!holds).then_some(place)
}

impl<'a> Pass<'a> {
    /// What is broken at an expression that is a statement.
    pub fn effect(&self, scope: &Scopes, expr: &Expr) -> Option<Place>
        ensures { result ≡ (rules_of self.now.rule self.now.items.now).effect scope.now expr.now }
    {
        match self.rule {
            Rule::Redeclared => None,
            Rule::Undeclared => self.unknown_in(scope, false, expr),
            Rule::Types => self.broken_in(scope, expr, Role::Statement),
        }
    }

    /// What is broken at an expression whose value is used.
    pub fn value(&self, scope: &Scopes, expr: &Expr) -> Option<Place>
        ensures { result ≡ (rules_of self.now.rule self.now.items.now).value scope.now expr.now }
    {
        match self.rule {
            Rule::Redeclared => None,
            Rule::Undeclared => self.unknown_in(scope, false, expr),
            Rule::Types => self.broken_in(scope, expr, Role::Value),
        }
    }

    /// What is broken at a returned value.
    pub fn returned(&self, scope: &Scopes, place: Place, expr: &Expr) -> Option<Place>
        ensures { result ≡ (rules_of self.now.rule self.now.items.now).returned scope.now place expr.now }
    {
        match self.rule {
            Rule::Redeclared => None,
            Rule::Undeclared => self.unknown_in(scope, false, expr),
            Rule::Types => earlier(
                self.broken_in(scope, expr, Role::Value),
                unless(!is_void(scope.function()), place),
            ),
        }
    }

    /// What is broken at a `break` or `continue`.
    pub fn jump(&self, scope: &Scopes, place: Place) -> Option<Place>
        ensures { result ≡ (rules_of self.now.rule self.now.items.now).jump scope.now place }
    {
        match self.rule {
            Rule::Redeclared => None,
            Rule::Undeclared => None,
            Rule::Types => unless(scope.is_in_loop(), place),
        }
    }
}
