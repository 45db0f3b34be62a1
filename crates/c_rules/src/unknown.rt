// Names are known.
ghost use Rattle.std.specs.Prelude.{◌≡◌, map, false};
ghost use Rattle.std.specs.Str.{bytes_eq};
ghost use Rattle.c_rules.specs.Names as names;
ghost use Rattle.c_rules.specs.Scopes as scopes;

use crate::names::{builtin_named, function_named};
use crate::rules::{Pass, unless};
use crate::scope::Scopes;
use crate::stop::earlier;
use c_tree::{Expr, Initialiser};
use dg_base::Place;

/// Whether this is what a mutex may begin with.
pub(crate) fn is_mutex_start(name: &[u8]) -> bool
    ensures { result ≡ bytes_eq scopes.mutex_start name.now }
{
    b"PTHREAD_MUTEX_INITIALIZER".as_slice() == name
}

impl<'a> Pass<'a> {
    fn is_known(&self, scope: &Scopes, starts_mutex: bool, name: &[u8]) -> bool
        ensures { result ≡ scopes.is_known (names.functions_of self.now.items.now) scope.now starts_mutex name.now }
    {
        let is_variable = scope.variable(name).is_some();
        let is_function = function_named(self.items, name).is_some();
        let is_builtin = builtin_named(name).is_some();
        let is_start = starts_mutex && is_mutex_start(name);
        is_variable || (is_function || (is_builtin || is_start))
    }

    fn unknown_name(
        &self,
        scope: &Scopes,
        starts_mutex: bool,
        place: Place,
        name: &[u8],
    ) -> Option<Place>
        ensures { result ≡ scopes.unless (scopes.is_known (names.functions_of self.now.items.now) scope.now starts_mutex name.now) place }
    {
        unless(self.is_known(scope, starts_mutex, name), place)
    }

    /// The first name of an expression that is not known.
    #[cycle(unknown_in)]
    pub(crate) fn unknown_in(
        &self,
        scope: &Scopes,
        starts_mutex: bool,
        expr: &Expr,
    ) -> Option<Place>
        ensures { result ≡ scopes.unknown_in (scopes.is_known (names.functions_of self.now.items.now) scope.now starts_mutex) expr.now }
    {
        match expr {
            Expr::Name { place, name } => {
                self.unknown_name(scope, starts_mutex, *place, name.as_slice())
            }
            Expr::Number { .. } => None,
            Expr::Text { .. } => None,
            Expr::Index { place, name, index } => earlier(
                self.unknown_name(scope, starts_mutex, *place, name.as_slice()),
                self.unknown_in(scope, starts_mutex, index.get()),
            ),
            Expr::Call { place, name, args } => earlier(
                self.unknown_name(scope, starts_mutex, *place, name.as_slice()),
                self.unknown_in_all(scope, starts_mutex, args.as_slice()),
            ),
            Expr::Bracket { inner, .. }
            | Expr::Cast { inner, .. }
            | Expr::Unary { inner, .. }
            | Expr::StepBefore { target: inner, .. }
            | Expr::StepAfter { target: inner, .. }
            | Expr::Address { target: inner, .. } => {
                self.unknown_in(scope, starts_mutex, inner.get())
            }
            Expr::Binary { left, right, .. }
            | Expr::Comma { left, right, .. }
            | Expr::Assign {
                target: left,
                value: right,
                ..
            } => earlier(
                self.unknown_in(scope, starts_mutex, left.get()),
                self.unknown_in(scope, starts_mutex, right.get()),
            ),
            Expr::Choose { test, yes, no, .. } => earlier(
                self.unknown_in(scope, starts_mutex, test.get()),
                earlier(
                    self.unknown_in(scope, starts_mutex, yes.get()),
                    self.unknown_in(scope, starts_mutex, no.get()),
                ),
            ),
        }
    }

    #[cycle(unknown_in)]
    fn unknown_in_all(&self, scope: &Scopes, starts_mutex: bool, exprs: &[Expr]) -> Option<Place>
        ensures { result ≡ scopes.first_of (map (scopes.unknown_in (scopes.is_known (names.functions_of self.now.items.now) scope.now starts_mutex)) exprs.now) }
    {
        let mut found = None;
        for expr in exprs {
            found = earlier(found, self.unknown_in(scope, starts_mutex, expr));
        }
        found
    }

    /// The first name of an array's size that is not known.
    pub(crate) fn unknown_in_size(&self, scope: &Scopes, size: &Option<Expr>) -> Option<Place>
        ensures { result ≡ scopes.unknown_in_size (scopes.is_known (names.functions_of self.now.items.now) scope.now false) size.now }
    {
        match size {
            None => None,
            Some(expr) => self.unknown_in(scope, false, expr),
        }
    }

    /// The first name of an initialiser that is not known.
    pub(crate) fn unknown_in_start(
        &self,
        scope: &Scopes,
        starts_mutex: bool,
        start: &Option<Initialiser>,
    ) -> Option<Place>
        ensures { result ≡ scopes.unknown_in_start (scopes.is_known (names.functions_of self.now.items.now) scope.now starts_mutex) start.now }
    {
        match start {
            None => None,
            Some(Initialiser::One(value)) => self.unknown_in(scope, starts_mutex, value),
            Some(Initialiser::Braces(values)) => {
                self.unknown_in_all(scope, starts_mutex, values.as_slice())
            }
        }
    }
}
