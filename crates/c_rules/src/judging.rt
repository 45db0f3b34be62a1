// The first node of an expression that breaks a rule on types or on where something stands.
ghost use Rattle.std.specs.Prelude.{◌≡◌, map};
ghost use Rattle.c_rules.specs.Names as names;
ghost use Rattle.c_rules.specs.Types as types;

use crate::builtin::Role;
use crate::names::Meaning;
use crate::roles::{behind_address, inside_brackets, is_text_role, right_of_comma, role_in};
use crate::rules::{Pass, unless};
use crate::scope::{Scopes, meaning_of};
use crate::stop::earlier;
use crate::types::{cast_fits, index_fits, name_fits};
use c_tree::Expr;
use dg_base::Place;

impl<'a> Pass<'a> {
    /// The first node of an expression in this role that breaks a rule.
    #[cycle(broken_in)]
    pub(crate) fn broken_in(&self, scope: &Scopes, expr: &Expr, role: Role) -> Option<Place>
        ensures { result ≡ types.broken_in (names.meaning_of (names.functions_of self.now.items.now) scope.now) expr.now role }
    {
        match expr {
            Expr::Name { place, name } => {
                let meaning = meaning_of(self.items, scope, name.as_slice());
                unless(name_fits(role, meaning), *place)
            }
            Expr::Number { .. } => None,
            Expr::Text { place } => unless(is_text_role(role), *place),
            Expr::Bracket { inner, .. } => {
                self.broken_in(scope, inner.get(), inside_brackets(role))
            }
            Expr::Index { place, name, index } => {
                let meaning = meaning_of(self.items, scope, name.as_slice());
                earlier(
                    self.broken_in(scope, index.get(), Role::Value),
                    unless(index_fits(role, meaning), *place),
                )
            }
            Expr::Call { place, name, args } => {
                let meaning = meaning_of(self.items, scope, name.as_slice());
                let before = self.broken_arguments(scope, meaning, args.as_slice());
                let fits = self.call_fits(scope, role, meaning, args.as_slice());
                earlier(before, unless(fits, *place))
            }
            Expr::Cast { place, word, inner } => earlier(
                self.broken_in(scope, inner.get(), Role::Value),
                unless(cast_fits(role, *word), *place),
            ),
            Expr::Unary { inner, .. }
            | Expr::StepBefore { target: inner, .. }
            | Expr::StepAfter { target: inner, .. } => {
                self.broken_in(scope, inner.get(), Role::Value)
            }
            Expr::Binary { left, right, .. }
            | Expr::Assign {
                target: left,
                value: right,
                ..
            } => earlier(
                self.broken_in(scope, left.get(), Role::Value),
                self.broken_in(scope, right.get(), Role::Value),
            ),
            Expr::Choose { test, yes, no, .. } => earlier(
                self.broken_in(scope, test.get(), Role::Value),
                earlier(
                    self.broken_in(scope, yes.get(), Role::Value),
                    self.broken_in(scope, no.get(), Role::Value),
                ),
            ),
            Expr::Comma { left, right, .. } => earlier(
                self.broken_in(scope, left.get(), Role::LeftOfComma),
                self.broken_in(scope, right.get(), right_of_comma(role)),
            ),
            Expr::Address { place, target } => earlier(
                self.broken_in(scope, target.get(), behind_address(role)),
                unless(self.address_fits(scope, role, target.get()), *place),
            ),
        }
    }

    // The first node of a call's arguments, each in its role, that breaks a rule.
    #[cycle(broken_in)]
    fn broken_arguments(&self, scope: &Scopes, meaning: Meaning, args: &[Expr]) -> Option<Place>
        ensures { result ≡ types.broken_arguments (types.roles_in meaning) 0 (map (types.judged (names.meaning_of (names.functions_of self.now.items.now) scope.now)) args.now) }
    {
        let mut found = None;
        for (i, arg) in args.iter().enumerate() {
            found = earlier(found, self.broken_in(scope, arg, role_in(meaning, i)));
        }
        found
    }
}
