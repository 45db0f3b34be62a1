// Types at declarations: sizes, initialisers, variables and parameters.
ghost use Rattle.std.specs.Prelude.{◌≡◌, map};
ghost use Rattle.c_rules.specs.Names as names;
ghost use Rattle.c_rules.specs.Scopes as scopes;
ghost use Rattle.c_rules.specs.Types as types;

use crate::builtin::Role;
use crate::pass::is_mutex;
use crate::rules::{Pass, unless};
use crate::scope::Scopes;
use crate::stop::earlier;
use crate::types::is_value_type;
use crate::unknown::is_mutex_start;
use c_tree::{
    Constant, Declarator, Expr, Initialiser, Param, TypeWord, constant_of, constant_value,
};
use dg_base::Place;

// Whether an expression is PTHREAD_MUTEX_INITIALIZER.
fn starts_mutex(expr: &Expr) -> bool
    ensures { result ≡ types.is_mutex_start expr.now }
{
    match expr {
        Expr::Name { name, .. } => is_mutex_start(name.as_slice()),
        _ => false,
    }
}

impl<'a> Pass<'a> {
    /// The first node of an array's size that breaks a rule.
    pub(crate) fn broken_size(&self, scope: &Scopes, size: &Option<Expr>) -> Option<Place>
        ensures { result ≡ types.broken_size (names.meaning_of (names.functions_of self.now.items.now) scope.now) size.now }
    {
        match size {
            None => None,
            Some(expr) => self.broken_in(scope, expr, Role::Value),
        }
    }

    // The first node of a value that a variable of this type begins with that breaks a rule.
    fn broken_value(&self, scope: &Scopes, word: TypeWord, value: &Expr) -> Option<Place>
        ensures { result ≡ types.broken_value (names.meaning_of (names.functions_of self.now.items.now) scope.now) word value.now }
    {
        let is_start = is_mutex(word) && starts_mutex(value);
        if is_start {
            None
        } else {
            self.broken_in(scope, value, Role::Value)
        }
    }

    fn broken_values(&self, scope: &Scopes, word: TypeWord, values: &[Expr]) -> Option<Place>
        ensures { result ≡ scopes.first_of (map (types.broken_value (names.meaning_of (names.functions_of self.now.items.now) scope.now) word) values.now) }
    {
        let mut found = None;
        for value in values {
            found = earlier(found, self.broken_value(scope, word, value));
        }
        found
    }

    /// The first node of an initialiser of a variable of this type that breaks a rule.
    pub(crate) fn broken_start(
        &self,
        scope: &Scopes,
        word: TypeWord,
        start: &Option<Initialiser>,
    ) -> Option<Place>
        ensures { result ≡ types.broken_start (names.meaning_of (names.functions_of self.now.items.now) scope.now) word start.now }
    {
        match start {
            None => None,
            Some(Initialiser::One(value)) => self.broken_value(scope, word, value),
            Some(Initialiser::Braces(values)) => self.broken_values(scope, word, values.as_slice()),
        }
    }
}

// Whether a variable may be of this type.
fn word_fits(top: bool, word: TypeWord) -> bool
    ensures { result ≡ types.word_fits top word }
{
    let is_value = is_value_type(word);
    let is_shared_mutex = is_mutex(word) && top;
    is_value || is_shared_mutex
}

// Whether a constant is positive, read as its type says.
fn is_positive(constant: Option<Constant>) -> bool
    ensures { result ≡ types.is_positive constant }
{
    match constant {
        None => false,
        Some(known) => known.value > 0 && (known.unsigned || known.value < 2147483648),
    }
}

fn size_fits(size: &Option<Expr>) -> bool
    ensures { result ≡ types.size_fits size.now }
{
    match size {
        None => true,
        Some(expr) => is_positive(constant_of(expr)),
    }
}

fn is_constant(constant: Option<Constant>) -> bool
    ensures { result ≡ types.is_constant constant }
{
    constant.is_some()
}

// Whether a variable of this type may begin with the value.
fn value_fits(top: bool, word: TypeWord, value: &Expr) -> bool
    ensures { result ≡ types.value_fits top word value.now }
{
    if is_mutex(word) {
        starts_mutex(value)
    } else {
        !top || is_constant(constant_of(value))
    }
}

fn values_fit(top: bool, word: TypeWord, values: &[Expr]) -> bool
    ensures { result ≡ types.values_fit top word values.now }
{
    for value in values {
        if !value_fits(top, word, value) {
            return false;
        }
    }
    true
}

// Whether an array of this size may begin with these values in braces.
fn braces_fit(top: bool, word: TypeWord, size: &Expr, values: &[Expr]) -> bool
    ensures { result ≡ types.braces_fit top word size.now values.now }
{
    let has_room = values.len() <= constant_value(size) as usize;
    let are_fit = values_fit(top, word, values);
    has_room && are_fit
}

fn start_fits(top: bool, word: TypeWord, size: &Option<Expr>, start: &Option<Initialiser>) -> bool
    ensures { result ≡ types.start_fits top word size.now start.now }
{
    match start {
        None => true,
        Some(Initialiser::One(value)) => match size {
            None => value_fits(top, word, value),
            Some(_) => false,
        },
        Some(Initialiser::Braces(values)) => match size {
            None => false,
            Some(size) => braces_fit(top, word, size, values.as_slice()),
        },
    }
}

/// Whether a variable, at the top of the program or not, may be of this type, size and initialiser.
pub(crate) fn declarator_fits(top: bool, word: TypeWord, declarator: &Declarator) -> bool
    ensures { result ≡ types.declarator_fits top word declarator.now }
{
    let word_fits = word_fits(top, word);
    let size_fits = size_fits(&declarator.size);
    let start_fits = start_fits(top, word, &declarator.size, &declarator.initialiser);
    word_fits && (size_fits && start_fits)
}

/// The first parameter whose type is none of values.
pub(crate) fn broken_param(params: &[Param]) -> Option<Place>
    ensures { result ≡ types.broken_param params.now }
{
    for param in params {
        if !is_value_type(param.word) {
            return Some(param.place);
        }
    }
    None
}
