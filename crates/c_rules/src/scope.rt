// The scope that a pass stands in.
ghost use Rattle.std.specs.Prelude.{◌≡◌, ◌≤◌, ◌++◌, ◌∷◌, [], take, length, OnOk, OnErr};
ghost use Rattle.c_rules.specs.Names as names;
ghost use Rattle.c_rules.specs.Walk.{top_scope, enter, loop_in, declare, param_entries, declare_function};
ghost use Rattle.c_rules.specs.Passes.{outside, entry_of, body_scope};

use crate::names::{Entry, Meaning, Variable, builtin_named, function_named};
use c_tree::{Declarator, Function, Item, Param, TypeWord, constant_value};
use dg_base::Bytes;
use std::alloc::{AllocError, Global};
use std::marker::Model;

/// The names that have been declared where a pass stands.
#[derive(Drop)]
pub struct Scopes {
    entries: Vec<Entry>,
    start: usize,
    top: bool,
    in_loop: bool,
    function: TypeWord,
}

impl Model for Scopes {
    ghost use Rattle.std.specs.Prelude.{length, ◌≤◌};
    ghost use Rattle.c_rules.specs.Names.{Scope};

    ghost Value = { Scope };

    ghost view = { λ s. record { entries = s.entries.items; start = s.start; top = s.top; in_loop = s.in_loop; function = s.function } };

    ghost invariant = { λ s. s.start ≤ length s.entries.items };
}

/// What a scope was before an inner one was entered.
#[derive(Clone, Copy, Drop)]
pub struct Outer {
    /// How many names were declared.
    pub count: usize,
    /// How many of them the scopes around it had declared.
    pub start: usize,
    /// Whether it was the top of the program.
    pub top: bool,
    /// Whether a loop was around.
    pub in_loop: bool,
    /// The type of the function around.
    pub function: TypeWord,
}

impl Scopes {
    /// The top of a program.
    pub fn new(alloc: Global) -> Scopes
        ensures { result ≡ top_scope }
    {
        Scopes {
            entries: Vec::new(alloc),
            start: 0,
            top: true,
            in_loop: false,
            function: TypeWord::Int,
        }
    }

    /// Whether the scope itself has declared the name.
    pub fn declares(&self, name: &[u8]) -> bool
        ensures { result ≡ names.is_declared (names.own_entries self.now) name.now }
    {
        is_declared(&self.entries[self.start..], name)
    }

    /// The innermost variable of this name.
    pub fn variable(&self, name: &[u8]) -> Option<Variable>
        ensures { result ≡ names.variable_named self.now name.now }
    {
        variable_in(self.entries.as_slice(), name)
    }

    /// Declares a variable behind its name and size; without memory the scope stays as it was.
    pub fn declare_variable(
        &mut self,
        alloc: Global,
        word: TypeWord,
        declarator: &Declarator,
    ) -> Result<(), AllocError>
        ensures declared { OnOk result (self.new ≡ declare word declarator.now self.old) }
        ensures refused { OnErr result (self.new ≡ self.old) }
    {
        let cells = match &declarator.size {
            None => None,
            Some(size) => Some(constant_value(size)),
        };
        let variable = Variable {
            word,
            cells,
            shared: self.top,
        };
        self.push(alloc, declarator.name.as_slice(), Some(variable))
    }

    /// Declares a parameter; without memory the scope stays as it was.
    pub fn declare_parameter(&mut self, alloc: Global, param: &Param) -> Result<(), AllocError>
        ensures declared { OnOk result (self.new ≡ record self.old { entries = self.old.entries ++ param_entries (param.now ∷ []) }) }
        ensures refused { OnErr result (self.new ≡ self.old) }
    {
        let variable = Variable {
            word: param.word,
            cells: None,
            shared: false,
        };
        self.push(alloc, param.name.as_slice(), Some(variable))
    }

    /// Declares a function's name, which counts as declared and is looked past; without memory the scope stays as it was.
    pub fn declare_function(&mut self, alloc: Global, function: &Function) -> Result<(), AllocError>
        ensures declared { OnOk result (self.new ≡ declare_function function.now self.old) }
        ensures refused { OnErr result (self.new ≡ self.old) }
    {
        self.push(alloc, function.name.as_slice(), None)
    }

    fn push(
        &mut self,
        alloc: Global,
        name: &[u8],
        variable: Option<Variable>,
    ) -> Result<(), AllocError>
        ensures declared { OnOk result (self.new ≡ record self.old { entries = self.old.entries ++ entry_of name.now variable ∷ [] }) }
        ensures refused { OnErr result (self.new ≡ self.old) }
    {
        let entry = Entry {
            name: Bytes::from_slice(alloc, name)?,
            variable,
        };
        self.entries.push(entry)?;
        Ok(())
    }

    /// Whether it is the top of the program.
    pub fn is_top(&self) -> bool
        ensures { result ≡ self.now.top }
    {
        self.top
    }

    /// Whether a loop is around.
    pub fn is_in_loop(&self) -> bool
        ensures { result ≡ self.now.in_loop }
    {
        self.in_loop
    }

    /// The type of the function around.
    pub fn function(&self) -> TypeWord
        ensures { result ≡ self.now.function }
    {
        self.function
    }

    /// Enters a new scope; `leave` takes back what it gives.
    pub fn enter(&mut self) -> Outer
        ensures entered { self.new ≡ enter self.old }
        ensures outer { result ≡ outside self.old }
        ensures inside { result.start ≤ result.count }
        ensures whole { result.count ≡ length self.new.entries }
    {
        let outer = self.outer();
        self.start = self.entries.len();
        self.top = false;
        outer
    }

    /// Enters the outermost scope of a function of this type.
    pub fn enter_function(&mut self, word: TypeWord) -> Outer
        ensures entered { self.new ≡ body_scope word self.old }
        ensures outer { result ≡ outside self.old }
        ensures inside { result.start ≤ result.count }
        ensures whole { result.count ≡ length self.new.entries }
    {
        let outer = self.outer();
        self.start = self.entries.len();
        self.top = false;
        self.in_loop = false;
        self.function = word;
        outer
    }

    /// What `leave` takes back, with no new scope.
    pub fn outer(&self) -> Outer
        ensures kept { result ≡ outside self.now }
        ensures inside { result.start ≤ result.count }
        ensures whole { result.count ≡ length self.now.entries }
    {
        Outer {
            count: self.entries.len(),
            start: self.start,
            top: self.top,
            in_loop: self.in_loop,
            function: self.function,
        }
    }

    /// Enters the body of a loop.
    pub fn enter_loop(&mut self) -> Outer
        ensures entered { self.new ≡ loop_in self.old }
        ensures outer { result ≡ outside self.old }
        ensures inside { result.start ≤ result.count }
        ensures whole { result.count ≡ length self.new.entries }
    {
        let outer = self.outer();
        self.in_loop = true;
        outer
    }

    /// Leaves a scope that `enter` entered.
    pub fn leave(&mut self, outer: Outer)
        requires inside { outer.start ≤ outer.count }
        requires whole { outer.count ≤ length self.old.entries }
        ensures { self.new ≡ record { entries = take outer.count self.old.entries; start = outer.start; top = outer.top; in_loop = outer.in_loop; function = outer.function } }
    {
        self.entries.truncate(outer.count);
        self.start = outer.start;
        self.top = outer.top;
        self.in_loop = outer.in_loop;
        self.function = outer.function;
    }
}

/// What a name stands for where it is used: the innermost variable in scope, else the function with a body, else the built-in
/// call. `items` are those of the program.
pub fn meaning_of(items: &[Item], scope: &Scopes, name: &[u8]) -> Meaning
    ensures { result ≡ names.meaning_of (names.functions_of items.now) scope.now name.now }
{
    match scope.variable(name) {
        Some(variable) => Meaning::Variable(variable),
        None => match function_named(items, name) {
            Some(function) => Meaning::Function(function.word, function.params.len()),
            None => match builtin_named(name) {
                Some(builtin) => Meaning::Builtin(builtin),
                None => Meaning::Nothing,
            },
        },
    }
}

fn is_declared(entries: &[Entry], name: &[u8]) -> bool
    ensures { result ≡ names.is_declared entries.now name.now }
{
    for entry in entries {
        if entry.name.as_slice() == name {
            return true;
        }
    }
    false
}

fn variable_in(entries: &[Entry], name: &[u8]) -> Option<Variable>
    ensures { result ≡ names.variable_in entries.now name.now }
{
    let mut found = None;
    for entry in entries {
        if entry.name.as_slice() == name {
            found = latest(found, entry.variable);
        }
    }
    found
}

// The later of two variables.
fn latest(first: Option<Variable>, second: Option<Variable>) -> Option<Variable>
    ensures { result ≡ names.or_else second first }
{
    second.or(first)
}
