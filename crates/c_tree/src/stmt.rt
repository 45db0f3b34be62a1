// Statements and declarations.
ghost use Rattle.std.specs.Prelude.{◌≡◌};
ghost use Rattle.c_tree.specs.Level.{capped, initialiser_level, declarator_level, decl_level, option_level, start_level, stmt_level, deepest_stmt, deepest_declarator};

use crate::expr::{Expr, TypeWord, deepest};
use dg_base::{Bytes, List, Place};
use sqlite_items::Boxed;

/// What a declared variable begins with. The braces are no node.
#[derive(Drop)]
pub enum Initialiser {
    /// One value, without braces.
    One(Expr),
    /// The values between braces, in order.
    Braces(List<Expr>),
}

/// A declared variable: an array where it has a size. A declarator is a node with children.
#[derive(Drop)]
pub struct Declarator {
    /// The name's place.
    pub place: Place,
    /// The name.
    pub name: Bytes,
    /// The number of cells of an array.
    pub size: Option<Expr>,
    /// What it begins with.
    pub initialiser: Option<Initialiser>,
}

/// A type and its declarators. A declaration as such is no node, and has no place.
#[derive(Drop)]
pub struct Decl {
    /// The type of them all.
    pub word: TypeWord,
    /// The declarators, in order.
    pub declarators: List<Declarator>,
}

/// How a `for` begins.
#[derive(Drop)]
pub enum Start {
    /// With nothing.
    Nothing,
    /// With an expression.
    Expr(Expr),
    /// With a declaration.
    Declare(Decl),
}

/// A statement, or a declaration that stands directly in a block.
///
/// The place of a statement is that of its first token: of the label where it has one, and of a labelled loop the loop's
/// own. Each statement but `;` is a node with children.
#[derive(Drop)]
pub enum Stmt {
    /// `;`
    Empty {
        /// The place of the `;`.
        place: Place,
    },
    /// `expr;`
    Expr {
        /// The place of the expression's first token.
        place: Place,
        /// The expression.
        expr: Expr,
    },
    /// A declaration. The grammar has it only directly in a block.
    Declare(Decl),
    /// `{ body }`
    Block {
        /// The place of the `{`.
        place: Place,
        /// What stands in the block, in order.
        body: List<Stmt>,
    },
    /// `name: body`
    Label {
        /// The label's place.
        place: Place,
        /// The label.
        name: Bytes,
        /// The statement behind it.
        body: Boxed<Stmt>,
    },
    /// `if (test) yes else no`; an `else` belongs to the nearest `if`.
    If {
        /// The place of the `if`.
        place: Place,
        /// What is tested.
        test: Expr,
        /// The statement for a test that holds.
        yes: Boxed<Stmt>,
        /// The statement behind `else`, if there is one.
        no: Option<Boxed<Stmt>>,
    },
    /// `while (test) body`
    While {
        /// The place of the `while`.
        place: Place,
        /// What is tested before each turn.
        test: Expr,
        /// The statement of each turn.
        body: Boxed<Stmt>,
    },
    /// `do body while (test);`
    DoWhile {
        /// The place of the `do`.
        place: Place,
        /// The statement of each turn.
        body: Boxed<Stmt>,
        /// What is tested behind each turn.
        test: Expr,
    },
    /// `for (start test; step) body`
    For {
        /// The place of the `for`.
        place: Place,
        /// How it begins, with its `;`.
        start: Start,
        /// What is tested before each turn, if anything is.
        test: Option<Expr>,
        /// What is evaluated behind each turn, if anything is.
        step: Option<Expr>,
        /// The statement of each turn.
        body: Boxed<Stmt>,
    },
    /// `return value;`
    Return {
        /// The place of the `return`.
        place: Place,
        /// The value, if there is one.
        value: Option<Expr>,
    },
    /// `break;`
    Break {
        /// The place of the `break`.
        place: Place,
    },
    /// `continue;`
    Continue {
        /// The place of the `continue`.
        place: Place,
    },
}

// The level of an expression that may be absent.
fn level_of_option(expr: &Option<Expr>) -> u32
    ensures { result ≡ capped (option_level expr.now) }
{
    match expr {
        None => 0,
        Some(expr) => expr.level(),
    }
}

impl Initialiser {
    fn level(&self) -> u32
        ensures { result ≡ capped (initialiser_level self.now) }
    {
        match self {
            Initialiser::One(value) => value.level(),
            Initialiser::Braces(values) => deepest(values.as_slice()),
        }
    }
}

impl Declarator {
    fn level(&self) -> u32
        ensures { result ≡ capped (declarator_level self.now) }
    {
        let first = match &self.initialiser {
            None => 0,
            Some(initialiser) => initialiser.level(),
        };
        level_of_option(&self.size).max(first).saturating_add(1)
    }
}

impl Decl {
    fn level(&self) -> u32
        ensures { result ≡ capped (decl_level self.now) }
    {
        let mut most = 0;
        for declarator in self.declarators.as_slice() {
            most = most.max(declarator.level());
        }
        most
    }
}

impl Start {
    fn level(&self) -> u32
        ensures { result ≡ capped (start_level self.now) }
    {
        match self {
            Start::Nothing => 0,
            Start::Expr(expr) => expr.level(),
            Start::Declare(decl) => decl.level(),
        }
    }
}

impl Stmt {
    /// The number of nodes with children on the longest way down: 0 for `;`. A number above 4294967295 is given as that
    /// number.
    #[cycle(stmt_level)]
    pub fn level(&self) -> u32
        ensures { result ≡ capped (stmt_level self.now) }
    {
        match self {
            Stmt::Empty { .. } => 0,
            Stmt::Expr { expr, .. } => expr.level().saturating_add(1),
            Stmt::Declare(decl) => decl.level(),
            Stmt::Block { body, .. } => deepest_of(body.as_slice()).saturating_add(1),
            Stmt::Label { body, .. } => body.get().level().saturating_add(1),
            Stmt::If { test, yes, no, .. } => {
                let other = match no {
                    None => 0,
                    Some(no) => no.get().level(),
                };
                test.level()
                    .max(yes.get().level().max(other))
                    .saturating_add(1)
            }
            Stmt::While { test, body, .. } => {
                test.level().max(body.get().level()).saturating_add(1)
            }
            Stmt::DoWhile { body, test, .. } => {
                body.get().level().max(test.level()).saturating_add(1)
            }
            Stmt::For {
                start,
                test,
                step,
                body,
                ..
            } => {
                let header = level_of_option(test).max(level_of_option(step));
                start
                    .level()
                    .max(header.max(body.get().level()))
                    .saturating_add(1)
            }
            Stmt::Return { value, .. } => level_of_option(value).saturating_add(1),
            Stmt::Break { .. } => 1,
            Stmt::Continue { .. } => 1,
        }
    }
}

// The greatest level of these statements.
#[cycle(stmt_level)]
fn deepest_of(stmts: &[Stmt]) -> u32
    ensures { result ≡ capped (deepest_stmt stmts.now) }
{
    let mut most = 0;
    for stmt in stmts {
        most = most.max(stmt.level());
    }
    most
}
