// What the parser keeps: the items that are whole, the statements that are not, and what it reads. Parts that are trees are
// boxed, so that a step moves and lets go of no more than a pointer.

use c_expr::ExprForm;
use c_tree::{Decl, Declarator, Expr, Function, Item, Param, Start, Stmt, TypeWord};
use dg_base::{Bytes, List, Place};
use sqlite_items::Boxed;

/// A statement whose last part is still to be read, with the parts that are read.
#[derive(Drop)]
pub enum Frame {
    /// A function's outermost block, with the statements so far.
    InFunction(Function),
    /// Behind `{` and these statements.
    InBlock(Place, List<Stmt>),
    /// Behind a label and `:`.
    AfterLabel(Place, Bytes),
    /// Behind `if` and its test.
    AfterIf(Place, Boxed<Expr>),
    /// Behind `else`, with the test and the first branch.
    AfterElse(Place, Boxed<Expr>, Boxed<Stmt>),
    /// Behind `while` and its test.
    AfterWhile(Place, Boxed<Expr>),
    /// Behind `do`.
    AfterDo(Place),
    /// Behind a `for` and its header.
    AfterFor(Place, Boxed<Start>, Option<Boxed<Expr>>, Option<Boxed<Expr>>),
}

/// Where a declaration stands.
#[derive(Clone, Copy, Drop)]
pub enum Site {
    /// Between items.
    Item,
    /// Directly in a block.
    Block,
    /// In the header of the `for` at this place.
    For(Place),
}

/// What a test belongs to.
#[derive(Drop)]
pub enum Tested {
    /// The `if` at this place.
    If(Place),
    /// The `while` at this place.
    While(Place),
    /// The `do` at this place, with its statement.
    Do(Place, Boxed<Stmt>),
}

/// A function's type and name, with the name's place.
#[derive(Drop)]
pub struct Head {
    /// The name's place.
    pub place: Place,
    /// The type of its value.
    pub word: TypeWord,
    /// The name.
    pub name: Bytes,
}

/// What the tokens behind a function's `(` are as parameters.
#[derive(Drop)]
pub enum Params {
    /// There is none so far.
    Nothing,
    /// These, and words of a type; whether one word more may belong to it.
    Typed(List<Param>, TypeWord, bool),
    /// These, whole.
    Whole(List<Param>),
    /// These and a comma.
    Next(List<Param>),
    /// They are no parameters.
    Never,
}

/// What is read last, or is to come.
#[derive(Drop)]
pub enum Position {
    /// Between items.
    Top,
    /// Behind `static`.
    Static,
    /// Words of a type; whether one word more may belong to it.
    Typed(Site, TypeWord, bool),
    /// Behind a type and the first name.
    First(Site, TypeWord, Place, Bytes),
    /// Behind a comma between declarators.
    Next(Site, Decl),
    /// Behind a declarator's name.
    Named(Site, Decl, Place, Bytes),
    /// Behind the `[` of an array's size.
    Size(Site, Decl, Place, Bytes),
    /// Behind the `]` of an array's size.
    Sized(Site, Decl, Boxed<Declarator>),
    /// Behind the `=` of an initialiser.
    Value(Site, Decl, Boxed<Declarator>),
    /// Between an initialiser's braces, behind these values.
    Values(Site, Decl, Boxed<Declarator>, List<Expr>),
    /// Behind a declarator that is whole.
    Valued(Site, Decl, Boxed<Declarator>),
    /// Behind a function's `(`, with as many brackets open inside.
    Heading(Head, u64, Params),
    /// Behind a function's `)`, with the parameters, if that is what its brackets hold.
    Headed(Head, Option<List<Param>>),
    /// A statement is to come, or what else the block may go on with.
    Begin,
    /// A whole statement.
    Whole(Boxed<Stmt>),
    /// Before the `(` of a test.
    BeforeTest(Tested),
    /// Behind the `(` of a test.
    Test(Tested),
    /// Before the `;` of this statement.
    Semicolon(Boxed<Stmt>),
    /// Behind the `for` at this place.
    BeforeStart(Place),
    /// Behind the `(` of a `for`.
    ForStart(Place),
    /// Behind the first part of a `for`.
    ForTest(Place, Boxed<Start>),
    /// Behind the second `;` of a `for`.
    ForStep(Place, Boxed<Start>, Option<Boxed<Expr>>),
    /// Behind the `return` at this place.
    Return(Place),
}

/// All that is read so far but the position.
#[derive(Drop)]
pub struct Read {
    /// The items that are whole.
    pub items: List<Item>,
    /// The statements that are not whole yet, the innermost last.
    pub stack: List<Frame>,
}

/// What a token leads to.
#[derive(Drop)]
pub enum Stepped {
    /// The token is read.
    Go(Position),
    /// An expression of the form begins with the token, below this number of nodes.
    Ask(Position, ExprForm, u32),
    /// The token is refused.
    Stop,
}
