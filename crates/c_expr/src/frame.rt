// What the parser keeps: the nodes that are not whole yet, and what it read last. The trees are boxed as soon as they are
// whole: so the node above takes them as they are.

use c_tree::{AssignOp, BinaryOp, Expr, StepOp, TypeWord, UnaryOp};
use dg_base::{Bytes, List, Place};
use sqlite_items::Boxed;

/// A node whose last part is still to be read, with the parts that are read.
#[derive(Drop)]
pub enum Frame {
    /// Behind `(`, before an expression.
    InBracket(Place),
    /// Behind `(`, before what can be assigned to.
    InTarget(Place),
    /// Behind a name and `[`.
    InIndex(Place, Bytes),
    /// Behind a name, `(` and these arguments, each with its comma.
    InCall(Place, Bytes, List<Expr>),
    /// Behind `&`, at the begin of an argument.
    AfterAddress(Place),
    /// Behind `(`, a type and `)`.
    AfterCast(Place, TypeWord),
    /// Behind a sign.
    AfterSign(Place, UnaryOp),
    /// Behind `++` or `--`.
    AfterStep(Place, StepOp),
    /// Behind the left operand and its operator.
    AfterOperator(Place, BinaryOp, Boxed<Expr>),
    /// Behind a test and `?`.
    AfterTest(Place, Boxed<Expr>),
    /// Behind a test, `?`, the first choice and `:`.
    AfterChoice(Place, Boxed<Expr>, Boxed<Expr>),
    /// Behind what is assigned to and the operator.
    AfterAssign(Place, AssignOp, Boxed<Expr>),
    /// Behind an expression and a comma.
    AfterComma(Place, Boxed<Expr>),
}

/// What was read last.
#[derive(Drop)]
pub enum Reading {
    /// Nothing of an operand, which is to come.
    Operand,
    /// A name.
    Name(Place, Bytes),
    /// A whole operand.
    Read(Boxed<Expr>),
    /// An argument's texts, from this place on.
    Texts(Place),
    /// The `(` of a cast at this place, and words of a type; whether one word more may belong to it.
    Type(Place, TypeWord, bool),
}

/// What a token leads to: the parser goes on, or stops before it with the tree of a whole text, or with none.
#[derive(Drop)]
pub enum Stepped {
    /// It goes on.
    Go(Reading),
    /// It stops.
    Stop(Option<Boxed<Expr>>),
}

/// A node that begins behind its first part.
#[derive(Clone, Copy, Drop)]
pub enum Opening {
    /// An operator between operands.
    Operator(BinaryOp),
    /// A choice.
    Test,
    /// An assignment.
    Assign(AssignOp),
    /// A comma.
    Comma,
}
