//! The syntax tree of the C subset: one type each for programs, functions, declarations, statements and expressions, with
//! one variant for each form of the grammar. A tree keeps what the layers above ask of a text and nothing else: each node
//! has the place that an answer may tell, numbers have their value and type, and brackets are nodes of their own.
//!
//! The model is the tree itself: contracts see the values of these types, a `Boxed` part as the part and a `List` as the
//! list of its items. `level` counts the nodes with children on the longest way down; the parser keeps it at 200, so that
//! every recursion on a tree is short. Beside the types stand what all layers above speak of: the level (`specs/Level`), what
//! an operator means for operands of given types (`specs/Operators`), and the constant that an expression is
//! (`specs/Constants`). The layers above build trees freely; that a tree is one of some text is the parser's
//! promise, and not an invariant of these types.
#![tactic(auto)]

mod constants;
mod expr;
mod operators;
mod program;
mod stmt;

pub use constants::{Constant, constant_of, constant_value};
pub use expr::{AssignOp, BinaryOp, Expr, StepOp, TypeWord, UnaryOp};
pub use operators::{binary_op, binary_unsigned, divides};
pub use program::{Function, Item, Param, Program};
pub use stmt::{Decl, Declarator, Initialiser, Start, Stmt};
