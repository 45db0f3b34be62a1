// Programs and what stands at their top.
use crate::expr::TypeWord;
use crate::stmt::{Decl, Stmt};
use dg_base::{Bytes, List, Place};

/// A parameter of a function.
#[derive(Drop)]
pub struct Param {
    /// The name's place.
    pub place: Place,
    /// The type.
    pub word: TypeWord,
    /// The name.
    pub name: Bytes,
}

/// A function with a body. The function is a node with children, and so is its outermost block, which has no place of
/// its own here since no answer tells it.
#[derive(Drop)]
pub struct Function {
    /// The name's place.
    pub place: Place,
    /// The type of its value.
    pub word: TypeWord,
    /// The name.
    pub name: Bytes,
    /// The parameters, in order; none for `(void)` too.
    pub params: List<Param>,
    /// What stands in the outermost block, in order.
    pub body: List<Stmt>,
}

/// What stands at the top of a program. `static` is not kept.
#[derive(Drop)]
pub enum Item {
    /// A function with a body.
    Function(Function),
    /// A function's head without a body. Nothing above the parser reads it.
    Prototype {
        /// The name's place.
        place: Place,
        /// The type of its value.
        word: TypeWord,
        /// The name.
        name: Bytes,
    },
    /// Shared variables.
    Shared(Decl),
}

/// A program.
#[derive(Drop)]
pub struct Program {
    /// Its items, in order.
    pub items: List<Item>,
}
