//! The exact parser of programs. `parse` gives the one tree that reads a list of tokens, or refuses the list at the first
//! token behind the longest prefix with which some program begins.
//!
//! The grammar is a relation between lists of tokens and trees (`specs/Declarations`, `specs/Statements`,
//! `specs/Programs`, over the expressions of the layer below), with a number of nodes that may lie on one way down. The
//! parser is a machine (`specs/Machine`): the items that are whole, a stack of statements that are not, what is read last,
//! and one step for each token, or for an expression and the token behind it. Its invariant: what the tokens read so far
//! still want completes them to a program within the depth, and what completes them is what the state wants. So what was
//! read is always viable, and since a step never looks ahead, the run ends behind the longest viable prefix.
//!
//! Trees that wait are boxed, and what a refusal leaves over of a position or of a statement is let go by a call of `drop`:
//! a function at whose end a tree itself goes out of scope takes far longer to check, since the drop of each of the tree's
//! forms then stands in it.
//!
//! The layer above may use `parse` and its contract, the grammar, and the law that a list has at most one program.
#![tactic(auto)]

mod blocks;
mod declarations;
mod items;
mod laws;
mod parser;
mod state;
mod statements;

pub use laws::one_program;
pub use parser::parse;
