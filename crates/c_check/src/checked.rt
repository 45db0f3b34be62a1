// Programs that have been checked.
use c_tree::Program;
use dg_base::{Bytes, List};

/// A shared cell: a shared variable, a mutex, or one cell of an array of them.
#[derive(Drop)]
pub struct CellInfo {
    /// The variable's name; of an array's cell as `a[3]`.
    pub name: Bytes,
    /// The value that it begins with.
    pub initial: u32,
}

/// A program that is well formed for its loop bound.
#[derive(Drop)]
pub struct Checked {
    /// The program.
    pub program: Program,
    /// The names of its functions, in the order of the text.
    pub functions: List<Bytes>,
    /// Its shared cells, in the order of the text.
    pub cells: List<CellInfo>,
    /// How often a loop runs at most, from 1 to 64.
    pub k: u32,
    /// Whether a run ends, and fails, where a loop has used up its bound.
    pub full: bool,
}
