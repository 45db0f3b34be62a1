// Why a program's text is refused.
use crate::{Bytes, Place};

/// Why a program's text is refused. The first ten are `E1` to `E10`, in this order.
#[derive(Debug, Drop)]
pub enum Refusal {
    /// A byte outside comments that begins no token.
    BadByte(Place),
    /// A word that is not supported.
    Unsupported(Place, Bytes),
    /// The first token behind the longest prefix that begins a program.
    Syntax(Place),
    /// There is no function `main` with a body.
    NoMain,
    /// A name declared twice in one scope.
    Duplicate(Place),
    /// A name that is not declared.
    Unknown(Place),
    /// A rule on types or on where something stands is broken.
    BadType(Place),
    /// An atomic section that is not begun and ended in one block.
    UnmatchedAtomic(Place),
    /// A function that calls or creates lead back to.
    Recursion(Place),
    /// A limit is exceeded, by this count; a count above 4294967295 is given as that number.
    Limit(LimitKind, u32),
    /// Want of memory.
    OutOfMemory,
}

/// What a limit counts.
#[derive(Debug, Clone, Copy, PartialEq, Eq, Drop)]
pub enum LimitKind {
    /// Bytes of the program: 1048576.
    Text,
    /// Tokens of one macro after expansion: 1024.
    Macro,
    /// Tokens after macros and dropped words: 65536.
    Tokens,
    /// Cells of one array: 32.
    Cells,
    /// Shared cells, mutexes among them: 1024.
    Globals,
    /// Creates in one unrolled thread: 63.
    Creates,
    /// Unrolled threads with main: 64.
    Threads,
    /// Creations from main to a thread: 4.
    Depth,
    /// Shared accesses after unrolling: 1024.
    Accesses,
    /// The weights of all operations after unrolling: 32768.
    Weight,
}
