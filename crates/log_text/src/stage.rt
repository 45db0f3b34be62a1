// Where a reader of a log is.
use cnf_problem::Head;

/// A line of a log's head, behind the first line of the text: each but the first is a word and a number.
#[derive(Debug, Clone, Copy, PartialEq, Eq, Drop)]
pub enum HeadLine {
    /// The memory model: `sc`, `tso` or `pso`.
    Model,
    /// How often each loop was unrolled.
    Unroll,
    /// How many variables the problem has.
    Vars,
    /// How many clauses it has.
    Clauses,
    /// How many nodes it has.
    Nodes,
    /// How many atoms it has.
    Atoms,
}

/// Where a reader of a log is.
#[derive(Debug, Clone, Copy, PartialEq, Eq, Drop)]
pub enum Stage {
    /// Before the first line; whether the format without hints alone is read.
    Format(bool),
    /// Before a line of the head: whether there are hints, that line, and the head so far.
    InHead(bool, HeadLine, Head),
    /// Between entries: whether there are hints, the head, and the ticket of the next entry.
    Body(bool, Head, u32),
    /// Behind the last line.
    End(bool, Head),
}
