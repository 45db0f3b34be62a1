// What is answered of a log's text.
use dg_base::Bytes;
use log_checker::Refused;

/// What is answered of a log's text for a program.
#[derive(Debug, Drop)]
pub enum LogAnswer {
    /// The text is that of a good log of the program's problem, of so many entries, the last of which is the empty clause.
    Accepted(u32),
    /// The text is that of a log of another problem: the first line, from 2 to 7, in which the heads differ; that line of the
    /// text, and that of the program's problem.
    OtherProblem(u32, Bytes, Bytes),
    /// The log is refused, with evidence; never for want of memory.
    Refused(Refused),
    /// The text goes wrong at this line, from 1.
    BadLog(u32),
}

/// What is answered where a log is to be kept anew, with hints.
#[derive(Debug, Drop)]
pub enum Migration {
    /// The number of entries, and the new text.
    Migrated(u32, Bytes),
    /// The answer of a check, which is not that the log is accepted.
    Refused(LogAnswer),
}
