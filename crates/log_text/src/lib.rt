//! The text of a proof log, both ways and in both formats. `print_log` and `print_hinted` write it; `read_log` reads the format
//! without hints, `read_any` both; `LogReader` reads both in pieces, and gives the entries of the lines that it has read.
//!
//! The text is a function of the log (`specs/Formats`); which logs have one, and which text spells which log, stands in
//! `specs/Spelling`. One machine over lines (`specs/Machine`) carries all three readers: its state is a few numbers and takes no
//! memory, and a line may give an entry. The invariant of `LogReader` between pieces (`specs/Fed`): the lines read so far are the
//! longest run of whole lines of the bytes fed with which some spelling begins; the entries given and left are theirs; and the
//! bytes of the line that is not whole yet are held. So the reader needs memory for one unfinished line and for the entries of
//! one piece.
//!
//! The layers above may use the calls with their contracts, these definitions, and the laws.
#![tactic(auto)]

mod laws;
mod lines;
mod printing;
mod reading;
mod run;
mod stage;
mod whole;

pub use laws::{known_behind_lines, no_proper_prefix, one_log, read_can_be_printed};
pub use printing::{print_hinted, print_log, put_head_line};
pub use reading::{LogFault, LogReader};
pub use stage::HeadLine;
pub use whole::{read_any, read_log};
