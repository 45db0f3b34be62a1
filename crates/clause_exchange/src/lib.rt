//! The exchange: up to 16 workers hand each other lemmas while they search, without locks and
//! without waiting. Nothing is lost, invented or reordered, whatever the interleaving of their
//! atomic steps.
//!
//! All that is shared are words in one atomic table: the next ticket, the verdict, and for each
//! worker a count and a row. A lemma is appended to the worker's own log by one draw of a ticket; it
//! is shared by storing its words behind the row and then raising the row's count; another worker
//! looks at the count and reads what lies below it. What a worker did and saw is its view, which a
//! `Seat` carries and which exists in proofs alone; beside it a seat counts words at run time.
//!
//! The invariant is a rule of the table: the words and the views show a state of the core
//! of the search that some list of events leads to. Each step of a seat is one event of the core, or
//! none. The layers above may use the view after each call, and at the end, with `close`, that each
//! ticket is in exactly one log, that each entry follows from the problem and the entries with lower
//! tickets, and that the verdict is right. The law of the core is `core_holds_after_any_events`.
#![tactic(auto)]

mod board;
mod counters;
mod exchange;
mod laws;
mod reading;
mod rows;
mod rule;
mod seat;
mod spelling;
mod steps;
mod verdicts;

pub use exchange::Exchange;
pub use laws::{core_holds_after_any_events, reading_grows, reading_is_all};
pub use reading::Shared;
pub use rule::{Law, Part, Received, RowView, Setup, View};
pub use seat::Seat;
pub use spelling::{head_word, pair_word};
