//! The log of a program: kept, checked, and brought into the format with hints.
//!
//! A log is for the problem that the chain makes of the program under a memory model (`encode`); its text begins with that problem's
//! head. What is answered of a text stands in `specs/Logs`: that the text goes wrong, that it is of another problem, that its log is
//! refused, or that it is accepted, in this order. An accepted log shows that no execution fails, whoever wrote it (`specs/Laws`).
//!
//! A check reads the text in pieces, and takes its entries as they come: a log without hints is checked meanwhile, and the first
//! refusal is held until the text is read to its end (`specs/Pieces`); one with hints is checked at the end.
//!
//! The layers above may use [`check_text`], [`migrate_text`] and [`hinted_text`] with their contracts, and the laws.
#![tactic(auto)]

mod answers;
mod checking;
mod heads;
mod laws;
mod migrating;
mod proving;
mod standing;

pub use answers::{LogAnswer, Migration};
pub use checking::check_text;
pub use laws::{accepted_is_alone, accepted_is_safe, kept_is_accepted};
pub use migrating::{hinted_text, migrate_text};
