//! What the words of the command line ask for. The words are one simple command of clap; this crate alone stands on clap.
//!
//! `specs/CommandLine` gives the command rule by rule, and `specs/Settings` the settings that it finds, or the fault, as one
//! function of the words. The layers above may use that function, and the ranges of the numbers.
#![tactic(auto)]

mod command_line;
mod fault;
mod read;
mod settings;
#[cfg(test)]
mod tests;

pub use fault::WordsFault;
pub use read::settings_of;
pub use settings::{FileName, Job, JobName, Settings};
