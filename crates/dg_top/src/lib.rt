//! The top call: all that the shipped program does.
//!
//! [`run`] reads the words of the command line (`word_settings`), fetches the files of the job, answers, keeps what the words ask for and
//! prints. The model is the answer: `specs/Answers` says which answers the words and the files allow, with the status and the text of
//! each and the file that is kept, and `specs/Outcomes` what a run leaves on the desk. Beneath it stand the reading of a program
//! (`c_program`), its decision (`program_verdict`), its log (`program_log`), made programs (`prog_maker`), and for `replay` the witness
//! text (`witness_text`) and the checker of executions (`exec_check`); this crate joins their answers.
#![tactic(auto)]

mod check;
mod command;
mod laws;
mod log_reply;
mod make;
mod migrate;
mod pairs;
mod refusal_text;
mod reject_text;
mod replay;
mod reply;
mod text;
mod verdict_reply;
mod verify;
mod witness_reply;

pub use command::run;
pub use laws::{
    accepted_is_safe, failing_is_alone, run_over_honest_desk, safe_excludes_unsafe,
    unsafe_is_replayed,
};
