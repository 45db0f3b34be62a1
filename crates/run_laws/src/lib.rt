//! Laws on the threads of a checked program: a thread creates at most 63 others, at most four creations
//! lie between main and a thread, handles are below 2^24, and no two creates of an execution have one.
//!
//! The check of a program counts what each thread comes to without running it (`c_check`'s `Counts`):
//! both branches of a test, and a loop's body as often as it may turn. The laws say that the runs of
//! `run_model` stay within that count, in threads created and in actions (`specs/Lengths`). The limits count
//! the threads that main leads to, and no others, so these laws are of functions that main leads to
//! (`specs/Started`), and through these of candidates.
//!
//! Two laws are of what the static rules are for: sections open and close in turn (`specs/Sections`), and
//! the numbers in actions have 32 bits (`specs/Words`).
//!
//! The other laws are of every run, of any program: where Start and End stand (`specs/Frames`), which cells
//! and functions actions name (`specs/Belonging`), how a run goes on for which the script is too short
//! (`specs/Short`), how many numbers runs use (`specs/Bounded`), and the run for one bound on loops beside
//! the run for another (`specs/Turns`).
//!
//! But for the counts of creates, actions and numbers, and the statements of sections, the laws share one
//! induction over all forms (`proofs/Joint`), which relates two runs.
#![tactic(auto)]

mod laws;

pub use laws::{
    actions_belong_to_programs, candidates_are_of_words, creates_are_few, creates_differ,
    higher_bounds_go_on, runs_are_framed, runs_are_of_words, runs_are_short, runs_have_sections,
    scripts_are_bounded, short_runs_go_on, started_creates_differ, started_runs_are_of_words,
    started_threads_are_limited,
};
