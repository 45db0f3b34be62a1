//! Tests of the top call, from C text and words to what is printed: `run` over the desks in memory.
//!
//! They stand above the crates that they try, so that each of these is proved once. A table has a row for each case, and one
//! function goes through it.
#![tactic(auto)]

#[cfg(test)]
mod calls;
#[cfg(test)]
mod desks;
#[cfg(test)]
mod jobs;
#[cfg(test)]
mod logs;
#[cfg(test)]
mod models;
#[cfg(test)]
mod programs;
#[cfg(test)]
mod relaxed;
#[cfg(test)]
mod replay;
#[cfg(test)]
mod verify;
#[cfg(test)]
mod words;
