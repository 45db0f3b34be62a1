//! Tests of encodings, from C text: the problems of small programs under each memory model have a consistent assignment where the
//! programs are known to fail.
#![tactic(auto)]

#[cfg(test)]
mod search;
#[cfg(test)]
mod tables;
