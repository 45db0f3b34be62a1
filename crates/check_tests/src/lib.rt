//! Tests of the check of proof logs: texts of logs by hand, read and checked.
#![tactic(auto)]

#[cfg(test)]
mod adding;
#[cfg(test)]
mod cycles;
#[cfg(test)]
mod hinted;
#[cfg(test)]
mod logs;
