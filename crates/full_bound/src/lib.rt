//! The law of the full bound: where a program fails for some bound on loops, it fails for each smaller one
//! for which it is well formed, where spent bounds are told.
#![tactic(auto)]

mod laws;

pub use laws::{cut_runs_can_end, full_bound_suffices};
