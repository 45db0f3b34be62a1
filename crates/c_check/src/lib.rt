//! Sections, recursion and limits, and with the rules of `c_rules` the whole check: a program that the grammar reads is
//! accepted as well formed for a loop bound, or refused with the first rule that it breaks, at the exact place.
//!
//! The model is the tree. Sections (`specs/Sections`) and calls (`specs/Recursion`) are folds over it, counts
//! (`specs/Counts`) are sums over one walk in the order of the text. `specs/WellFormed` puts all rules in order: what is
//! well formed, and the first refusal. A function is known by its number among the items. Callees are counted before their
//! callers, once each, in numbers of 32 bits: a count above the largest is that number, in every sum, and so at the end.
//! The layer above calls [`check`] alone.
#![tactic(auto)]

mod calls;
mod checked;
mod counter;
mod counts;
mod expr_counts;
mod function_counts;
mod limits;
mod names_and_cells;
mod reachability;
mod recursion;
mod sections;
mod stmt_counts;
mod well_formed;

pub use checked::{CellInfo, Checked};
pub use counts::Counts;
pub use limits::Exceeded;
pub use sections::{Inside, Mark, first_unmatched};
pub use well_formed::check;
