// What the bodies of functions come to, by what those that they call come to.
ghost use Rattle.std.specs.Prelude.{◌≤◌};

use crate::counts::Counts;
use c_tree::Item;
use std::alloc::Global;

/// Counts over the bodies of these items, for a loop bound, with the counts of the functions that are called.
#[derive(Clone, Copy, Drop)]
pub(crate) struct Counter<'a> {
    pub alloc: Global,
    pub k: u32,
    pub items: &'a [Item],
    pub table: &'a [Counts],
    ghost small: { k ≤ 64 },
}
