// The whole check.
ghost use Rattle.std.specs.Prelude.{◌≡◌, ◌≤◌, IfOk, MatchResult};
ghost use Rattle.std.specs.Result.{IfErr};
ghost use Rattle.c_check.specs.Checked as lists;
ghost use Rattle.c_check.specs.Ordering.{IsCallOrder};
ghost use Rattle.c_check.specs.WellFormed.{KeepsLimits, IsFirstRefusal, IsChecked};
ghost use Rattle.c_check.specs.Rest.{KeepsRest, IsLimitRefusal, IsRestRefusal};

use crate::checked::Checked;
use crate::function_counts::main_counts;
use crate::limits::first_exceeded;
use crate::names_and_cells::{cells_of, function_names};
use crate::recursion::call_order;
use crate::sections::first_unmatched;
use c_rules::{check_names, check_types};
use c_tree::Program;
use dg_base::{OutOfMemory, Refusal};
use std::alloc::Global;

// What a program's threads come to is within the limits, where there is no recursion.
fn check_limits(alloc: Global, k: u32, program: &Program, order: &[u32]) -> Result<(), Refusal>
    requires small { k ≤ 64 }
    requires order { IsCallOrder program.now.items order.now }
    ensures { MatchResult result (λ r. KeepsLimits k program.now) (λ e. IsLimitRefusal k program.now e) }
{
    let items = program.items.as_slice();
    let counts = match main_counts(alloc, k, items, order) {
        Ok(counts) => counts,
        Err(_) => return Err(Refusal::OutOfMemory),
    };
    match first_exceeded(items, counts) {
        None => Ok(()),
        Some(limit) => Err(Refusal::Limit(limit.kind, limit.count)),
    }
}

// The rules behind those on types: sections, recursion, limits.
fn check_rest(alloc: Global, k: u32, program: &Program) -> Result<(), Refusal>
    requires { k ≤ 64 }
    ensures { MatchResult result (λ r. KeepsRest k program.now) (λ e. IsRestRefusal k program.now e) }
{
    if let Some(place) = first_unmatched(program) {
        return Err(Refusal::UnmatchedAtomic(place));
    }
    let order = call_order(alloc, program.items.as_slice())?;
    check_limits(alloc, k, program, order.as_slice())
}

// The program with its lists.
fn with_lists(alloc: Global, program: Program, k: u32, full: bool) -> Result<Checked, OutOfMemory>
    ensures { IfOk result (λ c. (c.program ≡ program) × (c.k ≡ k) × (c.full ≡ full) × (c.functions ≡ lists.function_names program) × (c.cells ≡ lists.cells_of program)) }
{
    let functions = function_names(alloc, program.items.as_slice())?;
    let cells = cells_of(alloc, program.items.as_slice())?;
    Ok(Checked {
        program,
        functions,
        cells,
        k,
        full,
    })
}

/// Checks a program for a loop bound: it is well formed, and comes with the names of its functions and its shared cells; or it
/// is refused with the first rule that it breaks, at the first place where that is broken. Whether a spent bound is told changes
/// neither; it is kept for the runs. A limit is told with its count.
/// Time is linear in the tree but for look-ups of names and one pass over the top of the program for each function; and where
/// there is recursion, for one search over all calls for each function before the one that is told.
pub fn check(alloc: Global, program: Program, k: u32, full: bool) -> Result<Checked, Refusal>
    requires bound { (1 ≤ k) × (k ≤ 64) }
    ensures checked { IfOk result (λ c. IsChecked c × (c.program ≡ program) × (c.k ≡ k) × (c.full ≡ full)) }
    ensures refused { IfErr result (λ e. IsFirstRefusal k program e) }
{
    check_names(alloc, &program)?;
    check_types(alloc, &program)?;
    check_rest(alloc, k, &program)?;
    match with_lists(alloc, program, k, full) {
        Ok(checked) => Ok(checked),
        Err(_) => Err(Refusal::OutOfMemory),
    }
}
