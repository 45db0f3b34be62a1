//! Which threads there are.

ghost use Rattle.std.specs.Prelude.{◌≡◌, map, length, unwrap_or, codes, IfErr, OnOk};
ghost use Rattle.std.specs.List.{list_any};
ghost use Rattle.c_check.specs.WellFormed.{IsChecked};
ghost use Rattle.run_model.specs.Names.{first_named};
ghost use Rattle.exec_check.specs.Conditions.{HasThreads};
ghost use Rattle.exec_check.specs.Broken.{ThreadsBreak};
ghost use Rattle.exec_check.specs.ThreadTests as tests;

use crate::Reject;
use axiom_model::ThreadPart;
use c_check::Checked;
use dg_base::Bytes;

// The number of the function main; 0 where there is none.
fn main_number(functions: &[Bytes]) -> usize
    ensures { result ≡ unwrap_or (first_named (λ n. n) 0 functions.now (codes "main")) 0 }
{
    let mut number = 0usize;
    for name in functions {
        if name.as_slice() == b"main".as_slice() {
            return number;
        }
        number += 1;
    }
    0
}

// Whether handle 0 runs main with argument 0.
fn has_main(main: usize, parts: &[ThreadPart]) -> bool
    ensures { result ≡ list_any (tests.is_main main) parts.now }
{
    for part in parts {
        if part.handle == 0 && part.function as usize == main && part.arg == 0 {
            return true;
        }
    }
    false
}

// The first handle that is not above the one before it.
fn not_rising(parts: &[ThreadPart]) -> Option<u32>
    ensures { result ≡ tests.not_rising 0 parts.now }
{
    let mut least = 0u64;
    for part in parts {
        if u64::from(part.handle) < least {
            return Some(part.handle);
        }
        least = u64::from(part.handle) + 1;
    }
    None
}

// The first handle that is too large or whose function is not one of so many.
fn unknown(functions: usize, parts: &[ThreadPart]) -> Option<u32>
    ensures { result ≡ tests.first_not (tests.is_known functions) tests.handle_of parts.now }
{
    for part in parts {
        if part.function as usize >= functions || part.handle >= 16_777_216 {
            return Some(part.handle);
        }
    }
    None
}

/// Whether main is there, handles rise, and functions and handles are known.
pub(crate) fn check_parts(checked: &Checked, parts: &[ThreadPart]) -> Result<(), Reject>
    requires { IsChecked checked.now }
    ensures known { OnOk result (HasThreads checked.now parts.now) }
    ensures broken { IfErr result (ThreadsBreak checked.now parts.now) }
{
    if !has_main(main_number(checked.functions.as_slice()), parts) {
        return Err(Reject::MainMissing);
    }
    if let Some(handle) = not_rising(parts) {
        return Err(Reject::ThreadTwice(handle));
    }
    if let Some(handle) = unknown(checked.functions.len(), parts) {
        return Err(Reject::UnknownThread(handle));
    }
    Ok(())
}
