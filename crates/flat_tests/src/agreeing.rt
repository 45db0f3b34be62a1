// Instances beside the threads that they are.
ghost use Rattle.c_check.specs.WellFormed.{IsChecked};

use crate::programs::{Row, cut, loops, sections, threads, told_cuts, values};
use crate::told::{flat_text, thread_text};
use c_check::Checked;
use c_program::read_program;
use flat_prog::{Flat, Instance};
use loop_unroll::unroll;
use std::alloc::Global;
use std::process::Abort;
use std::test::Fail;

const SCRIPTS: [&[u32]; 12] = [
    &[],
    &[0],
    &[1],
    &[1, 0, 1, 0, 1, 0, 1, 0, 1, 0, 1, 0],
    &[1, 1, 1, 1, 1, 1, 1, 1, 1, 1, 1, 1],
    &[0, 0, 0, 0, 0, 0, 0, 0, 0, 0, 0, 0],
    &[2, 3, 4, 5, 6, 7],
    &[1, 0, 0, 2, 1, 1, 3, 0, 1],
    &[4294967295, 1, 2147483648, 0, 1, 1, 0],
    &[1, 2, 1, 0, 1, 5, 1, 1],
    &[3, 1, 1, 0, 0, 1],
    &[0, 1, 2, 3, 1, 0, 1, 2, 0, 1, 1],
];

// What an instance does on a script, and what the thread of its function does.
fn both(
    alloc: Global,
    checked: &Checked,
    flat: &Flat,
    instance: &Instance,
    script: &[u32],
) -> Result<(String, String), Fail>
    requires { IsChecked checked.now }
{
    let own = flat_text(alloc, flat, instance, script)?;
    let thread = thread_text(alloc, checked, instance.function, script)?;
    Ok((own, thread))
}

// Each instance beside its thread, on each script.
fn agree(
    rt: &impl Abort,
    alloc: Global,
    text: &str,
    checked: &Checked,
    flat: &Flat,
) -> Result<(), Fail>
    requires { IsChecked checked.now }
{
    for instance in flat.instances.as_slice() {
        for script in SCRIPTS {
            let (own, thread) = both(alloc, checked, flat, instance, script)?;
            assert_eq!(rt; own.as_str(), thread.as_str(), "at {text} on {script:?}");
        }
    }
    Ok(())
}

// A row's instance does on its script, as its thread does, what was worked out by hand; and all instances agree with their threads.
fn check_row(rt: &impl Abort, alloc: Global, full: bool, row: &Row) -> Result<(), Fail> {
    let (text, instances, number, script, wanted) = *row;
    let checked = read_program(alloc, text.as_bytes(), 3, full)?;
    let flat = unroll(alloc, &checked)?;
    assert_eq!(rt; flat.instances.len(), instances, "at {text}");
    let instance = flat.instances.get(number).ok_or("no such instance")?;
    let (own, thread) = both(alloc, &checked, &flat, instance, script)?;
    assert_eq!(rt; own.as_str(), wanted, "at {text} on {script:?}");
    assert_eq!(rt; thread.as_str(), wanted, "at {text} on {script:?}");
    agree(rt, alloc, text, &checked, &flat)
}

fn check(rt: &impl Abort, alloc: Global, full: bool, rows: &[Row]) -> Result<(), Fail> {
    for row in rows {
        check_row(rt, alloc, full, row)?;
    }
    Ok(())
}

#[test]
fn loops_run_as_threads_do(rt: HostRuntime) -> Result<(), Fail> {
    check(&rt, rt.alloc(), false, loops())?;
    check(&rt, rt.alloc(), true, loops())?;
    check(&rt, rt.alloc(), false, cut())?;
    check(&rt, rt.alloc(), true, told_cuts())
}

#[test]
fn values_are_those_of_threads(rt: HostRuntime) -> Result<(), Fail> {
    check(&rt, rt.alloc(), false, values())?;
    check(&rt, rt.alloc(), true, values())
}

#[test]
fn sections_and_creates_are_those_of_threads(rt: HostRuntime) -> Result<(), Fail> {
    check(&rt, rt.alloc(), false, sections())?;
    check(&rt, rt.alloc(), true, sections())?;
    check(&rt, rt.alloc(), false, threads())?;
    check(&rt, rt.alloc(), true, threads())
}
