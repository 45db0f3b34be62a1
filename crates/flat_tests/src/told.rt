// Runs as text.
ghost use Rattle.c_check.specs.WellFormed.{IsChecked};

use crate::flat_runs::{End, run_flat};
use axiom_model::Action;
use c_check::Checked;
use flat_prog::{Flat, Instance};
use run_model::{Ending, RunStop, count_functions, run_thread};
use std::alloc::Global;
use std::fmt::Write;
use std::test::Fail;

// The handle and the argument of each run.
const HANDLE: u32 = 3;

const ARG: u32 = 9;

fn write_action(text: &mut String, action: &Action) -> Result<(), Fail> {
    match action {
        Action::Read { cell, value } => write!(text, "R{cell}={value} ")?,
        Action::Write { cell, value } => write!(text, "W{cell}={value} ")?,
        Action::Open => text.push_str("Open ")?,
        Action::Close => text.push_str("Close ")?,
        Action::Fence => text.push_str("Fence ")?,
        Action::Create {
            handle,
            function,
            arg,
        } => write!(text, "C{handle}:{function}:{arg} ")?,
        Action::Join { handle } => write!(text, "J{handle} ")?,
        Action::Start => text.push_str("Start ")?,
        Action::End => text.push_str("End ")?,
    }
    Ok(())
}

fn write_end(text: &mut String, end: End) -> Result<(), Fail> {
    match end {
        End::Ended => text.push_str("Ended")?,
        End::Stopped => text.push_str("Stopped")?,
        End::Bad => text.push_str("Bad")?,
        End::Failed(place) => write!(text, "Failed at {}", place.col)?,
        End::Bound(place) => write!(text, "Bound at {}", place.col)?,
        End::Short => text.push_str("Short")?,
    }
    Ok(())
}

// A run's actions, how it ends, with the column of a failure, and how many numbers of the script it used.
fn run_text(alloc: Global, actions: &[Action], end: End, used: usize) -> Result<String, Fail> {
    let mut text = String::new(alloc);
    for action in actions {
        write_action(&mut text, action)?;
    }
    write_end(&mut text, end)?;
    write!(text, " {used}")?;
    Ok(text)
}

// What an instance does.
pub fn flat_text(
    alloc: Global,
    flat: &Flat,
    instance: &Instance,
    script: &[u32],
) -> Result<String, Fail> {
    let (run, end) = run_flat(alloc, flat, instance, HANDLE, ARG, script)?;
    match end {
        End::Short => run_text(alloc, &[], end, run.used),
        _ => run_text(alloc, run.actions.as_slice(), end, run.used),
    }
}

fn end_of(ending: Ending) -> End {
    match ending {
        Ending::Ended => End::Ended,
        Ending::Stopped => End::Stopped,
        Ending::Bad => End::Bad,
        Ending::Failed(place) => End::Failed(place),
        Ending::Bound(place) => End::Bound(place),
    }
}

// What the thread of a function does.
pub fn thread_text(
    alloc: Global,
    checked: &Checked,
    function: u32,
    script: &[u32],
) -> Result<String, Fail>
    requires { IsChecked checked.now }
{
    if count_functions(checked.program.items.as_slice()) <= function as usize {
        return Err(Fail::from("no such function"));
    }
    match run_thread(alloc, checked, function, HANDLE, ARG, script) {
        Ok(run) => run_text(
            alloc,
            run.actions.as_slice(),
            end_of(run.ending),
            run.used as usize,
        ),
        Err(RunStop::ScriptShort(used)) => run_text(alloc, &[], End::Short, used as usize),
        Err(RunStop::OutOfMemory) => Err(Fail::from("no memory")),
    }
}
