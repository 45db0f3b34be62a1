//! Flat programs: each thread of a program inlined and unrolled to a list of guarded steps, without loops and calls.
//!
//! An instance is one thread function as one `pthread_create` of the text, in one turn of its loops, starts it. It keeps its
//! values in numbered locals: local 0 begins as the argument, local 1 as the thread's handle, local 2 as 1, every other one as 0.
//! A step is made where its guard is not 0 and the run has not ended. `specs/Runs` says what an instance does on a script
//! (`flat_run`), `specs/Shape` what holds of every flat program (`IsFlat`), `specs/Sections` when sections are kept.
//!
//! Types and definitions, with laws on runs: lists of steps are made in turn, and a run uses the first numbers of its script. The
//! layers above may use them all. A run by hand shows that the definitions say what one expects (`specs/Laws`, `CountsUp`).
#![tactic(auto)]

mod laws;

use dg_base::{List, Op, Place};
pub use laws::{a_thread_counts_up, runs_use_first_numbers, steps_go_on};

/// A program without loops and calls.
#[derive(Debug, Drop)]
pub struct Flat {
    /// The threads that there may be, main's first. Each other one is named by one Create step of an earlier one.
    pub instances: List<Instance>,
    /// The value that each shared cell begins with.
    pub initials: List<u32>,
}

/// A thread function, inlined and unrolled.
#[derive(Debug, Drop)]
pub struct Instance {
    /// The number of the function, from 0 in the order of the text.
    pub function: u32,
    /// How many locals there are.
    pub locals: u32,
    /// What is done, in order.
    pub steps: List<FlatStep>,
}

/// A step, and the local that is not 0 where it is made.
#[derive(Debug, Drop)]
pub struct FlatStep {
    /// The local that decides whether the step is made.
    pub guard: u32,
    /// What is done.
    pub act: FlatAct,
}

/// What a step does. Numbers called `to`, `from`, `handle`, `arg`, and those in `args`, are of locals.
#[derive(Debug, Drop)]
pub enum FlatAct {
    /// `to` becomes the operator's value of the arguments.
    Set {
        to: u32,
        op: Op,
        args: List<u32>,
    },
    /// `to` becomes the number.
    Put {
        to: u32,
        value: u32,
    },
    /// `to` becomes the script's next number.
    Take {
        to: u32,
    },
    /// The script's next number is read from the cell, and becomes `to`.
    Read {
        cell: u32,
        to: u32,
    },
    /// The value is written to the cell.
    Write {
        cell: u32,
        from: u32,
    },
    /// A section begins.
    Open,
    /// The section ends.
    Close,
    /// A full fence.
    Fence,
    /// The thread that is this instance is created.
    Create {
        instance: u32,
        handle: u32,
        arg: u32,
    },
    /// The thread waits for the end of the thread with this handle.
    Join {
        from: u32,
    },
    /// The thread comes to its end.
    End,
    /// The run stops.
    Stop,
    /// The run made a choice that no execution makes.
    Bad,
    /// The run fails: with tag 0 an assertion, a division or an index at this place, with tag 1 a loop's bound is spent there.
    Fail {
        place: Place,
        tag: u8,
    },
}
