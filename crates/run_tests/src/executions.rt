// Candidates of small programs: each answer of `check_execution`, and the known outcomes of each model.
ghost use Rattle.std.specs.Prelude.{◌≤◌};
ghost use Rattle.c_check.specs.WellFormed.{IsChecked};

use crate::candidates::candidate;
use axiom_model::MemoryModel;
use c_check::Checked;
use c_program::read_program;
use exec_check::{Failing, check_execution, check_threads};
use std::alloc::Global;
use std::process::Abort;
use std::test::Fail;

// A candidate's words, and what is told of it under SC, TSO or PSO.
type Row = (&'static str, MemoryModel, &'static str);

// How a program's loops are bounded.
type Bound = (u32, bool);

// Two threads write one cell each and read the other's, and main asserts that one of them read 1. The functions are f, g and
// main, the cells x, y, a and b.
const STORE_BUFFERING: &str =
    "int x, y, a, b; void *f(void *p) { x = 1; a = y; } void *g(void *p) { y = 1; b = x; } int main() { pthread_t t; pthread_create(&t, 0, f, 0); pthread_create(&t, 0, g, 0); pthread_join(1, 0); pthread_join(2, 0); assert(a || b); }";

// One thread writes a value, then a flag; the other reads the flag, then the value.
const MESSAGE_PASSING: &str =
    "int x, y, a, b; void *f(void *p) { x = 1; y = 1; } void *g(void *p) { a = y; b = x; } int main() { pthread_t t; pthread_create(&t, 0, f, 0); pthread_create(&t, 0, g, 0); pthread_join(1, 0); pthread_join(2, 0); assert(!a || b); }";

// One thread writes; the other reads the cell twice, the new value first.
const READ_READ_COHERENCE: &str =
    "int x, a, b; void *f(void *p) { x = 1; } void *g(void *p) { a = x; b = x; } int main() { pthread_t t; pthread_create(&t, 0, f, 0); pthread_create(&t, 0, g, 0); pthread_join(1, 0); pthread_join(2, 0); assert(!a || b); }";

// Main may read between the two writes of a section.
const PEEKED_SECTION: &str =
    "int x; void *f(void *p) { __VERIFIER_atomic_begin(); x = 1; x = 2; __VERIFIER_atomic_end(); } int main() { pthread_t t; pthread_create(&t, 0, f, 0); assert(!x); pthread_join(1, 0); }";

// A loop of three turns, and an assertion behind it.
const COUNTED_LOOP: &str = "int main() { for (int i = 0; i < 3; i++) ; assert(0); }";

// A thread fails an assertion, while main turns for ever.
const ENDLESS_LOOP: &str =
    "void *f(void *p) { assert(0); } int main() { pthread_t t; pthread_create(&t, 0, f, 0); while (1) ; }";

// What is told of a thread that fails.
fn fails(alloc: Global, failing: Failing) -> Result<String, Fail> {
    let how = if failing.bound {
        "spends a bound"
    } else {
        "fails"
    };
    Ok(format!(in alloc; "{} {how} at {}", failing.handle, failing.place.col)?)
}

// What is told of a candidate of the program.
fn answer(alloc: Global, checked: &Checked, text: &str, model: MemoryModel) -> Result<String, Fail>
    requires { IsChecked checked.now }
{
    let candidate = candidate(alloc, text)?;
    match check_execution(alloc, checked, model, &candidate) {
        Ok(failing) => fails(alloc, failing),
        Err(reject) => Ok(format!(in alloc; "{reject:?}")?),
    }
}

// What is told of threads alone, whatever else the candidate says.
fn alone(alloc: Global, checked: &Checked, text: &str) -> Result<String, Fail>
    requires { IsChecked checked.now }
{
    let candidate = candidate(alloc, text)?;
    match check_threads(alloc, checked, candidate.threads.as_slice()) {
        Ok(()) => Ok(format!(in alloc; "threads")?),
        Err(reject) => Ok(format!(in alloc; "{reject:?}")?),
    }
}

fn told(
    alloc: Global,
    program: &str,
    bound: Bound,
    text: &str,
    model: MemoryModel,
) -> Result<String, Fail> {
    match read_program(alloc, program.as_bytes(), bound.0.clamp(1, 64), bound.1) {
        Ok(checked) => answer(alloc, &checked, text, model),
        Err(refusal) => Ok(format!(in alloc; "{refusal:?}")?),
    }
}

fn told_alone(alloc: Global, program: &str, text: &str) -> Result<String, Fail> {
    match read_program(alloc, program.as_bytes(), 1, false) {
        Ok(checked) => alone(alloc, &checked, text),
        Err(refusal) => Ok(format!(in alloc; "{refusal:?}")?),
    }
}

fn check(rt: &impl Abort, alloc: Global, program: &str, rows: &[Row]) -> Result<(), Fail> {
    for (text, model, wanted) in rows {
        let answer = told(alloc, program, (1, false), text, *model)?;
        assert_eq!(rt; answer.as_str(), *wanted, "at {text}");
    }
    Ok(())
}

// Conditions on threads alone, of store buffering.
fn threads() -> &'static [Row] {
    &[
        (
            "T0,2,1:1,1,0,0 T1,0,0:0 T2,1,0:0",
            MemoryModel::Tso,
            "MainMissing",
        ),
        (
            "T0,2,0:1,1,0,0 T1,0,0:0 T1,0,0:0 T1,7,0:0",
            MemoryModel::Tso,
            "ThreadTwice(1)",
        ),
        (
            "T0,2,0:1,1,0,0 T1,3,0:0 T16777216,0,0:0",
            MemoryModel::Tso,
            "UnknownThread(1)",
        ),
        (
            "T0,2,0:1,1,0,0 T16777216,0,0:0",
            MemoryModel::Tso,
            "UnknownThread(16777216)",
        ),
        (
            "T0,2,0:1,1,0,0 T1,0,0: T2,1,0:0,0",
            MemoryModel::Tso,
            "ScriptShort(1)",
        ),
        (
            "T0,2,0:1,1,0,0 T1,0,0:0,0 T2,1,0:",
            MemoryModel::Tso,
            "ScriptLong(1)",
        ),
        ("T0,2,0:2 T1,0,0:", MemoryModel::Tso, "BadRun(0)"),
        ("T0,2,0:2,0 T1,0,0:", MemoryModel::Tso, "ScriptLong(0)"),
        (
            "T0,2,0:1,1,0,0 T1,1,0:0 T2,1,0:0",
            MemoryModel::Tso,
            "NoCreate(1)",
        ),
        ("T0,2,0:1,1,0,0 T1,0,0:0", MemoryModel::Tso, "NoThread(2)"),
    ]
}

// Sources and orders, of store buffering.
fn actions() -> &'static [Row] {
    &[
        (
            "T0,2,0:1,1,0,0 T1,0,0:0 T2,1,0:0 R1.2,- R2.2,- R0.5,1.3",
            MemoryModel::Tso,
            "BadSource(At { handle: 0, index: 6 })",
        ),
        (
            "T0,2,0:1,1,0,0 T1,0,0:1 T2,1,0:0 R1.2,- R2.2,- R0.5,1.3 R0.6,2.3",
            MemoryModel::Tso,
            "BadSource(At { handle: 0, index: 5 })",
        ),
        (
            "T0,2,0:1,1,0,0 T1,0,0:0 T2,1,0:0 R1.2,- R2.2,- R0.5,1.3 R0.6,2.3 R-,-",
            MemoryModel::Tso,
            "BadSource(Initial)",
        ),
        (
            "T0,2,0:1,1,0,0 T1,0,0:0 T2,1,0:0 R1.2,- R2.2,- R0.5,1.3 R0.6,2.3 C-,1.1 C2.1,- C-,1.3",
            MemoryModel::Tso,
            "BadOrder(1)",
        ),
        (
            "T0,2,0:1,1,0,0 T1,0,0:0 T2,1,0:0 R1.2,- R2.2,- R0.5,1.3 R0.6,2.3 C-,1.1 C-,2.1 C-,1.3 C-,2.3 C-",
            MemoryModel::Tso,
            "BadOrder(4)",
        ),
    ]
}

// Store buffering, where each thread reads 0, and where none fails.
fn store_buffering() -> &'static [Row] {
    &[
        (
            "T0,2,0:1,1,0,0 T1,0,0:0 T2,1,0:0 R1.2,- R2.2,- R0.5,1.3 R0.6,2.3 C-,1.1 C-,2.1 C-,1.3 C-,2.3",
            MemoryModel::Tso,
            "0 fails at 211",
        ),
        (
            "T0,2,0:1,1,0,0 T1,0,0:0 T2,1,0:0 R1.2,- R2.2,- R0.5,1.3 R0.6,2.3 C-,1.1 C-,2.1 C-,1.3 C-,2.3",
            MemoryModel::Sc,
            "GlobalCycle(Items { items: [At { handle: 1, index: 1 }, At { handle: 1, index: 2 }, At { handle: 2, index: 1 }, At { handle: 2, index: 2 }] })",
        ),
        (
            "T0,2,0:1,1,1 T1,0,0:1 T2,1,0:0 R1.2,2.1 R2.2,- R0.5,1.3 C-,1.1 C-,2.1 C-,1.3 C-,2.3",
            MemoryModel::Tso,
            "NotFailing",
        ),
        (
            "T0,2,0:1,0 T1,0,0:0 T2,1,0:0 R1.2,- R2.2,- C-,1.1 C-,2.1 C-,1.3 C-,2.3",
            MemoryModel::Tso,
            "NotFailing",
        ),
    ]
}

// Message passing with the stale read.
fn message_passing() -> &'static [Row] {
    &[
        (
            "T0,2,0:1,1,1,0 T1,0,0: T2,1,0:1,0 R2.1,1.2 R2.3,- R0.5,2.2 R0.6,2.4 C-,1.1 C-,1.2 C-,2.2 C-,2.4",
            MemoryModel::Tso,
            "GlobalCycle(Items { items: [At { handle: 1, index: 1 }, At { handle: 1, index: 2 }, At { handle: 2, index: 1 }, At { handle: 2, index: 3 }] })",
        ),
        (
            "T0,2,0:1,1,1,0 T1,0,0: T2,1,0:1,0 R2.1,1.2 R2.3,- R0.5,2.2 R0.6,2.4 C-,1.1 C-,1.2 C-,2.2 C-,2.4",
            MemoryModel::Pso,
            "0 fails at 211",
        ),
    ]
}

// Two reads of one cell that see the new value, then the old one.
fn read_read_coherence() -> &'static [Row] {
    &[(
        "T0,2,0:1,1,1,0 T1,0,0: T2,1,0:1,0 R2.1,1.1 R2.3,- R0.5,2.2 R0.6,2.4 C-,1.1 C-,2.2 C-,2.4",
        MemoryModel::Pso,
        "LocalCycle(Items { items: [At { handle: 1, index: 1 }, At { handle: 2, index: 1 }, At { handle: 2, index: 3 }] })",
    )]
}

// A read between the two writes of a section; a wrong order; a Join of a thread that did not end.
fn sections() -> &'static [Row] {
    &[
        (
            "T0,1,0:1 T1,0,0:1 R0.2,1.2 C-,1.2,1.3",
            MemoryModel::Pso,
            "BlockCycle(Items { items: [At { handle: 0, index: 2 }, At { handle: 1, index: 3 }, At { handle: 1, index: 2 }, At { handle: 0, index: 2 }] })",
        ),
        (
            "T0,1,0:1 T1,0,0:1 R0.2,1.2 C-,1.2,1.3",
            MemoryModel::Sc,
            "BlockCycle(Items { items: [At { handle: 0, index: 2 }, At { handle: 1, index: 3 }, At { handle: 1, index: 2 }, At { handle: 0, index: 2 }] })",
        ),
        (
            "T0,1,0:0,1 T1,0,0:1 R0.2,- C-,1.3,1.2",
            MemoryModel::Pso,
            "LocalCycle(Items { items: [At { handle: 1, index: 2 }, At { handle: 1, index: 3 }] })",
        ),
        (
            "T0,1,0:0,1 T1,0,0:0 R0.2,- C-",
            MemoryModel::Sc,
            "BadJoin(At { handle: 0, index: 3 })",
        ),
        (
            "T0,1,0:2 T1,0,0:1 R0.2,1.3 C-,1.2,1.3",
            MemoryModel::Sc,
            "0 fails at 150",
        ),
    ]
}

#[test]
fn threads_are_checked(rt: HostRuntime) -> Result<(), Fail> {
    let alloc = rt.alloc();
    check(&rt, alloc, STORE_BUFFERING, threads())?;
    for (text, _, wanted) in threads() {
        let answer = told_alone(alloc, STORE_BUFFERING, text)?;
        assert_eq!(rt; answer.as_str(), *wanted, "alone, at {text}");
    }
    for (text, _, _) in store_buffering() {
        let answer = told_alone(alloc, STORE_BUFFERING, text)?;
        assert_eq!(rt; answer.as_str(), "threads", "alone, at {text}");
    }
    Ok(())
}

#[test]
fn actions_are_checked(rt: HostRuntime) -> Result<(), Fail> {
    check(&rt, rt.alloc(), STORE_BUFFERING, actions())
}

#[test]
fn models_are_checked(rt: HostRuntime) -> Result<(), Fail> {
    check(&rt, rt.alloc(), STORE_BUFFERING, store_buffering())?;
    check(&rt, rt.alloc(), MESSAGE_PASSING, message_passing())?;
    check(&rt, rt.alloc(), READ_READ_COHERENCE, read_read_coherence())
}

#[test]
fn sections_are_checked(rt: HostRuntime) -> Result<(), Fail> {
    check(&rt, rt.alloc(), PEEKED_SECTION, sections())
}

#[test]
fn spent_bounds_are_told(rt: HostRuntime) -> Result<(), Fail> {
    for (program, bound, text, wanted) in [
        (COUNTED_LOOP, (2, true), "T0,0,0:", "0 spends a bound at 14"),
        (COUNTED_LOOP, (3, true), "T0,0,0:", "0 fails at 44"),
        (COUNTED_LOOP, (2, false), "T0,0,0:", "NotFailing"),
        (ENDLESS_LOOP, (1, true), "T0,1,0: T1,0,0:", "1 fails at 20"),
    ] {
        let answer = told(rt.alloc(), program, bound, text, MemoryModel::Sc)?;
        assert_eq!(rt; answer.as_str(), wanted, "at {program}");
    }
    Ok(())
}
