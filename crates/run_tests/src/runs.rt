// Runs of small programs: the function before `main`, with the handle 3 and the argument 9, where loops run at most twice.
ghost use Rattle.std.specs.Prelude.{◌<◌, IfSome, length};
ghost use Rattle.c_rules.specs.Names.{functions_of};
ghost use Rattle.c_check.specs.WellFormed.{IsChecked};

use axiom_model::Action;
use c_check::Checked;
use c_program::read_program;
use run_model::{Ending, RunStop, ThreadRun, run_thread};
use std::alloc::Global;
use std::fmt::Write;
use std::process::Abort;
use std::test::Fail;

// A program's text but for `main`, a script, and what the run of the last function of the text is on it: its actions, how it
// ends, with the column of a failure, and how many numbers it used.
type Row = (&'static str, &'static [u32], &'static str);

fn write_action(text: &mut String, action: &Action) -> Result<(), Fail> {
    match action {
        Action::Read { cell, value } => write!(text, "R{cell}={value}")?,
        Action::Write { cell, value } => write!(text, "W{cell}={value}")?,
        Action::Open => text.push_str("Open")?,
        Action::Close => text.push_str("Close")?,
        Action::Fence => text.push_str("Fence")?,
        Action::Create {
            handle,
            function,
            arg,
        } => write!(text, "C{handle}:{function}:{arg}")?,
        Action::Join { handle } => write!(text, "J{handle}")?,
        Action::Start => text.push_str("Start")?,
        Action::End => text.push_str("End")?,
    }
    Ok(())
}

fn write_run(text: &mut String, run: &ThreadRun) -> Result<(), Fail> {
    for action in run.actions.as_slice() {
        write_action(text, action)?;
        text.push_str(" ")?;
    }
    match run.ending {
        Ending::Ended => text.push_str("Ended")?,
        Ending::Stopped => text.push_str("Stopped")?,
        Ending::Bad => text.push_str("Bad")?,
        Ending::Failed(place) => write!(text, "Failed at {}", place.col)?,
        Ending::Bound(place) => write!(text, "Bound at {}", place.col)?,
    }
    write!(text, " {}", run.used)?;
    Ok(())
}

// The number of the last function before `main`, where there is one.
#[tactic(auto, using(exec_check::proofs::Shaped::functions_counted))]
fn last(checked: &Checked) -> Option<u32>
    requires { IsChecked checked.now }
    ensures { IfSome result (λ n. n < length (functions_of checked.now.program.items)) }
{
    let count = checked.functions.len();
    if 2 <= count && count <= 1000000 {
        Some((count - 2) as u32)
    } else {
        None
    }
}

// The run of the last function before `main` of a checked program on a script.
fn run_last(alloc: Global, checked: &Checked, script: &[u32]) -> Result<String, Fail>
    requires { IsChecked checked.now }
{
    let mut text = String::new(alloc);
    let Some(function) = last(checked) else {
        return Ok(text);
    };
    match run_thread(alloc, checked, function, 3, 9, script) {
        Ok(run) => write_run(&mut text, &run)?,
        Err(RunStop::ScriptShort(n)) => write!(text, "short {n}")?,
        Err(RunStop::OutOfMemory) => text.push_str("no memory")?,
    }
    Ok(text)
}

// What is told of a text, with `main` behind it, and a script.
fn told(alloc: Global, full: bool, text: &str, script: &[u32]) -> Result<String, Fail> {
    let text = format!(in alloc; "{text} int main() {{ return 0; }}")?;
    match read_program(alloc, text.as_str().as_bytes(), 2, full) {
        Ok(checked) => run_last(alloc, &checked, script),
        Err(refusal) => Ok(format!(in alloc; "{refusal:?}")?),
    }
}

fn check(rt: &impl Abort, alloc: Global, full: bool, rows: &[Row]) -> Result<(), Fail> {
    for (text, script, wanted) in rows {
        let told = told(alloc, full, text, script)?;
        assert_eq!(rt; told.as_str(), *wanted, "at {text}");
    }
    Ok(())
}

// Reads and writes of shared cells.
fn cells() -> &'static [Row] {
    &[
        (
            "int x, y, r; void f() { x = 1; r = y; }",
            &[0],
            "Start W0=1 R1=0 W2=0 End Ended 1",
        ),
        ("int x, y, r; void f() { x = 1; r = y; }", &[], "short 0"),
        (
            "int x, y, r; void f() { x = 1; r = y; }",
            &[7, 8],
            "Start W0=1 R1=7 W2=7 End Ended 1",
        ),
        (
            "int x, a[2]; void f() { a[1] = 5; }",
            &[],
            "Start W2=5 End Ended 0",
        ),
        (
            "int x, a[2]; void f() { a[2] = x; }",
            &[],
            "Start Failed at 25 0",
        ),
        (
            "int x, y; void f() { x += y; }",
            &[3, 4],
            "Start R0=3 R1=4 W0=7 End Ended 2",
        ),
        (
            "int x, y; void f() { y = x++; }",
            &[5],
            "Start R0=5 W0=6 W1=5 End Ended 1",
        ),
        (
            "int x, y; void f() { y = ++x; }",
            &[5],
            "Start R0=5 W0=6 W1=6 End Ended 1",
        ),
        (
            "int x, y, a[2]; void f() { a[x] = y; }",
            &[1, 7],
            "Start R0=1 R1=7 W3=7 End Ended 2",
        ),
        (
            "int x, y; void f() { y = x--; }",
            &[5],
            "Start R0=5 W0=4 W1=5 End Ended 1",
        ),
        (
            "int x, y; void f() { y = --x; }",
            &[0],
            "Start R0=0 W0=4294967295 W1=4294967295 End Ended 1",
        ),
    ]
}

// Operators.
fn operators() -> &'static [Row] {
    &[
        (
            "int x; void f() { x = 7 / 0; }",
            &[],
            "Start Failed at 25 0",
        ),
        (
            "int x, y, r; void f() { r = x && y; }",
            &[0],
            "Start R0=0 W2=0 End Ended 1",
        ),
        (
            "int x, y, r; void f() { r = x && y; }",
            &[2, 3],
            "Start R0=2 R1=3 W2=1 End Ended 2",
        ),
        (
            "int x, y, r; void f() { r = x || y; }",
            &[2],
            "Start R0=2 W2=1 End Ended 1",
        ),
        (
            "int x, y, r; void f() { r = x || y; }",
            &[0, 0],
            "Start R0=0 R1=0 W2=0 End Ended 2",
        ),
        (
            "int x, y, r; void f() { r = x ? 5 : y; }",
            &[1],
            "Start R0=1 W2=5 End Ended 1",
        ),
        (
            "int x, y, r; void f() { r = x ? 5 : y; }",
            &[0, 6],
            "Start R0=0 R1=6 W2=6 End Ended 2",
        ),
        (
            "int r; void f() { r = 4294967295u < 0; }",
            &[],
            "Start W0=0 End Ended 0",
        ),
        (
            "int x; void f() { x = 7 % 0; }",
            &[],
            "Start Failed at 25 0",
        ),
        (
            "int x; void f() { x = 7 % 4; }",
            &[],
            "Start W0=3 End Ended 0",
        ),
    ]
}

// Locals, calls and their arguments.
fn locals() -> &'static [Row] {
    &[
        (
            "int r; void f() { int x; r = x; }",
            &[8],
            "Start W0=8 End Ended 1",
        ),
        (
            "int r; void f() { int x[2]; r = x[1]; }",
            &[7, 8],
            "Start W0=8 End Ended 2",
        ),
        (
            "int r; void f() { pthread_t x; r = x; }",
            &[],
            "Start W0=0 End Ended 0",
        ),
        (
            "int r; void f() { int x[2] = { 5 }; r = x[0]; r = x[1]; }",
            &[],
            "Start W0=5 W0=0 End Ended 0",
        ),
        (
            "int r; void f() { int x = x; r = x; }",
            &[],
            "Start W0=0 End Ended 0",
        ),
        (
            "int x; void f() { { int x = 5; x += 1; } x = 1; }",
            &[],
            "Start W0=1 End Ended 0",
        ),
        (
            "int r; void f(int p) { r = p; }",
            &[],
            "Start W0=9 End Ended 0",
        ),
        (
            "int r; int g(int p) { return p + 1; } void f() { r = g(4); }",
            &[],
            "Start W0=5 End Ended 0",
        ),
        (
            "int r; int g() { } void f() { r = g(); }",
            &[],
            "Start W0=0 End Ended 0",
        ),
        (
            "int r; void f() { r = 1; return; r = 2; }",
            &[],
            "Start W0=1 End Ended 0",
        ),
        (
            "int x, y, r; int g(int p, int q) { return q; } void f() { r = g(x, y); }",
            &[5, 6],
            "Start R0=5 R1=6 W2=6 End Ended 2",
        ),
        (
            "int x; void g() { x = 1; } void f() { int x = 5; g(); x = 2; }",
            &[],
            "Start W0=1 End Ended 0",
        ),
    ]
}

// Loops and branches; a spent bound is not told.
fn loops() -> &'static [Row] {
    &[
        (
            "int x, r; void f() { while (x) r = 1; }",
            &[1, 1, 0],
            "Start R0=1 W1=1 R0=1 W1=1 R0=0 End Ended 3",
        ),
        (
            "int x, r; void f() { while (x) r = 1; }",
            &[1, 1, 1],
            "Start R0=1 W1=1 R0=1 W1=1 R0=1 Stopped 3",
        ),
        (
            "int x, r; void f() { while (x) r = 1; }",
            &[0],
            "Start R0=0 End Ended 1",
        ),
        (
            "int x, r; void f() { do r = 1; while (x); }",
            &[1, 0],
            "Start W1=1 R0=1 W1=1 R0=0 End Ended 2",
        ),
        (
            "int x, r; void f() { do r = 1; while (x); }",
            &[1, 1],
            "Start W1=1 R0=1 W1=1 R0=1 Stopped 2",
        ),
        (
            "int x, r; void f() { for (;;) r = 1; }",
            &[],
            "Start W1=1 W1=1 Stopped 0",
        ),
        (
            "int x, r; void f() { for (;;) { r = 1; break; } }",
            &[],
            "Start W1=1 End Ended 0",
        ),
        (
            "int x, r; void f() { for (; x; r = 2) { continue; r = 1; } }",
            &[1, 0],
            "Start R0=1 W1=2 R0=0 End Ended 2",
        ),
        (
            "int x, r; void f() { if (x) r = 1; }",
            &[0],
            "Start R0=0 End Ended 1",
        ),
        (
            "int r; void f() { __VERIFIER_atomic_begin(); for (;;) r = 1; __VERIFIER_atomic_end(); }",
            &[1],
            "Start Open W0=1 W0=1 Bad 1",
        ),
    ]
}

// Loops that use up their bound where that is told.
fn spent_loops() -> &'static [Row] {
    &[
        (
            "int x, r; void f() { while (x) r = 1; }",
            &[1, 1, 1],
            "Start R0=1 W1=1 R0=1 W1=1 R0=1 Bound at 22 3",
        ),
        (
            "int x, r; void f() { while (x) r = 1; }",
            &[1, 1, 0],
            "Start R0=1 W1=1 R0=1 W1=1 R0=0 End Ended 3",
        ),
        (
            "int x, r; void f() { do r = 1; while (x); }",
            &[1, 1],
            "Start W1=1 R0=1 W1=1 R0=1 Bound at 22 2",
        ),
        (
            "int x, r; void f() { for (;;) r = 1; }",
            &[],
            "Start W1=1 W1=1 Bound at 22 0",
        ),
        (
            "int r; void f() { __VERIFIER_atomic_begin(); for (;;) r = 1; __VERIFIER_atomic_end(); }",
            &[1],
            "Start Open W0=1 W0=1 Bound at 46 1",
        ),
    ]
}

// Choices and assertions.
fn choices() -> &'static [Row] {
    &[
        (
            "int r; void f() { r = __VERIFIER_nondet_int(); }",
            &[6],
            "Start W0=6 End Ended 1",
        ),
        (
            "int r; void f() { r = __VERIFIER_nondet_bool(); }",
            &[1],
            "Start W0=1 End Ended 1",
        ),
        (
            "int r; void f() { r = __VERIFIER_nondet_bool(); }",
            &[2],
            "Start Bad 1",
        ),
        ("void f() { assert(0); }", &[], "Start Failed at 12 0"),
        ("void f() { assert(2); }", &[], "Start End Ended 0"),
        (
            "int x; void f() { __assert_fail(\"x\", \"a.c\", 1, \"f\"); }",
            &[],
            "Start Failed at 19 0",
        ),
        (
            "int r; int assert(int p) { } void f() { r = assert(0); }",
            &[],
            "Start W0=0 End Ended 0",
        ),
        (
            "int r; void f() { r = __VERIFIER_nondet_int() < 1; }",
            &[4294967295],
            "Start W0=1 End Ended 1",
        ),
        (
            "int r; void f() { r = __VERIFIER_nondet_uint() < 1; }",
            &[4294967295],
            "Start W0=0 End Ended 1",
        ),
        ("void f() { reach_error(); }", &[], "Start Failed at 12 0"),
        (
            "void f() { __VERIFIER_error(); }",
            &[],
            "Start Failed at 12 0",
        ),
    ]
}

// What goes no further.
fn stops() -> &'static [Row] {
    &[
        (
            "int r; void f() { __VERIFIER_assume(2); r = 1; }",
            &[],
            "Start W0=1 End Ended 0",
        ),
        ("void f() { __VERIFIER_assume(0); }", &[], "Start Stopped 0"),
        (
            "void f() { __VERIFIER_atomic_begin(); __VERIFIER_assume(0); __VERIFIER_atomic_end(); }",
            &[1],
            "Start Open Bad 1",
        ),
        ("void f() { abort(); }", &[], "Start Stopped 0"),
        (
            "void f() { __VERIFIER_atomic_begin(); abort(); __VERIFIER_atomic_end(); }",
            &[1],
            "Start Open Bad 1",
        ),
        ("void f() { exit(0); }", &[], "Start Stopped 0"),
        (
            "void f() { __VERIFIER_atomic_begin(); exit(0); __VERIFIER_atomic_end(); }",
            &[1],
            "Start Open Bad 1",
        ),
    ]
}

// Sections and mutexes.
fn sections() -> &'static [Row] {
    &[
        (
            "int x; void f() { __VERIFIER_atomic_begin(); x = 1; __VERIFIER_atomic_end(); }",
            &[1],
            "Start Open W0=1 Close End Ended 1",
        ),
        (
            "int x; void f() { __VERIFIER_atomic_begin(); x = 1; __VERIFIER_atomic_end(); }",
            &[0],
            "Start Stopped 1",
        ),
        (
            "int x; void f() { __VERIFIER_atomic_begin(); x = 1; __VERIFIER_atomic_end(); }",
            &[5],
            "Start Bad 1",
        ),
        (
            "int x; void __VERIFIER_atomic_g() { x = 1; } void f() { __VERIFIER_atomic_g(); }",
            &[1],
            "Start Open W0=1 Close End Ended 1",
        ),
        (
            "pthread_mutex_t m; void f() { pthread_mutex_lock(&m); }",
            &[1, 0],
            "Start Open R0=0 W0=1 Close End Ended 2",
        ),
        (
            "pthread_mutex_t m; void f() { pthread_mutex_lock(&m); }",
            &[1, 1],
            "Start Open R0=1 Bad 2",
        ),
        (
            "pthread_mutex_t m; void f() { __VERIFIER_atomic_begin(); pthread_mutex_lock(&m); __VERIFIER_atomic_end(); }",
            &[1, 0],
            "Start Open R0=0 W0=1 Close End Ended 2",
        ),
        (
            "pthread_mutex_t m; void f() { pthread_mutex_unlock(&m); }",
            &[],
            "Start Open W0=0 Close End Ended 0",
        ),
        (
            "pthread_mutex_t m; void f() { pthread_mutex_init(&m, 0); }",
            &[],
            "Start Open W0=0 Close End Ended 0",
        ),
        (
            "pthread_mutex_t m[2]; void f() { pthread_mutex_destroy(&m[2]); }",
            &[],
            "Start Failed at 57 0",
        ),
        (
            "int x; void __VERIFIER_atomic_g() { x = 1; } void f() { __VERIFIER_atomic_begin(); __VERIFIER_atomic_g(); x = 2; __VERIFIER_atomic_end(); }",
            &[1],
            "Start Open W0=1 W0=2 Close End Ended 1",
        ),
        (
            "pthread_mutex_t m; void f() { pthread_mutex_destroy(&m); }",
            &[],
            "Start End Ended 0",
        ),
    ]
}

// Threads.
fn threads() -> &'static [Row] {
    &[
        (
            "pthread_t t; void *g(void *p) { } void f() { pthread_create(&t, 0, g, 7); pthread_create(&t, 0, &g, 8); }",
            &[],
            "Start W0=193 C193:0:7 W0=194 C194:0:8 End Ended 0",
        ),
        (
            "void f() { pthread_join(5, 0); }",
            &[1],
            "Start J5 End Ended 1",
        ),
        ("void f() { pthread_join(5, 0); }", &[0], "Start Stopped 1"),
        (
            "int x; void f() { pthread_exit(0); x = 1; }",
            &[],
            "Start End Ended 0",
        ),
        (
            "void f() { __VERIFIER_atomic_begin(); pthread_exit(0); __VERIFIER_atomic_end(); }",
            &[1],
            "Start Open Bad 1",
        ),
        (
            "void f() { __sync_synchronize(); }",
            &[],
            "Start Fence End Ended 0",
        ),
        (
            "void f() { __VERIFIER_atomic_begin(); pthread_join(5, 0); __VERIFIER_atomic_end(); }",
            &[1],
            "Start Open J5 Close End Ended 1",
        ),
    ]
}

#[test]
fn cells_and_operators(rt: HostRuntime) -> Result<(), Fail> {
    check(&rt, rt.alloc(), false, cells())?;
    check(&rt, rt.alloc(), false, operators())
}

#[test]
fn locals_and_loops(rt: HostRuntime) -> Result<(), Fail> {
    check(&rt, rt.alloc(), false, locals())?;
    check(&rt, rt.alloc(), false, loops())
}

#[test]
fn spent_bounds_are_told(rt: HostRuntime) -> Result<(), Fail> {
    check(&rt, rt.alloc(), true, spent_loops())
}

#[test]
fn built_in_calls(rt: HostRuntime) -> Result<(), Fail> {
    check(&rt, rt.alloc(), false, choices())?;
    check(&rt, rt.alloc(), false, stops())?;
    check(&rt, rt.alloc(), false, sections())?;
    check(&rt, rt.alloc(), false, threads())
}

const OPEN: &str = "((((((((((((((((((((((((((((((((((((((((((((((((((((((((((((";

const CLOSE: &str = "))))))))))))))))))))))))))))))))))))))))))))))))))))))))))))";

// A program in which so many functions call one another in a chain, each call inside sixty brackets.
fn chain(alloc: Global, count: u32) -> Result<String, Fail> {
    let mut text = String::new(alloc);
    text.push_str("int f0() { return 0; }")?;
    for i in 1..count {
        write!(text, " int f{i}() {{ return {OPEN}f{}(){CLOSE}; }}", i - 1)?;
    }
    Ok(text)
}

#[test]
fn deep_calls(rt: HostRuntime) -> Result<(), Fail> {
    let alloc = rt.alloc();
    for (count, wanted) in [(4, "Start End Ended 0"), (20, "no memory")] {
        let told = told(alloc, false, chain(alloc, count)?.as_str(), &[])?;
        assert_eq!(rt; told.as_str(), wanted, "with {count} functions");
    }
    Ok(())
}
