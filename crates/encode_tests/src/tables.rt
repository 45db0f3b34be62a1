// Programs beside what is known of them.
use crate::search::is_consistent;
use axiom_model::MemoryModel;
use c_program::read_program;
use encode::encode;
use std::alloc::Global;
use std::process::Abort;
use std::test::Fail;

// A program, and whether it fails under SC, TSO and PSO.
type Row = (&'static str, [bool; 3]);

const STORE_BUFFERING: Row = (
    "int x, y, a, b; void *f(void *p) { x = 1; a = y; return 0; } void *g(void *p) { y = 1; b = x; return 0; } int main() { pthread_t t, u; pthread_create(&t, 0, f, 0); pthread_create(&u, 0, g, 0); pthread_join(t, 0); pthread_join(u, 0); assert(a || b); return 0; }",
    [false, true, true],
);

const MESSAGE_PASSING: Row = (
    "int x, y; void *f(void *p) { x = 1; y = 1; return 0; } int main() { pthread_t t; pthread_create(&t, 0, f, 0); if (y) assert(x); pthread_join(t, 0); return 0; }",
    [false, false, true],
);

const ONE_WRITE: Row = (
    "int x; void *f(void *p) { x = 1; return 0; } int main() { pthread_t t; pthread_create(&t, 0, f, 0); assert(x == 0); pthread_join(t, 0); return 0; }",
    [true, true, true],
);

const JOINED: Row = (
    "int x; void *f(void *p) { x = 1; return 0; } int main() { pthread_t t; pthread_create(&t, 0, f, 0); pthread_join(t, 0); assert(x == 1); return 0; }",
    [false, false, false],
);

// Whether a program's problem under the model has a consistent assignment is as it is known.
fn check_model(
    rt: &impl Abort,
    alloc: Global,
    text: &str,
    model: MemoryModel,
    fails: bool,
) -> Result<(), Fail> {
    let checked = read_program(alloc, text.as_bytes(), 1, false)?;
    let encoded = encode(alloc, &checked, model)?;
    let found = is_consistent(alloc, &encoded.problem)?;
    assert_eq!(rt; found, Some(fails), "at {text}");
    Ok(())
}

fn check_row(rt: &impl Abort, alloc: Global, row: Row) -> Result<(), Fail> {
    let (text, [sc, tso, pso]) = row;
    check_model(rt, alloc, text, MemoryModel::Sc, sc)?;
    check_model(rt, alloc, text, MemoryModel::Tso, tso)?;
    check_model(rt, alloc, text, MemoryModel::Pso, pso)
}

#[test]
fn one_write(rt: HostRuntime) -> Result<(), Fail> {
    check_row(&rt, rt.alloc(), ONE_WRITE)
}

#[test]
fn a_joined_write(rt: HostRuntime) -> Result<(), Fail> {
    check_row(&rt, rt.alloc(), JOINED)
}

#[test]
fn message_passing(rt: HostRuntime) -> Result<(), Fail> {
    check_row(&rt, rt.alloc(), MESSAGE_PASSING)
}

#[test]
fn store_buffering_under_sc(rt: HostRuntime) -> Result<(), Fail> {
    let (text, [fails, _, _]) = STORE_BUFFERING;
    check_model(&rt, rt.alloc(), text, MemoryModel::Sc, fails)
}

#[test]
fn store_buffering_under_tso(rt: HostRuntime) -> Result<(), Fail> {
    let (text, [_, fails, _]) = STORE_BUFFERING;
    check_model(&rt, rt.alloc(), text, MemoryModel::Tso, fails)
}

#[test]
fn store_buffering_under_pso(rt: HostRuntime) -> Result<(), Fail> {
    let (text, [_, _, fails]) = STORE_BUFFERING;
    check_model(&rt, rt.alloc(), text, MemoryModel::Pso, fails)
}
