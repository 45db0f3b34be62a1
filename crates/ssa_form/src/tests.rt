ghost use Rattle.std.specs.Prelude.{◌≡◌, ◌≤◌, IfOk};
ghost use Rattle.dg_base.specs.Values.{arity as arity_spec};
ghost use Rattle.flat_prog.specs.Shape.{IsFlat};

use crate::assign::ssa;
use crate::{SsaAct, SsaPart, SsaStep};
use bv_term::{Term, TermId};
use dg_base::{List, Op, Place, apply};
use flat_prog::{Flat, FlatAct, FlatStep, Instance};
use std::alloc::Global;
use std::process::Abort;
use std::test::Fail;

// How many arguments an operator has.
fn arity(op: Op) -> usize
    ensures value { result ≡ arity_spec op }
    ensures few { result ≤ 3 }
{
    match op {
        Op::Negate | Op::UnaryPlus | Op::BitNot | Op::LogicNot => 1,
        Op::Choose => 3,
        _ => 2,
    }
}

// The value of a term, from those of the terms before it.
fn value_at(values: &[u32], term: TermId) -> Result<u32, Fail> {
    Ok(values.get(term.0 as usize).copied().ok_or("no such term")?)
}

// The values of all terms, where the inputs in turn have these values.
fn values(alloc: Global, terms: &[Term], inputs: &[u32]) -> Result<List<u32>, Fail> {
    let mut values = List::new(alloc);
    let mut next = inputs.iter();
    for term in terms {
        let value = match *term {
            Term::Input => *next.next().ok_or("more inputs than values")?,
            Term::Constant(value) => value,
            Term::Apply(op, a, b, c) => {
                let before = values.as_slice();
                let args = [
                    value_at(before, a)?,
                    value_at(before, b)?,
                    value_at(before, c)?,
                ];
                apply(op, &args[..arity(op)])
            }
        };
        values.push(value)?;
    }
    Ok(values)
}

// The values of the guards.
fn guards(alloc: Global, values: &[u32], steps: &[SsaStep]) -> Result<List<u32>, Fail> {
    let mut guards = List::new(alloc);
    for step in steps {
        guards.push(value_at(values, step.guard)?)?;
    }
    Ok(guards)
}

// The value of what is taken, written, created or joined, or that is 0.
fn told(values: &[u32], act: SsaAct) -> Result<u32, Fail> {
    match act {
        SsaAct::Take(value) | SsaAct::Read { cell: _, value } | SsaAct::Write { cell: _, value } =>
            { value_at(values, value) }
        SsaAct::Create {
            instance: _,
            handle: _,
            arg,
        } => value_at(values, arg),
        SsaAct::Join { handle } => value_at(values, handle),
        _ => Ok(0),
    }
}

fn told_all(alloc: Global, values: &[u32], steps: &[SsaStep]) -> Result<List<u32>, Fail> {
    let mut all = List::new(alloc);
    for step in steps {
        all.push(told(values, step.act)?)?;
    }
    Ok(all)
}

macro_rules! step {
    ($guard:expr, $act:expr) => {
        FlatStep {
            guard: $guard,
            act: $act,
        }
    };
}

// int a; a thread is created where a is not 0, and joined; main fails where y + a is 1:
//
//     a = *; if (a) create(thread, a); x = 1; b = y; if (a) c = b + a; assert(c != 1); join(1);
//     thread(n): if (n) y = n; d = x; stop
fn two_threads(alloc: Global) -> Result<Flat, Fail>
    ensures { IfOk result IsFlat }
{
    let sum = List::from_vec(vec![in alloc; 5, 3]?);
    let test = List::from_vec(vec![in alloc; 6, 2]?);
    let main = List::from_vec(vec![in alloc;
        step!(2, FlatAct::Take { to: 3 }),
        step!(2, FlatAct::Put { to: 4, value: 1 }),
        step!(
            3,
            FlatAct::Create {
                instance: 1,
                handle: 4,
                arg: 3
            }
        ),
        step!(2, FlatAct::Write { cell: 0, from: 2 }),
        step!(2, FlatAct::Read { cell: 1, to: 5 }),
        step!(
            3,
            FlatAct::Set {
                to: 6,
                op: Op::Plus,
                args: sum
            }
        ),
        step!(
            2,
            FlatAct::Set {
                to: 7,
                op: Op::Equal,
                args: test
            }
        ),
        step!(
            7,
            FlatAct::Fail {
                place: Place { line: 3, col: 5 },
                tag: 0
            }
        ),
        step!(2, FlatAct::Join { from: 4 }),
    ]?);
    let thread = List::from_vec(vec![in alloc;
        step!(0, FlatAct::Write { cell: 1, from: 0 }),
        step!(2, FlatAct::Read { cell: 0, to: 3 }),
        step!(2, FlatAct::Stop),
        step!(2, FlatAct::Fence),
    ]?);
    let instances = List::from_vec(vec![in alloc;
        Instance {
            function: 0,
            locals: 8,
            steps: main
        },
        Instance {
            function: 1,
            locals: 4,
            steps: thread
        },
    ]?);
    let initials = List::from_vec(vec![in alloc; 0, 7]?);
    Ok(Flat {
        instances,
        initials,
    })
}

// A section that adds 1 to a cell.
fn counter(alloc: Global) -> Result<Flat, Fail>
    ensures { IfOk result IsFlat }
{
    let sum = List::from_vec(vec![in alloc; 3, 2]?);
    let main = List::from_vec(vec![in alloc;
        step!(2, FlatAct::Open),
        step!(2, FlatAct::Read { cell: 0, to: 3 }),
        step!(
            2,
            FlatAct::Set {
                to: 4,
                op: Op::Plus,
                args: sum
            }
        ),
        step!(2, FlatAct::Write { cell: 0, from: 4 }),
        step!(2, FlatAct::Close),
    ]?);
    let instances = List::from_vec(vec![in alloc;
        Instance {
            function: 0,
            locals: 5,
            steps: main
        },
    ]?);
    let initials = List::from_vec(vec![in alloc; 3]?);
    Ok(Flat {
        instances,
        initials,
    })
}

// What the parts do where the inputs have these values: the guards, and what goes with each step.
fn assert_part(
    rt: &impl Abort,
    alloc: Global,
    terms: &[Term],
    part: &SsaPart,
    inputs: &[u32],
    made: &[u32],
    numbers: &[u32],
) -> Result<(), Fail> {
    let values = values(alloc, terms, inputs)?;
    let guards = guards(alloc, values.as_slice(), part.steps.as_slice())?;
    assert_eq!(rt; guards.as_slice(), made);
    let told = told_all(alloc, values.as_slice(), part.steps.as_slice())?;
    assert_eq!(rt; told.as_slice(), numbers);
    Ok(())
}

#[test]
fn a_thread_is_created_and_main_comes_to_its_end(rt: HostRuntime) -> Result<(), Fail> {
    let form = ssa(rt.alloc(), &two_threads(rt.alloc())?)?;
    let terms = form.terms.as_slice();
    let main = form.parts.get(0).ok_or("no main")?;
    let thread = form.parts.get(1).ok_or("no thread")?;
    let inputs = [5, 7, 1];
    assert_part(
        &rt,
        rt.alloc(),
        terms,
        main,
        &inputs,
        &[1, 1, 1, 1, 1, 0, 1, 1],
        &[0, 5, 5, 1, 7, 0, 1, 0],
    )?;
    assert_part(
        &rt,
        rt.alloc(),
        terms,
        thread,
        &inputs,
        &[1, 1, 1, 1, 0, 0],
        &[0, 5, 1, 0, 0, 0],
    )
}

#[test]
fn a_thread_is_not_created_and_no_step_of_it_is_made(rt: HostRuntime) -> Result<(), Fail> {
    let form = ssa(rt.alloc(), &two_threads(rt.alloc())?)?;
    let terms = form.terms.as_slice();
    let main = form.parts.get(0).ok_or("no main")?;
    let thread = form.parts.get(1).ok_or("no thread")?;
    let inputs = [0, 1, 0];
    assert_part(
        &rt,
        rt.alloc(),
        terms,
        main,
        &inputs,
        &[1, 1, 0, 1, 1, 0, 1, 1],
        &[0, 0, 0, 1, 1, 0, 1, 0],
    )?;
    assert_part(
        &rt,
        rt.alloc(),
        terms,
        thread,
        &inputs,
        &[0, 0, 0, 0, 0, 0],
        &[0, 0, 0, 0, 0, 0],
    )
}

#[test]
fn main_fails_and_makes_no_step_behind(rt: HostRuntime) -> Result<(), Fail> {
    let form = ssa(rt.alloc(), &two_threads(rt.alloc())?)?;
    let terms = form.terms.as_slice();
    let main = form.parts.get(0).ok_or("no main")?;
    let thread = form.parts.get(1).ok_or("no thread")?;
    let inputs = [1, 0, 9];
    assert_part(
        &rt,
        rt.alloc(),
        terms,
        main,
        &inputs,
        &[1, 1, 1, 1, 1, 1, 0, 0],
        &[0, 1, 1, 1, 0, 0, 1, 0],
    )?;
    assert_part(
        &rt,
        rt.alloc(),
        terms,
        thread,
        &inputs,
        &[1, 1, 1, 1, 0, 0],
        &[0, 1, 9, 0, 0, 0],
    )
}

#[test]
fn handles_of_straight_code_are_constants(rt: HostRuntime) -> Result<(), Fail> {
    let form = ssa(rt.alloc(), &two_threads(rt.alloc())?)?;
    let thread = form.parts.get(1).ok_or("no thread")?;
    let handle = form.terms.as_slice().get(thread.handle.0 as usize).copied();
    assert_eq!(rt; handle, Some(Term::Constant(1)));
    Ok(())
}

// The numbers 0 and 1, the guard that holds and the one under which steps are made, the number that is read, the sum, and the cell's
// first value.
#[test]
fn a_section_takes_no_more_terms_than_it_needs(rt: HostRuntime) -> Result<(), Fail> {
    let form = ssa(rt.alloc(), &counter(rt.alloc())?)?;
    let terms = form.terms.as_slice();
    let main = form.parts.get(0).ok_or("no main")?;
    assert_part(
        &rt,
        rt.alloc(),
        terms,
        main,
        &[3],
        &[1, 1, 1, 1, 1, 1],
        &[0, 0, 3, 4, 0, 0],
    )?;
    assert_eq!(rt; terms.len(), 7);
    Ok(())
}
