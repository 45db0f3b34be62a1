//! The call: a walk over the instances in order, each behind the create that names it.
ghost use Rattle.std.specs.Prelude.{◌≡◌, ◌<◌, [], ◌∷◌, length, slice_get, IfOk, OnOk};
ghost use Rattle.std.specs.List.{AllZip};
ghost use Rattle.bv_term.specs.Values.{IsConstant, Grows};
ghost use Rattle.flat_prog.specs.Shape.{IsFlat};
ghost use Rattle.ssa_form.specs.Form.{IsSsaOf};
ghost use Rattle.ssa_form.specs.States.{IsInstance, IsWalk, IsBeginListed, IsParted, IsEntered, first_term, AreFirst};

use crate::walk::{Begin, Walk};
use crate::{Ssa, SsaAct, SsaPart, SsaStep};
use bv_term::{TermId, Terms};
use dg_base::{List, OutOfMemory};
use flat_prog::{Flat, Instance};
use std::alloc::Global;

/// The single assignment form of a flat program. Each instance is created by an earlier one, so one pass knows what each begins with.
pub fn ssa(alloc: Global, flat: &Flat) -> Result<Ssa, OutOfMemory>
    requires { IsFlat flat.now }
    ensures { IfOk result (IsSsaOf flat.now) }
{
    let mut walk = start(alloc)?;
    let mut parts = List::new(alloc);
    for instance in flat.instances.as_slice() {
        let begin = nth(walk.created.as_slice(), parts.len());
        let part = part(alloc, &mut walk, instance, begin)?;
        parts.push(part)?;
    }
    let Walk { mut terms, .. } = walk;
    let initials = initials(alloc, &mut terms, flat.initials.as_slice())?;
    Ok(Ssa {
        terms,
        parts,
        initials,
    })
}

// What the thread begins with that is created as the n-th; main is the 0-th.
fn nth(created: &[Begin], n: usize) -> Begin
    requires { n < length created.now }
    ensures { slice_get created.now n ≡ Some result }
{
    created[n]
}

// Nothing is walked yet; main is created, with handle 0 and argument 0.
fn start(alloc: Global) -> Result<Walk, OutOfMemory>
    ensures walk { IfOk result IsWalk }
    ensures steps { IfOk result (λ w. w.steps ≡ []) }
    ensures created { IfOk result (λ w. w.created ≡ record { start = w.one; handle = w.zero; arg = w.zero } ∷ []) }
{
    let mut terms = Terms::new(alloc)?;
    let zero = terms.constant(0)?;
    let one = terms.constant(1)?;
    let mut created = List::new(alloc);
    created.push(Begin {
        start: one,
        handle: zero,
        arg: zero,
    })?;
    Ok(Walk {
        terms,
        zero,
        one,
        created,
        values: List::new(alloc),
        alive: zero,
        last: None,
        steps: List::new(alloc),
    })
}

// The terms of the initial values.
fn initials(alloc: Global, terms: &mut Terms, values: &[u32]) -> Result<List<TermId>, OutOfMemory>
    ensures constants { IfOk result (AllZip (λ v t. IsConstant terms.new t v) values.now) }
    ensures grows { OnOk result (Grows terms.old terms.new) }
{
    let mut initials = List::new(alloc);
    for value in values {
        let term = terms.constant(*value)?;
        initials.push(term)?;
    }
    Ok(initials)
}

// Walks an instance.
fn part(
    alloc: Global,
    walk: &mut Walk,
    instance: &Instance,
    begin: Begin,
) -> Result<SsaPart, OutOfMemory>
    requires walk { IsWalk walk.old }
    requires steps { walk.old.steps ≡ [] }
    requires fits { IsInstance instance.now }
    requires begin { IsBeginListed walk.old.terms begin }
    ensures { IfOk result (IsParted walk.old walk.new instance.now begin) }
{
    enter(alloc, walk, instance.locals, begin)?;
    for step in instance.steps.as_slice() {
        walk.step(alloc, step)?;
    }
    walk.emit(walk.alive, SsaAct::End)?;
    let steps = std::mem::replace(&mut walk.steps, List::new(alloc));
    Ok(SsaPart {
        function: instance.function,
        start: begin.start,
        handle: begin.handle,
        arg: begin.arg,
        steps,
    })
}

// Begins an instance with so many locals.
fn enter(alloc: Global, walk: &mut Walk, locals: u32, begin: Begin) -> Result<(), OutOfMemory>
    requires walk { IsWalk walk.old }
    requires steps { walk.old.steps ≡ [] }
    requires begin { IsBeginListed walk.old.terms begin }
    ensures { OnOk result (IsEntered walk.old walk.new locals begin) }
{
    walk.values = first_values(alloc, walk, locals, begin)?;
    walk.alive = begin.start;
    walk.last = None;
    walk.emit(begin.start, SsaAct::Start)
}

// The terms that the locals begin with.
fn first_values(
    alloc: Global,
    walk: &Walk,
    locals: u32,
    begin: Begin,
) -> Result<List<TermId>, OutOfMemory>
    ensures count { IfOk result (λ ts. length ts ≡ locals) }
    ensures first { IfOk result (AreFirst walk.now begin) }
{
    let mut values = List::new(alloc);
    for local in 0..locals {
        values.push(first_value(walk, local, begin))?;
    }
    Ok(values)
}

// The term that a local begins with.
fn first_value(walk: &Walk, local: u32, begin: Begin) -> TermId
    ensures { result ≡ first_term walk.now begin local }
{
    match local {
        0 => begin.arg,
        1 => begin.handle,
        2 => walk.one,
        _ => walk.zero,
    }
}
