// The walk over the steps of an instance: a term for each local, one for "the run goes on", and what has been made of them so far.
ghost use Rattle.std.specs.Prelude.{◌≡◌, ◌<◌, true, length, All, IfOk, OnOk};
ghost use Rattle.dg_base.specs.Values.{arity};
ghost use Rattle.bv_term.specs.Values.{IsListed};
ghost use Rattle.ssa_form.specs.Walks.{act_by as act_by_spec, target as target_spec, is_end as is_end_spec};
ghost use Rattle.ssa_form.specs.States.{HasLocals, IsWithin, IsWalk, IsGuard, IsGuardOf, IsApplied, AreNamed, IsChanged, IsFinished, IsLeft, IsStepped, noted};

use crate::{SsaAct, SsaStep};
use bv_term::{TermId, Terms};
use dg_base::{List, Op, OutOfMemory};
use flat_prog::{FlatAct, FlatStep};
use std::alloc::Global;

// What a thread begins with: 1 where it is created, its handle, its argument.
#[derive(Debug, Clone, Copy, Drop)]
pub(crate) struct Begin {
    pub start: TermId,
    pub handle: TermId,
    pub arg: TermId,
}

// A guard: 1 where the local is not 0, and 1 where a step under it is made.
#[derive(Debug, Clone, Copy, Drop)]
pub(crate) struct Guard {
    pub local: u32,
    pub holds: TermId,
    pub made: TermId,
}

// The terms that stand for an act's values; an act that has fewer repeats the constant 0.
#[derive(Debug, Clone, Copy, Drop)]
pub(crate) struct Named {
    pub first: TermId,
    pub second: TermId,
}

// The state of the walk. Guards are made once as long as nothing that they rest on changes.
#[derive(Debug, Drop)]
pub(crate) struct Walk {
    pub terms: Terms,
    pub zero: TermId,
    pub one: TermId,
    // What each thread that was created so far begins with, in the order of the creates, main's first.
    pub created: List<Begin>,
    // The term of each local.
    pub values: List<TermId>,
    // 1 while the run goes on.
    pub alive: TermId,
    pub last: Option<Guard>,
    pub steps: List<SsaStep>,
}

impl Walk {
    // Makes the next step of the instance.
    pub(crate) fn step(&mut self, alloc: Global, step: &FlatStep) -> Result<(), OutOfMemory>
        requires walk { IsWalk self.old }
        requires fits { IsWithin (length self.old.values) step.now }
        ensures { OnOk result (IsStepped self.old self.new step.now) }
    {
        let guard = self.guard(step.guard)?;
        let named = self.named(alloc, &step.act)?;
        self.make(guard, &step.act, named)?;
        self.change(guard, &step.act, named.first)?;
        self.leave(guard, &step.act)
    }

    // The guard that looks at this local.
    fn guard(&mut self, local: u32) -> Result<Guard, OutOfMemory>
        requires walk { IsWalk self.old }
        requires local { local < length self.old.values }
        ensures { IfOk result (IsGuardOf self.old self.new local) }
    {
        if let Some(guard) = self.last
            && guard.local == local
        {
            return Ok(guard);
        }
        let value = self.values.as_slice()[local as usize];
        let holds = self.terms.make(Op::NotEqual, &[value, self.zero])?;
        let made = self
            .terms
            .make(Op::Choose, &[self.alive, holds, self.zero])?;
        let guard = Guard { local, holds, made };
        self.last = Some(guard);
        Ok(guard)
    }

    // The terms of what the act does.
    fn named(&mut self, alloc: Global, act: &FlatAct) -> Result<Named, OutOfMemory>
        requires walk { IsWalk self.old }
        requires fits { HasLocals (length self.old.values) act.now }
        ensures { IfOk result (AreNamed self.old self.new act.now) }
    {
        match act {
            FlatAct::Set { to: _, op, args } => {
                let first = self.applied(alloc, *op, args.as_slice())?;
                Ok(Named {
                    first,
                    second: self.zero,
                })
            }
            FlatAct::Put { to: _, value } => {
                let first = self.terms.constant(*value)?;
                Ok(Named {
                    first,
                    second: self.zero,
                })
            }
            FlatAct::Take { to: _ } | FlatAct::Read { cell: _, to: _ } => {
                let first = self.terms.input()?;
                Ok(Named {
                    first,
                    second: self.zero,
                })
            }
            FlatAct::Write { cell: _, from } | FlatAct::Join { from } => Ok(Named {
                first: self.values.as_slice()[*from as usize],
                second: self.zero,
            }),
            FlatAct::Create {
                instance: _,
                handle,
                arg,
            } => {
                let locals = self.values.as_slice();
                Ok(Named {
                    first: locals[*handle as usize],
                    second: locals[*arg as usize],
                })
            }
            _ => Ok(Named {
                first: self.zero,
                second: self.zero,
            }),
        }
    }

    // The operator's term of these locals.
    fn applied(&mut self, alloc: Global, op: Op, args: &[u32]) -> Result<TermId, OutOfMemory>
        requires walk { IsWalk self.old }
        requires arguments { length args.now ≡ arity op }
        requires locals { All (λ a. a < length self.old.values) args.now }
        ensures { IfOk result (IsApplied self.old self.new op args.now) }
    {
        let mut terms = List::new(alloc);
        for arg in args {
            let value = self.values.as_slice()[*arg as usize];
            terms.push(value)?;
        }
        self.terms.make(op, terms.as_slice())
    }

    // Makes the step that the act is, if it is one.
    fn make(&mut self, guard: Guard, act: &FlatAct, named: Named) -> Result<(), OutOfMemory>
        ensures { OnOk result (self.new ≡ noted self.old guard.made (act_by_spec act.now named)) }
    {
        match act_by(act, named) {
            Some(act) => self.emit(guard.made, act),
            None => Ok(()),
        }
    }

    // Changes the local that the act changes, if there is one.
    fn change(&mut self, guard: Guard, act: &FlatAct, term: TermId) -> Result<(), OutOfMemory>
        requires walk { IsWalk self.old }
        requires last { self.old.last ≡ Some guard }
        requires fits { HasLocals (length self.old.values) act.now }
        requires term { IsListed self.old.terms term }
        ensures { OnOk result (IsChanged self.old self.new guard (target_spec act.now) term) }
    {
        match target(act) {
            Some(to) => self.assign(guard, to, term),
            None => Ok(()),
        }
    }

    // The run is over behind an act that ends it.
    fn leave(&mut self, guard: Guard, act: &FlatAct) -> Result<(), OutOfMemory>
        requires walk { IsWalk self.old }
        requires guard { is_end_spec act.now ≡ true → IsGuard self.old guard }
        ensures { OnOk result (IsLeft self.old self.new guard act.now) }
    {
        if is_end(act) {
            self.finish(guard)
        } else {
            Ok(())
        }
    }

    // Puts a step behind the others, and notes whom it creates.
    pub(crate) fn emit(&mut self, guard: TermId, act: SsaAct) -> Result<(), OutOfMemory>
        ensures { OnOk result (self.new ≡ noted self.old guard (Some act)) }
    {
        if let SsaAct::Create {
            instance: _,
            handle,
            arg,
        } = act
        {
            let start = guard;
            self.created.push(Begin { start, handle, arg })?;
        }
        self.steps.push(SsaStep { guard, act })?;
        Ok(())
    }

    // The local becomes the term's value where the guard holds.
    fn assign(&mut self, guard: Guard, to: u32, term: TermId) -> Result<(), OutOfMemory>
        requires walk { IsWalk self.old }
        requires last { self.old.last ≡ Some guard }
        requires to { to < length self.old.values }
        requires term { IsListed self.old.terms term }
        ensures { OnOk result (IsChanged self.old self.new guard (Some to) term) }
    {
        let old = self.values.as_slice()[to as usize];
        let value = self.terms.make(Op::Choose, &[guard.holds, term, old])?;
        self.values.set(to as usize, value);
        if guard.local == to {
            self.last = None;
        }
        Ok(())
    }

    // The run is over where the guard holds.
    fn finish(&mut self, guard: Guard) -> Result<(), OutOfMemory>
        requires walk { IsWalk self.old }
        requires guard { IsGuard self.old guard }
        ensures { OnOk result (IsFinished self.old self.new guard) }
    {
        self.alive = self
            .terms
            .make(Op::Choose, &[guard.holds, self.zero, self.alive])?;
        self.last = None;
        Ok(())
    }
}

// What an act is in single assignment; nothing, where it only changes a local.
fn act_by(act: &FlatAct, named: Named) -> Option<SsaAct>
    ensures { result ≡ act_by_spec act.now named }
{
    let Named { first, second } = named;
    match act {
        FlatAct::Set { .. } | FlatAct::Put { .. } => None,
        FlatAct::Take { to: _ } => Some(SsaAct::Take(first)),
        FlatAct::Read { cell, to: _ } => Some(SsaAct::Read {
            cell: *cell,
            value: first,
        }),
        FlatAct::Write { cell, from: _ } => Some(SsaAct::Write {
            cell: *cell,
            value: first,
        }),
        FlatAct::Open => Some(SsaAct::Open),
        FlatAct::Close => Some(SsaAct::Close),
        FlatAct::Fence => Some(SsaAct::Fence),
        FlatAct::Create { instance, .. } => Some(SsaAct::Create {
            instance: *instance,
            handle: first,
            arg: second,
        }),
        FlatAct::Join { from: _ } => Some(SsaAct::Join { handle: first }),
        FlatAct::End => Some(SsaAct::End),
        FlatAct::Stop => Some(SsaAct::Stop),
        FlatAct::Bad => Some(SsaAct::Bad),
        FlatAct::Fail { place, tag } => Some(SsaAct::Fail {
            place: *place,
            tag: *tag,
        }),
    }
}

// The local that an act changes.
fn target(act: &FlatAct) -> Option<u32>
    ensures { result ≡ target_spec act.now }
{
    match act {
        FlatAct::Set { to, .. }
        | FlatAct::Put { to, .. }
        | FlatAct::Take { to }
        | FlatAct::Read { to, .. } => Some(*to),
        _ => None,
    }
}

// Whether a run is over behind the act.
fn is_end(act: &FlatAct) -> bool
    ensures { result ≡ is_end_spec act.now }
{
    match act {
        FlatAct::End | FlatAct::Stop | FlatAct::Bad | FlatAct::Fail { .. } => true,
        _ => false,
    }
}
