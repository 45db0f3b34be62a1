// A plain interpreter of flat programs.
ghost use Rattle.std.specs.Prelude.{◌≡◌};
ghost use Rattle.dg_base.specs.Values as table;

use axiom_model::Action;
use dg_base::{Op, Place, apply};
use flat_prog::{Flat, FlatAct, Instance};
use std::alloc::Global;
use std::test::Fail;

// How a run ends, or that the script is too short.
#[derive(Clone, Copy, Drop)]
pub enum End {
    Ended,
    Stopped,
    Bad,
    Failed(Place),
    Bound(Place),
    Short,
}

// A flat run so far.
#[derive(Drop)]
pub struct FlatRun<'a> {
    flat: &'a Flat,
    script: &'a [u32],
    values: Vec<u32>,
    pub used: usize,
    pub actions: Vec<Action>,
}

fn arity(op: Op) -> usize
    ensures { result ≡ table.arity op }
{
    match op {
        Op::Negate | Op::UnaryPlus | Op::BitNot | Op::LogicNot => 1,
        Op::Choose => 3,
        _ => 2,
    }
}

fn operate(op: Op, values: &[u32]) -> Result<u32, Fail> {
    if values.len() == arity(op) {
        Ok(apply(op, values))
    } else {
        Err(Fail::from("not as many arguments as the operator takes"))
    }
}

fn failure(place: Place, tag: u8) -> End {
    if tag == 0 {
        End::Failed(place)
    } else {
        End::Bound(place)
    }
}

impl<'a> FlatRun<'a> {
    fn value(&self, local: u32) -> Result<u32, Fail> {
        Ok(
            *self
                .values
                .as_slice()
                .get(local as usize)
                .ok_or("no such local")?,
        )
    }

    fn put(&mut self, local: u32, value: u32) -> Result<(), Fail> {
        let local = local as usize;
        if local < self.values.len() {
            self.values.as_mut_slice()[local] = value;
            Ok(())
        } else {
            Err(Fail::from("no such local"))
        }
    }

    fn take(&mut self) -> Option<u32> {
        let value = *self.script.get(self.used)?;
        self.used = self.used.saturating_add(1);
        Some(value)
    }

    fn operator(&mut self, alloc: Global, to: u32, op: Op, args: &[u32]) -> Result<(), Fail> {
        let mut values = Vec::new(alloc);
        for arg in args {
            values.push(self.value(*arg)?)?;
        }
        let value = operate(op, values.as_slice())?;
        self.put(to, value)
    }

    fn create(&mut self, instance: u32, handle: u32, arg: u32) -> Result<(), Fail> {
        let named = self.flat.instances.as_slice().get(instance as usize);
        let function = named.ok_or("no such instance")?.function;
        let handle = self.value(handle)?;
        let arg = self.value(arg)?;
        self.actions.push(Action::Create {
            handle,
            function,
            arg,
        })?;
        Ok(())
    }

    fn take_into(&mut self, to: u32, cell: Option<u32>) -> Result<Option<End>, Fail> {
        let Some(value) = self.take() else {
            return Ok(Some(End::Short));
        };
        self.put(to, value)?;
        if let Some(cell) = cell {
            self.actions.push(Action::Read { cell, value })?;
        }
        Ok(None)
    }

    fn make(&mut self, action: Action) -> Result<Option<End>, Fail> {
        self.actions.push(action)?;
        Ok(None)
    }

    // One step that is made; how the run ends there, if it does.
    fn act(&mut self, alloc: Global, act: &FlatAct) -> Result<Option<End>, Fail> {
        match act {
            FlatAct::Set { to, op, args } => {
                self.operator(alloc, *to, *op, args.as_slice())?;
                Ok(None)
            }
            FlatAct::Put { to, value } => {
                self.put(*to, *value)?;
                Ok(None)
            }
            FlatAct::Take { to } => self.take_into(*to, None),
            FlatAct::Read { cell, to } => self.take_into(*to, Some(*cell)),
            FlatAct::Write { cell, from } => {
                let value = self.value(*from)?;
                self.make(Action::Write { cell: *cell, value })
            }
            FlatAct::Open => self.make(Action::Open),
            FlatAct::Close => self.make(Action::Close),
            FlatAct::Fence => self.make(Action::Fence),
            FlatAct::Create {
                instance,
                handle,
                arg,
            } => {
                self.create(*instance, *handle, *arg)?;
                Ok(None)
            }
            FlatAct::Join { from } => {
                let handle = self.value(*from)?;
                self.make(Action::Join { handle })
            }
            FlatAct::End => {
                self.actions.push(Action::End)?;
                Ok(Some(End::Ended))
            }
            FlatAct::Stop => Ok(Some(End::Stopped)),
            FlatAct::Bad => Ok(Some(End::Bad)),
            FlatAct::Fail { place, tag } => Ok(Some(failure(*place, *tag))),
        }
    }

    fn steps(&mut self, alloc: Global, instance: &Instance) -> Result<End, Fail> {
        for step in instance.steps.as_slice() {
            if self.value(step.guard)? != 0 {
                if let Some(end) = self.act(alloc, &step.act)? {
                    return Ok(end);
                }
            }
        }
        self.actions.push(Action::End)?;
        Ok(End::Ended)
    }
}

// What an instance does on a script.
pub fn run_flat<'a>(
    alloc: Global,
    flat: &'a Flat,
    instance: &'a Instance,
    handle: u32,
    arg: u32,
    script: &'a [u32],
) -> Result<(FlatRun<'a>, End), Fail> {
    let mut run = FlatRun {
        flat,
        script,
        values: Vec::from_elem(alloc, 0, instance.locals as usize)?,
        used: 0,
        actions: Vec::new(alloc),
    };
    run.put(0, arg)?;
    run.put(1, handle)?;
    run.put(2, 1)?;
    run.actions.push(Action::Start)?;
    let end = run.steps(alloc, instance)?;
    Ok((run, end))
}
