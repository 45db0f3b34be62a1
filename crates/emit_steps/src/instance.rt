// An instance of what was emitted.
ghost use Rattle.std.specs.Prelude.{◌≡◌, IfOk};
ghost use Rattle.emit_steps.specs.Instances as instances;

use crate::emitter::ONE;
use crate::state::{Emitter, Number};
use dg_base::{List, OutOfMemory};
use flat_prog::{FlatAct, FlatStep, Instance};
use std::alloc::Global;

// The steps that put the numbers into their locals.
fn put_numbers(alloc: Global, numbers: &[Number]) -> Result<List<FlatStep>, OutOfMemory>
    ensures { IfOk result (λ steps. steps ≡ instances.put_numbers numbers.now) }
{
    let mut steps = List::new(alloc);
    for number in numbers {
        steps.push(FlatStep {
            guard: ONE,
            act: FlatAct::Put {
                to: number.local,
                value: number.value,
            },
        })?;
    }
    Ok(steps)
}

impl Emitter {
    /// The instance of a function, and the functions of the instances that it creates.
    pub fn finish(self, function: u32) -> Result<(Instance, List<u32>), OutOfMemory>
        ensures { IfOk result (λ r. (r.0 ≡ instances.instance_of function self) × (r.1 ≡ self.created)) }
    {
        let Emitter {
            alloc,
            next,
            numbers,
            steps,
            created,
            ..
        } = self;
        let mut all = put_numbers(alloc, numbers.as_slice())?;
        all.append(steps)?;
        let instance = Instance {
            function,
            locals: next,
            steps: all,
        };
        Ok((instance, created))
    }
}
