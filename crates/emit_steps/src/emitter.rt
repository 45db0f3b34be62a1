// The simplest emissions.
ghost use Rattle.std.specs.Prelude.{◌≡◌, ◌+◌, None, IfOk};
ghost use Rattle.emit_steps.specs.Emitting as emitting;
ghost use Rattle.emit_steps.specs.Emitting.{Emits};
ghost use Rattle.emit_steps.specs.Pieces as pieces;

use crate::state::{Emitter, Number};
use dg_base::{List, Op, OutOfMemory, Place};
use flat_prog::{FlatAct, FlatStep};

/// The local that holds the thread's own handle.
pub const OWN_HANDLE: u32 = 1;

/// The local that holds 1.
pub const ONE: u32 = 2;

/// The local that holds 0.
pub const NONE: u32 = 3;

/// The local that holds the number of creates done.
pub const CREATES: u32 = 4;

/// An instance with more steps or locals than this is refused as want of memory.
pub const MOST: u32 = 16777215;

/// What a step or a local costs, in units of work.
pub const ENTRY: u64 = 64;

/// What a form that is met costs, in units of work.
const FORM: u64 = 16;

/// How many bytes of a name are read or copied for a unit of work.
const NAME_BYTES: u64 = 16;

impl Emitter {
    /// So many units of work are done, or all that were left.
    pub fn spend(&self, units: u64) {
        self.left.set(self.left.get().saturating_sub(units));
    }

    /// A name is looked for among so many entries, each of which may have to be read as far as the name is long.
    pub fn look_for(&self, name: &[u8], entries: usize) {
        let each = (name.len() as u64 / NAME_BYTES).saturating_add(1);
        self.spend(each.saturating_mul(entries as u64));
    }

    // A name is copied.
    pub(crate) fn copy_name(&self, name: &[u8]) {
        self.spend(name.len() as u64 / NAME_BYTES);
    }

    /// How many forms may still stand inside one another, one form further in. Want of memory also where no work is left.
    pub fn inner(&self, room: usize) -> Result<usize, OutOfMemory>
        ensures { IfOk result (λ r. r + 1 ≡ room) }
    {
        if room == 0 || self.left.get() == 0 {
            return Err(OutOfMemory);
        }
        self.spend(FORM);
        Ok(room - 1)
    }

    /// So many locals that were not used; the answer is the first.
    pub fn fresh_cells(&mut self, count: u32) -> Result<u32, OutOfMemory>
        ensures { Emits result self.new (emitting.fresh_cells count self.old) }
    {
        self.spend(ENTRY * count as u64);
        let first = self.next;
        match first.checked_add(count) {
            Some(next) if next <= MOST => {
                self.next = next;
                Ok(first)
            }
            _ => Err(OutOfMemory),
        }
    }

    /// A local that was not used.
    pub fn fresh(&mut self) -> Result<u32, OutOfMemory>
        ensures { Emits result self.new (emitting.fresh self.old) }
    {
        self.fresh_cells(1)
    }

    // The local that holds a number, where there is one.
    fn holder(&self, value: u32) -> Option<u32>
        ensures { result ≡ emitting.holder_in self.now.numbers value }
    {
        for number in self.numbers.as_slice() {
            if number.value == value {
                return Some(number.local);
            }
        }
        None
    }

    // A new local that holds a number throughout.
    fn hold_new(&mut self, value: u32) -> Result<u32, OutOfMemory>
        ensures { Emits result self.new (emitting.hold value None self.old) }
    {
        let local = self.fresh()?;
        self.numbers.push(Number { value, local })?;
        Ok(local)
    }

    /// The local that holds a number throughout.
    pub fn number(&mut self, value: u32) -> Result<u32, OutOfMemory>
        ensures { Emits result self.new (emitting.number value self.old) }
    {
        if value == 0 {
            return Ok(NONE);
        }
        if value == 1 {
            return Ok(ONE);
        }
        self.spend(self.numbers.len() as u64);
        match self.holder(value) {
            Some(local) => Ok(local),
            None => self.hold_new(value),
        }
    }

    /// A step under a guard. Want of memory also where no work is left.
    pub fn emit(&mut self, guard: u32, act: FlatAct) -> Result<(), OutOfMemory>
        ensures { Emits result self.new (emitting.emit guard act self.old) }
    {
        self.spend(ENTRY);
        if MOST as usize <= self.steps.len() || self.left.get() == 0 {
            return Err(OutOfMemory);
        }
        self.steps.push(FlatStep { guard, act })?;
        Ok(())
    }

    /// A local becomes an operator's value, under a guard.
    pub fn set_to(&mut self, guard: u32, to: u32, op: Op, args: &[u32]) -> Result<(), OutOfMemory>
        ensures { Emits result self.new (emitting.emit guard (FlatAct.Set to op args.now) self.old) }
    {
        let args = List::from_slice(self.alloc, args)?;
        self.emit(guard, FlatAct::Set { to, op, args })
    }

    /// A new local with an operator's value, under a guard; 0 elsewhere.
    pub fn set(&mut self, guard: u32, op: Op, args: &[u32]) -> Result<u32, OutOfMemory>
        ensures { Emits result self.new (emitting.set guard op args.now self.old) }
    {
        let to = self.fresh()?;
        self.set_to(guard, to, op, args)?;
        Ok(to)
    }

    /// A local becomes the value of another one, under a guard.
    pub fn copy_to(&mut self, guard: u32, to: u32, from: u32) -> Result<(), OutOfMemory>
        ensures { Emits result self.new (emitting.copy_to guard to from self.old) }
    {
        self.set_to(guard, to, Op::UnaryPlus, &[from])
    }

    /// A new local with the value of another one, under a guard.
    pub fn copy(&mut self, guard: u32, from: u32) -> Result<u32, OutOfMemory>
        ensures { Emits result self.new (emitting.copy guard from self.old) }
    {
        self.set(guard, Op::UnaryPlus, &[from])
    }

    /// A local becomes 1, under a guard.
    pub fn mark(&mut self, guard: u32, to: u32) -> Result<(), OutOfMemory>
        ensures { Emits result self.new (emitting.mark guard to self.old) }
    {
        self.emit(guard, FlatAct::Put { to, value: 1 })
    }

    /// The guard, where a value is not 0.
    pub fn when(&mut self, guard: u32, value: u32) -> Result<u32, OutOfMemory>
        ensures { Emits result self.new (emitting.when guard value self.old) }
    {
        self.set(guard, Op::NotEqual, &[value, NONE])
    }

    /// The guard, where a value is 0.
    pub fn unless(&mut self, guard: u32, value: u32) -> Result<u32, OutOfMemory>
        ensures { Emits result self.new (emitting.unless guard value self.old) }
    {
        self.set(guard, Op::Equal, &[value, NONE])
    }

    /// A guard for where control comes from two places.
    pub fn join_guards(&mut self, a: u32, b: u32) -> Result<u32, OutOfMemory>
        ensures { Emits result self.new (emitting.join_guards a b self.old) }
    {
        let both = self.fresh()?;
        self.mark(a, both)?;
        self.mark(b, both)?;
        Ok(both)
    }

    /// The run fails at this place.
    pub fn fail(&mut self, guard: u32, place: Place) -> Result<(), OutOfMemory>
        ensures { Emits result self.new (emitting.fail guard place self.old) }
    {
        self.emit(guard, FlatAct::Fail { place, tag: 0 })
    }

    /// The run goes no further: outside a section it has stopped, inside it is Bad.
    pub fn stop(&mut self, guard: u32) -> Result<(), OutOfMemory>
        ensures { Emits result self.new (emitting.stop guard self.old) }
    {
        if self.depth == 0 {
            self.emit(guard, FlatAct::Stop)
        } else {
            self.emit(guard, FlatAct::Bad)
        }
    }

    /// The run goes no further; the answer is the local that holds 0.
    pub fn stop_without(&mut self, guard: u32) -> Result<u32, OutOfMemory>
        ensures { Emits result self.new (pieces.no_value (emitting.stop guard) self.old) }
    {
        self.stop(guard)?;
        Ok(NONE)
    }

    /// The run fails at this place; the answer is the local that holds 0.
    pub fn fail_without(&mut self, guard: u32, place: Place) -> Result<u32, OutOfMemory>
        ensures { Emits result self.new (pieces.no_value (emitting.fail guard place) self.old) }
    {
        self.fail(guard, place)?;
        Ok(NONE)
    }
}
