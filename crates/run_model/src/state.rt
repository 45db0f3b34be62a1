// The state of a run, and the simplest steps on it.
ghost use Rattle.std.specs.Prelude.{◌≡◌, ◌+◌, cond, nat_eq, IfOk, IfErr};
ghost use Rattle.run_model.specs.Steps as steps;
ghost use Rattle.run_model.specs.Running.{Gives};
ghost use Rattle.run_model.specs.declared.state.Stop.TheVariants.{Halted, OutOfMemory};
ghost use Rattle.run_model.specs.declared.state.Halt.TheVariants.{Over};
ghost use Rattle.run_model.specs.declared.state.Ending.TheVariants.{Bad, Bound, Stopped, Failed};

use crate::table::Table;
use axiom_model::Action;
use dg_base::{Bytes, List, Place};
use std::alloc::Global;
use std::marker::Model;

/// How a run ends.
#[derive(Debug, Clone, Copy, PartialEq, Eq, Drop)]
pub enum Ending {
    /// The thread came to its end.
    Ended,
    /// It goes no further: an assumption does not hold, a loop has used up its bound where that is not told, or a choice was to
    /// wait.
    Stopped,
    /// An assertion fails at this place, or a division by 0, or an index is out of range.
    Failed(Place),
    /// A loop at this place has used up its bound, and that is told.
    Bound(Place),
    /// A choice was made that no execution makes.
    Bad,
}

/// What a number of a script is for.
#[derive(Debug, Clone, Copy, PartialEq, Eq, Drop)]
pub enum Need {
    /// The value of a read of this cell.
    ReadOf(u32),
    /// Whether the run goes on.
    Go,
    /// A bool.
    Truth,
    /// Any value.
    Any,
}

/// Why a run makes no further step.
#[derive(Debug, Clone, Copy, PartialEq, Eq, Drop)]
pub enum Halt {
    /// It is over.
    Over(Ending),
    /// It needs a number that the script does not have.
    Short(Need),
}

/// Why a call of the runner has no value.
#[derive(Debug, Clone, Copy, Drop)]
pub enum Stop {
    /// The run makes no further step.
    Halted(Halt),
    /// Want of memory.
    OutOfMemory,
}

/// A local variable, with its cells.
#[derive(Drop)]
pub struct Local {
    /// Its name.
    pub name: Bytes,
    /// Whether its values are Uint.
    pub unsigned: bool,
    /// The values that it holds: one, or those of an array.
    pub cells: List<u32>,
}

/// A shared variable.
#[derive(Drop)]
pub struct Shared {
    /// Its name.
    pub name: Bytes,
    /// Whether its values are Uint.
    pub unsigned: bool,
    /// The number of its first cell.
    pub first: u32,
    /// How many cells it has.
    pub count: u32,
}

/// A place where a value is kept.
#[derive(Debug, Clone, Copy, PartialEq, Eq, Drop)]
pub enum Slot {
    /// A cell of a local variable, by the numbers of both.
    Own(usize, usize),
    /// A shared cell.
    Common(u32),
}

/// How a statement leaves off.
#[derive(Debug, Clone, Copy, PartialEq, Eq, Drop)]
pub enum Flow {
    /// At its end.
    Next,
    /// By `break`.
    Broke,
    /// By `continue`.
    Continued,
    /// By `return`, with this value.
    Returned(u32),
}

/// A run: what it did so far, and what of the script is left.
#[derive(Drop)]
pub struct Runner<'a> {
    pub(crate) alloc: Global,
    pub(crate) script: &'a [u32],
    pub(crate) used: usize,
    pub(crate) created: u32,
    pub(crate) depth: u64,
    pub(crate) locals: Vec<Local>,
    pub(crate) actions: List<Action>,
}

impl<'a> Model for Runner<'a> {
    ghost use Rattle.std.specs.Prelude.{drop, length, ◌≤◌};
    ghost use Rattle.run_model.specs.Steps.{State};

    ghost Value = { State };

    ghost view = { λ r. record { locals = r.locals.items; created = r.created; depth = r.depth; script = drop r.used r.script.now; used = r.used; actions = r.actions } };

    ghost invariant = { λ r. r.used ≤ length r.script.now };
}

impl<'a> Runner<'a> {
    /// The script's next number.
    pub(crate) fn take(&mut self, need: Need) -> Result<u32, Stop>
        ensures { Gives result self.new (steps.take_number need self.old) }
    {
        if self.used == self.script.len() {
            return Err(Stop::Halted(Halt::Short(need)));
        }
        let v = self.script[self.used];
        self.used += 1;
        Ok(v)
    }

    /// Makes an action.
    pub(crate) fn make(&mut self, action: Action) -> Result<(), Stop>
        ensures { Gives result self.new (steps.make action self.old) }
    {
        match self.actions.push(action) {
            Ok(()) => Ok(()),
            Err(_) => Err(Stop::OutOfMemory),
        }
    }

    /// A loop at this place has used up its bound: where that is told the run ends there, else it goes no further.
    pub(crate) fn spend(&self, table: &Table, place: Place) -> Stop
        ensures { result ≡ Halted (Over (cond table.now.full (Bound place) (cond (nat_eq self.now.depth 0) Stopped Bad))) }
    {
        if table.full {
            Stop::Halted(Halt::Over(Ending::Bound(place)))
        } else {
            self.stop()
        }
    }

    /// The run goes no further: outside a section it has stopped, inside it is Bad.
    pub(crate) fn stop(&self) -> Stop
        ensures { result ≡ Halted (Over (cond (nat_eq self.now.depth 0) Stopped Bad)) }
    {
        if self.depth == 0 {
            Stop::Halted(Halt::Over(Ending::Stopped))
        } else {
            Stop::Halted(Halt::Over(Ending::Bad))
        }
    }
}

/// The run fails at this place.
pub(crate) fn fail(place: Place) -> Stop
    ensures { result ≡ Halted (Over (Failed place)) }
{
    Stop::Halted(Halt::Over(Ending::Failed(place)))
}

/// How many forms may still stand inside one another, one form further in.
pub(crate) fn inner(room: usize) -> Result<usize, Stop>
    ensures less { IfOk result (λ r. r + 1 ≡ room) }
    ensures spent { IfErr result (λ e. e ≡ OutOfMemory) }
{
    if room == 0 {
        return Err(Stop::OutOfMemory);
    }
    Ok(room - 1)
}
