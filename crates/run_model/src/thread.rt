// The run of a thread.
ghost use Rattle.std.specs.Prelude.{◌≡◌, ◌<◌, length, IfOk, IfErr};
ghost use Rattle.c_rules.specs.Names.{functions_of};
ghost use Rattle.run_model.specs.Threads as threads;
ghost use Rattle.run_model.specs.Steps.{Outcome};
ghost use Rattle.run_model.specs.Running.{Stops, setting_at, run_of, IsShort, Tells};

use crate::state::{Ending, Halt, Runner, Stop};
use crate::table::{Table, count_functions, shared_of};
use axiom_model::Action;
use c_check::Checked;
use c_tree::Function;
use dg_base::List;
use std::alloc::Global;

/// What a thread did, and how that ended.
#[derive(Debug, Drop)]
pub struct ThreadRun {
    /// Its actions, in order; the first is its start.
    pub actions: List<Action>,
    /// How the run ended.
    pub ending: Ending,
    /// How many numbers of the script it used.
    pub used: u32,
}

/// Why no run is told.
#[derive(Debug, Clone, Copy, PartialEq, Eq, Drop)]
pub enum RunStop {
    /// The run needs one number more than these, which are all of the script's.
    ScriptShort(u32),
    /// Want of memory, which includes want of room for a tree that is too deep for the stack.
    OutOfMemory,
}

/// How many forms may stand inside one another, over all calls that a thread is in. So many fit a stack of 8 MiB with room to
/// spare: a form takes some 4 KiB where nothing is optimised.
const ROOM: usize = 1000;

impl<'a> Runner<'a> {
    // Start, the body with its argument, End; the answer is why the run makes no further step.
    #[tactic(auto, using(crate::proofs::Passing::passes))]
    fn thread(&mut self, table: &Table, function: &Function, arg: u32) -> Stop
        ensures { Stops result self.new (threads.thread_within table.now.calls (setting_at table.now) function.now arg self.old) }
    {
        if let Err(stop) = self.make(Action::Start) {
            return stop;
        }
        if let Err(stop) = self.body(table, ROOM, function, &[arg]) {
            return stop;
        }
        match self.make(Action::End) {
            Ok(()) => Stop::Halted(Halt::Over(Ending::Ended)),
            Err(stop) => stop,
        }
    }
}

impl<'a> Runner<'a> {
    // What is told of a run that makes no further step.
    fn told(self, stop: Stop) -> Result<ThreadRun, RunStop>
        ensures { (o : Outcome ⊥) → Stops stop self.entry o → Tells (Some o) result }
    {
        let Runner { used, actions, .. } = self;
        let used = match u32::try_from(used) {
            Ok(used) => used,
            Err(_) => return Err(RunStop::OutOfMemory),
        };
        match stop {
            Stop::Halted(Halt::Over(ending)) => Ok(ThreadRun {
                actions,
                ending,
                used,
            }),
            Stop::Halted(Halt::Short(_)) => Err(RunStop::ScriptShort(used)),
            Stop::OutOfMemory => Err(RunStop::OutOfMemory),
        }
    }
}

/// The run of a thread with this handle, which runs a function of the program on an argument, on a script of numbers.
///
/// The function is told by its number, from 0 in the order of the text. An error is `ScriptShort` exactly where the run
/// needs a number more than the script has.
pub fn run_thread(
    alloc: Global,
    checked: &Checked,
    function: u32,
    handle: u32,
    arg: u32,
    script: &[u32],
) -> Result<ThreadRun, RunStop>
    requires function { function < length (functions_of checked.now.program.items) }
    requires handle { handle < 16777216 }
    ensures ran { IfOk result (λ r. threads.thread_run checked.now function handle arg script.now ≡ Some (run_of r)) }
    ensures short { IfErr result (λ e. IsShort script.now (threads.short_run checked.now function handle arg script.now) e) }
{
    let items = checked.program.items.as_slice();
    let shared = match shared_of(alloc, items) {
        Ok(shared) => shared,
        Err(_) => return Err(RunStop::OutOfMemory),
    };
    let table = Table {
        shared: shared.as_slice(),
        items,
        turns: checked.k,
        full: checked.full,
        handle,
        calls: count_functions(items),
    };
    let mut runner = Runner {
        alloc,
        script,
        used: 0,
        created: 0,
        depth: 0,
        locals: Vec::new(alloc),
        actions: List::new(alloc),
    };
    match table.function(function as usize) {
        None => Err(RunStop::OutOfMemory),
        Some(function) => {
            let stop = runner.thread(&table, function, arg);
            runner.told(stop)
        }
    }
}
