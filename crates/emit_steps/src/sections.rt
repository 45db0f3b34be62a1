// Sections, mutexes and threads: the built-in steps that other threads see.
ghost use Rattle.std.specs.Prelude.{◌≡◌, ◌++◌, drop, IfOk};
ghost use Rattle.emit_steps.specs.Emitting as emitting;
ghost use Rattle.emit_steps.specs.Emitting.{Emits};
ghost use Rattle.emit_steps.specs.Pieces as pieces;

use crate::emitter::{CREATES, NONE, ONE, OWN_HANDLE};
use crate::state::{Cell, Emitter};
use dg_base::{List, Op, OutOfMemory, Place};
use flat_prog::FlatAct;
use std::alloc::Global;

// The shared ones of these cells.
fn common_in(alloc: Global, cells: &[Cell]) -> Result<List<Cell>, OutOfMemory>
    ensures { IfOk result (λ common. common ≡ pieces.common_in cells.now) }
{
    let mut common = List::new(alloc);
    for cell in cells {
        match *cell {
            Cell::Own(_, _) => {}
            Cell::Common(guard, shared) => common.push(Cell::Common(guard, shared))?,
        }
    }
    Ok(common)
}

impl Emitter {
    // A go number: 0 stops the run, 1 goes on, any other makes it Bad.
    fn ask(&mut self, guard: u32) -> Result<(), OutOfMemory>
        ensures { Emits result self.new (emitting.ask guard self.old) }
    {
        let go = self.fresh()?;
        self.emit(guard, FlatAct::Take { to: go })?;
        let stops = self.unless(guard, go)?;
        self.emit(stops, FlatAct::Stop)?;
        let breaks = self.set(guard, Op::NotEqual, &[go, ONE])?;
        self.emit(breaks, FlatAct::Bad)
    }

    // A section opens; the guard is kept for its Close.
    fn open_there(&mut self, guard: u32) -> Result<(), OutOfMemory>
        ensures { Emits result self.new (emitting.open_there guard self.old) }
    {
        self.emit(guard, FlatAct::Open)?;
        self.opened = guard;
        Ok(())
    }

    // A section opens behind a go number, where the program stands in none.
    fn open_section(&mut self, guard: u32) -> Result<(), OutOfMemory>
        ensures { Emits result self.new (emitting.open_section guard self.old) }
    {
        if self.depth == 0 {
            self.ask(guard)?;
            self.open_there(guard)?;
        }
        Ok(())
    }

    // A section opens without a go number, where the program stands in none.
    fn open_at_once(&mut self, guard: u32) -> Result<(), OutOfMemory>
        ensures { Emits result self.new (emitting.open_at_once guard self.old) }
    {
        if self.depth == 0 {
            self.open_there(guard)?;
        }
        Ok(())
    }

    // The open section closes under the guard under which it was opened, where the program stands in no other.
    fn close_section(&mut self) -> Result<(), OutOfMemory>
        ensures { Emits result self.new (emitting.close_section self.old) }
    {
        if self.depth == 0 {
            self.emit(self.opened, FlatAct::Close)?;
        }
        Ok(())
    }

    /// A section begins.
    pub fn begin_section(&mut self, guard: u32) -> Result<(), OutOfMemory>
        ensures { Emits result self.new (emitting.begin_section guard self.old) }
    {
        self.open_section(guard)?;
        self.depth = match self.depth.checked_add(1) {
            Some(depth) => depth,
            None => return Err(OutOfMemory),
        };
        Ok(())
    }

    /// A section ends.
    pub fn end_section(&mut self) -> Result<(), OutOfMemory>
        ensures { Emits result self.new (emitting.end_section self.old) }
    {
        self.depth = self.depth.saturating_sub(1);
        self.close_section()
    }

    // A mutex is read as 0, and then is 1.
    fn hold_cells(&mut self, guard: u32, cells: &[Cell]) -> Result<(), OutOfMemory>
        ensures { Emits result self.new (pieces.hold_cells guard cells.now self.old) }
    {
        let value = self.read(cells)?;
        let held = self.when(guard, value)?;
        self.emit(held, FlatAct::Bad)?;
        self.write(cells, ONE)
    }

    /// Locks a mutex.
    pub fn lock(&mut self, guard: u32, cells: &[Cell]) -> Result<u32, OutOfMemory>
        ensures { Emits result self.new (pieces.no_value (pieces.lock_cells guard cells.now) self.old) }
    {
        let common = common_in(self.alloc, cells)?;
        self.open_section(guard)?;
        self.hold_cells(guard, common.as_slice())?;
        self.close_section()?;
        Ok(NONE)
    }

    /// Unlocks a mutex, or initialises it.
    pub fn unlock(&mut self, guard: u32, cells: &[Cell]) -> Result<u32, OutOfMemory>
        ensures { Emits result self.new (pieces.no_value (pieces.unlock_cells guard cells.now) self.old) }
    {
        self.open_at_once(guard)?;
        self.write(cells, NONE)?;
        self.close_section()?;
        Ok(NONE)
    }

    // A new instance of a function; its number is the next one.
    fn name_instance(&mut self, function: u32) -> Result<u32, OutOfMemory>
        ensures { Emits result self.new (pieces.name_instance function self.old) }
    {
        let instance = self.instances;
        self.created.push(function)?;
        self.instances = match instance.checked_add(1) {
            Some(next) => next,
            None => return Err(OutOfMemory),
        };
        Ok(instance)
    }

    // The handle of the next thread that this one creates: 64 times its own plus the number of creates done plus 1.
    fn next_handle(&mut self, guard: u32) -> Result<u32, OutOfMemory>
        ensures { Emits result self.new (pieces.next_handle guard self.old) }
    {
        let most = self.number(64)?;
        let base = self.set(guard, Op::Times, &[OWN_HANDLE, most])?;
        let sum = self.set(guard, Op::Plus, &[base, CREATES])?;
        self.set(guard, Op::Plus, &[sum, ONE])
    }

    /// Creates a thread of a function, and stores its handle.
    pub fn create(
        &mut self,
        guard: u32,
        target: &[Cell],
        function: u32,
        arg: u32,
    ) -> Result<u32, OutOfMemory>
        ensures { Emits result self.new (pieces.create guard target.now function arg self.old) }
    {
        let handle = self.next_handle(guard)?;
        let instance = self.name_instance(function)?;
        self.set_to(guard, CREATES, Op::Plus, &[CREATES, ONE])?;
        self.write(target, handle)?;
        self.emit(
            guard,
            FlatAct::Create {
                instance,
                handle,
                arg,
            },
        )?;
        Ok(NONE)
    }

    /// Joins a thread.
    pub fn join(&mut self, guard: u32, handle: u32) -> Result<u32, OutOfMemory>
        ensures { Emits result self.new (pieces.join guard handle self.old) }
    {
        if self.depth == 0 {
            self.ask(guard)?;
        }
        self.emit(guard, FlatAct::Join { from: handle })?;
        Ok(NONE)
    }

    /// An exit of the thread, which inside a section is Bad.
    pub fn exit_thread(&mut self, guard: u32) -> Result<u32, OutOfMemory>
        ensures { Emits result self.new (pieces.no_value (pieces.exit_thread guard) self.old) }
    {
        if self.depth == 0 {
            self.emit(guard, FlatAct::End)?;
        } else {
            self.emit(guard, FlatAct::Bad)?;
        }
        Ok(NONE)
    }

    /// Any number.
    pub fn any(&mut self, guard: u32) -> Result<u32, OutOfMemory>
        ensures { Emits result self.new (pieces.any guard self.old) }
    {
        let value = self.fresh()?;
        self.emit(guard, FlatAct::Take { to: value })?;
        Ok(value)
    }

    /// A number that is a bool; any other makes the run Bad.
    pub fn any_bool(&mut self, guard: u32) -> Result<u32, OutOfMemory>
        ensures { Emits result self.new (pieces.any_bool guard self.old) }
    {
        let value = self.any(guard)?;
        let breaks = self.set(guard, Op::LessUint, &[ONE, value])?;
        self.emit(breaks, FlatAct::Bad)?;
        Ok(value)
    }

    /// A fence.
    pub fn fence(&mut self, guard: u32) -> Result<u32, OutOfMemory>
        ensures { Emits result self.new (pieces.no_value (emitting.emit guard FlatAct.Fence) self.old) }
    {
        self.emit(guard, FlatAct::Fence)?;
        Ok(NONE)
    }

    /// The run fails where a value is 0.
    pub fn assert(&mut self, place: Place, guard: u32, value: u32) -> Result<u32, OutOfMemory>
        ensures { Emits result self.new (pieces.assert place guard value self.old) }
    {
        let fails = self.unless(guard, value)?;
        self.fail(fails, place)?;
        Ok(NONE)
    }

    /// The run goes no further where a value is 0.
    pub fn assume(&mut self, guard: u32, value: u32) -> Result<u32, OutOfMemory>
        ensures { Emits result self.new (pieces.assume guard value self.old) }
    {
        let stops = self.unless(guard, value)?;
        self.stop(stops)?;
        Ok(NONE)
    }
}
