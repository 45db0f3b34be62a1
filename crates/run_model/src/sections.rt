// Sections, mutexes and threads: the built-in steps that other threads see.
ghost use Rattle.std.specs.Prelude.{◌≡◌, ◌+◌, ◌*◌, ◌≤◌, ◌^◌, None, IfSome};
ghost use Rattle.run_model.specs.Calls as calls;
ghost use Rattle.run_model.specs.Steps as steps;
ghost use Rattle.run_model.specs.Running.{Gives, setting_at};
ghost use Rattle.run_model.specs.declared.state.Stop.TheVariants.{Halted};
ghost use Rattle.run_model.specs.declared.state.Halt.TheVariants.{Over};

use crate::state::{Ending, Halt, Need, Runner, Slot, Stop};
use crate::table::Table;
use axiom_model::Action;

// A run that is over.
fn over(ending: Ending) -> Stop
    ensures { result ≡ Halted (Over ending) }
{
    Stop::Halted(Halt::Over(ending))
}

// The handle of the next thread that this one creates, if it is a u32.
fn next_handle(own: u32, created: u32) -> Option<u32>
    ensures is { IfSome result (λ h. h ≡ 64 * own + created + 1) }
    ensures else_large { result ≡ None → 2 ^ 32 ≤ 64 * own + created + 1 }
{
    let first = own.checked_mul(64)?;
    let behind = first.checked_add(created)?;
    behind.checked_add(1)
}

impl<'a> Runner<'a> {
    // Takes a go number: 0 stops the run, 1 goes on.
    #[tactic(auto, using(crate::proofs::Passing::passes))]
    fn ask(&mut self) -> Result<(), Stop>
        ensures { Gives result self.new (steps.ask self.old) }
    {
        match self.take(Need::Go)? {
            0 => Err(over(Ending::Stopped)),
            1 => Ok(()),
            _ => Err(over(Ending::Bad)),
        }
    }

    // A section opens behind a go number, if the run stands in none.
    #[tactic(auto, using(crate::proofs::Passing::passes))]
    fn open_section(&mut self) -> Result<(), Stop>
        ensures { Gives result self.new (steps.open_section self.old) }
    {
        if self.depth == 0 {
            self.ask()?;
            self.make(Action::Open)?;
        }
        Ok(())
    }

    // An action that is made outside of sections alone.
    fn make_outside(&mut self, action: Action) -> Result<(), Stop>
        ensures { Gives result self.new (steps.outside (steps.make action) self.old) }
    {
        if self.depth == 0 {
            self.make(action)?;
        }
        Ok(())
    }

    /// A section begins.
    #[tactic(auto, using(crate::proofs::Passing::passes))]
    pub(crate) fn begin_section(&mut self) -> Result<(), Stop>
        ensures { Gives result self.new (steps.begin_section self.old) }
    {
        self.open_section()?;
        self.depth = match self.depth.checked_add(1) {
            Some(depth) => depth,
            None => return Err(Stop::OutOfMemory),
        };
        Ok(())
    }

    /// A section ends.
    pub(crate) fn end_section(&mut self) -> Result<(), Stop>
        ensures { Gives result self.new (steps.end_section self.old) }
    {
        self.depth = self.depth.saturating_sub(1);
        self.make_outside(Action::Close)
    }

    // A mutex is read as 0, and then is 1.
    #[tactic(auto, using(crate::proofs::Passing::passes))]
    fn hold(&mut self, mutex: Slot) -> Result<(), Stop>
        ensures { Gives result self.new (calls.hold mutex self.old) }
    {
        match mutex {
            Slot::Own(_, _) => Ok(()),
            Slot::Common(cell) => {
                let v = self.take(Need::ReadOf(cell))?;
                self.make(Action::Read { cell, value: v })?;
                if v != 0 {
                    return Err(over(Ending::Bad));
                }
                self.make(Action::Write { cell, value: 1 })
            }
        }
    }

    /// Locks a mutex.
    #[tactic(auto, using(crate::proofs::Passing::passes))]
    pub(crate) fn lock(&mut self, mutex: Slot) -> Result<(), Stop>
        ensures { Gives result self.new (calls.lock_cell mutex self.old) }
    {
        self.open_section()?;
        self.hold(mutex)?;
        self.make_outside(Action::Close)
    }

    /// Unlocks a mutex, or initialises it.
    #[tactic(auto, using(crate::proofs::Passing::passes))]
    pub(crate) fn unlock(&mut self, mutex: Slot) -> Result<(), Stop>
        ensures { Gives result self.new (calls.unlock_cell mutex self.old) }
    {
        self.make_outside(Action::Open)?;
        self.write(mutex, 0)?;
        self.make_outside(Action::Close)
    }

    /// Creates a thread of a function, and stores its handle.
    #[tactic(auto, using(crate::proofs::Passing::passes))]
    pub(crate) fn create(
        &mut self,
        table: &Table,
        target: Slot,
        function: u32,
        arg: u32,
    ) -> Result<u32, Stop>
        ensures { Gives result self.new (calls.create (setting_at table.now) target function arg self.old) }
    {
        let handle = match next_handle(table.handle, self.created) {
            Some(handle) => handle,
            None => return Err(Stop::OutOfMemory),
        };
        self.created += 1;
        self.write(target, handle)?;
        self.make(Action::Create {
            handle,
            function,
            arg,
        })?;
        Ok(0)
    }

    /// Joins a thread.
    #[tactic(auto, using(crate::proofs::Passing::passes))]
    pub(crate) fn join(&mut self, handle: u32) -> Result<u32, Stop>
        ensures { Gives result self.new (calls.join handle self.old) }
    {
        if self.depth == 0 {
            self.ask()?;
        }
        self.make(Action::Join { handle })?;
        Ok(0)
    }

    /// An exit of the thread, which inside a section is Bad.
    #[tactic(auto, using(crate::proofs::Passing::passes))]
    pub(crate) fn exit_thread(&mut self) -> Result<u32, Stop>
        ensures { Gives result self.new (calls.exit_thread self.old) }
    {
        if self.depth == 0 {
            self.make(Action::End)?;
            Err(over(Ending::Ended))
        } else {
            Err(over(Ending::Bad))
        }
    }

    /// A number that is a bool; any other makes the run Bad.
    #[tactic(auto, using(crate::proofs::Passing::passes))]
    pub(crate) fn any_bool(&mut self) -> Result<u32, Stop>
        ensures { Gives result self.new (calls.any_bool self.old) }
    {
        let v = self.take(Need::Truth)?;
        if v < 2 { Ok(v) } else { Err(over(Ending::Bad)) }
    }
}
