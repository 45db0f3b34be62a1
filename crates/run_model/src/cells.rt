// Where values are kept: the innermost variable of a name, its cells, reads and writes.
ghost use Rattle.std.specs.Prelude.{◌≡◌, ◌∷◌, [], option_copied, set, slice_get};
ghost use Rattle.run_model.specs.Cells as cells;
ghost use Rattle.run_model.specs.Steps.{Goes};
ghost use Rattle.run_model.specs.Running.{Gives, setting_at};
ghost use Rattle.run_model.specs.declared.state.Slot.TheVariants.{Own};

use crate::state::{Local, Need, Runner, Slot, Stop, fail};
use crate::table::Table;
use axiom_model::Action;
use dg_base::Place;
use sqlite_items::at;

impl<'a> Runner<'a> {
    // The number of the innermost local of a name.
    fn local_named(&self, name: &[u8]) -> Option<usize>
        ensures { result ≡ cells.local_named self.now.locals name.now }
    {
        let mut found = None;
        for (i, local) in self.locals.iter().enumerate() {
            if local.name.as_slice() == name {
                found = Some(i);
            }
        }
        found
    }

    // A cell of the local of this number, at an index that is tested.
    fn own_cell(&self, place: Place, local: usize, i: u32) -> Result<Slot, Stop>
        ensures { Gives result self.now (cells.slot_in [] place [] (Some local) i self.now) }
    {
        let count = match at(self.locals.as_slice(), local) {
            None => 0,
            Some(local) => local.cells.len(),
        };
        if (i as usize) < count {
            Ok(Slot::Own(local, i as usize))
        } else {
            Err(fail(place))
        }
    }

    /// The cell of the innermost variable of a name, at an index that is tested.
    pub(crate) fn slot(
        &self,
        table: &Table,
        place: Place,
        name: &[u8],
        i: u32,
    ) -> Result<Slot, Stop>
        ensures { Gives result self.now (cells.slot (setting_at table.now).shared place name.now i self.now) }
    {
        match self.local_named(name) {
            Some(local) => self.own_cell(place, local, i),
            None => match table.shared_named(name) {
                None => Err(self.stop()),
                Some(shared) => {
                    if i < shared.count {
                        match shared.first.checked_add(i) {
                            None => Err(Stop::OutOfMemory),
                            Some(cell) => Ok(Slot::Common(cell)),
                        }
                    } else {
                        Err(fail(place))
                    }
                }
            },
        }
    }

    // The value in a cell of a local, 0 where there is no such cell.
    fn own_value(&self, local: usize, cell: usize) -> u32
        ensures { Goes result self.now ≡ cells.read (Own local cell) self.now }
    {
        match at(self.locals.as_slice(), local) {
            None => 0,
            Some(local) => match at(local.cells.as_slice(), cell) {
                None => 0,
                Some(v) => *v,
            },
        }
    }

    /// The value in a cell; of a shared one it is taken from the script.
    #[tactic(auto, using(crate::proofs::Passing::passes))]
    pub(crate) fn read(&mut self, slot: Slot) -> Result<u32, Stop>
        ensures { Gives result self.new (cells.read slot self.old) }
    {
        match slot {
            Slot::Own(local, cell) => Ok(self.own_value(local, cell)),
            Slot::Common(cell) => {
                let v = self.take(Need::ReadOf(cell))?;
                self.make(Action::Read { cell, value: v })?;
                Ok(v)
            }
        }
    }

    /// Stores a value in a cell.
    pub(crate) fn write(&mut self, slot: Slot, v: u32) -> Result<(), Stop>
        ensures { Gives result self.new (cells.write slot v self.old) }
    {
        match slot {
            Slot::Own(local, cell) => {
                self.put(local, cell, v);
                Ok(())
            }
            Slot::Common(cell) => self.make(Action::Write { cell, value: v }),
        }
    }

    /// Stores a value in a cell of a local; nothing where there is no such cell.
    pub(crate) fn put(&mut self, local: usize, cell: usize, v: u32)
        ensures { Goes tt self.new ≡ cells.write (Own local cell) v self.old }
    {
        if local < self.locals.len() {
            let local = &mut self.locals[local];
            set_cell(local, cell, v);
        }
    }

    /// Whether the innermost variable of a name is Uint.
    pub(crate) fn name_unsigned(&self, table: &Table, name: &[u8]) -> bool
        ensures { result ≡ cells.name_unsigned (setting_at table.now).shared name.now self.now }
    {
        match self.local_named(name) {
            Some(local) => match at(self.locals.as_slice(), local) {
                None => false,
                Some(local) => local.unsigned,
            },
            None => match table.shared_named(name) {
                None => false,
                Some(shared) => shared.unsigned,
            },
        }
    }
}

// Stores a value in a cell of a local; nothing where it has no such cell.
fn set_cell(local: &mut Local, cell: usize, v: u32)
    ensures { local.new ≡ record local.old { cells = set local.old.cells cell v } }
{
    if cell < local.cells.len() {
        local.cells.set(cell, v);
    }
}
