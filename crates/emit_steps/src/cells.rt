// Where values are kept.
ghost use Rattle.std.specs.Prelude.{◌≡◌, option_copied, []};
ghost use Rattle.emit_steps.specs.Emitting.{Emits};
ghost use Rattle.emit_steps.specs.Pieces as pieces;
ghost use Rattle.emit_steps.specs.Tables.{setting_at};

use crate::state::{Cell, Emitter, Variable};
use crate::table::Table;
use dg_base::{List, Op, OutOfMemory, Place};
use flat_prog::FlatAct;
use sqlite_items::at;

// A local or a shared cell.
fn cell(own: bool, guard: u32, number: u32) -> Cell
    ensures { result ≡ pieces.cell own guard number }
{
    if own {
        Cell::Own(guard, number)
    } else {
        Cell::Common(guard, number)
    }
}

impl Emitter {
    // The innermost variable of a name.
    fn variable_named(&self, name: &[u8]) -> Option<&Variable>
        ensures { option_copied result ≡ pieces.variable_named self.now.scope name.now }
    {
        self.look_for(name, self.scope.len());
        let mut found = None;
        for (i, variable) in self.scope.iter().enumerate() {
            if variable.name.as_slice() == name {
                found = Some(i);
            }
        }
        match found {
            None => None,
            Some(i) => at(self.scope.as_slice(), i),
        }
    }

    fn read_cell(&mut self, to: u32, cell: Cell) -> Result<(), OutOfMemory>
        ensures { Emits result self.new (pieces.read_cell to cell self.old) }
    {
        match cell {
            Cell::Own(guard, local) => self.copy_to(guard, to, local),
            Cell::Common(guard, cell) => self.emit(guard, FlatAct::Read { cell, to }),
        }
    }

    // The value of the cell that is meant goes into a local.
    fn read_cells(&mut self, to: u32, cells: &[Cell]) -> Result<(), OutOfMemory>
        ensures { Emits result self.new (pieces.read_cells to cells.now self.old) }
    {
        for cell in cells {
            self.read_cell(to, *cell)?;
        }
        Ok(())
    }

    /// The value of the cell that is meant.
    pub fn read(&mut self, cells: &[Cell]) -> Result<u32, OutOfMemory>
        ensures { Emits result self.new (pieces.read cells.now self.old) }
    {
        let value = self.fresh()?;
        self.read_cells(value, cells)?;
        Ok(value)
    }

    fn write_cell(&mut self, value: u32, cell: Cell) -> Result<(), OutOfMemory>
        ensures { Emits result self.new (pieces.write_cell value cell self.old) }
    {
        match cell {
            Cell::Own(guard, local) => self.copy_to(guard, local, value),
            Cell::Common(guard, cell) => self.emit(guard, FlatAct::Write { cell, from: value }),
        }
    }

    /// Stores a value in the cell that is meant.
    pub fn write(&mut self, cells: &[Cell], value: u32) -> Result<(), OutOfMemory>
        ensures { Emits result self.new (pieces.write cells.now value self.old) }
    {
        for cell in cells {
            self.write_cell(value, *cell)?;
        }
        Ok(())
    }

    // So many cells from the number `first` on, each where the index is its own.
    #[tactic(auto, using(crate::proofs::Tables::cell_left))]
    fn cells_where(
        &mut self,
        own: bool,
        guard: u32,
        index: u32,
        first: u32,
        count: u32,
    ) -> Result<List<Cell>, OutOfMemory>
        ensures { Emits result self.new (pieces.cells_where [] own guard index first 0 count self.old) }
    {
        let mut cells = List::new(self.alloc);
        for j in 0..count {
            let number = self.number(j)?;
            let here = self.set(guard, Op::Equal, &[index, number])?;
            match first.checked_add(j) {
                Some(place) => cells.push(cell(own, here, place))?,
                None => return Err(OutOfMemory),
            }
        }
        Ok(cells)
    }

    // The cells of an array, at an index that is tested.
    fn cells_at(
        &mut self,
        place: Place,
        own: bool,
        guard: u32,
        first: u32,
        count: u32,
        index: u32,
    ) -> Result<List<Cell>, OutOfMemory>
        ensures { Emits result self.new (pieces.cells_at place own guard first count index self.old) }
    {
        let bound = self.number(count)?;
        let within = self.set(guard, Op::LessUint, &[index, bound])?;
        let fails = self.unless(guard, within)?;
        self.fail(fails, place)?;
        self.cells_where(own, guard, index, first, count)
    }

    // The first cell of a variable, or that of an index.
    fn at_index(
        &mut self,
        place: Place,
        own: bool,
        guard: u32,
        first: u32,
        count: u32,
        index: Option<u32>,
    ) -> Result<List<Cell>, OutOfMemory>
        ensures { Emits result self.new (pieces.at_index place own guard first count index self.old) }
    {
        match index {
            Some(index) => self.cells_at(place, own, guard, first, count, index),
            None => {
                let mut cells = List::new(self.alloc);
                if count == 0 {
                    self.fail(guard, place)?;
                } else {
                    cells.push(cell(own, guard, first))?;
                }
                Ok(cells)
            }
        }
    }

    /// No cell: the run goes no further.
    pub fn no_cell(&mut self, guard: u32) -> Result<List<Cell>, OutOfMemory>
        ensures { Emits result self.new (pieces.no_cell guard self.old) }
    {
        self.stop(guard)?;
        Ok(List::new(self.alloc))
    }

    /// The cells that the innermost variable of a name may mean, at an index that is tested.
    pub fn find_cells(
        &mut self,
        table: &Table,
        place: Place,
        name: &[u8],
        guard: u32,
        index: Option<u32>,
    ) -> Result<List<Cell>, OutOfMemory>
        ensures { Emits result self.new (pieces.find_cells (setting_at table.now).shared place name.now guard index self.old) }
    {
        self.look_for(name, table.shared.len());
        let own = match self.variable_named(name) {
            Some(variable) => Some((variable.first, variable.count)),
            None => None,
        };
        match own {
            Some((first, count)) => self.at_index(place, true, guard, first, count, index),
            None => match table.shared_named(name) {
                None => self.no_cell(guard),
                Some(shared) => {
                    self.at_index(place, false, guard, shared.first, shared.count, index)
                }
            },
        }
    }

    /// Whether the innermost variable of a name is Uint.
    pub fn name_unsigned(&self, table: &Table, name: &[u8]) -> bool
        ensures { result ≡ pieces.name_unsigned (setting_at table.now).shared name.now self.now.scope }
    {
        self.look_for(name, table.shared.len());
        match self.variable_named(name) {
            Some(variable) => variable.unsigned,
            None => match table.shared_named(name) {
                None => false,
                Some(shared) => shared.unsigned,
            },
        }
    }
}
