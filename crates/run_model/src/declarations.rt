// Declarations of local variables.
ghost use Rattle.std.specs.Prelude.{◌≡◌, map, replicate, IfOk, OnOk};
ghost use Rattle.run_model.specs.Meaning as meanings;
ghost use Rattle.run_model.specs.Statements as statements;
ghost use Rattle.run_model.specs.Steps.{Goes, take_number};
ghost use Rattle.run_model.specs.Running.{Gives, context_at};
ghost use Rattle.run_model.specs.declared.state.Need.TheVariants.{Any};

use crate::operators::word_unsigned;
use crate::state::{Local, Need, Runner, Stop};
use crate::table::{Table, cell_count};
use c_tree::{Decl, Declarator, Expr, Initialiser, TypeWord};
use dg_base::{Bytes, List, OutOfMemory};
use std::alloc::Global;

// Cells that hold 0.
fn zeros(alloc: Global, count: u32) -> Result<List<u32>, OutOfMemory>
    ensures { IfOk result (λ cells. cells ≡ replicate count 0) }
{
    let mut cells = List::new(alloc);
    for _i in 0..count {
        cells.push(0)?;
    }
    Ok(cells)
}

impl<'a> Runner<'a> {
    fn push_local(&mut self, word: TypeWord, name: &[u8], count: u32) -> Result<(), OutOfMemory>
        ensures { OnOk result (Goes tt self.new ≡ statements.enter word name.now count self.old) }
    {
        let name = Bytes::from_slice(self.alloc, name)?;
        let cells = zeros(self.alloc, count)?;
        let unsigned = word_unsigned(word);
        self.locals.push(Local {
            name,
            unsigned,
            cells,
        })?;
        Ok(())
    }

    // A new local with all cells 0.
    fn enter(&mut self, word: TypeWord, name: &[u8], count: u32) -> Result<(), Stop>
        ensures { Gives result self.new (statements.enter word name.now count self.old) }
    {
        match self.push_local(word, name, count) {
            Ok(()) => Ok(()),
            Err(_) => Err(Stop::OutOfMemory),
        }
    }

    // Takes a number into each cell of a local.
    #[tactic(auto, using(crate::proofs::Passing::passes, crate::proofs::Turns::one_more))]
    fn take_cells(&mut self, local: usize, count: u32) -> Result<(), Stop>
        ensures { Gives result self.new (statements.store_from local 0 (replicate count (take_number Any)) self.old) }
    {
        for j in 0..count {
            let v = self.take(Need::Any)?;
            self.put(local, j as usize, v);
        }
        Ok(())
    }

    // Stores each value in the next cell of a local, before the next is evaluated.
    #[cycle(run)]
    #[tactic(auto, using(crate::proofs::Passing::passes))]
    fn store_values(
        &mut self,
        table: &Table,
        room: usize,
        local: usize,
        values: &[Expr],
    ) -> Result<(), Stop>
        ensures { Gives result self.new (statements.store_from local 0 (map (meanings.eval (context_at table.now)) values.now) self.old) }
    {
        for (j, value) in values.iter().enumerate() {
            let v = self.eval(table, room, value)?;
            self.put(local, j, v);
        }
        Ok(())
    }

    // A declared variable.
    #[cycle(run)]
    #[tactic(auto, using(crate::proofs::Passing::passes))]
    fn declare_one(
        &mut self,
        table: &Table,
        room: usize,
        word: TypeWord,
        declarator: &Declarator,
    ) -> Result<(), Stop>
        ensures { Gives result self.new (statements.declare_one (context_at table.now) word declarator.now self.old) }
    {
        let local = self.locals.len();
        let count = cell_count(declarator);
        self.enter(word, declarator.name.as_slice(), count)?;
        match &declarator.initialiser {
            None => match word {
                TypeWord::Thread => Ok(()),
                TypeWord::Int => self.take_cells(local, count),
                TypeWord::Uint => self.take_cells(local, count),
                TypeWord::Void => self.take_cells(local, count),
                TypeWord::VoidPointer => self.take_cells(local, count),
                TypeWord::Mutex => self.take_cells(local, count),
                TypeWord::Cond => self.take_cells(local, count),
            },
            Some(Initialiser::One(value)) => {
                let v = self.eval(table, room, value)?;
                self.put(local, 0, v);
                Ok(())
            }
            Some(Initialiser::Braces(values)) => {
                self.store_values(table, room, local, values.as_slice())
            }
        }
    }

    /// Declared variables of one type.
    #[cycle(run)]
    #[tactic(auto, using(crate::proofs::Passing::passes))]
    pub(crate) fn declare(&mut self, table: &Table, room: usize, decl: &Decl) -> Result<(), Stop>
        ensures { Gives result self.new (statements.declare_all (context_at table.now) decl.now.word decl.now.declarators self.old) }
    {
        for declarator in decl.declarators.as_slice() {
            self.declare_one(table, room, decl.word, declarator)?;
        }
        Ok(())
    }
}
