// What is told of a checked program beside its tree.
ghost use Rattle.std.specs.Prelude.{◌≡◌, ◌++◌, OnOk, IfOk, map};
ghost use Rattle.c_tree.specs.declared.program.Function.{Function as function_type};
ghost use Rattle.c_rules.specs.Names.{functions_of};
ghost use Rattle.c_rules.specs.Walk as walk;
ghost use Rattle.c_check.specs.Checked as lists;

use crate::checked::CellInfo;
use c_tree::{Declarator, Initialiser, Item, constant_value};
use dg_base::{Bytes, List, OutOfMemory};
use sqlite_items::at;
use std::alloc::Global;

/// The names of the functions, in the order of the text.
pub(crate) fn function_names(alloc: Global, items: &[Item]) -> Result<List<Bytes>, OutOfMemory>
    ensures { IfOk result (λ l. l ≡ map (λ (f : function_type). f.name) (functions_of items.now)) }
{
    let mut names = List::new(alloc);
    for item in items {
        match item {
            Item::Function(function) => {
                names.push(Bytes::from_slice(alloc, function.name.as_slice())?)?;
            }
            Item::Prototype { .. } => {}
            Item::Shared(_) => {}
        }
    }
    Ok(names)
}

// The name of an array's cell, as `a[3]`.
fn indexed(alloc: Global, name: &[u8], cell: u32) -> Result<Bytes, OutOfMemory>
    ensures { IfOk result (λ n. n ≡ lists.indexed name.now cell) }
{
    let mut text = Bytes::from_slice(alloc, name)?;
    let index = format!(in alloc; "[{cell}]")?;
    text.append(Bytes::from_slice(alloc, index.as_bytes())?)?;
    Ok(text)
}

// The value that is written for a cell, or 0.
#[tactic(auto, using(crate::proofs::Cells::one_value, crate::proofs::Cells::no_value))]
fn value_at(start: &Option<Initialiser>, cell: usize) -> u32
    ensures { result ≡ lists.value_at (lists.first_values start.now) cell }
{
    match start {
        None => 0,
        Some(Initialiser::One(value)) => { if cell == 0 { constant_value(value) } else { 0 } }
        Some(Initialiser::Braces(values)) => match at(values.as_slice(), cell) {
            None => 0,
            Some(value) => constant_value(value),
        },
    }
}

// Adds the cells of an array.
fn push_array(
    alloc: Global,
    cells: &mut List<CellInfo>,
    name: &[u8],
    count: u32,
    start: &Option<Initialiser>,
) -> Result<(), OutOfMemory>
    ensures { OnOk result (cells.new ≡ cells.old ++ lists.array_cells count name.now 0 (lists.first_values start.now)) }
{
    for cell in 0..count {
        let info = CellInfo {
            name: indexed(alloc, name, cell)?,
            initial: value_at(start, cell as usize),
        };
        cells.push(info)?;
    }
    Ok(())
}

// Adds the cells of a variable.
fn push_variable(
    alloc: Global,
    cells: &mut List<CellInfo>,
    declarator: &Declarator,
) -> Result<(), OutOfMemory>
    ensures { OnOk result (cells.new ≡ cells.old ++ lists.variable_cells declarator.now.name (walk.cells_of_size declarator.now.size) (lists.first_values declarator.now.initialiser)) }
{
    let name = declarator.name.as_slice();
    match &declarator.size {
        None => {
            let info = CellInfo {
                name: Bytes::from_slice(alloc, name)?,
                initial: value_at(&declarator.initialiser, 0),
            };
            Ok(cells.push(info)?)
        }
        Some(size) => {
            let count = constant_value(size);
            push_array(alloc, cells, name, count, &declarator.initialiser)
        }
    }
}

#[tactic(auto, using(crate::proofs::Cells::next_cells))]
fn push_declarators(
    alloc: Global,
    cells: &mut List<CellInfo>,
    declarators: &[Declarator],
) -> Result<(), OutOfMemory>
    ensures { OnOk result (cells.new ≡ cells.old ++ lists.cells_of_declarators declarators.now) }
{
    for declarator in declarators {
        push_variable(alloc, cells, declarator)?;
    }
    Ok(())
}

/// The shared cells with the values that they begin with, in the order of the text.
#[tactic(auto, using(crate::proofs::Cells::next_cells))]
pub(crate) fn cells_of(alloc: Global, items: &[Item]) -> Result<List<CellInfo>, OutOfMemory>
    ensures { IfOk result (λ l. l ≡ lists.cells_of_items items.now) }
{
    let mut cells = List::new(alloc);
    for item in items {
        match item {
            Item::Function(_) => {}
            Item::Prototype { .. } => {}
            Item::Shared(decl) => {
                push_declarators(alloc, &mut cells, decl.declarators.as_slice())?;
            }
        }
    }
    Ok(cells)
}
