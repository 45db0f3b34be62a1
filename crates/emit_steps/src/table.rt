// What an emission needs of the program.
ghost use Rattle.std.specs.Prelude.{◌≡◌, ◌+◌, IfOk, OnOk, option_copied, option_map, slice_get, map};
ghost use Rattle.c_check.specs.Limits.{cells_of_all};
ghost use Rattle.run_model.specs.Cells.{shared_named};
ghost use Rattle.run_model.specs.Calls.{function_named};
ghost use Rattle.run_model.specs.Programs as programs;
ghost use Rattle.emit_steps.specs.Tables.{setting_at, shared_as};

use crate::state::Variable;
use c_tree::{Declarator, Function, Item, TypeWord};
use dg_base::{Bytes, List, OutOfMemory};
use run_model::{cell_count, word_unsigned};
use std::alloc::Global;

/// What an emission needs of the program: the shared variables, the items with the functions, how often a loop runs at most,
/// and how deep calls may still stand in one another.
#[derive(Clone, Copy, Drop)]
pub struct Table<'a> {
    /// The shared variables.
    pub shared: &'a [Variable],
    /// The program's items.
    pub items: &'a [Item],
    /// How often a loop runs at most.
    pub turns: u32,
    /// Whether a run fails where a loop has used up its bound.
    pub full: bool,
    /// How deep calls may still stand in one another.
    pub calls: usize,
}

impl<'a> Table<'a> {
    /// The shared variable of a name.
    pub fn shared_named(&self, name: &[u8]) -> Option<&Variable>
        ensures { option_map shared_as (option_copied result) ≡ shared_named (setting_at self.now).shared name.now }
    {
        for shared in self.shared {
            if shared.name.as_slice() == name {
                return Some(shared);
            }
        }
        None
    }

    /// The number of the function with a body of a name.
    pub fn function_named(&self, name: &[u8]) -> Option<usize>
        ensures { result ≡ function_named (setting_at self.now) name.now }
    {
        let mut n = 0usize;
        for item in self.items {
            if let Item::Function(function) = item {
                if function.name.as_slice() == name {
                    return Some(n);
                }
                n += 1;
            }
        }
        None
    }

    /// The function of a number.
    pub fn function(&self, number: usize) -> Option<&'a Function>
        ensures { option_copied result ≡ slice_get (setting_at self.now).functions number }
    {
        let mut left = number;
        for item in self.items {
            if let Item::Function(function) = item {
                if left == 0 {
                    return Some(function);
                }
                left -= 1;
            }
        }
        None
    }
}

// A shared variable whose first cell has this number.
fn shared_variable(
    alloc: Global,
    first: u32,
    word: TypeWord,
    declarator: &Declarator,
) -> Result<Variable, OutOfMemory>
    ensures { IfOk result (λ v. shared_as v ≡ programs.shared_variable first word declarator.now) }
{
    Ok(Variable {
        name: Bytes::from_slice(alloc, declarator.name.as_slice())?,
        unsigned: word_unsigned(word),
        first,
        count: cell_count(declarator),
    })
}

// Puts the shared variables of declarators behind the others, where the next cell has the number `first`. The answer is the
// number of the next cell behind them.
fn add_shared(
    alloc: Global,
    shared: &mut List<Variable>,
    first: u32,
    word: TypeWord,
    declarators: &[Declarator],
) -> Result<u32, OutOfMemory>
    ensures list { OnOk result (map shared_as shared.new ≡ programs.shared_declared (map shared_as shared.old) first word declarators.now) }
    ensures next { IfOk result (λ n. n ≡ first + cells_of_all declarators.now) }
{
    let mut next = first;
    for declarator in declarators {
        let variable = shared_variable(alloc, next, word, declarator)?;
        let count = variable.count;
        shared.push(variable)?;
        next = match next.checked_add(count) {
            Some(behind) => behind,
            None => return Err(OutOfMemory),
        };
    }
    Ok(next)
}

/// The shared variables of a program. Their cells are fewer than 2^32, or there is no memory for them.
pub fn shared_of(alloc: Global, items: &[Item]) -> Result<List<Variable>, OutOfMemory>
    ensures { IfOk result (λ shared. map shared_as shared ≡ programs.shared_of items.now) }
{
    let mut shared = List::new(alloc);
    let mut next = 0u32;
    for item in items {
        if let Item::Shared(decl) = item {
            next = add_shared(
                alloc,
                &mut shared,
                next,
                decl.word,
                decl.declarators.as_slice(),
            )?;
        }
    }
    Ok(shared)
}
