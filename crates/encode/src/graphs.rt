//! The graphs of the problem.

ghost use Rattle.std.specs.Prelude.{◌≡◌, ◌<◌, ◌^◌, ◌++◌, length, map, IfOk, OnOk};
ghost use Rattle.memory_models.specs.Events.{AreStatic};
ghost use Rattle.encode_match.specs.Parts.{fence_atom};
ghost use Rattle.encode.specs.Graphs.{AreOrdersOver, IsProblemOf};

use axiom_model::MemoryModel;
use cnf_problem::{Atom, AtomKind, Gates, Problem};
use dg_base::{List, OutOfMemory};
use memory_models::{FenceEdge, StaticEvent, static_edges};
use order_vars::{OrderAtoms, nodes};
use std::alloc::Global;

// Adds an atom for each edge that hangs on a fence: its literal is the fence's guard.
fn add_fences(
    alloc: Global,
    atoms: &mut List<Atom>,
    fences: &[FenceEdge],
) -> Result<(), OutOfMemory>
    ensures { OnOk result (atoms.new ≡ atoms.old ++ map fence_atom fences.now) }
{
    for fence in fences {
        let mut edges = List::new(alloc);
        edges.push(fence.edge)?;
        atoms.push(Atom {
            lit: fence.guard,
            kind: AtomKind::Plain,
            edges,
        })?;
    }
    Ok(())
}

// There are numbers for so many.
fn number_all(count: usize) -> Result<(), OutOfMemory>
    ensures { OnOk result (count < 2 ^ 32) }
{
    if count > u32::MAX as usize {
        return Err(OutOfMemory);
    }
    Ok(())
}

/// The problem of the gates, with the atoms and edges of the events: those of their order, and those of what the model keeps.
pub(crate) fn problem_of(
    alloc: Global,
    model: MemoryModel,
    events: &[StaticEvent],
    order: OrderAtoms,
    gates: Gates,
) -> Result<Problem, OutOfMemory>
    requires events { AreStatic events.now }
    requires orders { AreOrdersOver gates.vars events.now order.atoms order.fixed }
    ensures { IfOk result (λ p. IsProblemOf model events.now order.atoms order.fixed gates p) }
{
    let edges = static_edges(alloc, model, events)?;
    let OrderAtoms {
        mut atoms,
        fixed: creates,
    } = order;
    add_fences(alloc, &mut atoms, edges.fences.as_slice())?;
    let mut fixed = edges.fixed;
    fixed.append(creates)?;
    number_all(events.len())?;
    number_all(atoms.len())?;
    let nodes = nodes(alloc, events)?;
    gates.finish(nodes, atoms, fixed)
}
