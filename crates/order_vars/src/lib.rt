//! Ordering atoms and their clauses: from which write a read takes its value, in which order the
//! writes of a cell take effect, and which end a join waits for.
//!
//! Events that may be ordered so are linked. A link has an atom with a fresh variable; two writes
//! have two, one for each order, since neither is true where one of the writes doesn't happen. A
//! write comes behind the initial one of its cell wherever it happens, so that this atom's literal
//! is its guard. `specs/Links` says which links there are, `specs/Atoms` what their atoms and edges
//! are, `specs/Holding` what the clauses say of the literals (`OrderHolds`), and `specs/Orders` all
//! of it together (`IsOrderOf`), with the law that any choice of the literals' truth values can be
//! made. No clause speaks of three writes: the graphs do.
//!
//! The clauses are those of an encoding of reads-from and write order by one literal a pair, as in
//! F. He, Z. Sun and H. Fan, "Satisfiability modulo ordering consistency theory for multi-threaded
//! program verification" (PLDI 2021). Each is written once, where its pair is met, and room for all
//! of them is reserved before the first.
#![tactic(auto)]

mod blocks;
mod creates;
mod links;
mod pair_clauses;
mod room;
mod scene;
mod tie;

ghost use Rattle.std.specs.Prelude.{◌≡◌, IfOk, map};
ghost use Rattle.memory_models.specs.Events.{AreStatic};
ghost use Rattle.order_vars.specs.Orders.{AreEventsOver, IsOrderOf};

use crate::creates::create_edges;
use crate::links::link_into;
use crate::room::reserve;
use crate::scene::Scene;
use axiom_model::MemoryModel;
pub use blocks::nodes;
use cnf_problem::{Atom, Edge, Gates};
use dg_base::{List, OutOfMemory};
use memory_models::{EventBits, StaticEvent};
use std::alloc::Global;

/// The atoms, and the edges from each Create to the Start of its instance.
#[derive(Debug, Drop)]
pub struct OrderAtoms {
    pub atoms: List<Atom>,
    pub fixed: List<Edge>,
}

/// Makes the atoms and puts their clauses. After a refusal the gates are only good to be dropped.
///
/// # Errors
/// Want of memory, which more than 4294967295 events and more than 2147483647 variables are.
pub fn order_vars(
    alloc: Global,
    model: MemoryModel,
    graph: &[StaticEvent],
    values: &[EventBits],
    gates: &mut Gates,
) -> Result<OrderAtoms, OutOfMemory>
    requires events { AreStatic graph.now }
    requires over { AreEventsOver gates.old.vars graph.now (map (λ v. v.bits) values.now) }
    ensures { IfOk result (λ o. IsOrderOf model graph.now (map (λ v. v.bits) values.now) gates.old gates.new o.atoms o.fixed) }
{
    let Ok(count) = u32::try_from(graph.len()) else {
        return Err(OutOfMemory);
    };
    let nodes = nodes(alloc, graph)?;
    let scene = Scene {
        alloc,
        model,
        events: graph,
        values,
        nodes: nodes.as_slice(),
    };
    reserve(graph, gates)?;
    let mut atoms = List::new(alloc);
    for place in 0..count {
        link_into(&scene, place, count, gates, &mut atoms)?;
    }
    let fixed = create_edges(&scene, count)?;
    Ok(OrderAtoms { atoms, fixed })
}
