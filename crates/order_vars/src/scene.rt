//! What links are made of, and edges between its events.

ghost use Rattle.std.specs.Prelude.{◌≡◌, ◌<◌, length, ◌↔◌, IsTrue};
ghost use Rattle.cnf_problem.specs.Edges.{global_edge};
ghost use Rattle.order_vars.specs.Atoms.{local as local_edge, same_thread, event_at, is_global_rf};

use crate::tie::is_initial;
use axiom_model::MemoryModel;
use cnf_problem::{Edge, Graph, Node};
use memory_models::{EventBits, StaticEvent};
use std::alloc::Global;

/// The events with their values and nodes, and the model that orders them.
#[derive(Clone, Copy, Drop)]
pub(crate) struct Scene<'a> {
    pub alloc: Global,
    pub model: MemoryModel,
    pub events: &'a [StaticEvent],
    pub values: &'a [EventBits],
    pub nodes: &'a [Node],
}

/// The edge from one event to another in the local graph.
pub(crate) fn local(from: u32, to: u32) -> Edge
    ensures { result ≡ local_edge from to }
{
    Edge {
        graph: Graph::Local,
        from,
        to,
    }
}

/// The edge from one event to another in the global graph. Between different blocks it leaves the
/// last event of one, and enters the first of the other.
pub(crate) fn global(nodes: &[Node], from: u32, to: u32) -> Edge
    requires from { from < length nodes.now }
    requires to { to < length nodes.now }
    ensures { result ≡ global_edge nodes.now from to }
{
    let (before, after) = (nodes[from as usize], nodes[to as usize]);
    let inside = before.block == after.block;
    Edge {
        graph: Graph::Global,
        from: if inside { from } else { before.last },
        to: if inside { to } else { after.first },
    }
}

// Whether both are actions of one thread; an initial write is of none.
fn of_one_thread(first: &StaticEvent, second: &StaticEvent) -> bool
    ensures { result ≡ same_thread first.now second.now }
{
    !is_initial(first.kind) && first.instance == second.instance
}

/// Whether all threads see at once that a read takes its value from a write.
pub(crate) fn is_global_read(
    model: MemoryModel,
    events: &[StaticEvent],
    write: u32,
    read: u32,
) -> bool
    requires write { write < length events.now }
    requires read { read < length events.now }
    ensures { result ≡ is_global_rf model events.now write read }
{
    match model {
        MemoryModel::Sc => true,
        MemoryModel::Tso | MemoryModel::Pso => {
            !of_one_thread(&events[write as usize], &events[read as usize])
        }
    }
}
