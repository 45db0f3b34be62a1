//! The edges from creates to starts.

ghost use Rattle.std.specs.Prelude.{◌≡◌, ◌<◌, length, IfOk, IsTrue, ◌↔◌};
ghost use Rattle.memory_models.specs.declared.StaticKind.TheVariants as kinds;
ghost use Rattle.order_vars.specs.Atoms.{AreCreateEdges, nodes_of};

use crate::scene::{Scene, global};
use cnf_problem::Edge;
use dg_base::{List, OutOfMemory};
use memory_models::{StaticEvent, StaticKind};

// Whether the first event creates the thread that the second starts.
fn is_creation(first: &StaticEvent, second: &StaticEvent) -> bool
    ensures { IsTrue result ↔ ((first.now.kind ≡ kinds.Create second.now.instance) × (second.now.kind ≡ kinds.Start)) }
{
    match first.kind {
        StaticKind::Create(instance) => {
            matches!(second.kind, StaticKind::Start) && second.instance == instance
        }
        _ => false,
    }
}

/// The edges from each Create to the Start of its instance.
pub(crate) fn create_edges(scene: &Scene, count: u32) -> Result<List<Edge>, OutOfMemory>
    requires count { count ≡ length scene.now.events.now }
    requires nodes { scene.now.nodes.now ≡ nodes_of scene.now.events.now }
    ensures { IfOk result (λ es. AreCreateEdges scene.now.events.now es) }
{
    let mut edges = List::new(scene.alloc);
    for from in 0..count {
        for to in 0..count {
            if is_creation(&scene.events[from as usize], &scene.events[to as usize]) {
                edges.push(global(scene.nodes, from, to))?;
            }
        }
    }
    Ok(edges)
}
