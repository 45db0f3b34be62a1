// The edges of one graph as a list of pairs.
ghost use Rattle.std.specs.Prelude.{◌≡◌, ◌++◌, ◌∷◌, ◌<◌, [], All, IfOk, OnOk, length};
ghost use Rattle.cnf_problem.specs.Edges.{derived_edges, global_edge as the_global_edge};
ghost use Rattle.cnf_problem.specs.Bounds.{nodes_of};
ghost use Rattle.log_checker.specs.Pairs.{all_derived, all_edges, derived_with, own_edges, pairs_in, same_graph};

use cnf_problem::{Atom, AtomKind, Edge, Graph, Node, Problem};
use dg_base::OutOfMemory;
use std::alloc::Global;

fn is_same(graph: Graph, other: Graph) -> bool
    ensures { result ≡ same_graph graph other }
{
    match (graph, other) {
        (Graph::Local, Graph::Local) => true,
        (Graph::Local, Graph::Global) => false,
        (Graph::Global, Graph::Local) => false,
        (Graph::Global, Graph::Global) => true,
    }
}

// Puts an edge behind the others, where it is in the graph.
fn put_edge(pairs: &mut Vec<(u32, u32)>, graph: Graph, edge: Edge) -> Result<(), OutOfMemory>
    ensures { OnOk result (pairs.new.items ≡ pairs.old.items ++ pairs_in graph (edge ∷ [])) }
{
    if is_same(graph, edge.graph) {
        pairs.push((edge.from, edge.to))?;
    }
    Ok(())
}

// Puts those of the edges behind the others that are in the graph.
fn put_edges(pairs: &mut Vec<(u32, u32)>, graph: Graph, edges: &[Edge]) -> Result<(), OutOfMemory>
    ensures { OnOk result (pairs.new.items ≡ pairs.old.items ++ pairs_in graph edges.now) }
{
    for edge in edges {
        put_edge(pairs, graph, *edge)?;
    }
    Ok(())
}

// The edge between two nodes in the global graph: between different blocks it leaves the last node of one and enters the first of
// the other.
fn global_edge(nodes: &[Node], from: u32, to: u32) -> Edge
    requires from { from < length nodes.now }
    requires to { to < length nodes.now }
    ensures { result ≡ the_global_edge nodes.now from to }
{
    let (source, target) = (nodes[from as usize], nodes[to as usize]);
    let graph = Graph::Global;
    if source.block == target.block {
        Edge { graph, from, to }
    } else {
        Edge {
            graph,
            from: source.last,
            to: target.first,
        }
    }
}

// Puts the edges behind the others that two atoms of these kinds derive.
fn put_derived(
    pairs: &mut Vec<(u32, u32)>,
    graph: Graph,
    nodes: &[Node],
    kind: AtomKind,
    other: AtomKind,
) -> Result<(), OutOfMemory>
    requires kind { All (λ n. n < length nodes.now) (nodes_of kind) }
    requires other { All (λ n. n < length nodes.now) (nodes_of other) }
    ensures { OnOk result (pairs.new.items ≡ pairs.old.items ++ pairs_in graph (derived_edges nodes.now kind other)) }
{
    let AtomKind::ReadFrom { write, read } = kind else {
        return Ok(());
    };
    let AtomKind::WriteOrder { first, second } = other else {
        return Ok(());
    };
    if write != first {
        return Ok(());
    }
    let local = Edge {
        graph: Graph::Local,
        from: read,
        to: second,
    };
    put_edge(pairs, graph, local)?;
    put_edge(pairs, graph, global_edge(nodes, read, second))
}

// Puts the edges behind the others that an atom of this kind derives with those at these places.
fn put_derived_with(
    pairs: &mut Vec<(u32, u32)>,
    graph: Graph,
    problem: &Problem,
    kind: AtomKind,
    places: &[u32],
) -> Result<(), OutOfMemory>
    requires kind { All (λ n. n < length problem.now.nodes) (nodes_of kind) }
    requires within { All (λ k. k < length problem.now.atoms) places.now }
    ensures { OnOk result (pairs.new.items ≡ pairs.old.items ++ pairs_in graph (derived_with problem.now.nodes problem.now.atoms kind places.now)) }
{
    let atoms = problem.atoms.as_slice();
    for place in places {
        let other = atoms[*place as usize].kind;
        put_derived(pairs, graph, problem.nodes.as_slice(), kind, other)?;
    }
    Ok(())
}

// Puts the edges of the atoms at these places behind the others.
fn put_own(
    pairs: &mut Vec<(u32, u32)>,
    graph: Graph,
    atoms: &[Atom],
    places: &[u32],
) -> Result<(), OutOfMemory>
    requires { All (λ k. k < length atoms.now) places.now }
    ensures { OnOk result (pairs.new.items ≡ pairs.old.items ++ pairs_in graph (own_edges atoms.now places.now)) }
{
    for place in places {
        put_edges(pairs, graph, atoms[*place as usize].edges.as_slice())?;
    }
    Ok(())
}

// Puts the edges behind the others that two of the atoms at these places derive.
fn put_all_derived(
    pairs: &mut Vec<(u32, u32)>,
    graph: Graph,
    problem: &Problem,
    places: &[u32],
) -> Result<(), OutOfMemory>
    requires { All (λ k. k < length problem.now.atoms) places.now }
    ensures { OnOk result (pairs.new.items ≡ pairs.old.items ++ pairs_in graph (all_derived problem.now.nodes problem.now.atoms places.now)) }
{
    let atoms = problem.atoms.as_slice();
    for place in places {
        let kind = atoms[*place as usize].kind;
        put_derived_with(pairs, graph, problem, kind, places)?;
    }
    Ok(())
}

/// The edges of one graph where the atoms at these places hold: the fixed ones, those of the atoms, and those that two of them
/// derive. The time is linear in the edges, and in the pairs of places.
pub fn edges_of(
    alloc: Global,
    problem: &Problem,
    graph: Graph,
    places: &[u32],
) -> Result<Vec<(u32, u32)>, OutOfMemory>
    requires { All (λ k. k < length problem.now.atoms) places.now }
    ensures { IfOk result (λ pairs. pairs.items ≡ pairs_in graph (all_edges problem.now places.now)) }
{
    let mut pairs = Vec::new(alloc);
    put_edges(&mut pairs, graph, problem.fixed.as_slice())?;
    put_own(&mut pairs, graph, problem.atoms.as_slice(), places)?;
    put_all_derived(&mut pairs, graph, problem, places)?;
    Ok(pairs)
}
