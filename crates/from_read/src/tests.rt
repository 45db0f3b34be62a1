ghost use Rattle.std.specs.Prelude.{◌≡◌, ◌<◌, ◌+◌, ℕ, length, All, Contains, IfOk, IsTrue};
ghost use Rattle.cnf_problem.specs.Literals.{IsOver};
ghost use Rattle.cnf_problem.specs.Bounds.{IsAtomOver, IsNodeOf, nodes_of};

use crate::{DerivedEdge, FromRead};
use cnf_problem::{Atom, AtomKind, Edge, Gates, Graph, Node};
use dg_base::{List, Lit, OutOfMemory};
use std::alloc::Global;
use std::test::Fail;

// Whether the ends of a node's block are among so many nodes.
fn is_node_of(node: Node, nodes: usize) -> bool
    ensures { IsTrue result → IsNodeOf nodes node }
{
    (node.first as usize) < nodes && (node.last as usize) < nodes
}

// Whether the nodes of an atom of this kind are among so many.
fn is_over(kind: AtomKind, nodes: usize) -> bool
    ensures { IsTrue result → All (λ n. n < nodes) (nodes_of kind) }
{
    match kind {
        AtomKind::ReadFrom { write, read } => (write as usize) < nodes && (read as usize) < nodes,
        AtomKind::WriteOrder { first, second } => {
            (first as usize) < nodes && (second as usize) < nodes
        }
        AtomKind::Plain => true,
    }
}

// These nodes, where each block's ends are among them.
fn node_list(alloc: Global, nodes: &[Node]) -> Result<List<Node>, OutOfMemory>
    ensures long { IfOk result (λ list. length list ≡ length nodes.now) }
    ensures over { IfOk result (λ list. All (IsNodeOf (length nodes.now)) list) }
{
    let mut list = List::new(alloc);
    for node in nodes {
        if !is_node_of(*node, nodes.len()) {
            return Err(OutOfMemory);
        }
        list.push(*node)?;
    }
    Ok(list)
}

// Atoms of these kinds, all of one literal, where their nodes are among so many.
fn atoms_of(
    alloc: Global,
    nodes: usize,
    lit: Lit,
    kinds: &[AtomKind],
) -> Result<List<Atom>, OutOfMemory>
    ensures long { IfOk result (λ list. length list ≡ length kinds.now) }
    ensures over { IfOk result (λ list. (vars : ℕ) → IsOver vars lit → All (IsAtomOver vars nodes) list) }
{
    let mut list = List::new(alloc);
    for kind in kinds {
        if !is_over(*kind, nodes) {
            return Err(OutOfMemory);
        }
        list.push(Atom {
            lit,
            kind: *kind,
            edges: List::new(alloc),
        })?;
    }
    Ok(list)
}

// No true atom yet, in a problem of these nodes and of atoms of these kinds.
fn start(alloc: Global, nodes: &[Node], kinds: &[AtomKind]) -> Result<FromRead, OutOfMemory>
    ensures kinds { IfOk result (λ f. length f.kinds ≡ length kinds.now) }
    ensures below { IfOk result (λ f. (a : ℕ) → Contains f.true_atoms a → a < 0) }
{
    if nodes.len() > 1000 || kinds.len() > 1000 {
        return Err(OutOfMemory);
    }
    let gates = Gates::new(alloc)?;
    let lit = gates.constant(true);
    let atoms = atoms_of(alloc, nodes.len(), lit, kinds)?;
    let problem = gates.finish(node_list(alloc, nodes)?, atoms, List::new(alloc))?;
    let froms = FromRead::new(alloc, &problem)?;
    Ok(froms)
}

// A node that is alone in its block.
fn alone(node: u32) -> Node {
    Node {
        block: node,
        first: node,
        last: node,
    }
}

// An atom becomes true that comes behind all that are true: how many edges this derives.
fn raise(froms: &mut FromRead, atom: u32) -> u32
    requires within { atom < length froms.old.kinds }
    requires below { (a : ℕ) → Contains froms.old.true_atoms a → a < atom }
    ensures below { (a : ℕ) → Contains froms.new.true_atoms a → a < atom + 1 }
    ensures kinds { length froms.new.kinds ≡ length froms.old.kinds }
{
    froms.on_true(atom)
}

// Keeps the first so many true atoms, where there are more.
fn cut(froms: &mut FromRead, mark: u32)
    ensures below { (b : ℕ) → ((a : ℕ) → Contains froms.old.true_atoms a → a < b) → (a : ℕ) → Contains froms.new.true_atoms a → a < b }
    ensures kinds { length froms.new.kinds ≡ length froms.old.kinds }
{
    if mark < froms.mark() {
        froms.undo_to(mark);
    }
}

// The edge of this graph that this pair derives.
fn derived(graph: Graph, from: u32, to: u32, read_from: u32, write_order: u32) -> DerivedEdge {
    DerivedEdge {
        edge: Edge { graph, from, to },
        read_from,
        write_order,
    }
}

#[test]
fn either_atom_comes_last(rt: HostRuntime) -> Result<(), Fail> {
    let nodes = [alone(0), alone(1), alone(2)];
    let read = AtomKind::ReadFrom { write: 0, read: 1 };
    let order = AtomKind::WriteOrder {
        first: 0,
        second: 2,
    };
    let mut froms = start(rt.alloc(), &nodes, &[read, order])?;
    assert_eq!(rt; raise(&mut froms, 0), 0);
    assert_eq!(rt; raise(&mut froms, 1), 2);
    let want = [
        derived(Graph::Local, 1, 2, 0, 1),
        derived(Graph::Global, 1, 2, 0, 1),
    ];
    assert_eq!(rt; froms.derived(), want.as_slice());

    let mut froms = start(rt.alloc(), &nodes, &[order, read])?;
    assert_eq!(rt; raise(&mut froms, 0), 0);
    assert_eq!(rt; raise(&mut froms, 1), 2);
    let want = [
        derived(Graph::Local, 1, 2, 1, 0),
        derived(Graph::Global, 1, 2, 1, 0),
    ];
    assert_eq!(rt; froms.derived(), want.as_slice());
    Ok(())
}

#[test]
fn two_pairs_give_one_edge(rt: HostRuntime) -> Result<(), Fail> {
    let nodes = [alone(0), alone(1), alone(2), alone(3)];
    let order = AtomKind::WriteOrder {
        first: 0,
        second: 2,
    };
    let other = AtomKind::WriteOrder {
        first: 3,
        second: 2,
    };
    let read = AtomKind::ReadFrom { write: 0, read: 1 };
    let mut froms = start(rt.alloc(), &nodes, &[other, order, order, read, read])?;
    assert_eq!(rt; raise(&mut froms, 0), 0);
    assert_eq!(rt; raise(&mut froms, 1), 0);
    assert_eq!(rt; raise(&mut froms, 2), 0);
    assert_eq!(rt; raise(&mut froms, 3), 2);
    assert_eq!(rt; raise(&mut froms, 4), 0);
    let want = [
        derived(Graph::Local, 1, 2, 3, 1),
        derived(Graph::Global, 1, 2, 3, 1),
    ];
    assert_eq!(rt; froms.derived(), want.as_slice());
    Ok(())
}

#[test]
fn blocks_are_left_and_entered_as_a_whole(rt: HostRuntime) -> Result<(), Fail> {
    let left = Node {
        block: 1,
        first: 1,
        last: 2,
    };
    let entered = Node {
        block: 3,
        first: 3,
        last: 4,
    };
    let nodes = [alone(0), left, left, entered, entered];
    let read = AtomKind::ReadFrom { write: 0, read: 1 };
    let outside = AtomKind::WriteOrder {
        first: 0,
        second: 4,
    };
    let inside = AtomKind::WriteOrder {
        first: 0,
        second: 2,
    };
    let mut froms = start(rt.alloc(), &nodes, &[read, outside, inside])?;
    raise(&mut froms, 0);
    raise(&mut froms, 1);
    raise(&mut froms, 2);
    let want = [
        derived(Graph::Local, 1, 4, 0, 1),
        derived(Graph::Global, 2, 3, 0, 1),
        derived(Graph::Local, 1, 2, 0, 2),
        derived(Graph::Global, 1, 2, 0, 2),
    ];
    assert_eq!(rt; froms.derived(), want.as_slice());
    Ok(())
}

#[test]
fn edges_go_with_their_atoms(rt: HostRuntime) -> Result<(), Fail> {
    let nodes = [alone(0), alone(1), alone(2), alone(3)];
    let read = AtomKind::ReadFrom { write: 0, read: 1 };
    let second = AtomKind::WriteOrder {
        first: 0,
        second: 2,
    };
    let third = AtomKind::WriteOrder {
        first: 0,
        second: 3,
    };
    let mut froms = start(
        rt.alloc(),
        &nodes,
        &[read, second, AtomKind::Plain, third, second],
    )?;
    raise(&mut froms, 0);
    assert_eq!(rt; raise(&mut froms, 1), 2);
    assert_eq!(rt; raise(&mut froms, 2), 0);
    assert_eq!(rt; froms.mark(), 3);
    cut(&mut froms, 1);
    assert_eq!(rt; froms.mark(), 1);
    assert_eq!(rt; froms.derived().len(), 0);
    assert_eq!(rt; raise(&mut froms, 3), 2);
    assert_eq!(rt; raise(&mut froms, 4), 2);
    let want = [
        derived(Graph::Local, 1, 3, 0, 3),
        derived(Graph::Global, 1, 3, 0, 3),
        derived(Graph::Local, 1, 2, 0, 4),
        derived(Graph::Global, 1, 2, 0, 4),
    ];
    assert_eq!(rt; froms.derived(), want.as_slice());
    cut(&mut froms, 0);
    assert_eq!(rt; froms.derived().len(), 0);
    Ok(())
}

// The kind of an atom among 600: of each 30 the first half read from one write, and the others
// order another write behind it.
fn kind_of(atom: u32) -> AtomKind
    requires { atom < 600 }
{
    let write = 600 + atom / 30;
    if atom % 30 < 15 {
        AtomKind::ReadFrom { write, read: atom }
    } else {
        AtomKind::WriteOrder {
            first: write,
            second: atom,
        }
    }
}

#[test]
fn six_hundred_atoms(rt: HostRuntime) -> Result<(), Fail> {
    let mut nodes = Vec::with_capacity(rt.alloc(), 620)?;
    for node in 0..620u32 {
        nodes.push_reserved(alone(node));
    }
    let mut kinds = Vec::with_capacity(rt.alloc(), 600)?;
    for atom in 0..600u32 {
        kinds.push_reserved(kind_of(atom));
    }
    let mut froms = start(rt.alloc(), &nodes, &kinds)?;
    let mut count = 0;
    for atom in 0..600u32 {
        let more = raise(&mut froms, atom);
        assert_eq!(rt; more, if atom % 30 < 15 { 0 } else { 30 });
        count += more as u64;
    }
    assert_eq!(rt; count, 9000);
    assert_eq!(rt; froms.derived().len(), 9000);
    cut(&mut froms, 45);
    assert_eq!(rt; froms.derived().len(), 450);
    Ok(())
}
