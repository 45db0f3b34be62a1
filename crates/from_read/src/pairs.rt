ghost use Rattle.std.specs.Prelude.{◌≡◌, ◌<◌, ℕ, length, Contains};
ghost use Rattle.cnf_problem.specs.Edges.{global_edge};
ghost use Rattle.cnf_problem.specs.declared.problem.AtomKind.TheVariants.{ReadFrom, WriteOrder, Plain};
ghost use Rattle.from_read.specs.Derivations.{kind_at};
ghost use Rattle.from_read.specs.Parts.{ArePut, ArePutFor, IsFine, pair_edges};

use crate::edge_set::EdgeSet;
use cnf_problem::{AtomKind, Edge, Graph, Node};

// The global edge from a read to a later write.
fn edge_between(nodes: &[Node], read: u32, second: u32) -> Edge
    requires read { read < length nodes.now }
    requires second { second < length nodes.now }
    ensures { result ≡ global_edge nodes.now read second }
{
    let (before, after) = (nodes[read as usize], nodes[second as usize]);
    let inside = before.block == after.block;
    Edge {
        graph: Graph::Global,
        from: if inside { read } else { before.last },
        to: if inside { second } else { after.first },
    }
}

// Puts the edges that a pair of atoms derives.
fn put_pair(
    nodes: &[Node],
    kinds: &[AtomKind],
    read_from: u32,
    write_order: u32,
    found: &mut EdgeSet,
)
    requires read_from { read_from < length kinds.now }
    requires write_order { write_order < length kinds.now }
    requires fine { IsFine nodes.now kinds.now found.old }
    ensures put { ArePut (pair_edges nodes.now kinds.now read_from write_order) found.old.list found.new.list }
    ensures fine { IsFine nodes.now kinds.now found.new }
{
    let AtomKind::ReadFrom { write, read } = kinds[read_from as usize] else {
        return;
    };
    let AtomKind::WriteOrder { first, second } = kinds[write_order as usize] else {
        return;
    };
    if write == first {
        let local = Edge {
            graph: Graph::Local,
            from: read,
            to: second,
        };
        found.put(local, read_from, write_order);
        found.put(edge_between(nodes, read, second), read_from, write_order);
    }
}

// Puts the edges that an atom of a read derives with these.
fn put_read(nodes: &[Node], kinds: &[AtomKind], atom: u32, orders: &[u32], found: &mut EdgeSet)
    requires atom { atom < length kinds.now }
    requires orders { (b : ℕ) → Contains orders.now b → b < length kinds.now }
    requires fine { IsFine nodes.now kinds.now found.old }
    ensures put { ArePutFor (λ b. pair_edges nodes.now kinds.now atom b) orders.now found.old.list found.new.list }
    ensures fine { IsFine nodes.now kinds.now found.new }
{
    for order in orders {
        put_pair(nodes, kinds, atom, *order, found);
    }
}

// Puts the edges that an atom which orders two writes derives with these.
fn put_order(nodes: &[Node], kinds: &[AtomKind], reads: &[u32], atom: u32, found: &mut EdgeSet)
    requires atom { atom < length kinds.now }
    requires reads { (a : ℕ) → Contains reads.now a → a < length kinds.now }
    requires fine { IsFine nodes.now kinds.now found.old }
    ensures put { ArePutFor (λ a. pair_edges nodes.now kinds.now a atom) reads.now found.old.list found.new.list }
    ensures fine { IsFine nodes.now kinds.now found.new }
{
    for read in reads {
        put_pair(nodes, kinds, *read, atom, found);
    }
}

/// Puts the edges that an atom derives with these reads or with these orders of writes.
pub fn put_all(
    nodes: &[Node],
    kinds: &[AtomKind],
    atom: u32,
    reads: &[u32],
    orders: &[u32],
    found: &mut EdgeSet,
)
    requires atom { atom < length kinds.now }
    requires reads { (a : ℕ) → Contains reads.now a → a < length kinds.now }
    requires orders { (b : ℕ) → Contains orders.now b → b < length kinds.now }
    requires fine { IsFine nodes.now kinds.now found.old }
    ensures read { (w r : ℕ) → kind_at kinds.now atom ≡ ReadFrom w r → ArePutFor (λ b. pair_edges nodes.now kinds.now atom b) orders.now found.old.list found.new.list }
    ensures order { (u v : ℕ) → kind_at kinds.now atom ≡ WriteOrder u v → ArePutFor (λ a. pair_edges nodes.now kinds.now a atom) reads.now found.old.list found.new.list }
    ensures plain { kind_at kinds.now atom ≡ Plain → found.new.list ≡ found.old.list }
    ensures fine { IsFine nodes.now kinds.now found.new }
{
    match kinds[atom as usize] {
        AtomKind::ReadFrom { .. } => put_read(nodes, kinds, atom, orders, found),
        AtomKind::WriteOrder { .. } => put_order(nodes, kinds, reads, atom, found),
        AtomKind::Plain => {}
    }
}
