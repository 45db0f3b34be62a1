// Cycle lemmas, of a problem with nodes and atoms.
ghost use Rattle.std.specs.Prelude.{◌≡◌, [], ◌∷◌, IfOk};
ghost use Rattle.cnf_problem.specs.declared.problem.Graph.TheVariants.{Local as InLocal};

use crate::hinted::answer;
use crate::logs::Told;
use cnf_problem::{Atom, AtomKind, Edge, Gates, Graph, Node, Problem};
use dg_base::{List, Lit, OutOfMemory};
use std::alloc::Global;
use std::test::Fail;

const HEAD: &str = "deagle-log 2\nmodel sc\nunroll 1\nvars 4\nclauses 3\nnodes 3\natoms 3\n";

// Where 2 and 3 are true, the read comes before the second write, by an edge that both derive; the fixed edge closes a cycle. So do
// the edges of 2 and 4, and those of 3 and 4 with the fixed one.
const TEXTS: &[(&str, Told)] = &[
    ("0 0 c -2 -3 0\nend\n", Told::NoEmpty(1)),
    ("0 0 c -2 -4 0\nend\n", Told::NoEmpty(1)),
    ("0 0 c -2 0\nend\n", Told::NoCycle(0, 3)),
    ("0 0 c -3 -4 0\nend\n", Told::NoEmpty(1)),
    ("0 0 c -4 0\nend\n", Told::NoCycle(0, 3)),
    ("0 0 c -2 3 0\nend\n", Told::NoCycle(0, 3)),
    ("0 0 c -2 -3 0\n1 0 c -3 0\nend\n", Told::NoCycle(1, 3)),
    // a cycle lemma is named as any other
    ("0 0 c -2 -3 0\n1 0 u -2 -3 0 t0 0\nend\n", Told::NoEmpty(2)),
    ("0 0 c -2 5 0\nend\n", Told::BadNumber(0, 5)),
];

fn edge(from: u32, to: u32) -> Edge
    ensures { result ≡ record { graph = InLocal; from = from; to = to } }
{
    Edge {
        graph: Graph::Local,
        from,
        to,
    }
}

fn node(place: u32) -> Node
    ensures { result ≡ record { block = place; first = place; last = place } }
{
    Node {
        block: place,
        first: place,
        last: place,
    }
}

fn atom(alloc: Global, lit: Lit, kind: AtomKind, edge: Edge) -> Result<Atom, OutOfMemory>
    ensures { IfOk result (λ a. a ≡ record { lit = lit; kind = kind; edges = edge ∷ [] }) }
{
    Ok(Atom {
        lit,
        kind,
        edges: List::from_slice(alloc, &[edge])?,
    })
}

/// The nodes are a write, a read of it, and another write, with a fixed edge from the last to the read. The clauses say that 2 and 3
/// are true.
pub fn three_nodes(alloc: Global) -> Result<Problem, OutOfMemory> {
    let mut gates = Gates::new(alloc)?;
    let reads = gates.fresh()?;
    let orders = gates.fresh()?;
    let plain = gates.fresh()?;
    gates.clause(&[reads])?;
    gates.clause(&[orders])?;
    let source = AtomKind::ReadFrom { write: 0, read: 1 };
    let order = AtomKind::WriteOrder {
        first: 0,
        second: 2,
    };
    let mut atoms = List::new(alloc);
    atoms.push(atom(alloc, reads, source, edge(0, 1))?)?;
    atoms.push(atom(alloc, orders, order, edge(0, 2))?)?;
    atoms.push(atom(alloc, plain, AtomKind::Plain, edge(1, 0))?)?;
    let nodes = List::from_slice(alloc, &[node(0), node(1), node(2)])?;
    gates.finish(nodes, atoms, List::from_slice(alloc, &[edge(2, 1)])?)
}

#[test]
fn hinted_logs_of_three_nodes(rt: HostRuntime) -> Result<(), Fail> {
    let problem = three_nodes(rt.alloc())?;
    for (behind, wanted) in TEXTS {
        assert_eq!(rt;
            answer(rt.alloc(), &problem, HEAD, behind)?,
            *wanted,
            "at {behind}"
        );
    }
    Ok(())
}
