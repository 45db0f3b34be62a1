// A plain search for a consistent assignment: decisions, unit propagation over all clauses, and cycles by reachability.
use cnf_problem::{Atom, AtomKind, Edge, Graph, Node, Problem, var};
use dg_base::Lit;
use std::alloc::{AllocError, Global};

// How many steps a search makes at most.
const MOST: usize = 20_000;

// What was assigned, in order: the variable, and whether it is a decision that may be turned.
type Trail = Vec<(usize, bool)>;

fn at(values: &[Option<bool>], variable: usize) -> Option<bool> {
    values.get(variable).copied().unwrap_or(None)
}

fn put(values: &mut [Option<bool>], variable: usize, value: Option<bool>) {
    if variable < values.len() {
        values[variable] = value;
    }
}

fn value(values: &[Option<bool>], lit: Lit) -> Option<bool> {
    match at(values, var(lit) as usize) {
        None => None,
        Some(is_true) => Some(is_true == (lit.0 % 2 == 0)),
    }
}

// What a clause asks for.
#[derive(Clone, Copy, Drop)]
enum Ask {
    Nothing,
    One(Lit),
    Never,
}

fn asked_by(values: &[Option<bool>], clause: &[Lit]) -> Ask {
    let mut asked = Ask::Never;
    for lit in clause {
        match value(values, *lit) {
            Some(true) => return Ask::Nothing,
            Some(false) => {}
            None => match asked {
                Ask::Never => asked = Ask::One(*lit),
                _ => return Ask::Nothing,
            },
        }
    }
    asked
}

// Assigns what clauses ask for. Whether none is false.
fn propagate(
    problem: &Problem,
    values: &mut [Option<bool>],
    trail: &mut Trail,
) -> Result<bool, AllocError> {
    for _round in 0..values.len() {
        let mut changed = false;
        for i in 0..problem.clauses.len() {
            match asked_by(values, problem.clauses.get(i)) {
                Ask::Nothing => {}
                Ask::Never => return Ok(false),
                Ask::One(lit) => {
                    let variable = var(lit) as usize;
                    put(values, variable, Some(lit.0 % 2 == 0));
                    trail.push((variable, false))?;
                    changed = true;
                }
            }
        }
        if !changed {
            return Ok(true);
        }
    }
    Ok(true)
}

fn is_true(values: &[Option<bool>], atom: &Atom) -> bool {
    matches!(value(values, atom.lit), Some(true))
}

// Which nodes reach which, so far.
#[derive(Drop)]
struct Reach {
    count: usize,
    reaches: Vec<bool>,
}

impl Reach {
    fn get(&self, from: usize, to: usize) -> bool {
        let place = from.wrapping_mul(self.count).wrapping_add(to);
        self.reaches.get(place).copied().unwrap_or(false)
    }

    fn put(&mut self, from: usize, to: usize) {
        let place = from.wrapping_mul(self.count).wrapping_add(to);
        if place < self.reaches.len() {
            self.reaches[place] = true;
        }
    }

    fn add(&mut self, graph: Graph, edge: Edge) {
        if edge.graph == graph {
            self.put(edge.from as usize, edge.to as usize);
        }
    }

    fn is_cyclic(&mut self) -> bool {
        let count = self.count;
        for middle in 0..count {
            for from in 0..count {
                if self.get(from, middle) {
                    for to in 0..count {
                        if self.get(middle, to) {
                            self.put(from, to);
                        }
                    }
                }
            }
        }
        (0..count).any(|n| self.get(n, n))
    }
}

fn node(nodes: &[Node], n: u32) -> Node {
    match nodes.get(n as usize) {
        Some(node) => *node,
        None => Node {
            block: n,
            first: n,
            last: n,
        },
    }
}

// The edges that a source and an order derive.
fn derive(reach: &mut Reach, graph: Graph, nodes: &[Node], read: u32, second: u32) {
    let (from, to) = (node(nodes, read), node(nodes, second));
    let inside = from.block == to.block;
    reach.add(
        graph,
        Edge {
            graph: Graph::Local,
            from: read,
            to: second,
        },
    );
    reach.add(
        graph,
        Edge {
            graph: Graph::Global,
            from: if inside { read } else { from.last },
            to: if inside { second } else { to.first },
        },
    );
}

// Whether the graph has a cycle, of what is true so far.
fn is_cyclic(
    alloc: Global,
    problem: &Problem,
    values: &[Option<bool>],
    graph: Graph,
) -> Result<bool, AllocError> {
    let count = problem.nodes.len();
    let mut reach = Reach {
        count,
        reaches: vec![in alloc; false; count.wrapping_mul(count)]?,
    };
    for edge in problem.fixed.as_slice() {
        reach.add(graph, *edge);
    }
    for atom in problem.atoms.as_slice() {
        if !is_true(values, atom) {
            continue;
        }
        for edge in atom.edges.as_slice() {
            reach.add(graph, *edge);
        }
        let AtomKind::ReadFrom { write, read } = atom.kind else {
            continue;
        };
        for order in problem.atoms.as_slice() {
            if let AtomKind::WriteOrder { first, second } = order.kind {
                if first == write && is_true(values, order) {
                    derive(&mut reach, graph, problem.nodes.as_slice(), read, second);
                }
            }
        }
    }
    Ok(reach.is_cyclic())
}

// The next variable to decide: of an atom, or else the first.
fn pick(problem: &Problem, values: &[Option<bool>]) -> Option<usize> {
    for atom in problem.atoms.as_slice() {
        let variable = var(atom.lit) as usize;
        if at(values, variable).is_none() {
            return Some(variable);
        }
    }
    (1..values.len()).find(|variable| at(values, *variable).is_none())
}

// Turns the last decision that may be turned. Whether there was one.
fn turn(values: &mut [Option<bool>], trail: &mut Trail) -> Result<bool, AllocError> {
    for _step in 0..trail.len() {
        let Some((variable, decided)) = trail.pop() else {
            return Ok(false);
        };
        if decided {
            put(values, variable, Some(false));
            trail.push((variable, false))?;
            return Ok(true);
        }
        put(values, variable, None);
    }
    Ok(false)
}

/// Whether a problem has a consistent assignment; none where the search makes no end.
pub fn is_consistent(alloc: Global, problem: &Problem) -> Result<Option<bool>, AllocError> {
    let mut values = vec![in alloc; None; (problem.vars as usize).wrapping_add(1)]?;
    let mut trail = Vec::new(alloc);
    for _step in 0..MOST {
        let fits = propagate(problem, &mut values, &mut trail)?
            && !is_cyclic(alloc, problem, &values, Graph::Local)?
            && !is_cyclic(alloc, problem, &values, Graph::Global)?;
        if !fits {
            if !turn(&mut values, &mut trail)? {
                return Ok(Some(false));
            }
            continue;
        }
        let Some(variable) = pick(problem, &values) else {
            return Ok(Some(true));
        };
        put(&mut values, variable, Some(true));
        trail.push((variable, true))?;
    }
    Ok(None)
}
