ghost use Rattle.std.specs.Prelude.{◌≡◌, ◌<◌, ℕ, List, length, Contains, IfOk, OnOk, slice_get, Some};
ghost use Rattle.dg_base.specs.declared.Lit.{Lit};
ghost use Rattle.cnf_problem.specs.declared.problem.Atom.{Atom};
ghost use Rattle.cnf_problem.specs.declared.problem.Edge.{Edge as AnEdge};
ghost use Rattle.cnf_problem.specs.Literals.{negated as negation};
ghost use Rattle.cnf_problem.specs.declared.problem.Graph.{Graph};
ghost use Rattle.cnf_problem.specs.Edges.{HasEdge};
ghost use Rattle.cycle_detect.specs.Orders.{Held, IsClosed};
ghost use Rattle.order_solver.specs.declared.caused.Cause.{Cause as ACause};
ghost use Rattle.order_solver.specs.Ordering.{IsCause};
ghost use Rattle.order_solver.specs.Parts.{IsAdded, Denied, Denies, IsDenying, IsNamed, AreCaused, IsExplained};

use crate::caused::{Cause, CausedGraph};
use cnf_problem::{Edge, Problem, negated};
use dg_base::OutOfMemory;
use std::alloc::Global;
use trail_state::Lits;

/// An edge that would close a cycle in its graph, and its cause.
#[derive(Clone, Copy, Debug, Drop)]
pub struct Closing {
    pub edge: Edge,
    pub cause: Cause,
}

// Puts the negation of an atom's literal behind the others, unless it is there.
fn deny(problem: &Problem, atom: u32, clause: &mut Lits) -> Result<(), OutOfMemory>
    requires { atom < length problem.now.atoms }
    ensures ok { OnOk result ((x : Atom) → slice_get problem.now.atoms atom ≡ Some x → IsAdded clause.old (negation x.lit) clause.new) }
{
    let lit = negated(problem.atoms.as_slice()[atom as usize].lit);
    if clause.as_slice().contains(&lit) {
        return Ok(());
    }
    clause.push(lit)
}

// Puts the negations of the literals of a cause's atoms behind the others, unless they are there.
fn deny_cause(problem: &Problem, cause: Cause, clause: &mut Lits) -> Result<(), OutOfMemory>
    requires { IsNamed problem.now cause }
    ensures denies { OnOk result (Denies problem.now clause.new cause) }
    ensures more { OnOk result ((l : Lit) → Contains clause.old l → Contains clause.new l) }
    ensures denying { OnOk result ((lits : List Lit) (e : AnEdge) → IsCause problem.now lits e cause → IsDenying problem.now lits clause.old → IsDenying problem.now lits clause.new) }
{
    match cause {
        Cause::Fixed => {}
        Cause::Own(atom) => deny(problem, atom, clause)?,
        Cause::Pair {
            read_from,
            write_order,
        } => {
            deny(problem, read_from, clause)?;
            deny(problem, write_order, clause)?;
        }
    }
    Ok(())
}

// Puts the negations of the literals behind the others that cause the newest edge with these ends,
// unless they are there.
fn deny_step(
    problem: &Problem,
    graph: &CausedGraph,
    from: u32,
    to: u32,
    clause: &mut Lits,
) -> Result<(), OutOfMemory>
    requires to { to < graph.now.nodes }
    requires held { Held graph.now.edges from to }
    requires named { (i : ℕ) (c : ACause) → slice_get graph.now.causes i ≡ Some c → IsNamed problem.now c }
    ensures step { OnOk result ((lits : List Lit) (g : Graph) → AreCaused problem.now lits g graph.now.edges graph.now.causes → HasEdge problem.now (Denied clause.new) (record { graph = g; from = from; to = to })) }
    ensures more { OnOk result ((l : Lit) → Contains clause.old l → Contains clause.new l) }
    ensures denying { OnOk result ((lits : List Lit) (g : Graph) → AreCaused problem.now lits g graph.now.edges graph.now.causes → IsDenying problem.now lits clause.old → IsDenying problem.now lits clause.new) }
{
    match graph.cause_of(from, to) {
        None => Ok(()),
        Some(cause) => {
            deny_cause(problem, cause, clause)?;
            Ok(())
        }
    }
}

/// The clause that denies the causes along the last cycle, which this edge closes.
pub fn explain(
    alloc: Global,
    problem: &Problem,
    graph: &CausedGraph,
    closing: Closing,
) -> Result<Lits, OutOfMemory>
    requires nodes { graph.now.nodes ≡ length problem.now.nodes }
    requires closed { IsClosed graph.now.edges closing.edge.from closing.edge.to graph.now.cycle }
    requires caused { (lits : List Lit) × AreCaused problem.now lits closing.edge.graph graph.now.edges graph.now.causes × IsCause problem.now lits closing.edge closing.cause }
    ensures explained { IfOk result (λ clause. (lits : List Lit) → AreCaused problem.now lits closing.edge.graph graph.now.edges graph.now.causes → IsCause problem.now lits closing.edge closing.cause → IsExplained problem.now lits clause) }
    ensures denies { IfOk result (λ clause. Denies problem.now clause closing.cause) }
{
    let cycle = graph.last_cycle();
    let mut clause = Lits::new(alloc);
    deny_cause(problem, closing.cause, &mut clause)?;
    for i in 1..cycle.len() {
        deny_step(problem, graph, cycle[i - 1], cycle[i], &mut clause)?;
    }
    Ok(clause)
}
