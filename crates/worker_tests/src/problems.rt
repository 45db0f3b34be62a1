// The problems that workers are tried on.
ghost use Rattle.std.specs.Prelude.{◌≡◌, ◌<◌, length, All, IfOk, OnOk};
ghost use Rattle.cnf_problem.specs.Bounds.{IsAtomOver, IsBetween, IsNodeOf};
ghost use Rattle.cnf_problem.specs.Literals.{var as variable, IsOver};

use cnf_problem::{Atom, AtomKind, Edge, Gates, Graph, LemmaKind, Node, Problem, negated};
use dg_base::{List, Lit, OutOfMemory};
use lemma_log::Entry;
use std::alloc::Global;

// A literal or its negation.
fn signed(lit: Lit, plain: bool) -> Lit
    ensures { variable result ≡ variable lit }
{
    if plain { lit } else { negated(lit) }
}

// The eight clauses of three variables in all signs: no assignment, and no unit clause.
pub(crate) fn all_signs(alloc: Global) -> Result<Problem, OutOfMemory> {
    let mut gates = Gates::new(alloc)?;
    let a = gates.fresh()?;
    let b = gates.fresh()?;
    let c = gates.fresh()?;
    for signs in 0..8u32 {
        let first = signed(a, signs % 2 == 0);
        let second = signed(b, (signs / 2) % 2 == 0);
        let third = signed(c, signs / 4 == 0);
        gates.clause(&[first, second, third])?;
    }
    gates.finish(List::new(alloc), List::new(alloc), List::new(alloc))
}

fn edge(from: u32, to: u32) -> Edge
    requires from { from < 20 }
    requires to { to < 20 }
    ensures { IsBetween 20 result }
{
    Edge {
        graph: Graph::Local,
        from,
        to,
    }
}

// Twenty nodes, each alone in its block.
fn twenty_nodes(alloc: Global) -> Result<List<Node>, OutOfMemory>
    ensures { IfOk result (λ nodes. (length nodes ≡ 20) × All (IsNodeOf 20) nodes) }
{
    let mut nodes = List::new(alloc);
    for n in 0..20u32 {
        nodes.push(Node {
            block: n,
            first: n,
            last: n,
        })?;
    }
    Ok(nodes)
}

// An atom of this literal with one edge.
fn atom(alloc: Global, lit: Lit, from: u32, to: u32) -> Result<Atom, OutOfMemory>
    requires lit { IsOver 31 lit }
    requires from { from < 20 }
    requires to { to < 20 }
    ensures { IfOk result (IsAtomOver 31 20) }
{
    Ok(Atom {
        lit,
        kind: AtomKind::Plain,
        edges: List::from_slice(alloc, &[edge(from, to)])?,
    })
}

// The thirty variables behind the constant.
fn thirty_variables(alloc: Global) -> Result<Gates, OutOfMemory>
    ensures { IfOk result (λ gates. gates.vars ≡ 31) }
{
    let mut gates = Gates::new(alloc)?;
    for _made in 1..31u32 {
        gates.fresh()?;
    }
    Ok(gates)
}

// The three literals of part `i`: two edges between its nodes, there and back, and a third.
fn part(i: u32) -> (Lit, Lit, Lit)
    requires { i < 10 }
    ensures there { IsOver 31 result.0 }
    ensures back { IsOver 31 result.1 }
    ensures third { IsOver 31 result.2 }
{
    (Lit(6 * i + 4), Lit(6 * i + 6), Lit(6 * i + 8))
}

// Part `i`: where the third literal is false, its two edges close a cycle.
fn add_part(
    alloc: Global,
    gates: &mut Gates,
    atoms: &mut List<Atom>,
    i: u32,
) -> Result<(), OutOfMemory>
    requires i { i < 10 }
    requires vars { gates.old.vars ≡ 31 }
    requires atoms { All (IsAtomOver 31 20) atoms.old }
    ensures vars { OnOk result (gates.new.vars ≡ 31) }
    ensures atoms { OnOk result (All (IsAtomOver 31 20) atoms.new) }
{
    let (there, back, third) = part(i);
    gates.clause(&[there, third])?;
    gates.clause(&[back, third])?;
    atoms.push(atom(alloc, there, 2 * i, 2 * i + 1)?)?;
    atoms.push(atom(alloc, back, 2 * i + 1, 2 * i)?)?;
    Ok(())
}

// Ten parts, each with two nodes, and a clause that denies all of their third literals. Each third
// literal follows only from the cycle of its part, so that a refutation needs the ten cycle lemmas
// `not there, not back`, and no other cycle can be closed.
pub(crate) fn ten_cycles(alloc: Global) -> Result<Problem, OutOfMemory> {
    let mut gates = thirty_variables(alloc)?;
    let mut atoms = List::new(alloc);
    let mut thirds = List::new(alloc);
    for i in 0..10u32 {
        add_part(alloc, &mut gates, &mut atoms, i)?;
        let (_, _, third) = part(i);
        thirds.push(negated(third))?;
    }
    gates.clause(thirds.as_slice())?;
    if atoms.len() > 20 {
        return Err(OutOfMemory);
    }
    gates.finish(twenty_nodes(alloc)?, atoms, List::new(alloc))
}

// How many lemmas of a log are by a cycle.
pub(crate) fn cycles_in(log: &[Entry]) -> usize {
    log.iter()
        .filter(|entry| entry.lemma.kind == LemmaKind::Cycle)
        .count()
}
