//! The links of events, one event after another.

ghost use Rattle.std.specs.Prelude.{◌≡◌, ◌+◌, ◌<◌, ◌++◌, ◌∷◌, [], length, map, IfOk, IsTrue, ◌↔◌, ◌⊎◌};
ghost use Rattle.memory_models.specs.declared.StaticKind.TheVariants as kinds;
ghost use Rattle.cnf_problem.specs.Formulas.{Formula};
ghost use Rattle.order_vars.specs.Atoms.{nodes_of, read_atom as read_link, order_atom as order_link, join_atom as join_link};
ghost use Rattle.order_vars.specs.Links.{reading, rivalry, joining, MayRead, AreRivals, MayJoin};
ghost use Rattle.order_vars.specs.Orders.{AreEventsOver};
ghost use Rattle.order_vars.specs.Growing.{AddsLink, IsLinked, Built};

use crate::pair_clauses::{both_happen, same_bits, some_bit, some_order};
use crate::scene::{Scene, global, is_global_read, local};
use crate::tie::{Tie, how_tied};
use cnf_problem::{Atom, AtomKind, Gates, negated};
use dg_base::{List, Lit, OutOfMemory};
use memory_models::StaticKind;

// The atom that a read takes its value from a write.
fn read_atom(scene: &Scene, lit: Lit, write: u32, read: u32) -> Result<Atom, OutOfMemory>
    requires write { write < length scene.now.events.now }
    requires read { read < length scene.now.events.now }
    requires nodes { scene.now.nodes.now ≡ nodes_of scene.now.events.now }
    ensures { IfOk result (λ a. a ≡ read_link scene.now.model scene.now.events.now lit write read) }
{
    let mut edges = List::new(scene.alloc);
    edges.push(local(write, read))?;
    if is_global_read(scene.model, scene.events, write, read) {
        edges.push(global(scene.nodes, write, read))?;
    }
    Ok(Atom {
        lit,
        kind: AtomKind::ReadFrom { write, read },
        edges,
    })
}

// The atom that a write comes before another.
fn order_atom(scene: &Scene, lit: Lit, first: u32, second: u32) -> Result<Atom, OutOfMemory>
    requires first { first < length scene.now.events.now }
    requires second { second < length scene.now.events.now }
    requires nodes { scene.now.nodes.now ≡ nodes_of scene.now.events.now }
    ensures { IfOk result (λ a. a ≡ order_link scene.now.events.now lit first second) }
{
    let mut edges = List::new(scene.alloc);
    edges.push(local(first, second))?;
    edges.push(global(scene.nodes, first, second))?;
    Ok(Atom {
        lit,
        kind: AtomKind::WriteOrder { first, second },
        edges,
    })
}

// The atom that a join waits for an end.
fn join_atom(scene: &Scene, lit: Lit, end: u32, join: u32) -> Result<Atom, OutOfMemory>
    requires end { end < length scene.now.events.now }
    requires join { join < length scene.now.events.now }
    requires nodes { scene.now.nodes.now ≡ nodes_of scene.now.events.now }
    ensures { IfOk result (λ a. a ≡ join_link scene.now.events.now lit end join) }
{
    let mut edges = List::new(scene.alloc);
    edges.push(global(scene.nodes, end, join))?;
    Ok(Atom {
        lit,
        kind: AtomKind::Plain,
        edges,
    })
}

// A write of which the read may take its value.
fn link_source(
    scene: &Scene,
    write: u32,
    read: u32,
    gates: &mut Gates,
    atoms: &mut List<Atom>,
) -> Result<Lit, OutOfMemory>
    requires write { write < length scene.now.events.now }
    requires read { read < length scene.now.events.now }
    requires nodes { scene.now.nodes.now ≡ nodes_of scene.now.events.now }
    requires over { AreEventsOver gates.old.vars scene.now.events.now (map (λ v. v.bits) scene.now.values.now) }
    requires tied { MayRead scene.now.events.now write read }
    ensures added { IfOk result (λ l. AddsLink scene.now.events.now (map (λ v. v.bits) scene.now.values.now) gates.old gates.new (reading write read l)) }
    ensures atoms { IfOk result (λ l. atoms.new ≡ atoms.old ++ read_link scene.now.model scene.now.events.now l write read ∷ []) }
{
    let (from, to) = (write as usize, read as usize);
    let lit = gates.fresh()?;
    both_happen(gates, lit, scene.events[from].guard, scene.events[to].guard)?;
    same_bits(gates, lit, &scene.values[from].bits, &scene.values[to].bits)?;
    atoms.push(read_atom(scene, lit, write, read)?)?;
    Ok(lit)
}

// An end for which the join may wait.
fn link_end(
    scene: &Scene,
    end: u32,
    join: u32,
    gates: &mut Gates,
    atoms: &mut List<Atom>,
) -> Result<Lit, OutOfMemory>
    requires end { end < length scene.now.events.now }
    requires join { join < length scene.now.events.now }
    requires nodes { scene.now.nodes.now ≡ nodes_of scene.now.events.now }
    requires over { AreEventsOver gates.old.vars scene.now.events.now (map (λ v. v.bits) scene.now.values.now) }
    requires tied { MayJoin scene.now.events.now end join }
    ensures added { IfOk result (λ l. AddsLink scene.now.events.now (map (λ v. v.bits) scene.now.values.now) gates.old gates.new (joining end join l)) }
    ensures atoms { IfOk result (λ l. atoms.new ≡ atoms.old ++ join_link scene.now.events.now l end join ∷ []) }
{
    let (from, to) = (end as usize, join as usize);
    let guards = (scene.events[from].guard, scene.events[to].guard);
    let lit = gates.fresh()?;
    both_happen(gates, lit, guards.0, guards.1)?;
    same_bits(gates, lit, &scene.values[from].bits, &scene.values[to].bits)?;
    some_bit(gates, lit, &scene.values[to].bits)?;
    atoms.push(join_atom(scene, lit, end, join)?)?;
    Ok(lit)
}

// Two writes of one cell.
fn link_rivals(
    scene: &Scene,
    first: u32,
    second: u32,
    gates: &mut Gates,
    atoms: &mut List<Atom>,
) -> Result<(Lit, Lit), OutOfMemory>
    requires first { first < length scene.now.events.now }
    requires second { second < length scene.now.events.now }
    requires nodes { scene.now.nodes.now ≡ nodes_of scene.now.events.now }
    requires over { AreEventsOver gates.old.vars scene.now.events.now (map (λ v. v.bits) scene.now.values.now) }
    requires tied { AreRivals scene.now.events.now first second }
    ensures { IfOk result (λ o. AddsLink scene.now.events.now (map (λ v. v.bits) scene.now.values.now) gates.old gates.new (rivalry first second o.0 o.1) × (atoms.new ≡ atoms.old ++ order_link scene.now.events.now o.0 first second ∷ order_link scene.now.events.now o.1 second first ∷ [])) }
{
    let guards = (
        scene.events[first as usize].guard,
        scene.events[second as usize].guard,
    );
    let lit = gates.fresh()?;
    let back = gates.fresh()?;
    both_happen(gates, lit, guards.0, guards.1)?;
    both_happen(gates, back, guards.0, guards.1)?;
    some_order(gates, guards, lit, back)?;
    atoms.push(order_atom(scene, lit, first, second)?)?;
    atoms.push(order_atom(scene, back, second, first)?)?;
    Ok((lit, back))
}

// The link from one event to another, if they are tied. Where one of such literals has to be true,
// it is put behind the others.
fn link(
    scene: &Scene,
    from: u32,
    to: u32,
    gates: &mut Gates,
    atoms: &mut List<Atom>,
    choices: &mut List<Lit>,
) -> Result<(), OutOfMemory>
    requires from { from < length scene.now.events.now }
    requires to { to < length scene.now.events.now }
    requires nodes { scene.now.nodes.now ≡ nodes_of scene.now.events.now }
    requires over { AreEventsOver gates.old.vars scene.now.events.now (map (λ v. v.bits) scene.now.values.now) }
    ensures { IfOk result (λ _. IsLinked scene.now.model scene.now.events.now (map (λ v. v.bits) scene.now.values.now) gates.old gates.new atoms.old atoms.new choices.old choices.new from to) }
{
    let (first, second) = (&scene.events[from as usize], &scene.events[to as usize]);
    match how_tied(first, second, from < to) {
        Tie::Apart => {}
        Tie::Source => choices.push(link_source(scene, from, to, gates, atoms)?)?,
        Tie::Initial => atoms.push(order_atom(scene, second.guard, from, to)?)?,
        Tie::Rival => {
            link_rivals(scene, from, to, gates, atoms)?;
        }
        Tie::End => choices.push(link_end(scene, from, to, gates, atoms)?)?,
    }
    Ok(())
}

// Whether the event needs one of those that it is linked to.
fn is_choosing(kind: StaticKind) -> bool
    ensures { IsTrue result ↔ ((kind ≡ kinds.Read) ⊎ (kind ≡ kinds.Join)) }
{
    matches!(kind, StaticKind::Read | StaticKind::Join)
}

/// The links from all events into one.
pub(crate) fn link_into(
    scene: &Scene,
    to: u32,
    count: u32,
    gates: &mut Gates,
    atoms: &mut List<Atom>,
) -> Result<(), OutOfMemory>
    requires count { count ≡ length scene.now.events.now }
    requires to { to < count }
    requires nodes { scene.now.nodes.now ≡ nodes_of scene.now.events.now }
    requires over { AreEventsOver gates.old.vars scene.now.events.now (map (λ v. v.bits) scene.now.values.now) }
    ensures { IfOk result (λ _. (base : Formula) → Built scene.now.model scene.now.events.now (map (λ v. v.bits) scene.now.values.now) base gates.old atoms.old to 0 → Built scene.now.model scene.now.events.now (map (λ v. v.bits) scene.now.values.now) base gates.new atoms.new (to + 1) 0) }
{
    let event = scene.events[to as usize];
    let mut choices = List::new(scene.alloc);
    choices.push(negated(event.guard))?;
    for from in 0..count {
        link(scene, from, to, gates, atoms, &mut choices)?;
    }
    if is_choosing(event.kind) {
        gates.clause(choices.as_slice())?;
    }
    Ok(())
}
