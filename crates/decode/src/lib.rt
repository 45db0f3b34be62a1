//! From a consistent assignment of a program's problem back to the execution that it spells.
//!
//! The instances that run are the threads, with their handles and scripts (`threads`); an event's place counts the earlier ones of its
//! instance that happen (`places`); a read's source is the write of its true atom, and a write's place in the order of its cell is the
//! number of true atoms that put a write before it (`relations`). One pass over events or atoms makes each table, and one pass over the
//! events each cell's order. The layers above use [`decode`] alone.
#![tactic(auto)]

mod places;
mod relations;
mod tables;
mod threads;
mod values;

ghost use Rattle.std.specs.Prelude.{IfOk, length};
ghost use Rattle.cnf_problem.specs.Problems.{IsConsistent};
ghost use Rattle.flat_prog.specs.declared.Flat.{Flat};
ghost use Rattle.encode_match.specs.Encoding.{SpellsFailure};
ghost use Rattle.encode_match.specs.Parts.{IsChain};
ghost use Rattle.decode.specs.Fitting.{AreFit, IsTabled};

use crate::places::places;
use crate::relations::{orders, pairs};
use crate::tables::{ranks, sources};
use crate::threads::{handles, threads};
use axiom_model::Candidate;
use c_check::Checked;
use cnf_problem::{Assignment, Atom};
use dg_base::OutOfMemory;
use encode_match::{Encoded, PartMap, chain_encodes};
use event_graph::events_are_static;
use memory_models::{EventBits, StaticEvent};
use std::alloc::Global;

// The candidate that truth values spell, with its tables.
fn spell(
    alloc: Global,
    truths: &[bool],
    atoms: &[Atom],
    events: &[StaticEvent],
    bits: &[EventBits],
    parts: &[PartMap],
) -> Result<Candidate, OutOfMemory>
    requires { AreFit truths.now atoms.now events.now bits.now (length parts.now) }
    ensures { IfOk result (IsTabled truths.now atoms.now events.now bits.now parts.now) }
{
    let handles = handles(alloc, truths, events, bits, parts.len())?;
    let places = places(alloc, truths, events, handles.as_slice())?;
    let sources = sources(alloc, truths, atoms, events.len())?;
    let table = ranks(alloc, truths, atoms, events.len())?;
    let ranks = table.as_slice();
    let places = places.as_slice();
    let threads = threads(alloc, truths, handles.as_slice(), parts)?;
    let rf = pairs(alloc, truths, events, places, sources.as_slice())?;
    let co = orders(alloc, truths, events, places, ranks)?;
    Ok(Candidate { threads, rf, co })
}

/// The failing execution that a consistent assignment spells.
///
/// # Errors
/// Want of memory alone.
pub fn decode(
    alloc: Global,
    checked: &Checked,
    encoded: &Encoded,
    assignment: &Assignment,
) -> Result<Candidate, OutOfMemory>
    requires chain { (flat : Flat) × IsChain checked.now encoded.now.model flat encoded.now }
    requires consistent { IsConsistent encoded.now.problem assignment.now }
    ensures { IfOk result (SpellsFailure checked.now encoded.now assignment.now) }
{
    chain_encodes();
    events_are_static();
    let _ = checked;
    let truths = assignment.as_slice();
    let atoms = encoded.problem.atoms.as_slice();
    let events = encoded.map.graph.events.as_slice();
    let bits = encoded.map.graph.bits.as_slice();
    let parts = encoded.map.parts.as_slice();
    spell(alloc, truths, atoms, events, bits, parts)
}
