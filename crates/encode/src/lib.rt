//! A checked program and a memory model as one problem.
//!
//! The chain: the program is inlined and unrolled (`loop_unroll`), put into single assignment (`ssa_form`) and its terms into gates
//! (`bit_blast`); its actions are the events of a graph (`event_graph`), which are tied by ordering atoms (`order_vars`) and by what the
//! memory model keeps of program order (`memory_models`). This crate says at last in clauses that no run is Bad and that some run fails,
//! and puts the parts together. The layers above use [`encode`] alone, by `IsChain` and `IsEncoding` of `encode_match`.
#![tactic(auto)]

mod endings;
mod graphs;
mod parts;
mod words;

ghost use Rattle.std.specs.Prelude.{◌≡◌, IfOk};
ghost use Rattle.c_check.specs.WellFormed.{IsChecked};
ghost use Rattle.flat_prog.specs.declared.Flat.{Flat};
ghost use Rattle.loop_unroll.specs.Unrolled.{IsUnrolled};
ghost use Rattle.ssa_form.specs.Form.{IsSsaOf};
ghost use Rattle.event_graph.specs.Graphs.{IsFormOfSome};
ghost use Rattle.encode_match.specs.Encoding.{IsEncoding};
ghost use Rattle.encode_match.specs.Parts.{IsMadeOf, IsChain};
ghost use Rattle.encode.specs.Prepared.{IsPrepared};

use crate::endings::{Endings, endings_of, put_endings};
use crate::graphs::problem_of;
use crate::parts::part_maps;
use axiom_model::MemoryModel;
use bit_blast::blast;
use c_check::Checked;
use cnf_problem::Gates;
use dg_base::OutOfMemory;
use encode_match::{Encoded, EventMap, chain_encodes};
use event_graph::{events, events_are_static};
use loop_unroll::unroll;
use order_vars::order_vars;
use ssa_form::Ssa;
use ssa_form::assign::ssa;
use std::alloc::Global;

// The single assignment form of a program. The flat program is given up here.
fn form_of(alloc: Global, checked: &Checked) -> Result<Ssa, OutOfMemory>
    requires { IsChecked checked.now }
    ensures { IfOk result (λ form. (flat : Flat) × IsUnrolled checked.now flat × IsSsaOf flat form) }
{
    let flat = unroll(alloc, checked)?;
    ssa(alloc, &flat)
}

// What is made of a form before its events are ordered: their graph with the map, and the endings.
fn prepare(alloc: Global, form: &Ssa, gates: &mut Gates) -> Result<(EventMap, Endings), OutOfMemory>
    requires { IsFormOfSome form.now }
    ensures { IfOk result (λ p. IsPrepared form.now gates.old gates.new p.0 p.1.bad p.1.fails) }
{
    let bits = blast(alloc, &form.terms, gates)?;
    let graph = events(alloc, form, &bits)?;
    let words = bits.words.as_slice();
    let parts = part_maps(alloc, words, form.parts.as_slice())?;
    let endings = endings_of(alloc, words, form.parts.as_slice())?;
    Ok((EventMap { graph, parts }, endings))
}

// The problem of a form, with its map.
fn encode_form(alloc: Global, model: MemoryModel, form: &Ssa) -> Result<Encoded, OutOfMemory>
    requires { IsFormOfSome form.now }
    ensures { IfOk result (λ x. (flat : Flat) → IsSsaOf flat form.now → IsMadeOf model flat x) }
{
    events_are_static();
    let mut gates = Gates::new(alloc)?;
    let (map, endings) = prepare(alloc, form, &mut gates)?;
    let events = map.graph.events.as_slice();
    let values = map.graph.bits.as_slice();
    let order = order_vars(alloc, model, events, values, &mut gates)?;
    put_endings(&mut gates, &endings)?;
    let problem = problem_of(alloc, model, events, order, gates)?;
    Ok(Encoded {
        problem,
        model,
        map,
    })
}

/// The problem of a program under a memory model. It has a consistent assignment exactly where the program has an execution that the
/// model allows and that fails.
///
/// # Errors
/// Want of memory, to which belongs that there are more steps, terms, variables, clauses, events or atoms than numbers for them.
pub fn encode(alloc: Global, checked: &Checked, model: MemoryModel) -> Result<Encoded, OutOfMemory>
    requires { IsChecked checked.now }
    ensures same_model { IfOk result (λ x. x.model ≡ model) }
    ensures chain { IfOk result (λ x. (flat : Flat) × IsChain checked.now model flat x) }
    ensures encodes { IfOk result (λ x. IsEncoding checked.now x) }
{
    chain_encodes();
    let form = form_of(alloc, checked)?;
    encode_form(alloc, model, &form)
}
