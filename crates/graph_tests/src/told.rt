// The events of C text, as text.
use bit_blast::blast;
use c_program::read_program;
use cnf_problem::Gates;
use event_graph::{EventGraph, events};
use loop_unroll::unroll;
use memory_models::{StaticEvent, StaticKind};
use ssa_form::assign::ssa;
use ssa_form::{Ssa, SsaAct};
use std::alloc::Global;
use std::fmt::Write;
use std::test::Fail;

fn write_kind(text: &mut String, kind: StaticKind) -> Result<(), Fail> {
    match kind {
        StaticKind::Initial => text.push_str("Initial")?,
        StaticKind::Read => text.push_str("Read")?,
        StaticKind::Write => text.push_str("Write")?,
        StaticKind::Full => text.push_str("Full")?,
        StaticKind::Start => text.push_str("Start")?,
        StaticKind::End => text.push_str("End")?,
        StaticKind::Join => text.push_str("Join")?,
        StaticKind::Create(instance) => write!(text, "Create({instance})")?,
    }
    Ok(())
}

fn write_event(text: &mut String, event: &StaticEvent) -> Result<(), Fail> {
    let StaticEvent {
        instance,
        kind,
        cell,
        block,
        ..
    } = *event;
    if instance == u32::MAX {
        text.push('-')?;
    } else {
        write!(text, "{instance}")?;
    }
    text.push(' ')?;
    write_kind(text, kind)?;
    write!(text, " {cell} {block}\n")?;
    Ok(())
}

// The events of a graph, a line each.
fn graph_text(alloc: Global, graph: &EventGraph) -> Result<String, Fail> {
    let mut text = String::new(alloc);
    for event in graph.events.as_slice() {
        write_event(&mut text, event)?;
    }
    Ok(text)
}

// Whether a thread of this form may stop, and whether it may fail.
fn ends_early(form: &Ssa) -> (bool, bool) {
    let mut stops = false;
    let mut fails = false;
    for part in form.parts.as_slice() {
        for step in part.steps.as_slice() {
            match step.act {
                SsaAct::Stop => stops = true,
                SsaAct::Fail { .. } => fails = true,
                _ => {}
            }
        }
    }
    (stops, fails)
}

// What is told of a program: its events, how many of them have a value, and whether it may stop, and fail.
#[derive(Drop)]
pub struct Listing {
    pub events: String,
    pub values: usize,
    pub stops: bool,
    pub fails: bool,
}

// The events of a program whose loops run at most three times.
pub fn list_events(alloc: Global, text: &str) -> Result<Listing, Fail> {
    let checked = read_program(alloc, text.as_bytes(), 3, false)?;
    let flat = unroll(alloc, &checked)?;
    let form = ssa(alloc, &flat)?;
    let mut gates = Gates::new(alloc)?;
    let bits = blast(alloc, &form.terms, &mut gates)?;
    let graph = events(alloc, &form, &bits)?;
    let (stops, fails) = ends_early(&form);
    Ok(Listing {
        events: graph_text(alloc, &graph)?,
        values: graph.bits.len(),
        stops,
        fails,
    })
}
