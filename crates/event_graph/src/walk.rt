//! The walk over the steps of the instances, which adds their events.

ghost use Rattle.std.specs.Prelude.{◌≡◌, ◌<◌, ◌++◌, length, map, IfOk, OnOk, None};
ghost use Rattle.ssa_form.specs.Parts.{mark_of};
ghost use Rattle.event_graph.specs.Graphs.{acting_by, acting_in, bits_by, cell_of, event_of, guard_lit, initial_events, kind_of, section_behind, value_term};
ghost use Rattle.event_graph.specs.Walks.{HaveWords, HasWords, own_bits};

use crate::EventGraph;
use bit_gates::Word;
use bv_term::TermId;
use cnf_problem::TRUE;
use dg_base::{List, Lit, OutOfMemory};
use memory_models::{EventBits, StaticEvent, StaticKind};
use ssa_form::{SsaAct, SsaPart, SsaStep};
use std::alloc::Global;

// The instance of an initial write.
const NOBODY: u32 = u32::MAX;

// The literals of a term.
fn bits(words: &[Word], term: TermId) -> EventBits
    requires { term.0 < length words.now }
    ensures { result ≡ bits_by words.now term }
{
    EventBits {
        bits: words[term.0 as usize],
    }
}

// The literal that is true where a guard is 1.
fn guard(words: &[Word], term: TermId) -> Lit
    requires { term.0 < length words.now }
    ensures { result ≡ guard_lit words.now term }
{
    words[term.0 as usize][0]
}

/// The initial writes of the cells.
pub(crate) fn initial_writes(
    alloc: Global,
    words: &[Word],
    initials: &[TermId],
) -> Result<EventGraph, OutOfMemory>
    requires { HaveWords words.now initials.now }
    ensures events { IfOk result (λ g. g.events ≡ initial_events 0 initials.now) }
    ensures bits { IfOk result (λ g. g.bits ≡ map (bits_by words.now) initials.now) }
{
    let Ok(count) = u32::try_from(initials.len()) else {
        return Err(OutOfMemory);
    };
    let mut graph = EventGraph {
        events: List::new(alloc),
        bits: List::new(alloc),
    };
    for cell in 0..count {
        graph.events.push(StaticEvent {
            instance: NOBODY,
            kind: StaticKind::Initial,
            cell,
            guard: TRUE,
            block: cell,
        })?;
        graph.bits.push(bits(words, initials[cell as usize]))?;
    }
    Ok(graph)
}

// What a step is as an event; none where it makes no action.
fn event_kind(act: SsaAct) -> Option<StaticKind>
    ensures { result ≡ kind_of act }
{
    match act {
        SsaAct::Read { .. } => Some(StaticKind::Read),
        SsaAct::Write { .. } => Some(StaticKind::Write),
        SsaAct::Open | SsaAct::Close | SsaAct::Fence => Some(StaticKind::Full),
        SsaAct::Create { instance, .. } => Some(StaticKind::Create(instance)),
        SsaAct::Join { .. } => Some(StaticKind::Join),
        SsaAct::Start => Some(StaticKind::Start),
        SsaAct::End => Some(StaticKind::End),
        SsaAct::Take(_) | SsaAct::Stop | SsaAct::Bad | SsaAct::Fail { .. } => None,
    }
}

// The cell of an access.
fn accessed_cell(act: SsaAct) -> u32
    ensures { result ≡ cell_of act }
{
    match act {
        SsaAct::Read { cell, .. } | SsaAct::Write { cell, .. } => cell,
        _ => 0,
    }
}

// The term whose value goes with an action of the thread that has this handle.
fn event_value(own: TermId, act: SsaAct) -> TermId
    ensures { result ≡ value_term own act }
{
    match act {
        SsaAct::Read { value, .. } | SsaAct::Write { value, .. } => value,
        SsaAct::Create { handle, .. } | SsaAct::Join { handle } => handle,
        _ => own,
    }
}

// The thread whose steps are walked, and the section that is open, by the number of its first event.
#[derive(Drop)]
struct Thread {
    instance: u32,
    handle: TermId,
    section: Option<u32>,
}

impl Thread {
    // Adds the event of a step, if it makes an action.
    fn step(
        &mut self,
        graph: &mut EventGraph,
        words: &[Word],
        step: &SsaStep,
    ) -> Result<(), OutOfMemory>
        requires guard { step.now.guard.0 < length words.now }
        requires value { (value_term self.old.handle step.now.act).0 < length words.now }
        ensures events { OnOk result (graph.new.events ≡ graph.old.events ++ map (event_of words.now) (acting_by self.old.instance (length graph.old.events) self.old.section step.now (kind_of step.now.act))) }
        ensures bits { OnOk result (graph.new.bits ≡ graph.old.bits ++ map (own_bits words.now self.old.handle) (acting_by self.old.instance (length graph.old.events) self.old.section step.now (kind_of step.now.act))) }
        ensures section { OnOk result (self.new.section ≡ section_behind (length graph.old.events) self.old.section (mark_of step.now.act)) }
        ensures instance { self.new.instance ≡ self.old.instance }
        ensures handle { self.new.handle ≡ self.old.handle }
    {
        let Some(kind) = event_kind(step.act) else {
            return Ok(());
        };
        let Ok(node) = u32::try_from(graph.events.len()) else {
            return Err(OutOfMemory);
        };
        graph.events.push(StaticEvent {
            instance: self.instance,
            kind,
            cell: accessed_cell(step.act),
            guard: guard(words, step.guard),
            block: self.section.unwrap_or(node),
        })?;
        graph
            .bits
            .push(bits(words, event_value(self.handle, step.act)))?;
        match step.act {
            SsaAct::Open => self.section = Some(node),
            SsaAct::Close => self.section = None,
            _ => {}
        }
        Ok(())
    }
}

/// Adds the events of an instance.
pub(crate) fn walk_part(
    graph: &mut EventGraph,
    words: &[Word],
    instance: u32,
    part: &SsaPart,
) -> Result<(), OutOfMemory>
    requires { HasWords words.now part.now }
    ensures events { OnOk result (graph.new.events ≡ graph.old.events ++ map (event_of words.now) (acting_in instance (length graph.old.events) None part.now.steps)) }
    ensures bits { OnOk result (graph.new.bits ≡ graph.old.bits ++ map (own_bits words.now part.now.handle) (acting_in instance (length graph.old.events) None part.now.steps)) }
{
    let mut thread = Thread {
        instance,
        handle: part.handle,
        section: None,
    };
    for step in part.steps.as_slice() {
        thread.step(graph, words, step)?;
    }
    Ok(())
}
