use crate::listed::{are_static, is_initial};
use axiom_model::MemoryModel;
use cnf_problem::Graph;
use dg_base::{Lit, OutOfMemory};
use memory_models::{Edges, StaticEvent, StaticKind, static_edges};
use std::alloc::{AllocError, Global};
use std::test::Fail;

const MODELS: [MemoryModel; 3] = [MemoryModel::Sc, MemoryModel::Tso, MemoryModel::Pso];

// ---- events

fn event(instance: u32, kind: StaticKind, cell: u32, block: u32) -> StaticEvent {
    StaticEvent {
        instance,
        kind,
        cell,
        guard: Lit(2),
        block,
    }
}

fn initial_of(cell: u32) -> StaticEvent {
    event(u32::MAX, StaticKind::Initial, cell, cell)
}

fn read(cell: u32, place: u32) -> StaticEvent {
    event(0, StaticKind::Read, cell, place)
}

fn write(cell: u32, place: u32) -> StaticEvent {
    event(0, StaticKind::Write, cell, place)
}

fn fence(place: u32) -> StaticEvent {
    event(0, StaticKind::Full, 0, place)
}

// ---- sets of places, one bit each

fn bit(place: u32) -> u32 {
    1u32.wrapping_shl(place)
}

fn has(set: u32, place: u32) -> bool {
    set & bit(place) != 0
}

// For each event the events that a path of one step or more leads to.
fn reached(alloc: Global, count: usize, steps: &[(u32, u32)]) -> Result<Vec<u32>, AllocError> {
    let mut reach = Vec::from_elem(alloc, 0u32, count)?;
    for _ in 0..count {
        for (from, to) in steps {
            let behind = reach.get(*to as usize).copied().unwrap_or(0);
            if let Some(set) = reach.get_mut(*from as usize) {
                *set |= bit(*to) | behind;
            }
        }
    }
    Ok(reach)
}

// The edges of a graph that are there where these events happen.
fn there(
    alloc: Global,
    edges: &Edges,
    graph: Graph,
    happens: u32,
) -> Result<Vec<(u32, u32)>, AllocError> {
    let mut steps = Vec::new(alloc);
    for edge in edges.fixed.as_slice() {
        if edge.graph == graph {
            steps.push((edge.from, edge.to))?;
        }
    }
    for fence in edges.fences.as_slice() {
        if fence.edge.graph == graph && has(happens, fence.edge.from) {
            steps.push((fence.edge.from, fence.edge.to))?;
        }
    }
    Ok(steps)
}

// ---- the kept order, by looking at each pair

fn keeps(model: MemoryModel, first: &StaticEvent, second: &StaticEvent) -> bool {
    if first.block == second.block {
        return true;
    }
    match (model, first.kind, second.kind) {
        (MemoryModel::Tso, StaticKind::Write, StaticKind::Read) => false,
        (MemoryModel::Pso, StaticKind::Write, StaticKind::Read | StaticKind::Write) => false,
        _ => true,
    }
}

fn is_access(event: &StaticEvent) -> bool {
    matches!(event.kind, StaticKind::Read | StaticKind::Write)
}

fn is_later(first: &StaticEvent, second: &StaticEvent) -> bool {
    !is_initial(first) && !is_initial(second) && first.instance == second.instance
}

// The pairs of events that happen, of a thread, the first before the second, which a graph keeps.
fn kept(
    alloc: Global,
    model: MemoryModel,
    graph: Graph,
    events: &[StaticEvent],
    happens: u32,
) -> Result<Vec<(u32, u32)>, AllocError> {
    let mut pairs = Vec::new(alloc);
    for (second, later) in (0u32..).zip(events) {
        for (first, earlier) in (0u32..second).zip(events) {
            let holds = match graph {
                Graph::Global => keeps(model, earlier, later),
                Graph::Local => {
                    is_access(earlier) && is_access(later) && earlier.cell == later.cell
                }
            };
            if holds && is_later(earlier, later) && has(happens, first) && has(happens, second) {
                pairs.push((first, second))?;
            }
        }
    }
    Ok(pairs)
}

// Whether these events may happen together.
fn may_happen(events: &[StaticEvent], happens: u32) -> bool {
    for (place, event) in (0u32..).zip(events) {
        if !has(happens, place) {
            continue;
        }
        if !has(happens, event.block) {
            return false;
        }
        for (close, end) in (0u32..place).zip(events) {
            let ends = end.block < close
                && is_later(end, event)
                && end.block != event.block
                && has(happens, end.block);
            let last = events
                .get(close as usize + 1)
                .map_or(true, |next| next.block != end.block);
            if ends && last && !has(happens, close) {
                return false;
            }
        }
    }
    true
}

// The edges of a list that may be handed over.
fn edges_of(
    alloc: Global,
    model: MemoryModel,
    events: &[StaticEvent],
) -> Result<Edges, OutOfMemory> {
    if !are_static(events) {
        return Err(OutOfMemory);
    }
    static_edges(alloc, model, events)
}

// Whether ways over the edges lead where the model orders, between the events that happen.
fn agrees(
    alloc: Global,
    model: MemoryModel,
    events: &[StaticEvent],
    edges: &Edges,
    happens: u32,
) -> Result<bool, AllocError> {
    for graph in [Graph::Local, Graph::Global] {
        let steps = there(alloc, edges, graph, happens)?;
        let ways = reached(alloc, events.len(), steps.as_slice())?;
        let pairs = kept(alloc, model, graph, events, happens)?;
        let order = reached(alloc, events.len(), pairs.as_slice())?;
        for (place, (way, kept)) in (0u32..).zip(ways.iter().zip(order.iter())) {
            if has(happens, place) && way & happens != *kept {
                return Ok(false);
            }
        }
    }
    Ok(true)
}

// Whether global ways lead from each event to these, of those that happen, by few edges.
fn leads(
    alloc: Global,
    model: MemoryModel,
    events: &[StaticEvent],
    happens: u32,
    expected: &[u32],
) -> Result<bool, Fail> {
    let edges = edges_of(alloc, model, events)?;
    let steps = there(alloc, &edges, Graph::Global, happens)?;
    let ways = reached(alloc, events.len(), steps.as_slice())?;
    for (place, (way, to)) in (0u32..).zip(ways.iter().zip(expected)) {
        if has(happens, place) && way & happens != *to {
            return Ok(false);
        }
    }
    let few = model == MemoryModel::Pso || steps.len() / 2 <= events.len();
    Ok(few && expected.len() == events.len() && agrees(alloc, model, events, &edges, happens)?)
}

// A read, one of two writes, or a fence.
fn choice(code: u32, place: u32, block: u32) -> StaticEvent {
    match code % 4 {
        0 => event(0, StaticKind::Read, 0, block),
        1 => event(0, StaticKind::Write, 0, block),
        2 => event(0, StaticKind::Write, 1, block),
        _ => event(0, StaticKind::Full, place, block),
    }
}

// Whether the edges agree with each model, whichever events happen.
fn all_agree(alloc: Global, events: &[StaticEvent]) -> Result<bool, Fail> {
    for model in MODELS {
        let edges = edges_of(alloc, model, events)?;
        for happens in 0u32..32 {
            if may_happen(events, happens) && !agrees(alloc, model, events, &edges, happens)? {
                return Ok(false);
            }
        }
    }
    Ok(true)
}

#[test]
fn a_read_behind_a_write(rt: HostRuntime) -> Result<(), Fail> {
    let alloc = rt.alloc();
    let start = event(0, StaticKind::Start, 0, 0);
    let end = event(0, StaticKind::End, 0, 3);
    let events = [start, write(0, 1), read(1, 2), end];
    assert!(rt;
        leads(
            alloc,
            MemoryModel::Sc,
            &events,
            0b1111,
            &[0b1110, 0b1100, 0b1000, 0]
        )?
    );
    assert!(rt;
        leads(
            alloc,
            MemoryModel::Tso,
            &events,
            0b1111,
            &[0b1110, 0b1000, 0b1000, 0]
        )?
    );
    assert!(rt;
        leads(
            alloc,
            MemoryModel::Pso,
            &events,
            0b1111,
            &[0b1110, 0b1000, 0b1000, 0]
        )?
    );
    Ok(())
}

#[test]
fn two_writes_and_a_read(rt: HostRuntime) -> Result<(), Fail> {
    let alloc = rt.alloc();
    let events = [write(0, 0), write(1, 1), read(0, 2)];
    assert!(rt; leads(alloc, MemoryModel::Sc, &events, 0b111, &[0b110, 0b100, 0])?);
    assert!(rt; leads(alloc, MemoryModel::Tso, &events, 0b111, &[0b010, 0, 0])?);
    assert!(rt; leads(alloc, MemoryModel::Pso, &events, 0b111, &[0, 0, 0])?);
    Ok(())
}

#[test]
fn either_of_two_fences(rt: HostRuntime) -> Result<(), Fail> {
    let alloc = rt.alloc();
    let events = [write(0, 0), fence(1), fence(2), read(1, 3)];
    for model in [MemoryModel::Tso, MemoryModel::Pso] {
        assert!(rt; leads(alloc, model, &events, 0b1001, &[0, 0, 0, 0])?);
        assert!(rt; leads(alloc, model, &events, 0b1011, &[0b1010, 0b1000, 0, 0])?);
        assert!(rt; leads(alloc, model, &events, 0b1101, &[0b1100, 0, 0b1000, 0])?);
    }
    Ok(())
}

#[test]
fn a_section_between(rt: HostRuntime) -> Result<(), Fail> {
    let alloc = rt.alloc();
    let open = event(0, StaticKind::Full, 0, 1);
    let inner = event(0, StaticKind::Write, 1, 1);
    let events = [write(0, 0), open, inner, open, read(2, 4)];
    for model in [MemoryModel::Tso, MemoryModel::Pso] {
        assert!(rt; leads(alloc, model, &events, 0b10001, &[0, 0, 0, 0, 0])?);
        assert!(rt;
            leads(
                alloc,
                model,
                &events,
                0b11111,
                &[0b11110, 0b11100, 0b11000, 0b10000, 0]
            )?
        );
    }
    Ok(())
}

#[test]
fn two_threads(rt: HostRuntime) -> Result<(), Fail> {
    let alloc = rt.alloc();
    let first = event(1, StaticKind::Write, 1, 4);
    let second = event(1, StaticKind::Write, 0, 5);
    let events = [
        initial_of(0),
        initial_of(1),
        write(0, 2),
        read(1, 3),
        first,
        second,
    ];
    let happens = 0b111111;
    assert!(rt;
        leads(
            alloc,
            MemoryModel::Sc,
            &events,
            happens,
            &[0, 0, 0b1000, 0, 0b100000, 0]
        )?
    );
    assert!(rt;
        leads(
            alloc,
            MemoryModel::Tso,
            &events,
            happens,
            &[0, 0, 0, 0, 0b100000, 0]
        )?
    );
    assert!(rt;
        leads(
            alloc,
            MemoryModel::Pso,
            &events,
            happens,
            &[0, 0, 0, 0, 0, 0]
        )?
    );
    Ok(())
}

#[test]
fn lists_of_four(rt: HostRuntime) -> Result<(), Fail> {
    let alloc = rt.alloc();
    for code in 0u32..256 {
        let events = [
            choice(code, 0, 0),
            choice(code / 4, 1, 1),
            choice(code / 16, 2, 2),
            choice(code / 64, 3, 3),
        ];
        assert!(rt; all_agree(alloc, &events)?, "list {code}");
    }
    Ok(())
}

#[test]
fn sections_in_a_list(rt: HostRuntime) -> Result<(), Fail> {
    let alloc = rt.alloc();
    for code in 0u32..64 {
        let open = event(0, StaticKind::Full, 0, 1);
        let events = [
            choice(code, 0, 0),
            open,
            choice(code / 4, 2, 1),
            open,
            choice(code / 16, 4, 4),
        ];
        assert!(rt; all_agree(alloc, &events)?, "list {code}");
    }
    Ok(())
}
