// What is told of a text.
use c_program::read_program;
use dg_base::{LimitKind, Place, Refusal};
use std::alloc::Global;

/// What is told: the kind of the refusal, with a line and a column, or with 0 and a count.
pub type Told = (&'static str, u32, u32);

fn at(kind: &'static str, place: Place) -> Told {
    (kind, place.line, place.col)
}

fn limit(kind: LimitKind) -> &'static str {
    match kind {
        LimitKind::Text => "text",
        LimitKind::Macro => "macro",
        LimitKind::Tokens => "tokens",
        LimitKind::Cells => "cells",
        LimitKind::Globals => "globals",
        LimitKind::Creates => "creates",
        LimitKind::Threads => "threads",
        LimitKind::Depth => "depth",
        LimitKind::Accesses => "accesses",
        LimitKind::Weight => "weight",
    }
}

fn refusal(refusal: &Refusal) -> Told {
    match refusal {
        Refusal::BadByte(place) => at("byte", *place),
        Refusal::Unsupported(place, _) => at("unsupported", *place),
        Refusal::Syntax(place) => at("syntax", *place),
        Refusal::NoMain => ("no main", 0, 0),
        Refusal::Duplicate(place) => at("duplicate", *place),
        Refusal::Unknown(place) => at("unknown", *place),
        Refusal::BadType(place) => at("type", *place),
        Refusal::UnmatchedAtomic(place) => at("section", *place),
        Refusal::Recursion(place) => at("recursion", *place),
        Refusal::Limit(kind, count) => (limit(*kind), 0, *count),
        Refusal::OutOfMemory => ("memory", 0, 0),
    }
}

/// What is told of a text for a loop bound, which is taken into 1 to 64.
pub fn told(alloc: Global, bound: u32, text: &str) -> Told {
    match read_program(alloc, text.as_bytes(), bound.clamp(1, 64), false) {
        Ok(checked) => {
            drop(checked);
            ("accepted", 0, 0)
        }
        Err(error) => refusal(&error),
    }
}
