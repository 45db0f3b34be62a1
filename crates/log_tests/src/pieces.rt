// A text in pieces is read as the whole text is.
use dg_base::Lit;
use log_text::{LogFault, LogReader};
use std::alloc::Global;
use std::process::Abort;
use std::test::Fail;

// What a reader told of a text: the line at which it went wrong or 0, and of the entries their number, the sums of their
// tickets and workers, of the codes of their literals, and the number of their hints.
#[derive(Debug, Clone, Copy, PartialEq, Eq, Drop)]
struct Told {
    fault: u32,
    entries: u32,
    tickets: u32,
    workers: u32,
    codes: u64,
    hints: usize,
}

const NOTHING: Told = Told {
    fault: 0,
    entries: 0,
    tickets: 0,
    workers: 0,
    codes: 0,
    hints: 0,
};

const HEAD: &str = "deagle-log 2\nmodel pso\nunroll 1\nvars 9\nclauses 4\nnodes 0\natoms 3\n";

// Texts behind the head, and what is told of each.
const TEXTS: &[(&str, Told)] = &[
    ("end\n", NOTHING),
    (
        "",
        Told {
            fault: 8,
            ..NOTHING
        },
    ),
    (
        "end",
        Told {
            fault: 8,
            ..NOTHING
        },
    ),
    (
        "end\nend\n",
        Told {
            fault: 9,
            ..NOTHING
        },
    ),
    (
        "0 2 u 1 -2 0 p1 t0 0\n1 15 c -3 0\n2 0 u 0 p4 0\nend\n",
        Told {
            fault: 0,
            entries: 3,
            tickets: 3,
            workers: 17,
            codes: 14,
            hints: 3,
        },
    ),
    (
        "0 2 u 1 -2 0 p1 t0 0\n1 16 c -3 0\n2 0 u 0 p4 0\nend\n",
        Told {
            fault: 9,
            entries: 1,
            tickets: 0,
            workers: 2,
            codes: 7,
            hints: 2,
        },
    ),
    (
        "0 2 u 1 -2 0 p1 t0 0\n1 15 c -3 0\n2 0 u 0 p4 0\nend",
        Told {
            fault: 11,
            entries: 3,
            tickets: 3,
            workers: 17,
            codes: 14,
            hints: 3,
        },
    ),
];

// Takes all entries that the reader has.
fn take(reader: &mut LogReader, told: &mut Told) {
    while let Some((entry, hints)) = reader.next_hints() {
        told.entries = told.entries.saturating_add(1);
        told.tickets = told.tickets.saturating_add(entry.ticket);
        told.workers = told.workers.saturating_add(entry.worker);
        for lit in entry.lemma.lits.as_slice() {
            let Lit(code) = *lit;
            told.codes = told.codes.saturating_add(u64::from(code));
        }
        told.hints = told.hints.saturating_add(hints.len());
    }
}

fn line_of(answer: Result<(), LogFault>) -> u32 {
    match answer {
        Ok(()) => 0,
        Err(LogFault::LogText(line)) => line,
        Err(LogFault::OutOfMemory) => u32::MAX,
    }
}

// What is told of a text that comes in pieces of this size.
fn told_in_pieces(alloc: Global, text: &[u8], size: usize) -> Result<Told, Fail> {
    let mut reader = LogReader::new(alloc)?;
    let mut told = NOTHING;
    let mut rest = text;
    while !rest.is_empty() {
        let (piece, behind) = rest.split_at(size.clamp(1, rest.len()));
        let fault = line_of(reader.feed(piece));
        if told.fault == 0 {
            told.fault = fault;
        }
        take(&mut reader, &mut told);
        rest = behind;
    }
    let fault = line_of(reader.finish());
    if told.fault == 0 {
        told.fault = fault;
    }
    Ok(told)
}

fn check(rt: &impl Abort, alloc: Global, size: usize) -> Result<(), Fail> {
    for (behind, told) in TEXTS {
        let mut text = String::new(alloc);
        text.push_str(HEAD)?;
        text.push_str(behind)?;
        assert_eq!(rt;
            told_in_pieces(alloc, text.as_bytes(), size)?,
            *told,
            "at {size}: {behind}"
        );
    }
    Ok(())
}

#[test]
fn pieces_of_one_byte(rt: HostRuntime) -> Result<(), Fail> {
    check(&rt, rt.alloc(), 1)
}

#[test]
fn pieces_of_seven_bytes(rt: HostRuntime) -> Result<(), Fail> {
    check(&rt, rt.alloc(), 7)
}

#[test]
fn pieces_of_65536_bytes(rt: HostRuntime) -> Result<(), Fail> {
    check(&rt, rt.alloc(), 65536)
}
