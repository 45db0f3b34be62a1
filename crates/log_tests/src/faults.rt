// The lines at which texts go wrong.
use log_text::{LogFault, read_any, read_log};
use std::alloc::Global;
use std::process::Abort;
use std::test::Fail;

// The seven lines of a head, one entry by unit propagation with three literals, an empty lemma, and the last line.
const PLAIN: &[&str] = &[
    "deagle-log 1",
    "model tso",
    "unroll 2",
    "vars 9",
    "clauses 4",
    "nodes 0",
    "atoms 4294967295",
    "0 15 u 1 -2 2147483647 0",
    "1 0 c -3 0",
    "2 3 u 0",
    "end",
];

// The same with hints.
const HINTED: &[&str] = &[
    "deagle-log 2",
    "model tso",
    "unroll 2",
    "vars 9",
    "clauses 4",
    "nodes 0",
    "atoms 4294967295",
    "0 15 u 1 -2 2147483647 0 p1 p4294967295 0",
    "1 0 c -3 0",
    "2 3 u 0 t0 t1 p4 0",
    "end",
];

// One line in the place of the line with this number, from 1.
const PLAIN_FAULTS: &[(u32, &str)] = &[
    (1, "deagle-log 3"),
    (1, "deagle-log 01"),
    (1, " deagle-log 1"),
    (1, ""),
    (2, "model"),
    (2, "model SC"),
    (2, "model sc "),
    (2, "unroll 2"),
    (3, "unroll 02"),
    (3, "unroll +2"),
    (3, "unroll  2"),
    (3, "unroll 4294967296"),
    (3, "unroll"),
    (4, "clauses 4"),
    (5, "clauses -1"),
    (6, "nodes 0 "),
    (7, "atoms 1 2"),
    (7, "end"),
    (8, "1 15 u 1 0"),
    (8, "00 15 u 1 0"),
    (8, "0 16 u 1 0"),
    (8, "0 15 U 1 0"),
    (8, "0 15 u 1"),
    (8, "0 15 u"),
    (8, "0 15 u 0 0"),
    (8, "0 15 u 1 0 "),
    (8, "0 15  u 1 0"),
    (8, " 0 15 u 1 0"),
    (8, "0 15 u 1 1 0"),
    (8, "0 15 u 1 -1 0"),
    (8, "0 15 u 2 1 0"),
    (8, "0 15 u -0 0"),
    (8, "0 15 u 01 0"),
    (8, "0 15 u --1 0"),
    (8, "0 15 u 2147483648 0"),
    (8, "0 15 u 18446744073709551617 0"),
    (8, "0 15 u 1 0 p1 0"),
    (8, ""),
    (9, "0 0 c -3 0"),
    (9, "2 0 c -3 0"),
    (10, "End"),
    (11, "end "),
    (11, "2 3 u 0"),
    (11, ""),
];

const HINTED_FAULTS: &[(u32, &str)] = &[
    (8, "0 15 u 1 0"),
    (8, "0 15 u 1 0 "),
    (8, "0 15 u 1 0 p0 0"),
    (8, "0 15 u 1 0 p01 0"),
    (8, "0 15 u 1 0 p 0"),
    (8, "0 15 u 1 0 t 0"),
    (8, "0 15 u 1 0 1 0"),
    (8, "0 15 u 1 0 p1"),
    (8, "0 15 u 1 0 p4294967296 0"),
    (8, "0 15 u 1 0 p1 0 0"),
    (8, "0 15 u 1 0 p-1 0"),
    (9, "1 0 c -3 0 0"),
    (9, "1 0 c -3 0 p1 0"),
];

// What stands behind the ten lines before the last one of a text, and the line at which that goes wrong; 0 where it does not.
const ENDS: &[(&str, u32)] = &[
    ("end\n", 0),
    ("", 11),
    ("en", 11),
    ("end", 11),
    ("end\r\n", 11),
    ("end \n", 11),
    ("END\n", 11),
    ("end\nx", 12),
    ("end\n ", 12),
    ("end\n\n", 12),
    ("end\nend\n", 12),
    ("\nend\n", 11),
    ("3 0 u 5 0\nend\n", 0),
    ("3 0 u 5 0\nen", 12),
    ("3 0 u 5 0\n3 0 u 5 0\nend\n", 12),
];

// The text of these lines, with this one in the place of the line with this number; no number is 0.
fn text_with(alloc: Global, lines: &[&str], number: u32, line: &str) -> Result<String, Fail> {
    let mut text = String::new(alloc);
    let mut at: u32 = 0;
    for l in lines {
        at = at.saturating_add(1);
        text.push_str(if at == number { line } else { l })?;
        text.push_str("\n")?;
    }
    Ok(text)
}

// The line at which a text goes wrong; 0 where it spells a log.
fn fault_of(alloc: Global, text: &[u8]) -> Result<u32, Fail> {
    match read_any(alloc, text) {
        Ok(_) => Ok(0),
        Err(LogFault::LogText(line)) => Ok(line),
        Err(LogFault::OutOfMemory) => Err(Fail::from("out of memory")),
    }
}

fn plain_fault_of(alloc: Global, text: &[u8]) -> Result<u32, Fail> {
    match read_log(alloc, text) {
        Ok(_) => Ok(0),
        Err(LogFault::LogText(line)) => Ok(line),
        Err(LogFault::OutOfMemory) => Err(Fail::from("out of memory")),
    }
}

fn check(
    rt: &impl Abort,
    alloc: Global,
    lines: &[&str],
    faults: &[(u32, &str)],
) -> Result<(), Fail> {
    let whole = text_with(alloc, lines, 0, "")?;
    assert_eq!(rt; fault_of(alloc, whole.as_bytes())?, 0);
    for (number, line) in faults {
        let text = text_with(alloc, lines, *number, line)?;
        assert_eq!(rt;
            fault_of(alloc, text.as_bytes())?,
            *number,
            "at {number}: {line}"
        );
    }
    Ok(())
}

#[test]
fn texts_without_hints(rt: HostRuntime) -> Result<(), Fail> {
    check(&rt, rt.alloc(), PLAIN, PLAIN_FAULTS)
}

#[test]
fn texts_with_hints(rt: HostRuntime) -> Result<(), Fail> {
    check(&rt, rt.alloc(), HINTED, HINTED_FAULTS)
}

#[test]
fn the_format_without_hints_alone(rt: HostRuntime) -> Result<(), Fail> {
    let plain = text_with(rt.alloc(), PLAIN, 0, "")?;
    let hinted = text_with(rt.alloc(), HINTED, 0, "")?;
    assert_eq!(rt; plain_fault_of(rt.alloc(), plain.as_bytes())?, 0);
    assert_eq!(rt; plain_fault_of(rt.alloc(), hinted.as_bytes())?, 1);
    Ok(())
}

#[test]
fn ends_of_texts(rt: HostRuntime) -> Result<(), Fail> {
    for (end, line) in ENDS {
        let mut text = text_with(rt.alloc(), &PLAIN[..10], 0, "")?;
        text.push_str(end)?;
        assert_eq!(rt; fault_of(rt.alloc(), text.as_bytes())?, *line, "at {end}");
    }
    assert_eq!(rt; fault_of(rt.alloc(), b"")?, 1);
    assert_eq!(rt; fault_of(rt.alloc(), b"\0")?, 1);
    assert_eq!(rt; fault_of(rt.alloc(), b"deagle-log 1\n\xff\n")?, 2);
    Ok(())
}
