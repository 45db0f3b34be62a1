// Texts that are read and printed again.
ghost use Rattle.log_text.specs.Spelling.{CanBePrinted};

use cnf_problem::Head;
use dg_base::List;
use lemma_log::AnyLog;
use log_text::{print_hinted, print_log, read_any};
use std::alloc::Global;
use std::test::Fail;

// Texts of logs, written by hand.
const TEXTS: &[&str] = &[
    "deagle-log 1\nmodel sc\nunroll 1\nvars 3\nclauses 0\nnodes 2\natoms 1\nend\n",
    "deagle-log 2\nmodel pso\nunroll 64\nvars 3\nclauses 7\nnodes 2\natoms 1\nend\n",
    "deagle-log 1\nmodel tso\nunroll 2\nvars 9\nclauses 4\nnodes 0\natoms 4294967295\n0 15 u 1 -2 2147483647 0\n1 0 c -3 0\n2 3 u 0\nend\n",
    "deagle-log 2\nmodel tso\nunroll 2\nvars 9\nclauses 4\nnodes 0\natoms 4294967295\n0 15 u 1 -2 2147483647 0 p1 p4294967295 0\n1 0 c -3 0\n2 3 u 0 t0 t1 p4 0\nend\n",
];

// The text of a log.
fn printed(alloc: Global, head: &Head, log: &AnyLog) -> Result<List<u8>, Fail>
    requires { CanBePrinted head.now log.now }
{
    match log {
        AnyLog::Plain(log) => Ok(print_log(alloc, head, log)?),
        AnyLog::Hinted(log) => Ok(print_hinted(alloc, head, log)?),
    }
}

// The text of the log that a text spells.
fn again(alloc: Global, text: &[u8]) -> Result<List<u8>, Fail> {
    let (head, log) = read_any(alloc, text)?;
    printed(alloc, &head, &log)
}

#[test]
fn texts_are_printed_as_they_were_read(rt: HostRuntime) -> Result<(), Fail> {
    for text in TEXTS {
        let again = again(rt.alloc(), text.as_bytes())?;
        assert!(rt; again.as_slice() == text.as_bytes(), "at {text}");
    }
    Ok(())
}
