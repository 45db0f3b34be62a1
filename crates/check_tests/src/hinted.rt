// Logs with hints.
ghost use Rattle.std.specs.Prelude.{◌≡◌, ◌<◌};

use crate::logs::{Told, eight_clauses, told_of};
use cnf_problem::Problem;
use dg_base::Steps;
use hint_checker::check_hinted;
use lemma_log::{AnyLog, HintedLog};
use log_text::read_any;
use std::alloc::Global;
use std::marker::Brand;
use std::sync::ledger::{Blank, Ledger};
use std::test::Fail;

const HEAD: &str = "deagle-log 2\nmodel sc\nunroll 1\nvars 4\nclauses 9\nnodes 0\natoms 0\n";

// Logs behind the head, and what is told of each. The problem's clauses are p1, the constant, and p2 to p9, from 2 3 4 to -2 -3 -4.
const TEXTS: &[(&str, Told)] = &[
    ("end\n", Told::NoEmpty(0)),
    (
        "0 0 u 2 3 0 p2 p3 0\n1 0 u 2 0 t0 p4 p5 0\n2 0 u 3 0 t1 p6 p7 0\n3 0 u 0 t1 t2 p8 p9 0\nend\n",
        Told::Accepted(4),
    ),
    // the two clauses in the other order, and a hint that nothing needs
    ("0 0 u 2 3 0 p3 p2 0\nend\n", Told::NoEmpty(1)),
    ("0 0 u 2 3 0 p1 p2 p3 0\nend\n", Told::NoEmpty(1)),
    ("0 0 u 5 0 p2 0\nend\n", Told::BadNumber(0, 5)),
    // no hint; the last one gives a literal; one gives it twice; one before the last is false
    ("0 0 u 2 3 0 0\nend\n", Told::BadHint(0, 0)),
    ("0 0 u 2 3 0 p2 0\nend\n", Told::BadHint(0, 1)),
    ("0 0 u 2 3 0 p2 p2 p3 0\nend\n", Told::BadHint(0, 2)),
    ("0 0 u 2 3 0 p2 p3 p3 0\nend\n", Told::BadHint(0, 2)),
    // a true literal; two unassigned ones
    ("0 0 u 2 3 0 p4 p3 0\nend\n", Told::BadHint(0, 1)),
    ("0 0 u 2 0 p2 p3 0\nend\n", Told::BadHint(0, 1)),
    // no such clause; a ticket that is not lower
    ("0 0 u 2 3 0 p10 p3 0\nend\n", Told::BadHint(0, 1)),
    ("0 0 u 2 3 0 p2 t0 0\nend\n", Told::BadHint(0, 2)),
    // the first entry that fails is told
    (
        "0 0 u 2 3 0 p2 p3 0\n1 0 u 2 0 t0 p5 p5 0\n2 0 u 9 0 0\nend\n",
        Told::BadHint(1, 3),
    ),
];

/// What is told of a log with hints.
pub fn checked<L: Ledger>(alloc: Global, problem: &Problem, log: &HintedLog, blank: Blank) -> Told
    requires name { blank.name ≡ L.name }
    requires parts { blank.parts ≡ L.parts }
    requires some { 0 < L.parts }
{
    let mut steps = Steps::<L>::new(blank);
    match check_hinted(alloc, problem, log, &mut steps) {
        Ok(accepted) => Told::Accepted(accepted.entries),
        Err(refused) => told_of(refused),
    }
}

/// What is told of the log that a text spells.
pub fn answer(alloc: Global, problem: &Problem, head: &str, behind: &str) -> Result<Told, Fail> {
    let mut text = String::new(alloc);
    text.push_str(head)?;
    text.push_str(behind)?;
    match read_any(alloc, text.as_bytes())? {
        (_, AnyLog::Hinted(log)) => Ok(checked::<Brand>(alloc, problem, &log, Blank::new(1))),
        (_, AnyLog::Plain(_)) => Ok(Told::Other),
    }
}

#[test]
fn hinted_logs_of_eight_clauses(rt: HostRuntime) -> Result<(), Fail> {
    let problem = eight_clauses(rt.alloc())?;
    for (behind, wanted) in TEXTS {
        assert_eq!(rt;
            answer(rt.alloc(), &problem, HEAD, behind)?,
            *wanted,
            "at {behind}"
        );
    }
    Ok(())
}
