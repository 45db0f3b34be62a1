// Logs of a problem without a consistent assignment.
use cnf_problem::{Gates, Problem, negated};
use dg_base::{List, OutOfMemory};
use log_checker::{Refused, check_log};
use log_text::read_log;
use std::alloc::Global;
use std::test::Fail;

// What a check told: of the evidence the number of literals or of nodes.
#[derive(Debug, Clone, Copy, PartialEq, Eq, Drop)]
pub enum Told {
    Accepted(u32),
    BadNumber(u32, u32),
    NotImplied(u32, usize),
    NoCycle(u32, usize),
    BadHint(u32, u32),
    NoEmpty(u32),
    Other,
}

const HEAD: &str = "deagle-log 1\nmodel sc\nunroll 1\nvars 4\nclauses 9\nnodes 0\natoms 0\n";

// Logs behind the head, and what is told of each.
const TEXTS: &[(&str, Told)] = &[
    ("end\n", Told::NoEmpty(0)),
    // the empty clause is not implied: only the constant is true
    ("0 0 u 0\nend\n", Told::NotImplied(0, 1)),
    ("0 0 u 5 0\nend\n", Told::BadNumber(0, 5)),
    (
        "0 0 u 2 3 0\n1 0 u 2 0\n2 0 u 3 0\n3 0 u 0\nend\n",
        Told::Accepted(4),
    ),
    ("0 0 u 2 3 0\n1 0 u 2 0\n2 0 u 3 0\nend\n", Told::NoEmpty(3)),
    // behind the empty clause everything follows
    (
        "0 0 u 2 3 0\n1 0 u 2 0\n2 0 u 3 0\n3 0 u 0\n4 0 u 2 0\nend\n",
        Told::NoEmpty(5),
    ),
    (
        "0 0 u 2 3 0\n1 0 u 2 0\n2 0 u 3 0\n3 0 u 0\n4 0 u 0\nend\n",
        Told::Accepted(5),
    ),
    // a literal that is true by the clauses alone, and a clause of the problem
    ("0 0 u 1 0\n1 0 u 2 3 4 0\nend\n", Told::NoEmpty(2)),
    // propagation rests at the constant and the negation
    ("0 0 u 2 3 4 0\n1 0 u 2 0\nend\n", Told::NotImplied(1, 2)),
    // without nodes there is no cycle
    ("0 0 u 2 3 0\n1 0 c 2 0\nend\n", Told::NoCycle(1, 0)),
];

// A problem whose eight clauses over the variables 2 to 4 leave no values to them.
pub fn eight_clauses(alloc: Global) -> Result<Problem, OutOfMemory> {
    let mut gates = Gates::new(alloc)?;
    let a = gates.fresh()?;
    let b = gates.fresh()?;
    let c = gates.fresh()?;
    gates.clause(&[a, b, c])?;
    gates.clause(&[a, b, negated(c)])?;
    gates.clause(&[a, negated(b), c])?;
    gates.clause(&[a, negated(b), negated(c)])?;
    gates.clause(&[negated(a), b, c])?;
    gates.clause(&[negated(a), b, negated(c)])?;
    gates.clause(&[negated(a), negated(b), c])?;
    gates.clause(&[negated(a), negated(b), negated(c)])?;
    gates.finish(List::new(alloc), List::new(alloc), List::new(alloc))
}

pub fn told_of(refused: Refused) -> Told {
    match refused {
        Refused::BadNumber(ticket, var) => Told::BadNumber(ticket, var),
        Refused::NotImplied(ticket, reached) => Told::NotImplied(ticket, reached.len()),
        Refused::NoCycle(ticket, local, _) => Told::NoCycle(ticket, local.len()),
        Refused::NoEmpty(entries) => Told::NoEmpty(entries),
        Refused::BadHint(ticket, position) => Told::BadHint(ticket, position),
        Refused::OutOfMemory => Told::Other,
    }
}

// What is told of this log.
fn answer(alloc: Global, problem: &Problem, behind: &str) -> Result<Told, Fail> {
    let mut text = String::new(alloc);
    text.push_str(HEAD)?;
    text.push_str(behind)?;
    let (_, log) = read_log(alloc, text.as_bytes())?;
    match check_log(alloc, problem, &log) {
        Ok(accepted) => Ok(Told::Accepted(accepted.entries)),
        Err(refused) => Ok(told_of(refused)),
    }
}

#[test]
fn logs_of_eight_clauses(rt: HostRuntime) -> Result<(), Fail> {
    let problem = eight_clauses(rt.alloc())?;
    for (behind, wanted) in TEXTS {
        assert_eq!(rt;
            answer(rt.alloc(), &problem, behind)?,
            *wanted,
            "at {behind}"
        );
    }
    Ok(())
}
