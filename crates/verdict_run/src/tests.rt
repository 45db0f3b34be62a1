use crate::{Decision, decide};
use cnf_problem::{Gates, Problem, negated};
use dg_base::{Gate, List, OpenGate, OutOfMemory};
use std::alloc::Global;
use std::sync::atomic::{AtomicBool, Ordering};
use std::test::Fail;

// The clauses of three variables in all signs, or all of these but the last.
fn signs(alloc: Global, all: bool) -> Result<Problem, OutOfMemory> {
    let mut gates = Gates::new(alloc)?;
    let a = gates.fresh()?;
    let b = gates.fresh()?;
    let c = gates.fresh()?;
    gates.clause(&[a, b, c])?;
    gates.clause(&[a, b, negated(c)])?;
    gates.clause(&[a, negated(b), c])?;
    gates.clause(&[a, negated(b), negated(c)])?;
    gates.clause(&[negated(a), b, c])?;
    gates.clause(&[negated(a), b, negated(c)])?;
    gates.clause(&[negated(a), negated(b), c])?;
    if all {
        gates.clause(&[negated(a), negated(b), negated(c)])?;
    }
    gates.finish(List::new(alloc), List::new(alloc), List::new(alloc))
}

// A gate for two workers, at which each waits for the other.
#[derive(Drop)]
struct Meeting {
    came: [AtomicBool; 2],
    met: [AtomicBool; 2],
}

impl Gate for Meeting {
    fn pass(&self, worker: u32) {
        let (own, other) = if worker == 0 { (0, 1) } else { (1, 0) };
        self.came[own].store(true, Ordering::SeqCst);
        for _turn in 0..100000000u32 {
            if self.came[other].load(Ordering::SeqCst) {
                self.met[own].store(true, Ordering::SeqCst);
                return;
            }
        }
    }
}

#[test]
fn two_workers_meet_at_the_gate(rt: HostRuntime) -> Result<(), Fail> {
    let problem = signs(rt.alloc(), true)?;
    let gate = Meeting {
        came: [AtomicBool::new(false), AtomicBool::new(false)],
        met: [AtomicBool::new(false), AtomicBool::new(false)],
    };
    let decision = decide(&rt, rt.alloc(), &problem, 2, 20000, 64, &gate)?;
    let Decision::Safe(log) = decision else {
        return Err(Fail::new("not refuted"));
    };
    assert!(rt; log.entries.len() >= 2);
    assert!(rt; gate.met[0].load(Ordering::SeqCst) && gate.met[1].load(Ordering::SeqCst));
    Ok(())
}

#[test]
fn two_workers_spend_a_budget_of_one(rt: HostRuntime) -> Result<(), Fail> {
    let problem = signs(rt.alloc(), true)?;
    let decision = decide(&rt, rt.alloc(), &problem, 2, 1, 64, &OpenGate)?;
    let Decision::Unknown(log, reports) = decision else {
        return Err(Fail::new("a verdict"));
    };
    assert_eq!(rt; log.entries.len(), 2);
    assert_eq!(rt; reports.len(), 2);
    for report in reports.as_slice() {
        assert_eq!(rt; report.entries, 1);
        assert_eq!(rt; report.reads.len(), 2);
    }
    Ok(())
}

#[test]
fn four_workers_with_rows_of_no_words(rt: HostRuntime) -> Result<(), Fail> {
    let problem = signs(rt.alloc(), true)?;
    let decision = decide(&rt, rt.alloc(), &problem, 4, 20000, 0, &OpenGate)?;
    assert!(rt; matches!(&decision, Decision::Safe(_)));
    Ok(())
}

#[test]
fn four_workers_find_the_model(rt: HostRuntime) -> Result<(), Fail> {
    let problem = signs(rt.alloc(), false)?;
    let decision = decide(&rt, rt.alloc(), &problem, 4, 20000, 64, &OpenGate)?;
    let Decision::Unsafe(values) = decision else {
        return Err(Fail::new("no model"));
    };
    assert_eq!(rt; values.as_slice(), [true, true, true, true].as_slice());
    Ok(())
}
