// One worker alone.
ghost use Rattle.std.specs.Prelude.{◌≤◌};

use crate::problems::{all_signs, ten_cycles};
use crate::searching::{End, search};
use cdcl_worker::Outcome;
use clause_exchange::Exchange;
use cnf_problem::Problem;
use dg_base::{Gate, OutOfMemory};
use std::alloc::Global;
use std::sync::atomic::{AtomicU32, Ordering};
use std::test::Fail;

// A gate that keeps count: of a pass of worker 0 as 1, of one of another as 1000.
#[derive(Drop)]
struct Passes {
    seen: AtomicU32,
}

impl Gate for Passes {
    fn pass(&self, worker: u32) {
        let weight = if worker == 0 { 1 } else { 1000 };
        self.seen.fetch_add(weight, Ordering::SeqCst);
    }
}

// One worker searches alone. Answers its end, and how often it passed the gate.
fn alone(alloc: Global, problem: &Problem, budget: u32) -> Result<(End, u32), OutOfMemory>
    requires some { 1 ≤ budget }
    requires few { budget ≤ 1000000 }
{
    let gate = Passes {
        seen: AtomicU32::new(0),
    };
    let (exchange, seat) = Exchange::new(alloc, problem, 1, 64)?;
    let end = search(alloc, problem, &exchange, seat, 0, 1, budget, &gate)?;
    Ok((end, gate.seen.load(Ordering::SeqCst)))
}

#[test]
fn eight_clauses_are_refuted(rt: HostRuntime) -> Result<(), Fail> {
    let problem = all_signs(rt.alloc())?;
    let (end, passes) = alone(rt.alloc(), &problem, 20000)?;
    assert!(rt; matches!(&end.outcome, Outcome::Unsat));
    assert!(rt; end.lemmas >= 2);
    assert_eq!(rt; (end.cycles, passes), (0, 1));
    Ok(())
}

#[test]
fn a_budget_of_one_is_spent(rt: HostRuntime) -> Result<(), Fail> {
    let problem = all_signs(rt.alloc())?;
    let (end, passes) = alone(rt.alloc(), &problem, 1)?;
    assert!(rt; matches!(&end.outcome, Outcome::Spent));
    assert_eq!(rt; (end.lemmas, passes), (1, 1));
    Ok(())
}

#[test]
fn ten_cycles_are_learnt_once_each(rt: HostRuntime) -> Result<(), Fail> {
    let problem = ten_cycles(rt.alloc())?;
    let (end, _) = alone(rt.alloc(), &problem, 20000)?;
    assert!(rt; matches!(&end.outcome, Outcome::Unsat));
    assert_eq!(rt; end.cycles, 10);
    Ok(())
}
