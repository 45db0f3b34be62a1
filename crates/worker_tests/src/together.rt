// Several workers, each in a thread of its own.
use crate::problems::{cycles_in, ten_cycles};
use dg_base::OpenGate;
use std::test::Fail;
use verdict_run::{Decision, decide};

// Two times four lemmas are too few for ten cycles, whatever the schedule.
#[test]
fn budgets_that_are_too_small_are_spent(rt: HostRuntime) -> Result<(), Fail> {
    let problem = ten_cycles(rt.alloc())?;
    let decision = decide(&rt, rt.alloc(), &problem, 2, 4, 64, &OpenGate)?;
    let Decision::Unknown(log, reports) = decision else {
        return Err(Fail::new("a verdict"));
    };
    assert_eq!(rt; (log.entries.len(), reports.len()), (8, 2));
    for report in reports.as_slice() {
        assert_eq!(rt; report.entries, 4);
        assert!(rt; report.reads.as_slice().iter().all(|read| *read <= 4));
    }
    Ok(())
}

#[test]
fn four_workers_learn_the_ten_cycles(rt: HostRuntime) -> Result<(), Fail> {
    let problem = ten_cycles(rt.alloc())?;
    let decision = decide(&rt, rt.alloc(), &problem, 4, 20000, 64, &OpenGate)?;
    let Decision::Safe(log) = decision else {
        return Err(Fail::new("not refuted"));
    };
    assert!(rt; cycles_in(log.entries.as_slice()) >= 10);
    Ok(())
}
