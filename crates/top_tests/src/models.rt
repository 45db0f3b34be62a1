// What `verify` decides of programs under the memory models, and where its budget is spent.
use crate::calls::{call, desk_with};
use crate::programs;
use crate::relaxed::{
    coherent_reads, fenced, four_copies, hidden_write, independent_reads, load_buffering,
    maybe_fenced, message_passing, opposite_writes, racing, section_asserts,
    section_asserts_answer, store_buffering_answer, three_times,
};
use crate::replay::{replayed, store_buffering};
use crate::verify::first_last;
use dg_base::{Gate, Words};
use dg_top::run;
use std::alloc::Global;
use std::sync::atomic::{AtomicBool, Ordering};
use std::test::Fail;
use std::thread::Threads;

// The line that verifies the program with these options.
fn line_with(alloc: Global, options: &str) -> Result<String, Fail> {
    let mut line = String::from_str(alloc, "deagle verify program.c")?;
    if !options.is_empty() {
        line.push_str(" ")?;
        line.push_str(options)?;
    }
    Ok(line)
}

// Whether the answer is this one, whole where it is `SAFE` or a witness is given, else with this front.
fn begins<R: Threads + Sync + AllocGlobal>(
    rt: &R,
    text: &str,
    options: &str,
    status: u8,
    front: &str,
) -> Result<bool, Fail> {
    let mut desk = desk_with(rt.alloc(), "program.c", text)?;
    let line = line_with(rt.alloc(), options)?;
    let answer = call(rt, &mut desk, line.as_str())?;
    Ok(answer == status && desk.printed().starts_with(front.as_bytes()))
}

// Whether the program is safe under each of the models, SC, TSO and PSO.
fn is_safe_as<R: Threads + Sync + AllocGlobal>(
    rt: &R,
    text: &str,
    safe: [bool; 3],
) -> Result<bool, Fail> {
    let models = ["--model sc", "--model tso", "--model pso"];
    for (model, is_safe) in models.iter().zip(safe.iter()) {
        let (status, front) = if *is_safe {
            (0, "SAFE\n")
        } else {
            (1, "UNSAFE thread ")
        };
        if !begins(rt, text, model, status, front)? {
            return Ok(false);
        }
    }
    Ok(true)
}

#[test]
fn rows_on_models(rt: HostRuntime) -> Result<(), Fail> {
    let rows = [
        (fenced(), [true, true, true]),
        (maybe_fenced(), [true, false, false]),
        (message_passing(), [true, true, false]),
        (opposite_writes(), [true, true, false]),
        (load_buffering(), [true, true, true]),
        (independent_reads(), [true, true, true]),
        (coherent_reads(), [true, true, true]),
        (racing(), [false, false, false]),
        (hidden_write(), [true, true, true]),
    ];
    for (text, safe) in rows {
        assert!(rt; is_safe_as(&rt, text, safe)?);
    }
    Ok(())
}

#[test]
fn rows_on_verdicts(rt: HostRuntime) -> Result<(), Fail> {
    let failing_late = "UNSAFE thread 0 at 2:1
deagle-witness 1
thread 0 main 0
script
end
";
    let by_zero = "int main() {
int n = __VERIFIER_nondet_int();
int r = 1 / n;
return 0; }
";
    let by_zero_answer = "UNSAFE thread 0 at 3:11
deagle-witness 1
thread 0 main 0
script 0
end
";
    let outside = "int a[2];
int main() { a[-1] = 1; return 0; }
";
    let least =
        "int main() { int m = -2147483647 - 1; int d = -1; assert(m / d == m); assert(m % d == 0); return 0; }
";
    let tso_unshared = "--share 0 --model tso";
    let rows = [
        (store_buffering(), "", 0, "SAFE\n"),
        (store_buffering(), "--share 0", 0, "SAFE\n"),
        (store_buffering(), "--workers 1", 0, "SAFE\n"),
        (
            store_buffering(),
            "--model tso",
            1,
            store_buffering_answer(),
        ),
        (store_buffering(), tso_unshared, 1, store_buffering_answer()),
        (section_asserts(), "", 1, section_asserts_answer()),
        (three_times(), "--unroll 2", 0, "SAFE\n"),
        (three_times(), "--unroll 3", 1, failing_late),
        (
            three_times(),
            "--unroll 2 --full",
            1,
            "UNSAFE bound thread 0 at ",
        ),
        (
            programs::fibonacci_reached(),
            "",
            1,
            "UNSAFE thread 0 at 4:22\n",
        ),
        (by_zero, "", 1, by_zero_answer),
        (outside, "", 1, "UNSAFE thread 0 at 2:14\n"),
        (least, "", 0, "SAFE\n"),
        (first_last(), "", 1, "UNSAFE thread 0 at 1"),
    ];
    for (text, options, status, front) in rows {
        assert!(rt; begins(&rt, text, options, status, front)?);
    }
    Ok(())
}

#[test]
fn a_printed_witness_is_replayed(rt: HostRuntime) -> Result<(), Fail> {
    let line = "deagle verify prog.c --model tso";
    let printed = replayed(&rt, maybe_fenced(), "", line, 1)?;
    let Some((_, witness)) = printed.as_str().split_once("\n") else {
        return Ok(assert!(rt; false));
    };
    let line = "deagle replay prog.c w --model tso";
    let told = replayed(&rt, maybe_fenced(), witness, line, 0)?;
    assert!(rt; told.as_str().starts_with("FAILING thread 0 at "));
    Ok(())
}

#[test]
fn a_spent_budget_is_told(rt: HostRuntime) -> Result<(), Fail> {
    let wanted = [
        "UNKNOWN\nworker 0 entries 1 read 0 0\nworker 1 entries 1 read 0 0\n",
        "UNKNOWN\nworker 0 entries 1 read 0 0\nworker 1 entries 1 read 1 0\n",
        "UNKNOWN\nworker 0 entries 1 read 0 1\nworker 1 entries 1 read 0 0\n",
        "UNKNOWN\nworker 0 entries 1 read 0 1\nworker 1 entries 1 read 1 0\n",
    ];
    let text = four_copies();
    let mut desk = desk_with(rt.alloc(), "program.c", text)?;
    let line = "deagle verify program.c --budget 1 --workers 2";
    assert_eq!(rt; call(&rt, &mut desk, line)?, 2);
    let mut found = false;
    for answer in wanted.iter() {
        if desk.printed() == answer.as_bytes() {
            found = true;
        }
    }
    assert!(rt; found);
    assert!(rt; begins(&rt, text, "", 0, "SAFE\n")?);
    Ok(())
}

// Where two workers wait for each other, each for so many turns at most.
#[derive(Drop)]
struct Meeting {
    first: AtomicBool,
    second: AtomicBool,
    first_met: AtomicBool,
    second_met: AtomicBool,
}

impl Gate for Meeting {
    fn pass(&self, worker: u32) {
        let (mine, other, met) = if worker == 0 {
            (&self.first, &self.second, &self.first_met)
        } else {
            (&self.second, &self.first, &self.second_met)
        };
        mine.store(true, Ordering::SeqCst);
        for _ in 0u32..100_000_000 {
            if other.load(Ordering::SeqCst) {
                met.store(true, Ordering::SeqCst);
                return;
            }
        }
    }
}

#[test]
fn workers_run_at_the_same_time(rt: HostRuntime) -> Result<(), Fail> {
    let gate = Meeting {
        first: AtomicBool::new(false),
        second: AtomicBool::new(false),
        first_met: AtomicBool::new(false),
        second_met: AtomicBool::new(false),
    };
    let alloc = rt.alloc();
    let mut desk = desk_with(alloc, "program.c", store_buffering())?;
    let mut words = Words::new(alloc)?;
    for word in "deagle verify program.c --workers 2".split(' ') {
        words.push(word)?;
    }
    assert_eq!(rt; run(&rt, alloc, &words, &mut desk, &gate), 0);
    assert!(rt; desk.printed() == b"SAFE\n".as_slice());
    assert!(rt; gate.first_met.load(Ordering::SeqCst));
    assert!(rt; gate.second_met.load(Ordering::SeqCst));
    Ok(())
}
