// Witnesses, and what `replay` says of them.
use crate::calls::{call, desk_with};
use crate::verify::{row_1, row_1_answer};
use std::alloc::Global;
use std::test::Fail;
use std::thread::Threads;

// Store buffering: each of two threads writes one cell and reads the other's.
pub(crate) fn store_buffering() -> &'static str {
    "int x0, y0, r0, s0;
void *a0(void *p) { x0 = 1; r0 = y0; return 0; }
void *b0(void *p) { y0 = 1; s0 = x0; return 0; }
int main() {
  pthread_t t[2];
  pthread_create(&t[0], 0, a0, 0);
  pthread_create(&t[1], 0, b0, 0);
  pthread_join(t[0], 0);
  pthread_join(t[1], 0);
  assert(!(r0 == 0 && s0 == 0));
  return 0;
}
"
}

// Both threads read the initial values.
fn both_stale() -> &'static str {
    "deagle-witness 1
thread 0 main 0
script 1 1 0 0
thread 1 a0 0
script 0
thread 2 b0 0
script 0
rf 0.5 1.3
rf 0.6 2.3
rf 1.2 init
rf 2.2 init
co x0 init 1.1
co y0 init 2.1
co r0 init 1.3
co s0 init 2.3
end
"
}

// The first thread reads what the second wrote, so the assertion holds.
fn one_fresh() -> &'static str {
    "deagle-witness 1
thread 0 main 0
script 1 1 1
thread 1 a0 0
script 1
thread 2 b0 0
script 0
rf 0.5 1.3
rf 1.2 2.1
rf 2.2 init
co x0 init 1.1
co y0 init 2.1
co r0 init 1.3
co s0 init 2.3
end
"
}

// What is printed of a program and a witness, by the words of this line; the status must be this.
pub(crate) fn replayed<R: Threads + Sync + AllocGlobal>(
    rt: &R,
    program: &str,
    witness: &str,
    line: &str,
    status: u8,
) -> Result<String, Fail> {
    let mut desk = desk_with(rt.alloc(), "prog.c", program)?;
    desk.put("w", witness.as_bytes())?;
    let answer = call(rt, &mut desk, line)?;
    let mut printed = String::new(rt.alloc());
    if answer != status {
        printed.push_str("another status: ")?;
    }
    if let Ok(text) = str::from_utf8(desk.printed()) {
        printed.push_str(text)?;
    }
    Ok(printed)
}

// The text with its first such part replaced.
pub(crate) fn changed(alloc: Global, text: &str, old: &str, new: &str) -> Result<String, Fail> {
    let mut made = String::new(alloc);
    if let Some((before, behind)) = text.split_once(old) {
        made.push_str(before)?;
        made.push_str(new)?;
        made.push_str(behind)?;
    }
    Ok(made)
}

// Words, and the status and the answer for the witness in which both threads read the initial values.
fn by_model() -> &'static [(&'static str, u8, &'static str)] {
    &[
        (
            "deagle replay prog.c w --model tso",
            0,
            "FAILING thread 0 at 10:3\n",
        ),
        (
            "deagle replay prog.c w --model pso",
            0,
            "FAILING thread 0 at 10:3\n",
        ),
        (
            "deagle replay prog.c w --model sc",
            1,
            "REFUSED GlobalCycle 1.1 1.2 2.1 2.2\n",
        ),
        (
            "deagle replay prog.c w",
            1,
            "REFUSED GlobalCycle 1.1 1.2 2.1 2.2\n",
        ),
    ]
}

#[test]
fn a_witness_is_judged_by_the_model(rt: HostRuntime) -> Result<(), Fail> {
    for (line, status, wanted) in by_model() {
        let told = replayed(&rt, store_buffering(), both_stale(), line, *status)?;
        assert_eq!(rt; told.as_str(), *wanted);
    }
    let line = "deagle replay prog.c w";
    let told = replayed(&rt, store_buffering(), one_fresh(), line, 1)?;
    assert_eq!(rt; told.as_str(), "REFUSED NotFailing\n");
    Ok(())
}

// A part of the witness, what replaces it, and the status and the answer then.
type Change = (&'static str, &'static str, u8, &'static str);

fn changes_of_threads() -> &'static [Change] {
    &[
        (
            "thread 0 main 0",
            "thread 0 a0 0",
            1,
            "REFUSED MainMissing\n",
        ),
        (
            "thread 2 b0 0",
            "thread 16777216 b0 0",
            1,
            "REFUSED UnknownThread 16777216\n",
        ),
        (
            "script 1 1 0 0",
            "script 1 1 0",
            1,
            "REFUSED ScriptShort 0\n",
        ),
        (
            "script 1 1 0 0",
            "script 1 1 0 0 5",
            1,
            "REFUSED ScriptLong 0\n",
        ),
        ("script 1 1 0 0", "script 2", 1, "REFUSED BadRun 0\n"),
        (
            "rf 0.5 1.3",
            "thread 3 a0 0\nscript 0\nrf 0.5 1.3",
            1,
            "REFUSED NoCreate 3\n",
        ),
        ("thread 2 b0 0\nscript 0\n", "", 1, "REFUSED NoThread 2\n"),
    ]
}

fn changes_of_lines() -> &'static [Change] {
    &[
        ("rf 1.2 init", "rf 1.2 2.3", 1, "REFUSED BadSource 1.2\n"),
        ("co x0 init 1.1", "co x0 init", 1, "REFUSED BadOrder x0\n"),
        ("end\n", "", 4, "refused W1 WitnessText 16\n"),
        ("script 0", "script  0", 4, "refused W1 WitnessText 5\n"),
        (
            "thread 2 b0 0",
            "thread 1 b0 0",
            4,
            "refused W1 WitnessText 6\n",
        ),
    ]
}

fn refuses_changes<R: Threads + Sync + AllocGlobal>(
    rt: &R,
    changes: &[Change],
) -> Result<bool, Fail> {
    for (old, new, status, wanted) in changes {
        let witness = changed(rt.alloc(), both_stale(), old, new)?;
        let line = "deagle replay prog.c w --model tso";
        let told = replayed(rt, store_buffering(), witness.as_str(), line, *status)?;
        if told.as_str() != *wanted {
            return Ok(false);
        }
    }
    Ok(true)
}

#[test]
fn a_changed_witness_is_refused(rt: HostRuntime) -> Result<(), Fail> {
    assert!(rt; refuses_changes(&rt, changes_of_threads())?);
    assert!(rt; refuses_changes(&rt, changes_of_lines())?);
    Ok(())
}

// A program, a witness and the answer: a join of a thread that stopped; a read of an older write than the thread's own; a write
// of another thread within a section.
fn forbidden() -> &'static [(&'static str, &'static str, &'static str)] {
    &[
        (
            "void *f(void *p) { __VERIFIER_assume(0); return 0; }
int main() { pthread_t t; pthread_create(&t, 0, f, 0); pthread_join(t, 0); assert(0); return 0; }",
            "deagle-witness 1\nthread 0 main 0\nscript 1\nthread 1 f 0\nscript\nend\n",
            "REFUSED BadJoin 0.2\n",
        ),
        (
            "int x; int main() { x = 1; assert(x == 1); return 0; }",
            "deagle-witness 1\nthread 0 main 0\nscript 0\nrf 0.2 init\nco x init 0.1\nend\n",
            "REFUSED LocalCycle 0.1 0.2\n",
        ),
        (
            "int x;
void *f(void *p) { x = 1; return 0; }
int main() {
  pthread_t t; pthread_create(&t, 0, f, 0);
  __VERIFIER_atomic_begin(); int a = x; int b = x; __VERIFIER_atomic_end();
  assert(a == b);
  return 0; }",
            "deagle-witness 1\nthread 0 main 0\nscript 1 0 1\nthread 1 f 0\nscript\nrf 0.3 init\nrf 0.4 1.1\nco x init 1.1\nend\n",
            "REFUSED BlockCycle 0.3 1.1 1.1 0.4\n",
        ),
    ]
}

#[test]
fn what_no_model_allows_is_refused(rt: HostRuntime) -> Result<(), Fail> {
    for (program, witness, wanted) in forbidden() {
        let line = "deagle replay prog.c w --model pso";
        let told = replayed(&rt, program, witness, line, 1)?;
        assert_eq!(rt; told.as_str(), *wanted);
    }
    Ok(())
}

// Options, the status and the answer for the witness without script of a loop that turns three times before an assertion fails.
fn by_bound() -> &'static [(&'static str, u8, &'static str)] {
    &[
        ("--unroll 2", 1, "REFUSED NotFailing\n"),
        ("--unroll 3", 0, "FAILING thread 0 at 2:1\n"),
        ("--unroll 2 --full", 0, "FAILING bound thread 0 at 1:14\n"),
        (
            "--full --unroll 2 --model tso",
            0,
            "FAILING bound thread 0 at 1:14\n",
        ),
        ("--full --unroll 3", 0, "FAILING thread 0 at 2:1\n"),
        ("--full", 0, "FAILING bound thread 0 at 1:14\n"),
    ]
}

// The loop goes no further behind its bound; with `--full` it fails there.
#[test]
fn loops_are_cut_at_the_bound(rt: HostRuntime) -> Result<(), Fail> {
    let program = "int main() { for (int i = 0; i < 3; i++) ;\nassert(0); return 0; }";
    let witness = "deagle-witness 1\nthread 0 main 0\nscript\nend\n";
    for (options, status, wanted) in by_bound() {
        let mut line = String::from_str(rt.alloc(), "deagle replay prog.c w ")?;
        line.push_str(options)?;
        let told = replayed(&rt, program, witness, line.as_str(), *status)?;
        assert_eq!(rt; told.as_str(), *wanted);
    }
    Ok(())
}

// One thread spends a bound and a later one fails an assertion: the assertion is told.
#[test]
fn an_assertion_is_told_before_a_bound(rt: HostRuntime) -> Result<(), Fail> {
    let program = "void *f(void *p) { assert(0); return 0; }
int main() { pthread_t t; pthread_create(&t, 0, f, 0); while (1) ; return 0; }";
    let both = "deagle-witness 1\nthread 0 main 0\nscript\nthread 1 f 0\nscript\nend\n";
    let line = "deagle replay prog.c w --full";
    let told = replayed(&rt, program, both, line, 0)?;
    assert_eq!(rt; told.as_str(), "FAILING thread 1 at 1:20\n");
    Ok(())
}

// What is printed behind the first line of `UNSAFE` is a witness, and is judged as it was told.
#[test]
fn what_verify_prints_is_replayed(rt: HostRuntime) -> Result<(), Fail> {
    let Some((first, witness)) = row_1_answer().split_once("\n") else {
        return Ok(assert!(rt; false));
    };
    let told = replayed(&rt, row_1(), witness, "deagle replay prog.c w", 0)?;
    let wanted = changed(rt.alloc(), first, "UNSAFE", "FAILING")?;
    assert_eq!(rt; told.as_str().trim_end(), wanted.as_str());
    Ok(())
}

// The program's refusal comes before that of the witness, and a witness that cannot be fetched before both.
#[test]
fn refusals_come_in_order(rt: HostRuntime) -> Result<(), Fail> {
    let line = "deagle replay prog.c w";
    let told = replayed(&rt, "int main(){x=1;}", "deagle", line, 4)?;
    assert_eq!(rt; told.as_str(), "refused E6 Unknown 1:12\n");
    let told = replayed(&rt, "int main(){return 0;}", "", line, 4)?;
    assert_eq!(rt; told.as_str(), "refused W1 WitnessText 1\n");
    let mut desk = desk_with(rt.alloc(), "prog.c", "int main(){x=1;}")?;
    assert_eq!(rt; call(&rt, &mut desk, line)?, 5);
    assert!(rt; desk.printed().is_empty());
    Ok(())
}
