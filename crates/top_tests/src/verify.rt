// What `verify` says of texts: verdicts, refusals and limits.
use crate::calls::{call, desk_with};
use crate::programs;
use dg_base::MemDesk;
use std::alloc::Global;
use std::test::Fail;
use std::thread::Threads;

pub(crate) fn row_1() -> &'static str {
    "int x;
void *a(void *p) { x = 1; return 0; }
void *b(void *p) { x = 2; return 0; }
int main() {
  pthread_t s, t;
  pthread_create(&s, 0, a, 0);
  pthread_create(&t, 0, b, 0);
  pthread_join(s, 0);
  pthread_join(t, 0);
  assert(x == 1);
  return 0;
}
"
}

pub(crate) fn row_1_answer() -> &'static str {
    "UNSAFE thread 0 at 10:3
deagle-witness 1
thread 0 main 0
script 1 1 2
thread 1 a 0
script
thread 2 b 0
script
rf 0.5 2.1
co x init 1.1 2.1
end
"
}

pub(crate) fn same() -> &'static str {
    "int x;
void *a(void *p) { x = 1; return 0; }
void *b(void *p) { x = 1; return 0; }
int main() {
  pthread_t s, t;
  pthread_create(&s, 0, a, 0);
  pthread_create(&t, 0, b, 0);
  pthread_join(s, 0);
  pthread_join(t, 0);
  assert(x == 1);
  return 0;
}
"
}

fn initial() -> &'static str {
    "int x;
int main() {
  assert(x == 1);
return 0; }
"
}

fn initial_answer() -> &'static str {
    "UNSAFE thread 0 at 3:3
deagle-witness 1
thread 0 main 0
script 0
rf 0.1 init
co x init
end
"
}

// Each of three assertions may fail.
pub(crate) fn first_last() -> &'static str {
    "int cell;
void *g(void *p) { cell = 7; cell = 5; return 0; }
void *f(void *p) { cell = 4; return 0; }
int main() {
  pthread_t u, v, w;
  pthread_create(&u, 0, f, 0);
  pthread_create(&v, 0, g, 0);
  pthread_create(&w, 0, f, 0);
  pthread_join(u, 0);
  pthread_join(v, 0);
  pthread_join(w, 0);
  assert(cell == 4); assert(cell == 4);
  assert(cell == 5);
  return 0;
}
"
}

// The first row with comments, a directive, blanks, a hexadecimal number and words that say nothing.
fn commented() -> &'static str {
    "#include <pthread.h>
#define ONE 0x1
/* the cell */ volatile int\tx ;
void*a(void*p){x=ONE;return NULL;} // writes 1
void *b ( void *p ) { x = 2 ; return 0 ; }
int main(void)
{ pthread_t s ,t;
  pthread_create(&s, NULL, a, NULL); pthread_create(&t, 0, b, 0);
  pthread_join(s, NULL); pthread_join(t, 0);
  /* fails */ assert(x==01); return 0; }"
}

fn commented_answer() -> &'static str {
    "UNSAFE thread 0 at 10:15
deagle-witness 1
thread 0 main 0
script 1 1 2
thread 1 a 0
script
thread 2 b 0
script
rf 0.5 2.1
co x init 1.1 2.1
end
"
}

// The status and whether exactly this was printed.
fn answers<R: Threads + Sync + AllocGlobal>(
    rt: &R,
    text: &str,
    status: u8,
    printed: &str,
) -> Result<bool, Fail> {
    let mut desk = desk_with(rt.alloc(), "program.c", text)?;
    let answer = call(rt, &mut desk, "deagle verify program.c")?;
    Ok(answer == status && desk.printed() == printed.as_bytes())
}

#[test]
fn rows_on_texts(rt: HostRuntime) -> Result<(), Fail> {
    let rows = [
        (row_1(), 1, row_1_answer()),
        (same(), 0, "SAFE\n"),
        (initial(), 1, initial_answer()),
        (commented(), 1, commented_answer()),
        ("int main() { return 0; }", 0, "SAFE\n"),
        ("int main() { return 1; }", 0, "SAFE\n"),
    ];
    for (text, status, printed) in rows {
        assert!(rt; answers(&rt, text, status, printed)?);
    }
    Ok(())
}

#[test]
fn rows_on_refusals(rt: HostRuntime) -> Result<(), Fail> {
    let rows = [
        ("int @;", "refused E1 BadByte 1:5\n"),
        ("int main(){goto a;}", "refused E2 Unsupported 1:12 goto\n"),
        ("int main(){return 0;", "refused E3 Syntax 1:21\n"),
        ("", "refused E4 NoMain\n"),
        (
            "int x;int x;int main(){return 0;}",
            "refused E5 Duplicate 1:11\n",
        ),
        ("int main(){x=1;}", "refused E6 Unknown 1:12\n"),
        ("int x;int main(){return main;}", "refused E7 Type 1:25\n"),
        (
            "int main(){\n  __VERIFIER_atomic_begin();}",
            "refused E8 UnmatchedAtomic 2:3\n",
        ),
        (
            "void *f(void *p){pthread_t t;pthread_create(&t,0,f,0);return 0;}int main(){return 0;}",
            "refused E9 Recursion 1:7\n",
        ),
        (
            "int a[33];int main(){return 0;}",
            "refused E10 Limit cells 33\n",
        ),
    ];
    for (text, printed) in rows {
        assert!(rt; answers(&rt, text, 4, printed)?);
    }
    Ok(())
}

// Main writes to a cell of an array so often, and then does this.
fn with_writes(alloc: Global, count: u32, last: &str) -> Result<String, Fail> {
    let mut text = String::from_str(alloc, "int a[32]; int x; int main() {")?;
    for _ in 0..count {
        text.push_str(" a[0] = 1;")?;
    }
    text.push_str(last)?;
    text.push_str(" return 0; }")?;
    Ok(text)
}

#[test]
fn rows_on_limits(rt: HostRuntime) -> Result<(), Fail> {
    let many = with_writes(rt.alloc(), 32, "")?;
    assert!(rt; answers(&rt, many.as_str(), 0, "SAFE\n")?);
    let too_many = with_writes(rt.alloc(), 32, " x = 1;")?;
    assert!(rt;
        answers(
            &rt,
            too_many.as_str(),
            4,
            "refused E10 Limit accesses 1025\n"
        )?
    );
    let length: usize = "1048577".parse()?;
    let mut long = Vec::new(rt.alloc());
    long.resize(length, 32u8)?;
    let mut desk = MemDesk::new(rt.alloc())?;
    desk.put("long.c", long.as_slice())?;
    assert_eq!(rt; call(&rt, &mut desk, "deagle verify long.c")?, 4);
    assert!(rt; desk.printed() == b"refused E10 Limit text 1048577\n".as_slice());
    Ok(())
}

// So many shared cells, in arrays of 32, and then this.
fn with_cells(alloc: Global, arrays: u32, last: &str) -> Result<String, Fail> {
    let mut text = String::from_str(alloc, "int main() { return 0; } int x0")?;
    for i in 1..arrays {
        text.push_str(", a")?;
        for _ in 0..i {
            text.push_str("a")?;
        }
        text.push_str("[32]")?;
    }
    text.push_str(last)?;
    Ok(text)
}

#[test]
fn rows_on_checked_programs(rt: HostRuntime) -> Result<(), Fail> {
    for text in [
        programs::fibonacci(),
        programs::counting(),
        programs::counting_in_loops(),
        programs::own_assertions(),
    ] {
        assert!(rt; answers(&rt, text, 0, "SAFE\n")?);
    }
    let most = with_cells(rt.alloc(), 32, ", y[31];")?;
    assert!(rt; answers(&rt, most.as_str(), 0, "SAFE\n")?);
    let too_many = with_cells(rt.alloc(), 32, ", y[32];")?;
    assert!(rt;
        answers(
            &rt,
            too_many.as_str(),
            4,
            "refused E10 Limit globals 1025\n"
        )?
    );
    Ok(())
}
