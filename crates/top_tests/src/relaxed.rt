// Programs on which memory models differ, and some on which they agree.

// The program with these shared cells, two threads with these bodies, and this behind their joins.
macro_rules! two_threads {
    ($cells:literal, $first:literal, $second:literal, $last:literal) => {
        concat!(
            $cells,
            "\nvoid *t0(void *p) { ",
            $first,
            " return 0; }\nvoid *t1(void *p) { ",
            $second,
            " return 0; }
int main() {
  pthread_t t[2];
  pthread_create(&t[0], 0, t0, 0);
  pthread_create(&t[1], 0, t1, 0);
  pthread_join(t[0], 0);
  pthread_join(t[1], 0);
  ",
            $last,
            "\n  return 0;\n}\n"
        )
    };
}

// Store buffering in so many independent copies, which two lemmas do not decide.
macro_rules! copies {
    ($($i:literal)*) => {
        concat!(
            $(
                "int x", $i, ", y", $i, ", r", $i, ", s", $i, ";\n",
                "void *a", $i, "(void *p) { x", $i, " = 1; r", $i, " = y", $i, "; return 0; }\n",
                "void *b", $i, "(void *p) { y", $i, " = 1; s", $i, " = x", $i, "; return 0; }\n",
            )*
            "int main() {\n",
            $(
                "  pthread_t t", $i, ", u", $i, ";\n",
                "  pthread_create(&t", $i, ", 0, a", $i, ", 0);\n",
                "  pthread_create(&u", $i, ", 0, b", $i, ", 0);\n",
            )*
            $("  pthread_join(t", $i, ", 0);\n  pthread_join(u", $i, ", 0);\n",)*
            $("  assert(!(r", $i, " == 0 && s", $i, " == 0));\n",)*
            "  return 0;\n}\n"
        )
    };
}

pub(crate) fn four_copies() -> &'static str {
    copies!("0" "1" "2" "3")
}

// Store buffering with a fence between the accesses of each thread.
pub(crate) fn fenced() -> &'static str {
    two_threads!(
        "int x, y, r, s;",
        "x = 1; __sync_synchronize(); r = y;",
        "y = 1; __sync_synchronize(); s = x;",
        "assert(!(r == 0 && s == 0));"
    )
}

// The same, where each fence may be left out.
pub(crate) fn maybe_fenced() -> &'static str {
    two_threads!(
        "int x, y, r, s;",
        "x = 1; if (__VERIFIER_nondet_int()) __sync_synchronize(); r = y;",
        "y = 1; if (__VERIFIER_nondet_int()) __sync_synchronize(); s = x;",
        "assert(!(r == 0 && s == 0));"
    )
}

// Message passing.
pub(crate) fn message_passing() -> &'static str {
    two_threads!(
        "int x, f, r, s;",
        "x = 1; f = 1;",
        "r = f; s = x;",
        "assert(!(r == 1 && s == 0));"
    )
}

// Two threads write two cells in opposite orders.
pub(crate) fn opposite_writes() -> &'static str {
    two_threads!(
        "int x, y;",
        "x = 1; y = 2;",
        "y = 1; x = 2;",
        "assert(!(x == 1 && y == 1));"
    )
}

// Load buffering.
pub(crate) fn load_buffering() -> &'static str {
    two_threads!(
        "int x, y, r, s;",
        "r = y; x = 1;",
        "s = x; y = 1;",
        "assert(!(r == 1 && s == 1));"
    )
}

// Independent reads of independent writes.
pub(crate) fn independent_reads() -> &'static str {
    "int x, y, a, b, c, d;
void *t0(void *p) { x = 1; return 0; }
void *t1(void *p) { y = 1; return 0; }
void *t2(void *p) { a = x; b = y; return 0; }
void *t3(void *p) { c = y; d = x; return 0; }
int main() {
  pthread_t t[4];
  pthread_create(&t[0], 0, t0, 0);
  pthread_create(&t[1], 0, t1, 0);
  pthread_create(&t[2], 0, t2, 0);
  pthread_create(&t[3], 0, t3, 0);
  pthread_join(t[0], 0);
  pthread_join(t[1], 0);
  pthread_join(t[2], 0);
  pthread_join(t[3], 0);
  assert(!(a == 1 && b == 0 && c == 1 && d == 0));
  return 0;
}
"
}

// Two reads of one cell by one thread.
pub(crate) fn coherent_reads() -> &'static str {
    two_threads!(
        "int x, a, b;",
        "x = 1;",
        "a = x; b = x;",
        "assert(!(a == 1 && b == 0));"
    )
}

// Two threads count without a mutex.
pub(crate) fn racing() -> &'static str {
    two_threads!("int x;", "x = x + 1;", "x = x + 1;", "assert(x == 2);")
}

// A section that cannot end hides its write.
pub(crate) fn hidden_write() -> &'static str {
    two_threads!(
        "int x;",
        "__VERIFIER_atomic_begin(); x = 1; __VERIFIER_assume(0); x = 0; __VERIFIER_atomic_end();",
        "assert(x == 0);",
        ""
    )
}

// An assertion within a section sees what the section has written.
pub(crate) fn section_asserts() -> &'static str {
    "int x;
void *a(void *p) {
  __VERIFIER_atomic_begin();
  x = 1;
  assert(x == 0);
  __VERIFIER_atomic_end();
  return 0; }
int main() { pthread_t t; pthread_create(&t, 0, a, 0); return 0; }
"
}

pub(crate) fn section_asserts_answer() -> &'static str {
    "UNSAFE thread 1 at 5:3
deagle-witness 1
thread 0 main 0
script
thread 1 a 0
script 1 1
rf 1.3 1.2
co x init 1.2
end
"
}

// A loop that runs three times, and then fails.
pub(crate) fn three_times() -> &'static str {
    "int main() { for (int i = 0; i < 3; i++) ;
assert(0); return 0; }
"
}

// Store buffering under TSO: the one failing execution.
pub(crate) fn store_buffering_answer() -> &'static str {
    "UNSAFE thread 0 at 10:3
deagle-witness 1
thread 0 main 0
script 1 1 0 0
thread 1 a0 0
script 0
thread 2 b0 0
script 0
rf 0.5 1.3
rf 0.6 2.3
rf 1.2 init
rf 2.2 init
co x0 init 1.1
co y0 init 2.1
co r0 init 1.3
co s0 init 2.3
end
"
}
