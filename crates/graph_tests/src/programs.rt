// Programs and their events.

// A program, and its events in order, worked out by hand: a line for each, with its instance, or - for an initial write, its kind,
// its cell, which is 0 where it has none, and its block.
pub type Row = (&'static str, &'static str);

// Each of two threads writes a cell, reads the other's cell and puts what it read into a third one. The cells of x, y, a and b are
// 0, 1, 2 and 3. What main reads of b is an event though it is read only where a is 0.
pub fn store_buffering() -> Row {
    (
        "int x, y, a, b; void *f(void *p) { x = 1; a = y; return 0; } void *g(void *p) { y = 1; b = x; return 0; } int main() { pthread_t t, u; pthread_create(&t, 0, f, 0); pthread_create(&u, 0, g, 0); pthread_join(t, 0); pthread_join(u, 0); assert(a || b); return 0; }",
        "- Initial 0 0
- Initial 1 1
- Initial 2 2
- Initial 3 3
0 Start 0 4
0 Create(1) 0 5
0 Create(2) 0 6
0 Join 0 7
0 Join 0 8
0 Read 2 9
0 Read 3 10
0 End 0 11
1 Start 0 12
1 Write 0 13
1 Read 1 14
1 Write 2 15
1 End 0 16
2 Start 0 17
2 Write 1 18
2 Read 0 19
2 Write 3 20
2 End 0 21
",
    )
}

// Sections, with an assertion that fails. Each of these programs stops somewhere.
pub fn sections() -> &'static [Row] {
    &[
        // the section is events 2 to 6
        (
            "int x; int main() { __VERIFIER_atomic_begin(); x = 1; assert(x == 2); __VERIFIER_assume(x == 1); __VERIFIER_atomic_end(); x = 3; return 0; }",
            "- Initial 0 0
0 Start 0 1
0 Full 0 2
0 Write 0 2
0 Read 0 2
0 Read 0 2
0 Full 0 2
0 Write 0 7
0 End 0 8
",
        ),
        // the mutex is cell 0: to lock it and to unlock it is a section each, and what stands between them is in none
        (
            "pthread_mutex_t m; int x; int main() { pthread_mutex_lock(&m); x = 1; assert(x == 2); pthread_mutex_unlock(&m); return 0; }",
            "- Initial 0 0
- Initial 1 1
0 Start 0 2
0 Full 0 3
0 Read 0 3
0 Write 0 3
0 Full 0 3
0 Write 1 7
0 Read 1 8
0 Full 0 9
0 Write 0 9
0 Full 0 9
0 End 0 12
",
        ),
    ]
}
