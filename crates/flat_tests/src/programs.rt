// Programs and runs of them: loops run at most three times, each thread has the handle 3 and the argument 9.

// A program, how many instances it has, one of them, a script, and what that one does on it, worked out by hand: its actions, how
// it ends, with the column of a failure, and how many numbers it used.
pub type Row = (&'static str, usize, usize, &'static [u32], &'static str);

// Loops that end within three turns.
pub fn loops() -> &'static [Row] {
    &[
        (
            "int x; int main() { int i = 0; while (i < 2) { x = i; i++; } x = 7; return 0; }",
            1,
            0,
            &[],
            "Start W0=0 W0=1 W0=7 End Ended 0",
        ),
        (
            "int x; int main() { int i = 0; while (i < 3) { x = i; i++; } x = 7; return 0; }",
            1,
            0,
            &[],
            "Start W0=0 W0=1 W0=2 W0=7 End Ended 0",
        ),
        (
            "int x; int main() { for (int i = 0; i < 3; i++) { if (x) continue; x = i; } x = 7; return 0; }",
            1,
            0,
            &[0, 1, 0],
            "Start R0=0 W0=0 R0=1 R0=0 W0=2 W0=7 End Ended 3",
        ),
        (
            "int x; int main() { for (int i = 0; i < 3; i++) { if (x) continue; x = i; } x = 7; return 0; }",
            1,
            0,
            &[1, 1],
            "Short 2",
        ),
        (
            "int x; int main() { int i; for (i = 0; ; i++) { if (x == 1) break; if (x == 2) return 1; } x = i; return 0; }",
            1,
            0,
            &[9, 0, 0, 1],
            "Start R0=0 R0=0 R0=1 W0=1 End Ended 4",
        ),
        (
            "int x; int main() { int i; for (i = 0; ; i++) { if (x == 1) break; if (x == 2) return 1; } x = i; return 0; }",
            1,
            0,
            &[9, 0, 2],
            "Start R0=0 R0=2 End Ended 3",
        ),
        (
            "int x; int main() { do { x = 1; if (x) continue; x = 2; } while (x); x = 3; return 0; }",
            1,
            0,
            &[1, 0],
            "Start W0=1 R0=1 R0=0 W0=3 End Ended 2",
        ),
        (
            "int x; int main() { do { x = 1; if (x) continue; x = 2; } while (x); x = 3; return 0; }",
            1,
            0,
            &[0, 0],
            "Start W0=1 R0=0 W0=2 R0=0 W0=3 End Ended 2",
        ),
        (
            "int x; int main() { do { if (x) break; } while (1); x = 3; return 0; }",
            1,
            0,
            &[0, 1],
            "Start R0=0 R0=1 W0=3 End Ended 2",
        ),
        (
            "int x; int main() { for (int i = 0; i < 2; i++) for (int j = 0; j < 2; j++) { x = i * 2 + j; if (x) break; } return 0; }",
            1,
            0,
            &[1, 0, 1],
            "Start W0=0 R0=1 W0=2 R0=0 W0=3 R0=1 End Ended 3",
        ),
        (
            "int x, y; int main() { int a = 0, b = 1; for (int i = 0; i < 3; i++) { int c = a + b; a = b; b = c; x = c; } y = b; return 0; }",
            1,
            0,
            &[],
            "Start W0=1 W0=2 W0=3 W1=3 End Ended 0",
        ),
    ]
}

// Loops that are cut at their bound of three turns, which is not told.
pub fn cut() -> &'static [Row] {
    &[
        (
            "int x; int main() { int i = 0; while (i < 9) { x = i; i++; } x = 7; return 0; }",
            1,
            0,
            &[],
            "Start W0=0 W0=1 W0=2 Stopped 0",
        ),
        (
            "int x; int main() { do { x = 1; } while (x); return 0; }",
            1,
            0,
            &[1, 2, 3],
            "Start W0=1 R0=1 W0=1 R0=2 W0=1 R0=3 Stopped 3",
        ),
        (
            "int x; int main() { do { x = 1; } while (x); return 0; }",
            1,
            0,
            &[1, 2, 0],
            "Start W0=1 R0=1 W0=1 R0=2 W0=1 R0=0 End Ended 3",
        ),
        (
            "int x; int main() { int i = 0; __VERIFIER_atomic_begin(); while (i < 5) { i++; if (x) break; } __VERIFIER_atomic_end(); while (x) { __VERIFIER_atomic_begin(); x = 2; __VERIFIER_atomic_end(); } return 0; }",
            1,
            0,
            &[1, 0, 0, 0],
            "Start Open R0=0 R0=0 R0=0 Bad 4",
        ),
        (
            "int x; int main() { int i = 0; __VERIFIER_atomic_begin(); while (i < 5) { i++; if (x) break; } __VERIFIER_atomic_end(); while (x) { __VERIFIER_atomic_begin(); x = 2; __VERIFIER_atomic_end(); } return 0; }",
            1,
            0,
            &[1, 1, 5, 1, 0],
            "Start Open R0=1 Close R0=5 Open W0=2 Close R0=0 End Ended 5",
        ),
    ]
}

// The same where it is told.
pub fn told_cuts() -> &'static [Row] {
    &[
        (
            "int x; int main() { int i = 0; while (i < 9) { x = i; i++; } x = 7; return 0; }",
            1,
            0,
            &[],
            "Start W0=0 W0=1 W0=2 Bound at 32 0",
        ),
        (
            "int x; int main() { do { x = 1; } while (x); return 0; }",
            1,
            0,
            &[1, 2, 3],
            "Start W0=1 R0=1 W0=1 R0=2 W0=1 R0=3 Bound at 21 3",
        ),
        (
            "int x; int main() { do { x = 1; } while (x); return 0; }",
            1,
            0,
            &[1, 2, 0],
            "Start W0=1 R0=1 W0=1 R0=2 W0=1 R0=0 End Ended 3",
        ),
        (
            "int x; int main() { int i = 0; __VERIFIER_atomic_begin(); while (i < 5) { i++; if (x) break; } __VERIFIER_atomic_end(); while (x) { __VERIFIER_atomic_begin(); x = 2; __VERIFIER_atomic_end(); } return 0; }",
            1,
            0,
            &[1, 0, 0, 0],
            "Start Open R0=0 R0=0 R0=0 Bound at 59 4",
        ),
        (
            "int x; int main() { int i = 0; __VERIFIER_atomic_begin(); while (i < 5) { i++; if (x) break; } __VERIFIER_atomic_end(); while (x) { __VERIFIER_atomic_begin(); x = 2; __VERIFIER_atomic_end(); } return 0; }",
            1,
            0,
            &[1, 1, 5, 1, 0],
            "Start Open R0=1 Close R0=5 Open W0=2 Close R0=0 End Ended 5",
        ),
    ]
}

// Operators, arrays, calls and scopes.
pub fn values() -> &'static [Row] {
    &[
        (
            "int x, a[3]; int main() { int b[3] = {1, 2}; a[x] = b[x]; b[x] += 5; a[1] = b[1]; return 0; }",
            1,
            0,
            &[2, 1, 1],
            "Start R0=2 R0=1 W3=2 R0=1 W2=7 End Ended 3",
        ),
        (
            "int x, a[3]; int main() { int b[3] = {1, 2}; a[x] = b[x]; b[x] += 5; a[1] = b[1]; return 0; }",
            1,
            0,
            &[3],
            "Start R0=3 Failed at 46 1",
        ),
        (
            "int x, a[3]; int main() { int b[3] = {1, 2}; a[x] = b[x]; b[x] += 5; a[1] = b[1]; return 0; }",
            1,
            0,
            &[0, 4294967295],
            "Start R0=0 R0=4294967295 Failed at 53 2",
        ),
        (
            "int x; int main() { int b[2]; b[0] = b[1] / b[0]; x = b[0] % x; return 0; }",
            1,
            0,
            &[2, 12, 4],
            "Start R0=4 W0=2 End Ended 3",
        ),
        (
            "int x; int main() { int b[2]; b[0] = b[1] / b[0]; x = b[0] % x; return 0; }",
            1,
            0,
            &[2, 4294967289, 4294967294],
            "Start R0=4294967294 W0=4294967295 End Ended 3",
        ),
        (
            "int x; int main() { int b[2]; b[0] = b[1] / b[0]; x = b[0] % x; return 0; }",
            1,
            0,
            &[0, 12],
            "Start Failed at 43 2",
        ),
        (
            "int x; int main() { int b[2]; b[0] = b[1] / b[0]; x = b[0] % x; return 0; }",
            1,
            0,
            &[2, 12, 0],
            "Start R0=0 Failed at 60 3",
        ),
        (
            "int x, y; int main() { int t = x && y; t = t + (x || y); x = t; y = x ? 4 : y ? 5 : 6; return 0; }",
            1,
            0,
            &[0, 0, 3, 0, 0],
            "Start R0=0 R0=0 R1=3 W0=1 R0=0 R1=0 W1=6 End Ended 5",
        ),
        (
            "int x, y; int main() { int t = x && y; t = t + (x || y); x = t; y = x ? 4 : y ? 5 : 6; return 0; }",
            1,
            0,
            &[1, 2, 7, 1],
            "Start R0=1 R1=2 R0=7 W0=2 R0=1 W1=4 End Ended 4",
        ),
        (
            "int x, y; int main() { x = y++ + ++y; x -= 3; y = -x; x = ~y; y = !x; x = (y, 8); return 0; }",
            1,
            0,
            &[5, 6, 12, 9, 4294967287, 8, 0],
            "Start R1=5 W1=6 R1=6 W1=7 W0=12 R0=12 W0=9 R0=9 W1=4294967287 R1=4294967287 W0=8 R0=8 W1=0 R1=0 W0=8 End Ended 7",
        ),
        (
            "unsigned x; int y; int main() { y = x < 5; y = y < -1; x = x >> 1; y = y >> 1; x = x / 2u; return 0; }",
            1,
            0,
            &[4294967295, 4294967294, 2147483648, 4294967292, 9],
            "Start R0=4294967295 W1=0 R1=4294967294 W1=1 R0=2147483648 W0=1073741824 R1=4294967292 W1=4294967294 R0=9 W0=4 End Ended 5",
        ),
        (
            "int x; int main() { int x = x; { int x = 4; x++; } x = x + (x = 3); return x; }",
            1,
            0,
            &[],
            "Start End Ended 0",
        ),
        (
            "int x; int f(int a, int b) { if (a > b) return a; return b + x; } int main() { x = f(x, 3) + f(4, f(x, x)); return 0; }",
            1,
            0,
            &[5, 1, 2, 7, 1],
            "Start R0=5 R0=1 R0=2 R0=7 R0=1 W0=15 End Ended 5",
        ),
        (
            "int x; void f(int a) { while (a) { x = a; a = a - 1; } } int main() { f(2); f(x); return 0; }",
            1,
            0,
            &[1],
            "Start W0=2 W0=1 R0=1 W0=1 End Ended 1",
        ),
        (
            "int x; int f() { return x; } int main() { while (f()) x = 2; if (f() && f()) x = 9; return 0; }",
            1,
            0,
            &[1, 0, 3, 4],
            "Start R0=1 W0=2 R0=0 R0=3 R0=4 W0=9 End Ended 4",
        ),
        (
            "int x; int f() { return x; } int main() { while (f()) x = 2; if (f() && f()) x = 9; return 0; }",
            1,
            0,
            &[0, 0],
            "Start R0=0 R0=0 End Ended 2",
        ),
        (
            "int x; int f(int a) { if (a > 2) return 0; x = a; return 1; } int main() { int i = 0; while (f(i)) i++; x = 7; return 0; }",
            1,
            0,
            &[],
            "Start W0=0 W0=1 W0=2 W0=7 End Ended 0",
        ),
        (
            "int x; int main() { switch_: x = 1; { x = 2; int i = 5; x = i; } int i = 3; x = i; return 0; }",
            1,
            0,
            &[],
            "Start W0=1 W0=2 W0=5 W0=3 End Ended 0",
        ),
    ]
}

// Atomic sections and mutexes.
pub fn sections() -> &'static [Row] {
    &[
        (
            "int x; int main() { __VERIFIER_atomic_begin(); x = 1; x = x + 1; __VERIFIER_atomic_end(); x = 3; return 0; }",
            1,
            0,
            &[1, 1],
            "Start Open W0=1 R0=1 W0=2 Close W0=3 End Ended 2",
        ),
        (
            "int x; int main() { __VERIFIER_atomic_begin(); x = 1; x = x + 1; __VERIFIER_atomic_end(); x = 3; return 0; }",
            1,
            0,
            &[0],
            "Start Stopped 1",
        ),
        (
            "int x; int main() { __VERIFIER_atomic_begin(); x = 1; x = x + 1; __VERIFIER_atomic_end(); x = 3; return 0; }",
            1,
            0,
            &[2],
            "Start Bad 1",
        ),
        (
            "int x; int main() { __VERIFIER_atomic_begin(); assert(x); __VERIFIER_assume(x > 1); __VERIFIER_atomic_end(); assert(x); __VERIFIER_assume(x); return 0; }",
            1,
            0,
            &[1, 0],
            "Start Open R0=0 Failed at 48 2",
        ),
        (
            "int x; int main() { __VERIFIER_atomic_begin(); assert(x); __VERIFIER_assume(x > 1); __VERIFIER_atomic_end(); assert(x); __VERIFIER_assume(x); return 0; }",
            1,
            0,
            &[1, 1, 1],
            "Start Open R0=1 R0=1 Bad 3",
        ),
        (
            "int x; int main() { __VERIFIER_atomic_begin(); assert(x); __VERIFIER_assume(x > 1); __VERIFIER_atomic_end(); assert(x); __VERIFIER_assume(x); return 0; }",
            1,
            0,
            &[1, 1, 2, 0],
            "Start Open R0=1 R0=2 Close R0=0 Failed at 110 4",
        ),
        (
            "int x; int main() { __VERIFIER_atomic_begin(); assert(x); __VERIFIER_assume(x > 1); __VERIFIER_atomic_end(); assert(x); __VERIFIER_assume(x); return 0; }",
            1,
            0,
            &[1, 1, 2, 1, 0],
            "Start Open R0=1 R0=2 Close R0=1 R0=0 Stopped 5",
        ),
        (
            "int x; int __VERIFIER_atomic_f(int a) { if (a) return 1; x = a; return 2; } int main() { x = __VERIFIER_atomic_f(x); x = __VERIFIER_atomic_f(0); return 0; }",
            1,
            0,
            &[5, 1, 1],
            "Start R0=5 Open Close W0=1 Open W0=0 Close W0=2 End Ended 3",
        ),
        (
            "int x; void __VERIFIER_atomic_f() { x = x / x; } int main() { if (x) __VERIFIER_atomic_f(); x = 2; return 0; }",
            1,
            0,
            &[1, 1, 6, 0],
            "Start R0=1 Open R0=6 R0=0 Failed at 43 4",
        ),
        (
            "int x; void __VERIFIER_atomic_f() { x = x / x; } int main() { if (x) __VERIFIER_atomic_f(); x = 2; return 0; }",
            1,
            0,
            &[0],
            "Start R0=0 W0=2 End Ended 1",
        ),
        (
            "pthread_mutex_t m; int x; int main() { pthread_mutex_lock(&m); x = 1; pthread_mutex_unlock(&m); return 0; }",
            1,
            0,
            &[1, 0],
            "Start Open R0=0 W0=1 Close W1=1 Open W0=0 Close End Ended 2",
        ),
        (
            "pthread_mutex_t m; int x; int main() { pthread_mutex_lock(&m); x = 1; pthread_mutex_unlock(&m); return 0; }",
            1,
            0,
            &[1, 1],
            "Start Open R0=1 Bad 2",
        ),
        (
            "pthread_mutex_t m; int x; int main() { if (x) { pthread_mutex_init(&m, 0); pthread_mutex_lock(&m); } x = __VERIFIER_nondet_bool(); x = __VERIFIER_nondet_int(); return 0; }",
            1,
            0,
            &[0, 1, 8],
            "Start R1=0 W1=1 W1=8 End Ended 3",
        ),
        (
            "pthread_mutex_t m; int x; int main() { if (x) { pthread_mutex_init(&m, 0); pthread_mutex_lock(&m); } x = __VERIFIER_nondet_bool(); x = __VERIFIER_nondet_int(); return 0; }",
            1,
            0,
            &[0, 2],
            "Start R1=0 Bad 2",
        ),
    ]
}

// Threads that are created.
pub fn threads() -> &'static [Row] {
    &[
        (
            "int x; void *f(void *a) { x = 1; __sync_synchronize(); return 0; } int main() { pthread_t t, u; pthread_create(&t, 0, f, 0); pthread_create(&u, 0, f, 0); pthread_join(t, 0); pthread_join(u, 0); return 0; }",
            3,
            0,
            &[1, 0],
            "Start C193:0:0 C194:0:0 J193 Stopped 2",
        ),
        (
            "int x; void *f(void *a) { x = 1; __sync_synchronize(); return 0; } int main() { pthread_t t, u; pthread_create(&t, 0, f, 0); pthread_create(&u, 0, f, 0); pthread_join(t, 0); pthread_join(u, 0); return 0; }",
            3,
            2,
            &[],
            "Start W0=1 Fence End Ended 0",
        ),
        (
            "int x; void *g(void *a) { x = (int)a; return 0; } void *f(void *a) { pthread_t t[2]; int i; for (i = 0; i < 2; i++) pthread_create(&t[i], 0, g, (void *)i); return 0; } int main() { pthread_t t; if (x) pthread_create(&t, 0, f, 0); pthread_create(&t, 0, g, 0); return 0; }",
            6,
            0,
            &[0],
            "Start R0=0 C193:0:0 End Ended 1",
        ),
        (
            "int x; void *g(void *a) { x = (int)a; return 0; } void *f(void *a) { pthread_t t[2]; int i; for (i = 0; i < 2; i++) pthread_create(&t[i], 0, g, (void *)i); return 0; } int main() { pthread_t t; if (x) pthread_create(&t, 0, f, 0); pthread_create(&t, 0, g, 0); return 0; }",
            6,
            0,
            &[1],
            "Start R0=1 C193:1:0 C194:0:0 End Ended 1",
        ),
        (
            "int x; void *g(void *a) { x = (int)a; return 0; } void *f(void *a) { pthread_t t[2]; int i; for (i = 0; i < 2; i++) pthread_create(&t[i], 0, g, (void *)i); return 0; } int main() { pthread_t t; if (x) pthread_create(&t, 0, f, 0); pthread_create(&t, 0, g, 0); return 0; }",
            6,
            1,
            &[7],
            "Start C193:0:0 C194:0:1 End Ended 1",
        ),
        (
            "int x; void *g(void *a) { x = (int)a; return 0; } void *f(void *a) { pthread_t t[2]; int i; for (i = 0; i < 2; i++) pthread_create(&t[i], 0, g, (void *)i); return 0; } int main() { pthread_t t; if (x) pthread_create(&t, 0, f, 0); pthread_create(&t, 0, g, 0); return 0; }",
            6,
            5,
            &[],
            "Start W0=9 End Ended 0",
        ),
        (
            "int x; void *f(void *a) { if (x) pthread_exit(0); while (x) { if (x == 2) exit(1); abort(); } return 0; } int main() { pthread_t t; __VERIFIER_atomic_begin(); pthread_create(&t, 0, f, 0); __VERIFIER_atomic_end(); pthread_exit(0); }",
            2,
            0,
            &[1],
            "Start Open C193:0:0 Close End Ended 1",
        ),
        (
            "int x; void *f(void *a) { if (x) pthread_exit(0); while (x) { if (x == 2) exit(1); abort(); } return 0; } int main() { pthread_t t; __VERIFIER_atomic_begin(); pthread_create(&t, 0, f, 0); __VERIFIER_atomic_end(); pthread_exit(0); }",
            2,
            1,
            &[1],
            "Start R0=1 End Ended 1",
        ),
        (
            "int x; void *f(void *a) { if (x) pthread_exit(0); while (x) { if (x == 2) exit(1); abort(); } return 0; } int main() { pthread_t t; __VERIFIER_atomic_begin(); pthread_create(&t, 0, f, 0); __VERIFIER_atomic_end(); pthread_exit(0); }",
            2,
            1,
            &[0, 1, 2],
            "Start R0=0 R0=1 R0=2 Stopped 3",
        ),
        (
            "int i = 1, j = 1; void *f(void *p) { for (int k = 0; k < 3; k++) i = i + j; return 0; } int main() { pthread_t t; pthread_create(&t, 0, f, 0); for (int k = 0; k < 3; k++) j = j + i; pthread_join(t, 0); assert(j < 21); return 0; }",
            2,
            1,
            &[1, 1, 2, 3, 5, 8],
            "Start R0=1 R1=1 W0=2 R0=2 R1=3 W0=5 R0=5 R1=8 W0=13 End Ended 6",
        ),
        (
            "int i = 1, j = 1; void *f(void *p) { for (int k = 0; k < 3; k++) i = i + j; return 0; } int main() { pthread_t t; pthread_create(&t, 0, f, 0); for (int k = 0; k < 3; k++) j = j + i; pthread_join(t, 0); assert(j < 21); return 0; }",
            2,
            0,
            &[1, 2, 3, 5, 8, 13, 1, 21],
            "Start C193:0:0 R1=1 R0=2 W1=3 R1=3 R0=5 W1=8 R1=8 R0=13 W1=21 J193 R1=21 Failed at 203 8",
        ),
    ]
}
