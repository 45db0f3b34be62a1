// Types, and where things may stand: each part of the rule broken once, with the place, and kept.
use crate::refusals::told;

#[test]
fn values_fit(rt: HostRuntime) {
    for (text, want) in [
        (
            "void g() { } int main() { g(); return 0; }",
            ("accepted", 0, 0),
        ),
        (
            "void g() { } int main() { 1 + g(); return 0; }",
            ("type", 1, 31),
        ),
        (
            "void g() { } int main() { g(), 1; return 0; }",
            ("accepted", 0, 0),
        ),
        (
            "void g() { } int main() { 1, g(); return 0; }",
            ("type", 1, 30),
        ),
        (
            "void g() { } int main() { g(), g(), 1; return 0; }",
            ("accepted", 0, 0),
        ),
        (
            "void g() { } int main() { (g()); return 0; }",
            ("type", 1, 28),
        ),
        (
            "void g() { } int main() { 1 ? g() : 2; return 0; }",
            ("type", 1, 31),
        ),
        (
            "void g() { } int main() { int x = g(); return 0; }",
            ("type", 1, 35),
        ),
        ("int main() { (void) 1; return 0; }", ("accepted", 0, 0)),
        ("int main() { return (void) 1; }", ("type", 1, 21)),
        (
            "int main() { (pthread_mutex_t) 1; return 0; }",
            ("type", 1, 14),
        ),
        ("int main() { assert(1); return 0; }", ("accepted", 0, 0)),
        ("int main() { assert(1) + 1; return 0; }", ("type", 1, 14)),
        (
            "void f() { return 1; } int main() { return 0; }",
            ("type", 1, 12),
        ),
        (
            "void f() { return; } int main() { return 0; }",
            ("accepted", 0, 0),
        ),
        (
            "int f() { return; return 1; } int main() { return 0; }",
            ("accepted", 0, 0),
        ),
    ] {
        assert_eq!(rt; told(rt.alloc(), 1, text), want, "at {text}");
    }
}

#[test]
fn mutexes_fit(rt: HostRuntime) {
    for (text, want) in [
        (
            "pthread_mutex_t m = PTHREAD_MUTEX_INITIALIZER; int main() { return 0; }",
            ("accepted", 0, 0),
        ),
        (
            "pthread_mutex_t m = 0; int main() { return 0; }",
            ("type", 1, 17),
        ),
        (
            "pthread_mutex_t m = (PTHREAD_MUTEX_INITIALIZER); int main() { return 0; }",
            ("type", 1, 22),
        ),
        (
            "pthread_mutex_t m = 1 + PTHREAD_MUTEX_INITIALIZER; int main() { return 0; }",
            ("type", 1, 25),
        ),
        (
            "int f(pthread_mutex_t p) { return 0; } int main() { return 0; }",
            ("type", 1, 23),
        ),
        (
            "pthread_mutex_t g() { } int main() { g(); return 0; }",
            ("type", 1, 38),
        ),
        (
            "pthread_mutex_t m[2] = { PTHREAD_MUTEX_INITIALIZER }; int main() { return 0; }",
            ("accepted", 0, 0),
        ),
        (
            "int main() { pthread_mutex_t m; return 0; }",
            ("type", 1, 30),
        ),
        (
            "pthread_mutex_t m; int main() { pthread_mutex_lock(&m); return 0; }",
            ("accepted", 0, 0),
        ),
        (
            "pthread_mutex_t m; int main() { pthread_mutex_lock(&(m)); return 0; }",
            ("accepted", 0, 0),
        ),
        (
            "pthread_mutex_t m; int main() { pthread_mutex_lock(m); return 0; }",
            ("type", 1, 52),
        ),
        (
            "pthread_mutex_t m; int main() { m + 1; return 0; }",
            ("type", 1, 33),
        ),
        (
            "int x; int main() { pthread_mutex_lock(&x); return 0; }",
            ("type", 1, 21),
        ),
        (
            "pthread_mutex_t m[2]; int main() { pthread_mutex_unlock(&m[0]); return 0; }",
            ("accepted", 0, 0),
        ),
        (
            "pthread_mutex_t m[2]; int main() { pthread_mutex_unlock(&m); return 0; }",
            ("type", 1, 58),
        ),
        (
            "pthread_mutex_t m; int main() { pthread_mutex_init(&m, 0); return 0; }",
            ("accepted", 0, 0),
        ),
        (
            "pthread_mutex_t m; int main() { pthread_mutex_init(&m, 1); return 0; }",
            ("type", 1, 33),
        ),
        (
            "pthread_mutex_t m; int main() { pthread_mutex_lock(&m, &m); return 0; }",
            ("type", 1, 57),
        ),
    ] {
        assert_eq!(rt; told(rt.alloc(), 1, text), want, "at {text}");
    }
}

#[test]
fn variables_fit(rt: HostRuntime) {
    for (text, want) in [
        ("void x; int main() { return 0; }", ("type", 1, 6)),
        ("int main() { void x; return 0; }", ("type", 1, 19)),
        (
            "int f(void p) { return 0; } int main() { return 0; }",
            ("type", 1, 12),
        ),
        (
            "int f(int p, void q) { return 0; } int main() { return 0; }",
            ("type", 1, 19),
        ),
        (
            "int a[2]; int main() { a[0] = 3; return 0; }",
            ("accepted", 0, 0),
        ),
        ("int a[2]; int main() { a; return 0; }", ("type", 1, 24)),
        ("int x; int main() { x[0]; return 0; }", ("type", 1, 21)),
        ("int x; int main() { x = 1; return 0; }", ("accepted", 0, 0)),
        ("int a[0]; int main() { return 0; }", ("type", 1, 5)),
        ("int a[0 - 1]; int main() { return 0; }", ("type", 1, 5)),
        ("int n; int a[n]; int main() { return 0; }", ("type", 1, 12)),
        (
            "int a[2] = { 1, 2 }; int main() { return 0; }",
            ("accepted", 0, 0),
        ),
        (
            "int a[1] = { 1, 2 }; int main() { return 0; }",
            ("type", 1, 5),
        ),
        ("int a[2] = 1; int main() { return 0; }", ("type", 1, 5)),
        ("int x = { 1 }; int main() { return 0; }", ("type", 1, 5)),
        (
            "int x = 1 + 2; int main() { return 0; }",
            ("accepted", 0, 0),
        ),
        ("int x = 1 / 0; int main() { return 0; }", ("type", 1, 5)),
        (
            "int a[2] = { 2, 1 / 0 }; int main() { return 0; }",
            ("type", 1, 5),
        ),
        (
            "int y; int x = y; int main() { return 0; }",
            ("type", 1, 12),
        ),
        (
            "int y; int main() { int x = y; return 0; }",
            ("accepted", 0, 0),
        ),
        ("int a[4 * 8]; int main() { return 0; }", ("accepted", 0, 0)),
    ] {
        assert_eq!(rt; told(rt.alloc(), 1, text), want, "at {text}");
    }
}

#[test]
fn calls_fit(rt: HostRuntime) {
    for (text, want) in [
        ("int main() { main; return 0; }", ("type", 1, 14)),
        ("int main() { abort; return 0; }", ("type", 1, 14)),
        (
            "int main() { int main; main; return 0; }",
            ("accepted", 0, 0),
        ),
        ("int x; int main() { x(); return 0; }", ("type", 1, 21)),
        (
            "int g(int p) { return p; } int main() { g(); return 0; }",
            ("type", 1, 41),
        ),
        ("int main() { exit(); return 0; }", ("type", 1, 14)),
        ("int main() { exit(\"x\"); return 0; }", ("type", 1, 19)),
        (
            "int main() { __assert_fail(\"a\", \"b\", 0, \"c\"); return 0; }",
            ("accepted", 0, 0),
        ),
        ("int x; int main() { exit(&x); return 0; }", ("type", 1, 26)),
        (
            "void assert(int p) { } int main() { assert(1); return 0; }",
            ("accepted", 0, 0),
        ),
        (
            "int assert(int p, int q) { return p; } int main() { assert(2, 1) + 1; return 0; }",
            ("accepted", 0, 0),
        ),
        (
            "int reach_error(int p) { return p; } int main() { reach_error(1); return 0; }",
            ("accepted", 0, 0),
        ),
        ("int main() { reach_error(1); return 0; }", ("type", 1, 14)),
        (
            "int x; int main() { x() + main; return 0; }",
            ("type", 1, 21),
        ),
        ("int x; int main() { x(main); return 0; }", ("type", 1, 23)),
        ("int main() { break; return 0; }", ("type", 1, 14)),
        ("int main() { continue; return 0; }", ("type", 1, 14)),
        (
            "int main() { while (1) break; return 0; }",
            ("accepted", 0, 0),
        ),
        (
            "int main() { while (1) continue; break; return 0; }",
            ("type", 1, 34),
        ),
    ] {
        assert_eq!(rt; told(rt.alloc(), 1, text), want, "at {text}");
    }
}

#[test]
fn threads_fit(rt: HostRuntime) {
    for (text, want) in [
        (
            "pthread_t h; int t(int p) { return p; } int main() { pthread_create(&h, 0, t, 0); return 0; }",
            ("accepted", 0, 0),
        ),
        (
            "pthread_t h; int t(int p) { return p; } int main() { pthread_create(&h, 0, t, 0, 0); return 0; }",
            ("type", 1, 54),
        ),
        (
            "pthread_t h[2]; int t() { return 0; } int main() { pthread_create(&h[0], (void *) 0, &t, 0); return 0; }",
            ("accepted", 0, 0),
        ),
        (
            "pthread_t h; int t(int p) { return p; } int main() { pthread_create(&h, 0, &(t), 0); return 0; }",
            ("accepted", 0, 0),
        ),
        (
            "pthread_t h; int t(int p) { return p; } int main() { pthread_create(&h, 0, (t), 0); return 0; }",
            ("type", 1, 77),
        ),
        (
            "pthread_t h; int t(int p) { return p; } int main() { pthread_create(&h, 1, t, 0); return 0; }",
            ("type", 1, 54),
        ),
        (
            "pthread_t h; int t(int p) { return p; } int main() { pthread_create(h, 0, t, 0); return 0; }",
            ("type", 1, 54),
        ),
        (
            "pthread_mutex_t m; int t() { return 0; } int main() { pthread_create(&m, 0, t, 0); return 0; }",
            ("type", 1, 71),
        ),
        (
            "pthread_t h; void t() { } int main() { pthread_create(&h, 0, t, 0); return 0; }",
            ("type", 1, 40),
        ),
        (
            "pthread_t h; int t(int p, int q) { return p; } int main() { pthread_create(&h, 0, t, 0); return 0; }",
            ("type", 1, 61),
        ),
        (
            "pthread_t h; int t(int p) { return p; } int main() { pthread_create(&h, 0, h, 0); return 0; }",
            ("type", 1, 54),
        ),
        (
            "pthread_t h; int t(int p) { return p; } int main() { pthread_create(&h, 0, &h, 0); return 0; }",
            ("type", 1, 76),
        ),
        (
            "pthread_t h; int t(int p) { return p; } int main() { pthread_create(&h, 0, abort, 0); return 0; }",
            ("type", 1, 76),
        ),
        (
            "pthread_t h; int t(int p) { return p; } int main() { pthread_join(h, (void *) 0); return 0; }",
            ("accepted", 0, 0),
        ),
        (
            "pthread_t h; int t(int p) { return p; } int main() { pthread_join(h, 1); return 0; }",
            ("type", 1, 54),
        ),
    ] {
        assert_eq!(rt; told(rt.alloc(), 1, text), want, "at {text}");
    }
}
