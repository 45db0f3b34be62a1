// Atomic sections, recursion and limits.
use crate::refusals::told;

#[test]
fn sections_are_checked(rt: HostRuntime) {
    for (text, want) in [
        (
            "int main() { __VERIFIER_atomic_begin(); __VERIFIER_atomic_end(); return 0; }",
            ("accepted", 0, 0),
        ),
        (
            "int main() { __VERIFIER_atomic_begin(); return 0; }",
            ("section", 1, 14),
        ),
        (
            "int main() { __VERIFIER_atomic_end(); return 0; }",
            ("section", 1, 14),
        ),
        (
            "int main() { __VERIFIER_atomic_begin(); __VERIFIER_atomic_begin(); __VERIFIER_atomic_end(); return 0; }",
            ("section", 1, 41),
        ),
        (
            "int main() { __VERIFIER_atomic_begin(); return 0; __VERIFIER_atomic_end(); }",
            ("section", 1, 41),
        ),
        (
            "int main() { __VERIFIER_atomic_begin(); while (1) __VERIFIER_atomic_end(); return 0; }",
            ("section", 1, 14),
        ),
        (
            "int main() { __VERIFIER_atomic_begin(); while (1) __VERIFIER_atomic_end(); __VERIFIER_atomic_end(); return 0; }",
            ("section", 1, 51),
        ),
        (
            "int main() { __VERIFIER_atomic_begin(); while (1) break; __VERIFIER_atomic_end(); return 0; }",
            ("accepted", 0, 0),
        ),
        (
            "int main() { while (1) { __VERIFIER_atomic_begin(); break; __VERIFIER_atomic_end(); } return 0; }",
            ("section", 1, 53),
        ),
        (
            "int main() { while (1) { __VERIFIER_atomic_begin(); continue; __VERIFIER_atomic_end(); } return 0; }",
            ("section", 1, 53),
        ),
        (
            "int main() { if (1) __VERIFIER_atomic_begin(); return 0; }",
            ("section", 1, 21),
        ),
        (
            "int main() { { __VERIFIER_atomic_begin(); } __VERIFIER_atomic_end(); return 0; }",
            ("section", 1, 16),
        ),
        (
            "int main() { while (1) { __VERIFIER_atomic_begin(); __VERIFIER_atomic_end(); break; } return 0; }",
            ("accepted", 0, 0),
        ),
    ] {
        assert_eq!(rt; told(rt.alloc(), 1, text), want, "at {text}");
    }
}

#[test]
fn recursion_is_refused(rt: HostRuntime) {
    for (text, want) in [
        (
            "int main() { f(); } int f() { return 0; }",
            ("accepted", 0, 0),
        ),
        ("int main() { main(); }", ("recursion", 1, 5)),
        ("int main() { } int f() { f(); }", ("recursion", 1, 20)),
        (
            "int main() { f(); } int g() { f(); } int f() { g(); }",
            ("recursion", 1, 25),
        ),
        (
            "int main() { pthread_t t; pthread_create(&t, 0, f, 0); } int f() { pthread_t t; pthread_create(&t, 0, f, 0); }",
            ("recursion", 1, 62),
        ),
        (
            "int f() { g(); } int g() { f(); } int main() { h(); } int h() { h(); }",
            ("recursion", 1, 5),
        ),
        (
            "int f() { g(); } int main() { f(); g(); } int g() { g(); }",
            ("recursion", 1, 47),
        ),
    ] {
        assert_eq!(rt; told(rt.alloc(), 1, text), want, "at {text}");
    }
}

#[test]
fn limits_are_kept(rt: HostRuntime) {
    for (bound, text, want) in [
        (1, "int a[32]; int main() { return 0; }", ("accepted", 0, 0)),
        (1, "int a[33]; int main() { return 0; }", ("cells", 0, 33)),
        (
            1,
            "int a[4294967295u]; int main() { return 0; }",
            ("cells", 0, 4294967295),
        ),
        (
            1,
            "int a0[32]; int a1[32]; int a2[32]; int a3[32]; int a4[32]; int a5[32]; int a6[32]; int a7[32]; int a8[32]; int a9[32]; int a10[32]; int a11[32]; int a12[32]; int a13[32]; int a14[32]; int a15[32]; int a16[32]; int a17[32]; int a18[32]; int a19[32]; int a20[32]; int a21[32]; int a22[32]; int a23[32]; int a24[32]; int a25[32]; int a26[32]; int a27[32]; int a28[32]; int a29[32]; int a30[32]; int a31[32]; int x; int main() { return 0; }",
            ("globals", 0, 1025),
        ),
        (
            63,
            "pthread_t t; int main() { while (1) pthread_create(&t, 0, f, 0); } int f() { return 0; }",
            ("accepted", 0, 0),
        ),
        (
            64,
            "pthread_t t; int main() { while (1) pthread_create(&t, 0, f, 0); } int f() { return 0; }",
            ("creates", 0, 64),
        ),
        (
            31,
            "int main() { pthread_t t; while (1) pthread_create(&t, 0, f, 0); } int f() { pthread_t t; pthread_create(&t, 0, g, 0); } int g() { return 0; }",
            ("accepted", 0, 0),
        ),
        (
            32,
            "int main() { pthread_t t; while (1) pthread_create(&t, 0, f, 0); } int f() { pthread_t t; pthread_create(&t, 0, g, 0); } int g() { return 0; }",
            ("threads", 0, 65),
        ),
        (
            1,
            "int main() { pthread_t t; pthread_create(&t, 0, f1, 0); } int f1() { pthread_t t; pthread_create(&t, 0, f2, 0); } int f2() { pthread_t t; pthread_create(&t, 0, f3, 0); } int f3() { pthread_t t; pthread_create(&t, 0, f4, 0); } int f4() { return 0; }",
            ("accepted", 0, 0),
        ),
        (
            1,
            "int main() { pthread_t t; pthread_create(&t, 0, f1, 0); } int f1() { pthread_t t; pthread_create(&t, 0, f2, 0); } int f2() { pthread_t t; pthread_create(&t, 0, f3, 0); } int f3() { pthread_t t; pthread_create(&t, 0, f4, 0); } int f4() { pthread_t t; pthread_create(&t, 0, f5, 0); } int f5() { return 0; }",
            ("depth", 0, 5),
        ),
        (
            32,
            "int x; int main() { while (1) while (1) x; }",
            ("accepted", 0, 0),
        ),
        (
            32,
            "int x; int main() { while (1) while (1) x; x; }",
            ("accesses", 0, 1025),
        ),
        (
            32,
            "int x; int main() { while (1) while (1) x += 1; }",
            ("accesses", 0, 2048),
        ),
        (
            32,
            "int x; int main() { while (x) while (1) x; }",
            ("accesses", 0, 1057),
        ),
        (
            32,
            "int x; int main() { do while (1) x; while (x); }",
            ("accesses", 0, 1056),
        ),
        (
            32,
            "int a[32]; int main() { while (1) while (1) a[0]; }",
            ("accesses", 0, 32768),
        ),
        (
            32,
            "pthread_mutex_t m; int main() { while (1) while (1) pthread_mutex_lock(&m); }",
            ("accesses", 0, 2048),
        ),
        (
            32,
            "pthread_mutex_t m; int main() { while (1) while (1) pthread_mutex_unlock(&m); while (1) pthread_mutex_destroy(&m); }",
            ("accepted", 0, 0),
        ),
        (
            32,
            "int main() { while (1) while (1) 1 * 1; }",
            ("weight", 0, 33857),
        ),
        (
            32,
            "int x; int main() { while (1) while (1) if (1) x; else x; }",
            ("accesses", 0, 2048),
        ),
        (
            32,
            "int x; int main() { while (1) while (1) f(); } void f() { x; x; }",
            ("accesses", 0, 2048),
        ),
        (
            32,
            "int main() { while (1) while (1) ~~~~~~~~~~~~~~~~~~~~~~~~~~~~~~1; while (1) ~~~~~~~~~~~~~~~~~~~~~~~~~~~~1; ~~~~~~~~~~~~~~~~~~~~~~~~~~~~~~1; }",
            ("accepted", 0, 0),
        ),
        (
            32,
            "int main() { while (1) while (1) ~~~~~~~~~~~~~~~~~~~~~~~~~~~~~~1; while (1) ~~~~~~~~~~~~~~~~~~~~~~~~~~~~1; ~~~~~~~~~~~~~~~~~~~~~~~~~~~~~~~1; }",
            ("weight", 0, 32769),
        ),
        (
            64,
            "int x; int main() { while (1) while (1) while (1) while (1) while (1) while (1) while (1) while (1) while (1) while (1) x; }",
            ("accesses", 0, 4294967295),
        ),
    ] {
        assert_eq!(rt; told(rt.alloc(), bound, text), want, "at {text}");
    }
}
