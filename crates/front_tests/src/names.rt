// Names: `main`, names declared twice, names that are not known.
use crate::refusals::told;

#[test]
fn names_are_checked(rt: HostRuntime) {
    for (text, want) in [
        ("int x;", ("no main", 0, 0)),
        ("int main();", ("no main", 0, 0)),
        ("int x, x; int main() { return 0; }", ("duplicate", 1, 8)),
        ("int main() { x; return 0; }", ("unknown", 1, 14)),
        ("int x; int main() { x; return 0; }", ("accepted", 0, 0)),
        ("int main() { x; return 0; } int x;", ("unknown", 1, 14)),
        (
            "int main() { int x; { int x; x; } x; return 0; }",
            ("accepted", 0, 0),
        ),
        (
            "int main() { { int x; x; } x; return 0; }",
            ("unknown", 1, 28),
        ),
        (
            "int main() { for (int i = 0; i < 1; i++) ; return i; }",
            ("unknown", 1, 51),
        ),
        (
            "int main() { int x; int x; return 0; }",
            ("duplicate", 1, 25),
        ),
        ("int x; int main() { int x; return x; }", ("accepted", 0, 0)),
        ("int main() { int x = x; return 0; }", ("accepted", 0, 0)),
        ("int main() { int a[a]; return 0; }", ("unknown", 1, 20)),
        (
            "int main() { f(); return 0; } void f() { }",
            ("accepted", 0, 0),
        ),
        ("int main() { abort(); return 0; }", ("accepted", 0, 0)),
        ("int main() { g(); return 0; }", ("unknown", 1, 14)),
        ("int g(); int main() { g(); return 0; }", ("unknown", 1, 23)),
        (
            "int f() { return 0; } int f() { return 0; } int main() { return 0; }",
            ("duplicate", 1, 27),
        ),
        (
            "void abort() { } int main() { return 0; }",
            ("duplicate", 1, 6),
        ),
        (
            "void assert(int c) { if (!c) abort(); } int main() { assert(1); return 0; }",
            ("accepted", 0, 0),
        ),
        ("int main; int main() { return 0; }", ("duplicate", 1, 15)),
        (
            "int main() { return 0; } int x; int x() { return 0; }",
            ("duplicate", 1, 37),
        ),
        (
            "int f(int a, int a) { return 0; } int main() { return 0; }",
            ("duplicate", 1, 18),
        ),
        (
            "int f(int a) { int a; return 0; } int main() { return 0; }",
            ("duplicate", 1, 20),
        ),
        (
            "int f(int a) { { int a; } return 0; } int main() { return 0; }",
            ("accepted", 0, 0),
        ),
        (
            "int x = PTHREAD_MUTEX_INITIALIZER; int main() { return 0; }",
            ("unknown", 1, 9),
        ),
    ] {
        assert_eq!(rt; told(rt.alloc(), 1, text), want, "at {text}");
    }
}
