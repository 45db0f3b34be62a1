// How deep trees are: the nodes with children on the longest way down.
use c_stmt::parse;
use c_token::lexer::tokens;
use c_tree::{Item, Program};
use std::alloc::Global;

// The level of the first statement of the first function.
fn first_level(program: &Program) -> Option<u32> {
    match program.items.as_slice().first() {
        Some(Item::Function(function)) => function.body.as_slice().first().map(|stmt| stmt.level()),
        _ => None,
    }
}

// The level of the first statement of a body.
fn level(alloc: Global, body: &str) -> Option<u32> {
    let text = format!(in alloc; "void f() {{ {body} }}").ok()?;
    let tokens = tokens(alloc, text.as_bytes()).ok()?;
    match parse(alloc, &tokens) {
        Ok(program) => {
            let level = first_level(&program);
            drop(program);
            level
        }
        Err(_) => None,
    }
}

#[test]
fn levels_of_statements(rt: HostRuntime) {
    for (body, want) in [
        (";", 0),
        ("break;", 1),
        ("return;", 1),
        ("return (1);", 2),
        ("1;", 1),
        ("(1);", 2),
        ("-1;", 2),
        ("x++;", 2),
        ("(int) 1;", 2),
        ("a[(1)];", 3),
        ("f(&x);", 3),
        ("f(1, (2), ((3)));", 4),
        ("f(((1)), (2), 3);", 4),
        ("1 + (2);", 3),
        ("1 ? 2 : (3);", 3),
        ("1 ? (2) : 3;", 3),
        ("x = (1);", 3),
        ("1, (2);", 3),
        ("{ }", 1),
        ("{ ; 1; }", 2),
        ("l: ;", 1),
        ("int x;", 1),
        ("int x = (1);", 2),
        ("int a[(1)];", 2),
        ("int a[2] = { 1, (2) };", 2),
        ("if (1) ;", 1),
        ("if ((1)) ; else { 1; }", 3),
        ("while ((1)) ;", 2),
        ("do 1; while (1);", 2),
        ("for (;;) ;", 1),
        ("for (int i = (1); ;) ;", 3),
        ("for (; (1); ) ;", 2),
        ("for (;; (1)) ;", 2),
        ("for (;;) 1;", 2),
    ] {
        assert!(rt; level(rt.alloc(), body) == Some(want), "at {body}");
    }
}
