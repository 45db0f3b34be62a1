// Statements and programs, from words to trees.
use crate::words::tokens;
use c_stmt::parse;
use c_token::lexer;
use c_tree::{Item, Program, Stmt};
use dg_base::Refusal;
use std::alloc::Global;

// The number of items; or a hundred times the line, and the column, of a refusal.
fn told(alloc: Global, parts: &[(&str, u32)]) -> (u32, u32) {
    let Ok(tokens) = tokens(alloc, parts) else {
        return (98, 98);
    };
    match parse(alloc, &tokens) {
        Ok(program) => (0, program.items.len().min(1000) as u32),
        Err(Refusal::Syntax(place)) => (place.line.saturating_mul(100), place.col),
        Err(_) => (99, 99),
    }
}

#[test]
fn items_and_places(rt: HostRuntime) {
    for (text, want) in [
        ("", (0, 0)),
        ("int x ;", (0, 1)),
        (
            "static unsigned int x , y [ 3 ] = { 1 , 2 , } ; void * p = 0 ;",
            (0, 2),
        ),
        ("int x = { } ;", (100, 5)),
        ("int x [ 1 , 2 ] ;", (100, 5)),
        ("int x = 1 , 2 ;", (100, 6)),
        ("int x = { 1 , , } ;", (100, 7)),
        ("int main ( ) { return 0 ;", (200, 1)),
        ("int main ( ) { return 0 ; }", (0, 1)),
        ("int f ( int 3 ) {", (100, 7)),
        ("int f ( int 3 ) ;", (0, 1)),
        ("int f ( ( ) ( x [ 3 ) ) ;", (0, 1)),
        ("int f ( ( ) ) {", (100, 7)),
        ("int f ( int a , void * b ) { }", (0, 1)),
        (
            "int f ( void ) { } int g ( void v ) { } int h ( void , int x ) {",
            (100, 24),
        ),
        ("int f ( a ; b ) ;", (100, 5)),
        ("void f ( ) { x : y : ; }", (0, 1)),
        ("void f ( ) { ( x ) : ; }", (100, 9)),
        ("void f ( ) { if ( a ) if ( b ) ; else ; else ; }", (0, 1)),
        (
            "void f ( ) { if ( a ) if ( b ) ; else ; else ; else ; }",
            (100, 19),
        ),
        ("void f ( ) { do ; while ( a ) ; }", (0, 1)),
        ("void f ( ) { do ; while ( a ) }", (100, 12)),
        (
            "void f ( ) { for ( int i = 0 ; ; ) ; for ( ; a ; b ) { } for ( i = 0 ; ; ) break ; }",
            (0, 1),
        ),
        ("void f ( ) { for ( int i = 0 ; int", (100, 13)),
        ("void f ( ) { a + b = c ; }", (100, 9)),
        (
            "void f ( ) { ( a ) = 1 ; ( int ) a ++ ; a = b ? c : d ; int e ; continue ; }",
            (0, 1),
        ),
        ("void f ( ) { if ( a ) int b ; }", (100, 10)),
        ("void f ( ) { else", (100, 6)),
        (
            "void f ( ) { while ( a ) { while ( b ) c ( ) ; } } ;",
            (100, 21),
        ),
        ("int int", (100, 2)),
        (
            "signed int x ; unsigned y ; pthread_t t ; pthread_mutex_t m [ 2 ] ;",
            (0, 4),
        ),
        ("static static", (100, 2)),
        ("x", (100, 1)),
        ("int x", (200, 1)),
        ("int x = a b", (100, 5)),
        ("int x = a", (200, 1)),
        ("int x = a +", (200, 1)),
    ] {
        assert_eq!(rt; told(rt.alloc(), &[(text, 1)]), want, "at {text}");
    }
}

// So many nodes on one way down are read, and one more is refused at its first token, or at the operator's.
#[test]
fn at_most_200_nodes(rt: HostRuntime) {
    for (before, open, middle, close, after, fits, refused) in [
        ("void f ( ) {", "{", "", "}", "}", 198, 204),
        ("void f ( ) {", "if ( a )", ";", "", "}", 198, 798),
        ("void f ( ) {", "if ( a ) ; else", ";", "", "}", 198, 1194),
        ("void f ( ) {", "a :", ";", "", "}", 198, 402),
        ("void f ( ) {", "do", ";", "while ( a ) ;", "}", 198, 204),
        ("void f ( ) {", "(", "x", ")", "; }", 197, 203),
        ("void f ( ) { x = a", "+ a", "", "", "; }", 196, 401),
        ("int x =", "(", "1", ")", ";", 199, 203),
        ("int x = 1", "+ 1", "", "", ";", 199, 403),
    ] {
        let parts = [
            (before, 1),
            (open, fits),
            (middle, 1),
            (close, fits),
            (after, 1),
        ];
        assert_eq!(rt; told(rt.alloc(), &parts), (0, 1), "at {open}");
        let more = fits + 1;
        let parts = [
            (before, 1),
            (open, more),
            (middle, 1),
            (close, more),
            (after, 1),
        ];
        assert_eq!(rt; told(rt.alloc(), &parts), (100, refused), "at {open}");
    }
}

fn first_statement(program: &Program) -> Option<&Stmt> {
    match program.items.as_slice().first() {
        Some(Item::Function(function)) => function.body.as_slice().first(),
        _ => None,
    }
}

// A statement in the statement: the last of an `if`, the first of a block.
fn inner(stmt: &Stmt) -> Option<&Stmt> {
    match stmt {
        Stmt::Block { body, .. } => body.as_slice().first(),
        Stmt::Label { body, .. } => Some(body.get()),
        Stmt::While { body, .. } => Some(body.get()),
        Stmt::DoWhile { body, .. } => Some(body.get()),
        Stmt::For { body, .. } => Some(body.get()),
        Stmt::If { no: Some(no), .. } => Some(no.get()),
        Stmt::If { yes, .. } => Some(yes.get()),
        _ => None,
    }
}

// The form of a statement, and the column of its place.
fn form(stmt: &Stmt) -> (&'static str, u32) {
    match stmt {
        Stmt::Empty { place } => (";", place.col),
        Stmt::Expr { place, .. } => ("expression", place.col),
        Stmt::Declare(_) => ("declaration", 0),
        Stmt::Block { place, .. } => ("{", place.col),
        Stmt::Label { place, name, .. } => {
            if name.as_slice() == b"end".as_slice() {
                ("end :", place.col)
            } else {
                ("another :", place.col)
            }
        }
        Stmt::If {
            place,
            no: None,
            ..
        } => ("if", place.col),
        Stmt::If { place, .. } => ("if else", place.col),
        Stmt::While { place, .. } => ("while", place.col),
        Stmt::DoWhile { place, .. } => ("do", place.col),
        Stmt::For { place, .. } => ("for", place.col),
        Stmt::Return { place, .. } => ("return", place.col),
        Stmt::Break { place } => ("break", place.col),
        Stmt::Continue { place } => ("continue", place.col),
    }
}

// What stands so many statements deep in the first statement of the first function.
fn inside(alloc: Global, text: &str, depth: u32) -> (&'static str, u32) {
    let Ok(tokens) = tokens(alloc, &[(text, 1)]) else {
        return ("no memory", 98);
    };
    let Ok(program) = parse(alloc, &tokens) else {
        return ("refused", 99);
    };
    let mut stmt = first_statement(&program);
    for _ in 0..depth {
        stmt = stmt.and_then(inner);
    }
    match stmt {
        Some(stmt) => form(stmt),
        None => ("nothing", 0),
    }
}

#[test]
fn trees(rt: HostRuntime) {
    for (text, depth, want) in [
        (
            "void f ( ) { if ( a ) if ( b ) x ; else y ; }",
            0,
            ("if", 6),
        ),
        (
            "void f ( ) { if ( a ) if ( b ) x ; else y ; }",
            1,
            ("if else", 10),
        ),
        (
            "void f ( ) { if ( a ) if ( b ) x ; else y ; }",
            2,
            ("expression", 17),
        ),
        (
            "void f ( ) { if ( a ) { if ( b ) x ; } else y ; }",
            0,
            ("if else", 6),
        ),
        (
            "void f ( ) { if ( a ) while ( b ) if ( c ) x ; else y ; }",
            0,
            ("if", 6),
        ),
        (
            "void f ( ) { start : end : while ( a ) do x ; while ( b ) ; }",
            0,
            ("another :", 6),
        ),
        (
            "void f ( ) { start : end : while ( a ) do x ; while ( b ) ; }",
            1,
            ("end :", 8),
        ),
        (
            "void f ( ) { start : end : while ( a ) do x ; while ( b ) ; }",
            2,
            ("while", 10),
        ),
        (
            "void f ( ) { start : end : while ( a ) do x ; while ( b ) ; }",
            3,
            ("do", 14),
        ),
        (
            "void f ( ) { start : end : while ( a ) do x ; while ( b ) ; }",
            4,
            ("expression", 15),
        ),
        (
            "void f ( ) { for ( int i = 0 ; i < 3 ; i ++ ) { return a ; } }",
            0,
            ("for", 6),
        ),
        (
            "void f ( ) { for ( int i = 0 ; i < 3 ; i ++ ) { return a ; } }",
            2,
            ("return", 21),
        ),
        ("void f ( ) { int a ; }", 0, ("declaration", 0)),
        ("void f ( ) { a + b ; }", 0, ("expression", 6)),
        ("void f ( ) { ; }", 0, (";", 6)),
        ("void f ( ) { { break ; } }", 1, ("break", 7)),
        ("void f ( ) { { continue ; } }", 1, ("continue", 7)),
        ("void f ( ) ; void g ( ) { }", 0, ("nothing", 0)),
    ] {
        assert_eq!(rt; inside(rt.alloc(), text, depth), want, "at {text}");
    }
}

// A program in the style of those that verifiers of concurrent C are compared on.
fn two_writers() -> &'static str {
    "extern void abort(void);
#include <assert.h>
#include <pthread.h>
void reach_error() { assert(0); }
void __VERIFIER_assert(int cond) { if (!(cond)) { ERROR: {reach_error();abort();} } return; }

#define SIZE 8
int top = 0, stored[SIZE] = { 0, 1, };
static pthread_mutex_t m;

/* the next of some numbers */
unsigned int next(unsigned int last);
static unsigned int next(unsigned int last) {
  do {
    last = last * 5u + 1u; // wraps
  } while (last == 7u || last > 0x7fffffffu);
  return last;
}

void *writer(void *arg) {
  int i;
  for (i = 0; i < SIZE; i++) {
    pthread_mutex_lock(&m);
    if (top == SIZE) { pthread_mutex_unlock(&m); break; }
    else
      stored[top++] = (int)next(i) & 1 ? i : -i;
    pthread_mutex_unlock(&m);
  }
  return NULL;
}

int main(void) {
  pthread_t t1, t2;
  pthread_create(&t1, NULL, writer, NULL);
  pthread_create(&t2, 0, writer, 0);
  pthread_join(t1, 0);
  pthread_join(t2, 0);
  while (top > 0) { top--; if (!(stored[top] < SIZE)) continue; }
  __VERIFIER_assert(top == 0);
  return 0;
}
"
}

// The number of items, and the number of what stands directly in the last function.
fn read(alloc: Global, text: &str) -> (usize, usize) {
    let Ok(tokens) = lexer::tokens(alloc, text.as_bytes()) else {
        return (98, 98);
    };
    match parse(alloc, &tokens) {
        Ok(program) => match program.items.as_slice().last() {
            Some(Item::Function(function)) => (program.items.len(), function.body.len()),
            _ => (97, 97),
        },
        Err(_) => (99, 99),
    }
}

#[test]
fn a_whole_program(rt: HostRuntime) {
    assert_eq!(rt; read(rt.alloc(), two_writers()), (8, 8));
}
