// Expressions, from words to trees.
ghost use Rattle.std.specs.Prelude.{◌≤◌};

use crate::words::tokens;
use c_expr::{ExprForm, expr};
use c_tree::Expr;
use dg_base::Refusal;
use std::alloc::Global;

// The column of the root.
fn root(tree: &Expr) -> u32 {
    match tree {
        Expr::Name { place, .. }
        | Expr::Number { place, .. }
        | Expr::Text { place }
        | Expr::Bracket { place, .. }
        | Expr::Index { place, .. }
        | Expr::Call { place, .. }
        | Expr::Cast { place, .. }
        | Expr::Unary { place, .. }
        | Expr::StepBefore { place, .. }
        | Expr::StepAfter { place, .. }
        | Expr::Binary { place, .. }
        | Expr::Choose { place, .. }
        | Expr::Assign { place, .. }
        | Expr::Comma { place, .. }
        | Expr::Address { place, .. } => place.col,
    }
}

// The column of the root and the number of the token behind; or a hundred times the line, and the column, of a refusal.
fn told(alloc: Global, text: &str, above: u32, form: ExprForm) -> (u32, u32)
    requires { above ≤ 200 }
{
    let Ok(tokens) = tokens(alloc, &[(text, 1)]) else {
        return (98, 98);
    };
    match expr(alloc, &tokens, 0, above, form) {
        Ok((tree, next)) => (root(&tree), next),
        Err(Refusal::Syntax(place)) => (place.line.saturating_mul(100), place.col),
        Err(_) => (99, 99),
    }
}

#[test]
fn groups_and_ends(rt: HostRuntime) {
    for (text, want) in [
        ("a - b - c", (4, 5)),
        ("a - b * c", (2, 5)),
        ("a = b = c", (2, 5)),
        ("a , b , c", (4, 5)),
        ("a ? b : c ? d : e", (2, 9)),
        ("a + b = c", (2, 3)),
        ("( a ) = 1", (4, 5)),
        ("- a ++", (1, 3)),
        ("( int ) a ++", (1, 5)),
        ("( unsigned int ) a + b", (6, 7)),
        ("( void * ) 0 , x", (6, 7)),
        ("( int * ) a", (100, 3)),
        ("( int", (200, 1)),
        ("++ a ++", (1, 2)),
        ("++ ( ( a [ i ] ) )", (1, 9)),
        ("++ ( a + b )", (100, 4)),
        ("++ 1", (100, 2)),
        ("f ( )", (1, 3)),
        ("f ( & a , \"x\" \"y\" , b = 1 )", (1, 12)),
        ("f ( a , )", (100, 5)),
        ("f ( & a + b )", (100, 5)),
        ("f ( \"x\" + b )", (100, 4)),
        ("f ( & ( x ) ) + 1", (8, 9)),
        ("& a", (100, 1)),
        ("\"x\"", (100, 1)),
        ("a [ 1 , 2 ] += 3", (7, 8)),
        ("a [ 1 ] [ 2 ]", (1, 4)),
        ("a ( b ) ( c )", (1, 4)),
        ("( a ) ( b )", (1, 3)),
        ("a == b << 1 + 2 && c", (8, 9)),
        ("! a || ~ b", (3, 5)),
        ("a && = b", (100, 3)),
        ("a )", (1, 1)),
        ("a ? b ; c", (100, 4)),
        ("return", (100, 1)),
        ("a +", (200, 1)),
        ("0x1fu", (1, 1)),
    ] {
        assert_eq!(rt;
            told(rt.alloc(), text, 0, ExprForm::Expr),
            want,
            "at {text}"
        );
    }
}

#[test]
fn forms_and_depth(rt: HostRuntime) {
    let alloc = rt.alloc();
    assert_eq!(rt; told(alloc, "a , b", 0, ExprForm::Assign), (1, 1));
    assert_eq!(rt; told(alloc, "a = b", 0, ExprForm::Cond), (1, 1));
    assert_eq!(rt; told(alloc, "a ? b = c : d = e", 0, ExprForm::Cond), (2, 7));
    assert_eq!(rt; told(alloc, "a + b + c", 199, ExprForm::Expr), (2, 3));
    assert_eq!(rt; told(alloc, "( a ) + b", 199, ExprForm::Expr), (1, 3));
    assert_eq!(rt; told(alloc, "( a )", 200, ExprForm::Expr), (100, 1));
    assert_eq!(rt; told(alloc, "f ( )", 200, ExprForm::Expr), (1, 1));
    assert_eq!(rt; told(alloc, "a ++", 200, ExprForm::Expr), (1, 1));
    assert_eq!(rt; told(alloc, "f ( & a )", 199, ExprForm::Expr), (100, 3));
    assert_eq!(rt; told(alloc, "( int ) a", 199, ExprForm::Expr), (1, 4));
}
