// Atomic sections.
ghost use Rattle.std.specs.Prelude.{◌≡◌, map, false};
ghost use Rattle.std.specs.Str.{bytes_eq};
ghost use Rattle.c_rules.specs.Names as names;
ghost use Rattle.c_rules.specs.Scopes as scopes;
ghost use Rattle.c_check.specs.Sections as sections;

use c_rules::{earlier, unless};
use c_tree::{Declarator, Expr, Function, Initialiser, Item, Program, Start, Stmt};
use dg_base::Place;

/// Where a statement stands: in no section, in one, or in a loop of one.
#[derive(Clone, Copy, Drop)]
pub enum Inside {
    /// In no section.
    Outside,
    /// In a section.
    InSection,
    /// In a loop that stands in a section.
    InItsLoop,
}

/// Whether a statement is a begin or an end, at the call's place.
#[derive(Clone, Copy, Drop)]
pub enum Mark {
    /// `__VERIFIER_atomic_begin();`
    Begins(Place),
    /// `__VERIFIER_atomic_end();`
    Ends(Place),
    /// Another statement.
    Neither,
}

fn is_outside(inside: Inside) -> bool
    ensures { result ≡ sections.is_outside inside }
{
    match inside {
        Inside::Outside => true,
        Inside::InSection => false,
        Inside::InItsLoop => false,
    }
}

fn may_jump(inside: Inside) -> bool
    ensures { result ≡ sections.may_jump inside }
{
    match inside {
        Inside::Outside => true,
        Inside::InSection => false,
        Inside::InItsLoop => true,
    }
}

fn in_a_loop(inside: Inside) -> Inside
    ensures { result ≡ sections.in_a_loop inside }
{
    match inside {
        Inside::Outside => Inside::Outside,
        Inside::InSection => Inside::InItsLoop,
        Inside::InItsLoop => Inside::InItsLoop,
    }
}

fn within(opened: bool, inside: Inside) -> Inside
    ensures { result ≡ sections.within opened inside }
{
    if opened { Inside::InSection } else { inside }
}

fn is_begin(name: &[u8]) -> bool
    ensures { result ≡ bytes_eq sections.begin_name name.now }
{
    b"__VERIFIER_atomic_begin".as_slice() == name
}

fn is_end(name: &[u8]) -> bool
    ensures { result ≡ bytes_eq sections.end_name name.now }
{
    b"__VERIFIER_atomic_end".as_slice() == name
}

fn call_mark(place: Place, name: &[u8]) -> Mark
    ensures { result ≡ sections.call_mark place name.now }
{
    if is_begin(name) {
        Mark::Begins(place)
    } else if is_end(name) {
        Mark::Ends(place)
    } else {
        Mark::Neither
    }
}

fn is_marked(mark: Mark) -> bool
    ensures { result ≡ sections.is_marked mark }
{
    match mark {
        Mark::Begins(_) => true,
        Mark::Ends(_) => true,
        Mark::Neither => false,
    }
}

fn behind_mark(opened: bool, mark: Mark) -> bool
    ensures { result ≡ sections.behind_mark opened mark }
{
    match mark {
        Mark::Begins(_) => true,
        Mark::Ends(_) => false,
        Mark::Neither => opened,
    }
}

fn mark_of(expr: &Expr) -> Mark
    ensures { result ≡ sections.mark_of expr.now }
{
    match expr {
        Expr::Call { place, name, .. } => call_mark(*place, name.as_slice()),
        _ => Mark::Neither,
    }
}

fn broken_call(place: Place, name: &[u8]) -> Option<Place>
    ensures { result ≡ sections.broken_call place name.now }
{
    let begins = is_begin(name);
    let ends = is_end(name);
    unless(!(begins || ends), place)
}

// The first begin or end in an expression.
#[cycle(first_mark)]
fn first_mark(expr: &Expr) -> Option<Place>
    ensures { result ≡ sections.first_mark expr.now }
{
    match expr {
        Expr::Name { .. } => None,
        Expr::Number { .. } => None,
        Expr::Text { .. } => None,
        Expr::Call { place, name, args } => earlier(
            broken_call(*place, name.as_slice()),
            first_mark_of(args.as_slice()),
        ),
        Expr::Bracket { inner, .. }
        | Expr::Index { index: inner, .. }
        | Expr::Cast { inner, .. }
        | Expr::Unary { inner, .. }
        | Expr::StepBefore { target: inner, .. }
        | Expr::StepAfter { target: inner, .. }
        | Expr::Address { target: inner, .. } => first_mark(inner.get()),
        Expr::Binary { left, right, .. }
        | Expr::Comma { left, right, .. }
        | Expr::Assign {
            target: left,
            value: right,
            ..
        } => earlier(first_mark(left.get()), first_mark(right.get())),
        Expr::Choose { test, yes, no, .. } => earlier(
            first_mark(test.get()),
            earlier(first_mark(yes.get()), first_mark(no.get())),
        ),
    }
}

#[cycle(first_mark)]
fn first_mark_of(exprs: &[Expr]) -> Option<Place>
    ensures { result ≡ scopes.first_of (map sections.first_mark exprs.now) }
{
    let mut found = None;
    for expr in exprs {
        found = earlier(found, first_mark(expr));
    }
    found
}

fn mark_in_option(expr: &Option<Expr>) -> Option<Place>
    ensures { result ≡ sections.mark_in_option expr.now }
{
    match expr {
        None => None,
        Some(expr) => first_mark(expr),
    }
}

fn mark_in_start(start: &Option<Initialiser>) -> Option<Place>
    ensures { result ≡ sections.mark_in_start start.now }
{
    match start {
        None => None,
        Some(Initialiser::One(value)) => first_mark(value),
        Some(Initialiser::Braces(values)) => first_mark_of(values.as_slice()),
    }
}

fn mark_in_declarators(declarators: &[Declarator]) -> Option<Place>
    ensures { result ≡ sections.mark_in_declarators declarators.now }
{
    let mut found = None;
    for declarator in declarators {
        found = earlier(found, mark_in_declarator(declarator));
    }
    found
}

fn mark_in_declarator(declarator: &Declarator) -> Option<Place>
    ensures { result ≡ sections.mark_in_declarator declarator.now }
{
    earlier(
        mark_in_option(&declarator.size),
        mark_in_start(&declarator.initialiser),
    )
}

fn mark_in_for(start: &Start) -> Option<Place>
    ensures { result ≡ sections.mark_in_for start.now }
{
    match start {
        Start::Nothing => None,
        Start::Expr(expr) => first_mark(expr),
        Start::Declare(decl) => mark_in_declarators(decl.declarators.as_slice()),
    }
}

fn stmt_mark(stmt: &Stmt) -> Mark
    ensures { result ≡ (sections.sectioned stmt.now).mark }
{
    match stmt {
        Stmt::Expr { expr, .. } => mark_of(expr),
        _ => Mark::Neither,
    }
}

fn some_marked(body: &[Stmt]) -> bool
    ensures { result ≡ sections.some_marked (map sections.sectioned body.now) }
{
    for stmt in body {
        if is_marked(stmt_mark(stmt)) {
            return true;
        }
    }
    false
}

// What a statement breaks by where it stands, if it is no begin and no end of its block.
#[cycle(sections)]
fn broken_in(stmt: &Stmt, inside: Inside) -> Option<Place>
    ensures { result ≡ (sections.sectioned stmt.now).found inside }
{
    match stmt {
        Stmt::Empty { .. } => None,
        Stmt::Expr { expr, .. } => first_mark(expr),
        Stmt::Declare(decl) => mark_in_declarators(decl.declarators.as_slice()),
        Stmt::Block { body, .. } => broken_in_block(body.as_slice(), inside),
        Stmt::Label { body, .. } => broken_in(body.get(), inside),
        Stmt::If { test, yes, no, .. } => {
            let other = match no {
                None => None,
                Some(no) => broken_in(no.get(), inside),
            };
            earlier(
                first_mark(test),
                earlier(broken_in(yes.get(), inside), other),
            )
        }
        Stmt::While { test, body, .. } => earlier(
            first_mark(test),
            broken_in(body.get(), in_a_loop(inside)),
        ),
        Stmt::DoWhile { body, test, .. } => earlier(
            broken_in(body.get(), in_a_loop(inside)),
            first_mark(test),
        ),
        Stmt::For {
            start,
            test,
            step,
            body,
            ..
        } => earlier(
            mark_in_for(start),
            earlier(
                mark_in_option(test),
                earlier(
                    mark_in_option(step),
                    broken_in(body.get(), in_a_loop(inside)),
                ),
            ),
        ),
        Stmt::Return { place, value } => earlier(
            unless(is_outside(inside), *place),
            mark_in_option(value),
        ),
        Stmt::Break { place } => unless(may_jump(inside), *place),
        Stmt::Continue { place } => unless(may_jump(inside), *place),
    }
}

// What the statements of a block break.
#[cycle(sections)]
fn broken_in_block(body: &[Stmt], inside: Inside) -> Option<Place>
    ensures { result ≡ sections.in_block false inside (map sections.sectioned body.now) }
{
    let mut opened = false;
    let mut found = None;
    for (i, stmt) in body.iter().enumerate() {
        let mark = stmt_mark(stmt);
        let broken = match mark {
            Mark::Begins(place) => {
                let follows = some_marked(&body[i + 1..]);
                unless(is_outside(inside) && (!opened && follows), place)
            }
            Mark::Ends(place) => unless(is_outside(inside) && opened, place),
            Mark::Neither => broken_in(stmt, within(opened, inside)),
        };
        found = earlier(found, broken);
        opened = behind_mark(opened, mark);
    }
    found
}

fn unmatched_in(function: &Function) -> Option<Place>
    ensures { result ≡ sections.unmatched_in_function function.now }
{
    broken_in_block(function.body.as_slice(), Inside::Outside)
}

/// The first begin, end, `return`, `break` or `continue` that breaks the rule on sections.
pub fn first_unmatched(program: &Program) -> Option<Place>
    ensures { result ≡ sections.first_unmatched program.now }
{
    let mut found = None;
    for item in program.items.as_slice() {
        match item {
            Item::Function(function) => found = earlier(found, unmatched_in(function)),
            Item::Prototype { .. } => {}
            Item::Shared(_) => {}
        }
    }
    found
}
