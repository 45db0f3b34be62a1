// The parser: one step for each token, or for an expression and the token behind it.
ghost use Rattle.std.specs.Prelude.{◌≡◌, ◌≤◌, ◌<◌, ◌-◌, Some, None, length, IfOk, IfErr, IfSome, IfNone};
ghost use Rattle.c_expr.specs.Parser.{Finds, form_level};
ghost use Rattle.c_expr.specs.Words.{word_of};
ghost use Rattle.c_stmt.specs.Machine as machine;
ghost use Rattle.c_stmt.specs.Programs.{HasCause, ReadsProgram};

use crate::blocks::behind;
use crate::declarations::{
    behind_size, behind_value, behind_values, first, named, next, size, sized, typed, value,
    valued, values,
};
use crate::items::{behind_static, headed, heading, top};
use crate::state::{Position, Read, Stepped};
use crate::statements::{
    begin, behind_expression, behind_part, behind_step, behind_test, for_start, for_step, for_test,
    left, returns, semicolon, test,
};
use c_expr::{ExprForm, expr, word_of};
use c_tree::{Expr, Program, Start, Stmt};
use dg_base::{List, Place, Refusal};
use sqlite_items::Boxed;
use std::alloc::{AllocError, Global};
use token_list::{Token, Tokens};

// One token of a declaration or of a header.
fn step_outside(
    alloc: Global,
    token: &Token,
    position: Position,
    read: &mut Read,
) -> Result<Stepped, AllocError>
    ensures { IfOk result (λ r. machine.StepGives r read.new (machine.step token.now (machine.seen position read.old))) }
{
    let word = word_of(token);
    match position {
        Position::Top => Ok(top(word, read)),
        Position::Static => Ok(behind_static(word, read)),
        Position::Typed(site, kind, more) => typed(alloc, token, site, kind, more, read),
        Position::First(site, kind, place, name) => {
            first(alloc, word, site, kind, place, name, read)
        }
        Position::Next(site, decl) => next(alloc, token, site, decl, read),
        Position::Named(site, decl, place, name) => {
            named(alloc, word, site, decl, place, name, read)
        }
        Position::Size(site, decl, place, name) => Ok(size(site, decl, place, name, read)),
        Position::Sized(site, decl, declarator) => {
            sized(alloc, word, site, decl, declarator, read)
        }
        Position::Value(site, decl, declarator) => {
            Ok(value(alloc, word, site, decl, declarator, read))
        }
        Position::Values(site, decl, declarator, list) => {
            values(alloc, word, site, decl, declarator, list, read)
        }
        Position::Valued(site, decl, declarator) => {
            valued(alloc, word, site, decl, declarator, read)
        }
        Position::Heading(head, depth, params) => heading(alloc, token, head, depth, params, read),
        Position::Headed(head, params) => headed(alloc, word, head, params, read),
        other => step_inside(alloc, token, other, read),
    }
}

// One token of a statement.
fn step_inside(
    alloc: Global,
    token: &Token,
    position: Position,
    read: &mut Read,
) -> Result<Stepped, AllocError>
    ensures { IfOk result (λ r. machine.StepGives r read.new (machine.inside (word_of token.now) token.now (machine.seen position read.old))) }
{
    let word = word_of(token);
    match position {
        Position::Begin => begin(alloc, token, read),
        Position::Whole(body) => behind(alloc, token, body, read),
        Position::BeforeTest(tested) => Ok(left(word, read, Position::Test(tested))),
        Position::Test(tested) => Ok(test(tested, read)),
        Position::Semicolon(body) => Ok(semicolon(word, read, body)),
        Position::BeforeStart(place) => Ok(left(word, read, Position::ForStart(place))),
        Position::ForStart(place) => for_start(alloc, word, place, read),
        Position::ForTest(place, start) => Ok(for_test(word, place, start, read)),
        Position::ForStep(place, start, test) => for_step(word, place, start, test, read),
        Position::Return(place) => returns(alloc, word, place, read),
        other => {
            drop(other);
            Ok(Stepped::Stop)
        }
    }
}

// The token behind an expression that was asked for, and that begins at the place.
fn shut(
    alloc: Global,
    token: &Token,
    place: Place,
    expr: Boxed<Expr>,
    position: Position,
    read: &mut Read,
) -> Result<Stepped, AllocError>
    ensures { IfOk result (λ r. machine.StepGives r read.new (machine.shut token.now place expr (machine.seen position read.old))) }
{
    let word = word_of(token);
    match position {
        Position::Size(site, decl, place, name) => {
            behind_size(alloc, word, site, decl, place, name, expr, read)
        }
        Position::Value(site, decl, declarator) => {
            behind_value(alloc, word, site, decl, declarator, expr, read)
        }
        Position::Values(site, decl, declarator, values) => {
            behind_values(alloc, word, site, decl, declarator, values, expr, read)
        }
        Position::Begin => behind_expression(alloc, word, place, expr, read),
        Position::Test(tested) => behind_test(alloc, word, tested, expr, read),
        Position::ForStart(place) => {
            let start = Boxed::new(alloc, Start::Expr(expr.into_inner()))?;
            Ok(behind_part(word, read, Position::ForTest(place, start)))
        }
        Position::ForTest(place, start) => Ok(behind_part(
            word,
            read,
            Position::ForStep(place, start, Some(expr)),
        )),
        Position::ForStep(place, start, test) => {
            behind_step(word, place, start, test, expr, read)
        }
        Position::Return(place) => {
            let value = Some(expr.into_inner());
            let body = Boxed::new(alloc, Stmt::Return { place, value })?;
            Ok(behind_part(word, read, Position::Whole(body)))
        }
        other => {
            drop(other);
            Ok(Stepped::Stop)
        }
    }
}

// The expression of the form that begins at token number `next`, below so many nodes, and the number of the token behind
// it.
fn expression(
    alloc: Global,
    tokens: &Tokens,
    next: usize,
    above: u32,
    form: ExprForm,
) -> Result<(Boxed<Expr>, usize), Refusal>
    requires inside { next ≤ length tokens.now.list }
    requires room { above ≤ 200 }
    ensures found { IfOk result (λ r. Finds (form_level form) (200 - above) tokens.now next r.0 r.1 × (r.1 < length tokens.now.list)) }
    ensures refused { IfErr result (λ e. machine.EndsBefore (form_level form) (200 - above) tokens.now next e) }
{
    let Ok(at) = u32::try_from(next) else {
        return Err(Refusal::OutOfMemory);
    };
    let (tree, behind) = match expr(alloc, tokens, at, above, form) {
        Ok(found) => found,
        Err(refusal) => return Err(refusal),
    };
    let Ok(tree) = Boxed::new(alloc, tree) else {
        return Err(Refusal::OutOfMemory);
    };
    if (behind as usize) < tokens.list.len() {
        Ok((tree, behind as usize))
    } else {
        Err(Refusal::Syntax(tokens.end))
    }
}

// The position, where the token is read.
fn gone(stepped: Stepped) -> Option<Position>
    ensures some { IfSome result (λ position. stepped ≡ Stepped.Go position) }
    ensures none { IfNone result ((position : Position) → stepped ≡ Stepped.Go position → ⊥) }
{
    match stepped {
        Stepped::Go(position) => Some(position),
        Stepped::Ask(position, _, _) => {
            drop(position);
            None
        }
        Stepped::Stop => None,
    }
}

// The program, where the tokens end between items.
fn finished(position: Position, read: Read, end: Place) -> Result<Program, Refusal>
    ensures found { IfOk result (λ program. machine.finish (machine.seen position read) ≡ Some program) }
    ensures refused { IfErr result (λ e. (e ≡ Refusal.Syntax end) × (machine.finish (machine.seen position read) ≡ None)) }
{
    match position {
        Position::Top => {
            drop(read.stack);
            Ok(Program { items: read.items })
        }
        other => {
            drop((other, read));
            Err(Refusal::Syntax(end))
        }
    }
}

/// Reads the program that the tokens are.
///
/// Refuses with `Syntax` exactly where the list is no program, at the first token behind the longest prefix with which
/// some program begins, or at the text's end; at most 200 nodes with children lie on one way down. The time is linear in
/// the tokens.
pub fn parse(alloc: Global, tokens: &Tokens) -> Result<Program, Refusal>
    ensures found { IfOk result (λ program. ReadsProgram tokens.now.list program) }
    ensures refused { IfErr result (λ e. HasCause tokens.now e) }
{
    let list = tokens.list.as_slice();
    let mut read = Read {
        items: List::new(alloc),
        stack: List::new(alloc),
    };
    let mut position = Position::Top;
    let mut next = 0;
    while next < list.len() {
        match step_outside(alloc, &list[next], position, &mut read) {
            Err(_) => return Err(Refusal::OutOfMemory),
            Ok(Stepped::Stop) => return Err(Refusal::Syntax(list[next].place)),
            Ok(Stepped::Go(more)) => {
                position = more;
                next += 1;
            }
            Ok(Stepped::Ask(asked, form, above)) => {
                let (tree, end) = match expression(alloc, tokens, next, above, form) {
                    Ok(found) => found,
                    Err(refusal) => {
                        drop(asked);
                        return Err(refusal);
                    }
                };
                match shut(alloc, &list[end], list[next].place, tree, asked, &mut read) {
                    Err(_) => return Err(Refusal::OutOfMemory),
                    Ok(stepped) => match gone(stepped) {
                        None => return Err(Refusal::Syntax(list[end].place)),
                        Some(more) => {
                            position = more;
                            next = end + 1;
                        }
                    },
                }
            }
        }
    }
    finished(position, read, tokens.end)
}
