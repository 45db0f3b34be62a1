// Statements.
ghost use Rattle.std.specs.Prelude.{◌≡◌, ◌∷◌, [], Some, None, IfOk, IfSome, IfNone, reverse};
ghost use Rattle.c_expr.specs.Words.{word_of};
ghost use Rattle.c_stmt.specs.Machine as machine;

use crate::blocks::block_ends;
use crate::declarations::{asks, type_begins};
use crate::state::{Frame, Position, Read, Site, Stepped, Tested};
use c_expr::{ExprForm, Keyword, Word, word_of};
use c_tree::{Expr, Start, Stmt};
use dg_base::{Bytes, List, Place};
use sqlite_items::Boxed;
use std::alloc::{AllocError, Global};
use token_list::Token;

// The nodes above an expression of a statement, that statement among them.
fn above_part(read: &Read) -> usize
    ensures { result ≡ machine.above_part (reverse read.now.stack) }
{
    read.stack.as_slice().len() + 2
}

// An expression of a statement.
fn asks_part(read: &Read, position: Position) -> Stepped
    ensures { machine.StepGives result read.now (machine.asks_part read.now.items (reverse read.now.stack) position) }
{
    asks(read, ExprForm::Expr, above_part(read), position)
}

// Whether there is room for a statement that is a node.
fn has_room(read: &Read) -> bool
    ensures { result ≡ machine.has_room (reverse read.now.stack) }
{
    above_part(read) <= 200
}

// A statement that is a node, where there is room.
fn placed(read: &Read, position: Position) -> Stepped
    ensures { machine.StepGives result read.now (machine.placed read.now.items (reverse read.now.stack) position) }
{
    if has_room(read) {
        Stepped::Go(position)
    } else {
        drop(position);
        Stepped::Stop
    }
}

/// A statement that waits for another.
pub(crate) fn push(read: &mut Read, frame: Frame) -> Result<Stepped, AllocError>
    ensures { IfOk result (λ r. machine.StepGives r read.new (machine.Go (machine.At read.old.items (frame ∷ reverse read.old.stack) Position.Begin))) }
{
    read.stack.push(frame)?;
    Ok(Stepped::Go(Position::Begin))
}

/// A whole statement.
pub(crate) fn whole(alloc: Global, body: Stmt) -> Result<Stepped, AllocError>
    ensures { IfOk result (λ r. r ≡ Stepped.Go (Position.Whole body)) }
{
    Ok(Stepped::Go(Position::Whole(Boxed::new(alloc, body)?)))
}

// A statement that is whole but for its `;`.
fn to_semicolon(alloc: Global, body: Stmt) -> Result<Position, AllocError>
    ensures { IfOk result (λ p. p ≡ Position.Semicolon body) }
{
    Ok(Position::Semicolon(Boxed::new(alloc, body)?))
}

// The `do` of a loop, where there is room.
fn do_begins(place: Place, read: &mut Read) -> Result<Stepped, AllocError>
    ensures { IfOk result (λ r. machine.StepGives r read.new (machine.pushed read.old.items (reverse read.old.stack) (Frame.AfterDo place))) }
{
    if has_room(read) {
        push(read, Frame::AfterDo(place))
    } else {
        Ok(Stepped::Stop)
    }
}

// The `{` of a block, where there is room.
fn block_begins(alloc: Global, place: Place, read: &mut Read) -> Result<Stepped, AllocError>
    ensures { IfOk result (λ r. machine.StepGives r read.new (machine.pushed read.old.items (reverse read.old.stack) (Frame.InBlock place []))) }
{
    if has_room(read) {
        push(read, Frame::InBlock(place, List::new(alloc)))
    } else {
        Ok(Stepped::Stop)
    }
}

// Whether a declaration or a `}` may come.
fn in_block(read: &Read) -> bool
    ensures { result ≡ machine.in_block (reverse read.now.stack) }
{
    matches!(
        read.stack.as_slice().last(),
        Some(Frame::InFunction(_) | Frame::InBlock(_, _))
    )
}

// A word of statements where a statement may begin.
fn keyword(
    alloc: Global,
    keyword: Keyword,
    place: Place,
    read: &mut Read,
) -> Result<Stepped, AllocError>
    ensures { IfOk result (λ r. machine.StepGives r read.new (machine.keyword keyword place read.old.items (reverse read.old.stack))) }
{
    match keyword {
        Keyword::If => Ok(placed(read, Position::BeforeTest(Tested::If(place)))),
        Keyword::While => Ok(placed(read, Position::BeforeTest(Tested::While(place)))),
        Keyword::Do => do_begins(place, read),
        Keyword::For => Ok(placed(read, Position::BeforeStart(place))),
        Keyword::Return => Ok(placed(read, Position::Return(place))),
        Keyword::Break => Ok(placed(read, to_semicolon(alloc, Stmt::Break { place })?)),
        Keyword::Continue => Ok(placed(read, to_semicolon(alloc, Stmt::Continue { place })?)),
        Keyword::Static | Keyword::Else => Ok(Stepped::Stop),
    }
}

/// A token where a statement may begin.
pub(crate) fn begin(alloc: Global, token: &Token, read: &mut Read) -> Result<Stepped, AllocError>
    ensures { IfOk result (λ r. machine.StepGives r read.new (machine.begin (word_of token.now) token.now read.old.items (reverse read.old.stack))) }
{
    let place = token.place;
    match word_of(token) {
        Word::Semicolon => whole(alloc, Stmt::Empty { place }),
        Word::RightBrace => block_ends(alloc, read),
        Word::LeftBrace => block_begins(alloc, place, read),
        Word::Keyword(word) => keyword(alloc, word, place, read),
        Word::Type(name) if in_block(read) => Ok(type_begins(Site::Block, name, read)),
        Word::Type(_) => Ok(Stepped::Stop),
        _ => Ok(asks_part(read, Position::Begin)),
    }
}

/// Before a `(`.
pub(crate) fn left(word: Word, read: &Read, position: Position) -> Stepped
    ensures { machine.StepGives result read.now (machine.left word read.now.items (reverse read.now.stack) position) }
{
    match word {
        Word::Left => Stepped::Go(position),
        _ => {
            drop(position);
            Stepped::Stop
        }
    }
}

/// Before the `;` of a statement.
pub(crate) fn semicolon(word: Word, read: &Read, body: Boxed<Stmt>) -> Stepped
    ensures { machine.StepGives result read.now (machine.semicolon word read.now.items (reverse read.now.stack) body) }
{
    match word {
        Word::Semicolon => Stepped::Go(Position::Whole(body)),
        _ => Stepped::Stop,
    }
}

/// Behind the `(` of a test.
pub(crate) fn test(tested: Tested, read: &Read) -> Stepped
    ensures { machine.StepGives result read.now (machine.asks_part read.now.items (reverse read.now.stack) (Position.Test tested)) }
{
    asks_part(read, Position::Test(tested))
}

/// Behind the `(` of a `for`.
pub(crate) fn for_start(
    alloc: Global,
    word: Word,
    place: Place,
    read: &Read,
) -> Result<Stepped, AllocError>
    ensures { IfOk result (λ r. machine.StepGives r read.now (machine.for_start word place read.now.items (reverse read.now.stack))) }
{
    match word {
        Word::Semicolon => started(alloc, place, Start::Nothing),
        Word::Type(name) => Ok(type_begins(Site::For(place), name, read)),
        _ => Ok(asks_part(read, Position::ForStart(place))),
    }
}

/// The first part of a `for` is whole.
pub(crate) fn started(alloc: Global, place: Place, start: Start) -> Result<Stepped, AllocError>
    ensures { IfOk result (λ r. r ≡ Stepped.Go (Position.ForTest place start)) }
{
    Ok(Stepped::Go(Position::ForTest(place, Boxed::new(alloc, start)?)))
}

/// Behind the first part of a `for`.
pub(crate) fn for_test(word: Word, place: Place, start: Boxed<Start>, read: &Read) -> Stepped
    ensures { machine.StepGives result read.now (machine.for_test word place start read.now.items (reverse read.now.stack)) }
{
    match word {
        Word::Semicolon => Stepped::Go(Position::ForStep(place, start, None)),
        _ => asks_part(read, Position::ForTest(place, start)),
    }
}

/// Behind the second `;` of a `for`.
pub(crate) fn for_step(
    word: Word,
    place: Place,
    start: Boxed<Start>,
    test: Option<Boxed<Expr>>,
    read: &mut Read,
) -> Result<Stepped, AllocError>
    ensures { IfOk result (λ r. machine.StepGives r read.new (machine.for_step word place start test read.old.items (reverse read.old.stack))) }
{
    match word {
        Word::Right => { push(read, Frame::AfterFor(place, start, test, None)) }
        _ => Ok(asks_part(read, Position::ForStep(place, start, test))),
    }
}

/// Behind `return`.
pub(crate) fn returns(
    alloc: Global,
    word: Word,
    place: Place,
    read: &Read,
) -> Result<Stepped, AllocError>
    ensures { IfOk result (λ r. machine.StepGives r read.now (machine.returns word place read.now.items (reverse read.now.stack))) }
{
    match word {
        Word::Semicolon => whole(alloc, Stmt::Return { place, value: None }),
        _ => Ok(asks_part(read, Position::Return(place))),
    }
}

// The label that an expression before a `:` is, with its place.
#[tactic(auto, using(crate::proofs::Labels::label_laws))]
fn label_of(expr: Boxed<Expr>) -> Option<(Place, Bytes)>
    ensures some { IfSome result (λ l. machine.label_of expr ≡ Some (record { place = l.0; name = l.1 })) }
    ensures none { IfNone result (machine.label_of expr ≡ None) }
{
    match expr.into_inner() {
        Expr::Name { place, name } => Some((place, name)),
        other => {
            drop(other);
            None
        }
    }
}

// The `:` behind an expression statement's expression.
fn labelled(expr: Boxed<Expr>, read: &mut Read) -> Result<Stepped, AllocError>
    ensures { IfOk result (λ r. machine.StepGives r read.new (machine.labelled (machine.label_of expr) read.old.items (reverse read.old.stack))) }
{
    match label_of(expr) {
        None => Ok(Stepped::Stop),
        Some((place, name)) => push(read, Frame::AfterLabel(place, name)),
    }
}

/// The token behind an expression statement that begins at the place.
pub(crate) fn behind_expression(
    alloc: Global,
    word: Word,
    place: Place,
    expr: Boxed<Expr>,
    read: &mut Read,
) -> Result<Stepped, AllocError>
    ensures { IfOk result (λ r. machine.StepGives r read.new (machine.behind_expression word place expr read.old.items (reverse read.old.stack))) }
{
    match word {
        Word::Semicolon => {
            let expr = expr.into_inner();
            whole(alloc, Stmt::Expr { place, expr })
        }
        Word::Colon => labelled(expr, read),
        _ => Ok(Stepped::Stop),
    }
}

/// The token behind a test.
pub(crate) fn behind_test(
    alloc: Global,
    word: Word,
    tested: Tested,
    test: Boxed<Expr>,
    read: &mut Read,
) -> Result<Stepped, AllocError>
    ensures { IfOk result (λ r. machine.StepGives r read.new (machine.behind_test word tested test read.old.items (reverse read.old.stack))) }
{
    match word {
        Word::Right => tested_goes(alloc, tested, test, read),
        _ => Ok(Stepped::Stop),
    }
}

// The `)` behind a test.
fn tested_goes(
    alloc: Global,
    tested: Tested,
    test: Boxed<Expr>,
    read: &mut Read,
) -> Result<Stepped, AllocError>
    ensures { IfOk result (λ r. machine.StepGives r read.new (machine.tested_goes tested test read.old.items (reverse read.old.stack))) }
{
    match tested {
        Tested::If(place) => push(read, Frame::AfterIf(place, test)),
        Tested::While(place) => push(read, Frame::AfterWhile(place, test)),
        Tested::Do(place, body) => {
            let test = test.into_inner();
            let position = to_semicolon(alloc, Stmt::DoWhile { place, body, test })?;
            Ok(Stepped::Go(position))
        }
    }
}

/// The `;` behind a part of a statement.
pub(crate) fn behind_part(word: Word, read: &Read, position: Position) -> Stepped
    ensures { machine.StepGives result read.now (machine.behind_part word read.now.items (reverse read.now.stack) position) }
{
    match word {
        Word::Semicolon => Stepped::Go(position),
        _ => {
            drop(position);
            Stepped::Stop
        }
    }
}

/// The token behind the last part of a `for`'s header.
pub(crate) fn behind_step(
    word: Word,
    place: Place,
    start: Boxed<Start>,
    test: Option<Boxed<Expr>>,
    step: Boxed<Expr>,
    read: &mut Read,
) -> Result<Stepped, AllocError>
    ensures { IfOk result (λ r. machine.StepGives r read.new (machine.behind_step word place start test step read.old.items (reverse read.old.stack))) }
{
    match word {
        Word::Right => { push(read, Frame::AfterFor(place, start, test, Some(step))) }
        _ => Ok(Stepped::Stop),
    }
}
