// Statements that are whole, and those that wait for them.
ghost use Rattle.std.specs.Prelude.{◌≡◌, ◌++◌, ◌∷◌, [], true, IfOk, IfSome, IfNone, reverse};
ghost use Rattle.c_expr.specs.Words.{word_of};
ghost use Rattle.c_stmt.specs.Machine as machine;

use crate::state::{Frame, Position, Read, Stepped, Tested};
use crate::statements::{begin, push, whole};
use c_expr::{Keyword, Word, word_of};
use c_tree::{Expr, Function, Item, Start, Stmt};
use dg_base::{Bytes, List, Place};
use sqlite_items::Boxed;
use std::alloc::{AllocError, Global};
use token_list::Token;

// Whether a statement that waits for its last part is whole with it.
fn closes(other: bool, frame: &Frame) -> bool
    ensures { result ≡ machine.closes other frame.now }
{
    match frame {
        Frame::InFunction(_) | Frame::InBlock(_, _) | Frame::AfterDo(_) => false,
        Frame::AfterIf(_, _) => !other,
        Frame::AfterLabel(_, _)
        | Frame::AfterElse(_, _, _)
        | Frame::AfterWhile(_, _)
        | Frame::AfterFor(_, _, _, _) => true,
    }
}

// The expression, where there is one.
fn unboxed(expr: Option<Boxed<Expr>>) -> Option<Expr>
    ensures { result ≡ expr }
{
    match expr {
        None => None,
        Some(expr) => Some(expr.into_inner()),
    }
}

// The statement with its last part, whose box is still to be made.
fn node(frame: Frame, body: Boxed<Stmt>) -> Stmt
    ensures { result ≡ machine.filled frame body }
{
    match frame {
        Frame::InFunction(_) | Frame::InBlock(_, _) | Frame::AfterDo(_) => body.into_inner(),
        Frame::AfterLabel(place, name) => Stmt::Label { place, name, body },
        Frame::AfterIf(place, test) => Stmt::If {
            place,
            test: test.into_inner(),
            yes: body,
            no: None,
        },
        Frame::AfterElse(place, test, yes) => Stmt::If {
            place,
            test: test.into_inner(),
            yes,
            no: Some(body),
        },
        Frame::AfterWhile(place, test) => Stmt::While {
            place,
            test: test.into_inner(),
            body,
        },
        Frame::AfterFor(place, start, test, step) => Stmt::For {
            place,
            start: start.into_inner(),
            test: unboxed(test),
            step: unboxed(step),
            body,
        },
    }
}

// Takes the innermost statement that waits, where it is whole with its last part.
fn pop_whole(other: bool, stack: &mut List<Frame>) -> Option<Frame>
    ensures some { IfSome result (λ f. (reverse stack.old ≡ f ∷ reverse stack.new) × (machine.closes other f ≡ true)) }
    ensures none { IfNone result ((stack.new ≡ stack.old) × machine.StaysOpen other (reverse stack.old)) }
{
    match stack.as_slice().last() {
        Some(frame) if closes(other, frame) => stack.pop(),
        Some(_) | None => None,
    }
}

// Closes each statement that is whole; the flag says whether an `else` follows.
fn close(
    alloc: Global,
    other: bool,
    body: Boxed<Stmt>,
    stack: &mut List<Frame>,
) -> Result<Boxed<Stmt>, AllocError>
    ensures { IfOk result (λ y. record { tree = y; stack = reverse stack.new } ≡ machine.close other body (reverse stack.old)) }
{
    let mut body = body;
    while let Some(frame) = pop_whole(other, stack) {
        body = Boxed::new(alloc, node(frame, body))?;
    }
    Ok(body)
}

// A statement more in a function's outermost block.
fn grow_function(
    mut function: Function,
    body: Boxed<Stmt>,
    read: &mut Read,
) -> Result<(), AllocError>
    ensures { IfOk result (λ u. (read.new.items ≡ read.old.items) × (reverse read.new.stack ≡ Frame.InFunction (machine.with_statement function body) ∷ reverse read.old.stack)) }
{
    function.body.push(body.into_inner())?;
    read.stack.push(Frame::InFunction(function))
}

// A statement more in a block.
fn grow_block(
    place: Place,
    mut list: List<Stmt>,
    body: Boxed<Stmt>,
    read: &mut Read,
) -> Result<(), AllocError>
    ensures { IfOk result (λ u. (read.new.items ≡ read.old.items) × (reverse read.new.stack ≡ Frame.InBlock place (list ++ body ∷ []) ∷ reverse read.old.stack)) }
{
    list.push(body.into_inner())?;
    read.stack.push(Frame::InBlock(place, list))
}

// A token behind the first branch of an `if`.
fn behind_branch(
    word: Word,
    place: Place,
    test: Boxed<Expr>,
    yes: Boxed<Stmt>,
    read: &mut Read,
) -> Result<Stepped, AllocError>
    ensures { IfOk result (λ r. machine.StepGives r read.new (machine.behind_if word place test read.old.items yes (reverse read.old.stack))) }
{
    match word {
        Word::Keyword(Keyword::Else) => push(read, Frame::AfterElse(place, test, yes)),
        _ => Ok(Stepped::Stop),
    }
}

// A token behind a statement with which none that waits is whole.
fn behind_closed(
    alloc: Global,
    token: &Token,
    body: Boxed<Stmt>,
    read: &mut Read,
) -> Result<Stepped, AllocError>
    ensures { IfOk result (λ r. machine.StepGives r read.new (machine.behind_closed (word_of token.now) token.now read.old.items body (reverse read.old.stack))) }
{
    match read.stack.pop() {
        Some(Frame::InFunction(function)) => {
            grow_function(function, body, read)?;
            begin(alloc, token, read)
        }
        Some(Frame::InBlock(place, list)) => {
            grow_block(place, list, body, read)?;
            begin(alloc, token, read)
        }
        Some(Frame::AfterIf(place, test)) => {
            behind_branch(word_of(token), place, test, body, read)
        }
        Some(Frame::AfterDo(place)) => Ok(behind_do(word_of(token), place, body, read)),
        other => {
            drop(other);
            Ok(Stepped::Stop)
        }
    }
}

// A token behind the statement of a `do`.
fn behind_do(word: Word, place: Place, body: Boxed<Stmt>, read: &Read) -> Stepped
    ensures { machine.StepGives result read.now (machine.behind_do word place read.now.items body (reverse read.now.stack)) }
{
    match word {
        Word::Keyword(Keyword::While) => {
            Stepped::Go(Position::BeforeTest(Tested::Do(place, body)))
        }
        _ => Stepped::Stop,
    }
}

// Whether the word is `else`.
fn is_else(word: Word) -> bool
    ensures { result ≡ machine.is_else word }
{
    matches!(word, Word::Keyword(Keyword::Else))
}

/// A token behind a whole statement.
pub(crate) fn behind(
    alloc: Global,
    token: &Token,
    body: Boxed<Stmt>,
    read: &mut Read,
) -> Result<Stepped, AllocError>
    ensures { IfOk result (λ r. machine.StepGives r read.new (machine.behind (word_of token.now) token.now read.old.items body (reverse read.old.stack))) }
{
    let body = close(alloc, is_else(word_of(token)), body, &mut read.stack)?;
    behind_closed(alloc, token, body, read)
}

/// A `}` where a statement may begin.
pub(crate) fn block_ends(alloc: Global, read: &mut Read) -> Result<Stepped, AllocError>
    ensures { IfOk result (λ r. machine.StepGives r read.new (machine.block_ends read.old.items (reverse read.old.stack))) }
{
    match read.stack.pop() {
        Some(Frame::InFunction(function)) => {
            read.items.push(Item::Function(function))?;
            Ok(Stepped::Go(Position::Top))
        }
        Some(Frame::InBlock(place, body)) => whole(alloc, Stmt::Block { place, body }),
        other => {
            drop(other);
            Ok(Stepped::Stop)
        }
    }
}
