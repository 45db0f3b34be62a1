// Types, declarators and initialisers.
ghost use Rattle.std.specs.Prelude.{◌≡◌, Some, None, [], IfOk, reverse};
ghost use Rattle.c_expr.specs.Words.{word_of};
ghost use Rattle.c_stmt.specs.Machine as machine;

use crate::state::{Head, Params, Position, Read, Site, Stepped};
use crate::statements::{started, whole};
use c_expr::{ExprForm, TypeName, Word, first_word, grown, may_grow, word_of};
use c_tree::{AssignOp, Decl, Declarator, Expr, Initialiser, Item, Start, Stmt, TypeWord};
use dg_base::{Bytes, List, Place};
use sqlite_items::Boxed;
use std::alloc::{AllocError, Global};
use token_list::Token;

// The nodes above an expression of a declarator, the declarator among them.
fn above_declared(site: Site, read: &Read) -> usize
    ensures { result ≡ machine.above_declared site (reverse read.now.stack) }
{
    match site {
        Site::Item => 1,
        Site::Block => read.stack.as_slice().len() + 2,
        Site::For(_) => read.stack.as_slice().len() + 3,
    }
}

/// An expression below so many nodes, where these fit.
pub(crate) fn asks(read: &Read, form: ExprForm, above: usize, position: Position) -> Stepped
    ensures { machine.StepGives result read.now (machine.asks form above (machine.seen position read.now)) }
{
    if above <= 200 {
        Stepped::Ask(position, form, above as u32)
    } else {
        drop(position);
        Stepped::Stop
    }
}

/// A declaration begins, where a declarator fits.
pub(crate) fn type_begins(site: Site, name: TypeName, read: &Read) -> Stepped
    ensures { machine.StepGives result read.now (machine.type_begins site name read.now.items (reverse read.now.stack)) }
{
    if above_declared(site, read) <= 200 {
        Stepped::Go(Position::Typed(site, first_word(name), may_grow(name)))
    } else {
        Stepped::Stop
    }
}

/// A token behind words of a type.
pub(crate) fn typed(
    alloc: Global,
    token: &Token,
    site: Site,
    kind: TypeWord,
    more: bool,
    read: &Read,
) -> Result<Stepped, AllocError>
    ensures { IfOk result (λ r. machine.StepGives r read.now (machine.typed (word_of token.now) token.now site kind more read.now.items (reverse read.now.stack))) }
{
    let word = word_of(token);
    if matches!(word, Word::Name) {
        let name = Bytes::from_slice(alloc, token.text.as_slice())?;
        return Ok(Stepped::Go(Position::First(site, kind, token.place, name)));
    }
    match grown(word, kind) {
        Some(kind) if more => Ok(Stepped::Go(Position::Typed(site, kind, false))),
        _ => Ok(Stepped::Stop),
    }
}

// The declaration with one declarator more.
fn with_declarator(mut decl: Decl, declarator: Declarator) -> Result<Decl, AllocError>
    ensures { IfOk result (λ d. d ≡ machine.with_declarator decl declarator) }
{
    decl.declarators.push(declarator)?;
    Ok(decl)
}

// A declaration that is whole.
fn ended(alloc: Global, site: Site, decl: Decl, read: &mut Read) -> Result<Stepped, AllocError>
    ensures { IfOk result (λ r. machine.StepGives r read.new (machine.Go (machine.ended site decl read.old.items (reverse read.old.stack)))) }
{
    match site {
        Site::Item => {
            read.items.push(Item::Shared(decl))?;
            Ok(Stepped::Go(Position::Top))
        }
        Site::Block => whole(alloc, Stmt::Declare(decl)),
        Site::For(place) => started(alloc, place, Start::Declare(decl)),
    }
}

/// A token behind a declarator that is whole.
pub(crate) fn valued(
    alloc: Global,
    word: Word,
    site: Site,
    decl: Decl,
    declarator: Boxed<Declarator>,
    read: &mut Read,
) -> Result<Stepped, AllocError>
    ensures { IfOk result (λ r. machine.StepGives r read.new (machine.valued word site decl declarator read.old.items (reverse read.old.stack))) }
{
    let decl = with_declarator(decl, declarator.into_inner())?;
    match word {
        Word::Comma => Ok(Stepped::Go(Position::Next(site, decl))),
        Word::Semicolon => ended(alloc, site, decl, read),
        _ => Ok(Stepped::Stop),
    }
}

/// A token behind a declarator's size.
pub(crate) fn sized(
    alloc: Global,
    word: Word,
    site: Site,
    decl: Decl,
    declarator: Boxed<Declarator>,
    read: &mut Read,
) -> Result<Stepped, AllocError>
    ensures { IfOk result (λ r. machine.StepGives r read.new (machine.sized word site decl declarator read.old.items (reverse read.old.stack))) }
{
    match word {
        Word::Assign(AssignOp::Plain) => {
            Ok(Stepped::Go(Position::Value(site, decl, declarator)))
        }
        _ => valued(alloc, word, site, decl, declarator, read),
    }
}

// A declarator without an initialiser.
fn declarator_of(
    alloc: Global,
    place: Place,
    name: Bytes,
    size: Option<Expr>,
) -> Result<Boxed<Declarator>, AllocError>
    ensures { IfOk result (λ e. e ≡ machine.declarator_of place name size) }
{
    Boxed::new(
        alloc,
        Declarator {
            place,
            name,
            size,
            initialiser: None,
        },
    )
}

/// A token behind a declarator's name.
pub(crate) fn named(
    alloc: Global,
    word: Word,
    site: Site,
    decl: Decl,
    place: Place,
    name: Bytes,
    read: &mut Read,
) -> Result<Stepped, AllocError>
    ensures { IfOk result (λ r. machine.StepGives r read.new (machine.named word site decl place name read.old.items (reverse read.old.stack))) }
{
    match word {
        Word::LeftSquare => Ok(Stepped::Go(Position::Size(site, decl, place, name))),
        _ => {
            let declarator = declarator_of(alloc, place, name, None)?;
            sized(alloc, word, site, decl, declarator, read)
        }
    }
}

// The `(` behind a first name.
fn heads(site: Site, word: TypeWord, place: Place, name: Bytes, read: &Read) -> Stepped
    ensures { machine.StepGives result read.now (machine.heads site word place name read.now.items (reverse read.now.stack)) }
{
    match site {
        Site::Item => Stepped::Go(Position::Heading(
            Head { place, word, name },
            0,
            Params::Nothing,
        )),
        Site::Block | Site::For(_) => Stepped::Stop,
    }
}

/// A token behind a first name.
pub(crate) fn first(
    alloc: Global,
    word: Word,
    site: Site,
    kind: TypeWord,
    place: Place,
    name: Bytes,
    read: &mut Read,
) -> Result<Stepped, AllocError>
    ensures { IfOk result (λ r. machine.StepGives r read.new (machine.first word site kind place name read.old.items (reverse read.old.stack))) }
{
    match word {
        Word::Left => Ok(heads(site, kind, place, name, read)),
        _ => {
            let decl = Decl {
                word: kind,
                declarators: List::new(alloc),
            };
            named(alloc, word, site, decl, place, name, read)
        }
    }
}

/// A token behind a comma between declarators.
pub(crate) fn next(
    alloc: Global,
    token: &Token,
    site: Site,
    decl: Decl,
    read: &Read,
) -> Result<Stepped, AllocError>
    ensures { IfOk result (λ r. machine.StepGives r read.now (machine.next (word_of token.now) token.now site decl read.now.items (reverse read.now.stack))) }
{
    match word_of(token) {
        Word::Name => {
            let name = Bytes::from_slice(alloc, token.text.as_slice())?;
            Ok(Stepped::Go(Position::Named(site, decl, token.place, name)))
        }
        _ => Ok(Stepped::Stop),
    }
}

/// An array's size.
pub(crate) fn size(site: Site, decl: Decl, place: Place, name: Bytes, read: &Read) -> Stepped
    ensures { machine.StepGives result read.now (machine.asks ExprForm.Cond (machine.above_declared site (reverse read.now.stack)) (machine.seen (Position.Size site decl place name) read.now)) }
{
    let above = above_declared(site, read);
    asks(
        read,
        ExprForm::Cond,
        above,
        Position::Size(site, decl, place, name),
    )
}

/// A token behind the `=` of an initialiser.
pub(crate) fn value(
    alloc: Global,
    word: Word,
    site: Site,
    decl: Decl,
    declarator: Boxed<Declarator>,
    read: &Read,
) -> Stepped
    ensures { machine.StepGives result read.now (machine.value word site decl declarator read.now.items (reverse read.now.stack)) }
{
    match word {
        Word::LeftBrace => {
            Stepped::Go(Position::Values(site, decl, declarator, List::new(alloc)))
        }
        _ => asks(
            read,
            ExprForm::Assign,
            above_declared(site, read),
            Position::Value(site, decl, declarator),
        ),
    }
}

// The declarator with its initialiser.
fn with_initialiser(
    alloc: Global,
    declarator: Boxed<Declarator>,
    first: Initialiser,
) -> Result<Boxed<Declarator>, AllocError>
    ensures { IfOk result (λ e. e ≡ machine.with_initialiser declarator first) }
{
    let Declarator {
        place,
        name,
        size,
        initialiser,
    } = declarator.into_inner();
    drop(initialiser);
    Boxed::new(
        alloc,
        Declarator {
            place,
            name,
            size,
            initialiser: Some(first),
        },
    )
}

// A `}` between an initialiser's braces.
fn braces_end(
    alloc: Global,
    site: Site,
    decl: Decl,
    declarator: Boxed<Declarator>,
    values: List<Expr>,
    read: &Read,
) -> Result<Stepped, AllocError>
    ensures { IfOk result (λ r. machine.StepGives r read.now (machine.no_value values machine.Stop (machine.Go (machine.seen (Position.Valued site decl (machine.with_initialiser declarator (Initialiser.Braces values))) read.now)))) }
{
    if values.as_slice().is_empty() {
        return Ok(Stepped::Stop);
    }
    let declarator = with_initialiser(alloc, declarator, Initialiser::Braces(values))?;
    Ok(Stepped::Go(Position::Valued(site, decl, declarator)))
}

/// A token between an initialiser's braces.
pub(crate) fn values(
    alloc: Global,
    word: Word,
    site: Site,
    decl: Decl,
    declarator: Boxed<Declarator>,
    values: List<Expr>,
    read: &Read,
) -> Result<Stepped, AllocError>
    ensures { IfOk result (λ r. machine.StepGives r read.now (machine.values word site decl declarator values read.now.items (reverse read.now.stack))) }
{
    match word {
        Word::RightBrace => braces_end(alloc, site, decl, declarator, values, read),
        _ => Ok(asks(
            read,
            ExprForm::Assign,
            above_declared(site, read),
            Position::Values(site, decl, declarator, values),
        )),
    }
}

/// The token behind an array's size.
pub(crate) fn behind_size(
    alloc: Global,
    word: Word,
    site: Site,
    decl: Decl,
    place: Place,
    name: Bytes,
    size: Boxed<Expr>,
    read: &Read,
) -> Result<Stepped, AllocError>
    ensures { IfOk result (λ r. machine.StepGives r read.now (machine.behind_size word site decl place name size read.now.items (reverse read.now.stack))) }
{
    match word {
        Word::RightSquare => {
            let declarator = declarator_of(alloc, place, name, Some(size.into_inner()))?;
            Ok(Stepped::Go(Position::Sized(site, decl, declarator)))
        }
        _ => Ok(Stepped::Stop),
    }
}

/// The token behind an initialiser.
pub(crate) fn behind_value(
    alloc: Global,
    word: Word,
    site: Site,
    decl: Decl,
    declarator: Boxed<Declarator>,
    value: Boxed<Expr>,
    read: &mut Read,
) -> Result<Stepped, AllocError>
    ensures { IfOk result (λ r. machine.StepGives r read.new (machine.behind_value word site decl declarator value read.old.items (reverse read.old.stack))) }
{
    let declarator = with_initialiser(alloc, declarator, Initialiser::One(value.into_inner()))?;
    valued(alloc, word, site, decl, declarator, read)
}

/// The token behind a value between an initialiser's braces.
pub(crate) fn behind_values(
    alloc: Global,
    word: Word,
    site: Site,
    decl: Decl,
    declarator: Boxed<Declarator>,
    mut values: List<Expr>,
    value: Boxed<Expr>,
    read: &Read,
) -> Result<Stepped, AllocError>
    ensures { IfOk result (λ r. machine.StepGives r read.now (machine.behind_values word site decl declarator values value read.now.items (reverse read.now.stack))) }
{
    values.push(value.into_inner())?;
    match word {
        Word::Comma => Ok(Stepped::Go(Position::Values(site, decl, declarator, values))),
        Word::RightBrace => {
            let declarator = with_initialiser(alloc, declarator, Initialiser::Braces(values))?;
            Ok(Stepped::Go(Position::Valued(site, decl, declarator)))
        }
        _ => Ok(Stepped::Stop),
    }
}
