// What stands at the top of a program, and the header of a function.
ghost use Rattle.std.specs.Prelude.{◌≡◌, Some, None, [], IfOk, reverse};
ghost use Rattle.c_expr.specs.Words.{word_of};
ghost use Rattle.c_stmt.specs.Machine as machine;

use crate::declarations::type_begins;
use crate::state::{Frame, Head, Params, Position, Read, Site, Stepped};
use c_expr::{Keyword, TypeName, Word, first_word, grown, may_grow, word_of};
use c_tree::{Function, Item, Param, TypeWord};
use dg_base::{Bytes, List};
use std::alloc::{AllocError, Global};
use token_list::Token;

/// A token between items.
pub(crate) fn top(word: Word, read: &Read) -> Stepped
    ensures { machine.StepGives result read.now (machine.top word read.now.items (reverse read.now.stack)) }
{
    match word {
        Word::Keyword(Keyword::Static) => Stepped::Go(Position::Static),
        Word::Type(name) => type_begins(Site::Item, name, read),
        _ => Stepped::Stop,
    }
}

/// A token behind `static`.
pub(crate) fn behind_static(word: Word, read: &Read) -> Stepped
    ensures { machine.StepGives result read.now (machine.behind_static word read.now.items (reverse read.now.stack)) }
{
    match word {
        Word::Type(name) => type_begins(Site::Item, name, read),
        _ => Stepped::Stop,
    }
}

// A first word of a parameter's type.
fn first_parameter(word: Word, params: List<Param>) -> Params
    ensures { result ≡ machine.first_parameter word params }
{
    match word {
        Word::Type(name) => Params::Typed(params, first_word(name), may_grow(name)),
        _ => Params::Never,
    }
}

// A word behind words of a parameter's type.
fn typed_parameter(
    alloc: Global,
    token: &Token,
    mut params: List<Param>,
    kind: TypeWord,
    more: bool,
) -> Result<Params, AllocError>
    ensures { IfOk result (λ r. r ≡ machine.typed_parameter (word_of token.now) token.now params kind more) }
{
    let word = word_of(token);
    if matches!(word, Word::Name) {
        params.push(Param {
            place: token.place,
            word: kind,
            name: Bytes::from_slice(alloc, token.text.as_slice())?,
        })?;
        return Ok(Params::Whole(params));
    }
    match grown(word, kind) {
        Some(kind) if more => Ok(Params::Typed(params, kind, false)),
        _ => Ok(Params::Never),
    }
}

// The parameters with one token more, which is no bracket.
fn parameter(alloc: Global, token: &Token, params: Params) -> Result<Params, AllocError>
    ensures { IfOk result (λ r. r ≡ machine.parameter (word_of token.now) token.now params) }
{
    match params {
        Params::Nothing => Ok(first_parameter(word_of(token), List::new(alloc))),
        Params::Typed(params, kind, more) => typed_parameter(alloc, token, params, kind, more),
        Params::Whole(params) => match word_of(token) {
            Word::Comma => Ok(Params::Next(params)),
            _ => Ok(Params::Never),
        },
        Params::Next(params) => Ok(first_parameter(word_of(token), params)),
        Params::Never => Ok(Params::Never),
    }
}

// No parameters where the list is empty and the type is `void` alone.
fn void_alone(params: List<Param>, kind: TypeWord, more: bool) -> Option<List<Param>>
    ensures { result ≡ machine.void_alone params kind more }
{
    if params.is_empty() {
        match kind {
            TypeWord::Void => { if more { Some(params) } else { None } }
            TypeWord::Int => None,
            TypeWord::Uint => None,
            TypeWord::VoidPointer => None,
            TypeWord::Thread => None,
            TypeWord::Mutex => None,
            TypeWord::Cond => None,
        }
    } else {
        None
    }
}

// The parameters of a header that ends here; `void` alone is none.
fn parameters(alloc: Global, params: Params) -> Option<List<Param>>
    ensures { result ≡ machine.parameters params }
{
    match params {
        Params::Nothing => Some(List::new(alloc)),
        Params::Typed(params, kind, more) => void_alone(params, kind, more),
        Params::Whole(params) => Some(params),
        Params::Next(_) => None,
        Params::Never => None,
    }
}

/// A token in a header. A number of brackets that a u64 cannot hold is want of memory.
pub(crate) fn heading(
    alloc: Global,
    token: &Token,
    head: Head,
    depth: u64,
    params: Params,
    read: &Read,
) -> Result<Stepped, AllocError>
    ensures { IfOk result (λ r. machine.StepGives r read.now (machine.heading (word_of token.now) token.now head depth params read.now.items (reverse read.now.stack))) }
{
    match word_of(token) {
        Word::Left => match depth.checked_add(1) {
            Some(depth) => Ok(Stepped::Go(Position::Heading(head, depth, Params::Never))),
            None => Err(AllocError),
        },
        Word::Right if depth == 0 => {
            Ok(Stepped::Go(Position::Headed(head, parameters(alloc, params))))
        }
        Word::Right => Ok(Stepped::Go(Position::Heading(head, depth - 1, params))),
        Word::Semicolon | Word::LeftBrace | Word::RightBrace => Ok(Stepped::Stop),
        _ => {
            let params = parameter(alloc, token, params)?;
            Ok(Stepped::Go(Position::Heading(head, depth, params)))
        }
    }
}

// The `{` of a function.
fn function_begins(
    alloc: Global,
    head: Head,
    params: Option<List<Param>>,
    read: &mut Read,
) -> Result<Stepped, AllocError>
    ensures { IfOk result (λ r. machine.StepGives r read.new (machine.function_begins head params read.old.items (reverse read.old.stack))) }
{
    let Some(params) = params else {
        return Ok(Stepped::Stop);
    };
    read.stack.push(Frame::InFunction(Function {
        place: head.place,
        word: head.word,
        name: head.name,
        params,
        body: List::new(alloc),
    }))?;
    Ok(Stepped::Go(Position::Begin))
}

/// A token behind a header.
pub(crate) fn headed(
    alloc: Global,
    word: Word,
    head: Head,
    params: Option<List<Param>>,
    read: &mut Read,
) -> Result<Stepped, AllocError>
    ensures { IfOk result (λ r. machine.StepGives r read.new (machine.headed word head params read.old.items (reverse read.old.stack))) }
{
    match word {
        Word::LeftBrace => function_begins(alloc, head, params, read),
        Word::Semicolon => {
            read.items.push(Item::Prototype {
                place: head.place,
                word: head.word,
                name: head.name,
            })?;
            Ok(Stepped::Go(Position::Top))
        }
        _ => Ok(Stepped::Stop),
    }
}
