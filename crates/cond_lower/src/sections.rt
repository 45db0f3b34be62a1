// The sections on a condition variable.
ghost use Rattle.std.specs.Prelude.{◌≡◌, ◌++◌, ◌∷◌, [], Some, None, OnOk, IfOk};
ghost use Rattle.cond_lower.specs.Lowering as lowering;

use crate::names::{broadcast, enter, init, signal, take, tokens, waiting};
use c_tree::{
    AssignOp, BinaryOp, Decl, Declarator, Expr, Function, Initialiser, Item, Stmt, TypeWord,
};
use dg_base::{Bytes, List, Place};
use sqlite_items::Boxed;
use std::alloc::{AllocError, Global};

// ---- expressions

/// The number 0.
pub(crate) fn nought(place: Place) -> Expr
    ensures { result ≡ lowering.nought place }
{
    Expr::Number {
        place,
        value: 0,
        unsigned: false,
    }
}

fn one(place: Place) -> Expr
    ensures { result ≡ lowering.one place }
{
    Expr::Number {
        place,
        value: 1,
        unsigned: false,
    }
}

/// `name(args)`
pub(crate) fn call_of(place: Place, name: Bytes, args: List<Expr>) -> Expr
    ensures { result ≡ lowering.call_of place name args }
{
    Expr::Call { place, name, args }
}

fn variable(place: Place, name: Bytes) -> Expr
    ensures { result ≡ lowering.variable place name }
{
    Expr::Name { place, name }
}

fn held(alloc: Global, place: Place) -> Result<Expr, AllocError>
    ensures { IfOk result (λ x. x ≡ lowering.variable place lowering.held) }
{
    Ok(variable(place, Bytes::from_slice(alloc, b"v")?))
}

fn plus(alloc: Global, place: Place, left: Expr, right: Expr) -> Result<Expr, AllocError>
    ensures { IfOk result (λ x. x ≡ lowering.plus place left right) }
{
    Ok(Expr::Binary {
        place,
        op: BinaryOp::Plus,
        left: Boxed::new(alloc, left)?,
        right: Boxed::new(alloc, right)?,
    })
}

fn less_one(alloc: Global, place: Place) -> Result<Expr, AllocError>
    ensures { IfOk result (λ x. x ≡ lowering.less_one place) }
{
    Ok(Expr::Binary {
        place,
        op: BinaryOp::Minus,
        left: Boxed::new(alloc, held(alloc, place)?)?,
        right: Boxed::new(alloc, one(place))?,
    })
}

// ---- statements

// `name = value;`
fn set(alloc: Global, place: Place, name: Bytes, value: Expr) -> Result<Stmt, AllocError>
    ensures { IfOk result (λ s. s ≡ lowering.set place name value) }
{
    let expr = Expr::Assign {
        place,
        op: AssignOp::Plain,
        target: Boxed::new(alloc, variable(place, name))?,
        value: Boxed::new(alloc, value)?,
    };
    Ok(Stmt::Expr { place, expr })
}

// `unsigned v = name;`
fn hold(alloc: Global, place: Place, name: Bytes) -> Result<Stmt, AllocError>
    ensures { IfOk result (λ s. s ≡ lowering.hold place name) }
{
    let mut declarators = List::new(alloc);
    declarators.push(Declarator {
        place,
        name: Bytes::from_slice(alloc, b"v")?,
        size: None,
        initialiser: Some(Initialiser::One(variable(place, name))),
    })?;
    Ok(Stmt::Declare(Decl {
        word: TypeWord::Uint,
        declarators,
    }))
}

// `name = v - 1;`
fn set_less(alloc: Global, place: Place, name: Bytes) -> Result<Stmt, AllocError>
    ensures { IfOk result (λ s. s ≡ lowering.set_less place name) }
{
    set(alloc, place, name, less_one(alloc, place)?)
}

// `waiting = waiting + 1;`, and the same of tokens
fn one_more(alloc: Global, place: Place, name: &[u8]) -> Result<Stmt, AllocError>
    ensures { IfOk result (λ s. s ≡ lowering.one_more place name.now) }
{
    let old = variable(place, Bytes::from_slice(alloc, name)?);
    let new = plus(alloc, place, old, one(place))?;
    set(alloc, place, Bytes::from_slice(alloc, name)?, new)
}

// `__VERIFIER_assume(v);`
fn assume(alloc: Global, place: Place) -> Result<Stmt, AllocError>
    ensures { IfOk result (λ s. s ≡ lowering.assume place) }
{
    let mut args = List::new(alloc);
    args.push(held(alloc, place)?)?;
    let name = Bytes::from_slice(alloc, b"__VERIFIER_assume")?;
    Ok(Stmt::Expr {
        place,
        expr: call_of(place, name, args),
    })
}

// ---- functions

fn enter_body(alloc: Global, place: Place, cond: &[u8]) -> Result<List<Stmt>, AllocError>
    ensures { IfOk result (λ b. b ≡ lowering.enter_body place cond.now) }
{
    let name = waiting(alloc, cond)?;
    let mut body = List::new(alloc);
    body.push(one_more(alloc, place, name.as_slice())?)?;
    Ok(body)
}

fn take_body(alloc: Global, place: Place, cond: &[u8]) -> Result<List<Stmt>, AllocError>
    ensures { IfOk result (λ b. b ≡ lowering.take_body place cond.now) }
{
    let mut body = List::new(alloc);
    body.push(hold(alloc, place, tokens(alloc, cond)?)?)?;
    body.push(assume(alloc, place)?)?;
    body.push(set_less(alloc, place, tokens(alloc, cond)?)?)?;
    Ok(body)
}

// `{ waiting = v - 1; tokens = tokens + 1; }`
fn give_one(alloc: Global, place: Place, cond: &[u8]) -> Result<Stmt, AllocError>
    ensures { IfOk result (λ s. s ≡ lowering.give_one place cond.now) }
{
    let mut body = List::new(alloc);
    body.push(set_less(alloc, place, waiting(alloc, cond)?)?)?;
    let name = tokens(alloc, cond)?;
    body.push(one_more(alloc, place, name.as_slice())?)?;
    Ok(Stmt::Block { place, body })
}

fn signal_body(alloc: Global, place: Place, cond: &[u8]) -> Result<List<Stmt>, AllocError>
    ensures { IfOk result (λ b. b ≡ lowering.signal_body place cond.now) }
{
    let mut body = List::new(alloc);
    body.push(hold(alloc, place, waiting(alloc, cond)?)?)?;
    body.push(Stmt::If {
        place,
        test: held(alloc, place)?,
        yes: Boxed::new(alloc, give_one(alloc, place, cond)?)?,
        no: None,
    })?;
    Ok(body)
}

// `name = 0;`
fn none_of(alloc: Global, place: Place, name: Bytes) -> Result<Stmt, AllocError>
    ensures { IfOk result (λ s. s ≡ lowering.none_of place name) }
{
    set(alloc, place, name, nought(place))
}

// `tokens = tokens + v;`
fn give_all(alloc: Global, place: Place, name: &[u8]) -> Result<Stmt, AllocError>
    ensures { IfOk result (λ s. s ≡ lowering.give_all place name.now) }
{
    let old = variable(place, Bytes::from_slice(alloc, name)?);
    let new = plus(alloc, place, old, held(alloc, place)?)?;
    set(alloc, place, Bytes::from_slice(alloc, name)?, new)
}

fn broadcast_body(alloc: Global, place: Place, cond: &[u8]) -> Result<List<Stmt>, AllocError>
    ensures { IfOk result (λ b. b ≡ lowering.broadcast_body place cond.now) }
{
    let tokens = tokens(alloc, cond)?;
    let mut body = List::new(alloc);
    body.push(hold(alloc, place, waiting(alloc, cond)?)?)?;
    body.push(none_of(alloc, place, waiting(alloc, cond)?)?)?;
    body.push(give_all(alloc, place, tokens.as_slice())?)?;
    Ok(body)
}

fn init_body(alloc: Global, place: Place, cond: &[u8]) -> Result<List<Stmt>, AllocError>
    ensures { IfOk result (λ b. b ≡ lowering.init_body place cond.now) }
{
    let mut body = List::new(alloc);
    body.push(none_of(alloc, place, waiting(alloc, cond)?)?)?;
    body.push(none_of(alloc, place, tokens(alloc, cond)?)?)?;
    Ok(body)
}

fn added_function(alloc: Global, place: Place, name: Bytes, body: List<Stmt>) -> Item
    ensures { result ≡ lowering.added_function place name body }
{
    Item::Function(Function {
        place,
        word: TypeWord::Int,
        name,
        params: List::new(alloc),
        body,
    })
}

#[tactic(auto, unfolding(crate::specs::Lowering::enter_item))]
fn enter_item(alloc: Global, place: Place, cond: &[u8]) -> Result<Item, AllocError>
    ensures { IfOk result (λ x. x ≡ lowering.enter_item place cond.now) }
{
    let body = enter_body(alloc, place, cond)?;
    Ok(added_function(alloc, place, enter(alloc, cond)?, body))
}

#[tactic(auto, unfolding(crate::specs::Lowering::take_item))]
fn take_item(alloc: Global, place: Place, cond: &[u8]) -> Result<Item, AllocError>
    ensures { IfOk result (λ x. x ≡ lowering.take_item place cond.now) }
{
    let body = take_body(alloc, place, cond)?;
    Ok(added_function(alloc, place, take(alloc, cond)?, body))
}

#[tactic(auto, unfolding(crate::specs::Lowering::signal_item))]
fn signal_item(alloc: Global, place: Place, cond: &[u8]) -> Result<Item, AllocError>
    ensures { IfOk result (λ x. x ≡ lowering.signal_item place cond.now) }
{
    let body = signal_body(alloc, place, cond)?;
    Ok(added_function(alloc, place, signal(alloc, cond)?, body))
}

#[tactic(auto, unfolding(crate::specs::Lowering::broadcast_item))]
fn broadcast_item(alloc: Global, place: Place, cond: &[u8]) -> Result<Item, AllocError>
    ensures { IfOk result (λ x. x ≡ lowering.broadcast_item place cond.now) }
{
    let body = broadcast_body(alloc, place, cond)?;
    Ok(added_function(alloc, place, broadcast(alloc, cond)?, body))
}

#[tactic(auto, unfolding(crate::specs::Lowering::init_item))]
fn init_item(alloc: Global, place: Place, cond: &[u8]) -> Result<Item, AllocError>
    ensures { IfOk result (λ x. x ≡ lowering.init_item place cond.now) }
{
    let body = init_body(alloc, place, cond)?;
    Ok(added_function(alloc, place, init(alloc, cond)?, body))
}

fn push_wait_sections(
    alloc: Global,
    place: Place,
    cond: &[u8],
    items: &mut List<Item>,
) -> Result<(), AllocError>
    ensures { OnOk result (items.new ≡ items.old ++ lowering.wait_sections place cond.now) }
{
    items.push(enter_item(alloc, place, cond)?)?;
    items.push(take_item(alloc, place, cond)?)
}

fn push_wake_sections(
    alloc: Global,
    place: Place,
    cond: &[u8],
    items: &mut List<Item>,
) -> Result<(), AllocError>
    ensures { OnOk result (items.new ≡ items.old ++ lowering.wake_sections place cond.now) }
{
    items.push(signal_item(alloc, place, cond)?)?;
    items.push(broadcast_item(alloc, place, cond)?)?;
    items.push(init_item(alloc, place, cond)?)
}

/// Adds the sections on a condition variable whose declarator has this place.
#[tactic(auto, unfolding(crate::specs::Lowering::sections_on))]
pub(crate) fn push_sections(
    alloc: Global,
    place: Place,
    cond: &[u8],
    items: &mut List<Item>,
) -> Result<(), AllocError>
    ensures { OnOk result (items.new ≡ items.old ++ lowering.sections_on place cond.now) }
{
    push_wait_sections(alloc, place, cond, items)?;
    push_wake_sections(alloc, place, cond, items)
}
