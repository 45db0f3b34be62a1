// The stack of nodes that are not whole yet, the topmost last.
ghost use Rattle.std.specs.Prelude.{◌≡◌, ◌++◌, ◌∷◌, [], IfOk, reverse};
ghost use Rattle.c_expr.specs.Expressions as grammar;
ghost use Rattle.c_expr.specs.Machine as machine;
ghost use Rattle.c_expr.specs.Parser as spec;

use crate::frame::{Frame, Opening, Reading, Stepped};
use crate::tops::Call;
use c_tree::{BinaryOp, Expr};
use dg_base::{Bytes, List, Place};
use sqlite_items::Boxed;
use std::alloc::{AllocError, Global};

/// How tightly an operator binds.
pub(crate) fn tier(op: BinaryOp) -> u32
    ensures { result ≡ grammar.tier op }
{
    match op {
        BinaryOp::LogicOr => 3,
        BinaryOp::LogicAnd => 4,
        BinaryOp::BitOr => 5,
        BinaryOp::BitXor => 6,
        BinaryOp::BitAnd => 7,
        BinaryOp::Equal | BinaryOp::NotEqual => 8,
        BinaryOp::Less | BinaryOp::Greater | BinaryOp::AtMost | BinaryOp::AtLeast => 9,
        BinaryOp::ShiftLeft | BinaryOp::ShiftRight => 10,
        BinaryOp::Plus | BinaryOp::Minus => 11,
        BinaryOp::Times | BinaryOp::Divide | BinaryOp::Remainder => 12,
    }
}

/// Whether the expression may be assigned to.
#[tactic(auto, using(crate::proofs::Targets::lvalue_laws))]
pub(crate) fn is_lvalue(tree: &Expr) -> bool
    ensures { result ≡ grammar.is_lvalue tree.now }
{
    match tree {
        Expr::Name { .. } | Expr::Index { .. } => true,
        Expr::Bracket { inner, .. } => is_lvalue(inner.get()),
        Expr::Number { .. }
        | Expr::Text { .. }
        | Expr::Call { .. }
        | Expr::Cast { .. }
        | Expr::Unary { .. }
        | Expr::StepBefore { .. }
        | Expr::StepAfter { .. }
        | Expr::Binary { .. }
        | Expr::Choose { .. }
        | Expr::Assign { .. }
        | Expr::Comma { .. }
        | Expr::Address { .. } => false,
    }
}

// The node is whole before every operator of a lower level than this.
fn reach(frame: &Frame) -> u32
    ensures { result ≡ machine.reach frame.now }
{
    match frame {
        Frame::InBracket(_)
        | Frame::InTarget(_)
        | Frame::InIndex(_, _)
        | Frame::InCall(_, _, _)
        | Frame::AfterAddress(_)
        | Frame::AfterTest(_, _) => 0,
        Frame::AfterCast(_, _) | Frame::AfterSign(_, _) | Frame::AfterStep(_, _) => 14,
        Frame::AfterOperator(_, op, _) => tier(*op) + 1,
        Frame::AfterChoice(_, _, _) => 3,
        Frame::AfterAssign(_, _, _) => 2,
        Frame::AfterComma(_, _) => 1,
    }
}

// What a node still wants.
fn wanted_by(frame: &Frame) -> u32
    ensures { result ≡ machine.wanted_by frame.now }
{
    match frame {
        Frame::InBracket(_) | Frame::InIndex(_, _) | Frame::AfterTest(_, _) => 0,
        Frame::InCall(_, _, _) | Frame::AfterAssign(_, _, _) | Frame::AfterComma(_, _) => 1,
        Frame::AfterChoice(_, _, _) => 2,
        Frame::AfterOperator(_, op, _) => tier(*op) + 1,
        Frame::AfterCast(_, _) | Frame::AfterSign(_, _) => 13,
        Frame::InTarget(_) | Frame::AfterAddress(_) | Frame::AfterStep(_, _) => 14,
    }
}

/// What the topmost node still wants, where the whole text is of level `form`.
pub(crate) fn wants(form: u32, stack: &[Frame]) -> u32
    ensures { result ≡ machine.wants form (reverse stack.now) }
{
    match stack.last() {
        None => form,
        Some(frame) => wanted_by(frame),
    }
}

// The node with its last part, whose box is still to be made.
fn node(frame: Frame, tree: Boxed<Expr>) -> Result<Expr, AllocError>
    ensures { IfOk result (λ x. x ≡ machine.filled frame tree) }
{
    match frame {
        Frame::InBracket(place) | Frame::InTarget(place) => {
            Ok(Expr::Bracket { place, inner: tree })
        }
        Frame::InIndex(place, name) => Ok(Expr::Index {
            place,
            name,
            index: tree,
        }),
        Frame::InCall(place, name, args) => called(Call { place, name, args }, tree),
        Frame::AfterAddress(place) => Ok(Expr::Address {
            place,
            target: tree,
        }),
        Frame::AfterCast(place, word) => Ok(Expr::Cast {
            place,
            word,
            inner: tree,
        }),
        Frame::AfterSign(place, op) => Ok(Expr::Unary {
            place,
            op,
            inner: tree,
        }),
        Frame::AfterStep(place, op) => Ok(Expr::StepBefore {
            place,
            op,
            target: tree,
        }),
        Frame::AfterOperator(place, op, left) => Ok(Expr::Binary {
            place,
            op,
            left,
            right: tree,
        }),
        Frame::AfterTest(_, test) => Ok(test.into_inner()),
        Frame::AfterChoice(place, test, yes) => Ok(Expr::Choose {
            place,
            test,
            yes,
            no: tree,
        }),
        Frame::AfterAssign(place, op, target) => Ok(Expr::Assign {
            place,
            op,
            target,
            value: tree,
        }),
        Frame::AfterComma(place, left) => Ok(Expr::Comma {
            place,
            left,
            right: tree,
        }),
    }
}

/// The call with its last argument.
pub(crate) fn called(call: Call, last: Boxed<Expr>) -> Result<Expr, AllocError>
    ensures { IfOk result (λ x. x ≡ machine.filled (Frame.InCall call.place call.name call.args) last) }
{
    let Call {
        place,
        name,
        mut args,
    } = call;
    args.push(last.into_inner())?;
    Ok(Expr::Call { place, name, args })
}

/// The node with its last part.
pub(crate) fn filled(
    alloc: Global,
    frame: Frame,
    tree: Boxed<Expr>,
) -> Result<Boxed<Expr>, AllocError>
    ensures { IfOk result (λ x. x ≡ machine.filled frame tree) }
{
    Boxed::new(alloc, node(frame, tree)?)
}

/// Closes each node that is whole before an operator of this level.
pub(crate) fn close(
    alloc: Global,
    level: u32,
    tree: Boxed<Expr>,
    stack: &mut List<Frame>,
) -> Result<Boxed<Expr>, AllocError>
    ensures { IfOk result (λ x. record { tree = x; stack = reverse stack.new } ≡ machine.close level tree (reverse stack.old)) }
{
    let mut tree = tree;
    while let Some(frame) = stack.pop() {
        if level >= reach(&frame) {
            stack.push(frame)?;
            return Ok(tree);
        }
        tree = filled(alloc, frame, tree)?;
    }
    Ok(tree)
}

/// Whether a node with an expression below it fits on the stack.
pub(crate) fn has_room(room: u32, tree: &Expr, stack: &List<Frame>) -> bool
    ensures { result ≡ machine.has_room room (record { tree = tree.now; stack = reverse stack.now }) }
{
    (stack.len() as u64).saturating_add(u64::from(tree.level())) < u64::from(room)
}

/// The tree of what has been read, where it is a whole text.
pub(crate) fn finish(
    alloc: Global,
    reading: Reading,
    stack: &mut List<Frame>,
) -> Result<Option<Boxed<Expr>>, AllocError>
    ensures { IfOk result (λ done. done ≡ machine.finish (spec.seen reading stack.old)) }
{
    match reading {
        Reading::Operand | Reading::Texts(_) | Reading::Type(_, _, _) => Ok(None),
        Reading::Name(place, name) => finish_name(alloc, place, name, stack),
        Reading::Read(tree) => finish_tree(alloc, tree, stack),
    }
}

/// The tree of what has been read, where it is a whole text that ends in this name.
pub(crate) fn finish_name(
    alloc: Global,
    place: Place,
    name: Bytes,
    stack: &mut List<Frame>,
) -> Result<Option<Boxed<Expr>>, AllocError>
    ensures { IfOk result (λ done. done ≡ machine.finish (machine.Named place name (reverse stack.old))) }
{
    finish_tree(alloc, Boxed::new(alloc, Expr::Name { place, name })?, stack)
}

/// The tree, with all nodes that wait for it, where it is a whole text.
pub(crate) fn finish_tree(
    alloc: Global,
    tree: Boxed<Expr>,
    stack: &mut List<Frame>,
) -> Result<Option<Boxed<Expr>>, AllocError>
    ensures { IfOk result (λ done. done ≡ machine.finish (machine.Have tree (reverse stack.old))) }
{
    let tree = close(alloc, 0, tree, stack)?;
    if stack.is_empty() {
        Ok(Some(tree))
    } else {
        Ok(None)
    }
}

// The node, with its first part.
fn opened(opening: Opening, place: Place, tree: Boxed<Expr>) -> Frame
    ensures { result ≡ spec.opened opening place tree }
{
    match opening {
        Opening::Operator(op) => Frame::AfterOperator(place, op, tree),
        Opening::Test => Frame::AfterTest(place, tree),
        Opening::Assign(op) => Frame::AfterAssign(place, op, tree),
        Opening::Comma => Frame::AfterComma(place, tree),
    }
}

/// Puts a node on the stack, where there is room.
pub(crate) fn push(room: u32, stack: &mut List<Frame>, frame: Frame) -> Result<Stepped, AllocError>
    ensures { IfOk result (λ r. spec.StepGives r stack.new (machine.pushed room (reverse stack.old) frame) (machine.Want (reverse stack.old))) }
{
    if (stack.len() as u64) < u64::from(room) {
        stack.push(frame)?;
        Ok(Stepped::Go(Reading::Operand))
    } else {
        Ok(Stepped::Stop(None))
    }
}

/// Puts a node on the stack whose first part is this tree, where its level is wanted and there is room.
pub(crate) fn push_over(
    alloc: Global,
    form: u32,
    room: u32,
    level: u32,
    opening: Opening,
    place: Place,
    tree: Boxed<Expr>,
    stack: &mut List<Frame>,
) -> Result<Stepped, AllocError>
    ensures { IfOk result (λ r. spec.StepGives r stack.new (machine.over form room level (record { tree = tree; stack = reverse stack.old }) (spec.opened opening place)) (machine.Have tree (reverse stack.old))) }
{
    if wants(form, stack.as_slice()) <= level && has_room(room, tree.get(), stack) {
        stack.push(opened(opening, place, tree))?;
        Ok(Stepped::Go(Reading::Operand))
    } else {
        Ok(Stepped::Stop(finish_tree(alloc, tree, stack)?))
    }
}
