// Taking a node from the top of the stack where it is of one kind.
ghost use Rattle.std.specs.Prelude.{◌≡◌, ◌∷◌, false, IfSome, IfNone, reverse};
ghost use Rattle.c_expr.specs.Machine as machine;

use crate::frame::Frame;
use c_tree::Expr;
use dg_base::{Bytes, List, Place};
use sqlite_items::Boxed;

/// A call that waits for an argument.
#[derive(Drop)]
pub(crate) struct Call {
    pub(crate) place: Place,
    pub(crate) name: Bytes,
    pub(crate) args: List<Expr>,
}

// Lets a node go.
fn discard(_frame: Option<Frame>) {}

/// Whether a call's argument is to come, or has come.
pub(crate) fn calls(stack: &[Frame]) -> bool
    ensures { result ≡ machine.calls (reverse stack.now) }
{
    matches!(stack.last(), Some(Frame::InCall(_, _, _)))
}

/// The place of an address on top of the stack, which is taken away.
pub(crate) fn pop_address(stack: &mut List<Frame>) -> Option<Place>
    ensures some { IfSome result (λ place. reverse stack.old ≡ Frame.AfterAddress place ∷ reverse stack.new) }
    ensures none { IfNone result ((stack.new ≡ stack.old) × (machine.addresses (reverse stack.old) ≡ false)) }
{
    let place = match stack.as_slice().last() {
        Some(Frame::AfterAddress(place)) => *place,
        _ => return None,
    };
    discard(stack.pop());
    Some(place)
}

/// The place of a bracket on top of the stack, which is taken away.
pub(crate) fn pop_bracket(stack: &mut List<Frame>) -> Option<Place>
    ensures some { IfSome result (λ place. reverse stack.old ≡ Frame.InBracket place ∷ reverse stack.new) }
    ensures none { IfNone result ((stack.new ≡ stack.old) × (machine.brackets (reverse stack.old) ≡ false)) }
{
    let place = match stack.as_slice().last() {
        Some(Frame::InBracket(place)) => *place,
        _ => return None,
    };
    discard(stack.pop());
    Some(place)
}

/// The place of a bracket round a target on top of the stack, which is taken away.
pub(crate) fn pop_target(stack: &mut List<Frame>) -> Option<Place>
    ensures some { IfSome result (λ place. reverse stack.old ≡ Frame.InTarget place ∷ reverse stack.new) }
    ensures none { IfNone result ((stack.new ≡ stack.old) × (machine.targets (reverse stack.old) ≡ false)) }
{
    let place = match stack.as_slice().last() {
        Some(Frame::InTarget(place)) => *place,
        _ => return None,
    };
    discard(stack.pop());
    Some(place)
}

/// The call on top of the stack, which is taken away; where another node stands there, the stack is lost.
pub(crate) fn pop_call(stack: &mut List<Frame>) -> Option<Call>
    ensures some { IfSome result (λ call. reverse stack.old ≡ Frame.InCall call.place call.name call.args ∷ reverse stack.new) }
    ensures none { IfNone result (machine.calls (reverse stack.old) ≡ false) }
{
    match stack.pop() {
        Some(Frame::InCall(place, name, args)) => Some(Call { place, name, args }),
        other => {
            discard(other);
            None
        }
    }
}

/// The place and the name of an array on top of the stack, which is taken away; where another node stands there, the stack
/// is lost.
pub(crate) fn pop_index(stack: &mut List<Frame>) -> Option<(Place, Bytes)>
    ensures some { IfSome result (λ r. reverse stack.old ≡ Frame.InIndex r.0 r.1 ∷ reverse stack.new) }
    ensures none { IfNone result (machine.indexes (reverse stack.old) ≡ false) }
{
    match stack.pop() {
        Some(Frame::InIndex(place, name)) => Some((place, name)),
        other => {
            discard(other);
            None
        }
    }
}

/// The place and the test of a choice on top of the stack, which is taken away; where another node stands there, the stack
/// is lost.
pub(crate) fn pop_test(stack: &mut List<Frame>) -> Option<(Place, Boxed<Expr>)>
    ensures some { IfSome result (λ r. reverse stack.old ≡ Frame.AfterTest r.0 r.1 ∷ reverse stack.new) }
    ensures none { IfNone result (machine.tests (reverse stack.old) ≡ false) }
{
    match stack.pop() {
        Some(Frame::AfterTest(place, test)) => Some((place, test)),
        other => {
            discard(other);
            None
        }
    }
}
