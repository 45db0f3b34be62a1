// What the operators of the language mean for operands of given types.
ghost use Rattle.std.specs.Prelude.{◌≡◌};
ghost use Rattle.c_tree.specs.Operators as operators;
ghost use Rattle.dg_base.specs.Values.{arity};

use crate::BinaryOp;
use dg_base::Op;

fn by_type(unsigned: bool, uint: Op, int: Op) -> Op
    ensures { result ≡ operators.by_type unsigned uint int }
{
    if unsigned { uint } else { int }
}

/// The operator for operands of these types, each told by whether it is Uint.
pub fn binary_op(op: BinaryOp, left: bool, right: bool) -> Op
    ensures is { result ≡ operators.binary_op op left right }
    ensures two { arity result ≡ 2 }
{
    match op {
        BinaryOp::LogicOr => Op::LogicOr,
        BinaryOp::LogicAnd => Op::LogicAnd,
        BinaryOp::BitOr => Op::BitOr,
        BinaryOp::BitXor => Op::BitXor,
        BinaryOp::BitAnd => Op::BitAnd,
        BinaryOp::Equal => Op::Equal,
        BinaryOp::NotEqual => Op::NotEqual,
        BinaryOp::Less => by_type(left || right, Op::LessUint, Op::LessInt),
        BinaryOp::Greater => by_type(left || right, Op::GreaterUint, Op::GreaterInt),
        BinaryOp::AtMost => by_type(left || right, Op::AtMostUint, Op::AtMostInt),
        BinaryOp::AtLeast => by_type(left || right, Op::AtLeastUint, Op::AtLeastInt),
        BinaryOp::ShiftLeft => Op::ShiftLeft,
        BinaryOp::ShiftRight => by_type(left, Op::ShiftRightUint, Op::ShiftRightInt),
        BinaryOp::Plus => Op::Plus,
        BinaryOp::Minus => Op::Minus,
        BinaryOp::Times => Op::Times,
        BinaryOp::Divide => by_type(left || right, Op::DivideUint, Op::DivideInt),
        BinaryOp::Remainder => by_type(left || right, Op::RemainderUint, Op::RemainderInt),
    }
}

/// Whether the value of an operator is Uint, for operands of these types.
pub fn binary_unsigned(op: BinaryOp, left: bool, right: bool) -> bool
    ensures { result ≡ operators.binary_unsigned op left right }
{
    match op {
        BinaryOp::LogicOr => false,
        BinaryOp::LogicAnd => false,
        BinaryOp::BitOr => left || right,
        BinaryOp::BitXor => left || right,
        BinaryOp::BitAnd => left || right,
        BinaryOp::Equal => false,
        BinaryOp::NotEqual => false,
        BinaryOp::Less => false,
        BinaryOp::Greater => false,
        BinaryOp::AtMost => false,
        BinaryOp::AtLeast => false,
        BinaryOp::ShiftLeft => left,
        BinaryOp::ShiftRight => left,
        BinaryOp::Plus => left || right,
        BinaryOp::Minus => left || right,
        BinaryOp::Times => left || right,
        BinaryOp::Divide => left || right,
        BinaryOp::Remainder => left || right,
    }
}

/// Whether the operator has no value where its right operand is 0.
pub fn divides(op: BinaryOp) -> bool
    ensures { result ≡ operators.divides op }
{
    match op {
        BinaryOp::Divide => true,
        BinaryOp::Remainder => true,
        _ => false,
    }
}
