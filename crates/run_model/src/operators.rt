// What operators and types mean, by the forms of the tree.
ghost use Rattle.std.specs.Prelude.{◌≡◌};
ghost use Rattle.dg_base.specs.Values as values;
ghost use Rattle.c_tree.specs.Operators as operators;

use c_tree::{BinaryOp, StepOp, TypeWord, UnaryOp};
use dg_base::Op;

/// 1 for a value that is true, 0 for 0.
pub(crate) fn truth(x: u32) -> u32
    ensures { result ≡ values.truth_of (values.is_true x) }
{
    if x == 0 { 0 } else { 1 }
}

/// Whether the left operand's value settles the operator's.
pub(crate) fn settles(op: BinaryOp, x: u32) -> bool
    ensures { result ≡ operators.settles op x }
{
    match op {
        BinaryOp::LogicAnd => x == 0,
        BinaryOp::LogicOr => x != 0,
        _ => false,
    }
}

/// The operator of `++` or `--`.
pub fn step_op(op: StepOp) -> BinaryOp
    ensures { result ≡ operators.step_op op }
{
    match op {
        StepOp::Increment => BinaryOp::Plus,
        StepOp::Decrement => BinaryOp::Minus,
    }
}

/// The operator on words of an operator before its operand.
pub fn unary_op(op: UnaryOp) -> Op
    ensures { result ≡ operators.unary_op op }
{
    match op {
        UnaryOp::LogicNot => Op::LogicNot,
        UnaryOp::BitNot => Op::BitNot,
        UnaryOp::Negate => Op::Negate,
        UnaryOp::Plus => Op::UnaryPlus,
    }
}

/// Whether the value of an operator before its operand is Uint, for an operand of this type.
pub fn unary_unsigned(op: UnaryOp, inner: bool) -> bool
    ensures { result ≡ operators.unary_unsigned op inner }
{
    match op {
        UnaryOp::LogicNot => false,
        UnaryOp::BitNot => inner,
        UnaryOp::Negate => inner,
        UnaryOp::Plus => inner,
    }
}

/// Whether a value of this type is Uint.
pub fn word_unsigned(word: TypeWord) -> bool
    ensures { result ≡ operators.word_unsigned word }
{
    match word {
        TypeWord::Int => false,
        TypeWord::Uint => true,
        TypeWord::Void => false,
        TypeWord::VoidPointer => true,
        TypeWord::Thread => true,
        TypeWord::Mutex => false,
        TypeWord::Cond => false,
    }
}
