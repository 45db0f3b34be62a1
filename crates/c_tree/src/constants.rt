// The constant that an expression is.
ghost use Rattle.std.specs.Prelude.{◌≡◌};
ghost use Rattle.c_tree.specs.Constants as constants;

use crate::operators::{binary_op, binary_unsigned, divides};
use crate::{BinaryOp, Expr, TypeWord, UnaryOp};
use dg_base::{Op, apply};

/// A constant's value, and whether its type is Uint.
#[derive(Clone, Copy, Drop)]
pub struct Constant {
    /// The value.
    pub value: u32,
    /// Whether its type is Uint.
    pub unsigned: bool,
}

// A cast keeps the bits.
fn cast(word: TypeWord, inner: Option<Constant>) -> Option<Constant>
    ensures { result ≡ constants.constant_cast word inner }
{
    let unsigned = match word {
        TypeWord::Void => return None,
        TypeWord::Mutex => return None,
        TypeWord::Cond => return None,
        TypeWord::Int => false,
        TypeWord::Uint => true,
        TypeWord::VoidPointer => true,
        TypeWord::Thread => true,
    };
    match inner {
        None => None,
        Some(constant) => Some(Constant {
            value: constant.value,
            unsigned,
        }),
    }
}

fn unary(op: UnaryOp, inner: Option<Constant>) -> Option<Constant>
    ensures { result ≡ constants.constant_unary op inner }
{
    match inner {
        None => None,
        Some(constant) => {
            let (op, unsigned) = match op {
                UnaryOp::LogicNot => (Op::LogicNot, false),
                UnaryOp::BitNot => (Op::BitNot, constant.unsigned),
                UnaryOp::Negate => (Op::Negate, constant.unsigned),
                UnaryOp::Plus => (Op::UnaryPlus, constant.unsigned),
            };
            Some(Constant {
                value: apply(op, &[constant.value]),
                unsigned,
            })
        }
    }
}

// An operator of two constants; a division by 0 is none.
fn binary(op: BinaryOp, left: Option<Constant>, right: Option<Constant>) -> Option<Constant>
    ensures { result ≡ constants.constant_binary op left right }
{
    match (left, right) {
        (Some(left), Some(right)) => {
            if divides(op) && right.value == 0 {
                return None;
            }
            Some(Constant {
                value: apply(
                    binary_op(op, left.unsigned, right.unsigned),
                    &[left.value, right.value],
                ),
                unsigned: binary_unsigned(op, left.unsigned, right.unsigned),
            })
        }
        (None, _) => None,
        (Some(_), None) => None,
    }
}

fn choose(test: Option<Constant>, yes: Option<Constant>, no: Option<Constant>) -> Option<Constant>
    ensures { result ≡ constants.constant_choose test yes no }
{
    match (test, yes, no) {
        (Some(test), Some(yes), Some(no)) => Some(Constant {
            value: apply(Op::Choose, &[test.value, yes.value, no.value]),
            unsigned: yes.unsigned || no.unsigned,
        }),
        (None, _, _) => None,
        (Some(_), None, _) => None,
        (Some(_), Some(_), None) => None,
    }
}

fn comma(left: Option<Constant>, right: Option<Constant>) -> Option<Constant>
    ensures { result ≡ constants.constant_comma left right }
{
    match left {
        None => None,
        Some(_) => right,
    }
}

/// The constant that an expression is, if it is one: numbers, operators, brackets and casts alone, and no division by 0.
pub fn constant_of(expr: &Expr) -> Option<Constant>
    ensures { result ≡ constants.constant_of expr.now }
{
    match expr {
        Expr::Number {
            value,
            unsigned,
            ..
        } => Some(Constant {
            value: *value,
            unsigned: *unsigned,
        }),
        Expr::Bracket { inner, .. } => constant_of(inner.get()),
        Expr::Cast { word, inner, .. } => cast(*word, constant_of(inner.get())),
        Expr::Unary { op, inner, .. } => unary(*op, constant_of(inner.get())),
        Expr::Binary {
            op,
            left,
            right,
            ..
        } => binary(*op, constant_of(left.get()), constant_of(right.get())),
        Expr::Choose { test, yes, no, .. } => choose(
            constant_of(test.get()),
            constant_of(yes.get()),
            constant_of(no.get()),
        ),
        Expr::Comma { left, right, .. } => comma(constant_of(left.get()), constant_of(right.get())),
        Expr::Name { .. } => None,
        Expr::Text { .. } => None,
        Expr::Index { .. } => None,
        Expr::Call { .. } => None,
        Expr::StepBefore { .. } => None,
        Expr::StepAfter { .. } => None,
        Expr::Assign { .. } => None,
        Expr::Address { .. } => None,
    }
}

/// The value of a constant, and 0 for what is none.
pub fn constant_value(expr: &Expr) -> u32
    ensures { result ≡ constants.constant_value expr.now }
{
    match constant_of(expr) {
        None => 0,
        Some(constant) => constant.value,
    }
}
