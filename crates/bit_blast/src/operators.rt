// The word of each operator.
ghost use Rattle.std.specs.Prelude.{◌≡◌, ◌+◌, ◌/◌, ◌%◌, ◌^◌, List, IfOk, cond, nat_eq};
ghost use Rattle.dg_base.specs.declared.Lit.{Lit};
ghost use Rattle.dg_base.specs.Values.{Arithmetic, Bits, Division, Logic, OrderInt, OrderUint, Shift, group, shift_right_int};
ghost use Rattle.bit_gates.specs.Words.{number, IsWordOver, IsWordGate};
ghost use Rattle.bit_blast.specs.Blasting.{IsOperatorGate};

use crate::signed::{divide_int, remainder_int_word};
use crate::truths::{
    at_most_int_word, at_most_word, both_word, chosen_word, either_word, equal_word, less_int_word,
    less_word, not_equal_word, not_word,
};
use bit_gates::{
    BitKind, Word, add, bitwise, divide, inverted, multiply, negate, shift_left, shift_right,
    subtract,
};
use cnf_problem::Gates;
use dg_base::{Op, OutOfMemory};

// The operator's word of its arguments' words.
pub(crate) fn operator_word(
    gates: &mut Gates,
    op: Op,
    a: &Word,
    b: &Word,
    c: &Word,
) -> Result<Word, OutOfMemory>
    requires first { IsWordOver gates.old.vars a.now }
    requires second { IsWordOver gates.old.vars b.now }
    requires third { IsWordOver gates.old.vars c.now }
    ensures { IfOk result (IsOperatorGate gates.old gates.new op a.now b.now c.now) }
{
    match op {
        Op::Plus | Op::Minus | Op::Times | Op::Negate | Op::UnaryPlus => arithmetic(
            gates, op, a, b,
        ),
        Op::DivideInt | Op::DivideUint | Op::RemainderInt | Op::RemainderUint => division(
            gates, op, a, b,
        ),
        Op::ShiftLeft | Op::ShiftRightInt | Op::ShiftRightUint => shift(gates, op, a, b),
        Op::LessInt | Op::AtMostInt | Op::GreaterInt | Op::AtLeastInt => order_int(gates, op, a, b),
        Op::LessUint | Op::AtMostUint | Op::GreaterUint | Op::AtLeastUint => order_uint(
            gates, op, a, b,
        ),
        Op::Equal | Op::NotEqual | Op::BitAnd | Op::BitOr | Op::BitXor | Op::BitNot => bits(
            gates, op, a, b,
        ),
        Op::LogicNot | Op::LogicAnd | Op::LogicOr | Op::Choose => logic(gates, op, a, b, c),
    }
}

fn arithmetic(gates: &mut Gates, op: Op, a: &Word, b: &Word) -> Result<Word, OutOfMemory>
    requires kind { group op ≡ Arithmetic }
    requires first { IsWordOver gates.old.vars a.now }
    requires second { IsWordOver gates.old.vars b.now }
    ensures { IfOk result (λ w. (c : List Lit) → IsOperatorGate gates.old gates.new op a.now b.now c w) }
{
    match op {
        Op::Plus => sum(gates, a, b),
        Op::Minus => subtract(gates, a, b),
        Op::Times => multiply(gates, a, b),
        Op::Negate => negate(gates, a),
        _ => Ok(*a),
    }
}

fn division(gates: &mut Gates, op: Op, a: &Word, b: &Word) -> Result<Word, OutOfMemory>
    requires kind { group op ≡ Division }
    requires first { IsWordOver gates.old.vars a.now }
    requires second { IsWordOver gates.old.vars b.now }
    ensures { IfOk result (λ w. (c : List Lit) → IsOperatorGate gates.old gates.new op a.now b.now c w) }
{
    match op {
        Op::DivideInt => divide_int(gates, a, b),
        Op::DivideUint => divide_uint(gates, a, b),
        Op::RemainderInt => remainder_int_word(gates, a, b),
        _ => remainder_uint(gates, a, b),
    }
}

fn shift(gates: &mut Gates, op: Op, a: &Word, b: &Word) -> Result<Word, OutOfMemory>
    requires kind { group op ≡ Shift }
    requires first { IsWordOver gates.old.vars a.now }
    requires second { IsWordOver gates.old.vars b.now }
    ensures { IfOk result (λ w. (c : List Lit) → IsOperatorGate gates.old gates.new op a.now b.now c w) }
{
    match op {
        Op::ShiftLeft => shift_left(gates, a, b),
        Op::ShiftRightInt => shift_int(gates, a, b),
        _ => shift_uint(gates, a, b),
    }
}

fn order_int(gates: &mut Gates, op: Op, a: &Word, b: &Word) -> Result<Word, OutOfMemory>
    requires kind { group op ≡ OrderInt }
    requires first { IsWordOver gates.old.vars a.now }
    requires second { IsWordOver gates.old.vars b.now }
    ensures { IfOk result (λ w. (c : List Lit) → IsOperatorGate gates.old gates.new op a.now b.now c w) }
{
    match op {
        Op::LessInt => less_int_word(gates, a, b),
        Op::AtMostInt => at_most_int_word(gates, a, b),
        Op::GreaterInt => less_int_word(gates, b, a),
        _ => at_most_int_word(gates, b, a),
    }
}

fn order_uint(gates: &mut Gates, op: Op, a: &Word, b: &Word) -> Result<Word, OutOfMemory>
    requires kind { group op ≡ OrderUint }
    requires first { IsWordOver gates.old.vars a.now }
    requires second { IsWordOver gates.old.vars b.now }
    ensures { IfOk result (λ w. (c : List Lit) → IsOperatorGate gates.old gates.new op a.now b.now c w) }
{
    match op {
        Op::LessUint => less_word(gates, a, b),
        Op::AtMostUint => at_most_word(gates, a, b),
        Op::GreaterUint => less_word(gates, b, a),
        _ => at_most_word(gates, b, a),
    }
}

fn bits(gates: &mut Gates, op: Op, a: &Word, b: &Word) -> Result<Word, OutOfMemory>
    requires kind { group op ≡ Bits }
    requires first { IsWordOver gates.old.vars a.now }
    requires second { IsWordOver gates.old.vars b.now }
    ensures { IfOk result (λ w. (c : List Lit) → IsOperatorGate gates.old gates.new op a.now b.now c w) }
{
    match op {
        Op::Equal => equal_word(gates, a, b),
        Op::NotEqual => not_equal_word(gates, a, b),
        Op::BitAnd => bitwise(gates, BitKind::And, a, b),
        Op::BitOr => bitwise(gates, BitKind::Or, a, b),
        Op::BitXor => bitwise(gates, BitKind::Xor, a, b),
        _ => Ok(inverted(a)),
    }
}

fn logic(gates: &mut Gates, op: Op, a: &Word, b: &Word, c: &Word) -> Result<Word, OutOfMemory>
    requires kind { group op ≡ Logic }
    requires first { IsWordOver gates.old.vars a.now }
    requires second { IsWordOver gates.old.vars b.now }
    requires third { IsWordOver gates.old.vars c.now }
    ensures { IfOk result (IsOperatorGate gates.old gates.new op a.now b.now c.now) }
{
    match op {
        Op::LogicNot => not_word(gates, a),
        Op::LogicAnd => both_word(gates, a, b),
        Op::LogicOr => either_word(gates, a, b),
        _ => chosen_word(gates, a, b, c),
    }
}

// The sum of two words.
fn sum(gates: &mut Gates, a: &Word, b: &Word) -> Result<Word, OutOfMemory>
    requires first { IsWordOver gates.old.vars a.now }
    requires second { IsWordOver gates.old.vars b.now }
    ensures { IfOk result (λ w. IsWordGate gates.old gates.new w (λ s. (number s a.now + number s b.now) % 2 ^ 32)) }
{
    let carry = gates.constant(false);
    add(gates, a, b, carry)
}

// The quotient of two words, and 0 where the divisor is.
fn divide_uint(gates: &mut Gates, a: &Word, b: &Word) -> Result<Word, OutOfMemory>
    requires first { IsWordOver gates.old.vars a.now }
    requires second { IsWordOver gates.old.vars b.now }
    ensures { IfOk result (λ w. IsWordGate gates.old gates.new w (λ s. cond (nat_eq (number s b.now) 0) 0 (number s a.now / number s b.now))) }
{
    let parts = divide(gates, a, b)?;
    Ok(parts.quotient)
}

// The remainder of two words, and 0 where the divisor is.
fn remainder_uint(gates: &mut Gates, a: &Word, b: &Word) -> Result<Word, OutOfMemory>
    requires first { IsWordOver gates.old.vars a.now }
    requires second { IsWordOver gates.old.vars b.now }
    ensures { IfOk result (λ w. IsWordGate gates.old gates.new w (λ s. cond (nat_eq (number s b.now) 0) 0 (number s a.now % number s b.now))) }
{
    let parts = divide(gates, a, b)?;
    Ok(parts.remainder)
}

// The word moved down, with its sign bit in the places above.
fn shift_int(gates: &mut Gates, a: &Word, b: &Word) -> Result<Word, OutOfMemory>
    requires first { IsWordOver gates.old.vars a.now }
    requires second { IsWordOver gates.old.vars b.now }
    ensures { IfOk result (λ w. IsWordGate gates.old gates.new w (λ s. shift_right_int (number s a.now) (number s b.now))) }
{
    shift_right(gates, a, b, a[31])
}

// The word moved down, with 0 in the places above.
fn shift_uint(gates: &mut Gates, a: &Word, b: &Word) -> Result<Word, OutOfMemory>
    requires first { IsWordOver gates.old.vars a.now }
    requires second { IsWordOver gates.old.vars b.now }
    ensures { IfOk result (λ w. IsWordGate gates.old gates.new w (λ s. number s a.now / 2 ^ (number s b.now % 32))) }
{
    let fill = gates.constant(false);
    shift_right(gates, a, b, fill)
}
