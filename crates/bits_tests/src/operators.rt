// Each operator on pairs of words.
ghost use Rattle.std.specs.Prelude.{◌≡◌};
ghost use Rattle.dg_base.specs.Values.{arity};

use crate::valuation::Blasted;
use bv_term::Terms;
use dg_base::{Op, apply};
use std::alloc::Global;
use std::process::Abort;
use std::test::Fail;

const WORDS: [u32; 7] = [0, 1, 31, 32, 2147483647, 2147483648, 4294967295];

// The pairs of these words: the first ones and the second ones.
fn pairs(alloc: Global) -> Result<(Vec<u32>, Vec<u32>), Fail> {
    let mut first = Vec::new(alloc);
    let mut second = Vec::new(alloc);
    for a in WORDS {
        for b in WORDS {
            first.push(a)?;
            second.push(b)?;
        }
    }
    Ok((first, second))
}

// The operator of two inputs against its table, on each pair.
fn check_pairs(rt: &impl Abort, alloc: Global, op: Op) -> Result<(), Fail>
    requires { arity op ≡ 2 }
{
    let mut terms = Terms::new(alloc)?;
    let x = terms.input()?;
    let y = terms.input()?;
    let result = terms.make(op, &[x, y])?;
    let blasted = Blasted::new(alloc, &terms)?;
    let (first, second) = pairs(alloc)?;
    let values = blasted.values(alloc, &[first.as_slice(), second.as_slice()], result)?;
    assert_eq!(rt; values.len(), 49);
    for (value, (a, b)) in values.iter().zip(first.iter().zip(second.iter())) {
        assert_eq!(rt; *value, apply(op, &[*a, *b]), "{op:?} of {a} and {b}");
    }
    Ok(())
}

// The operator of one input against its table.
fn check_words(rt: &impl Abort, alloc: Global, op: Op) -> Result<(), Fail>
    requires { arity op ≡ 1 }
{
    let mut terms = Terms::new(alloc)?;
    let x = terms.input()?;
    let result = terms.make(op, &[x])?;
    let blasted = Blasted::new(alloc, &terms)?;
    let values = blasted.values(alloc, &[WORDS.as_slice()], result)?;
    assert_eq!(rt; values.len(), 7);
    for (value, a) in values.iter().zip(WORDS.iter()) {
        assert_eq!(rt; *value, apply(op, &[*a]), "{op:?} of {a}");
    }
    Ok(())
}

// The choice between two inputs by a third against its table, on each pair, with one word for the
// last input.
fn check_choice(rt: &impl Abort, alloc: Global, other: u32) -> Result<(), Fail> {
    let mut terms = Terms::new(alloc)?;
    let x = terms.input()?;
    let y = terms.input()?;
    let z = terms.input()?;
    let result = terms.make(Op::Choose, &[x, y, z])?;
    let blasted = Blasted::new(alloc, &terms)?;
    let (first, second) = pairs(alloc)?;
    let third = Vec::from_elem(alloc, other, 49)?;
    let inputs = [first.as_slice(), second.as_slice(), third.as_slice()];
    let values = blasted.values(alloc, &inputs, result)?;
    assert_eq!(rt; values.len(), 49);
    for (value, (a, b)) in values.iter().zip(first.iter().zip(second.iter())) {
        assert_eq!(rt;
            *value,
            apply(Op::Choose, &[*a, *b, other]),
            "choice of {a} and {b}"
        );
    }
    Ok(())
}

#[test]
fn choices(rt: HostRuntime) -> Result<(), Fail> {
    check_choice(&rt, rt.alloc(), 12345)
}

#[test]
fn single_words(rt: HostRuntime) -> Result<(), Fail> {
    check_words(&rt, rt.alloc(), Op::Negate)?;
    check_words(&rt, rt.alloc(), Op::UnaryPlus)?;
    check_words(&rt, rt.alloc(), Op::BitNot)?;
    check_words(&rt, rt.alloc(), Op::LogicNot)?;
    Ok(())
}

#[test]
fn sums(rt: HostRuntime) -> Result<(), Fail> {
    check_pairs(&rt, rt.alloc(), Op::Plus)?;
    check_pairs(&rt, rt.alloc(), Op::Minus)?;
    check_pairs(&rt, rt.alloc(), Op::Times)?;
    Ok(())
}

#[test]
fn divisions(rt: HostRuntime) -> Result<(), Fail> {
    check_pairs(&rt, rt.alloc(), Op::DivideInt)?;
    check_pairs(&rt, rt.alloc(), Op::DivideUint)?;
    check_pairs(&rt, rt.alloc(), Op::RemainderInt)?;
    check_pairs(&rt, rt.alloc(), Op::RemainderUint)?;
    Ok(())
}

#[test]
fn shifts(rt: HostRuntime) -> Result<(), Fail> {
    check_pairs(&rt, rt.alloc(), Op::ShiftLeft)?;
    check_pairs(&rt, rt.alloc(), Op::ShiftRightInt)?;
    check_pairs(&rt, rt.alloc(), Op::ShiftRightUint)?;
    Ok(())
}

#[test]
fn orders(rt: HostRuntime) -> Result<(), Fail> {
    check_pairs(&rt, rt.alloc(), Op::LessInt)?;
    check_pairs(&rt, rt.alloc(), Op::LessUint)?;
    check_pairs(&rt, rt.alloc(), Op::AtMostInt)?;
    check_pairs(&rt, rt.alloc(), Op::AtMostUint)?;
    check_pairs(&rt, rt.alloc(), Op::GreaterInt)?;
    check_pairs(&rt, rt.alloc(), Op::GreaterUint)?;
    check_pairs(&rt, rt.alloc(), Op::AtLeastInt)?;
    check_pairs(&rt, rt.alloc(), Op::AtLeastUint)?;
    Ok(())
}

#[test]
fn bit_operators(rt: HostRuntime) -> Result<(), Fail> {
    check_pairs(&rt, rt.alloc(), Op::Equal)?;
    check_pairs(&rt, rt.alloc(), Op::NotEqual)?;
    check_pairs(&rt, rt.alloc(), Op::BitAnd)?;
    check_pairs(&rt, rt.alloc(), Op::BitOr)?;
    check_pairs(&rt, rt.alloc(), Op::BitXor)?;
    check_pairs(&rt, rt.alloc(), Op::LogicAnd)?;
    check_pairs(&rt, rt.alloc(), Op::LogicOr)?;
    Ok(())
}
