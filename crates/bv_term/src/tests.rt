use crate::{Term, TermId, Terms};
use dg_base::Op;
use std::test::Fail;

#[test]
fn constants_fold_and_inputs_do_not(rt: HostRuntime) -> Result<(), Fail> {
    let mut terms = Terms::new(rt.alloc())?;
    assert!(rt; terms.is_empty());
    let x = terms.input()?;
    let y = terms.input()?;
    let zero = terms.constant(0)?;
    let seven = terms.constant(7)?;
    let sum = terms.make(Op::Plus, &[seven, seven])?;
    assert_eq!(rt; terms.constant_value(sum), Some(14));
    let flag = terms.make(Op::LogicNot, &[zero])?;
    assert_eq!(rt; terms.constant_value(flag), Some(1));
    let product = terms.make(Op::Times, &[x, seven])?;
    assert_eq!(rt; terms.get(product), Term::Apply(Op::Times, x, seven, x));
    assert_eq!(rt; terms.constant_value(x), None);
    assert_ne!(rt; x, y);
    Ok(())
}

#[test]
fn sums_and_choices_are_their_arguments(rt: HostRuntime) -> Result<(), Fail> {
    let mut terms = Terms::new(rt.alloc())?;
    let x = terms.input()?;
    let y = terms.input()?;
    let zero = terms.constant(0)?;
    let three = terms.constant(3)?;
    assert_eq!(rt; terms.make(Op::Plus, &[x, zero])?, x);
    assert_eq!(rt; terms.make(Op::Plus, &[zero, y])?, y);
    assert_eq!(rt; terms.make(Op::Choose, &[three, x, y])?, x);
    assert_eq!(rt; terms.make(Op::Choose, &[zero, x, y])?, y);
    assert_eq!(rt; terms.make(Op::Choose, &[x, y, y])?, y);
    assert_eq!(rt; terms.len(), 4);
    Ok(())
}
