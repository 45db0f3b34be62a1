// What small programs become.
use c_tree::{Decl, Declarator, Expr, Function, Initialiser, Item, Program, Stmt, TypeWord};
use cond_lower::{CondFault, Wakeups, lower};
use dg_base::{Bytes, List, Place};
use sqlite_items::Boxed;
use std::alloc::{AllocError, Global};
use std::test::Fail;

fn at(line: u32, col: u32) -> Place {
    Place { line, col }
}

// A shared variable of one cell.
fn shared(
    alloc: Global,
    word: TypeWord,
    place: Place,
    name: &[u8],
    initialiser: Option<Initialiser>,
) -> Result<Item, AllocError> {
    let mut declarators = List::new(alloc);
    declarators.push(Declarator {
        place,
        name: Bytes::from_slice(alloc, name)?,
        size: None,
        initialiser,
    })?;
    Ok(Item::Shared(Decl { word, declarators }))
}

// `&name`
fn address(alloc: Global, place: Place, name: &[u8]) -> Result<Expr, AllocError> {
    let name = Bytes::from_slice(alloc, name)?;
    let target = Boxed::new(alloc, Expr::Name { place, name })?;
    Ok(Expr::Address { place, target })
}

// `int main() { pthread_cond_wait(&c, &m); }`
fn main_function(alloc: Global) -> Result<Item, AllocError> {
    let place = at(3, 14);
    let mut args = List::new(alloc);
    args.push(address(alloc, place, b"c")?)?;
    args.push(address(alloc, place, b"m")?)?;
    let name = Bytes::from_slice(alloc, b"pthread_cond_wait")?;
    let expr = Expr::Call { place, name, args };
    let mut body = List::new(alloc);
    body.push(Stmt::Expr { place, expr })?;
    Ok(Item::Function(Function {
        place: at(3, 5),
        word: TypeWord::Int,
        name: Bytes::from_slice(alloc, b"main")?,
        params: List::new(alloc),
        body,
    }))
}

// A condition variable, a mutex, and a function that waits.
fn waiting_program(alloc: Global) -> Result<Program, AllocError> {
    let mut items = List::new(alloc);
    items.push(shared(alloc, TypeWord::Cond, at(1, 16), b"c", None)?)?;
    items.push(shared(alloc, TypeWord::Mutex, at(2, 17), b"m", None)?)?;
    items.push(main_function(alloc)?)?;
    Ok(Program { items })
}

// How many items the lowered program has; 0 where there is none.
fn count(lowered: Result<Program, CondFault>) -> usize {
    match lowered {
        Ok(program) => program.items.len(),
        Err(_) => 0,
    }
}

fn is_bad_at(lowered: Result<Program, CondFault>, expected: Place) -> bool {
    match lowered {
        Ok(_) => false,
        Err(CondFault::BadCond(place)) => place == expected,
        Err(CondFault::OutOfMemory) => false,
    }
}

#[test]
fn a_wait_that_may_go_on_freely(rt: HostRuntime) -> Result<(), Fail> {
    let program = waiting_program(rt.alloc())?;
    assert_eq!(rt; count(lower(rt.alloc(), program, Wakeups::Any)), 2);
    Ok(())
}

#[test]
fn a_wait_for_a_token(rt: HostRuntime) -> Result<(), Fail> {
    let program = waiting_program(rt.alloc())?;
    assert_eq!(rt; count(lower(rt.alloc(), program, Wakeups::Signalled)), 8);
    Ok(())
}

#[test]
fn a_condition_variable_that_begins_with_a_number(rt: HostRuntime) -> Result<(), Fail> {
    let one = Expr::Number {
        place: at(1, 20),
        value: 1,
        unsigned: false,
    };
    let start = Some(Initialiser::One(one));
    let mut items = List::new(rt.alloc());
    items.push(shared(rt.alloc(), TypeWord::Cond, at(1, 16), b"c", start)?)?;
    let result = lower(rt.alloc(), Program { items }, Wakeups::Any);
    assert!(rt; is_bad_at(result, at(1, 16)));
    Ok(())
}
