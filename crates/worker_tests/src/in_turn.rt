// Two workers, of which the second begins when the first has ended.
ghost use Rattle.std.specs.Prelude.{◌≤◌};

use crate::problems::{all_signs, ten_cycles};
use crate::searching::{End, search};
use cdcl_worker::Outcome;
use clause_exchange::Exchange;
use cnf_problem::Problem;
use dg_base::{OpenGate, OutOfMemory};
use search_core::Verdict;
use std::alloc::Global;
use std::test::Fail;

// Worker 0 searches with this budget, and then worker 1 with its own.
fn in_turn(
    alloc: Global,
    problem: &Problem,
    first: u32,
    second: u32,
    share_words: u32,
) -> Result<(End, End), OutOfMemory>
    requires first_some { 1 ≤ first }
    requires first_few { first ≤ 1000000 }
    requires second_some { 1 ≤ second }
    requires second_few { second ≤ 1000000 }
    requires words { share_words ≤ 1048576 }
{
    let (exchange, mut zero) = Exchange::new(alloc, problem, 2, share_words)?;
    let one = exchange.split(&mut zero, 1);
    let left = search(alloc, problem, &exchange, zero, 0, 2, first, &OpenGate)?;
    let right = search(alloc, problem, &exchange, one, 1, 2, second, &OpenGate)?;
    Ok((left, right))
}

#[test]
fn the_second_goes_on_from_what_the_first_shared(rt: HostRuntime) -> Result<(), Fail> {
    let problem = ten_cycles(rt.alloc())?;
    let (left, right) = in_turn(rt.alloc(), &problem, 4, 20000, 64)?;
    assert!(rt; matches!(&left.outcome, Outcome::Spent));
    assert!(rt; matches!(&right.outcome, Outcome::Unsat));
    assert_eq!(rt; (left.lemmas, left.read, right.read), (4, Some(0), Some(4)));
    assert!(rt; left.cycles >= 1);
    assert_eq!(rt; left.cycles.wrapping_add(right.cycles), 10);
    Ok(())
}

// A lemma of two literals takes two words, so that the second finds no room.
#[test]
fn what_has_no_room_is_not_read(rt: HostRuntime) -> Result<(), Fail> {
    let problem = ten_cycles(rt.alloc())?;
    let (left, right) = in_turn(rt.alloc(), &problem, 4, 20000, 3)?;
    assert!(rt; matches!(&left.outcome, Outcome::Spent));
    assert!(rt; matches!(&right.outcome, Outcome::Unsat));
    assert_eq!(rt; (left.lemmas, right.read), (4, Some(1)));
    Ok(())
}

#[test]
fn rows_of_no_words_leave_all_to_the_second(rt: HostRuntime) -> Result<(), Fail> {
    let problem = ten_cycles(rt.alloc())?;
    let (left, right) = in_turn(rt.alloc(), &problem, 4, 20000, 0)?;
    assert!(rt; matches!(&left.outcome, Outcome::Spent));
    assert!(rt; matches!(&right.outcome, Outcome::Unsat));
    assert_eq!(rt; (left.lemmas, right.read, right.cycles), (4, Some(0), 10));
    Ok(())
}

#[test]
fn the_second_follows_the_verdict(rt: HostRuntime) -> Result<(), Fail> {
    let problem = all_signs(rt.alloc())?;
    let (left, right) = in_turn(rt.alloc(), &problem, 20000, 20000, 64)?;
    assert!(rt; matches!(&left.outcome, Outcome::Unsat));
    assert!(rt; matches!(&right.outcome, Outcome::Followed(Verdict::Safe)));
    assert_eq!(rt; right.lemmas, 0);
    Ok(())
}

#[test]
fn two_budgets_of_one_are_spent(rt: HostRuntime) -> Result<(), Fail> {
    let problem = ten_cycles(rt.alloc())?;
    let (left, right) = in_turn(rt.alloc(), &problem, 1, 1, 64)?;
    assert!(rt; matches!(&left.outcome, Outcome::Spent));
    assert!(rt; matches!(&right.outcome, Outcome::Spent));
    assert_eq!(rt; (left.lemmas, right.lemmas, right.read), (1, 1, Some(1)));
    Ok(())
}
