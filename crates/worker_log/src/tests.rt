ghost use Rattle.std.specs.Prelude.{◌≡◌, ◌≤◌, ◌<◌, ◌+◌, ◌∷◌, [], Contains, length, IfOk, OnOk};
ghost use Rattle.cnf_problem.specs.Formulas.{true_lit};
ghost use Rattle.clause_exchange.specs.Steps.{mine};
ghost use Rattle.clause_exchange.specs.Seats.{exchange_of};
ghost use Rattle.worker_log.specs.Logs.{IsUnused};
ghost use Rattle.worker_log.specs.Keeping.{IsLogging, IsHeeding};

use crate::{WorkerLog, lemma_of};
use clause_exchange::{Exchange, Seat};
use cnf_problem::{Gates, Lemma, LemmaKind, Problem};
use dg_base::{List, Lit, OutOfMemory};
use std::alloc::Global;
use std::test::Fail;

#[test]
fn a_lemma_is_sorted(rt: HostRuntime) -> Result<(), Fail> {
    let lemma = lemma_of(rt.alloc(), LemmaKind::Cycle, &[Lit(7)])?;
    assert_eq!(rt; lemma.kind, LemmaKind::Cycle);
    assert_eq!(rt; lemma.lits.as_slice(), [Lit(7)].as_slice());
    Ok(())
}

// A problem with one variable, which is true and false.
fn refuted_problem(alloc: Global) -> Result<Problem, OutOfMemory>
    ensures yes { IfOk result (λ p. Contains p.clauses (true_lit ∷ [])) }
    ensures no { IfOk result (λ p. Contains p.clauses (record { 0 = 3 } ∷ [])) }
{
    let mut gates = Gates::new(alloc)?;
    gates.clause(&[Lit(3)])?;
    gates.finish(List::new(alloc), List::new(alloc), List::new(alloc))
}

// Notes the empty lemma.
fn note_empty(
    alloc: Global,
    exchange: &Exchange,
    seat: &mut Seat,
    log: &mut WorkerLog,
) -> Result<(), OutOfMemory>
    requires same { exchange_of seat.old ≡ exchange.now }
    requires logging { IsLogging log.old seat.old.view }
    requires heeding { IsHeeding (mine seat.old.view) 0 }
    requires few { length (mine seat.old.view).log < 1024 }
    requires yes { Contains seat.old.view.problem.clauses (true_lit ∷ []) }
    requires no { Contains seat.old.view.problem.clauses (record { 0 = 3 } ∷ []) }
    ensures same { exchange_of seat.new ≡ exchange_of seat.old }
    ensures logging { IsLogging log.new seat.new.view }
    ensures heeding { OnOk result (IsHeeding (mine seat.new.view) 0) }
    ensures longer { OnOk result (length (mine seat.new.view).log ≡ length (mine seat.old.view).log + 1) }
{
    let lemma = Lemma {
        kind: LemmaKind::Unit,
        lits: List::new(alloc),
    };
    log.note(exchange, seat, lemma)
}

// Looks at the others, and notes the empty lemma twice.
fn note_twice(
    alloc: Global,
    exchange: &Exchange,
    seat: &mut Seat,
    log: &mut WorkerLog,
) -> Result<(), OutOfMemory>
    requires same { exchange_of seat.old ≡ exchange.now }
    requires unused { IsUnused log.old seat.old.view }
    requires yes { Contains seat.old.view.problem.clauses (true_lit ∷ []) }
    requires no { Contains seat.old.view.problem.clauses (record { 0 = 3 } ∷ []) }
{
    log.heed(alloc, exchange, seat)?;
    note_empty(alloc, exchange, seat, log)?;
    note_empty(alloc, exchange, seat, log)
}

// How many clauses a worker hears, and how many entries it read of the first row and of the last.
fn count_heard(
    alloc: Global,
    exchange: &Exchange,
    seat: &mut Seat,
    log: &mut WorkerLog,
) -> Result<(usize, Option<u32>, Option<u32>), OutOfMemory>
    requires same { exchange_of seat.old ≡ exchange.now }
    requires unused { IsUnused log.old seat.old.view }
{
    let heard = log.heed(alloc, exchange, seat)?;
    let reads = log.reads();
    Ok((heard.len(), reads.first().copied(), reads.last().copied()))
}

// Worker 0 notes the empty lemma twice, and worker 1 hears what it shared in a row of so many words.
// Answers how many entries worker 0 has, how many clauses worker 1 heard, and how many it read of
// each row.
fn hear_refutation(
    alloc: Global,
    share_words: u32,
) -> Result<(usize, usize, Option<u32>, Option<u32>), OutOfMemory>
    requires { share_words ≤ 1048576 }
{
    let problem = refuted_problem(alloc)?;
    let (exchange, mut zero) = Exchange::new(alloc, &problem, 2, share_words)?;
    let mut one = exchange.split(&mut zero, 1);
    let mut left = WorkerLog::new(alloc, 0, 2)?;
    let mut right = WorkerLog::new(alloc, 1, 2)?;
    note_twice(alloc, &exchange, &mut zero, &mut left)?;
    let (heard, first, last) = count_heard(alloc, &exchange, &mut one, &mut right)?;
    Ok((left.len(), heard, first, last))
}

#[test]
fn what_is_shared_is_heard(rt: HostRuntime) -> Result<(), Fail> {
    let told = hear_refutation(rt.alloc(), 64)?;
    assert_eq!(rt; told, (2, 2, Some(2), Some(0)));
    Ok(())
}

#[test]
fn what_finds_no_room_is_not(rt: HostRuntime) -> Result<(), Fail> {
    let told = hear_refutation(rt.alloc(), 1)?;
    assert_eq!(rt; told, (2, 1, Some(1), Some(0)));
    Ok(())
}

#[test]
fn rows_of_no_words(rt: HostRuntime) -> Result<(), Fail> {
    let told = hear_refutation(rt.alloc(), 0)?;
    assert_eq!(rt; told, (2, 0, Some(0), Some(0)));
    Ok(())
}
