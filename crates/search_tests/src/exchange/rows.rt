// What a row takes of an entry, and what another number reads there.
ghost use Rattle.std.specs.Prelude.{◌≡◌, ℕ, ◌+◌, ◌<◌, ◌≤◌, [], ◌∷◌, All, Contains, IfOk};
ghost use Rattle.dg_base.specs.declared.Lit.{Lit as Literal};
ghost use Rattle.cnf_problem.specs.Literals.{IsOver};
ghost use Rattle.cnf_problem.specs.Formulas.{true_lit};
ghost use Rattle.cnf_problem.specs.Problems.{Follows};
ghost use Rattle.clause_exchange.specs.Steps.{mine};
ghost use Rattle.clause_exchange.specs.Seats.{exchange_of};
ghost use Rattle.clause_exchange.specs.Calls.{HasOne, IsOther};
ghost use Rattle.search_tests.specs.Ready.{IsReady};

use super::{append_and_share, look_at, one_lemma, read_next};
use clause_exchange::{Exchange, Seat, Shared};
use cnf_problem::{Gates, Lemma, LemmaKind, Problem};
use dg_base::{List, Lit, OutOfMemory};
use std::alloc::Global;
use std::test::Fail;

// Variable 1 alone, and those up to 8.
fn eight_variables(alloc: Global) -> Result<Gates, OutOfMemory>
    ensures { IfOk result (λ g. (g.vars ≡ 8) × (g.clauses ≡ (true_lit ∷ []) ∷ [])) }
{
    let mut gates = Gates::new(alloc)?;
    for _made in 1..8u32 {
        gates.fresh()?;
    }
    Ok(gates)
}

// The literals 3, not 5 and 8.
fn three_lits() -> [Lit; 3]
    ensures { result ≡ record { 0 = 6 } ∷ record { 0 = 11 } ∷ record { 0 = 16 } ∷ [] }
{
    [Lit(6), Lit(11), Lit(16)]
}

// A problem with the clause 3, not 5, 8, and the lemma that says so.
fn wide_problem(alloc: Global) -> Result<(Problem, Lemma), OutOfMemory>
    ensures first { IfOk result (λ r. Contains r.0.clauses (true_lit ∷ [])) }
    ensures follows { IfOk result (λ r. Follows r.0 [] r.1) }
{
    let lits = three_lits();
    let mut gates = eight_variables(alloc)?;
    gates.clause(&lits)?;
    let problem = gates.finish(List::new(alloc), List::new(alloc), List::new(alloc))?;
    let lemma = Lemma {
        kind: LemmaKind::Unit,
        lits: List::from_slice(alloc, &lits)?,
    };
    Ok((problem, lemma))
}

// Appends the lemma of one literal so many times, and shares each entry.
fn append_some(
    alloc: Global,
    exchange: &Exchange,
    seat: &mut Seat,
    worker: u32,
    times: u32,
) -> Result<(), OutOfMemory>
    requires same { exchange_of seat.old ≡ exchange.now }
    requires ready { IsReady seat.old.view times }
    requires listed { Contains seat.old.view.problem.clauses (true_lit ∷ []) }
    ensures same { exchange_of seat.new ≡ exchange_of seat.old }
    ensures number { (mine seat.new.view).number ≡ (mine seat.old.view).number }
    ensures ready { IfOk result (λ _. (n : ℕ) → IsReady seat.old.view (times + n) → IsReady seat.new.view n) }
{
    for _i in 0..times {
        let lemma = one_lemma(alloc)?;
        append_and_share(exchange, seat, worker, lemma);
    }
    Ok(())
}

// Reads so many entries of another number's row. Whether their tickets count from 0.
fn read_first(exchange: &Exchange, seat: &mut Seat, row: u32, times: u32) -> bool
    requires same { exchange_of seat.old ≡ exchange.now }
    requires one { HasOne seat.old.view }
    requires row { IsOther seat.old.view row }
    ensures same { exchange_of seat.new ≡ exchange_of seat.old }
    ensures one { HasOne seat.new.view }
    ensures number { (mine seat.new.view).number ≡ (mine seat.old.view).number }
{
    let mut counted = true;
    for ticket in 0..times {
        let read = read_next(exchange, seat, row);
        counted = counted && read.is_some_and(|into| into.ticket == ticket);
    }
    counted
}

// What became of an entry: its ticket, and whether it was shared; and of another number, how many
// words of the row it saw, whether it read the first five tickets, what it read then, and whether
// there was more.
#[derive(Drop)]
struct Told {
    ticket: u32,
    shared: bool,
    seen: u32,
    first: bool,
    read: Option<Shared>,
    more: bool,
}

// Tickets 0 to 4 are of one literal each and take ten words. The next entry has the literals 3, not
// 5 and 8, on a row of so many words.
fn share_sixth(alloc: Global, share_words: u32) -> Result<Told, OutOfMemory>
    requires { share_words ≤ 1048576 }
{
    let (problem, lemma) = wide_problem(alloc)?;
    let (exchange, mut zero) = Exchange::new(alloc, &problem, 2, share_words)?;
    let mut one = exchange.split(&mut zero, 1);
    append_some(alloc, &exchange, &mut one, 1, 5)?;
    let (ticket, shared) = append_and_share(&exchange, &mut one, 1, lemma);
    let seen = look_at(&exchange, &mut zero, 1);
    let first = read_first(&exchange, &mut zero, 1, 5);
    let read = read_next(&exchange, &mut zero, 1);
    let more = read_next(&exchange, &mut zero, 1).is_some();
    Ok(Told {
        ticket,
        shared,
        seen,
        first,
        read,
        more,
    })
}

#[test]
fn the_row_of_a_shared_entry(rt: HostRuntime) -> Result<(), Fail> {
    let told = share_sixth(rt.alloc(), 13)?;
    assert_eq!(rt; (told.ticket, told.shared), (5, true));
    assert_eq!(rt; (told.seen, told.first, told.more), (13, true, false));
    let Some(read) = told.read else {
        return Err(Fail::new("nothing read"));
    };
    assert_eq!(rt; (read.ticket, read.worker, read.len), (5, 1, 3));
    assert!(rt; read.lits.starts_with(&three_lits()));
    Ok(())
}

#[test]
fn a_row_without_room(rt: HostRuntime) -> Result<(), Fail> {
    let told = share_sixth(rt.alloc(), 12)?;
    assert_eq!(rt; (told.ticket, told.shared), (5, false));
    assert_eq!(rt; (told.seen, told.first, told.more), (10, true, false));
    assert!(rt; told.read.is_none());
    Ok(())
}
