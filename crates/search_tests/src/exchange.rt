ghost use Rattle.std.specs.Prelude.{◌≡◌, [], ◌∷◌, IfOk};
ghost use Rattle.cnf_problem.specs.Problems.{Follows};
ghost use Rattle.clause_exchange.specs.Steps.{mine};
ghost use Rattle.clause_exchange.specs.Seats.{exchange_of};
ghost use Rattle.clause_exchange.specs.Calls.{HasOne, IsOther};
ghost use Rattle.search_tests.specs.Ready.{IsReady, GoesOn};
ghost use Rattle.cnf_problem.specs.Formulas.{true_lit};
ghost use Rattle.cnf_problem.specs.declared.problem.LemmaKind.TheVariants.{Unit};

mod rows;
mod threads;

use clause_exchange::{Exchange, Seat, Shared, head_word, pair_word};
use cnf_problem::{Gates, Lemma, LemmaKind, Problem};
use dg_base::{List, Lit, OutOfMemory};
use lemma_log::Entry;
use std::alloc::Global;
use std::test::Fail;

// A problem with one variable, which is true.
fn small_problem(alloc: Global) -> Result<Problem, OutOfMemory>
    ensures { IfOk result (λ p. (p.vars ≡ 1) × (p.clauses ≡ (true_lit ∷ []) ∷ [])) }
{
    let gates = Gates::new(alloc)?;
    gates.finish(List::new(alloc), List::new(alloc), List::new(alloc))
}

// The words of ticket 5 with the literals 3, not 5, 8.
#[test]
fn words_of_an_entry(rt: HostRuntime) -> Result<(), Fail> {
    let lits = [Lit(6), Lit(11), Lit(16)];
    let words = [head_word(5, 3), pair_word(&lits, 0), pair_word(&lits, 1)];
    assert_eq!(rt; words, [323, 47244640262, 16]);
    Ok(())
}

// The lemma that says so.
fn one_lemma(alloc: Global) -> Result<Lemma, OutOfMemory>
    ensures { IfOk result (λ l. (l.kind ≡ Unit) × (l.lits ≡ true_lit ∷ [])) }
{
    let lits = List::from_slice(alloc, &[Lit(2)])?;
    Ok(Lemma {
        kind: LemmaKind::Unit,
        lits,
    })
}

// Appends a lemma and shares its entry. Answers its ticket, and whether it was shared.
fn append_and_share(exchange: &Exchange, seat: &mut Seat, worker: u32, lemma: Lemma) -> (u32, bool)
    requires same { exchange_of seat.old ≡ exchange.now }
    requires ready { IsReady seat.old.view 1 }
    requires follows { Follows seat.old.view.problem [] lemma }
    ensures same { exchange_of seat.new ≡ exchange_of seat.old }
    ensures on { GoesOn seat.old.view seat.new.view }
{
    let ticket = exchange.append(seat, &lemma);
    let entry = Entry {
        ticket,
        worker,
        lemma,
    };
    let shared = exchange.share(seat, &entry);
    (ticket, shared)
}

// Looks at another number's row.
fn look_at(exchange: &Exchange, seat: &mut Seat, row: u32) -> u32
    requires same { exchange_of seat.old ≡ exchange.now }
    requires one { HasOne seat.old.view }
    requires row { IsOther seat.old.view row }
    ensures same { exchange_of seat.new ≡ exchange_of seat.old }
    ensures one { HasOne seat.new.view }
    ensures number { (mine seat.new.view).number ≡ (mine seat.old.view).number }
{
    exchange.look(seat, row)
}

// The next entry of another number's row.
fn read_next(exchange: &Exchange, seat: &mut Seat, row: u32) -> Option<Shared>
    requires same { exchange_of seat.old ≡ exchange.now }
    requires one { HasOne seat.old.view }
    requires row { IsOther seat.old.view row }
    ensures same { exchange_of seat.new ≡ exchange_of seat.old }
    ensures one { HasOne seat.new.view }
    ensures number { (mine seat.new.view).number ≡ (mine seat.old.view).number }
{
    let mut into = Shared {
        ticket: 0,
        worker: 0,
        len: 0,
        lits: [Lit(0); 32],
    };
    if exchange.read(seat, row, &mut into) {
        Some(into)
    } else {
        None
    }
}

fn is_shared<T: Send + Sync>(_: &T) {}

fn is_moved<T: Send>(_: &T) {}

#[test]
fn sixteen_workers_with_rows_of_no_words(rt: HostRuntime) -> Result<(), Fail> {
    let problem = small_problem(rt.alloc())?;
    let (exchange, seat) = Exchange::new(rt.alloc(), &problem, 16, 0)?;
    is_shared(&exchange);
    is_moved(&seat);
    let (next, verdict) = exchange.close(seat);
    assert_eq!(rt; next, 0);
    assert!(rt; verdict.is_none());
    Ok(())
}

// Number 1 appends and shares between two splits.
#[test]
fn three_splits_and_joins_in_another_order(rt: HostRuntime) -> Result<(), Fail> {
    let problem = small_problem(rt.alloc())?;
    let lemma = one_lemma(rt.alloc())?;
    let (exchange, mut zero) = Exchange::new(rt.alloc(), &problem, 4, 64)?;
    let mut two = exchange.split(&mut zero, 2);
    let mut one = exchange.split(&mut zero, 1);
    let (ticket, shared) = append_and_share(&exchange, &mut one, 1, lemma);
    let mut three = exchange.split(&mut two, 3);
    exchange.join(&mut three, zero);
    exchange.join(&mut three, two);
    exchange.join(&mut three, one);
    let (next, verdict) = exchange.close(three);
    assert_eq!(rt; (ticket, shared), (0, true));
    assert_eq!(rt; next, 1);
    assert!(rt; verdict.is_none());
    Ok(())
}
