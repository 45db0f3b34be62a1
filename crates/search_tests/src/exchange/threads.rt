ghost use Rattle.std.specs.Prelude.{◌≡◌, [], ◌∷◌, Contains, IfOk};
ghost use Rattle.cnf_problem.specs.Formulas.{true_lit};
ghost use Rattle.cnf_problem.specs.Problems.{Follows};
ghost use Rattle.clause_exchange.specs.Steps.{mine};
ghost use Rattle.clause_exchange.specs.Seats.{ExchangeId, exchange_of};
ghost use Rattle.clause_exchange.specs.Calls.{HasOne, IsOther};
ghost use Rattle.search_tests.specs.Ready.{IsReady};

use super::{append_and_share, look_at, one_lemma, read_next, small_problem};
use clause_exchange::{Exchange, Seat};
use cnf_problem::Lemma;
use dg_base::OutOfMemory;
use std::alloc::Global;
use std::test::Fail;
use std::thread;
use std::thread::Threads;

// What one thread did: the tickets that it drew, whether it shared their entries, how many words of
// the other's row it saw, and the tickets that it read there.
#[derive(Drop)]
struct Work {
    tickets: [u32; 2],
    shared: [bool; 2],
    words: u32,
    read: [Option<u32>; 3],
}

// Reads the next entry of another number's row. Answers its ticket.
fn read_ticket(exchange: &Exchange, seat: &mut Seat, row: u32) -> Option<u32>
    requires same { exchange_of seat.old ≡ exchange.now }
    requires one { HasOne seat.old.view }
    requires row { IsOther seat.old.view row }
    ensures same { exchange_of seat.new ≡ exchange_of seat.old }
    ensures one { HasOne seat.new.view }
    ensures number { (mine seat.new.view).number ≡ (mine seat.old.view).number }
{
    let read = read_next(exchange, seat, row)?;
    Some(read.ticket)
}

// Appends two lemmas and shares their entries, and then looks at the other's row and reads it.
fn work_at(
    exchange: &Exchange,
    mut seat: Seat,
    worker: u32,
    row: u32,
    first: Lemma,
    second: Lemma,
) -> (Seat, Work)
    requires same { exchange_of seat ≡ exchange.now }
    requires ready { IsReady seat.view 2 }
    requires row { IsOther seat.view row }
    requires first { Follows seat.view.problem [] first }
    requires second { Follows seat.view.problem [] second }
    ensures same { exchange_of result.0 ≡ exchange_of seat }
    ensures one { HasOne result.0.view }
    ensures number { (mine result.0.view).number ≡ (mine seat.view).number }
{
    let zeroth = append_and_share(exchange, &mut seat, worker, first);
    let next = append_and_share(exchange, &mut seat, worker, second);
    let words = look_at(exchange, &mut seat, row);
    let zeroth_read = read_ticket(exchange, &mut seat, row);
    let next_read = read_ticket(exchange, &mut seat, row);
    let no_more = read_ticket(exchange, &mut seat, row);
    let work = Work {
        tickets: [zeroth.0, next.0],
        shared: [zeroth.1, next.1],
        words,
        read: [zeroth_read, next_read, no_more],
    };
    (seat, work)
}

// What a thread works with: a seat that may append two lemmas, and the row that it reads.
#[derive(Drop)]
struct Job {
    seat: Seat,
    worker: u32,
    row: u32,
    first: Lemma,
    second: Lemma,
}

fn job_of(alloc: Global, seat: Seat, worker: u32, row: u32) -> Result<Job, OutOfMemory>
    requires { Contains seat.view.problem.clauses (true_lit ∷ []) }
    ensures seat { IfOk result (λ job. (job.seat ≡ seat) × (job.row ≡ row)) }
    ensures follow { IfOk result (λ job. Follows job.seat.view.problem [] job.first × Follows job.seat.view.problem [] job.second) }
{
    Ok(Job {
        seat,
        worker,
        row,
        first: one_lemma(alloc)?,
        second: one_lemma(alloc)?,
    })
}

// What does jobs on seats of an exchange, in any thread.
trait DoesJobs: Sync {
    ghost id: { Self → ExchangeId };

    fn do_job(&self, job: Job) -> (Seat, Work)
        requires same { exchange_of job.seat ≡ Self.id self.now }
        requires ready { IsReady job.seat.view 2 }
        requires row { IsOther job.seat.view job.row }
        requires follow { Follows job.seat.view.problem [] job.first × Follows job.seat.view.problem [] job.second }
        ensures same { exchange_of result.0 ≡ exchange_of job.seat }
        ensures one { HasOne result.0.view }
        ensures number { (mine result.0.view).number ≡ (mine job.seat.view).number };
}

impl<'a> DoesJobs for Exchange<'a> {
    ghost id = { λ x. x };

    fn do_job(&self, job: Job) -> (Seat, Work) {
        let Job {
            seat,
            worker,
            row,
            first,
            second,
        } = job;
        work_at(self, seat, worker, row, first, second)
    }
}

// Does both jobs, each in a thread of its own, for whatever does jobs.
fn do_both_of<T: DoesJobs>(
    rt: &impl Threads,
    exchange: &T,
    zeroth: Job,
    first: Job,
) -> ((Seat, Work), (Seat, Work))
    requires same { (exchange_of zeroth.seat ≡ T.id exchange.now) × (exchange_of first.seat ≡ T.id exchange.now) }
    requires ready { IsReady zeroth.seat.view 2 × IsReady first.seat.view 2 }
    requires row { IsOther zeroth.seat.view zeroth.row × IsOther first.seat.view first.row }
    requires zeroth { Follows zeroth.seat.view.problem [] zeroth.first × Follows zeroth.seat.view.problem [] zeroth.second }
    requires first { Follows first.seat.view.problem [] first.first × Follows first.seat.view.problem [] first.second }
    ensures same { (exchange_of result.0.0 ≡ exchange_of zeroth.seat) × (exchange_of result.1.0 ≡ exchange_of first.seat) }
    ensures one { HasOne result.0.0.view × HasOne result.1.0.view }
    ensures number { ((mine result.0.0.view).number ≡ (mine zeroth.seat.view).number) × ((mine result.1.0.view).number ≡ (mine first.seat.view).number) }
{
    let here = move || -> (Seat, Work)
        requires same { exchange_of zeroth.seat ≡ T.id exchange.now }
        requires ready { IsReady zeroth.seat.view 2 }
        requires row { IsOther zeroth.seat.view zeroth.row }
        requires follow { Follows zeroth.seat.view.problem [] zeroth.first × Follows zeroth.seat.view.problem [] zeroth.second }
        ensures same { exchange_of result.0 ≡ exchange_of zeroth.seat }
        ensures one { HasOne result.0.view }
        ensures number { (mine result.0.view).number ≡ (mine zeroth.seat.view).number }
    { exchange.do_job(zeroth) };
    let there = move || -> (Seat, Work)
        requires same { exchange_of first.seat ≡ T.id exchange.now }
        requires ready { IsReady first.seat.view 2 }
        requires row { IsOther first.seat.view first.row }
        requires follow { Follows first.seat.view.problem [] first.first × Follows first.seat.view.problem [] first.second }
        ensures same { exchange_of result.0 ≡ exchange_of first.seat }
        ensures one { HasOne result.0.view }
        ensures number { (mine result.0.view).number ≡ (mine first.seat.view).number }
    { exchange.do_job(first) };
    thread::join(rt, here, there)
}

// Does both jobs, each in a thread of its own.
fn do_both(
    rt: &impl Threads,
    exchange: &Exchange,
    zeroth: Job,
    first: Job,
) -> ((Seat, Work), (Seat, Work))
    requires same { (exchange_of zeroth.seat ≡ exchange.now) × (exchange_of first.seat ≡ exchange.now) }
    requires ready { IsReady zeroth.seat.view 2 × IsReady first.seat.view 2 }
    requires row { IsOther zeroth.seat.view zeroth.row × IsOther first.seat.view first.row }
    requires zeroth { Follows zeroth.seat.view.problem [] zeroth.first × Follows zeroth.seat.view.problem [] zeroth.second }
    requires first { Follows first.seat.view.problem [] first.first × Follows first.seat.view.problem [] first.second }
    ensures same { (exchange_of result.0.0 ≡ exchange_of zeroth.seat) × (exchange_of result.1.0 ≡ exchange_of first.seat) }
    ensures one { HasOne result.0.0.view × HasOne result.1.0.view }
    ensures number { ((mine result.0.0.view).number ≡ (mine zeroth.seat.view).number) × ((mine result.1.0.view).number ≡ (mine first.seat.view).number) }
{
    do_both_of(rt, exchange, zeroth, first)
}

// What a thread saw of the other's row are the first entries that the other shared.
fn saw_first_of(work: &Work, other: &Work) -> bool {
    let [zeroth, first] = other.tickets;
    match work.words {
        0 => work.read == [None, None, None],
        2 => work.read == [Some(zeroth), None, None],
        4 => work.read == [Some(zeroth), Some(first), None],
        _ => false,
    }
}

#[test]
fn two_threads_append_share_and_read(rt: HostRuntime) -> Result<(), Fail> {
    let alloc = rt.alloc();
    let problem = small_problem(alloc)?;
    let (exchange, mut zero) = Exchange::new(alloc, &problem, 2, 4)?;
    let one = exchange.split(&mut zero, 1);
    let zeroth = job_of(alloc, zero, 0, 1)?;
    let first = job_of(alloc, one, 1, 0)?;
    let ((mut seat, left), (other, right)) = do_both(&rt, &exchange, zeroth, first);
    exchange.join(&mut seat, other);
    let (next, verdict) = exchange.close(seat);
    assert_eq!(rt; next, 4);
    assert!(rt; verdict.is_none());
    let tickets = [
        left.tickets[0],
        left.tickets[1],
        right.tickets[0],
        right.tickets[1],
    ];
    for ticket in 0..next {
        assert!(rt; tickets.contains(&ticket), "ticket {ticket}");
    }
    for work in [&left, &right] {
        assert!(rt; work.tickets[0] < work.tickets[1]);
        assert_eq!(rt; work.shared, [true, true]);
    }
    assert!(rt; saw_first_of(&left, &right));
    assert!(rt; saw_first_of(&right, &left));
    Ok(())
}
