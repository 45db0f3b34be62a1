// The calls that workers and the top of the search make.
ghost use Rattle.std.specs.Prelude.{◌≡◌, ◌≢◌, ℕ, ◌+◌, ◌<◌, ◌≤◌, List, ◌++◌, [], length, Contains, Some, None, IfOk, MatchBool};
ghost use Rattle.search_core.specs.declared.Entry.{Entry as TheEntry};
ghost use Rattle.search_core.specs.declared.Verdict.TheVariants.{Safe, Unsafe};
ghost use Rattle.clause_exchange.specs.declared.rule.Part.{Part as ThePart};
ghost use Rattle.clause_exchange.specs.declared.rule.Received.{Received as TheReceived};
ghost use Rattle.clause_exchange.specs.Rule.{new_view};
ghost use Rattle.clause_exchange.specs.Steps.{mine, row_of, with_part, with_entry, seeing, offering, HasCause};
ghost use Rattle.clause_exchange.specs.Splits.{with_parts, below, from_on};
ghost use Rattle.clause_exchange.specs.Seats.{exchange_of};
ghost use Rattle.clause_exchange.specs.Calls.{HasOne, HasRoom, HasNoRoom, CanAppend, IsLogged, IsOther, IsFound, IsAllRead, IsRead, IsNumbered, Cuts, after_share, after_look, after_read};
ghost use Rattle.clause_exchange.specs.Closing.{HasAll, IsShown, TicketsAreIn, EntriesFollow, SeenStands, OfferStands, WasOffered, HasEmptyClause, ReadsWereShared};

use crate::board::Board;
use crate::counters::{Counters, first_number, without};
use crate::reading::{Shared, read_entry};
use crate::rows::share_entry;
use crate::seat::Seat;
use crate::steps::{
    append_lemma, join_with, load_count, load_verdict, offer_verdict, split_at, tell_numbers,
};
use crate::verdicts::verdict_in;
use cnf_problem::{Lemma, Problem};
use dg_base::OutOfMemory;
use lemma_log::Entry;
use search_core::Verdict;
use std::alloc::Global;
use std::marker::Model;

/// Tickets, rows and a verdict, shared by up to 16 workers for one problem. Each call but `new`
/// takes no memory, waits for nobody and returns; it works through a `&self` and a seat, in any
/// thread. An exchange is seen as its table, its problem and its sizes.
#[derive(Drop)]
pub struct Exchange<'a> {
    pub(crate) board: Board<'a>,
}

impl<'a> Model for Exchange<'a> {
    ghost use Rattle.clause_exchange.specs.Seats.{ExchangeId};

    ghost Value = { ExchangeId };

    ghost view = { λ x. record { table = x.board.table.shared.table_id; problem = x.board.table.shared.key.problem.now; workers = x.board.workers; share_words = x.board.share_words } };
}

impl<'a> Exchange<'a> {
    /// An exchange for so many workers on a problem, with rows of so many words, and the seat that
    /// has all numbers, from 0. Takes 8 bytes for each word of each row, and as much again while it
    /// is filled.
    pub fn new(
        alloc: Global,
        problem: &'a Problem,
        workers: u32,
        share_words: u32,
    ) -> Result<(Exchange<'a>, Seat), OutOfMemory>
        requires some { 0 < workers }
        requires few { workers ≤ 16 }
        requires words { share_words ≤ 1048576 }
        ensures same { IfOk result (λ r. exchange_of r.1 ≡ r.0) }
        ensures problem { IfOk result (λ r. r.0.problem ≡ problem.now) }
        ensures sizes { IfOk result (λ r. (r.0.workers ≡ workers) × (r.0.share_words ≡ share_words)) }
        ensures view { IfOk result (λ r. r.1.view ≡ new_view problem.now workers share_words) }
    {
        let (board, token) = Board::open(alloc, problem, workers, share_words)?;
        let seat = Seat {
            token,
            number: 0,
            counters: Counters::new(workers),
        };
        Ok((Exchange { board }, seat))
    }

    /// The number of workers. Each of the seat's numbers is below it, has a row for each worker, and
    /// knows nothing of its own row.
    pub fn workers(&self, seat: &Seat) -> u32
        requires same { exchange_of seat.now ≡ self.now }
        ensures count { result ≡ seat.now.view.workers }
        ensures numbers { (part : ThePart) → Contains seat.now.view.parts part → IsNumbered seat.now.view.workers part }
    {
        let _ = &seat.counters;
        self.board.workers
    }

    /// Appends a lemma to the log of the seat's number, by one draw of a ticket. Answers the ticket,
    /// which is above those of the log.
    pub fn append(&self, seat: &mut Seat, lemma: &Lemma) -> u32
        requires same { exchange_of seat.old ≡ self.now }
        requires one { HasOne seat.old.view }
        requires may { CanAppend seat.old.view lemma.now }
        ensures same { exchange_of seat.new ≡ exchange_of seat.old }
        ensures fresh { (e : TheEntry) → Contains (mine seat.old.view).log e → e.ticket < result }
        ensures log { seat.new.view ≡ with_part seat.old.view (with_entry (mine seat.old.view) result lemma.now) }
    {
        append_lemma(&self.board, &mut seat.token, lemma) as u32
    }

    /// Shares an entry of the log: its words are stored in the row, and then the row's count is
    /// raised by one store. False, with all as before, exactly where the entry has more than 32
    /// literals or needs more words than the row has left.
    pub fn share(&self, seat: &mut Seat, entry: &Entry) -> bool
        requires same { exchange_of seat.old ≡ self.now }
        requires one { HasOne seat.old.view }
        requires logged { (e : TheEntry) × IsLogged (mine seat.old.view) entry.now e }
        ensures same { exchange_of seat.new ≡ exchange_of seat.old }
        ensures shared { MatchBool result ((e : TheEntry) → IsLogged (mine seat.old.view) entry.now e → seat.new.view ≡ after_share seat.old.view e) (seat.new.view ≡ seat.old.view) }
        ensures room { MatchBool result (HasRoom seat.old.view.share_words (mine seat.old.view) (length entry.now.lemma.lits)) (HasNoRoom seat.old.view.share_words (mine seat.old.view) (length entry.now.lemma.lits)) }
    {
        let lits = entry.lemma.lits.as_slice();
        if lits.len() > 32 {
            return false;
        }
        let number = seat.number;
        let written = seat.counters.written[number as usize];
        let needed = 1 + (lits.len() as u32 + 1) / 2;
        if needed > self.board.share_words - written {
            return false;
        }
        seat.counters.written[number as usize] = share_entry(
            &self.board,
            &mut seat.token,
            number,
            written,
            entry.ticket,
            lits,
        );
        true
    }

    /// Looks how many words another number's row has, by one load.
    pub fn look(&self, seat: &mut Seat, row: u32) -> u32
        requires same { exchange_of seat.old ≡ self.now }
        requires one { HasOne seat.old.view }
        requires row { IsOther seat.old.view row }
        ensures same { exchange_of seat.new ≡ exchange_of seat.old }
        ensures known { (known : List TheReceived) × IsFound seat.old.view row result known × (seat.new.view ≡ after_look seat.old.view row known) }
    {
        let words = load_count(&self.board, &mut seat.token, row) as u32;
        seat.counters.looked[(16 * seat.number + row) as usize] = words;
        words
    }

    /// Reads the next entry of another number's row, below the words that were looked at. False,
    /// with all as before, exactly where all entries within these words are read.
    pub fn read(&self, seat: &mut Seat, row: u32, into: &mut Shared) -> bool
        requires same { exchange_of seat.old ≡ self.now }
        requires one { HasOne seat.old.view }
        requires row { IsOther seat.old.view row }
        ensures same { exchange_of seat.new ≡ exchange_of seat.old }
        ensures read { MatchBool result ((entry : TheReceived) × IsRead seat.old.view row into.new entry × (seat.new.view ≡ after_read seat.old.view row entry)) (IsAllRead (row_of (mine seat.old.view) row) × (seat.new.view ≡ seat.old.view) × (into.new ≡ into.old)) }
    {
        let at = (16 * seat.number + row) as usize;
        let loaded = seat.counters.loaded[at];
        if loaded == seat.counters.looked[at] {
            return false;
        }
        seat.counters.loaded[at] = read_entry(&self.board, &mut seat.token, row, loaded, into);
        true
    }

    /// Offers a verdict, by one atomic exchange. Answers the one that stands.
    pub fn offer(&self, seat: &mut Seat, verdict: Verdict) -> Verdict
        requires same { exchange_of seat.old ≡ self.now }
        requires one { HasOne seat.old.view }
        requires cause { HasCause seat.old.view.problem (mine seat.old.view) verdict }
        ensures same { exchange_of seat.new ≡ exchange_of seat.old }
        ensures stands { seat.new.view ≡ with_part seat.old.view (offering (mine seat.old.view) verdict (Some result)) }
    {
        let found = offer_verdict(&self.board, &mut seat.token, verdict);
        match verdict_in(found) {
            Some(stands) => stands,
            None => verdict,
        }
    }

    /// Loads the verdict, by one load. None exactly where none stands at that moment.
    pub fn verdict(&self, seat: &mut Seat) -> Option<Verdict>
        requires same { exchange_of seat.old ≡ self.now }
        requires one { HasOne seat.old.view }
        ensures same { exchange_of seat.new ≡ exchange_of seat.old }
        ensures seen { seat.new.view ≡ with_part seat.old.view (seeing (mine seat.old.view) result) }
    {
        let word = load_verdict(&self.board, &mut seat.token);
        verdict_in(word)
    }

    /// Splits a seat: the new one has the numbers from `at` on.
    pub fn split(&self, seat: &mut Seat, at: u32) -> Seat
        requires same { exchange_of seat.old ≡ self.now }
        requires within { Cuts seat.old.view at }
        ensures same { (exchange_of seat.new ≡ exchange_of seat.old) × (exchange_of result ≡ exchange_of seat.old) }
        ensures left { seat.new.view ≡ with_parts seat.old.view (below at seat.old.view.parts) }
        ensures right { result.view ≡ with_parts seat.old.view (from_on at seat.old.view.parts) }
    {
        let token = split_at(&self.board, &mut seat.token, at);
        let owns = without(seat.counters.owns, 0, at);
        seat.counters.owns = without(seat.counters.owns, at, 16);
        seat.number = first_number(&seat.counters.owns);
        Seat {
            token,
            number: first_number(&owns),
            counters: Counters {
                owns,
                written: seat.counters.written,
                looked: seat.counters.looked,
                loaded: seat.counters.loaded,
            },
        }
    }

    /// Joins two seats: the first has the numbers of both.
    pub fn join(&self, seat: &mut Seat, other: Seat)
        requires same { exchange_of seat.old ≡ self.now }
        requires other { exchange_of other ≡ self.now }
        ensures same { exchange_of seat.new ≡ exchange_of seat.old }
        ensures both { seat.new.view ≡ with_parts seat.old.view (seat.old.view.parts ++ other.view.parts) }
    {
        let Seat {
            token,
            number: _,
            counters,
        } = other;
        join_with(&self.board, &mut seat.token, token);
        tell_numbers(&self.board, &mut seat.token);
        seat.counters.take_over(&counters);
    }

    /// Closes the exchange with the seat that has all numbers. Answers the next ticket and the
    /// verdict that stands, None exactly where there is none.
    pub fn close(self, seat: Seat) -> (u32, Option<Verdict>)
        requires same { exchange_of seat ≡ self }
        requires all { HasAll seat.view }
        ensures state { IsShown seat.view result.0 result.1 }
        ensures tickets { TicketsAreIn seat.view result.0 }
        ensures follows { EntriesFollow seat.view }
        ensures only_if_offered { result.1 ≡ Some Unsafe → WasOffered seat.view Unsafe }
        ensures only_if_empty { result.1 ≡ Some Safe → HasEmptyClause seat.view }
        ensures seen { SeenStands seat.view result.1 }
        ensures offered { OfferStands seat.view result.1 }
        ensures reads { ReadsWereShared seat.view }
    {
        let Seat {
            token,
            number: _,
            counters: _,
        } = seat;
        let Exchange { board } = self;
        let (ticket, word) = board.close_words(token);
        (ticket as u32, verdict_in(word))
    }
}
