ghost use Rattle.std.specs.Prelude.{◌≡◌};
ghost use Rattle.clause_exchange.specs.Sizes.{AreSizes};

use crate::rule::{Law, Setup, Token, View};
use atomic_table::Table;
use cnf_problem::{Lemma, Problem};
use search_core::Verdict;
use std::alloc::{AllocError, Global};

/// Tickets, rows and a verdict, shared by several workers.
#[derive(Drop)]
pub struct Board<'a> {
    pub(crate) table: Table<Lemma, View, Setup<'a>, Law, Global>,
    pub(crate) workers: u32,
    pub(crate) share_words: u32,
    pub ghost sized: { AreSizes table.shared.table_id.words table.shared.key.workers table.shared.key.share_words workers share_words },
    pub ghost no_slots: { table.shared.table_id.slots ≡ 0 },
}

impl<'a> Board<'a> {
    ghost use Rattle.std.specs.Prelude.{◌≡◌, ◌+◌, ◌*◌, ◌<◌, ◌≤◌, false, [], IfOk, None};
    ghost use Rattle.clause_exchange.specs.Rule.{row_start, new_view, verdict_of};
    ghost use Rattle.clause_exchange.specs.Closing.{IsClosed};

    pub(crate) fn open(
        alloc: Global,
        problem: &'a Problem,
        workers: u32,
        share_words: u32,
    ) -> Result<(Board<'a>, Token), AllocError>
        requires some { 0 < workers }
        requires few { workers ≤ 16 }
        requires words { share_words ≤ 1048576 }
        ensures same { IfOk result (λ r. r.1.table_id ≡ r.0.table.shared.table_id) }
        ensures slots { IfOk result (λ r. r.1.me.1 ≡ []) }
        ensures problem { IfOk result (λ r. r.0.table.shared.key.problem.now ≡ problem.now) }
        ensures sizes { IfOk result (λ r. (r.0.workers ≡ workers) × (r.0.share_words ≡ share_words)) }
        ensures view { IfOk result (λ r. r.1.me.0 ≡ new_view problem.now workers share_words) }
    {
        let setup = Setup {
            problem,
            workers,
            share_words,
        };
        let size = 2 + workers as usize + workers as usize * share_words as usize;
        let (table, seat) = {
            let words = vec![in alloc; 0; size]?;
            Table::of_words(alloc, words.as_slice(), &setup)?
        };
        let board = Board {
            table,
            workers,
            share_words,
        };
        Ok((board, seat))
    }

    // The next ticket and the verdict's word, once all seats are joined.
    pub(crate) fn close_words(self, seat: Token) -> (u64, u64)
        requires same { seat.table_id ≡ self.table.shared.table_id }
        requires live { seat.me.0.spent ≡ false }
        ensures workers { seat.me.0.workers ≡ self.entry.workers }
        ensures closed { IsClosed seat.me.0 result.0 (verdict_of result.1) }
        ensures ticket { result.0 ≤ 16000016 }
        ensures verdict { result.1 < 3 }
    {
        let Board {
            table,
            workers: _,
            share_words: _,
        } = self;
        let closed = table.close_with(seat);
        let ticket = closed.word(0);
        let verdict = closed.word(1);
        closed.free();
        (ticket, verdict)
    }

    // Where word `m` of a row lies.
    pub(crate) fn place(&self, row: u32, m: u32) -> usize
        requires row { row < self.now.workers }
        requires within { m < self.now.share_words }
        ensures place { result ≡ row_start self.now.workers self.now.share_words row + m }
        ensures inside { result < self.now.table.shared.table_id.words }
    {
        2 + self.workers as usize + row as usize * self.share_words as usize + m as usize
    }
}
