ghost use Rattle.std.specs.Prelude.{◌≡◌, ◌+◌, ◌<◌, ◌≤◌, [], length, Contains};
ghost use Rattle.search_core.specs.declared.Entry.{Entry as TheEntry};
ghost use Rattle.clause_exchange.specs.declared.rule.Part.{Part as ThePart};
ghost use Rattle.clause_exchange.specs.Spelling.{entry_size};
ghost use Rattle.clause_exchange.specs.Rule.{row_words};
ghost use Rattle.clause_exchange.specs.Steps.{IsOne, with_part, with_shared, IsOfLog};

use crate::board::Board;
use crate::rule::{Token, View};
use crate::spelling::{are_codes, head_word, pair_word};
use crate::steps::{store_count, store_word};
use cnf_problem::Lemma;
use dg_base::Lit;

/// Stores the words of an entry of the log behind the own row, and then raises the count. Answers how many words the row has then.
pub(crate) fn share_entry(
    board: &Board,
    seat: &mut Token,
    number: u32,
    written: u32,
    ticket: u32,
    lits: &[Lit],
) -> u32
    ghost told: { ThePart }
    requires same { seat.old.table_id ≡ board.now.table.shared.table_id }
    requires one { IsOne seat.old.me.0 told }
    requires sizes { (seat.old.me.0.workers ≡ board.now.workers) × (seat.old.me.0.share_words ≡ board.now.share_words) }
    requires number { (number ≡ told.number) × (number < board.now.workers) }
    requires listed { (e : TheEntry) × IsOfLog told ticket lits.now e }
    requires short { length lits.now ≤ 32 }
    requires none { told.stored ≡ [] }
    requires written { written ≡ length (row_words told) }
    requires room { written + entry_size (length lits.now) ≤ board.now.share_words }
    ensures same { seat.new.table_id ≡ seat.old.table_id }
    ensures slots { seat.new.me.1 ≡ seat.old.me.1 }
    ensures shared { (e : TheEntry) → IsOfLog told ticket lits.now e → seat.new.me.0 ≡ with_part seat.old.me.0 (with_shared told e) }
    ensures written { result ≡ written + entry_size (length lits.now) }
{
    are_codes(lits);
    let pairs = (lits.len() + 1) / 2;
    let head = head_word(ticket, lits.len());
    store_word(board, seat, number, written, head);
    for i in 0..pairs {
        let word = pair_word(lits, i);
        store_word(board, seat, number, written + 1 + i as u32, word);
    }
    store_count(board, seat, number, written + 1 + pairs as u32);
    written + 1 + pairs as u32
}
