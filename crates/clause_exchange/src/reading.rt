ghost use Rattle.std.specs.Prelude.{◌≡◌, ◌≢◌, ◌+◌, ◌*◌, ◌<◌, slice_index_or, ◌≤◌, length, take, All, Some, slice_get};
ghost use Rattle.cnf_problem.specs.Literals.{IsOver};
ghost use Rattle.clause_exchange.specs.declared.rule.Received.{Received as TheReceived};
ghost use Rattle.clause_exchange.specs.declared.rule.RowView.{RowView as TheRow};
ghost use Rattle.clause_exchange.specs.declared.rule.Part.{Part as ThePart};
ghost use Rattle.clause_exchange.specs.Spelling.{spelled, entry_size, IsPlain};
ghost use Rattle.clause_exchange.specs.Steps.{IsOne, IsAt, no_lit, with_part, with_row, with_loaded};

use crate::board::Board;
use crate::rule::{Token, View};
use crate::steps::load_word;
use cnf_problem::Lemma;
use dg_base::Lit;

/// An entry of another number's row: its first `len` literals are the lemma's.
#[derive(Drop)]
pub struct Shared {
    pub ticket: u32,
    pub worker: u32,
    pub len: u32,
    pub lits: [Lit; 32],
}

/// Loads the head word of the next entry of a row: its ticket, and how many literals it has.
fn load_head(board: &Board, seat: &mut Token, row: u32, loaded: u32) -> (u32, u32)
    ghost told: { (ThePart × TheRow) × TheReceived }
    requires same { seat.old.table_id ≡ board.now.table.shared.table_id }
    requires one { IsOne seat.old.me.0 told.0.0 }
    requires sizes { (seat.old.me.0.workers ≡ board.now.workers) × (seat.old.me.0.share_words ≡ board.now.share_words) }
    requires row { (slice_get told.0.0.rows row ≡ Some told.0.1) × (row < board.now.workers) }
    requires next { IsAt told.0.1 told.1 0 }
    requires loaded { loaded ≡ told.0.1.loaded }
    requires fits { length (spelled told.0.1.known) ≤ board.now.share_words }
    ensures same { seat.new.table_id ≡ seat.old.table_id }
    ensures slots { seat.new.me.1 ≡ seat.old.me.1 }
    ensures view { seat.new.me.0 ≡ with_part seat.old.me.0 (with_row told.0.0 row (with_loaded told.0.1 (loaded + 1))) }
    ensures entry { (result.0 ≡ told.1.ticket) × (result.1 ≡ length told.1.lits) }
    ensures few { result.1 ≤ 32 }
    ensures room { loaded + entry_size result.1 ≤ board.now.share_words }
    ensures plain { IsPlain told.1 }
    ensures over { All (IsOver seat.old.me.0.problem.vars) told.1.lits }
{
    let head = load_word(board, seat, row, loaded);
    ((head / 64) as u32, (head % 64) as u32)
}

/// Loads word `1 + i` of an entry: the codes of two literals.
fn load_pair(board: &Board, seat: &mut Token, row: u32, place: u32, i: u32) -> (u32, u32)
    ghost told: { (ThePart × TheRow) × TheReceived }
    requires same { seat.old.table_id ≡ board.now.table.shared.table_id }
    requires one { IsOne seat.old.me.0 told.0.0 }
    requires sizes { (seat.old.me.0.workers ≡ board.now.workers) × (seat.old.me.0.share_words ≡ board.now.share_words) }
    requires row { (slice_get told.0.0.rows row ≡ Some told.0.1) × (row < board.now.workers) }
    requires next { IsAt told.0.1 told.1 (1 + i) }
    requires within { 2 * i < length told.1.lits }
    requires place { (place ≡ told.0.1.loaded) × (place < board.now.share_words) }
    ensures same { seat.new.table_id ≡ seat.old.table_id }
    ensures slots { seat.new.me.1 ≡ seat.old.me.1 }
    ensures view { seat.new.me.0 ≡ with_part seat.old.me.0 (with_row told.0.0 row (with_loaded told.0.1 (place + 1))) }
    ensures first { result.0 ≡ (slice_index_or told.1.lits (2 * i) no_lit).0 }
    ensures second { 2 * i + 1 < length told.1.lits → result.1 ≡ (slice_index_or told.1.lits (2 * i + 1) no_lit).0 }
{
    let word = load_word(board, seat, row, place);
    ((word % 4294967296) as u32, (word / 4294967296) as u32)
}

/// Loads the next entry of another number's row, below the count that was seen. Answers how many words of the row are loaded then.
pub(crate) fn read_entry(
    board: &Board,
    seat: &mut Token,
    row: u32,
    loaded: u32,
    into: &mut Shared,
) -> u32
    ghost told: { (ThePart × TheRow) × TheReceived }
    requires same { seat.old.table_id ≡ board.now.table.shared.table_id }
    requires one { IsOne seat.old.me.0 told.0.0 }
    requires sizes { (seat.old.me.0.workers ≡ board.now.workers) × (seat.old.me.0.share_words ≡ board.now.share_words) }
    requires row { (slice_get told.0.0.rows row ≡ Some told.0.1) × (row < board.now.workers) }
    requires next { IsAt told.0.1 told.1 0 }
    requires loaded { loaded ≡ told.0.1.loaded }
    requires fits { length (spelled told.0.1.known) ≤ board.now.share_words }
    ensures same { seat.new.table_id ≡ seat.old.table_id }
    ensures slots { seat.new.me.1 ≡ seat.old.me.1 }
    ensures view { seat.new.me.0 ≡ with_part seat.old.me.0 (with_row told.0.0 row (with_loaded told.0.1 result)) }
    ensures loaded { result ≡ loaded + entry_size (length told.1.lits) }
    ensures ticket { (into.new.ticket ≡ told.1.ticket) × (into.new.worker ≡ row) }
    ensures len { (into.new.len ≡ length told.1.lits) × (into.new.len ≤ 32) }
    ensures lits { take into.new.len into.new.lits ≡ told.1.lits }
    ensures over { All (IsOver seat.old.me.0.problem.vars) told.1.lits }
{
    let (ticket, len) = load_head(board, seat, row, loaded);
    into.ticket = ticket;
    into.worker = row;
    into.len = len;
    let pairs = (len + 1) / 2;
    for i in 0..pairs {
        let (first, second) = load_pair(board, seat, row, loaded + 1 + i, i);
        into.lits[2 * i as usize] = Lit(first);
        into.lits[2 * i as usize + 1] = Lit(second);
    }
    loaded + 1 + pairs
}
