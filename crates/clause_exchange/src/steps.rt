ghost use Rattle.std.specs.Prelude.{List, ◌++◌, ◌≡◌, ◌≢◌, ◌+◌, ◌*◌, ◌<◌, ◌≤◌, [], ◌∷◌, Some, false, length, slice_get, All, Contains};
ghost use mathlib.Core.List.{IsPrefix};
ghost use Rattle.cnf_problem.specs.Literals.{IsOver};
ghost use Rattle.search_core.specs.declared.Entry.{Entry as TheEntry};
ghost use Rattle.clause_exchange.specs.declared.rule.Received.{Received as TheReceived};
ghost use Rattle.clause_exchange.specs.declared.rule.RowView.{RowView as TheRow};
ghost use Rattle.clause_exchange.specs.declared.rule.Part.{Part as ThePart};
ghost use Rattle.clause_exchange.specs.Spelling.{spelled, IsPlain};
ghost use Rattle.clause_exchange.specs.Rule.{row_words, row_start, verdict_of};
ghost use Rattle.clause_exchange.specs.Steps.{Announces, Cuts, Agrees, Appends, Looks, Loads, Stores, Shares, Sees, Offers, MayAppend, MayOffer, seeing, offering, offered_to, code_of, MayShare, IsOne, IsAbove, with_part, with_entry, with_row, with_word, with_shared, looked_at, loaded_more};
ghost use Rattle.clause_exchange.specs.Splits.{left_of, right_of, joined, spent_view, with_parts, below, from_on};

use crate::board::Board;
use crate::rule::{Token, View};
use crate::verdicts::verdict_code;
use atomic_table::{Join, Play, Split};
use cnf_problem::Lemma;
use search_core::Verdict;

pub struct Announce;

impl Play<Lemma, View> for Announce {
    ghost then = { Announces };
}

pub struct Cut;

impl Play<Lemma, View> for Cut {
    ghost then = { Cuts };
}

pub struct Agree;

impl Play<Lemma, View> for Agree {
    ghost then = { Agrees };
}

pub struct Append;

impl Play<Lemma, View> for Append {
    ghost then = { Appends };
}

pub struct Look;

impl Play<Lemma, View> for Look {
    ghost then = { Looks };
}

pub struct Load;

impl Play<Lemma, View> for Load {
    ghost then = { Loads };
}

pub struct Store;

impl Play<Lemma, View> for Store {
    ghost then = { Stores };
}

pub struct Share;

impl Play<Lemma, View> for Share {
    ghost then = { Shares };
}

pub struct See;

impl Play<Lemma, View> for See {
    ghost then = { Sees };
}

pub struct Offer;

impl Play<Lemma, View> for Offer {
    ghost then = { Offers };
}

pub struct Halves;

impl Split<View> for Halves {
    ghost left = { left_of };

    ghost right = { right_of };
}

pub struct Both;

impl Join<View> for Both {
    ghost both = { joined };

    ghost spent = { spent_view };
}

/// The seat keeps the lemma that it is about to append. The verdict's word is never 3, so the step
/// changes no word.
fn tell_lemma(board: &Board, seat: &mut Token, lemma: &Lemma)
    requires same { seat.old.table_id ≡ board.now.table.shared.table_id }
    requires live { seat.old.me.0.spent ≡ false }
    ensures same { seat.new.table_id ≡ seat.old.table_id }
    ensures slots { seat.new.me.1 ≡ seat.old.me.1 }
    ensures announced { seat.new.me.0 ≡ record seat.old.me.0 { announced = Some lemma.now } }
{
    let _found = board
        .table
        .shared
        .compare_exchange_with::<Announce>(seat, 1, 3, 3, lemma);
}

/// Draws a ticket for a lemma: the log ends with its entry.
pub(crate) fn append_lemma(board: &Board, seat: &mut Token, lemma: &Lemma) -> u64
    ghost told: { ThePart }
    requires same { seat.old.table_id ≡ board.now.table.shared.table_id }
    requires may { MayAppend board.now.table.shared.key.problem.now seat.old.me.0 told lemma.now }
    ensures same { seat.new.table_id ≡ seat.old.table_id }
    ensures slots { seat.new.me.1 ≡ seat.old.me.1 }
    ensures small { result ≤ 16000016 }
    ensures fresh { IsAbove result told.log }
    ensures log { seat.new.me.0 ≡ with_part seat.old.me.0 (with_entry told result lemma.now) }
{
    tell_lemma(board, seat, lemma);
    board.table.shared.fetch_add::<Append>(seat, 0, 1)
}

/// Loads the count of another number's row.
pub(crate) fn load_count(board: &Board, seat: &mut Token, row: u32) -> u64
    ghost told: { ThePart × TheRow }
    requires same { seat.old.table_id ≡ board.now.table.shared.table_id }
    requires one { IsOne seat.old.me.0 told.0 }
    requires row { slice_get told.0.rows row ≡ Some told.1 }
    requires within { row < board.now.workers }
    requires other { row ≢ told.0.number }
    ensures same { seat.new.table_id ≡ seat.old.table_id }
    ensures slots { seat.new.me.1 ≡ seat.old.me.1 }
    ensures known { (known : List TheReceived) × (result ≡ length (spelled known)) × (result ≤ seat.old.me.0.share_words) × IsPrefix told.1.known known × (seat.new.me.0 ≡ with_part seat.old.me.0 (with_row told.0 row (looked_at told.1 known (length told.0.log)))) }
{
    board.table.shared.load::<Look>(seat, 2 + row as usize)
}

/// Loads the next word of another number's row, below the count that was seen.
pub(crate) fn load_word(board: &Board, seat: &mut Token, row: u32, place: u32) -> u64
    ghost told: { ThePart × TheRow }
    requires same { seat.old.table_id ≡ board.now.table.shared.table_id }
    requires one { IsOne seat.old.me.0 told.0 }
    requires sizes { (seat.old.me.0.workers ≡ board.now.workers) × (seat.old.me.0.share_words ≡ board.now.share_words) }
    requires row { slice_get told.0.rows row ≡ Some told.1 }
    requires within { row < board.now.workers }
    requires next { place ≡ told.1.loaded }
    requires below { told.1.loaded < length (spelled told.1.known) }
    requires inside { place < board.now.share_words }
    ensures same { seat.new.table_id ≡ seat.old.table_id }
    ensures slots { seat.new.me.1 ≡ seat.old.me.1 }
    ensures word { slice_get (spelled told.1.known) told.1.loaded ≡ Some result }
    ensures plain { (h : TheReceived) → Contains told.1.known h → IsPlain h }
    ensures over { (h : TheReceived) → Contains told.1.known h → All (IsOver seat.old.me.0.problem.vars) h.lits }
    ensures loaded { seat.new.me.0 ≡ with_part seat.old.me.0 (with_row told.0 row (loaded_more told.1)) }
{
    board
        .table
        .shared
        .load::<Load>(seat, board.place(row, place))
}

/// Stores a word behind the own row.
pub(crate) fn store_word(board: &Board, seat: &mut Token, number: u32, written: u32, word: u64)
    ghost told: { ThePart }
    requires same { seat.old.table_id ≡ board.now.table.shared.table_id }
    requires one { IsOne seat.old.me.0 told }
    requires sizes { (seat.old.me.0.workers ≡ board.now.workers) × (seat.old.me.0.share_words ≡ board.now.share_words) }
    requires number { number ≡ told.number }
    requires within { number < board.now.workers }
    requires next { written ≡ length (row_words told) }
    requires room { written < board.now.share_words }
    ensures same { seat.new.table_id ≡ seat.old.table_id }
    ensures slots { seat.new.me.1 ≡ seat.old.me.1 }
    ensures stored { seat.new.me.0 ≡ with_part seat.old.me.0 (with_word told word) }
{
    board
        .table
        .shared
        .store::<Store>(seat, board.place(number, written), word);
}

/// Raises the own count: the entry whose words were stored is shared.
pub(crate) fn store_count(board: &Board, seat: &mut Token, number: u32, written: u32)
    ghost told: { ThePart }
    requires same { seat.old.table_id ≡ board.now.table.shared.table_id }
    requires may { (e : TheEntry) × MayShare seat.old.me.0 told e }
    requires number { number ≡ told.number }
    requires within { number < board.now.workers }
    requires all { written ≡ length (row_words told) }
    ensures same { seat.new.table_id ≡ seat.old.table_id }
    ensures slots { seat.new.me.1 ≡ seat.old.me.1 }
    ensures shared { (e : TheEntry) → MayShare seat.old.me.0 told e → seat.new.me.0 ≡ with_part seat.old.me.0 (with_shared told e) }
{
    board
        .table
        .shared
        .store::<Share>(seat, 2 + number as usize, written as u64);
}

/// Splits a seat: the new one has the numbers from `at` on.
pub(crate) fn split_at(board: &Board, seat: &mut Token, at: u32) -> Token
    requires same { seat.old.table_id ≡ board.now.table.shared.table_id }
    requires live { seat.old.me.0.spent ≡ false }
    requires within { at < board.now.workers }
    ensures same { (seat.new.table_id ≡ seat.old.table_id) × (result.table_id ≡ seat.old.table_id) }
    ensures slots { (seat.new.me.1 ≡ seat.old.me.1) × (result.me.1 ≡ []) }
    ensures left { seat.new.me.0 ≡ with_parts seat.old.me.0 (below at seat.old.me.0.parts) }
    ensures right { result.me.0 ≡ with_parts seat.old.me.0 (from_on at seat.old.me.0.parts) }
{
    let _found = board.table.shared.load::<Cut>(seat, at as usize);
    board.table.shared.split_seat::<Halves>(seat)
}

/// Joins two seats: the first has the numbers of both.
pub(crate) fn join_with(board: &Board, seat: &mut Token, other: Token)
    requires same { (seat.old.table_id ≡ board.now.table.shared.table_id) × (other.table_id ≡ board.now.table.shared.table_id) }
    requires live { (seat.old.me.0.spent ≡ false) × (other.me.0.spent ≡ false) }
    requires slots { other.me.1 ≡ [] }
    ensures same { seat.new.table_id ≡ seat.old.table_id }
    ensures slots { seat.new.me.1 ≡ seat.old.me.1 }
    ensures joined { seat.new.me.0 ≡ with_parts seat.old.me.0 (seat.old.me.0.parts ++ other.me.0.parts) }
{
    board.table.shared.join_seat::<Both>(seat, other);
}

/// The seat keeps of no number two different things. The load changes nothing.
pub(crate) fn tell_numbers(board: &Board, seat: &mut Token)
    requires same { seat.old.table_id ≡ board.now.table.shared.table_id }
    requires live { seat.old.me.0.spent ≡ false }
    ensures same { seat.new.table_id ≡ seat.old.table_id }
    ensures slots { seat.new.me.1 ≡ seat.old.me.1 }
    ensures view { seat.new.me.0 ≡ seat.old.me.0 }
    ensures agree { (a b : ThePart) → Contains seat.old.me.0.parts a → Contains seat.old.me.0.parts b → a.number ≡ b.number → a ≡ b }
{
    let _found = board.table.shared.load::<Agree>(seat, 0);
}

/// Loads the verdict's word.
pub(crate) fn load_verdict(board: &Board, seat: &mut Token) -> u64
    ghost told: { ThePart }
    requires same { seat.old.table_id ≡ board.now.table.shared.table_id }
    requires one { IsOne seat.old.me.0 told }
    ensures same { seat.new.table_id ≡ seat.old.table_id }
    ensures slots { seat.new.me.1 ≡ seat.old.me.1 }
    ensures small { result < 3 }
    ensures seen { seat.new.me.0 ≡ with_part seat.old.me.0 (seeing told (verdict_of result)) }
{
    board.table.shared.load::<See>(seat, 1)
}

/// Offers a verdict. Answers the word found.
pub(crate) fn offer_verdict(board: &Board, seat: &mut Token, verdict: Verdict) -> u64
    ghost told: { ThePart }
    requires same { seat.old.table_id ≡ board.now.table.shared.table_id }
    requires may { MayOffer board.now.table.shared.key.problem.now seat.old.me.0 told verdict }
    ensures same { seat.new.table_id ≡ seat.old.table_id }
    ensures slots { seat.new.me.1 ≡ seat.old.me.1 }
    ensures small { result < 3 }
    ensures offered { seat.new.me.0 ≡ with_part seat.old.me.0 (offering told verdict (verdict_of (offered_to result (code_of verdict)))) }
{
    let code = verdict_code(verdict);
    board
        .table
        .shared
        .compare_exchange::<Offer>(seat, 1, 0, code)
}
