ghost use Rattle.clause_exchange.specs.Rule.{Holds, first_view};

use atomic_table::TableRule;
use cnf_problem::{Lemma, Problem};
use dg_base::Lit;
use search_core::{Entry, Verdict};
use sqlite_items::Items;

/// What a row tells of an entry: its ticket and its literals, without the kind.
#[derive(Drop)]
pub struct Received {
    pub ticket: u32,
    pub lits: Items<Lit>,
}

/// What a number knows of another number's row: the entries below the count that it saw last, how many of their words it loaded, how long its own log was at that look, and how often it looked.
#[derive(Drop)]
pub struct RowView {
    pub known: Items<Received>,
    pub loaded: u32,
    pub log_then: u32,
    pub looks: u32,
}

/// What is kept of one number: the number, its log, the entries that it shared, the words that it stored behind them, what it knows of each row, the verdict that it saw last, the verdicts that it offered, and how often it loaded the verdict.
#[derive(Drop)]
pub struct Part {
    pub number: u32,
    pub log: Items<Entry>,
    pub shared: Items<Entry>,
    pub stored: Items<u64>,
    pub rows: Items<RowView>,
    pub seen: Option<Verdict>,
    pub offers: Items<Verdict>,
    pub loads: u32,
}

/// What a seat knows: the problem, the number of workers and of each row's words, what is kept of each of its numbers, the lemma that it is about to append, and the number at which it is about to be split. A spent seat was joined to another.
#[derive(Drop)]
pub struct View {
    pub problem: Problem,
    pub workers: u32,
    pub share_words: u32,
    pub parts: Items<Part>,
    pub announced: Option<Lemma>,
    pub cut: u32,
    pub spent: bool,
}

/// What the exchange is made for.
#[derive(Clone, Copy, Drop)]
pub struct Setup<'a> {
    pub problem: &'a Problem,
    pub workers: u32,
    pub share_words: u32,
}

#[derive(Drop)]
pub struct Law;

impl<'a> TableRule<Lemma, View, Setup<'a>> for Law {
    ghost holds = { Holds };

    ghost first = { first_view };
}

/// The right to step on the words of a table.
pub(crate) type Token = atomic_table::Seat<Lemma, View>;
