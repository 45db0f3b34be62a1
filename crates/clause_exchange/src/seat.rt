use crate::counters::Counters;
use crate::rule::Token;
use std::marker::Model;

/// The right to make the steps of some numbers on the words of an exchange, and what these numbers
/// did and saw so far. A seat has all numbers at first; `Exchange::split` cuts it in two and
/// `Exchange::join` puts two together. It is seen as the table that it steps on and its view.
#[derive(Drop)]
pub struct Seat {
    pub(crate) token: Token,
    // One of the seat's numbers.
    pub(crate) number: u32,
    pub(crate) counters: Counters,
}

impl Model for Seat {
    ghost use Rattle.std.specs.Prelude.{◌≡◌, []};
    ghost use Rattle.clause_exchange.specs.Seats.{SeatState, IsTied};

    ghost Value = { SeatState };

    ghost view = { λ s. record { table = s.token.table_id; view = s.token.me.0 } };

    ghost invariant = { λ s. IsTied s.token.me.0 s.number s.counters × (s.token.me.1 ≡ []) };
}
