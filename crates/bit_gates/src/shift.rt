// Shifts by a word's low five bits, in five steps.
ghost use Rattle.std.specs.Prelude.{◌≡◌, ◌*◌, ◌/◌, ◌%◌, ◌^◌, ◌<◌, IfOk, if◌then◌else◌};
ghost use Rattle.cnf_problem.specs.Literals.{value, IsOver};
ghost use Rattle.bit_gates.specs.Words.{number, filled_shift, IsWordOver, IsWordGate};

use crate::Word;
use crate::choice::choose_word;
use crate::words::{moved_down, moved_up};
use cnf_problem::Gates;
use dg_base::{Lit, OutOfMemory};

/// The word times a power of two, modulo 2^32, by the amount modulo 32.
pub fn shift_left(gates: &mut Gates, a: &Word, amount: &Word) -> Result<Word, OutOfMemory>
    requires first { IsWordOver gates.old.vars a.now }
    requires second { IsWordOver gates.old.vars amount.now }
    ensures { IfOk result (λ w. IsWordGate gates.old gates.new w (λ s. (number s a.now * 2 ^ (number s amount.now % 32)) % 2 ^ 32)) }
{
    let no = gates.constant(false);
    let mut word = *a;
    let mut places = 1;
    for j in 0..5 {
        let moved = moved_up(&word, places, no);
        word = choose_word(gates, amount[j], &moved, &word)?;
        places *= 2;
    }
    Ok(word)
}

/// The word moved down by the amount modulo 32, with the literal in the places above.
pub fn shift_right(
    gates: &mut Gates,
    a: &Word,
    amount: &Word,
    fill: Lit,
) -> Result<Word, OutOfMemory>
    requires first { IsWordOver gates.old.vars a.now }
    requires second { IsWordOver gates.old.vars amount.now }
    requires third { IsOver gates.old.vars fill }
    ensures { IfOk result (λ w. IsWordGate gates.old gates.new w (λ s. filled_shift (value s fill) (number s a.now) (number s amount.now % 32))) }
{
    let mut word = *a;
    let mut places = 1;
    for j in 0..5 {
        let lower = moved_down(&word, places, fill);
        word = choose_word(gates, amount[j], &lower, &word)?;
        places *= 2;
    }
    Ok(word)
}
