ghost use Rattle.std.specs.Prelude.{◌≡◌, ◌+◌, ◌*◌, ◌/◌, ◌<◌, ◌≤◌, Some, length, slice_get, Contains};
ghost use Rattle.clause_exchange.specs.Spelling.{spelled_lits, AreCodes};

use dg_base::Lit;

/// The word before the literals of an entry in a row: its ticket, and how many literals it has.
pub fn head_word(ticket: u32, lits: usize) -> u64
    requires { lits ≤ 32 }
    ensures { result ≡ 64 * ticket + lits }
{
    64 * ticket as u64 + lits as u64
}

/// The word that spells two literals of an entry, or its last one.
pub fn pair_word(lits: &[Lit], i: usize) -> u64
    requires { 2 * i < length lits.now }
    ensures { slice_get (spelled_lits lits.now) i ≡ Some result }
{
    let first = lits[2 * i].0 as u64;
    if 2 * i + 1 < lits.len() {
        first + 4294967296 * lits[2 * i + 1].0 as u64
    } else {
        first
    }
}

/// Each literal's code is below 2 ^ 32.
pub(crate) fn are_codes(lits: &[Lit])
    ensures { AreCodes lits.now }
{
    for i in 0..lits.len() {
        let _code = lits[i].0 as u64;
    }
}
