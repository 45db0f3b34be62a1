ghost use Rattle.std.specs.Prelude.{◌≡◌, [], ◌∷◌, option_map};
ghost use Rattle.trail_state.specs.Trails.{lit_of, reason as reason_in, level};
ghost use Rattle.trail_state.specs.Entries.{meaning};

use crate::reasons::Reason;
use dg_base::Lit;

// What made a literal true.
#[derive(Debug, Clone, Copy, PartialEq, Eq, Drop)]
pub enum Entry {
    Decision(Lit),
    Propagation(Lit, Reason),
}

impl Entry {
    pub fn lit(self) -> Lit
        ensures { result ≡ lit_of (meaning self) }
    {
        match self {
            Entry::Decision(lit) => lit,
            Entry::Propagation(lit, _) => lit,
        }
    }

    // The clause that forced the literal.
    pub fn reason(self) -> Option<Reason>
        ensures { option_map (λ r. r.0) result ≡ reason_in (meaning self) }
    {
        match self {
            Entry::Decision(_) => None,
            Entry::Propagation(_, reason) => Some(reason),
        }
    }

    // By how much it raises the level.
    pub fn rise(self) -> u32
        ensures { result ≡ level (meaning self ∷ []) }
    {
        match self {
            Entry::Decision(_) => 1,
            Entry::Propagation(..) => 0,
        }
    }
}

// The level at which a variable was assigned, and what forced it: nothing where it was decided.
#[derive(Debug, Clone, Copy, PartialEq, Eq, Drop)]
pub struct Origin {
    pub level: u32,
    pub reason: Option<Reason>,
}
