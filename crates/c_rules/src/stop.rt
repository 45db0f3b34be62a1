// Why a pass stops.
ghost use Rattle.std.specs.Prelude.{◌≡◌};
ghost use Rattle.c_rules.specs.Names.{or_else};

use dg_base::Place;
use std::alloc::AllocError;

/// Why a pass stops: a rule is broken, or there is no memory.
#[derive(Clone, Copy, Drop)]
pub enum Stop {
    /// A rule is broken at this place.
    Broken(Place),
    /// Want of memory.
    OutOfMemory,
}

impl From<AllocError> for Stop {
    ghost use Rattle.std.specs.Prelude.{◌≡◌};
    ghost use Rattle.c_rules.specs.declared.stop.Stop.TheVariants.{OutOfMemory};

    ghost from_gives = { λ _ e. e ≡ OutOfMemory };

    fn from(_: AllocError) -> Self {
        Stop::OutOfMemory
    }
}

/// The first of two places.
pub fn earlier(first: Option<Place>, second: Option<Place>) -> Option<Place>
    ensures { result ≡ or_else first second }
{
    first.or(second)
}
