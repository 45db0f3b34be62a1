ghost use Rattle.std.specs.Prelude.{◌≡◌, ◌+◌, ◌<◌, false};

use trail_state::luby;

// When a search looks at the other workers: after so many conflicts, by Luby's sequence, and before
// its log has 1024 entries more than at the last look.
#[derive(Debug, Drop)]
pub(crate) struct Pace {
    // How long the log was at the last look.
    pub(crate) since: u32,
    conflicts: u32,
    restarts: u32,
}

// Conflicts of the shortest run between two restarts.
const RUN: u32 = 64;

impl Pace {
    pub(crate) fn new() -> Pace
        ensures { result.since ≡ 0 }
    {
        Pace {
            since: 0,
            conflicts: 0,
            restarts: 0,
        }
    }

    // One more conflict.
    pub(crate) fn conflict(&mut self)
        ensures { self.new.since ≡ self.old.since }
    {
        self.conflicts = self.conflicts.saturating_add(1);
    }

    // A look, with a log of so many entries.
    pub(crate) fn looked(&mut self, entries: u32)
        ensures { self.new.since ≡ entries }
    {
        self.since = entries;
        self.conflicts = 0;
        self.restarts = self.restarts.saturating_add(1);
    }

    // Whether a look is due, where the log has so many entries and may get two more before the next
    // question.
    pub(crate) fn is_due(&self, entries: u32) -> bool
        ensures { result ≡ false → entries < self.now.since + 1022 }
    {
        let run = luby(self.restarts).saturating_mul(RUN);
        self.conflicts >= run || entries.saturating_sub(self.since) >= 1022
    }
}
