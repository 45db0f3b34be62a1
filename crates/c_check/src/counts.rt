// What parts of a thread come to.
ghost use Rattle.std.specs.Prelude.{◌≡◌};
ghost use Rattle.c_check.specs.Counts.{no_counts};
ghost use Rattle.c_check.specs.Capped.{capped_sums};

/// What a part of a thread comes to. Each number above 4294967295 is that number.
#[derive(Clone, Copy, Drop)]
pub struct Counts {
    /// The creates that it makes itself.
    pub creates: u32,
    /// The threads that it makes, and that those make.
    pub threads: u32,
    /// How many creations deep these lie.
    pub depth: u32,
    /// The most creates that one of these threads makes.
    pub most: u32,
    /// The accesses to shared cells, its own and theirs.
    pub accesses: u32,
    /// The weight, its own and theirs.
    pub weight: u32,
}

impl Counts {
    pub(crate) fn none() -> Counts
        ensures { result ≡ no_counts }
    {
        Counts {
            creates: 0,
            threads: 0,
            depth: 0,
            most: 0,
            accesses: 0,
            weight: 0,
        }
    }

    /// Two parts of one thread.
    #[tactic(auto, unfolding(crate::specs::Capped::capped_sums))]
    pub(crate) fn together(self, other: Counts) -> Counts
        ensures { result ≡ capped_sums.together self other }
    {
        Counts {
            creates: self.creates.saturating_add(other.creates),
            threads: self.threads.saturating_add(other.threads),
            depth: self.depth.max(other.depth),
            most: self.most.max(other.most),
            accesses: self.accesses.saturating_add(other.accesses),
            weight: self.weight.saturating_add(other.weight),
        }
    }

    /// A part that is run so many times.
    #[tactic(auto, unfolding(crate::specs::Capped::capped_sums))]
    pub(crate) fn times(self, count: u32) -> Counts
        ensures { result ≡ capped_sums.times count self }
    {
        Counts {
            creates: count.saturating_mul(self.creates),
            threads: count.saturating_mul(self.threads),
            depth: self.depth,
            most: self.most,
            accesses: count.saturating_mul(self.accesses),
            weight: count.saturating_mul(self.weight),
        }
    }

    /// A new thread that comes to this.
    #[tactic(auto, unfolding(crate::specs::Capped::capped_sums))]
    pub(crate) fn new_thread(self) -> Counts
        ensures { result ≡ capped_sums.new_thread self }
    {
        Counts {
            creates: 1,
            threads: self.threads.saturating_add(1),
            depth: self.depth.saturating_add(1),
            most: self.creates.max(self.most),
            accesses: self.accesses,
            weight: self.weight,
        }
    }

    /// So many accesses to shared cells.
    #[tactic(auto, unfolding(crate::specs::Capped::capped_sums))]
    pub(crate) fn of_accesses(accesses: u32) -> Counts
        ensures { result ≡ capped_sums.accesses accesses }
    {
        Counts {
            accesses,
            ..Counts::none()
        }
    }

    /// A weight.
    #[tactic(auto, unfolding(crate::specs::Capped::capped_sums))]
    pub(crate) fn of_weight(weight: u32) -> Counts
        ensures { result ≡ capped_sums.weight weight }
    {
        Counts {
            weight,
            ..Counts::none()
        }
    }
}
