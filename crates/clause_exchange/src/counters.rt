ghost use Rattle.std.specs.Prelude.{◌≡◌, ℕ, ◌+◌, ◌*◌, ◌/◌, ◌<◌, ◌≤◌, ◌⊎◌, true, false, slice_index, slice_index_or};
ghost use Rattle.clause_exchange.specs.Counting.{AreNew, TakesOver};

/// What a seat counts at run time, for 16 numbers: which of them it has, how many words of each own
/// row are written, and for own number k and row j, at 16 * k + j, how many words it looked at and
/// how many it read.
#[derive(Drop)]
pub(crate) struct Counters {
    pub(crate) owns: [bool; 16],
    pub(crate) written: [u32; 16],
    pub(crate) looked: [u32; 256],
    pub(crate) loaded: [u32; 256],
}

/// The numbers but those from `from` up to `to`.
pub(crate) fn without(mut owns: [bool; 16], from: u32, to: u32) -> [bool; 16]
    requires order { from ≤ to }
    requires within { to ≤ 16 }
    ensures inside { (k : ℕ) → from ≤ k → k < to → slice_index_or result k false ≡ false }
    ensures before { (k : ℕ) → k < from → slice_index_or result k false ≡ slice_index_or owns k false }
    ensures behind { (k : ℕ) → to ≤ k → slice_index_or result k false ≡ slice_index_or owns k false }
{
    for k in from..to {
        owns[k as usize] = false;
    }
    owns
}

/// The least of the numbers.
pub(crate) fn first_number(owns: &[bool; 16]) -> u32
    requires { (k : ℕ) × (slice_index_or owns.now k false ≡ true) }
    ensures { slice_index_or owns.now result false ≡ true }
{
    for k in 0..16 {
        if owns[k as usize] {
            return k;
        }
    }
    0
}

/// Adds the other numbers.
pub(crate) fn add_numbers(ours: &mut [bool; 16], theirs: &[bool; 16])
    ensures kept { (k : ℕ) → slice_index_or ours.old k false ≡ true → slice_index_or ours.new k false ≡ true }
    ensures added { (k : ℕ) → slice_index_or theirs.now k false ≡ true → slice_index_or ours.new k false ≡ true }
    ensures only { (k : ℕ) → slice_index_or ours.new k false ≡ true → (slice_index_or ours.old k false ≡ true) ⊎ (slice_index_or theirs.now k false ≡ true) }
{
    for k in 0..16 {
        if theirs[k] {
            ours[k] = true;
        }
    }
}

/// Takes over the counts of the numbers that are not owned.
pub(crate) fn take_counts(ours: &mut [u32; 16], theirs: &[u32; 16], owns: &[bool; 16])
    ensures kept { (k : ℕ) → slice_index_or owns.now k false ≡ true → slice_index ours.new k ≡ slice_index ours.old k }
    ensures taken { (k : ℕ) → k < 16 → slice_index_or owns.now k false ≡ false → slice_index ours.new k ≡ slice_index theirs.now k }
{
    for k in 0..16 {
        if !owns[k] {
            ours[k] = theirs[k];
        }
    }
}

/// Takes over the counts of rows of the numbers that are not owned.
pub(crate) fn take_rows(ours: &mut [u32; 256], theirs: &[u32; 256], owns: &[bool; 16])
    ensures kept { (i : ℕ) → slice_index_or owns.now (i / 16) false ≡ true → slice_index ours.new i ≡ slice_index ours.old i }
    ensures taken { (i : ℕ) → i < 256 → slice_index_or owns.now (i / 16) false ≡ false → slice_index ours.new i ≡ slice_index theirs.now i }
{
    for i in 0..256 {
        if !owns[i / 16] {
            ours[i] = theirs[i];
        }
    }
}

impl Counters {
    /// The first so many numbers, which have counted nothing.
    pub(crate) fn new(workers: u32) -> Counters
        requires { workers ≤ 16 }
        ensures { AreNew workers result }
    {
        Counters {
            owns: without([true; 16], workers, 16),
            written: [0; 16],
            looked: [0; 256],
            loaded: [0; 256],
        }
    }

    /// Takes over what other counters have of the numbers that are theirs alone.
    pub(crate) fn take_over(&mut self, other: &Counters)
        ensures { TakesOver self.old other.now self.new }
    {
        take_counts(&mut self.written, &other.written, &self.owns);
        take_rows(&mut self.looked, &other.looked, &self.owns);
        take_rows(&mut self.loaded, &other.loaded, &self.owns);
        add_numbers(&mut self.owns, &other.owns);
    }
}
