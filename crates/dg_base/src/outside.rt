// The desk: files and standard output, by what was asked of them.
ghost use Rattle.std.specs.Prelude.{◌≡◌, ◌≢◌, [], ℕ, List, Option, IsErrOf};
ghost use Rattle.dg_base.specs.declared.outside.Trouble.TheVariants.{Failed, Long, OutOfMemory};
ghost use Rattle.dg_base.specs.declared.outside.Operation.TheVariants.{Fetch, Keep, Print};
ghost use Rattle.dg_base.specs.declared.outside.FileEntry.{FileEntry};
ghost use Rattle.dg_base.specs.Outside.{Faults, HasCause, Told, Changes, Fetches, Keeps, Prints, contents};

use crate::Bytes;
use std::alloc::{AllocError, AllocFailed};

/// The longest file that is fetched, in bytes.
pub const LONGEST_FILE: usize = 67108864;

/// Why a desk's call is refused.
#[derive(Debug, Clone, Copy, PartialEq, Eq, Drop)]
pub enum Trouble {
    /// The outside failed.
    Failed,
    /// The file has more than `LONGEST_FILE` bytes.
    Long,
    /// Want of memory.
    OutOfMemory,
}

impl From<AllocError> for Trouble {
    ghost from_gives = { λ _ e. e ≡ OutOfMemory };

    fn from(_: AllocError) -> Self {
        Trouble::OutOfMemory
    }
}

impl<T: Drop> From<AllocFailed<T>> for Trouble {
    ghost from_gives = { λ _ e. e ≡ OutOfMemory };

    fn from(_: AllocFailed<T>) -> Self {
        Trouble::OutOfMemory
    }
}

impl From<crate::OutOfMemory> for Trouble {
    ghost from_gives = { λ _ e. e ≡ OutOfMemory };

    fn from(_: crate::OutOfMemory) -> Self {
        Trouble::OutOfMemory
    }
}

/// What a desk was asked for when it last failed.
#[derive(Debug, Clone, Copy, PartialEq, Eq, Drop)]
pub enum Operation {
    /// Nothing has failed yet.
    Nothing,
    /// A file was to be read.
    Fetch,
    /// A file was to be written.
    Keep,
    /// Bytes were to be printed.
    Print,
}

/// A file: its name and its bytes.
#[derive(Debug, Drop)]
pub struct FileEntry {
    pub name: Bytes,
    pub bytes: Bytes,
}

/// Files and standard output, with the faults that they had. What its files hold and what was
/// printed is told or not: the clauses on them hold where it is told.
pub trait Desk {
    /// The files; a name that is not among them stands for the empty file. None where it isn't told.
    ghost files: { Self → Option (List FileEntry) };

    /// What was printed so far. None where it isn't told.
    ghost printed: { Self → Option (List ℕ) };

    /// How often the outside failed, with the operation and the name of the last fault.
    ghost faults: { Self → Faults };

    /// Reads the file to its end into `into`. A file of more than `LONGEST_FILE` bytes is Long. After
    /// a refusal `into` is not to be used.
    fn fetch(&mut self, name: &str, into: &mut Bytes) -> Result<(), Trouble>
        requires { into.old ≡ [] }
        ensures fetched { Told (λ fs. Fetches (contents fs name.now) into.new result) (files self.old) }
        ensures files { files self.new ≡ files self.old }
        ensures printed { printed self.new ≡ printed self.old }
        ensures cause { HasCause Fetch name.now (faults self.old) (faults self.new) result };

    /// Makes these the bytes of the file. After a refusal it holds a prefix of them or what it held.
    fn keep(&mut self, name: &str, bytes: &[u8]) -> Result<(), Trouble>
        ensures kept { Changes (Keeps name.now bytes.now result) (files self.old) (files self.new) }
        ensures printed { printed self.new ≡ printed self.old }
        ensures never_long { result ≢ Err Long }
        ensures cause { HasCause Keep name.now (faults self.old) (faults self.new) result };

    /// Appends the bytes to standard output. Where that fails, a prefix of them was appended.
    fn print(&mut self, bytes: &[u8]) -> Result<(), Trouble>
        ensures printed { Changes (Prints bytes.now result) (printed self.old) (printed self.new) }
        ensures files { files self.new ≡ files self.old }
        ensures never_long { result ≢ Err Long }
        ensures not_for_nothing { result ≡ Err Failed → bytes.now ≢ [] }
        ensures cause { HasCause Print [] (faults self.old) (faults self.new) result };
}
