// A desk in memory whose outside never fails.
ghost use Rattle.std.specs.Prelude.{◌≡◌, ◌∷◌, ◌++◌, [], ◌≢◌, IfOk, OnOk, OnErr, MatchOption, position, Some, None, Ok, Err};
ghost use Rattle.dg_base.specs.Outside.{Fetches, Keeps, Prints, contents, file_in, no_faults};
ghost use Rattle.dg_base.specs.declared.outside.Trouble.TheVariants.{Failed, Long};
ghost use Rattle.dg_base.specs.MemState.{empty_desk, is_named};

use crate::{Bytes, Desk, FileEntry, LONGEST_FILE, List, OutOfMemory, Trouble};
use std::alloc::{AllocError, Global};
use std::marker::Model;

/// A desk in memory whose outside never fails: it counts no fault, so that no call answers
/// `Failed`. A name that it does not hold stands for the empty file.
#[derive(Debug, Drop)]
pub struct HonestDesk {
    alloc: Global,
    files: List<FileEntry>,
    printed: Vec<u8>,
}

impl Model for HonestDesk {
    ghost use Rattle.dg_base.specs.MemState.{HonestState};

    ghost Value = { HonestState };

    ghost view = { λ d. record { files = d.files; printed = d.printed.items } };
}

impl HonestDesk {
    /// A desk without files, on which nothing was printed.
    pub fn new(alloc: Global) -> Result<HonestDesk, OutOfMemory>
        ensures { IfOk result (λ desk. desk ≡ empty_desk) }
    {
        Ok(HonestDesk {
            alloc,
            files: List::new(alloc),
            printed: Vec::new(alloc),
        })
    }

    /// Makes these the bytes of the file of this name. Without memory for it all is as before.
    pub fn put(&mut self, name: &str, bytes: &[u8]) -> Result<(), OutOfMemory>
        ensures ok { OnOk result (Keeps name.now bytes.now (Ok tt) self.old.files self.new.files) }
        ensures printed { self.new.printed ≡ self.old.printed }
        ensures err { OnErr result (self.new ≡ self.old) }
    {
        let name = Bytes::from_slice(self.alloc, name.as_bytes())?;
        let bytes = Bytes::from_slice(self.alloc, bytes)?;
        store(&mut self.files, name, bytes)?;
        Ok(())
    }

    /// The bytes of the file of this name. None exactly where there is no such file.
    #[tactic(auto, using(crate::proofs::Files::found_there, crate::proofs::Files::found_nowhere))]
    pub fn file(&self, name: &str) -> Option<&[u8]>
        ensures { MatchOption result (file_in self.now.files name.now ≡ None) (λ bytes. file_in self.now.files name.now ≡ Some bytes.now) }
    {
        let at = find(self.files.as_slice(), name.as_bytes())?;
        Some(self.files.as_slice()[at].bytes.as_slice())
    }

    /// What was printed so far.
    pub fn printed(&self) -> &[u8]
        ensures { result.now ≡ self.now.printed }
    {
        self.printed.as_slice()
    }
}

// The place of the first file of this name.
fn find(files: &[FileEntry], name: &[u8]) -> Option<usize>
    ensures { result ≡ position (is_named name.now) files.now }
{
    files.iter().position(|file| file.name.as_slice() == name)
}

// Makes these the bytes of the file of this name.
fn store(files: &mut List<FileEntry>, name: Bytes, bytes: Bytes) -> Result<(), AllocError>
    ensures ok { OnOk result (Keeps name bytes (Ok tt) files.old files.new) }
    ensures err { OnErr result (files.new ≡ files.old) }
{
    match find(files.as_slice(), name.as_slice()) {
        Some(at) => {
            files.set(at, FileEntry { name, bytes });
            Ok(())
        }
        None => files.push(FileEntry { name, bytes }),
    }
}

// Copies a file of at most `LONGEST_FILE` bytes.
fn copy(alloc: Global, bytes: &[u8], into: &mut Bytes) -> Result<(), Trouble>
    ensures fetched { Fetches bytes.now into.new result }
    ensures not_failed { result ≢ Err Failed }
{
    if bytes.len() > LONGEST_FILE {
        return Err(Trouble::Long);
    }
    *into = Bytes::from_slice(alloc, bytes)?;
    Ok(())
}

impl Desk for HonestDesk {
    ghost files = { λ d. Some d.files };

    ghost printed = { λ d. Some d.printed };

    ghost faults = { λ _. no_faults };

    fn fetch(&mut self, name: &str, into: &mut Bytes) -> Result<(), Trouble>
        requires { into.old ≡ [] }
        ensures fetched { Fetches (contents self.old.files name.now) into.new result }
        ensures same { self.new ≡ self.old }
        ensures never_failed { result ≢ Err Failed }
    {
        match self.file(name) {
            Some(bytes) => copy(self.alloc, bytes, into),
            None => Ok(()),
        }
    }

    // A call that is refused changes nothing.
    fn keep(&mut self, name: &str, bytes: &[u8]) -> Result<(), Trouble>
        ensures ok { OnOk result (Keeps name.now bytes.now (Ok tt) self.old.files self.new.files) }
        ensures printed { self.new.printed ≡ self.old.printed }
        ensures err { OnErr result (self.new ≡ self.old) }
        ensures never_failed { result ≢ Err Failed }
        ensures never_long { result ≢ Err Long }
    {
        self.put(name, bytes)?;
        Ok(())
    }

    fn print(&mut self, bytes: &[u8]) -> Result<(), Trouble>
        ensures printed { Prints bytes.now result self.old.printed self.new.printed }
        ensures files { self.new.files ≡ self.old.files }
        ensures never_failed { result ≢ Err Failed }
        ensures never_long { result ≢ Err Long }
    {
        self.printed.extend_from_slice(bytes)?;
        Ok(())
    }
}
