// A desk in memory, whose calls fail by a list.
ghost use Rattle.std.specs.Prelude.{◌≡◌, ◌∷◌, ◌++◌, [], ◌≢◌, IfOk, OnOk, OnErr, MatchOption, Some, None, Ok, Err, ◌||◌, ◌&&◌, not, nat_eq, length};
ghost use Rattle.std.specs.Option.{is_none};
ghost use Rattle.dg_base.specs.Outside.{Fetches, HasCause, Keeps, Prints, contents, file_in};
ghost use Rattle.dg_base.specs.declared.outside.Trouble.TheVariants.{Failed, Long};
ghost use Rattle.dg_base.specs.declared.outside.Operation.TheVariants.{Fetch, Keep, Print};
ghost use Rattle.dg_base.specs.MemState.{FailsWhere, KeepsAllButFiles, after, counted, next_fails, nothing_yet, printed_part};

use crate::faults::FaultLog;
use crate::{Bytes, Desk, HonestDesk, List, Operation, OutOfMemory, Trouble};
use std::alloc::Global;
use std::marker::Model;

/// A desk in memory, for tests. The calls of `Desk` count from 1, and those whose number was given
/// to `fail_at` fail.
#[derive(Debug, Drop)]
pub struct MemDesk {
    alloc: Global,
    desk: HonestDesk,
    faults: FaultLog,
    failing: List<u32>,
    calls: u32,
}

impl Model for MemDesk {
    ghost use Rattle.dg_base.specs.MemState.{MemState};

    ghost Value = { MemState };

    ghost view = { λ d. record { files = d.desk.files; printed = d.desk.printed; faults = d.faults; failing = d.failing; calls = d.calls } };
}

impl MemDesk {
    /// A desk without files, on which nothing was printed and nothing is to fail.
    pub fn new(alloc: Global) -> Result<MemDesk, OutOfMemory>
        ensures { IfOk result (λ desk. desk ≡ nothing_yet) }
    {
        Ok(MemDesk {
            alloc,
            desk: HonestDesk::new(alloc)?,
            faults: FaultLog::new(alloc),
            failing: List::new(alloc),
            calls: 0,
        })
    }

    /// Makes these the bytes of the file of this name. Without memory for it all is as before.
    pub fn put(&mut self, name: &str, bytes: &[u8]) -> Result<(), OutOfMemory>
        ensures ok { OnOk result (Keeps name.now bytes.now (Ok tt) self.old.files self.new.files) }
        ensures others { OnOk result (KeepsAllButFiles self.old self.new) }
        ensures err { OnErr result (self.new ≡ self.old) }
    {
        self.desk.put(name, bytes)
    }

    /// Makes the call of this number fail; the calls of `Desk` count from 1.
    pub fn fail_at(&mut self, call: u32) -> Result<(), OutOfMemory>
        ensures ok { OnOk result (self.new ≡ record self.old { failing = self.old.failing ++ call ∷ [] }) }
        ensures err { OnErr result (self.new ≡ self.old) }
    {
        self.failing.push(call)?;
        Ok(())
    }

    /// The bytes of the file of this name. None exactly where there is no such file.
    pub fn file(&self, name: &str) -> Option<&[u8]>
        ensures { MatchOption result (file_in self.now.files name.now ≡ None) (λ bytes. file_in self.now.files name.now ≡ Some bytes.now) }
    {
        self.desk.file(name)
    }

    /// What was printed so far.
    pub fn printed(&self) -> &[u8]
        ensures { result.now ≡ self.now.printed }
    {
        self.desk.printed()
    }

    // Counts a call, up to the type's end, and answers whether it is to fail.
    fn begins_to_fail(&mut self) -> bool
        ensures count { self.new ≡ counted self.old }
        ensures fails { result ≡ next_fails self.old }
    {
        self.calls = self.calls.saturating_add(1);
        self.failing.as_slice().contains(&self.calls)
    }
}

impl Desk for MemDesk {
    ghost files = { λ d. Some d.files };

    ghost printed = { λ d. Some d.printed };

    ghost faults = { λ d. d.faults };

    // An unknown name fails, too.
    fn fetch(&mut self, name: &str, into: &mut Bytes) -> Result<(), Trouble>
        requires { into.old ≡ [] }
        ensures fetched { Fetches (contents self.old.files name.now) into.new result }
        ensures files { self.new.files ≡ self.old.files }
        ensures printed { self.new.printed ≡ self.old.printed }
        ensures cause { HasCause Fetch name.now self.old.faults self.new.faults result }
        ensures fails { FailsWhere (next_fails self.old || is_none (file_in self.old.files name.now)) result }
        ensures after { self.new ≡ after Fetch name.now self.old result }
    {
        let fails = self.begins_to_fail();
        let failed_name = Bytes::from_slice(self.alloc, name.as_bytes())?;
        if fails || self.desk.file(name).is_none() {
            self.faults.note(Operation::Fetch, failed_name);
            return Err(Trouble::Failed);
        }
        self.desk.fetch(name, into)
    }

    // A call that is refused changes no file.
    fn keep(&mut self, name: &str, bytes: &[u8]) -> Result<(), Trouble>
        ensures kept { Keeps name.now bytes.now result self.old.files self.new.files }
        ensures printed { self.new.printed ≡ self.old.printed }
        ensures never_long { result ≢ Err Long }
        ensures cause { HasCause Keep name.now self.old.faults self.new.faults result }
        ensures err { OnErr result (self.new.files ≡ self.old.files) }
        ensures fails { FailsWhere (next_fails self.old) result }
        ensures after { self.new ≡ record (after Keep name.now self.old result) { files = self.new.files } }
    {
        if self.begins_to_fail() {
            let failed_name = Bytes::from_slice(self.alloc, name.as_bytes())?;
            self.faults.note(Operation::Keep, failed_name);
            return Err(Trouble::Failed);
        }
        self.desk.keep(name, bytes)
    }

    // A call that fails appends the first half of the bytes, rounded down. A print of no bytes
    // never fails.
    fn print(&mut self, bytes: &[u8]) -> Result<(), Trouble>
        ensures printed { Prints bytes.now result self.old.printed self.new.printed }
        ensures files { self.new.files ≡ self.old.files }
        ensures never_long { result ≢ Err Long }
        ensures not_for_nothing { result ≡ Err Failed → bytes.now ≢ [] }
        ensures cause { HasCause Print [] self.old.faults self.new.faults result }
        ensures fails { FailsWhere (next_fails self.old && not (nat_eq (length bytes.now) 0)) result }
        ensures after { self.new ≡ record (after Print [] self.old result) { printed = self.old.printed ++ printed_part bytes.now result } }
    {
        if self.begins_to_fail() && !bytes.is_empty() {
            self.desk.print(&bytes[..bytes.len() / 2])?;
            let no_name = Bytes::new(self.alloc);
            self.faults.note(Operation::Print, no_name);
            return Err(Trouble::Failed);
        }
        self.desk.print(bytes)
    }
}
