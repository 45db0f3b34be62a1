// The desk of the machine: std's files and standard output.
ghost use Rattle.std.specs.Prelude.{◌≡◌, [], None, vec_items};
ghost use Rattle.dg_base.specs.Outside.{Fetches, Told, no_faults};

use crate::faults::FaultLog;
use crate::{Bytes, Desk, LONGEST_FILE, Operation, Trouble};
use std::alloc::Global;
use std::fs;
use std::io::Read;
use std::rt::Files;

/// The machine's files and standard output. It tells no content: what the machine's files hold and
/// what a terminal shows is trusted, and not proved. Names are paths, as on the command line.
#[derive(Drop)]
pub struct HostDesk<'a, R: Files + Print> {
    rt: &'a R,
    alloc: Global,
    faults: FaultLog,
}

impl<'a, R: Files + Print> HostDesk<'a, R> {
    /// A desk on which nothing has failed yet.
    pub fn new(rt: &'a R, alloc: Global) -> HostDesk<'a, R>
        ensures { ⟦<HostDesk<'a, R> as Desk>⟧.faults result ≡ no_faults }
    {
        HostDesk {
            rt,
            alloc,
            faults: FaultLog::new(alloc),
        }
    }
}

// Reads what the reader has left to its end.
pub(crate) fn read_rest<F: Read>(reader: &mut F, into: &mut Vec<u8>) -> Result<(), Trouble>
    requires { into.old.items ≡ [] }
    ensures { Told (λ bytes. Fetches bytes into.new.items result) (F.remaining reader.old) }
{
    let mut chunk = [0u8; 4096];
    while into.len() <= LONGEST_FILE {
        let Ok(count) = reader.read(&mut chunk) else {
            return Err(Trouble::Failed);
        };
        if count == 0 {
            return Ok(());
        }
        into.extend_from_slice(&chunk[..count])?;
    }
    Err(Trouble::Long)
}

// The file's bytes.
fn read_file<R: Files>(rt: &R, alloc: Global, name: &str) -> Result<Bytes, Trouble> {
    let Ok(mut file) = fs::open(rt, name) else {
        return Err(Trouble::Failed);
    };
    let mut bytes = Vec::new(alloc);
    read_rest(&mut file, &mut bytes)?;
    Ok(Bytes::from_vec(bytes))
}

impl<'a, R: Files + Print> Desk for HostDesk<'a, R> {
    ghost files = { λ _. None };

    ghost printed = { λ _. None };

    ghost faults = { λ d. d.faults };

    fn fetch(&mut self, name: &str, into: &mut Bytes) -> Result<(), Trouble> {
        let failed_name = Bytes::from_slice(self.alloc, name.as_bytes())?;
        match read_file(self.rt, self.alloc, name) {
            Ok(bytes) => {
                *into = bytes;
                Ok(())
            }
            Err(Trouble::Failed) => {
                self.faults.note(Operation::Fetch, failed_name);
                Err(Trouble::Failed)
            }
            Err(trouble) => Err(trouble),
        }
    }

    fn keep(&mut self, name: &str, bytes: &[u8]) -> Result<(), Trouble> {
        let failed_name = Bytes::from_slice(self.alloc, name.as_bytes())?;
        match fs::write(self.rt, name, bytes) {
            Ok(()) => Ok(()),
            Err(_) => {
                self.faults.note(Operation::Keep, failed_name);
                Err(Trouble::Failed)
            }
        }
    }

    fn print(&mut self, bytes: &[u8]) -> Result<(), Trouble> {
        if bytes.is_empty() {
            return Ok(());
        }
        match self.rt.write_all(bytes) {
            Ok(()) => Ok(()),
            Err(_) => {
                let no_name = Bytes::new(self.alloc);
                self.faults.note(Operation::Print, no_name);
                Err(Trouble::Failed)
            }
        }
    }
}
