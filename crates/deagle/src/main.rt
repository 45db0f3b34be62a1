// The program `deagle`: it gathers the words of the command line, takes the machine's desk, and ends
// with the status of `run`.
#![tactic(auto)]

use dg_base::{HostDesk, OpenGate, OutOfMemory, Words};
use dg_top::run;
use std::alloc::Global;
use std::process::ExitCode;
use std::rt::Env;
use std::{env, io};

// Why the words cannot be gathered.
enum WordsFault {
    // Want of memory.
    OutOfMemory,
    // The arguments cannot be read, as where a word is no UTF-8.
    Unreadable,
}

impl From<OutOfMemory> for WordsFault {
    fn from(_: OutOfMemory) -> Self {
        WordsFault::OutOfMemory
    }
}

impl From<io::Error> for WordsFault {
    fn from(error: io::Error) -> Self {
        match error.kind() {
            io::ErrorKind::OutOfMemory => WordsFault::OutOfMemory,
            _ => WordsFault::Unreadable,
        }
    }
}

fn gather<R: Env + AllocGlobal>(rt: &R, alloc: Global) -> Result<Words, WordsFault> {
    let mut words = Words::new(alloc)?;
    for word in env::args(rt)? {
        words.push(word.as_str())?;
    }
    Ok(words)
}

fn main(rt: HostRuntime) -> ExitCode {
    let alloc = rt.alloc();
    let status = match gather(&rt, alloc) {
        Ok(words) => {
            let mut desk = HostDesk::new(&rt, alloc);
            run(&rt, alloc, &words, &mut desk, &OpenGate)
        }
        Err(WordsFault::OutOfMemory) => 7,
        Err(WordsFault::Unreadable) => 8,
    };
    ExitCode::from(status)
}
