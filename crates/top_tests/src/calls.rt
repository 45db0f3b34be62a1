// Calls of `run` by a line of words.
use dg_base::{Desk, MemDesk, OpenGate, Words};
use dg_top::run;
use std::alloc::Global;
use std::test::Fail;
use std::thread::Threads;

// The status of a run with the words of this line.
pub(crate) fn call<R: Threads + Sync + AllocGlobal, D: Desk>(
    rt: &R,
    desk: &mut D,
    line: &str,
) -> Result<u8, Fail> {
    let alloc = rt.alloc();
    let mut words = Words::new(alloc)?;
    for word in line.split(' ') {
        words.push(word)?;
    }
    Ok(run(rt, alloc, &words, desk, &OpenGate))
}

// A desk with one file.
pub(crate) fn desk_with(alloc: Global, name: &str, text: &str) -> Result<MemDesk, Fail> {
    let mut desk = MemDesk::new(alloc)?;
    desk.put(name, text.as_bytes())?;
    Ok(desk)
}

// These parts, one behind the other.
pub(crate) fn text(alloc: Global, parts: &[&str]) -> Result<Vec<u8>, Fail> {
    let mut all = Vec::new(alloc);
    for part in parts {
        all.extend_from_slice(part.as_bytes())?;
    }
    Ok(all)
}

// What a run leaves: its status, what it printed, and the bytes of one file.
#[derive(Drop)]
pub(crate) struct Left {
    pub(crate) status: u8,
    pub(crate) printed: String,
    pub(crate) kept: String,
}

fn string_of(alloc: Global, bytes: &[u8]) -> Result<String, Fail> {
    let mut made = String::new(alloc);
    if let Ok(text) = str::from_utf8(bytes) {
        made.push_str(text)?;
    }
    Ok(made)
}

// What a run with the words of this line leaves on a desk with these files; `kept` is the file of this name, empty where there is none.
pub(crate) fn leaves<R: Threads + Sync + AllocGlobal>(
    rt: &R,
    files: &[(&str, &str)],
    line: &str,
    name: &str,
) -> Result<Left, Fail> {
    let mut desk = MemDesk::new(rt.alloc())?;
    for (file, bytes) in files {
        desk.put(file, bytes.as_bytes())?;
    }
    let status = call(rt, &mut desk, line)?;
    Ok(Left {
        status,
        printed: string_of(rt.alloc(), desk.printed())?,
        kept: string_of(rt.alloc(), desk.file(name).unwrap_or(&[]))?,
    })
}
