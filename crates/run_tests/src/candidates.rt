// Candidates as words: `T` with handle, function, argument and the numbers of the script; `R` with a reader and its
// source; `C` with the events of a cell's list. An event is `handle.index`, or `-` for the initial writes.
use axiom_model::{Candidate, Event, RfPair, ThreadPart};
use dg_base::List;
use std::alloc::Global;
use std::test::Fail;

fn event(text: &str) -> Result<Event, Fail> {
    match text.split_once('.') {
        None => Ok(Event::Initial),
        Some((handle, index)) => Ok(Event::At {
            handle: handle.parse::<u32>()?,
            index: index.parse::<u32>()?,
        }),
    }
}

fn numbers(alloc: Global, text: &str) -> Result<List<u32>, Fail> {
    let mut list = List::new(alloc);
    for word in text.split(',') {
        list.push(word.parse::<u32>()?)?;
    }
    Ok(list)
}

fn thread(alloc: Global, text: &str) -> Result<ThreadPart, Fail> {
    let (head, script) = text.split_once(':').ok_or("no script")?;
    let head = numbers(alloc, head)?;
    let script = if script.is_empty() {
        List::new(alloc)
    } else {
        numbers(alloc, script)?
    };
    match head.as_slice() {
        [handle, function, arg] => Ok(ThreadPart {
            handle: *handle,
            function: *function,
            arg: *arg,
            script,
        }),
        _ => Err("no thread".into()),
    }
}

fn order(alloc: Global, text: &str) -> Result<List<Event>, Fail> {
    let mut list = List::new(alloc);
    for word in text.split(',') {
        list.push(event(word)?)?;
    }
    Ok(list)
}

/// The candidate of a text.
pub fn candidate(alloc: Global, text: &str) -> Result<Candidate, Fail> {
    let mut candidate = Candidate {
        threads: List::new(alloc),
        rf: List::new(alloc),
        co: List::new(alloc),
    };
    for word in text.split(' ') {
        if let Some(rest) = word.strip_prefix("T") {
            candidate.threads.push(thread(alloc, rest)?)?;
        } else if let Some(rest) = word.strip_prefix("C") {
            candidate.co.push(order(alloc, rest)?)?;
        } else if let Some(rest) = word.strip_prefix("R") {
            let (reader, source) = rest.split_once(',').ok_or("no source")?;
            candidate.rf.push(RfPair {
                reader: event(reader)?,
                source: event(source)?,
            })?;
        }
    }
    Ok(candidate)
}
