//! The actions of all threads, numbered from 0, thread by thread.

ghost use Rattle.std.specs.Prelude.{◌≡◌, ◌+◌, ◌^◌, ◌<◌, ◌≤◌, None, length, IfOk};
ghost use Rattle.consistency.specs.Numbering.{is_open, is_close, open_at, open_behind, thread_nodes, nodes_of, node_event, is_event, place_of, event_at, block_at};

use crate::ThreadActions;
use axiom_model::{Action, Event};
use dg_base::{List, OutOfMemory};
use std::alloc::Global;

/// An action, with its place and its block.
#[derive(Debug, Clone, Copy, Drop)]
pub(crate) struct Node {
    /// The handle of its thread.
    pub handle: u32,
    /// Its index in the thread.
    pub index: u32,
    /// What is done.
    pub action: Action,
    /// The number of the first action of its block.
    pub block: u32,
}

impl Node {
    /// The action's event.
    pub fn event(&self) -> Event
        ensures { result ≡ node_event self.now }
    {
        Event::At {
            handle: self.handle,
            index: self.index,
        }
    }

    /// Whether it is the action at the event.
    pub fn is(&self, event: &Event) -> bool
        ensures { result ≡ is_event self.now event.now }
    {
        match *event {
            Event::Initial => false,
            Event::At { handle, index } => self.handle == handle && self.index == index,
        }
    }
}

// Whether a section begins.
fn is_open(action: &Action) -> bool
    ensures { result ≡ is_open action.now }
{
    match action {
        Action::Open => true,
        _ => false,
    }
}

// Whether a section ends.
fn is_close(action: &Action) -> bool
    ensures { result ≡ is_close action.now }
{
    match action {
        Action::Close => true,
        _ => false,
    }
}

// Where the section opens that holds the action at the index, by where one is open before it.
fn open_at(section: Option<u32>, index: u32, action: &Action) -> Option<u32>
    ensures { result ≡ open_at section index action.now }
{
    match section {
        Some(first) => Some(first),
        None => if is_open(action) { Some(index) } else { None },
    }
}

// The nodes of a thread whose first action has this number.
fn thread_nodes(
    alloc: Global,
    thread: &ThreadActions,
    first: u32,
) -> Result<List<Node>, OutOfMemory>
    requires { first + length thread.now.actions < 2 ^ 32 }
    ensures { IfOk result (λ l. l ≡ thread_nodes thread.now.handle first None 0 thread.now.actions) }
{
    let mut nodes = List::new(alloc);
    let mut before: Option<u32> = None;
    let mut index: u32 = 0;
    for action in thread.actions.as_slice() {
        let section = open_at(before, index, action);
        nodes.push(Node {
            handle: thread.handle,
            index,
            action: *action,
            block: first + section.unwrap_or(index),
        })?;
        before = if is_close(action) { None } else { section };
        index += 1;
    }
    Ok(nodes)
}

/// The nodes of all threads. Want of memory also where there are more actions than a u32 counts.
pub(crate) fn numbered(alloc: Global, threads: &[ThreadActions]) -> Result<List<Node>, OutOfMemory>
    ensures fits { IfOk result (λ l. length l < 2 ^ 32) }
    ensures nodes { IfOk result (λ l. l ≡ nodes_of 0 threads.now) }
{
    let mut nodes = List::new(alloc);
    for thread in threads {
        let first = nodes.len();
        if thread.actions.len() > u32::MAX as usize - first {
            return Err(OutOfMemory);
        }
        nodes.append(thread_nodes(alloc, thread, first as u32)?)?;
    }
    Ok(nodes)
}

/// The number of an event; `Initial` has none.
pub(crate) fn place_of(nodes: &[Node], event: &Event) -> Option<u32>
    requires { length nodes.now < 2 ^ 32 }
    ensures { result ≡ place_of nodes.now event.now }
{
    let mut number: u32 = 0;
    for node in nodes {
        if node.is(event) {
            return Some(number);
        }
        number += 1;
    }
    None
}

/// The event with a number.
pub(crate) fn event_at(nodes: &[Node], number: u32) -> Event
    ensures { result ≡ event_at nodes.now number }
{
    match nodes.get(number as usize) {
        Some(node) => node.event(),
        None => Event::Initial,
    }
}

/// The number of the first action of the block of a number's action.
pub(crate) fn block_at(nodes: &[Node], number: u32) -> u32
    ensures { result ≡ block_at nodes.now number }
{
    match nodes.get(number as usize) {
        Some(node) => node.block,
        None => 0,
    }
}
