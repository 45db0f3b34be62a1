//! The threads: the instances that run.

ghost use Rattle.std.specs.Prelude.{◌≡◌, ℕ, ◌∷◌, ◌++◌, [], Option, Some, None, length, slice_get, IfOk, OnOk};
ghost use Rattle.encode_match.specs.Spelling.{starts, script_in};
ghost use Rattle.decode.specs.Tables.{AreHandles, handle_by, thread_of, threads_with};

use crate::values::{truth, word_number};
use axiom_model::ThreadPart;
use dg_base::{List, OutOfMemory};
use encode_match::{PartMap, Taken};
use memory_models::{EventBits, StaticEvent, StaticKind};
use std::alloc::Global;

// So many instances of which none is known to run.
fn no_handles(alloc: Global, count: usize) -> Result<List<Option<u32>>, OutOfMemory>
    ensures counted { IfOk result (λ handles. length handles ≡ count) }
    ensures none { IfOk result (λ handles. (i : ℕ) → (h : Option ℕ) → slice_get handles i ≡ Some h → h ≡ None) }
{
    let mut handles = List::new(alloc);
    while handles.len() < count {
        handles.push(None)?;
    }
    Ok(handles)
}

// Whether the event is the start of a thread that runs.
fn is_running_start(truths: &[bool], event: &StaticEvent) -> bool
    ensures { result ≡ starts truths.now event.now.instance event.now }
{
    matches!(event.kind, StaticKind::Start) && truth(truths, event.guard)
}

// Notes the handle of an instance that runs, where the event is its start.
fn note_handle(
    handles: &mut List<Option<u32>>,
    truths: &[bool],
    event: &StaticEvent,
    bits: &EventBits,
)
    ensures counted { length handles.new ≡ length handles.old }
    ensures each { (i : ℕ) → (h : Option ℕ) → slice_get handles.old i ≡ Some h → slice_get handles.new i ≡ Some (handle_by truths.now i event.now bits.now h) }
{
    let instance = event.instance as usize;
    if instance < handles.len() && is_running_start(truths, event) {
        handles.set(instance, Some(word_number(truths, &bits.bits)));
    }
}

/// For each of so many instances its handle, where it runs.
pub(crate) fn handles(
    alloc: Global,
    truths: &[bool],
    events: &[StaticEvent],
    bits: &[EventBits],
    count: usize,
) -> Result<List<Option<u32>>, OutOfMemory>
    requires { length bits.now ≡ length events.now }
    ensures { IfOk result (AreHandles truths.now events.now bits.now count) }
{
    let mut handles = no_handles(alloc, count)?;
    for place in (0..events.len()).rev() {
        note_handle(&mut handles, truths, &events[place], &bits[place]);
    }
    Ok(handles)
}

// Adds a number, if it is taken.
fn add_number(numbers: &mut List<u32>, truths: &[bool], item: &Taken) -> Result<(), OutOfMemory>
    ensures { OnOk result (numbers.new ≡ numbers.old ++ script_in truths.now (item.now ∷ [])) }
{
    if !truth(truths, item.guard) {
        return Ok(());
    }
    numbers.push(word_number(truths, &item.bits))?;
    Ok(())
}

// The numbers that a thread takes.
fn script(alloc: Global, truths: &[bool], taken: &[Taken]) -> Result<List<u32>, OutOfMemory>
    ensures { IfOk result (λ numbers. numbers ≡ script_in truths.now taken.now) }
{
    let mut numbers = List::new(alloc);
    for item in taken {
        add_number(&mut numbers, truths, item)?;
    }
    Ok(numbers)
}

// Adds the thread of an instance, if it runs.
fn add_thread(
    alloc: Global,
    threads: &mut List<ThreadPart>,
    truths: &[bool],
    handle: Option<u32>,
    part: &PartMap,
) -> Result<(), OutOfMemory>
    ensures { OnOk result (threads.new ≡ threads.old ++ thread_of truths.now handle part.now) }
{
    let Some(handle) = handle else {
        return Ok(());
    };
    let script = script(alloc, truths, part.script.as_slice())?;
    threads.push(ThreadPart {
        handle,
        function: part.function,
        arg: word_number(truths, &part.arg),
        script,
    })?;
    Ok(())
}

/// The threads, from the handles of the instances.
pub(crate) fn threads(
    alloc: Global,
    truths: &[bool],
    handles: &[Option<u32>],
    parts: &[PartMap],
) -> Result<List<ThreadPart>, OutOfMemory>
    requires { length handles.now ≡ length parts.now }
    ensures { IfOk result (λ threads. threads ≡ threads_with truths.now handles.now parts.now) }
{
    let mut threads = List::new(alloc);
    for place in 0..parts.len() {
        add_thread(alloc, &mut threads, truths, handles[place], &parts[place])?;
    }
    Ok(threads)
}
