// The pairs of a candidate in the order of their readers.
ghost use Rattle.std.specs.Prelude.{◌≡◌, IfOk};
ghost use Rattle.std.specs.List.Sorted.{IsNonDecreasingBy};
ghost use Rattle.axiom_model.specs.Reordered.{ReorderedCandidate};
ghost use Rattle.dg_top.specs.Pairs as pairs;

use axiom_model::{Candidate, Event, RfPair};
use dg_base::{List, OutOfMemory};
use std::alloc::Global;

// A number that rises with the reader by handle and index.
fn reader_key(pair: &RfPair) -> u64
    ensures { result ≡ pairs.reader_key pair.now }
{
    match pair.reader {
        Event::Initial => 0,
        Event::At { handle, index } => u64::from(handle) * (1 << 32) + u64::from(index),
    }
}

/// The candidate, with its pairs in the order of their readers by handle and index.
pub fn in_reader_order(alloc: Global, candidate: Candidate) -> Result<Candidate, OutOfMemory>
    ensures reordered { IfOk result (ReorderedCandidate candidate) }
    ensures sorted { IfOk result (λ c. IsNonDecreasingBy pairs.reader_key c.rf) }
{
    let Candidate { threads, rf, co } = candidate;
    let mut sorted = Vec::from_slice(alloc, rf.as_slice())?;
    sorted.sort_unstable_by_key(|pair| reader_key(pair));
    Ok(Candidate {
        threads,
        rf: List::from_vec(sorted),
        co,
    })
}
