// Logs put together by their tickets.
ghost use Rattle.std.specs.Prelude.{◌≡◌, ◌<◌, ◌^◌, length, slice_index_or, sum_by, [], IfOk};
ghost use Rattle.lemma_log.specs.Merging.{AreOnce, AreSpots, IsCopy, IsLogged, IsMerged};

use crate::{Entry, Log};
use cnf_problem::Lemma;
use dg_base::{List, OutOfMemory};
use std::alloc::Global;

// Where an entry stands: in which log, and at which place there.
#[derive(Clone, Copy, Drop)]
struct Spot {
    log: usize,
    at: usize,
}

// The number of entries of all logs.
fn total(logs: &[List<Entry>]) -> usize
    requires { sum_by length logs.now < 2 ^ 32 }
    ensures { result ≡ sum_by length logs.now }
{
    let mut total = 0;
    for log in logs {
        total += log.len();
    }
    total
}

// Where the entry of each ticket stands.
fn spots_of(alloc: Global, logs: &[List<Entry>]) -> Result<Vec<Spot>, OutOfMemory>
    requires { AreOnce logs.now }
    ensures long { IfOk result (λ spots. length spots.items ≡ sum_by length logs.now) }
    ensures each { IfOk result (λ spots. AreSpots logs.now spots.items) }
{
    let mut spots = Vec::from_elem(alloc, Spot { log: 0, at: 0 }, total(logs))?;
    for (log, entries) in logs.iter().enumerate() {
        for (at, entry) in entries.as_slice().iter().enumerate() {
            spots[entry.ticket as usize] = Spot { log, at };
        }
    }
    Ok(spots)
}

// The same entry again.
fn copied(alloc: Global, entry: &Entry) -> Result<Entry, OutOfMemory>
    ensures { IfOk result (λ copy. IsCopy copy entry.now) }
{
    let lits = List::from_slice(alloc, entry.lemma.lits.as_slice())?;
    Ok(Entry {
        ticket: entry.ticket,
        worker: entry.worker,
        lemma: Lemma {
            kind: entry.lemma.kind,
            lits,
        },
    })
}

// The entry at a spot.
fn entry_at(logs: &[List<Entry>], spot: Spot) -> &Entry
    requires log { spot.log < length logs.now }
    requires at { spot.at < length (slice_index_or logs.now spot.log []) }
    ensures { IsLogged logs.now spot.log spot.at result.now }
{
    &logs[spot.log].as_slice()[spot.at]
}

/// The log of all entries, each at its ticket, in time that is linear in their number and length.
pub fn merge(alloc: Global, logs: &[List<Entry>]) -> Result<Log, OutOfMemory>
    requires { AreOnce logs.now }
    ensures { IfOk result (λ log. IsMerged logs.now log.entries) }
{
    let spots = spots_of(alloc, logs)?;
    let mut entries = List::new(alloc);
    for spot in spots.as_slice() {
        let entry = copied(alloc, entry_at(logs, *spot))?;
        entries.push(entry)?;
    }
    Ok(Log { entries })
}
