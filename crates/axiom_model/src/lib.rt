//! The axiomatic layer: which executions of a concurrent program a memory model allows.
//!
//! A thread of a candidate makes a list of actions. A candidate says besides from which write each
//! read takes its value (reads-from, rf) and in which order the writes of each cell take effect
//! (coherence, co). With program order (po) and from-read (fr, from a read to the writes that are
//! later than its source) these are the edges of two conditions, and an execution is consistent
//! where both hold: coherence of each cell, and no cycle among the order that the model keeps, the
//! reads-from that all threads see, co and fr, neither of events nor of blocks. A block is a section,
//! from an `Open` to its `Close` or to the run's end, which other threads see as one step; each other
//! action is a block of its own.
//!
//! The relations stand in `specs/Execution`, when an execution fits a program in `specs/WellMade`,
//! the models in `specs/Models`, candidates that fail an assertion in `specs/Failing`. The layers
//! above may use the types and [`MemoryModel::keeps`] here, those definitions, and the laws: orders
//! exclude cycles and show consistency, blocks are an equivalence, a weaker model allows more. The
//! outcomes that are known of each model (`specs/Outcomes`) are proved as well, as a test of the
//! definitions.
//!
//! [`acyclic`] orders the nodes of a graph so that every edge goes forward, or finds a cycle; what
//! both are of a list of edges between numbers stands in `specs/Sorting`. It comes with the law that
//! such an order excludes cycles.
//!
//! The form of the models is that of J. Alglave, L. Maranget, M. Tautschnig, "Herding cats" (ACM
//! TOPLAS, 2014), with the preserved program order and the global reads-from of J. Alglave, "A formal
//! hierarchy of weak memory models" (Formal Methods in System Design, 2012). TSO and PSO are those of
//! the SPARC Architecture Manual, versions 8 and 9. Sections as blocks are this project's own.
#![tactic(auto)]

mod graph;
mod laws;
mod outcomes;
mod sorting;
mod walk;

ghost use Rattle.std.specs.Prelude.{◌≡◌};
ghost use Rattle.axiom_model.specs.Models.{keeps};

use dg_base::List;
pub use graph::acyclic;
pub use laws::{
    accepted_is_consistent, blocks_are_an_equivalence, forward_lists_exclude_cycles,
    forward_orders_exclude_cycles, full_fences_are_kept, order_of_reads_is_free,
    weaker_models_allow_more,
};
pub use outcomes::{
    fenced_store_buffering, independent_reads, load_buffering, message_passing, open_section,
    outcomes_are_well_made, peeked_section, read_read_coherence, stale_reads_of_threads,
    store_buffering, store_forwarding, two_plus_two_writes, write_read_coherence,
    write_write_coherence,
};
pub use sorting::Acyclic;

/// A memory model.
#[derive(Debug, Clone, Copy, PartialEq, Eq, Drop)]
pub enum MemoryModel {
    /// Sequential consistency: memory takes the actions of all threads one after another.
    Sc,
    /// Total store order: a write may take effect behind later reads of its thread.
    Tso,
    /// Partial store order: a write may take effect behind later reads and writes of its thread.
    Pso,
}

impl MemoryModel {
    /// Whether the model keeps two actions of a thread, `first` before `second`, in this order:
    /// Alglave's preserved program order. Whether the two stand in one section does not count here:
    /// all of program order is kept in a section.
    pub fn keeps(self, first: &Action, second: &Action) -> bool
        ensures { result ≡ keeps self first.now second.now }
    {
        match (self, first, second) {
            (MemoryModel::Tso | MemoryModel::Pso, Action::Write { .. }, Action::Read { .. }) =>
                false,
            (MemoryModel::Pso, Action::Write { .. }, Action::Write { .. }) => false,
            _ => true,
        }
    }
}

/// What a thread does that other threads can see. A cell is the number of a shared cell, from 0 in
/// the order of the text; a function is the number of a function, from 0 in the order of the text; a
/// handle is the number of a thread, 0 for the main thread.
#[derive(Debug, Clone, Copy, PartialEq, Eq, Drop)]
pub enum Action {
    /// The thread reads this value from the cell.
    Read {
        cell: u32,
        value: u32,
    },
    /// The thread writes this value to the cell.
    Write {
        cell: u32,
        value: u32,
    },
    /// A section begins.
    Open,
    /// The section ends.
    Close,
    /// A full fence.
    Fence,
    /// A thread with this handle begins to run the function with this argument.
    Create {
        handle: u32,
        function: u32,
        arg: u32,
    },
    /// The thread waits for the end of the thread with this handle.
    Join {
        handle: u32,
    },
    /// The first action of each thread.
    Start,
    /// The last action of a thread that comes to its end.
    End,
}

/// An event of an execution. In order stand the initial writes first, then the actions by their
/// threads' handles, and those of a thread by their indices.
#[derive(Debug, Clone, Copy, PartialEq, Eq, PartialOrd, Ord, Drop)]
pub enum Event {
    /// The initial writes of all cells, as one event of no thread.
    Initial,
    /// The action at this index, from 0, of the thread with this handle.
    At { handle: u32, index: u32 },
}

/// A thread of a candidate: its run is that of the function on the script.
#[derive(Debug, Drop)]
pub struct ThreadPart {
    /// Who it is: 0 for the main thread, below 2^24.
    pub handle: u32,
    /// The number of its function, from 0 in the order of the text.
    pub function: u32,
    /// The function's argument.
    pub arg: u32,
    /// The numbers that the run takes from outside, in turn: values of reads and choices.
    pub script: List<u32>,
}

/// A read and the write whose value it takes.
#[derive(Debug, Clone, Copy, PartialEq, Eq, Drop)]
pub struct RfPair {
    /// The read.
    pub reader: Event,
    /// The write.
    pub source: Event,
}

/// What a search proposes as an execution of a program.
#[derive(Debug, Drop)]
pub struct Candidate {
    /// The threads, by rising handles.
    pub threads: List<ThreadPart>,
    /// A pair for each read.
    pub rf: List<RfPair>,
    /// For each cell, in the order of the text, its writes in the order in which they take effect,
    /// the initial one first.
    pub co: List<List<Event>>,
}

#[cfg(test)]
mod tests {
    use super::*;

    /// Pairs of program order, and whether SC, TSO and PSO keep them.
    #[test]
    fn keeps_by_model(rt: HostRuntime) {
        let read = Action::Read { cell: 0, value: 7 };
        let write = Action::Write { cell: 1, value: 7 };
        let table = [
            (read, read, true, true, true),
            (read, write, true, true, true),
            (write, read, true, false, false),
            (write, write, true, true, false),
            (write, Action::Fence, true, true, true),
            (Action::Fence, read, true, true, true),
            (write, Action::Close, true, true, true),
            (Action::Start, write, true, true, true),
        ];
        for (first, second, sc, tso, pso) in table {
            assert_eq!(rt; MemoryModel::Sc.keeps(&first, &second), sc);
            assert_eq!(rt; MemoryModel::Tso.keeps(&first, &second), tso);
            assert_eq!(rt; MemoryModel::Pso.keeps(&first, &second), pso);
        }
    }
}
