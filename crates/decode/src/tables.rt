//! What the true atoms say of nodes.

ghost use Rattle.std.specs.Prelude.{◌≡◌, ℕ, ◌<◌, ◌^◌, All, length, slice_index, IfOk};
ghost use Rattle.cnf_problem.specs.Bounds.{nodes_of};
ghost use Rattle.decode.specs.Tables.{sources_behind, ranks_behind, AreOfNodes, AreSources, AreRanks};

use crate::values::truth;
use cnf_problem::{Atom, AtomKind};
use dg_base::{List, OutOfMemory};
use std::alloc::Global;

// Notes the write of a true atom at its read.
fn note_source(sources: &mut List<u32>, truths: &[bool], atom: &Atom)
    requires { All (λ n. n < length sources.old) (nodes_of atom.now.kind) }
    ensures { sources.new ≡ sources_behind truths.now atom.now.lit sources.old atom.now.kind }
{
    let AtomKind::ReadFrom { write, read } = atom.kind else {
        return;
    };
    if truth(truths, atom.lit) {
        sources.set(read as usize, write);
    }
}

/// For each of so many nodes a write that it reads from, where a true atom says that there is one.
pub(crate) fn sources(
    alloc: Global,
    truths: &[bool],
    atoms: &[Atom],
    count: usize,
) -> Result<List<u32>, OutOfMemory>
    requires { AreOfNodes count atoms.now }
    ensures { IfOk result (AreSources truths.now atoms.now count) }
{
    let mut sources = List::from_vec(vec![in alloc; 0; count]?);
    for atom in atoms {
        note_source(&mut sources, truths, atom);
    }
    Ok(sources)
}

// Counts the write of a true atom at the one that it puts a write before.
fn count_write(ranks: &mut List<usize>, truths: &[bool], atom: &Atom)
    requires nodes { All (λ n. n < length ranks.old) (nodes_of atom.now.kind) }
    requires room { (n : ℕ) → n < length ranks.old → slice_index ranks.old n < 2 ^ 63 }
    ensures { ranks.new ≡ ranks_behind truths.now atom.now.lit ranks.old atom.now.kind }
{
    let AtomKind::WriteOrder { second, .. } = atom.kind else {
        return;
    };
    if truth(truths, atom.lit) {
        let node = second as usize;
        let rank = ranks.as_slice()[node];
        ranks.set(node, rank + 1);
    }
}

/// For each of so many nodes how many true atoms put a write before it.
pub(crate) fn ranks(
    alloc: Global,
    truths: &[bool],
    atoms: &[Atom],
    count: usize,
) -> Result<List<usize>, OutOfMemory>
    requires { AreOfNodes count atoms.now }
    ensures { IfOk result (AreRanks truths.now atoms.now count) }
{
    let mut ranks = List::from_vec(vec![in alloc; 0usize; count]?);
    for atom in atoms {
        count_write(&mut ranks, truths, atom);
    }
    Ok(ranks)
}
