ghost use Rattle.std.specs.Prelude.{◌≡◌, ◌<◌, ◌^◌, List, All, IfOk, count_by};
ghost use Rattle.cnf_problem.specs.declared.problem.Node.{Node};
ghost use Rattle.cnf_problem.specs.Bounds.{nodes_of};
ghost use Rattle.from_read.specs.Parts.{IsEnough};

use cnf_problem::AtomKind;
use dg_base::OutOfMemory;
use std::alloc::Global;

// How many flags are set.
fn count_set(flags: &[bool]) -> usize
    ensures { result ≡ count_by (λ b. b) flags.now }
{
    flags.iter().filter(|flag| **flag).count()
}

/// How many distinct edges pairs of these atoms may derive at most: one in each graph for each node
/// that reads and each that comes second. Want of memory where that is no `u32`.
pub fn room_for(alloc: Global, nodes: usize, kinds: &[AtomKind]) -> Result<u32, OutOfMemory>
    requires few { nodes < 2 ^ 32 }
    requires over { All (λ k. All (λ n. n < nodes) (nodes_of k)) kinds.now }
    ensures { IfOk result (λ limit. (table : List Node) → IsEnough table kinds.now limit) }
{
    let mut reads = Vec::from_elem(alloc, false, nodes)?;
    let mut seconds = Vec::from_elem(alloc, false, nodes)?;
    for kind in kinds {
        match *kind {
            AtomKind::ReadFrom { write: _, read } => reads[read as usize] = true,
            AtomKind::WriteOrder { first: _, second } => seconds[second as usize] = true,
            AtomKind::Plain => {}
        }
    }
    let pairs = count_set(&reads) as u64 * count_set(&seconds) as u64;
    if pairs > 1 << 30 {
        return Err(OutOfMemory);
    }
    Ok(2 * pairs as u32)
}
