ghost use Rattle.std.specs.Prelude.{◌≡◌, [], ◌∷◌, ◌++◌, ◌<◌, ◌≤◌, ◌^◌, ◌+◌, ◌↔◌, length, map, take, slice_get, slice_index, IfOk, OnOk, OnErr, IsTrue};
ghost use Rattle.cnf_problem.specs.Flat.{pieces, AreEnds, start_of as piece_start};

use dg_base::{Lit, OutOfMemory};
use std::alloc::Global;
use std::marker::Model;

/// Clauses: their literals lie one after another in one block of words, beside the place behind
/// the last literal of each. A clause takes four bytes for each literal and four bytes more.
#[derive(Debug, Drop)]
pub struct Clauses {
    lits: Vec<Lit>,
    ends: Vec<u32>,
}

impl Model for Clauses {
    ghost use Rattle.std.specs.Prelude.{List, length, ◌<◌, ◌^◌};
    ghost use Rattle.dg_base.specs.declared.Lit.{Lit};
    ghost use Rattle.cnf_problem.specs.Flat.{pieces, AreEnds};

    ghost Value = { List (List Lit) };

    ghost view = { λ c. pieces c.lits.items 0 c.ends.items };

    ghost invariant = { λ c. AreEnds c.lits.items 0 c.ends.items × (length c.ends.items < 2 ^ 32) };
}

// Where piece `i` starts.
#[tactic(auto, using(crate::proofs::FlatLaws::start_later))]
fn start_of(ends: &[u32], i: usize) -> u32
    requires { i ≤ length ends.now }
    ensures { result ≡ piece_start 0 ends.now i }
{
    if i == 0 { 0 } else { ends[i - 1] }
}

// From where to where piece `i` lies.
fn bounds(lits: &[Lit], ends: &[u32], i: usize) -> (usize, usize)
    requires cut { AreEnds lits.now 0 ends.now }
    requires within { i < length ends.now }
    ensures start { result.0 ≡ piece_start 0 ends.now i }
    ensures end { result.1 ≡ slice_index ends.now i }
    ensures rise { result.0 ≤ result.1 }
    ensures inside { result.1 ≤ length lits.now }
{
    (start_of(ends, i) as usize, ends[i] as usize)
}

// Piece `i`.
fn piece<'a>(lits: &'a [Lit], ends: &[u32], i: usize) -> &'a [Lit]
    requires cut { AreEnds lits.now 0 ends.now }
    requires within { i < length ends.now }
    ensures { slice_get (pieces lits.now 0 ends.now) i ≡ Some result.now }
{
    let (start, end) = bounds(lits, ends, i);
    &lits[start..end]
}

// Where one more clause, of `more` literals, ends behind so many literals and clauses.
fn end_behind(lits: usize, clauses: usize, more: usize) -> Result<u32, OutOfMemory>
    ensures end { IfOk result (λ end. end ≡ lits + more) }
    ensures few { OnOk result (clauses + 1 < 2 ^ 32) }
{
    if clauses >= u32::MAX as usize {
        return Err(OutOfMemory);
    }
    let Some(end) = lits.checked_add(more) else {
        return Err(OutOfMemory);
    };
    u32::try_from(end).map_err(|_| OutOfMemory)
}

impl Clauses {
    /// No clauses. This takes no memory.
    pub fn new(alloc: Global) -> Clauses
        ensures { result ≡ [] }
    {
        Clauses {
            lits: Vec::new(alloc),
            ends: Vec::new(alloc),
        }
    }

    /// The number of clauses.
    pub fn len(&self) -> usize
        ensures value { result ≡ length self.now }
        ensures few { result < 2 ^ 32 }
    {
        self.ends.len()
    }

    /// Whether there is no clause.
    pub fn is_empty(&self) -> bool
        ensures { IsTrue result ↔ (self.now ≡ []) }
    {
        self.len() == 0
    }

    /// The literals of clause `i`.
    pub fn get(&self, i: usize) -> &[Lit]
        requires { i < length self.now }
        ensures { slice_get self.now i ≡ Some result.now }
    {
        piece(&self.lits, &self.ends, i)
    }

    /// Puts a clause behind the others. It is refused for want of memory, and where there would be
    /// 4294967296 clauses or as many literals.
    pub fn push(&mut self, lits: &[Lit]) -> Result<(), OutOfMemory>
        ensures ok { OnOk result (self.new ≡ self.old ++ lits.now ∷ []) }
        ensures err { OnErr result (self.new ≡ self.old) }
    {
        let end = end_behind(self.lits.len(), self.ends.len(), lits.len())?;
        self.ends.reserve(1)?;
        self.lits.extend_from_slice(lits)?;
        self.ends.push(end)?;
        Ok(())
    }

    /// Puts all these clauses behind the others, or none of them. The refusals are those of `push`.
    pub fn push_all(&mut self, clauses: &[&[Lit]]) -> Result<(), OutOfMemory>
        ensures ok { OnOk result (self.new ≡ self.old ++ map (λ c. c.now) clauses.now) }
        ensures err { OnErr result (self.new ≡ self.old) }
    {
        let len = self.len();
        for clause in clauses {
            if let Err(refusal) = self.push(clause) {
                self.truncate(len);
                return Err(refusal);
            }
        }
        Ok(())
    }

    /// Makes room for so many more clauses, with so many literals together. The clauses stay as
    /// they are, also where memory is wanting.
    pub fn reserve(&mut self, clauses: usize, lits: usize) -> Result<(), OutOfMemory>
        ensures { self.new ≡ self.old }
    {
        self.ends.reserve(clauses)?;
        self.lits.reserve(lits)?;
        Ok(())
    }

    /// Gives back the memory that no clause takes.
    pub fn shrink_to_fit(&mut self)
        ensures same { self.new ≡ self.old }
        ensures few { length self.new < 2 ^ 32 }
    {
        self.lits.shrink_to_fit();
        self.ends.shrink_to_fit();
    }

    /// Keeps the first `len` clauses alone.
    pub fn truncate(&mut self, len: usize)
        requires { len ≤ length self.old }
        ensures { self.new ≡ take len self.old }
    {
        let end = start_of(&self.ends, len);
        self.lits.truncate(end as usize);
        self.ends.truncate(len);
    }
}
