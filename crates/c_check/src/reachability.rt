// A search for a number from which rows lead back to it.
ghost use Rattle.std.specs.Prelude.{◌≡◌, ◌↔◌, ◌<◌, ℕ, IsTrue, length, OnOk, IfOk, MatchOption, All};
ghost use Rattle.std.specs.Prelude.{replicate, false};
ghost use Rattle.c_check.specs.Graph.{row_at, Path, IsClosed, IsFirstBack};
ghost use Rattle.c_check.specs.Searching as searching;

use dg_base::{List, OutOfMemory};
use sqlite_items::at;
use std::alloc::Global;

/// Which numbers were reached, and which of these wait for their rows.
#[derive(Drop)]
struct Search {
    marks: List<bool>,
    pending: List<usize>,
}

impl Search {
    fn mark(&mut self, number: usize) -> Result<(), OutOfMemory>
        requires { number < length self.old.marks }
        ensures { OnOk result (self.new ≡ searching.mark_one self.old number) }
    {
        if !self.marks.as_slice()[number] {
            self.marks.set(number, true);
            self.pending.push(number)?;
        }
        Ok(())
    }

    #[tactic(auto, using(crate::proofs::Searches::mark_one_length))]
    fn mark_all(&mut self, numbers: &[usize]) -> Result<(), OutOfMemory>
        requires { All (λ v. v < length self.old.marks) numbers.now }
        ensures { OnOk result (self.new ≡ searching.mark_all self.old numbers.now) }
    {
        for number in numbers {
            self.mark(*number)?;
        }
        Ok(())
    }

    // Marks what a number leads to.
    #[tactic(auto, using(crate::proofs::Edges::row_bounded))]
    fn visit(&mut self, rows: &[List<usize>], number: usize) -> Result<(), OutOfMemory>
        requires closed { IsClosed rows.now }
        requires size { length self.old.marks ≡ length rows.now }
        ensures { OnOk result (self.new ≡ searching.mark_all self.old (row_at rows.now number)) }
    {
        match at(rows, number) {
            None => Ok(()),
            Some(row) => self.mark_all(row.as_slice()),
        }
    }
}

// Marks for so many numbers.
fn no_marks(alloc: Global, count: usize) -> Result<List<bool>, OutOfMemory>
    ensures { IfOk result (λ l. l ≡ replicate count false) }
{
    Ok(List::from_vec(vec![in alloc; false; count]?))
}

// Whether rows lead from a number back to it.
fn leads_back(alloc: Global, rows: &[List<usize>], root: usize) -> Result<bool, OutOfMemory>
    requires root { root < length rows.now }
    requires closed { IsClosed rows.now }
    ensures { IfOk result (λ b. IsTrue b ↔ Path rows.now root root) }
{
    let mut search = Search {
        marks: no_marks(alloc, rows.len())?,
        pending: List::new(alloc),
    };
    search.visit(rows, root)?;
    while let Some(number) = search.pending.pop() {
        search.visit(rows, number)?;
    }
    Ok(search.marks.as_slice()[root])
}

/// The first number from which rows lead back to it.
pub(crate) fn first_back(alloc: Global, rows: &[List<usize>]) -> Result<Option<usize>, OutOfMemory>
    requires { IsClosed rows.now }
    ensures { IfOk result (λ o. MatchOption o ((i : ℕ) → Path rows.now i i → ⊥) (λ i. IsFirstBack rows.now i)) }
{
    for number in 0..rows.len() {
        if leads_back(alloc, rows, number)? {
            return Ok(Some(number));
        }
    }
    Ok(None)
}
