// The clauses of a problem and those that were added, as one list.
ghost use Rattle.std.specs.Prelude.{◌≡◌, ◌++◌, ◌<◌, Some, length, slice_get};

use cnf_problem::Clauses;
use dg_base::Lit;

/// The literals of clause `i` of the first clauses, or, behind those, of the added ones.
pub fn clause_at<'a>(first: &'a Clauses, added: &'a Clauses, i: usize) -> &'a [Lit]
    requires { i < length (first.now ++ added.now) }
    ensures { slice_get (first.now ++ added.now) i ≡ Some result.now }
{
    let count = first.len();
    if i < count {
        first.get(i)
    } else {
        added.get(i - count)
    }
}
