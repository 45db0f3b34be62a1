ghost use Rattle.std.specs.Prelude.{◌≡◌, ◌<◌, List, Some, slice_get, length};
ghost use Rattle.dg_base.specs.declared.Lit.{Lit as Literal};

use dg_base::Lit;

/// The number of a clause: clauses are numbered by who keeps them.
#[derive(Debug, Clone, Copy, PartialEq, Eq, Drop)]
pub struct ClauseId(pub u32);

/// The clause that forced a literal.
pub type Reason = ClauseId;

/// Clauses by their numbers.
pub trait Reasons {
    // the clauses, clause 0 first
    ghost clauses: { Self → List (List Literal) };

    /// The literals of the clause with this number.
    fn clause(&self, reason: Reason) -> &[Lit]
        requires { reason.0 < length (clauses self.now) }
        ensures { slice_get (clauses self.now) reason.0 ≡ Some result.now };
}
