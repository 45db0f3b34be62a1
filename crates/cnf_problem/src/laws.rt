ghost use Rattle.cnf_problem.specs.Laws.{FollowingIsTrue, FollowsFromMore, RefutedHasNoAssignment, FixpointHasChains, FixpointHasNoConflict, FixpointMakesNew, NewIsNotListed, ExtendsInSteps, FreeExtends, ExtendsAssignments, ExtendsValues};

/// Lemmas are sound: one that follows is true in each consistent assignment in which the clauses
/// that it follows from are.
pub fn following_is_true()
    ensures { FollowingIsTrue }
{}

/// A lemma that follows goes on to follow when clauses are added.
pub fn follows_from_more()
    ensures { FollowsFromMore }
{}

/// A refutation is right: lemmas each of which follows from those before it, the empty clause
/// among them, leave no consistent assignment.
pub fn refuted_has_no_assignment()
    ensures { RefutedHasNoAssignment }
{}

/// A fixpoint of unit propagation has all that a unit chain from literals of it makes true, and no
/// such chain makes a clause false.
pub fn fixpoint_has_chains()
    ensures reached { FixpointHasChains }
    ensures no_conflict { FixpointHasNoConflict }
{}

/// What a search learns at a fixpoint is new: its clause has one literal that isn't true, and the
/// others are false.
pub fn fixpoint_makes_new()
    ensures { FixpointMakesNew }
{}

/// A new lemma is none of the clauses over which it is new.
pub fn new_is_not_listed()
    ensures { NewIsNotListed }
{}

/// Gates add up: extensions compose, and keep consistent assignments possible and older gates
/// exact.
pub fn extensions_compose()
    ensures steps { ExtendsInSteps }
    ensures free { FreeExtends }
    ensures assignments { ExtendsAssignments }
    ensures values { ExtendsValues }
{}
