ghost use Rattle.clause_store.specs.Laws.{DecidingKeeps, AssigningKeeps, UndoingKeeps, WatchedIsFixpointBelow};

/// The watches go on to fit a trail that is decided on once all was propagated, to which a forced
/// literal is added, or that is undone.
pub fn watches_are_kept()
    ensures deciding { DecidingKeeps }
    ensures assigning { AssigningKeeps }
    ensures undoing { UndoingKeeps }
{}

/// Where the watches fit a trail, each level below its own is a fixpoint of propagation: no clause
/// is false there and none is unit.
pub fn watched_is_fixpoint_below()
    ensures { WatchedIsFixpointBelow }
{}
