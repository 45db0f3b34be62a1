//! What holds of all executions.

ghost use Rattle.std.specs.Prelude.{◌≡◌, ℕ, List, All, true, None};
ghost use Rattle.axiom_model.specs.declared.MemoryModel.{MemoryModel};
ghost use Rattle.axiom_model.specs.declared.MemoryModel.TheVariants.{Sc, Tso, Pso};
ghost use Rattle.axiom_model.specs.declared.Action.{Action};
ghost use Rattle.axiom_model.specs.declared.Event.{Event};
ghost use Rattle.axiom_model.specs.declared.Candidate.{Candidate};
ghost use Rattle.axiom_model.specs.Cycles.{NoCycle};
ghost use Rattle.axiom_model.specs.Execution.{Execution, cell_of, SameBlock};
ghost use Rattle.axiom_model.specs.Models.{keeps, LocalEdge, GlobalEdge, Leaves, Consistent};
ghost use Rattle.axiom_model.specs.Orders.{Forward, BetweenBlocks, OneInEachBlock, Accept};
ghost use Rattle.axiom_model.specs.Sorting.{HasEdge, NoRepeats, GoesForward};
ghost use Rattle.axiom_model.specs.WellMade.{Shape, WellMade};
ghost use Rattle.axiom_model.specs.Failing.{Runs, AllowedExecution, FailingExecution};
ghost use Rattle.axiom_model.specs.Reordered.{Reordered, ReorderedCandidate};

/// An order in which every edge goes forward excludes every cycle: of events for the local and for
/// the global condition, and of blocks.
pub fn forward_orders_exclude_cycles()
    ensures local { (x : Execution) (rank : Event → ℕ) → Forward rank (LocalEdge x) → NoCycle (LocalEdge x) }
    ensures global { (m : MemoryModel) (x : Execution) (rank : Event → ℕ)
        → Forward rank (GlobalEdge m x) → NoCycle (GlobalEdge m x) }
    ensures blocks { (m : MemoryModel) (x : Execution) (rank : Event → ℕ)
        → OneInEachBlock x rank → Forward rank (BetweenBlocks m x) → NoCycle (Leaves m x) }
{}

/// A list of nodes, none twice, in which every edge of a graph goes forward excludes every cycle of the
/// graph.
pub fn forward_lists_exclude_cycles()
    ensures { (edges : List (ℕ × ℕ)) (order : List ℕ)
        → NoRepeats order → All (GoesForward order) edges → NoCycle (HasEdge edges) }
{}

/// An execution that such orders accept is consistent.
pub fn accepted_is_consistent()
    ensures { (m : MemoryModel) (x : Execution) (local global block : Event → ℕ)
        → Accept m x local global block → Consistent m x }
{}

/// To be in one block is an equivalence.
pub fn blocks_are_an_equivalence()
    ensures reflexive { (x : Execution) (a : Event) → SameBlock x a a }
    ensures symmetric { (x : Execution) (a b : Event) → SameBlock x a b → SameBlock x b a }
    ensures transitive { (x : Execution) (a b c : Event) → SameBlock x a b → SameBlock x b c → SameBlock x a c }
{}

/// An action that is neither a read nor a write stays behind all earlier and before all later actions
/// of its thread, under each model.
pub fn full_fences_are_kept()
    ensures before_later { (m : MemoryModel) (p q : Action) → cell_of p ≡ None → keeps m p q ≡ true }
    ensures behind_earlier { (m : MemoryModel) (p q : Action) → cell_of q ≡ None → keeps m p q ≡ true }
{}

/// TSO allows what SC allows, and PSO what TSO allows.
pub fn weaker_models_allow_more()
    ensures tso { (x : Execution) → Consistent Sc x → Consistent Tso x }
    ensures pso { (x : Execution) → Consistent Tso x → Consistent Pso x }
{}

/// Nothing depends on the order of the pairs of reads and sources: of an execution whether it is well
/// made and whether it is consistent, of a candidate whether a model allows it and whether it fails,
/// over any meaning of a thread's run.
pub fn order_of_reads_is_free()
    ensures well_made { (s : Shape) (x y : Execution) → Reordered x y → WellMade s x → WellMade s y }
    ensures consistent { (m : MemoryModel) (x y : Execution) → Reordered x y → Consistent m x → Consistent m y }
    ensures allowed { (s : Shape) (runs : Runs) (m : MemoryModel) (c d : Candidate)
        → ReorderedCandidate c d → AllowedExecution s runs m c → AllowedExecution s runs m d }
    ensures failing { (s : Shape) (runs : Runs) (m : MemoryModel) (c d : Candidate)
        → ReorderedCandidate c d → FailingExecution s runs m c → FailingExecution s runs m d }
{}
