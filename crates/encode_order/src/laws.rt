//! The laws.

ghost use Rattle.encode_order.specs.Laws.{WritesAreOrdered, OrderIsOne, InitialIsFirst, AtomsOrderWrites, ClausesHold};
ghost use Rattle.encode_order.specs.Choices.{ChoicesCanBeMade};
ghost use Rattle.encode_order.specs.Counts.{PlacesAreCounts};
ghost use Rattle.encode_order.specs.Sources.{ReadsHaveSources, SourcesAreWrites, SourcesAreSingle};

/// Under a consistent assignment what the clauses say of links holds, joins and ends among them.
pub fn clauses_hold()
    ensures { ClausesHold }
{}

/// Under a consistent assignment the writes of a cell that happen are in a line: some list has each of
/// them once, and one stands before another exactly where the atom that says so is true.
pub fn writes_are_ordered()
    ensures { WritesAreOrdered }
{}

/// There is one such list for a cell and an assignment.
pub fn order_is_one()
    ensures { OrderIsOne }
{}

/// The initial write of the cell is the first of them.
pub fn initial_is_first()
    ensures { InitialIsFirst }
{}

/// An atom that orders two events is true only where both happen, and they are different writes of one
/// cell.
pub fn atoms_order_writes()
    ensures { AtomsOrderWrites }
{}

/// A read that happens has a source.
pub fn reads_have_sources()
    ensures { ReadsHaveSources }
{}

/// A source is a write of the read's cell that happens, with the value that is read, and so does the read.
pub fn sources_are_writes()
    ensures { SourcesAreWrites }
{}

/// No read has two sources: it would come before the later of them.
pub fn sources_are_single()
    ensures { SourcesAreSingle }
{}

/// A write's place in the line of its cell is the number of true atoms that put a write before it.
pub fn places_are_counts()
    ensures { PlacesAreCounts }
{}

/// Each choice of sources, orders and waits that fits the events that happen can be made: some assignment
/// extends the one of the events, makes the clauses of the order true, and has exactly the chosen atoms true.
pub fn choices_can_be_made()
    ensures { ChoicesCanBeMade }
{}
