ghost use Rattle.search_core.specs.CoreLaws.{NoOppositeOffers, SoundAfterEvents, SoundIsKept, VerdictStays};
ghost use Rattle.clause_exchange.specs.ExchangeLaws.{ReadingGrows, ReadingIsAll};

/// The law of the core, over every list of events: each ticket below the next one is in exactly one
/// log; each entry follows from the problem and the entries with lower tickets, and is true in each
/// consistent assignment; what is shared is the worker's own, and what is read was shared; a verdict
/// is right and stays, and no two opposite ones are offered; all logs together, by their tickets,
/// are a good log. Each kind of event keeps it.
pub fn core_holds_after_any_events()
    ensures sound { SoundAfterEvents }
    ensures kept { SoundIsKept }
    ensures offers { NoOppositeOffers }
    ensures stays { VerdictStays }
{}

/// The reading of a row ends with the entry that was read.
pub fn reading_grows()
    ensures { ReadingGrows }
{}

/// Where all within the words looked at is read, the reading of a row is all that is known of it.
pub fn reading_is_all()
    ensures { ReadingIsAll }
{}
