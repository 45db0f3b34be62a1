ghost use Rattle.worker_log.specs.Laws.{SpentIsShown};

/// A number that used up its budget, by what is kept of it, is a spent worker of each state of the
/// core of the search that shows it.
pub fn spent_is_shown()
    ensures { SpentIsShown }
{}
