// Laws of the text.
ghost use Rattle.log_text.specs.Laws.{KnownBehind, NoLogProperPrefix, OneLog, ReadCanBePrinted};

/// A text spells at most one log.
pub fn one_log()
    ensures { OneLog }
{}

/// No spelling is a proper prefix of another.
pub fn no_proper_prefix()
    ensures { NoLogProperPrefix }
{}

/// A reader knows the head once it has read seven lines, and whether there are hints once it has read one.
pub fn known_behind_lines()
    ensures { KnownBehind }
{}

/// What was read can be printed, by `print_log` or `print_hinted`.
pub fn read_can_be_printed()
    ensures { ReadCanBePrinted }
{}
