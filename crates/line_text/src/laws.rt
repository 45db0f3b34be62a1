// Laws of words.
ghost use Rattle.line_text.specs.Laws.{CutsAtFirst, ReadsDecimals};

/// A text is cut exactly at its first such byte, and isn't cut exactly where it lacks the byte.
pub fn cuts_at_first()
    ensures { CutsAtFirst }
{}

/// A number is read exactly where the text is its decimal digits and it has 32 bits.
pub fn reads_decimals()
    ensures { ReadsDecimals }
{}
