// Laws of the text.
ghost use Rattle.witness_text.specs.Spelling.{NoPrefix, OneCandidate};

/// A text spells at most one candidate.
pub fn one_candidate()
    ensures { OneCandidate }
{}

/// No spelling is a proper prefix of another.
pub fn no_proper_prefix()
    ensures { NoPrefix }
{}
