ghost use Rattle.bv_term.specs.Laws.{ValuesByTerms, ValuesAreWords, GrowsInSteps};

/// The value of a term follows from what it is and from its arguments' values.
pub fn values_by_terms()
    ensures { ValuesByTerms }
{}

/// Values fit 32 bits where the inputs do.
pub fn values_are_words()
    ensures { ValuesAreWords }
{}

/// What is added in two steps is added.
pub fn growth_composes()
    ensures { GrowsInSteps }
{}
