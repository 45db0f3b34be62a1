// Laws of the grammar.
ghost use Rattle.c_expr.specs.Closers.{CloserEnds, NoneBefore, OneBefore, OneParse, ParsedOrRefused, TextParses, TextStarts};
ghost use Rattle.c_expr.specs.Expressions.{OneRun, OneTree};
ghost use Rattle.c_expr.specs.TypeWords.{TypesByWords};

/// A list of tokens has at most one tree.
pub fn one_tree()
    ensures { OneTree }
{}

/// A list of tokens has at most one longest run.
pub fn one_run()
    ensures { OneRun }
{}

/// No text begins with a text and a closer behind it.
pub fn closer_ends()
    ensures { CloserEnds }
{}

/// A text before a closer is what is found there.
pub fn text_parses()
    ensures { TextParses }
{}

/// A list of tokens is parsed in at most one way.
pub fn one_parse()
    ensures { OneParse }
{}

/// No list of tokens is both parsed and refused.
pub fn parsed_or_refused()
    ensures { ParsedOrRefused }
{}

/// Two texts at the front of one list, each before a closer, are one.
pub fn one_before()
    ensures { OneBefore }
{}

/// Where a list's longest run ends, another list that goes on with the same token has no other text before a closer.
pub fn none_before()
    ensures { NoneBefore }
{}

/// A text is not empty, and its first token is one that a text may begin with.
pub fn text_starts()
    ensures { TextStarts }
{}

/// A type is a first word and what may follow it.
pub fn types_by_words()
    ensures { TypesByWords }
{}
