// Laws of texts.
ghost use Rattle.c_program.specs.Accepting.{NamesArePlain, NotBoth, NotNeither, OneChecked, OneProgramOfText, OneRefusal};

use c_stmt::one_program;

/// A text is one program at most.
pub fn one_program_of_text()
    ensures { OneProgramOfText }
{
    one_program()
}

/// No text is both accepted and refused.
pub fn accepted_or_refused()
    ensures { NotBoth }
{
    one_program()
}

/// No text is neither accepted nor refused.
pub fn not_neither()
    ensures { NotNeither }
{}

/// The names of what is accepted are plain.
pub fn names_are_plain()
    ensures { NamesArePlain }
{}

/// A text has one checked program at most.
pub fn one_checked()
    ensures { OneChecked }
{
    one_program()
}

/// A text has one refusal at most.
pub fn one_refusal()
    ensures { OneRefusal }
{
    one_program()
}
