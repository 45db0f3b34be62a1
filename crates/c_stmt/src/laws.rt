// Laws of the grammar.
ghost use Rattle.c_stmt.specs.Programs.{OneProgram};

/// A list of tokens has at most one program.
pub fn one_program()
    ensures { OneProgram }
{}
