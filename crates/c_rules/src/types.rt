// Types, and what a name, an index and a cast may be.
ghost use Rattle.std.specs.Prelude.{◌≡◌};
ghost use Rattle.c_rules.specs.Types as types;

use crate::builtin::Role;
use crate::names::Meaning;
use crate::pass::is_mutex;
use crate::roles::{is_mutex_role, is_routine_role, may_lack_value};
use c_tree::TypeWord;

/// Whether it is a type of values.
pub(crate) fn is_value_type(word: TypeWord) -> bool
    ensures { result ≡ types.is_value_type word }
{
    match word {
        TypeWord::Int => true,
        TypeWord::Uint => true,
        TypeWord::Void => false,
        TypeWord::VoidPointer => true,
        TypeWord::Thread => true,
        TypeWord::Mutex => false,
        TypeWord::Cond => false,
    }
}

/// Whether the type is void.
pub(crate) fn is_void(word: TypeWord) -> bool
    ensures { result ≡ types.is_void word }
{
    match word {
        TypeWord::Void => true,
        _ => false,
    }
}

fn type_fits(role: Role, word: TypeWord) -> bool
    ensures { result ≡ types.type_fits role word }
{
    let is_value = is_value_type(word);
    let is_named_mutex = is_mutex(word) && is_mutex_role(role);
    is_value || is_named_mutex
}

/// Whether a name alone may stand there.
pub(crate) fn name_fits(role: Role, meaning: Meaning) -> bool
    ensures { result ≡ types.name_fits role meaning }
{
    match meaning {
        Meaning::Variable(variable) => match variable.cells {
            None => type_fits(role, variable.word),
            Some(_) => false,
        },
        Meaning::Function(_, _) => is_routine_role(role),
        Meaning::Builtin(_) => false,
        Meaning::Nothing => false,
    }
}

/// Whether an index may stand there.
pub(crate) fn index_fits(role: Role, meaning: Meaning) -> bool
    ensures { result ≡ types.index_fits role meaning }
{
    match meaning {
        Meaning::Variable(variable) => match variable.cells {
            None => false,
            Some(_) => type_fits(role, variable.word),
        },
        Meaning::Function(_, _) => false,
        Meaning::Builtin(_) => false,
        Meaning::Nothing => false,
    }
}

/// Whether a cast to this type may stand there.
pub(crate) fn cast_fits(role: Role, word: TypeWord) -> bool
    ensures { result ≡ types.cast_fits role word }
{
    let is_value = is_value_type(word);
    let is_dropped = is_void(word) && may_lack_value(role);
    is_value || is_dropped
}
