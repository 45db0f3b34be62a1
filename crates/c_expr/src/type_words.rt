// The words of a type, one after another.
ghost use Rattle.std.specs.Prelude.{◌≡◌};
ghost use Rattle.c_expr.specs.TypeWords as spec;

use crate::word::{TypeName, Word};
use c_tree::{BinaryOp, TypeWord};

/// The type that a first word is alone.
pub fn first_word(name: TypeName) -> TypeWord
    ensures { result ≡ spec.first_word name }
{
    match name {
        TypeName::Int | TypeName::Signed => TypeWord::Int,
        TypeName::Unsigned => TypeWord::Uint,
        TypeName::Void => TypeWord::Void,
        TypeName::Thread => TypeWord::Thread,
        TypeName::Mutex => TypeWord::Mutex,
        TypeName::Cond => TypeWord::Cond,
    }
}

/// Whether one word more may belong to the type that begins with this one.
pub fn may_grow(name: TypeName) -> bool
    ensures { result ≡ spec.may_grow name }
{
    matches!(name, TypeName::Signed | TypeName::Unsigned | TypeName::Void)
}

/// The type that one word more makes of one, if it belongs to it.
pub fn grown(word: Word, kind: TypeWord) -> Option<TypeWord>
    ensures { result ≡ spec.grown word kind }
{
    match (word, kind) {
        (Word::Type(TypeName::Int), TypeWord::Int) => Some(TypeWord::Int),
        (Word::Type(TypeName::Int), TypeWord::Uint) => Some(TypeWord::Uint),
        (Word::Binary(BinaryOp::Times), TypeWord::Void) => Some(TypeWord::VoidPointer),
        _ => None,
    }
}
