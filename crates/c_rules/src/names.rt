// What names stand for.
ghost use Rattle.std.specs.Prelude.{◌≡◌, ◌||◌, option_copied};
ghost use Rattle.std.specs.Str.{bytes_eq};
ghost use Rattle.c_rules.specs.Names as names;

use crate::Builtin;
use c_tree::{Function, Item, TypeWord};
use dg_base::Bytes;

/// A variable.
#[derive(Clone, Copy, Drop)]
pub struct Variable {
    /// Its type, or that of each cell.
    pub word: TypeWord,
    /// The number of cells of an array.
    pub cells: Option<u32>,
    /// Whether it is declared at the top of the program.
    pub shared: bool,
}

/// What a scope declares: a variable, or a function's name, which counts as declared and is looked past.
#[derive(Drop)]
pub struct Entry {
    /// The name.
    pub name: Bytes,
    /// The variable, if it is one.
    pub variable: Option<Variable>,
}

/// What a name stands for.
#[derive(Clone, Copy, Drop)]
pub enum Meaning {
    /// A variable.
    Variable(Variable),
    /// A function with a body: the type of its value, and how many parameters it has.
    Function(TypeWord, usize),
    /// A built-in call.
    Builtin(Builtin),
    /// Nothing: the name is not known.
    Nothing,
}

/// The built-in call of a name; none for a name that is that of no built-in call.
pub fn builtin_named(name: &[u8]) -> Option<Builtin>
    ensures { result ≡ names.builtin_named name.now }
{
    if b"pthread_create".as_slice() == name {
        Some(Builtin::PthreadCreate)
    } else if b"pthread_join".as_slice() == name {
        Some(Builtin::PthreadJoin)
    } else if b"pthread_exit".as_slice() == name {
        Some(Builtin::PthreadExit)
    } else if b"pthread_mutex_lock".as_slice() == name {
        Some(Builtin::Lock)
    } else if b"pthread_mutex_unlock".as_slice() == name {
        Some(Builtin::Unlock)
    } else if b"pthread_mutex_init".as_slice() == name {
        Some(Builtin::Init)
    } else if b"pthread_mutex_destroy".as_slice() == name {
        Some(Builtin::Destroy)
    } else {
        other_call(name)
    }
}

// The built-in call of a name, if it is none of threads and mutexes.
fn other_call(name: &[u8]) -> Option<Builtin>
    ensures { result ≡ names.look_up names.other_calls name.now }
{
    if b"exit".as_slice() == name {
        Some(Builtin::Exit)
    } else if b"abort".as_slice() == name {
        Some(Builtin::Abort)
    } else if b"assert".as_slice() == name {
        Some(Builtin::Assert)
    } else if b"__VERIFIER_assume".as_slice() == name {
        Some(Builtin::Assume)
    } else if b"__assert_fail".as_slice() == name {
        Some(Builtin::AssertFail)
    } else if b"reach_error".as_slice() == name {
        Some(Builtin::ReachError)
    } else if b"__VERIFIER_error".as_slice() == name {
        Some(Builtin::ReachError)
    } else if b"__VERIFIER_nondet_int".as_slice() == name {
        Some(Builtin::AnyInt)
    } else if b"__VERIFIER_nondet_uint".as_slice() == name {
        Some(Builtin::AnyUint)
    } else if b"__VERIFIER_nondet_bool".as_slice() == name {
        Some(Builtin::AnyBool)
    } else if b"__VERIFIER_atomic_begin".as_slice() == name {
        Some(Builtin::Begin)
    } else if b"__VERIFIER_atomic_end".as_slice() == name {
        Some(Builtin::Finish)
    } else if b"__sync_synchronize".as_slice() == name {
        Some(Builtin::Synchronize)
    } else {
        None
    }
}

/// Whether a program may define a function of this name, though it is that of a built-in call.
pub(crate) fn may_be_defined(name: &[u8]) -> bool
    ensures { result ≡ names.may_be_defined name.now }
{
    b"assert".as_slice() == name || b"reach_error".as_slice() == name
}

/// The function with a body of a name, the first where there are more; none where no item of these is one.
pub fn function_named<'a>(items: &'a [Item], name: &[u8]) -> Option<&'a Function>
    ensures { option_copied result ≡ names.function_named (names.functions_of items.now) name.now }
{
    for item in items {
        match item {
            Item::Function(function) => {
                if function.name.as_slice() == name {
                    return Some(function);
                }
            }
            Item::Prototype { .. } => {}
            Item::Shared(_) => {}
        }
    }
    None
}
