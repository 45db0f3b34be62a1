// The calls on condition variables.
ghost use Rattle.std.specs.Prelude.{◌≡◌};
ghost use Rattle.std.specs.Str.{bytes_eq};
ghost use Rattle.cond_lower.specs.Calls as calls;

use c_tree::TypeWord;

/// A call on a condition variable.
#[derive(Debug, Clone, Copy, PartialEq, Eq, Drop)]
pub enum CondCall {
    /// `pthread_cond_wait(&c, &m)`
    Wait,
    /// `pthread_cond_signal(&c)`
    Signal,
    /// `pthread_cond_broadcast(&c)`
    Broadcast,
    /// `pthread_cond_init(&c, 0)`
    Init,
    /// `pthread_cond_destroy(&c)`
    Destroy,
}

/// The call of a name; none for a name that is that of no call on a condition variable.
pub(crate) fn cond_call_named(name: &[u8]) -> Option<CondCall>
    ensures { result ≡ calls.cond_call_named name.now }
{
    if b"pthread_cond_wait".as_slice() == name {
        Some(CondCall::Wait)
    } else if b"pthread_cond_signal".as_slice() == name {
        Some(CondCall::Signal)
    } else if b"pthread_cond_broadcast".as_slice() == name {
        Some(CondCall::Broadcast)
    } else if b"pthread_cond_init".as_slice() == name {
        Some(CondCall::Init)
    } else if b"pthread_cond_destroy".as_slice() == name {
        Some(CondCall::Destroy)
    } else {
        None
    }
}

/// Whether this is what a condition variable may begin with.
pub(crate) fn is_cond_start(name: &[u8]) -> bool
    ensures { result ≡ bytes_eq calls.cond_start name.now }
{
    b"PTHREAD_COND_INITIALIZER".as_slice() == name
}

/// Whether the type is that of condition variables.
pub(crate) fn is_cond(word: TypeWord) -> bool
    ensures { result ≡ calls.is_cond word }
{
    match word {
        TypeWord::Cond => true,
        _ => false,
    }
}
