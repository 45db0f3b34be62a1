// The names that a lowered program has and no text: each holds a dot.
ghost use Rattle.std.specs.Prelude.{◌≡◌, ◌++◌, IfOk};
ghost use Rattle.cond_lower.specs.Lowering as lowering;

use dg_base::Bytes;
use std::alloc::{AllocError, Global};

fn with(alloc: Global, name: &[u8], more: &[u8]) -> Result<Bytes, AllocError>
    ensures { IfOk result (λ n. n ≡ name.now ++ more.now) }
{
    let mut text = Bytes::from_slice(alloc, name)?;
    text.append(Bytes::from_slice(alloc, more)?)?;
    Ok(text)
}

/// How many threads wait.
pub(crate) fn waiting(alloc: Global, cond: &[u8]) -> Result<Bytes, AllocError>
    ensures { IfOk result (λ n. n ≡ lowering.waiting cond.now) }
{
    with(alloc, cond, b".waiting")
}

/// How many tokens signals have given.
pub(crate) fn tokens(alloc: Global, cond: &[u8]) -> Result<Bytes, AllocError>
    ensures { IfOk result (λ n. n ≡ lowering.tokens cond.now) }
{
    with(alloc, cond, b".tokens")
}

fn section(alloc: Global, cond: &[u8], kind: &[u8]) -> Result<Bytes, AllocError>
    ensures { IfOk result (λ n. n ≡ lowering.section cond.now kind.now) }
{
    let end = with(alloc, cond, kind)?;
    with(alloc, b"__VERIFIER_atomic_", end.as_slice())
}

/// One thread more waits.
pub(crate) fn enter(alloc: Global, cond: &[u8]) -> Result<Bytes, AllocError>
    ensures { IfOk result (λ n. n ≡ lowering.enter cond.now) }
{
    section(alloc, cond, b".enter")
}

/// A waiting thread takes a token.
pub(crate) fn take(alloc: Global, cond: &[u8]) -> Result<Bytes, AllocError>
    ensures { IfOk result (λ n. n ≡ lowering.take cond.now) }
{
    section(alloc, cond, b".take")
}

/// One waiting thread is given a token.
pub(crate) fn signal(alloc: Global, cond: &[u8]) -> Result<Bytes, AllocError>
    ensures { IfOk result (λ n. n ≡ lowering.signal cond.now) }
{
    section(alloc, cond, b".signal")
}

/// Each waiting thread is given a token.
pub(crate) fn broadcast(alloc: Global, cond: &[u8]) -> Result<Bytes, AllocError>
    ensures { IfOk result (λ n. n ≡ lowering.broadcast cond.now) }
{
    section(alloc, cond, b".broadcast")
}

/// No thread waits, and there are no tokens.
pub(crate) fn init(alloc: Global, cond: &[u8]) -> Result<Bytes, AllocError>
    ensures { IfOk result (λ n. n ≡ lowering.init cond.now) }
{
    section(alloc, cond, b".init")
}
