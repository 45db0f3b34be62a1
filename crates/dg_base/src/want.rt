// Want of memory.
use std::alloc::{AllocError, AllocFailed};

/// Want of memory: the one answer that no clause ties to a cause.
#[derive(Debug, Clone, Copy, PartialEq, Eq, Drop)]
pub struct OutOfMemory;

impl From<AllocError> for OutOfMemory {
    fn from(_: AllocError) -> Self {
        OutOfMemory
    }
}

impl<T: Drop> From<AllocFailed<T>> for OutOfMemory {
    fn from(_: AllocFailed<T>) -> Self {
        OutOfMemory
    }
}
