// The gate that each worker passes.

/// Called once by each worker before its first step. No answer depends on it.
pub trait Gate {
    /// `worker` is the worker's number, from 0.
    fn pass(&self, worker: u32);
}

/// The gate that stands open: it does nothing.
#[derive(Debug, Clone, Copy, PartialEq, Eq, Drop)]
pub struct OpenGate;

impl Gate for OpenGate {
    fn pass(&self, _worker: u32) {}
}
