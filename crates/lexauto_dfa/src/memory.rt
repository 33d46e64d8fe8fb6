//! Want of memory.
use std::alloc::{AllocError, AllocFailed};
use thiserror::Error;

/// Memory ran out.
#[derive(Clone, Copy, Debug, PartialEq, Eq, Error)]
#[error("OutOfMemory")]
pub struct OutOfMemory;

impl From<AllocError> for OutOfMemory {
    /// A request for memory was refused.
    fn from(_error: AllocError) -> Self {
        OutOfMemory
    }
}

impl<T: Drop> From<AllocFailed<T>> for OutOfMemory {
    /// A request for memory was refused, and what was handed in is dropped.
    fn from(_error: AllocFailed<T>) -> Self {
        OutOfMemory
    }
}
