//! Why a scan stopped.

use thiserror::Error;

/// Why a turn was refused.
#[derive(Clone, Copy, Debug, PartialEq, Eq, Error)]
pub enum RunError {
    /// The source failed.
    #[error("read fault")]
    Read,
    /// The turn wants one read more than the scan may make.
    #[error("too many reads")]
    TooManyReads,
    /// The sink failed.
    #[error("write fault")]
    Write,
    /// Memory ran out.
    #[error("out of memory")]
    OutOfMemory,
    /// The stack of start conditions was full at a push, or empty at a pop.
    #[error("condition stack")]
    Stack,
    /// An earlier turn of the same scan was refused.
    #[error("failed")]
    Failed,
}
