//! Why bytes are no table file.
ghost use Rattle.std.specs.Prelude.{◌≡◌};
ghost use Rattle.lextab_file.specs.Refusals.{memory_refused, is_out_of_memory, in_file};
ghost use Rattle.lextab_file.specs.Views.{is_memory};
ghost use Rattle.lextab_file.specs.declared.error.ReadError.TheVariants.{OutOfMemory};

use std::alloc::{AllocError, AllocFailed};
use thiserror::Error;

/// Why bytes are no table file.
#[derive(Clone, Copy, Debug, PartialEq, Eq, Error)]
pub enum TableError {
    /// The first six bytes are not `LEXTAB`.
    #[error("BadMagic")]
    BadMagic,
    /// The version is none that is read.
    #[error("BadVersion")]
    BadVersion,
    /// The bytes end inside of a field.
    #[error("Truncated")]
    Truncated,
    /// A table file stands there, and more bytes after it.
    #[error("TrailingBytes")]
    TrailingBytes,
    /// The field at this offset, counted from 0, has a value that it may not have there.
    #[error("BadField at {0}")]
    BadField(usize),
    /// A request for memory was refused.
    #[error("OutOfMemory")]
    OutOfMemory,
}

impl From<AllocError> for TableError {
    ghost from_gives = { λ _ e. e ≡ memory_refused };

    /// A request for memory was refused.
    fn from(_error: AllocError) -> TableError {
        TableError::OutOfMemory
    }
}

/// Why the front of bytes is no table file.
#[derive(Clone, Copy, PartialEq, Eq, Drop)]
pub enum ReadError {
    BadMagic,
    BadVersion,
    Truncated,
    /// How many bytes stand from the field's start to the end.
    BadField(usize),
    OutOfMemory,
}

impl From<AllocError> for ReadError {
    ghost from_gives = { λ _ e. e ≡ OutOfMemory };

    /// A request for memory was refused.
    fn from(_error: AllocError) -> ReadError {
        ReadError::OutOfMemory
    }
}

impl<T: Drop> From<AllocFailed<T>> for ReadError {
    ghost from_gives = { λ _ e. e ≡ OutOfMemory };

    /// A request for memory was refused, and what was handed in is dropped.
    fn from(_error: AllocFailed<T>) -> ReadError {
        ReadError::OutOfMemory
    }
}

impl ReadError {
    /// The same refusal of a file of this length, with the field's offset.
    pub fn in_file(self, len: usize) -> TableError
        ensures told { result ≡ in_file len self }
        ensures memory { is_out_of_memory result ≡ is_memory self }
    {
        match self {
            ReadError::BadMagic => TableError::BadMagic,
            ReadError::BadVersion => TableError::BadVersion,
            ReadError::Truncated => TableError::Truncated,
            ReadError::BadField(left) => TableError::BadField(len.saturating_sub(left)),
            ReadError::OutOfMemory => TableError::OutOfMemory,
        }
    }
}
