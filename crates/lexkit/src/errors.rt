//! What a scan refuses, and why.

ghost use Rattle.std.specs.Prelude.{◌≡◌};

use lexauto::{BuildError, OutOfMemory};
use lexscan::RunError;
use lexspec::SpecError;
use lextab::TableError;
use thiserror::Error;

/// Why a specification is not scanned with, or why its scan stopped.
#[derive(Clone, Copy, Debug, PartialEq, Eq, Error)]
pub enum ScanError {
    /// No scanner was made: the source and the sink were not touched.
    #[error("{0}")]
    Generate(GenError),
    /// The bytes are no table file, or memory ran out before the scan: the source and the sink were not touched.
    #[error("{0}")]
    Table(TableError),
    /// The scan began, and stopped.
    #[error("{0}")]
    Run(RunError),
}

/// Why no scanner is made of a specification.
#[derive(Clone, Copy, Debug, PartialEq, Eq, Error)]
pub enum GenError {
    /// The text is refused, at this line.
    #[error("{0}")]
    Spec(SpecError),
    /// Its automaton passes a limit, or memory ran out while it was built.
    #[error("{0}")]
    Build(BuildError),
    /// Memory ran out elsewhere.
    #[error("out of memory")]
    OutOfMemory,
}

impl From<OutOfMemory> for GenError {
    ghost use Rattle.lexkit.specs.declared.errors.GenError.{GenError};

    ghost from_gives = { λ _ e. e ≡ GenError.OutOfMemory };

    /// Want of memory outside of the reader and the builder.
    fn from(_error: OutOfMemory) -> GenError {
        GenError::OutOfMemory
    }
}
