//! Why nothing is shown, or not all.

ghost use Rattle.std.specs.Prelude.{◌≡◌};

use lexkit::{Failure, GenError, ScanError, TableError};
use lexlook_specs::PictureError;
use thiserror::Error;

/// Why nothing is shown, or not all.
#[derive(Clone, Copy, Debug, PartialEq, Eq, Error)]
pub enum LookError {
    /// No automaton was made, and nothing was written.
    #[error("{0}")]
    Refused(GenError),
    /// The bytes are no table file, and nothing was written.
    #[error("{0}")]
    Table(TableError),
    /// Memory ran out while it was written.
    #[error("out of memory")]
    OutOfMemory,
    /// It could not be written.
    #[error("write fault")]
    Write,
}

impl From<GenError> for LookError {
    ghost use Rattle.lexlook_calls.specs.declared.error.LookError.TheVariants.{Refused};

    ghost from_gives = { λ e refused. refused ≡ Refused e };

    /// A text that was refused.
    fn from(error: GenError) -> LookError {
        LookError::Refused(error)
    }
}

impl From<PictureError> for LookError {
    ghost use Rattle.lexlook_calls.specs.Errors.{told_of};

    ghost from_gives = { λ e told. told ≡ told_of e };

    /// A picture that was not drawn whole.
    fn from(error: PictureError) -> LookError {
        match error {
            PictureError::OutOfMemory => LookError::OutOfMemory,
            PictureError::Write => LookError::Write,
        }
    }
}

impl From<LookError> for Failure {
    ghost use Rattle.lexlook_calls.specs.Errors.{failure_of};

    ghost from_gives = { λ error failure. failure ≡ failure_of error };

    /// How the program reports it: a file that is refused as a scan by it is.
    fn from(error: LookError) -> Failure {
        match error {
            LookError::Refused(error) => Failure::Scan(ScanError::Generate(error)),
            LookError::Table(error) => Failure::Scan(ScanError::Table(error)),
            LookError::OutOfMemory => Failure::Scan(ScanError::Generate(GenError::OutOfMemory)),
            LookError::Write => Failure::Output,
        }
    }
}
