//! Why nothing is told, or not all.
ghost use Rattle.std.specs.Prelude.{◌≡◌};

use lexkit::{Failure, GenError, ScanError};
use std::alloc::AllocError;
use thiserror::Error;

/// Why nothing is told, or not all.
#[derive(Clone, Copy, Debug, PartialEq, Eq, Error)]
pub enum CheckError {
    /// Memory ran out, and nothing was written.
    #[error("out of memory")]
    OutOfMemory,
    /// It could not be written.
    #[error("write fault")]
    Write,
}

impl From<AllocError> for CheckError {
    ghost use Rattle.lexlook_check.specs.declared.error.CheckError.TheVariants.{OutOfMemory};

    ghost from_gives = { λ _ e. e ≡ OutOfMemory };

    /// A request for memory was refused.
    fn from(_error: AllocError) -> CheckError {
        CheckError::OutOfMemory
    }
}

impl From<CheckError> for Failure {
    ghost use Rattle.lexlook_check.specs.Telling.{failure_told};

    ghost from_gives = { λ error failure. failure ≡ failure_told error };

    /// How the program reports it.
    fn from(error: CheckError) -> Failure {
        match error {
            CheckError::OutOfMemory => Failure::Scan(ScanError::Generate(GenError::OutOfMemory)),
            CheckError::Write => Failure::Output,
        }
    }
}
