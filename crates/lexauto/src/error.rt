//! Why there is no automaton for a specification.
ghost use Rattle.std.specs.Prelude.{◌≡◌};
ghost use Rattle.lexauto.specs.Errors.{build_error};
ghost use Rattle.lexauto.specs.declared.error.BuildError.TheVariants.{OutOfMemory};

use crate::explore::ExploreError;
use std::alloc::AllocError;
use thiserror::Error;

/// The reason, by its name.
#[derive(Clone, Copy, Debug, PartialEq, Eq, Error)]
pub enum BuildError {
    /// The rules have more positions together than their limit.
    #[error("TooManyPositions")]
    TooManyPositions,
    /// There are more states than their limit.
    #[error("TooManyStates")]
    TooManyStates,
    /// A request for memory was refused.
    #[error("OutOfMemory")]
    OutOfMemory,
}

impl From<AllocError> for BuildError {
    ghost from_gives = { λ _ e. e ≡ OutOfMemory };

    /// A request for memory was refused.
    fn from(_e: AllocError) -> Self {
        BuildError::OutOfMemory
    }
}

impl From<ExploreError> for BuildError {
    ghost from_gives = { λ x e. e ≡ build_error x };

    /// Too many keys are too many states.
    fn from(e: ExploreError) -> Self {
        match e {
            ExploreError::TooMany => BuildError::TooManyStates,
            ExploreError::Memory => BuildError::OutOfMemory,
        }
    }
}
