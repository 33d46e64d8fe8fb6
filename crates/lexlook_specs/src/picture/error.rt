//! Why a picture is not written to its end.

ghost use Rattle.std.specs.Prelude.{◌≡◌};

use lex_io::WriteFault;
use std::alloc::AllocError;
use thiserror::Error;

/// Why a picture is not written to its end.
#[derive(Clone, Copy, Debug, PartialEq, Eq, Error)]
pub enum PictureError {
    /// The sink failed.
    #[error("write fault")]
    Write,
    /// Memory ran out.
    #[error("out of memory")]
    OutOfMemory,
}

impl From<WriteFault> for PictureError {
    ghost use Rattle.lexlook_specs.specs.declared.picture.error.PictureError.TheVariants.{Write};

    ghost from_gives = { λ _ e. e ≡ Write };

    fn from(_fault: WriteFault) -> PictureError {
        PictureError::Write
    }
}

impl From<AllocError> for PictureError {
    ghost use Rattle.lexlook_specs.specs.declared.picture.error.PictureError.TheVariants.{OutOfMemory};

    ghost from_gives = { λ _ e. e ≡ OutOfMemory };

    fn from(_error: AllocError) -> PictureError {
        PictureError::OutOfMemory
    }
}
