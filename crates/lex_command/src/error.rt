//! Why a command line is refused.
ghost use Rattle.std.specs.Prelude.{◌≡◌};

use clap::error::ErrorKind;
use std::alloc::AllocError;
use thiserror::Error;

/// Why a command line is refused.
#[derive(Clone, Copy, Debug, PartialEq, Eq, Error)]
pub enum ArgsError {
    /// The words are in none of the forms that the program knows.
    #[error("usage")]
    Usage,
    /// Memory ran out while they were read.
    #[error("out of memory")]
    OutOfMemory,
}

impl From<AllocError> for ArgsError {
    ghost use Rattle.lex_command.specs.declared.error.ArgsError.TheVariants.{OutOfMemory};

    ghost from_gives = { λ _ e. e ≡ OutOfMemory };

    /// A refused allocation is want of memory.
    fn from(_e: AllocError) -> ArgsError {
        ArgsError::OutOfMemory
    }
}

impl From<clap::Error> for ArgsError {
    ghost use Rattle.lex_command.specs.Refusal.{refusal_of};
    ghost use Rattle.clap.specs.Values.{kind_of};

    ghost from_gives = { λ e r. r ≡ refusal_of (kind_of e) };

    /// A refused parse is want of memory where clap says so, and else a wrong command line.
    fn from(e: clap::Error) -> ArgsError {
        match e.kind() {
            ErrorKind::OutOfMemory => ArgsError::OutOfMemory,
            _ => ArgsError::Usage,
        }
    }
}
