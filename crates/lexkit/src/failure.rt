//! What ends a program before its work is done.
ghost use Rattle.std.specs.Prelude.{◌≡◌};
ghost use Rattle.lexkit.specs.Failures.{IsReportedAs, out_of_memory};

use crate::errors::{GenError, ScanError};
use crate::faults::Fault;
use lextab::WriteFault;
use std::alloc::AllocError;
use std::io::ErrorKind;

/// What ended a program before its work was done. It owns the name of the file.
#[derive(Debug, Drop)]
pub enum Failure {
    /// The command line was in none of the forms that the program knows.
    Usage,
    /// The specification or the table file was refused, or the scan stopped.
    Scan(ScanError),
    /// This file can't be read.
    File(String),
    /// The output can't be written.
    Output,
}

impl Failure {
    ghost use Rattle.std.specs.declared.io.ErrorKind.TheVariants.{OutOfMemory};
    ghost use Rattle.lexkit.specs.declared.failure.Failure.{Failure};

    /// What is reported where this file cannot be read for this reason: that memory ran out, or the file's name.
    pub fn of_file(reason: ErrorKind, name: String) -> Failure
        ensures memory { reason ≡ OutOfMemory → result ≡ out_of_memory }
        ensures other { (reason ≡ OutOfMemory → ⊥) → result ≡ Failure.File name }
    {
        match reason {
            ErrorKind::OutOfMemory => Failure::from(AllocError),
            _ => Failure::File(name),
        }
    }

    /// The fault that is reported.
    pub fn fault(&self) -> Fault<'_>
        ensures { IsReportedAs self.now result }
    {
        match self {
            Failure::Usage => Fault::Usage,
            Failure::Scan(error) => Fault::Scan(*error),
            Failure::File(name) => Fault::File(name.as_str()),
            Failure::Output => Fault::Output,
        }
    }
}

impl From<ScanError> for Failure {
    ghost use Rattle.lexkit.specs.declared.failure.Failure.{Failure};

    ghost from_gives = { λ error failure. failure ≡ Failure.Scan error };

    /// A scan that was refused or stopped.
    fn from(error: ScanError) -> Failure {
        Failure::Scan(error)
    }
}

impl From<GenError> for Failure {
    ghost use Rattle.lexkit.specs.declared.failure.Failure.{Failure};
    ghost use Rattle.lexkit.specs.declared.errors.ScanError.TheVariants.{Generate};

    ghost from_gives = { λ error failure. failure ≡ Failure.Scan (Generate error) };

    /// A specification that was refused.
    fn from(error: GenError) -> Failure {
        Failure::Scan(ScanError::Generate(error))
    }
}

impl From<WriteFault> for Failure {
    ghost use Rattle.lexkit.specs.declared.failure.Failure.{Failure};

    ghost from_gives = { λ _ failure. failure ≡ Failure.Output };

    /// A write or a flush that failed.
    fn from(_error: WriteFault) -> Failure {
        Failure::Output
    }
}

impl From<AllocError> for Failure {
    ghost from_gives = { λ _ failure. failure ≡ out_of_memory };

    /// Want of memory, wherever it came up.
    fn from(_error: AllocError) -> Failure {
        Failure::Scan(ScanError::Generate(GenError::OutOfMemory))
    }
}
