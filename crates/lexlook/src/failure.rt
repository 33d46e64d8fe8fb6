//! What ends the program before its work is done, and the line that tells it.
ghost use Rattle.std.specs.Prelude.{◌≡◌, ◌+◌, ◌-◌, ◌^◌, ◌<◌, List, ℕ, true, false};
ghost use Rattle.std.specs.Process.{exit_status};
ghost use Rattle.lex_io.specs.Sink.{Appended, fault_count};
ghost use Rattle.lexkit.specs.Failures.{out_of_memory};
ghost use Rattle.lexkit.specs.Faults.{with_newline};
ghost use Rattle.lexlook.specs.Failures.{failure_front, failure_line, failure_status, failure_words, is_refusal};
ghost use Rattle.lexlook.specs.Failures.{reason_words};
ghost use Rattle.lexlook.specs.declared.failure.LookFailure.{LookFailure};

use lexauto_reports::put_all;
use lexkit::{Failure, Sink, ToWrite, WriteFault, write_words};
use std::alloc::AllocError;
use std::io::ErrorKind;
use std::process::ExitCode;

/// What ended the program before its work was done.
#[derive(Drop)]
pub enum LookFailure {
    /// No file is refused.
    Plain(Failure),
    /// This file is refused so.
    Refused { file: String, failure: Failure },
    /// This file is a table file, where a specification is asked for.
    Table { file: String },
    /// This file cannot be read, for the reason that has this number. It is 0 where the system gives none.
    Unread { file: String, reason: u32 },
}

impl LookFailure {
    ghost use Rattle.std.specs.declared.io.ErrorKind.TheVariants.{OutOfMemory};

    /// What ended the work on this file. It is the file's just where it is refused.
    pub fn of(failure: Failure, file: String) -> LookFailure
        ensures refused { is_refusal failure ≡ true → result ≡ LookFailure.Refused file failure }
        ensures plain { is_refusal failure ≡ false → result ≡ LookFailure.Plain failure }
    {
        if failure.fault().status() == 65 {
            LookFailure::Refused { file, failure }
        } else {
            LookFailure::Plain(failure)
        }
    }

    /// Why this file was not read: that memory ran out, or the reason with this number.
    pub fn unread(kind: ErrorKind, reason: u32, file: String) -> LookFailure
        ensures memory { kind ≡ OutOfMemory → result ≡ LookFailure.Plain out_of_memory }
        ensures other { (kind ≡ OutOfMemory → ⊥) → result ≡ LookFailure.Unread file reason }
    {
        match kind {
            ErrorKind::OutOfMemory => LookFailure::Plain(Failure::from(AllocError)),
            _ => LookFailure::Unread { file, reason },
        }
    }

    /// The exit status: that of lex, 65 for a table file in the place of a specification, and 66 for a file that cannot be
    /// read.
    fn status(&self) -> u8
        ensures { result ≡ failure_status self.now }
    {
        match self {
            LookFailure::Plain(failure) => failure.fault().status(),
            LookFailure::Refused { failure, .. } => failure.fault().status(),
            LookFailure::Table { .. } => 65,
            LookFailure::Unread { .. } => 66,
        }
    }
}

impl From<Failure> for LookFailure {
    ghost use Rattle.lexlook.specs.declared.failure.LookFailure.{LookFailure};

    ghost from_gives = { λ failure told. told ≡ LookFailure.Plain failure };

    /// What ended the work on no file.
    fn from(failure: Failure) -> LookFailure {
        LookFailure::Plain(failure)
    }
}

/// Why a file cannot be read, in the system's words.
fn reason_words(number: u32) -> &'static str
    ensures { result.now ≡ reason_words number }
{
    match number {
        2 => "No such file or directory",
        5 => "Input/output error",
        13 => "Permission denied",
        20 => "Not a directory",
        21 => "Is a directory",
        36 => "File name too long",
        40 => "Too many levels of symbolic links",
        _ => "cannot be read",
    }
}

/// Writes what the line of a failure begins with: the program, and the name of a file that is refused or not read.
fn put_front<K: Sink>(failure: &LookFailure, sink: &mut K) -> Result<(), WriteFault>
    requires { K.failures sink.old < 2 ^ 64 - 1 }
    ensures bytes { Appended (λ xs. K.wrote sink.old xs sink.new) (failure_front failure.now) result }
    ensures failures { K.failures sink.new ≡ K.failures sink.old + fault_count result }
{
    match failure {
        LookFailure::Plain(_) => put_all(sink, &["lexlook: "]),
        LookFailure::Refused { file, .. } => put_all(sink, &["lexlook: ", file.as_str(), ": "]),
        LookFailure::Table { file } => put_all(sink, &["lexlook: ", file.as_str(), ": "]),
        LookFailure::Unread { file, .. } => put_all(sink, &["lexlook: ", file.as_str(), ": "]),
    }
}

/// Writes the words of a failure and a newline.
fn put_words<K: Sink>(failure: &LookFailure, sink: &mut K) -> Result<(), WriteFault>
    requires { K.failures sink.old < 2 ^ 64 - 1 }
    ensures bytes { Appended (λ xs. K.wrote sink.old xs sink.new) (with_newline (failure_words failure.now)) result }
    ensures failures { K.failures sink.new ≡ K.failures sink.old + fault_count result }
{
    match failure {
        LookFailure::Plain(failure) => write_words(failure.fault(), sink),
        LookFailure::Refused { failure, .. } => write_words(failure.fault(), sink),
        LookFailure::Table { .. } => put_all(sink, &["a table file, and no specification", "\n"]),
        LookFailure::Unread { reason, .. } => put_all(sink, &[reason_words(*reason), "\n"]),
    }
}

/// Writes the line that tells a failure, as `lexlook: words.l: No such file or directory`. It takes no memory.
pub fn write_failure<K: Sink>(failure: &LookFailure, sink: &mut K) -> Result<(), WriteFault>
    requires { K.failures sink.old < 2 ^ 64 - 1 }
    ensures bytes { Appended (λ xs. K.wrote sink.old xs sink.new) (failure_line failure.now) result }
    ensures failures { K.failures sink.new ≡ K.failures sink.old + fault_count result }
{
    if let Err(fault) = put_front(failure, sink) {
        return Err(fault);
    }
    put_words(failure, sink)
}

/// Reports what ended the program, in a line on standard error, and answers the status that it exits with.
pub fn report(rt: &HostRuntime, failure: &LookFailure) -> ExitCode
    ensures { exit_status result ≡ failure_status failure.now }
{
    let _ = write_failure(failure, &mut ToWrite::new(rt.stderr()));
    ExitCode::from(failure.status())
}
