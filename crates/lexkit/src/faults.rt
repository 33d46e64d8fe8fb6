//! The line on standard error, and the exit status.
ghost use Rattle.std.specs.Prelude.{◌≡◌, ℕ, ◌+◌, ◌-◌, ◌^◌, ◌<◌, ◌≤◌, List, ◌++◌};
ghost use Rattle.lex_io.specs.Sink.{Appended, fault_count};
ghost use Rattle.lexauto_reports.specs.Joined.{joined};
ghost use Rattle.lexkit.specs.Faults.{line_of, with_newline, fault_words, scan_words, gen_words, gen_status};
ghost use Rattle.lexkit.specs.Faults.{table_words, table_status, scan_status, run_status, build_words, spec_words};
ghost use Rattle.lexkit.specs.Faults.{lacks_memory, run_words};

use crate::errors::{GenError, ScanError};
use itoa::Buffer;
use lexauto::BuildError;
use lexauto_reports::put_all;
use lexscan::RunError;
use lexspec::{PatternError, PatternErrorKind, SpecError, SpecErrorKind};
use lextab::{Sink, TableError, WriteFault};

/// What ended the program before its work was done.
#[derive(Clone, Copy, Debug)]
pub enum Fault<'a> {
    /// The command line was in none of the forms that the program knows.
    Usage,
    /// The scan was refused, or stopped.
    Scan(ScanError),
    /// This file can't be read.
    File(&'a str),
    /// The output can't be written.
    Output,
}

impl Fault<'_> {
    ghost use Rattle.lexkit.specs.Faults.{status_of};

    /// The exit status: 64 for the command line, 65 for the specification or the table, 66 for a file, 70 for the
    /// stack of conditions, 71 for want of memory, and 74 for a read or a write.
    pub fn status(&self) -> u8
        ensures { result ≡ status_of self.now }
    {
        match self {
            Fault::Usage => 64,
            Fault::Scan(error) => scan_status(*error),
            Fault::File(_) => 66,
            Fault::Output => 74,
        }
    }
}

/// The status of a scan that was refused, or stopped.
fn scan_status(error: ScanError) -> u8
    ensures { result ≡ scan_status error }
{
    match error {
        ScanError::Generate(error) => gen_status(error),
        ScanError::Table(error) => table_status(error),
        ScanError::Run(error) => run_status(error),
    }
}

/// 70 for the stack of conditions, 71 for want of memory, and 74 for a read or a write.
fn run_status(error: RunError) -> u8
    ensures { result ≡ run_status error }
{
    match error {
        RunError::Stack => 70,
        RunError::OutOfMemory => 71,
        _ => 74,
    }
}

/// 65 for a refusal of the text or of its automaton, and 71 for want of memory.
fn gen_status(error: GenError) -> u8
    ensures { result ≡ gen_status error }
{
    match error {
        GenError::Spec(error) if lacks_memory(error.kind) => 71,
        GenError::Build(BuildError::OutOfMemory) | GenError::OutOfMemory => 71,
        GenError::Spec(_) | GenError::Build(_) => 65,
    }
}

/// 65 for bytes that are no table file, and 71 for want of memory.
fn table_status(error: TableError) -> u8
    ensures { result ≡ table_status error }
{
    match error {
        TableError::OutOfMemory => 71,
        _ => 65,
    }
}

/// Writes the line of lex that tells a fault, as `lex: line 2: BadDefinitionLine`. It takes no memory.
pub fn write_fault<K: Sink>(fault: Fault<'_>, sink: &mut K) -> Result<(), WriteFault>
    requires { K.failures sink.old < 2 ^ 64 - 1 }
    ensures bytes { Appended (λ xs. K.wrote sink.old xs sink.new) (line_of (fault_words fault.entry)) result }
    ensures failures { K.failures sink.new ≡ K.failures sink.old + fault_count result }
{
    if let Err(fault) = sink.put(b"lex: ") {
        return Err(fault);
    }
    write_words(fault, sink)
}

/// Writes the words of a fault and a newline, as `line 2: BadDefinitionLine`. It takes no memory.
pub fn write_words<K: Sink>(fault: Fault<'_>, sink: &mut K) -> Result<(), WriteFault>
    requires { K.failures sink.old < 2 ^ 64 - 1 }
    ensures bytes { Appended (λ xs. K.wrote sink.old xs sink.new) (with_newline (fault_words fault.entry)) result }
    ensures failures { K.failures sink.new ≡ K.failures sink.old + fault_count result }
{
    match fault {
        Fault::Usage => write_line(&["usage"], sink),
        Fault::Scan(error) => write_scan_error(error, sink),
        Fault::File(name) => write_line(&["cannot read ", name], sink),
        Fault::Output => write_line(&["write fault"], sink),
    }
}

/// What each want of memory is told as.
const OUT_OF_MEMORY: &str = "out of memory";

/// Writes the words of a scan that was refused, or stopped.
fn write_scan_error<K: Sink>(error: ScanError, sink: &mut K) -> Result<(), WriteFault>
    requires { K.failures sink.old < 2 ^ 64 - 1 }
    ensures bytes { Appended (λ xs. K.wrote sink.old xs sink.new) (with_newline (scan_words error)) result }
    ensures failures { K.failures sink.new ≡ K.failures sink.old + fault_count result }
{
    match error {
        ScanError::Generate(error) => write_gen_error(error, sink),
        ScanError::Table(error) => write_table_error(error, sink),
        ScanError::Run(error) => write_line(&[run_text(error)], sink),
    }
}

/// Writes the words of a specification of which no scanner is made.
fn write_gen_error<K: Sink>(error: GenError, sink: &mut K) -> Result<(), WriteFault>
    requires { K.failures sink.old < 2 ^ 64 - 1 }
    ensures bytes { Appended (λ xs. K.wrote sink.old xs sink.new) (with_newline (gen_words error)) result }
    ensures failures { K.failures sink.new ≡ K.failures sink.old + fault_count result }
{
    match error {
        GenError::Spec(error) => write_spec_error(error, sink),
        GenError::Build(error) => write_line(&[build_text(error)], sink),
        GenError::OutOfMemory => write_line(&[OUT_OF_MEMORY], sink),
    }
}

/// Writes the words of bytes that are no table file, with the byte from 0 at which a field is wrong.
fn write_table_error<K: Sink>(error: TableError, sink: &mut K) -> Result<(), WriteFault>
    requires { K.failures sink.old < 2 ^ 64 - 1 }
    ensures bytes { Appended (λ xs. K.wrote sink.old xs sink.new) (with_newline (table_words error)) result }
    ensures failures { K.failures sink.new ≡ K.failures sink.old + fault_count result }
{
    match error {
        TableError::BadMagic => write_line(&["table: BadMagic"], sink),
        TableError::BadVersion => write_line(&["table: BadVersion"], sink),
        TableError::Truncated => write_line(&["table: Truncated"], sink),
        TableError::TrailingBytes => write_line(&["table: TrailingBytes"], sink),
        TableError::BadField(at) => {
            let mut place = Buffer::new();
            let place = place.format(at);
            write_line(&["table: BadField at ", place], sink)
        }
        TableError::OutOfMemory => write_line(&[OUT_OF_MEMORY], sink),
    }
}

/// The words of an automaton that was not built.
fn build_text(error: BuildError) -> &'static str
    ensures { result.now ≡ build_words error }
{
    match error {
        BuildError::TooManyPositions => "TooManyPositions",
        BuildError::TooManyStates => "TooManyStates",
        BuildError::OutOfMemory => OUT_OF_MEMORY,
    }
}

/// Writes the words of a text that spells no specification: its line, from 1, and in a pattern the byte from 0.
fn write_spec_error<K: Sink>(error: SpecError, sink: &mut K) -> Result<(), WriteFault>
    requires { K.failures sink.old < 2 ^ 64 - 1 }
    ensures bytes { Appended (λ xs. K.wrote sink.old xs sink.new) (with_newline (spec_words error)) result }
    ensures failures { K.failures sink.new ≡ K.failures sink.old + fault_count result }
{
    if lacks_memory(error.kind) {
        return write_line(&[OUT_OF_MEMORY], sink);
    }
    let name = error.kind.name();
    let mut line = Buffer::new();
    let line = line.format(error.line);
    match error.kind {
        SpecErrorKind::Pattern(pattern) => {
            let mut at = Buffer::new();
            let at = at.format(pattern.at);
            write_line(&["line ", line, ": ", name, " at ", at], sink)
        }
        _ => write_line(&["line ", line, ": ", name], sink),
    }
}

/// Whether the refusal says nothing of the text, since memory ran out.
fn lacks_memory(kind: SpecErrorKind) -> bool
    ensures { result ≡ lacks_memory kind }
{
    matches!(
        kind,
        SpecErrorKind::OutOfMemory
            | SpecErrorKind::Pattern(PatternError {
                kind: PatternErrorKind::OutOfMemory,
                ..
            })
    )
}

/// The words of a scan that stopped.
fn run_text(error: RunError) -> &'static str
    ensures { result.now ≡ run_words error }
{
    match error {
        RunError::Read => "read fault",
        RunError::TooManyReads => "too many reads",
        RunError::Write => "write fault",
        RunError::OutOfMemory => OUT_OF_MEMORY,
        RunError::Stack => "condition stack",
        RunError::Failed => "failed",
    }
}

/// Writes these parts and a newline. It takes no memory.
fn write_line<K: Sink>(parts: &[&str], sink: &mut K) -> Result<(), WriteFault>
    requires { K.failures sink.old < 2 ^ 64 - 1 }
    ensures bytes { Appended (λ xs. K.wrote sink.old xs sink.new) (with_newline (joined parts.now)) result }
    ensures failures { K.failures sink.new ≡ K.failures sink.old + fault_count result }
{
    if let Err(fault) = put_all(sink, parts) {
        return Err(fault);
    }
    sink.put(b"\n")
}
