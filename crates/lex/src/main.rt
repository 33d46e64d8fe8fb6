//! The program lex: it makes table files of specifications, and scans standard input by a specification or a table file.
//!
//! - `main`: which of the three the command line asks for (`run`), and both scans (`scan`).
//! - `reading`: the files that a specification is made of, and table files.
//! - `generating`: where warnings, the table file, the report of states that back up and the statistics go.
//! - `flushing`: that the last three are written whole, and then flushed.
//!
//! What is asked for is read by lex_command. What is made, scanned and reported is lexkit's, and proved there. So here it is
//! decided alone which file is read or made, and in which order. `args` and `data/` try that, and scripts in scripts/. That what
//! is written beside a scan is flushed before all is well is promised here.
//!
//! - **All is made before anything is written**, so a refusal leaves the files of an earlier run alone. The table file is
//!   written under its own name, and not under another one first: a reader refuses one that was cut short.
//! - **Files are joined as they are**, with nothing between them. Reading ends one byte past the limit: files after that
//!   are not opened, since what stands in them can change no answer.
//! - **`--scan-spec` makes the machine once.** Where warnings are written, `make_ready` makes it with them, and `scan_ready`
//!   scans by it. With `-w` `scan_spec` does both.
//! - **A file that opens but cannot be read**, as a folder, is 66, as one that does not open. So is a table file of more
//!   than 268,435,456 bytes, which no table has. An output file that cannot be made is a write fault, 74, with no name.
#![tactic(auto)]

ghost use Rattle.std.specs.Prelude.{◌≡◌, ◌≤◌};

mod flushing;
mod generating;
mod reading;

use crate::generating::{Outputs, make, ready_with_warnings};
use crate::reading::{read_specification, read_table_file};
use lex_command::{ArgsError, Job, PatternFlags, read_args};
use lexkit::{
    ByteReader, ByteWriter, Failure, Flat, FromBytes, MAX_POSITIONS, MAX_STATES, Options, Sink,
    ToBytes, command_words, read_spec_file, report_failure, scan_ready, scan_spec, scan_table,
};
use std::alloc::AllocError;
use std::io;
use std::process::ExitCode;

/// What the command line asks for. It stands by itself, so that its room on the stack is given back.
#[inline(never)]
fn job_of(rt: &HostRuntime) -> Result<Job, Failure> {
    let words = command_words(rt)?;
    match read_args(rt.alloc(), words.as_slice()) {
        Ok(job) => Ok(job),
        Err(ArgsError::Usage) => Err(Failure::Usage),
        Err(ArgsError::OutOfMemory) => Err(Failure::from(AllocError)),
    }
}

/// What a scan goes by.
#[derive(Drop)]
enum By<'a> {
    /// The text of a specification, and how it is read.
    Spec(&'a [u8], PatternFlags),
    /// The machine that was made ready of a specification.
    Ready(&'a Flat),
    /// A table file.
    Table(&'a [u8]),
}

/// Scans standard input to standard output.
fn scan(rt: &HostRuntime, by: By<'_>) -> Result<u8, Failure> {
    let mut source = FromBytes::new(ByteReader::new(rt.alloc(), rt.stdin())?);
    let mut sink = ToBytes::new(ByteWriter::new(rt.alloc(), io::writer(rt))?);
    let result = match by {
        By::Spec(text, patterns) => {
            scan_spec(
                rt.alloc(),
                text,
                options_of(patterns),
                &mut source,
                &mut sink,
            )
        }
        By::Ready(machine) => scan_ready(rt.alloc(), machine, &mut source, &mut sink),
        By::Table(bytes) => scan_table(rt.alloc(), bytes, &mut source, &mut sink),
    };
    if result.is_err() {
        // What was written before the fault is still to be seen, and the fault is reported in any case.
        let _ = sink.flush();
    }
    Ok(result?)
}

/// How a specification is read, with the limits of the program.
fn options_of(patterns: PatternFlags) -> Options
    ensures few_positions { result.limits.positions ≤ MAX_POSITIONS }
    ensures few_states { result.limits.states ≤ MAX_STATES }
    ensures fold { result.fold ≡ patterns.fold }
    ensures posix { result.posix ≡ patterns.posix }
{
    Options::reading(patterns.fold, patterns.posix)
}

/// Scans standard input by the specification in a file, and first writes its warnings unless it is to be quiet.
fn scan_by_spec(
    rt: &HostRuntime,
    file: String,
    patterns: PatternFlags,
    quiet: bool,
) -> Result<u8, Failure> {
    let text = read_spec_file(rt, file)?;
    if quiet {
        return scan(rt, By::Spec(text.as_slice(), patterns));
    }
    let made = ready_with_warnings(rt, text.as_slice(), options_of(patterns))?;
    scan(rt, By::Ready(&made.machine))
}

/// Does what the command line asks for, and answers with the status of the program.
fn run(rt: &HostRuntime) -> Result<u8, Failure> {
    match job_of(rt)? {
        Job::Generate {
            files,
            out,
            stdout,
            stats,
            backup,
            patterns,
            quiet,
        } => {
            let text = read_specification(rt, files.as_slice())?;
            let outputs = Outputs {
                table: out,
                to_stdout: stdout,
                stats,
                backup,
                quiet,
            };
            make(rt, text.as_slice(), options_of(patterns), &outputs)?;
            Ok(0)
        }
        Job::ScanSpec {
            file,
            patterns,
            quiet,
        } => scan_by_spec(rt, file, patterns, quiet),
        Job::ScanTable { file } => {
            let bytes = read_table_file(rt, file)?;
            scan(rt, By::Table(bytes.as_slice()))
        }
    }
}

/// Runs, and reports what ended the run before its work was done.
fn main(rt: HostRuntime) -> ExitCode {
    match run(&rt) {
        Ok(status) => ExitCode::from(status),
        Err(failure) => report_failure(&rt, &failure),
    }
}
