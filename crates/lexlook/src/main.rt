//! The program lexlook: it shows what a specification of lex does.
//!
//! - `main`: which subcommand the command line asks for (`run`), and for each one where it reads and writes.
//! - `reading`: the files that are read, of which those that are compared or cut may be table files.
//! - `progress`: how much of the input is read, on standard error.
//! - `failure`: what ends the program before its work is done, and the line that tells it.
//!
//! What is asked for is read by lex_command. What is written and answered is that of lexlook_calls, lexlook_check,
//! lexlook_counts and lexlook_suites, and proved there. A read and a status are as those of the program lex, by lexkit.
//!
//! A subcommand has its words in lex_command, its call in lexlook_calls or a room of its own, and here its case of `tell`.
//! What that writes `show` puts on standard output and flushes, and answers the status: 1 for an answer no. A trace and the
//! definition of sets have functions of their own, since the one reads too and the other has no options. So have counts, and what is told by
//! `cover`, which reads its input whole, and a suite, which may go to the files of a folder.
//!
//! - **A line of a failure names the file**, where one is refused or not read. Of two that are compared it is the first if
//!   that is refused beside itself, since the call tells the failure alone.
#![tactic(auto)]

ghost use Rattle.std.specs.Prelude.{◌≡◌, ◌≤◌, ◌<◌, ◌-◌, ◌^◌, length, OnOk};

mod failure;
mod progress;
mod reading;

use crate::failure::{LookFailure, report};
use crate::progress::{Progress, Watched};
use crate::reading::{ReadFile, read_file, read_files, read_spec_file, source_files};
use lex_command::{
    About, ArgsError, Look, PatternFlags, Subcommand, read_look_args, write_help, write_version,
};
use lexkit::{
    ByteReader, ByteWriter, Failure, FromBytes, MAX_POSITIONS, MAX_STATES, MAX_TABLE_BYTES,
    MemorySink, Options, RunError, ScanError, Sink, ToBytes, ToWrite, command_words, read_more,
};
use lexlook_calls::{
    Given, Language, LookError, draw, tell_header, tell_lines, tell_overlaps, tell_same,
    tell_words, trace,
};
use lexlook_check::{Form, SourceFile, tell_check};
use lexlook_counts::{CountForm, tell_counts, tell_places};
use lexlook_suites::{Suite, make_suite, tell_cover, tell_suite};
use lexlook_unicode::{DefinitionError, UNICODE, definition_of};
use std::alloc::{AllocError, Global};
use std::fs::File;
use std::io;
use std::io::ErrorKind;
use std::process::ExitCode;

/// What the command line asks for.
fn look_of(rt: &HostRuntime) -> Result<Look, Failure> {
    let words = command_words(rt)?;
    match read_look_args(rt.alloc(), words.as_slice()) {
        Ok(look) => Ok(look),
        Err(ArgsError::Usage) => Err(Failure::Usage),
        Err(ArgsError::OutOfMemory) => Err(Failure::from(AllocError)),
    }
}

/// How a specification is read, with the limits of lex.
fn options_of(patterns: PatternFlags) -> Options
    ensures few_positions { result.limits.positions ≤ MAX_POSITIONS }
    ensures few_states { result.limits.states ≤ MAX_STATES }
    ensures fold { result.fold ≡ patterns.fold }
    ensures posix { result.posix ≡ patterns.posix }
{
    Options::reading(patterns.fold, patterns.posix)
}

/// Writes the help or a version to standard output.
fn show_about(rt: &HostRuntime, what: About) -> Result<ExitCode, Failure> {
    let mut sink = ToWrite::new(io::writer(rt));
    match what {
        About::Help => write_help(&mut sink)?,
        About::Version => write_version(&mut sink)?,
        About::UnicodeVersion => sink.put(UNICODE.as_bytes())?,
    }
    sink.flush()?;
    Ok(ExitCode::SUCCESS)
}

/// What is written to standard output, and of which bytes.
#[derive(Drop)]
enum Told<'a> {
    Picture(&'a [u8]),
    Words(&'a [u8]),
    Overlaps(&'a [u8]),
    Lines(&'a [u8]),
    Same(Given<'a>, Given<'a>),
    Check(&'a [SourceFile<'a>], Form, bool),
    Header(&'a [u8], Language),
}

/// Writes what is asked for, and answers whether the answer is yes.
fn tell<K: Sink>(
    alloc: Global,
    what: Told<'_>,
    options: Options,
    sink: &mut K,
) -> Result<bool, Failure>
    requires few_positions { options.limits.positions ≤ MAX_POSITIONS }
    requires few_states { options.limits.states ≤ MAX_STATES }
    requires few { K.failures sink.old < 2 ^ 64 - 1 }
    ensures { OnOk result (K.failures sink.new ≡ K.failures sink.old) }
{
    match what {
        Told::Picture(text) => draw(alloc, text, options, sink)?,
        Told::Words(text) => tell_words(alloc, text, options, sink)?,
        Told::Overlaps(text) => tell_overlaps(alloc, text, options, sink)?,
        Told::Header(text, language) => tell_header(alloc, text, options, language, sink)?,
        Told::Lines(bytes) => return Ok(tell_lines(alloc, bytes, options, sink)?),
        Told::Same(left, right) => return Ok(tell_same(alloc, left, right, options, sink)?),
        Told::Check(files, form, strict) => {
            return Ok(tell_check(alloc, files, options, form, strict, sink)?);
        }
    }
    Ok(true)
}

/// Writes to standard output what is asked for, and answers with the status: 0 for yes, 1 for no.
fn show(rt: &HostRuntime, what: Told<'_>, options: Options) -> Result<ExitCode, Failure>
    requires few_positions { options.limits.positions ≤ MAX_POSITIONS }
    requires few_states { options.limits.states ≤ MAX_STATES }
{
    let mut sink = ToBytes::new(ByteWriter::new(rt.alloc(), io::writer(rt))?);
    let yes = tell(rt.alloc(), what, options, &mut sink)?;
    sink.flush()?;
    if yes {
        Ok(ExitCode::SUCCESS)
    } else {
        Ok(ExitCode::from(1))
    }
}

/// A file as it is compared.
fn given(file: &ReadFile) -> Given<'_> {
    Given {
        name: file.name.as_str(),
        bytes: file.bytes.as_slice(),
    }
}

/// Whether a file is refused beside itself.
fn is_refused(rt: &HostRuntime, file: &ReadFile, options: Options) -> bool
    requires few_positions { options.limits.positions ≤ MAX_POSITIONS }
    requires few_states { options.limits.states ≤ MAX_STATES }
{
    let mut sink = MemorySink::new(rt.alloc());
    let told = tell_same(rt.alloc(), given(file), given(file), options, &mut sink);
    matches!(told, Err(LookError::Refused(_) | LookError::Table(_)))
}

/// Compares two files. A failure is that of the one that is refused, the first if both are.
fn compare_files(
    rt: &HostRuntime,
    left: ReadFile,
    right: ReadFile,
    options: Options,
) -> Result<ExitCode, LookFailure>
    requires few_positions { options.limits.positions ≤ MAX_POSITIONS }
    requires few_states { options.limits.states ≤ MAX_STATES }
{
    match show(rt, Told::Same(given(&left), given(&right)), options) {
        Ok(status) => Ok(status),
        Err(failure) if is_refused(rt, &left, options) => Err(LookFailure::of(failure, left.name)),
        Err(failure) => Err(LookFailure::of(failure, right.name)),
    }
}

/// Writes a line for each match of a scan of standard input, with its place or not. What has no places is flushed before a
/// read that may wait.
fn show_trace(
    rt: &HostRuntime,
    text: &[u8],
    offsets: bool,
    options: Options,
) -> Result<ExitCode, Failure>
    requires few_positions { options.limits.positions ≤ MAX_POSITIONS }
    requires few_states { options.limits.states ≤ MAX_STATES }
{
    let mut source = FromBytes::new(ByteReader::new(rt.alloc(), rt.stdin())?);
    let mut sink = ToBytes::new(ByteWriter::new(rt.alloc(), io::writer(rt))?);
    let result = if offsets {
        tell_places(rt.alloc(), text, options, &mut source, &mut sink)
    } else {
        trace(rt.alloc(), text, options, &mut source, &mut sink)
    };
    // What was written before a fault is still to be seen, and the fault of the scan is the one that is reported.
    let flushed = sink.flush();
    let status = result?;
    flushed?;
    Ok(ExitCode::from(status))
}

/// Scans standard input, and writes to standard output how often rules match it. Nothing is written before the end.
fn count_input(
    rt: &HostRuntime,
    text: &[u8],
    form: CountForm,
    options: Options,
    progress: Option<Progress>,
) -> Result<ExitCode, Failure>
    requires few_positions { options.limits.positions ≤ MAX_POSITIONS }
    requires few_states { options.limits.states ≤ MAX_STATES }
{
    let reader = Watched::new(rt, progress, rt.stdin());
    let mut source = FromBytes::new(ByteReader::new(rt.alloc(), reader)?);
    let mut sink = ToBytes::new(ByteWriter::new(rt.alloc(), io::writer(rt))?);
    let status = tell_counts(rt.alloc(), text, options, form, &mut source, &mut sink)?;
    sink.flush()?;
    Ok(ExitCode::from(status))
}

/// The same, with its progress.
fn show_counts(
    rt: &HostRuntime,
    text: &[u8],
    json: bool,
    options: Options,
) -> Result<ExitCode, Failure>
    requires few_positions { options.limits.positions ≤ MAX_POSITIONS }
    requires few_states { options.limits.states ≤ MAX_STATES }
{
    let form = if json {
        CountForm::Json
    } else {
        CountForm::Columns
    };
    let progress = Progress::of_input(rt);
    let counted = count_input(rt, text, form, options, progress);
    // After a fault of the scan it may still be shown.
    if let (Err(_), Some(progress)) = (&counted, progress) {
        progress.clear(rt);
    }
    counted
}

/// The bytes of standard input, all of them.
fn read_input(rt: &HostRuntime) -> Result<Vec<u8>, Failure> {
    let mut input = Vec::new(rt.alloc());
    match read_more(rt, "-", u64::MAX, &mut input) {
        Ok(()) => Ok(input),
        Err(error) => Err(match error.kind() {
            ErrorKind::OutOfMemory => Failure::from(AllocError),
            _ => Failure::from(ScanError::Run(RunError::Read)),
        }),
    }
}

/// Scans standard input, which is read whole, and writes to standard output what its matches go through.
fn show_cover(rt: &HostRuntime, text: &[u8], options: Options) -> Result<ExitCode, Failure>
    requires few_positions { options.limits.positions ≤ MAX_POSITIONS }
    requires few_states { options.limits.states ≤ MAX_STATES }
{
    let input = read_input(rt)?;
    let mut sink = ToBytes::new(ByteWriter::new(rt.alloc(), io::writer(rt))?);
    let status = tell_cover(rt.alloc(), text, options, &input, &mut sink)?;
    sink.flush()?;
    Ok(ExitCode::from(status))
}

/// Writes the inputs of a suite that were made for a condition, by its number, to a file of a folder.
fn write_condition(
    rt: &HostRuntime,
    suite: &Suite,
    folder: &str,
    condition: usize,
) -> Result<(), Failure>
    requires { condition < length suite.now.names.items }
{
    let lines = suite.lines_in(rt.alloc(), condition)?;
    let name = match std::str::from_utf8(suite.names[condition].as_slice()) {
        Ok(name) => name,
        Err(_) => return Err(Failure::Output),
    };
    let path = format!(in rt.alloc(); "{folder}/{name}.txt")?;
    let file = match File::create(rt, path.as_str()) {
        Ok(file) => file,
        Err(_) => return Err(Failure::Output),
    };
    let mut sink = ToBytes::new(ByteWriter::new(rt.alloc(), file)?);
    sink.put(lines.as_slice())?;
    sink.flush()?;
    Ok(())
}

/// Writes the inputs of a suite to a folder, a file for each condition, and to standard output the edges that none of them
/// goes over.
fn write_suite(rt: &HostRuntime, suite: &Suite, folder: &str) -> Result<(), Failure> {
    for condition in 0..suite.names.len() {
        write_condition(rt, suite, folder, condition)?;
    }
    let mut sink = ToWrite::new(io::writer(rt));
    sink.put(suite.left.as_slice())?;
    sink.flush()?;
    Ok(())
}

/// Writes the suite of a specification to standard output, or into a folder.
fn show_suite(
    rt: &HostRuntime,
    text: &[u8],
    folder: &Option<String>,
    options: Options,
) -> Result<ExitCode, Failure>
    requires few_positions { options.limits.positions ≤ MAX_POSITIONS }
    requires few_states { options.limits.states ≤ MAX_STATES }
{
    if let Some(folder) = folder {
        let suite = make_suite(rt.alloc(), text, options)?;
        write_suite(rt, &suite, folder.as_str())?;
        return Ok(ExitCode::SUCCESS);
    }
    let mut sink = ToBytes::new(ByteWriter::new(rt.alloc(), io::writer(rt))?);
    tell_suite(rt.alloc(), text, options, &mut sink)?;
    sink.flush()?;
    Ok(ExitCode::SUCCESS)
}

/// Writes the definition of sets of code points to standard output. A word that names no set is usage, and so are sets of
/// which there is no pattern.
fn show_letters(rt: &HostRuntime, sets: &[String]) -> Result<ExitCode, Failure> {
    let line = match definition_of(rt.alloc(), sets) {
        Ok(line) => line,
        Err(DefinitionError::OutOfMemory) => return Err(Failure::from(AllocError)),
        Err(_) => return Err(Failure::Usage),
    };
    let mut sink = ToWrite::new(io::writer(rt));
    sink.put(line.as_slice())?;
    sink.flush()?;
    Ok(ExitCode::SUCCESS)
}

/// Writes to standard output every fault of the specification that the files are together.
fn show_check(
    rt: &HostRuntime,
    files: &[ReadFile],
    strict: bool,
    json: bool,
    options: Options,
) -> Result<ExitCode, Failure>
    requires few_positions { options.limits.positions ≤ MAX_POSITIONS }
    requires few_states { options.limits.states ≤ MAX_STATES }
{
    let files = source_files(rt.alloc(), files)?;
    let form = if json { Form::Json } else { Form::Lines };
    show(rt, Told::Check(files.as_slice(), form, strict), options)
}

/// Reads the file of which this is shown, one byte more than it may have at most.
fn read_one(rt: &HostRuntime, what: Subcommand, file: String) -> Result<ReadFile, LookFailure> {
    match what {
        Subcommand::Lines => read_file(rt, file, MAX_TABLE_BYTES + 1),
        _ => read_spec_file(rt, file),
    }
}

/// Shows this of a file.
fn show_one(
    rt: &HostRuntime,
    what: Subcommand,
    bytes: &[u8],
    options: Options,
) -> Result<ExitCode, Failure>
    requires few_positions { options.limits.positions ≤ MAX_POSITIONS }
    requires few_states { options.limits.states ≤ MAX_STATES }
{
    match what {
        Subcommand::Picture => show(rt, Told::Picture(bytes), options),
        Subcommand::Lines => show(rt, Told::Lines(bytes), options),
        Subcommand::Words => show(rt, Told::Words(bytes), options),
        Subcommand::Overlaps => show(rt, Told::Overlaps(bytes), options),
        Subcommand::Trace { offsets } => show_trace(rt, bytes, offsets, options),
        Subcommand::Cover => show_cover(rt, bytes, options),
        Subcommand::Count { json } => show_counts(rt, bytes, json, options),
        Subcommand::Header { rust } => {
            let language = if rust { Language::Rust } else { Language::C };
            show(rt, Told::Header(bytes, language), options)
        }
    }
}

/// What was shown of a file, or why not.
fn shown_of(shown: Result<ExitCode, Failure>, file: String) -> Result<ExitCode, LookFailure> {
    match shown {
        Ok(status) => Ok(status),
        Err(failure) => Err(LookFailure::of(failure, file)),
    }
}

/// Shows what the command line asks for, and answers with the status of the program.
fn run(rt: &HostRuntime) -> Result<ExitCode, LookFailure> {
    match look_of(rt)? {
        Look::About(what) => Ok(show_about(rt, what)?),
        Look::One {
            what,
            file,
            patterns,
        } => {
            let read = read_one(rt, what, file)?;
            let shown = show_one(rt, what, read.bytes.as_slice(), options_of(patterns));
            shown_of(shown, read.name)
        }
        Look::Same {
            left,
            right,
            patterns,
        } => {
            let first = read_file(rt, left, MAX_TABLE_BYTES + 1)?;
            let second = read_file(rt, right, MAX_TABLE_BYTES + 1)?;
            compare_files(rt, first, second, options_of(patterns))
        }
        Look::Letters { sets } => Ok(show_letters(rt, sets.as_slice())?),
        Look::Check {
            files,
            strict,
            json,
            patterns,
        } => {
            let read = read_files(rt, files)?;
            let files = read.as_slice();
            Ok(show_check(rt, files, strict, json, options_of(patterns))?)
        }
        Look::Suite {
            file,
            folder,
            patterns,
        } => {
            let read = read_spec_file(rt, file)?;
            let shown = show_suite(rt, read.bytes.as_slice(), &folder, options_of(patterns));
            shown_of(shown, read.name)
        }
    }
}

/// Runs, and reports what ended the run before its work was done.
fn main(rt: HostRuntime) -> ExitCode {
    match run(&rt) {
        Ok(status) => status,
        Err(failure) => report(&rt, &failure),
    }
}
