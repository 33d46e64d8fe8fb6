//! Scans.
ghost use Rattle.std.specs.Prelude.{◌≤◌};

use crate::answer::{Answer, lines_of};
use crate::row::Row;
use lexkit::{
    Fault, GenError, Generated, MAX_POSITIONS, MAX_STATES, MemorySink, MemorySource, Options,
    ReadOptions, ScanError, Source, generate, make_ready, read_spec, scan_by, scan_ready,
    scan_spec, scan_table, write_tables,
};
use std::alloc::{AllocError, Global};

/// How the patterns of a row are read.
pub(crate) fn read_options(row: &Row<'_>) -> ReadOptions {
    ReadOptions {
        fold: row.has_flag("-i"),
        posix: row.has_flag("-X"),
    }
}

/// The options of a row, with the greatest limits.
pub(crate) fn options_of(row: &Row<'_>) -> Options
    ensures few_positions { result.limits.positions ≤ MAX_POSITIONS }
    ensures few_states { result.limits.states ≤ MAX_STATES }
{
    let ReadOptions { fold, posix } = read_options(row);
    Options::reading(fold, posix)
}

/// Whether nothing may be read before this answer.
fn is_refusal(answer: &Result<u8, ScanError>) -> bool {
    matches!(
        answer,
        Err(ScanError::Generate(_)) | Err(ScanError::Table(_))
    )
}

/// What is told of an answer of a scan that called its source so often.
fn told_of(
    alloc: Global,
    answer: Result<u8, ScanError>,
    calls: u64,
) -> Result<Vec<u8>, AllocError> {
    if is_refusal(&answer) && calls != 0 {
        return Vec::from_slice(alloc, b"refused after a read\n");
    }
    match answer {
        Ok(0) => Ok(Vec::new(alloc)),
        Ok(status) => {
            let line = format!(in alloc; "status {status}\n")?;
            Vec::from_slice(alloc, line.as_bytes())
        }
        Err(error) => lines_of(alloc, Fault::Scan(error)),
    }
}

/// What is answered of a scan.
pub(crate) fn answer_of(
    alloc: Global,
    answer: Result<u8, ScanError>,
    sink: MemorySink,
    calls: u64,
) -> Result<Answer, AllocError> {
    Ok(Answer {
        written: sink.into_bytes(),
        told: told_of(alloc, answer, calls)?,
    })
}

/// A scan by the text of a specification.
fn by_text(alloc: Global, row: &Row<'_>) -> Result<Answer, AllocError> {
    let mut source = MemorySource::new(row.value("input"));
    let mut sink = MemorySink::new(alloc);
    let text = row.value("spec");
    let answer = scan_spec(alloc, text, options_of(row), &mut source, &mut sink);
    answer_of(alloc, answer, sink, source.calls())
}

/// What is answered where a specification is refused.
pub(crate) fn refused(alloc: Global, error: GenError) -> Result<Answer, AllocError> {
    let fault = Fault::Scan(ScanError::Generate(error));
    Ok(Answer {
        written: Vec::new(alloc),
        told: lines_of(alloc, fault)?,
    })
}

/// A scan by a specification that was read.
fn by_value(alloc: Global, row: &Row<'_>) -> Result<Answer, AllocError> {
    match read_spec(alloc, row.value("spec"), read_options(row)) {
        Ok(spec) => {
            let mut source = MemorySource::new(row.value("input"));
            let mut sink = MemorySink::new(alloc);
            let answer = scan_by(alloc, &spec, Options::new().limits, &mut source, &mut sink);
            answer_of(alloc, answer, sink, source.calls())
        }
        Err(error) => refused(alloc, GenError::Spec(error)),
    }
}

/// A scan by what is made ready of the text of a specification.
fn by_ready(alloc: Global, row: &Row<'_>) -> Result<Answer, AllocError> {
    match make_ready(alloc, row.value("spec"), options_of(row)) {
        Ok(ready) => {
            let mut source = MemorySource::new(row.value("input"));
            let mut sink = MemorySink::new(alloc);
            let answer = scan_ready(alloc, &ready.machine, &mut source, &mut sink);
            answer_of(alloc, answer, sink, source.calls())
        }
        Err(error) => refused(alloc, error),
    }
}

/// A scan by a table file.
pub(crate) fn by_file(alloc: Global, file: &[u8], input: &[u8]) -> Result<Answer, AllocError> {
    let mut source = MemorySource::new(input);
    let mut sink = MemorySink::new(alloc);
    let answer = scan_table(alloc, file, &mut source, &mut sink);
    answer_of(alloc, answer, sink, source.calls())
}

/// A scan by the file of the tables that are made of a specification.
fn by_made(alloc: Global, row: &Row<'_>) -> Result<Answer, AllocError> {
    match generate(alloc, row.value("spec"), options_of(row)) {
        Ok(Generated { made, backup: _ }) => {
            let mut file = MemorySink::new(alloc);
            let _ = write_tables(&made.tables, &mut file);
            by_file(alloc, file.written(), row.value("input"))
        }
        Err(error) => refused(alloc, error),
    }
}

/// Whether scans by what is made ready of a specification, and by the file of its tables, are answered so.
fn is_made_so(alloc: Global, row: &Row<'_>, wanted: &Answer) -> Result<bool, AllocError> {
    Ok(by_ready(alloc, row)?.is(wanted) && by_made(alloc, row)?.is(wanted))
}

/// What is answered of a scan by a specification: as text, as read, as made ready, and by the file of its tables.
pub(crate) fn scan(alloc: Global, row: &Row<'_>) -> Result<Answer, AllocError> {
    let answer = by_text(alloc, row)?;
    if !by_value(alloc, row)?.is(&answer) {
        return Answer::telling(alloc, "otherwise by the specification that was read\n");
    }
    if !is_made_so(alloc, row, &answer)? {
        return Answer::telling(alloc, "otherwise by tables\n");
    }
    Ok(answer)
}

/// What is answered of a scan by the text of a specification alone, and of what is made of one that is refused.
pub(crate) fn limit(alloc: Global, row: &Row<'_>) -> Result<Answer, AllocError> {
    let answer = by_text(alloc, row)?;
    if !answer.told.is_empty() && !is_made_so(alloc, row, &answer)? {
        return Answer::telling(alloc, "otherwise by tables\n");
    }
    Ok(answer)
}

/// How often a scan calls its source, and the byte that this gives next.
pub(crate) fn reads(alloc: Global, row: &Row<'_>) -> Result<Answer, AllocError> {
    let mut source = MemorySource::new(row.value("input"));
    let mut sink = MemorySink::new(alloc);
    let text = row.value("spec");
    let answer = scan_spec(alloc, text, options_of(row), &mut source, &mut sink);
    let calls = source.calls();
    let line = match source.next() {
        _ if answer.is_err() => String::from_str(alloc, "refused\n")?,
        Ok(Some(byte)) => {
            let letter = byte as char;
            format!(in alloc; "{calls} calls, then {letter}\n")?
        }
        Ok(None) => format!(in alloc; "{calls} calls, then the end\n")?,
        Err(_) => String::from_str(alloc, "a fault\n")?,
    };
    Answer::telling(alloc, line.as_str())
}
