//! Table files.
ghost use Rattle.std.specs.Prelude.{◌≤◌};

use crate::answer::{Answer, lines_of};
use crate::row::{Row, number_of};
use crate::scans::{by_file, options_of};
use lexkit::{
    Fault, MAX_POSITIONS, MAX_STATES, MemorySink, Options, ScanError, TableError, generate,
    read_tables, write_tables,
};
use std::alloc::{AllocError, Global};

/// The table file of a specification, where it has one.
fn file_of(alloc: Global, text: &[u8], options: Options) -> Option<Vec<u8>>
    requires few_positions { options.limits.positions ≤ MAX_POSITIONS }
    requires few_states { options.limits.states ≤ MAX_STATES }
{
    let made = generate(alloc, text, options).ok()?.made;
    let mut file = MemorySink::new(alloc);
    write_tables(&made.tables, &mut file).ok()?;
    Some(file.into_bytes())
}

/// Writes the table file of a specification.
pub(crate) fn file(alloc: Global, row: &Row<'_>) -> Result<Answer, AllocError> {
    match file_of(alloc, row.value("spec"), options_of(row)) {
        Some(file) => Ok(Answer::of_bytes(alloc, file)),
        None => Answer::telling(alloc, "no file\n"),
    }
}

/// Tells whether two specifications have the same file, where the flag is one of the second.
pub(crate) fn equal(alloc: Global, row: &Row<'_>) -> Result<Answer, AllocError> {
    let first = file_of(alloc, row.value("spec"), Options::new());
    let second = file_of(alloc, row.value("again"), options_of(row));
    let (Some(first), Some(second)) = (first, second) else {
        return Answer::telling(alloc, "no file\n");
    };
    let is_same = first.as_slice() == second.as_slice();
    Answer::telling(alloc, if is_same { "equal\n" } else { "others\n" })
}

/// What is written of the table that is read from the bytes.
fn rewritten(alloc: Global, bytes: &[u8]) -> Result<Vec<u8>, TableError> {
    let tables = read_tables(alloc, bytes)?;
    let mut sink = MemorySink::new(alloc);
    match write_tables(&tables, &mut sink) {
        Ok(()) => Ok(sink.into_bytes()),
        Err(_) => Err(TableError::OutOfMemory),
    }
}

/// A scan by a table file that is written as it was read, or why the bytes are none, also for that scan.
fn read_and_scanned(alloc: Global, bytes: &[u8], input: &[u8]) -> Result<Answer, AllocError> {
    let scan = by_file(alloc, bytes, input)?;
    match rewritten(alloc, bytes) {
        Ok(again) if again.as_slice() == bytes => Ok(scan),
        Ok(_) => Answer::telling(alloc, "written otherwise\n"),
        Err(error) => {
            let told = lines_of(alloc, Fault::Scan(ScanError::Table(error)))?;
            let refused = Answer {
                written: Vec::new(alloc),
                told,
            };
            if scan.is(&refused) {
                Ok(refused)
            } else {
                Answer::telling(alloc, "refused otherwise by a scan\n")
            }
        }
    }
}

/// Reads a table file, writes it again, and scans by it.
pub(crate) fn table(alloc: Global, row: &Row<'_>) -> Result<Answer, AllocError> {
    read_and_scanned(alloc, row.value("file"), row.value("input"))
}

/// A file with other bytes from a place on, of which some may stand behind its end.
fn changed(alloc: Global, file: &[u8], at: usize, put: &[u8]) -> Result<Vec<u8>, AllocError> {
    let mut bytes = Vec::from_slice(alloc, file.get(..at).unwrap_or(file))?;
    bytes.extend_from_slice(put)?;
    bytes.extend_from_slice(file.get(bytes.len()..).unwrap_or(b""))?;
    Ok(bytes)
}

/// Does the same with the file of a specification that is changed from a place on.
pub(crate) fn change(alloc: Global, row: &Row<'_>) -> Result<Answer, AllocError> {
    let file = file_of(alloc, row.value("spec"), options_of(row));
    match (file, number_of(row.value("at"))) {
        (Some(file), Some(at)) => {
            let bytes = changed(alloc, file.as_slice(), at, row.value("put"))?;
            read_and_scanned(alloc, bytes.as_slice(), row.value("input"))
        }
        _ => Answer::telling(alloc, "no file\n"),
    }
}
