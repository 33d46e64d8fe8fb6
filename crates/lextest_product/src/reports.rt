//! What is told of a specification beside its tables.
use crate::answer::Answer;
use crate::row::Row;
use crate::scans::{options_of, refused};
use lexkit::{
    Generated, MemorySink, generate, make_ready, write_backup, write_stats, write_tables,
    write_warnings,
};
use std::alloc::{AllocError, Global};

/// The warnings of what was made, and its states that back up.
fn reported(alloc: Global, all: &Generated) -> Result<Answer, AllocError> {
    let mut warnings = MemorySink::new(alloc);
    let mut backup = MemorySink::new(alloc);
    let warned = write_warnings(&all.made.warnings, &mut warnings).is_ok();
    if !warned || write_backup(&all.backup, &mut backup).is_err() {
        return Answer::telling(alloc, "a write fault\n");
    }
    Ok(Answer {
        written: warnings.into_bytes(),
        told: backup.into_bytes(),
    })
}

/// Whether what is made ready of the specification has the warnings of what was made of it.
fn is_ready_so(alloc: Global, row: &Row<'_>, all: &Generated) -> bool {
    match make_ready(alloc, row.value("spec"), options_of(row)) {
        Ok(ready) => ready.warnings == all.made.warnings,
        Err(_) => false,
    }
}

/// Writes the warnings, and tells the states that back up.
pub(crate) fn report(alloc: Global, row: &Row<'_>) -> Result<Answer, AllocError> {
    match generate(alloc, row.value("spec"), options_of(row)) {
        Ok(all) if !is_ready_so(alloc, row, &all) => {
            Answer::telling(alloc, "other warnings for a scan\n")
        }
        Ok(all) => reported(alloc, &all),
        Err(error) => refused(alloc, error),
    }
}

/// The counts of what was made, and how long its table file is.
fn counted(alloc: Global, all: &Generated) -> Result<Answer, AllocError> {
    let mut file = MemorySink::new(alloc);
    let mut counts = MemorySink::new(alloc);
    let filed = write_tables(&all.made.tables, &mut file).is_ok();
    if !filed || write_stats(&all.made.stats, &mut counts).is_err() {
        return Answer::telling(alloc, "a write fault\n");
    }
    let length = file.written().len();
    let told = format!(in alloc; "{length} bytes\n")?;
    Ok(Answer {
        written: counts.into_bytes(),
        told: Vec::from_slice(alloc, told.as_bytes())?,
    })
}

/// Writes the counts, and tells how long the table file is.
pub(crate) fn count(alloc: Global, row: &Row<'_>) -> Result<Answer, AllocError> {
    match generate(alloc, row.value("spec"), options_of(row)) {
        Ok(all) => counted(alloc, &all),
        Err(error) => refused(alloc, error),
    }
}
