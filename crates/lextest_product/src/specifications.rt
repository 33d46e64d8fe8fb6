//! Specifications that are read, and no more.
use crate::answer::Answer;
use crate::row::Row;
use crate::scans::read_options;
use lexspec::{SpecError, read_spec};
use std::alloc::{AllocError, Global};

/// The line and the name of a refusal.
fn refused(alloc: Global, error: SpecError) -> Result<Answer, AllocError> {
    let line = format!(in alloc; "{error}\n")?;
    Answer::telling(alloc, line.as_str())
}

/// Tells how many rules a specification has.
pub(crate) fn specification(alloc: Global, row: &Row<'_>) -> Result<Answer, AllocError> {
    match read_spec(alloc, row.value("spec"), read_options(row)) {
        Ok(spec) => {
            let count = spec.rules().len();
            let line = format!(in alloc; "{count} rules\n")?;
            Answer::telling(alloc, line.as_str())
        }
        Err(error) => refused(alloc, error),
    }
}

/// Tells the lines where code is skipped.
pub(crate) fn skipped(alloc: Global, row: &Row<'_>) -> Result<Answer, AllocError> {
    match read_spec(alloc, row.value("spec"), read_options(row)) {
        Ok(spec) => {
            let mut lines = String::new(alloc);
            for line in spec.skipped() {
                lines.push_str(&format!(in alloc; "{line}\n")?)?;
            }
            Answer::telling(alloc, lines.as_str())
        }
        Err(error) => refused(alloc, error),
    }
}
