//! What is answered of a row.
use crate::kind::Kind;
use crate::row::Row;
use crate::{
    actions, arguments, looks, nodes, patterns, reports, scans, specifications, tables, tokens,
};
use lexkit::{Fault, MemorySink, write_fault};
use std::alloc::{AllocError, Global};

/// What is written, and what is told beside it: nothing where all goes well.
#[derive(Drop)]
pub(crate) struct Answer {
    pub(crate) written: Vec<u8>,
    pub(crate) told: Vec<u8>,
}

impl Answer {
    /// All goes well, and this is written.
    pub(crate) fn of_bytes(alloc: Global, written: Vec<u8>) -> Answer {
        Answer {
            written,
            told: Vec::new(alloc),
        }
    }

    /// All goes well, and this is written.
    pub(crate) fn of_text(alloc: Global, text: &str) -> Result<Answer, AllocError> {
        Ok(Answer {
            written: Vec::from_slice(alloc, text.as_bytes())?,
            told: Vec::new(alloc),
        })
    }

    /// Nothing is written, and this is told.
    pub(crate) fn telling(alloc: Global, text: &str) -> Result<Answer, AllocError> {
        Ok(Answer {
            written: Vec::new(alloc),
            told: Vec::from_slice(alloc, text.as_bytes())?,
        })
    }

    /// Whether this is the other one.
    pub(crate) fn is(&self, other: &Answer) -> bool {
        self.written.as_slice() == other.written.as_slice()
            && self.told.as_slice() == other.told.as_slice()
    }

    /// Whether this is what the row says.
    pub(crate) fn is_of(&self, row: &Row<'_>) -> bool {
        self.written.as_slice() == row.value("written") && self.told.as_slice() == row.value("told")
    }
}

/// The status that the program ends with for a fault, and its line.
pub(crate) fn lines_of(alloc: Global, fault: Fault<'_>) -> Result<Vec<u8>, AllocError> {
    let status = fault.status();
    let mut sink = MemorySink::new(alloc);
    let _ = write_fault(fault, &mut sink);
    let first = format!(in alloc; "status {status}\n")?;
    let mut lines = Vec::from_slice(alloc, first.as_bytes())?;
    lines.extend_from_slice(sink.written())?;
    Ok(lines)
}

/// What is answered of a row.
pub(crate) fn answered(alloc: Global, row: &Row<'_>) -> Result<Answer, AllocError> {
    match row.kind {
        Kind::Action => actions::action(alloc, row),
        Kind::Arguments => arguments::arguments(alloc, row),
        Kind::Change => tables::change(alloc, row),
        Kind::Check => looks::check(alloc, row),
        Kind::Compare => looks::compare(alloc, row),
        Kind::Count => reports::count(alloc, row),
        Kind::Counts => looks::counts(alloc, row),
        Kind::Cover => looks::cover(alloc, row),
        Kind::Cut => patterns::cut(alloc, row),
        Kind::End => actions::end(alloc, row),
        Kind::Equal => tables::equal(alloc, row),
        Kind::File => tables::file(alloc, row),
        Kind::Header => looks::header(alloc, row),
        Kind::Lengths => patterns::lengths(alloc, row),
        Kind::Letters => arguments::letters(alloc, row),
        Kind::Limit => scans::limit(alloc, row),
        Kind::Lines => looks::lines(alloc, row),
        Kind::Look => arguments::look(alloc, row),
        Kind::Obstacle => looks::obstacle(alloc, row),
        Kind::Overlaps => looks::overlaps(alloc, row),
        Kind::Pattern => patterns::pattern(alloc, row),
        Kind::Picture => looks::picture(alloc, row),
        Kind::Positions => patterns::positions(alloc, row),
        Kind::Reads => scans::reads(alloc, row),
        Kind::Report => reports::report(alloc, row),
        Kind::Same => looks::same(alloc, row),
        Kind::Scan => scans::scan(alloc, row),
        Kind::Skipped => specifications::skipped(alloc, row),
        Kind::Specification => specifications::specification(alloc, row),
        Kind::Suite => looks::suite(alloc, row),
        Kind::Table => tables::table(alloc, row),
        Kind::Tokens => tokens::tokens(alloc, row),
        Kind::Trace => looks::trace(alloc, row),
        Kind::Tree => nodes::tree(alloc, row),
        Kind::Words => looks::words(alloc, row),
    }
}
