//! What lexlook writes.
use crate::answer::Answer;
use crate::escapes::escaped;
use crate::row::Row;
use crate::scans::{answer_of, options_of, refused};
use lexkit::{MemorySink, MemorySource, Tables, generate};
use lexlook_calls::{
    Given, Language, LookError, draw, tell_header, tell_lines, tell_overlaps, tell_same,
    tell_words, trace as trace_of,
};
use lexlook_check::{Form, SourceFile, tell_check};
use lexlook_counts::{CountForm, tell_counts, tell_places};
use lexlook_suites::{tell_cover, tell_suite};
use lexlook_tables::{Comparison, Difference, compare as compared, find_obstacle_in};
use std::alloc::{AllocError, Global};

/// What is answered of a look that writes this.
fn shown(
    alloc: Global,
    answer: Result<(), LookError>,
    sink: MemorySink,
) -> Result<Answer, AllocError> {
    let told = match answer {
        Ok(()) => Vec::new(alloc),
        Err(error) => {
            let line = format!(in alloc; "{error}\n")?;
            Vec::from_slice(alloc, line.as_bytes())?
        }
    };
    Ok(Answer {
        written: sink.into_bytes(),
        told,
    })
}

/// Where all is well just if nothing is written: what is answered.
fn shown_if(
    alloc: Global,
    answer: Result<bool, LookError>,
    sink: MemorySink,
) -> Result<Answer, AllocError> {
    match answer {
        Ok(well) if well != sink.written().is_empty() => Answer::telling(
            alloc,
            "answered otherwise\n",
        ),
        Ok(_) => shown(alloc, Ok(()), sink),
        Err(error) => shown(alloc, Err(error), sink),
    }
}

/// Writes the picture of a specification.
pub(crate) fn picture(alloc: Global, row: &Row<'_>) -> Result<Answer, AllocError> {
    let mut sink = MemorySink::new(alloc);
    let answer = draw(alloc, row.value("spec"), options_of(row), &mut sink);
    shown(alloc, answer, sink)
}

/// The names of the two files of a row: `a.l` and `b.l` where it has none.
fn names_of<'a>(row: &'a Row<'_>) -> (&'a str, &'a str) {
    let names = std::str::from_utf8(row.value("names")).unwrap_or("");
    names.split_once(' ').unwrap_or(("a.l", "b.l"))
}

/// Writes what two files do not do the same.
pub(crate) fn same(alloc: Global, row: &Row<'_>) -> Result<Answer, AllocError> {
    let (left, right) = names_of(row);
    let this = Given {
        name: left,
        bytes: row.value("spec"),
    };
    let that = Given {
        name: right,
        bytes: row.value("again"),
    };
    let mut sink = MemorySink::new(alloc);
    let answer = tell_same(alloc, this, that, options_of(row), &mut sink);
    shown_if(alloc, answer, sink)
}

/// Writes what stands against cuts at newlines.
pub(crate) fn lines(alloc: Global, row: &Row<'_>) -> Result<Answer, AllocError> {
    let mut sink = MemorySink::new(alloc);
    let answer = tell_lines(alloc, row.value("spec"), options_of(row), &mut sink);
    shown_if(alloc, answer, sink)
}

/// Writes which texts rules take.
pub(crate) fn words(alloc: Global, row: &Row<'_>) -> Result<Answer, AllocError> {
    let mut sink = MemorySink::new(alloc);
    let answer = tell_words(alloc, row.value("spec"), options_of(row), &mut sink);
    shown(alloc, answer, sink)
}

/// Writes which rules fit one text with the same length.
pub(crate) fn overlaps(alloc: Global, row: &Row<'_>) -> Result<Answer, AllocError> {
    let mut sink = MemorySink::new(alloc);
    let answer = tell_overlaps(alloc, row.value("spec"), options_of(row), &mut sink);
    shown(alloc, answer, sink)
}

/// Writes the rules of a specification as constants.
pub(crate) fn header(alloc: Global, row: &Row<'_>) -> Result<Answer, AllocError> {
    let language = if row.has_flag("--rust") {
        Language::Rust
    } else {
        Language::C
    };
    let mut sink = MemorySink::new(alloc);
    let text = row.value("spec");
    let answer = tell_header(alloc, text, options_of(row), language, &mut sink);
    shown(alloc, answer, sink)
}

/// Writes every fault of the specification that one file is, or two are together, and tells that there is one.
pub(crate) fn check(alloc: Global, row: &Row<'_>) -> Result<Answer, AllocError> {
    let (first, second) = names_of(row);
    let files = [
        SourceFile {
            name: first,
            bytes: row.value("spec"),
        },
        SourceFile {
            name: second,
            bytes: row.value("again"),
        },
    ];
    let count = if row.value("again").is_empty() { 1 } else { 2 };
    let mut sink = MemorySink::new(alloc);
    let strict = row.has_flag("-s") || row.has_flag("-s --json");
    let form = if row.has_flag("--json") || row.has_flag("-s --json") {
        Form::Json
    } else {
        Form::Lines
    };
    let options = options_of(row);
    let told = match tell_check(alloc, &files[..count], options, form, strict, &mut sink) {
        Ok(true) => String::from_str(alloc, "")?,
        Ok(false) => String::from_str(alloc, "status 1\n")?,
        Err(error) => format!(in alloc; "{error}\n")?,
    };
    Ok(Answer {
        written: sink.into_bytes(),
        told: Vec::from_slice(alloc, told.as_bytes())?,
    })
}

/// Writes the lines of the matches of a scan, with their places or not.
pub(crate) fn trace(alloc: Global, row: &Row<'_>) -> Result<Answer, AllocError> {
    let mut source = MemorySource::new(row.value("input"));
    let mut sink = MemorySink::new(alloc);
    let text = row.value("spec");
    let answer = if row.has_flag("--offsets") {
        tell_places(alloc, text, options_of(row), &mut source, &mut sink)
    } else {
        trace_of(alloc, text, options_of(row), &mut source, &mut sink)
    };
    answer_of(alloc, answer, sink, source.calls())
}

/// Writes how often rules match an input.
pub(crate) fn counts(alloc: Global, row: &Row<'_>) -> Result<Answer, AllocError> {
    let form = if row.has_flag("--json") {
        CountForm::Json
    } else {
        CountForm::Columns
    };
    let mut source = MemorySource::new(row.value("input"));
    let mut sink = MemorySink::new(alloc);
    let text = row.value("spec");
    let answer = tell_counts(alloc, text, options_of(row), form, &mut source, &mut sink);
    answer_of(alloc, answer, sink, source.calls())
}

/// Writes what the matches of an input go through.
pub(crate) fn cover(alloc: Global, row: &Row<'_>) -> Result<Answer, AllocError> {
    let mut sink = MemorySink::new(alloc);
    let text = row.value("spec");
    let answer = tell_cover(alloc, text, options_of(row), row.value("input"), &mut sink);
    answer_of(alloc, answer, sink, 0)
}

/// Writes inputs that go over the edges of an automaton.
pub(crate) fn suite(alloc: Global, row: &Row<'_>) -> Result<Answer, AllocError> {
    let mut sink = MemorySink::new(alloc);
    let answer = match tell_suite(alloc, row.value("spec"), options_of(row), &mut sink) {
        Ok(()) => Ok(0),
        Err(error) => Err(error),
    };
    answer_of(alloc, answer, sink, 0)
}

/// The line of the text of which two tables do not do the same.
fn line_of(alloc: Global, difference: &Difference) -> Result<String, AllocError> {
    let condition = difference.condition;
    let text = escaped(alloc, difference.text.as_slice())?;
    let place = if difference.line_start {
        " at the start of a line"
    } else {
        ""
    };
    format!(in alloc; "condition {condition}{place}, text {text}\n")
}

/// What is told of two tables.
fn told_of(alloc: Global, left: &Tables, right: &Tables) -> Result<String, AllocError> {
    match compared(alloc, &[], left, right)? {
        Comparison::Same => String::from_str(alloc, "same\n"),
        Comparison::Conditions => String::from_str(alloc, "conditions\n"),
        Comparison::Ends(condition) => format!(in alloc; "the end of condition {condition}\n"),
        Comparison::Texts(difference) => line_of(alloc, &difference),
    }
}

/// Tells where the tables of two specifications do not do the same.
pub(crate) fn compare(alloc: Global, row: &Row<'_>) -> Result<Answer, AllocError> {
    let left = generate(alloc, row.value("spec"), options_of(row));
    let right = generate(alloc, row.value("again"), options_of(row));
    match (left, right) {
        (Ok(left), Ok(right)) => {
            let told = told_of(alloc, &left.made.tables, &right.made.tables)?;
            Answer::telling(alloc, told.as_str())
        }
        (Err(error), _) => refused(alloc, error),
        (_, Err(error)) => refused(alloc, error),
    }
}

/// Tells what stands against cuts at newlines, by the numbers of rules and conditions.
pub(crate) fn obstacle(alloc: Global, row: &Row<'_>) -> Result<Answer, AllocError> {
    let made = match generate(alloc, row.value("spec"), options_of(row)) {
        Ok(all) => all.made,
        Err(error) => return refused(alloc, error),
    };
    match find_obstacle_in(alloc, &made.tables)? {
        Some(obstacle) => {
            let line = format!(in alloc; "{obstacle:?}\n")?;
            Answer::telling(alloc, line.as_str())
        }
        None => Answer::telling(alloc, ""),
    }
}
