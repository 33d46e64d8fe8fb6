//! The rows of a file.
use crate::escapes::unescaped;
use crate::kind::kind_of;
use crate::row::{Field, Row, number_of};
use std::alloc::{AllocError, Global};

/// The rows of a file, whether the last one is still open, and the lines that belong to none.
#[derive(Drop)]
pub(crate) struct Rows<'a> {
    pub(crate) rows: Vec<Row<'a>>,
    pub(crate) malformed: Vec<u64>,
    is_open: bool,
}

/// The names of fields.
const NAMES: &[&str] = &[
    "again", "at", "file", "flag", "input", "names", "node", "put", "spec", "text", "told",
    "words", "written",
];

/// Whether a word names a field.
fn is_name(word: &[u8]) -> bool {
    for name in NAMES {
        if name.as_bytes() == word {
            return true;
        }
    }
    false
}

/// A line at its first blank: what stands before it, and what behind it.
pub(crate) fn split_word(line: &[u8]) -> (&[u8], &[u8]) {
    let mut parts = line.splitn(2, |byte| *byte == b' ');
    let word = parts.next().unwrap_or(b"");
    let rest = parts.next().unwrap_or(b"");
    (word, rest)
}

impl<'a> Rows<'a> {
    /// Begins a row.
    fn add_row(&mut self, alloc: Global, word: &[u8], line: u64) -> Result<bool, AllocError> {
        let Some(kind) = kind_of(word) else {
            return Ok(false);
        };
        let fields = Vec::new(alloc);
        self.rows.push(Row { line, kind, fields })?;
        self.is_open = true;
        Ok(true)
    }

    /// Adds a field to the last row.
    fn add_field(&mut self, alloc: Global, line: &'a [u8]) -> Result<bool, AllocError> {
        let (name, text) = split_word(line);
        let Some(value) = unescaped(alloc, text)? else {
            return Ok(false);
        };
        if !is_name(name) {
            return Ok(false);
        }
        match self.rows.last_mut() {
            Some(row) => row.fields.push(Field { name, value })?,
            None => return Ok(false),
        }
        Ok(true)
    }

    /// Adds a text to the last field, so many times.
    fn add_text(&mut self, text: &[u8], count: usize) -> Result<bool, AllocError> {
        let Some(row) = self.rows.last_mut() else {
            return Ok(false);
        };
        let Some(field) = row.fields.last_mut() else {
            return Ok(false);
        };
        if let [byte] = text {
            let length = field.value.len().saturating_add(count);
            field.value.resize(length, *byte)?;
            return Ok(true);
        }
        for _ in 0..count {
            field.value.extend_from_slice(text)?;
        }
        Ok(true)
    }

    /// Adds a line to the last field.
    fn add_line(&mut self, line: &[u8]) -> Result<bool, AllocError> {
        let text = line.strip_prefix(b" ").unwrap_or(line);
        Ok(self.add_text(text, 1)? && self.add_text(b"\n", 1)?)
    }

    /// Adds to the last field what a line says: how often a text stands, and the text.
    fn add_often(&mut self, alloc: Global, line: &[u8]) -> Result<bool, AllocError> {
        let (count, text) = split_word(line);
        match (number_of(count), unescaped(alloc, text)?) {
            (Some(count), Some(text)) => self.add_text(text.as_slice(), count),
            _ => Ok(false),
        }
    }

    /// Adds a line of the file, if it is one of these.
    fn add(&mut self, alloc: Global, line: &'a [u8], number: u64) -> Result<bool, AllocError> {
        match line {
            [] => {
                self.is_open = false;
                Ok(true)
            }
            [b'#', ..] => Ok(true),
            [b'|', rest @ ..] => self.add_line(rest),
            [b'*', rest @ ..] => self.add_often(alloc, rest),
            _ if self.is_open => self.add_field(alloc, line),
            _ => self.add_row(alloc, line, number),
        }
    }
}

/// The rows of a file, with the lines that belong to none.
pub(crate) fn read_rows<'a>(alloc: Global, text: &'a [u8]) -> Result<Rows<'a>, AllocError> {
    let mut rows = Rows {
        rows: Vec::new(alloc),
        malformed: Vec::new(alloc),
        is_open: false,
    };
    let mut number: u64 = 0;
    for line in text.split(|byte| *byte == b'\n') {
        number = number.saturating_add(1);
        if !rows.add(alloc, line, number)? {
            rows.malformed.push(number)?;
        }
    }
    Ok(rows)
}
