//! Rows of data/.
use crate::kind::Kind;

/// A field of a row: its name, and what it says.
#[derive(Drop)]
pub(crate) struct Field<'a> {
    pub(crate) name: &'a [u8],
    pub(crate) value: Vec<u8>,
}

/// What is asked, what of, and what is answered; and the line of the file that begins it.
#[derive(Drop)]
pub(crate) struct Row<'a> {
    pub(crate) line: u64,
    pub(crate) kind: Kind,
    pub(crate) fields: Vec<Field<'a>>,
}

impl Row<'_> {
    /// What a field says: nothing where there is no such field.
    pub(crate) fn value(&self, name: &str) -> &[u8] {
        for field in &self.fields {
            if field.name == name.as_bytes() {
                return field.value.as_slice();
            }
        }
        b""
    }

    /// Whether the row has this flag.
    pub(crate) fn has_flag(&self, flag: &str) -> bool {
        self.value("flag") == flag.as_bytes()
    }
}

/// The number that a text is.
pub(crate) fn number_of(text: &[u8]) -> Option<usize> {
    let text = std::str::from_utf8(text).ok()?;
    text.parse::<usize>().ok()
}
