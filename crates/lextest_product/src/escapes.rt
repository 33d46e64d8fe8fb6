//! Texts in one line: `\n`, `\t`, `\r`, `\\`, and `\x` with two digits to the base 16 for any byte.
use std::alloc::{AllocError, Global};

/// The number of a digit to the base 16.
fn digit_of(byte: u8) -> Option<u8> {
    match byte {
        b'0'..=b'9' => Some(byte - b'0'),
        b'a'..=b'f' => Some(byte - b'a' + 10),
        _ => None,
    }
}

/// The byte that an escape behind its backslash stands for, and what follows.
fn byte_of(escape: &[u8]) -> Option<(u8, &[u8])> {
    match escape {
        [b'n', rest @ ..] => Some((b'\n', rest)),
        [b't', rest @ ..] => Some((b'\t', rest)),
        [b'r', rest @ ..] => Some((b'\r', rest)),
        [b'\\', rest @ ..] => Some((b'\\', rest)),
        [b'x', high, low, rest @ ..] => {
            Some((digit_of(*high)?.wrapping_mul(16) | digit_of(*low)?, rest))
        }
        _ => None,
    }
}

/// The first byte that a text stands for, and what follows.
fn first_byte(text: &[u8]) -> Option<(u8, &[u8])> {
    match text {
        [b'\\', escape @ ..] => byte_of(escape),
        [byte, rest @ ..] => Some((*byte, rest)),
        [] => None,
    }
}

/// The bytes that a text stands for, where all its escapes are some.
pub(crate) fn unescaped(alloc: Global, text: &[u8]) -> Result<Option<Vec<u8>>, AllocError> {
    let mut bytes = Vec::new(alloc);
    let mut rest = text;
    for _ in 0..text.len() {
        if rest.is_empty() {
            break;
        }
        let Some((byte, after)) = first_byte(rest) else {
            return Ok(None);
        };
        bytes.push(byte)?;
        rest = after;
    }
    Ok(Some(bytes))
}

/// Adds a byte to a text.
fn add_byte(alloc: Global, text: &mut String, byte: u8) -> Result<(), AllocError> {
    match byte {
        b'\n' => text.push_str("\\n"),
        b'\t' => text.push_str("\\t"),
        b'\r' => text.push_str("\\r"),
        b'\\' => text.push_str("\\\\"),
        b' '..=b'~' => text.push(byte as char),
        _ => text.push_str(&format!(in alloc; "\\x{byte:02x}")?),
    }
}

/// The text that stands for these bytes, in quotes.
pub(crate) fn escaped(alloc: Global, bytes: &[u8]) -> Result<String, AllocError> {
    let mut text = String::from_str(alloc, "\"")?;
    for byte in bytes {
        add_byte(alloc, &mut text, *byte)?;
    }
    text.push_str("\"")?;
    Ok(text)
}
