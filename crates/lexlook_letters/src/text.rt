//! The text of classes.
ghost use Rattle.std.specs.Prelude.{◌≡◌, ◌<◌, ◌++◌, [], ◌∷◌, List, OnOk, map};
ghost use Rattle.lexlook_letters.specs.Text.{byte_escape, class_text, hex_digit, range_text};
ghost use Rattle.lexlook_letters.specs.Sequences.{last_range};

use crate::grouping::last_range;
use crate::sequence::{ByteRange, Sequence};
use std::alloc::AllocError;

/// Adds a byte.
pub(crate) fn add_byte(text: &mut Vec<u8>, byte: u8) -> Result<(), AllocError>
    ensures { OnOk result (text.new.items ≡ text.old.items ++ byte ∷ []) }
{
    text.push(byte)?;
    Ok(())
}

/// A hexadecimal digit.
fn hex_digit(value: u8) -> u8
    requires { value < 16 }
    ensures { result ≡ hex_digit value }
{
    if value < 10 {
        b'0' + value
    } else {
        b'a' + (value - 10)
    }
}

/// A byte as it is escaped: `\xHH`.
fn byte_escape(byte: u8) -> [u8; 4]
    ensures { result ≡ byte_escape byte }
{
    [b'\\', b'x', hex_digit(byte / 16), hex_digit(byte % 16)]
}

/// Adds the bytes from one to another, as they stand in a class: `\xHH` or `\xHH-\xHH`.
fn add_range(text: &mut Vec<u8>, range: ByteRange) -> Result<(), AllocError>
    ensures { OnOk result (text.new.items ≡ text.old.items ++ range_text range) }
{
    text.extend_from_slice(&byte_escape(range.first))?;
    if range.first == range.last {
        return Ok(());
    }
    text.push(b'-')?;
    text.extend_from_slice(&byte_escape(range.last))
}

/// Adds a class of one range.
pub(crate) fn add_class(text: &mut Vec<u8>, range: ByteRange) -> Result<(), AllocError>
    ensures { OnOk result (text.new.items ≡ text.old.items ++ class_text (range ∷ [])) }
{
    text.push(b'[')?;
    add_range(text, range)?;
    add_byte(text, b']')
}

/// Adds a class of the last ranges of sequences.
pub(crate) fn add_last_class(text: &mut Vec<u8>, sequences: &[Sequence]) -> Result<(), AllocError>
    ensures { OnOk result (text.new.items ≡ text.old.items ++ class_text (map last_range sequences.now)) }
{
    text.push(b'[')?;
    for sequence in sequences {
        add_range(text, last_range(*sequence))?;
    }
    add_byte(text, b']')
}
