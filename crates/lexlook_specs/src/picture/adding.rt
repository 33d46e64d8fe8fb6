//! Texts that grow at their end.
ghost use Rattle.std.specs.Prelude.{◌≡◌, ◌++◌, OnOk, decimal};
ghost use Rattle.std.specs.List.{flat_map};
ghost use Rattle.lexlook_specs.specs.Pictures.{in_quotes, quoted, quoted_byte};

use itoa::Buffer;
use lex_io::octal;
use std::alloc::AllocError;

/// Appends bytes.
pub fn add(text: &mut Vec<u8>, bytes: &[u8]) -> Result<(), AllocError>
    ensures { OnOk result (text.new.items ≡ text.old.items ++ bytes.now) }
{
    text.extend_from_slice(bytes)
}

/// Appends a byte as it stands in quotes.
fn add_quoted_byte(text: &mut Vec<u8>, byte: u8) -> Result<(), AllocError>
    ensures { OnOk result (text.new.items ≡ text.old.items ++ quoted_byte byte) }
{
    if byte == b'"' || byte == b'\\' {
        return add(text, &[b'\\', byte]);
    }
    add(text, &[byte])
}

/// Appends a text as it stands in quotes.
pub(crate) fn add_quoted(text: &mut Vec<u8>, bytes: &[u8]) -> Result<(), AllocError>
    ensures { OnOk result (text.new.items ≡ text.old.items ++ quoted bytes.now) }
{
    for byte in bytes {
        add_quoted_byte(text, *byte)?;
    }
    Ok(())
}

/// Appends a byte as it is spelled in a quoted string of a pattern.
fn add_in_quotes(text: &mut Vec<u8>, byte: u8) -> Result<(), AllocError>
    ensures { OnOk result (text.new.items ≡ text.old.items ++ in_quotes byte) }
{
    match byte {
        b'\t' => add(text, b"\\t"),
        b'\n' => add(text, b"\\n"),
        b' '..=b'~' => add_quoted_byte(text, byte),
        _ => add(text, &octal(byte)),
    }
}

/// Appends bytes as they are spelled in a quoted string of a pattern. It is refused where memory runs out.
pub fn add_string(text: &mut Vec<u8>, bytes: &[u8]) -> Result<(), AllocError>
    ensures { OnOk result (text.new.items ≡ text.old.items ++ flat_map in_quotes bytes.now) }
{
    for byte in bytes {
        add_in_quotes(text, *byte)?;
    }
    Ok(())
}

/// Appends a number, in decimal.
pub fn add_number(text: &mut Vec<u8>, number: u32) -> Result<(), AllocError>
    ensures { OnOk result (text.new.items ≡ text.old.items ++ decimal number) }
{
    let mut digits = Buffer::new();
    add(text, digits.format(number).as_bytes())
}
