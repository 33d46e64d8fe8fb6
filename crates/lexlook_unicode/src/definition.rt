//! The line that defines a name for the code points of sets.
ghost use Rattle.std.specs.Prelude.{◌≡◌, ◌++◌, IfOk, OnOk, codes, map, string_bytes};
ghost use Rattle.lexlook_unicode.specs.Definition.{DefinesLetters, definition_name, later_names, name_byte, set_name};

use crate::sets::{SetsError, ranges_of};
use lexlook_letters::{LettersError, spell_ranges};
use std::alloc::{AllocError, Global};
use thiserror::Error;

/// Why no line is written.
#[derive(Clone, Copy, Debug, PartialEq, Eq, Error)]
pub enum DefinitionError {
    /// A word that names no set.
    #[error("unknown set")]
    UnknownSet,
    /// The sets have no code point that has an encoding.
    #[error("no code point")]
    NoCodePoint,
    /// The pattern has more than 65,536 nodes.
    #[error("too many ranges of code points")]
    TooBig,
    /// Memory ran out.
    #[error("out of memory")]
    OutOfMemory,
}

impl From<SetsError> for DefinitionError {
    /// Sets that were refused.
    fn from(error: SetsError) -> DefinitionError {
        match error {
            SetsError::Unknown => DefinitionError::UnknownSet,
            SetsError::OutOfMemory => DefinitionError::OutOfMemory,
        }
    }
}

impl From<LettersError> for DefinitionError {
    /// Ranges that were refused.
    fn from(error: LettersError) -> DefinitionError {
        match error {
            LettersError::NoCodePoint => DefinitionError::NoCodePoint,
            LettersError::TooBig => DefinitionError::TooBig,
            LettersError::OutOfMemory => DefinitionError::OutOfMemory,
        }
    }
}

impl From<AllocError> for DefinitionError {
    /// A request for memory was refused.
    fn from(_error: AllocError) -> DefinitionError {
        DefinitionError::OutOfMemory
    }
}

/// Adds what a byte of a word is in a name.
fn add_name_byte(line: &mut Vec<u8>, byte: u8) -> Result<(), AllocError>
    ensures { OnOk result (line.new.items ≡ line.old.items ++ name_byte byte) }
{
    if byte == b'!' {
        line.extend_from_slice(b"not_")
    } else if byte == b'+' {
        line.extend_from_slice(b"_")
    } else {
        line.extend_from_slice(&[byte])
    }
}

/// Adds the name of a set.
fn add_set_name(line: &mut Vec<u8>, set: &[u8]) -> Result<(), AllocError>
    ensures { OnOk result (line.new.items ≡ line.old.items ++ set_name set.now) }
{
    for byte in set {
        add_name_byte(line, *byte)?;
    }
    Ok(())
}

/// Adds the names of sets, each behind `_or_`.
fn add_later_names(line: &mut Vec<u8>, sets: &[String]) -> Result<(), AllocError>
    ensures { OnOk result (line.new.items ≡ line.old.items ++ later_names (map string_bytes sets.now)) }
{
    for set in sets {
        line.extend_from_slice(b"_or_")?;
        add_set_name(line, set.as_str().as_bytes())?;
    }
    Ok(())
}

/// Adds the name that is made of sets.
fn add_name(line: &mut Vec<u8>, sets: &[String]) -> Result<(), AllocError>
    ensures { OnOk result (line.new.items ≡ line.old.items ++ definition_name (map string_bytes sets.now)) }
{
    match sets {
        [] => Ok(()),
        [first, more @ ..] => {
            add_set_name(line, first.as_str().as_bytes())?;
            add_later_names(line, more)
        }
    }
}

/// The line that defines a name for the code points of the sets: the name, a blank, the pattern and a newline. The name
/// has `_or_` between the sets, `not_` for a `!` and `_` for a `+`. `ranges_of` says what a set is.
pub fn definition_of(alloc: Global, sets: &[String]) -> Result<Vec<u8>, DefinitionError>
    ensures { IfOk result (λ line. DefinesLetters (map string_bytes sets.now) line.items) }
{
    let ranges = ranges_of(alloc, sets)?;
    let text = spell_ranges(alloc, ranges.as_slice())?;
    let mut line = Vec::new(alloc);
    add_name(&mut line, sets)?;
    line.extend_from_slice(b" ")?;
    line.extend_from_slice(text.as_slice())?;
    line.extend_from_slice(b"\n")?;
    Ok(line)
}
