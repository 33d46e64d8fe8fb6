//! The greatest table file.
use crate::building::{read_back, repeated};
use std::alloc::{AllocError, Global};
use std::test::Fail;

/// `%x` and this many names, 255 at most: of one letter, of two, and so on.
pub(crate) fn conditions(alloc: Global, count: usize) -> Result<Vec<u8>, AllocError> {
    const LETTERS: &[u8] = &[b'c'; 255];
    let mut text = Vec::from_slice(alloc, b"%x".as_slice())?;
    for length in 1..=count {
        text.push(b' ')?;
        text.extend_from_slice(LETTERS.get(..length).unwrap_or(LETTERS))?;
    }
    text.extend_from_slice(b"\n%%\n")?;
    Ok(text)
}

/// A specification of 255 conditions, of 4,096 rules, and of 256 bytes that no two rules read alike.
fn greatest(alloc: Global) -> Result<Vec<u8>, AllocError> {
    let mut text = conditions(alloc, 254)?;
    for byte in 0..=255u8 {
        let rule = format!(in alloc; "\\x{byte:02x} ;\n")?;
        text.extend_from_slice(rule.as_bytes())?;
    }
    repeated(alloc, &text, b"aa ;\n", 3_840, b"")
}

/// Whether its table file is read back with as many.
fn is_read_back(alloc: Global) -> Result<bool, Fail> {
    let text = greatest(alloc)?;
    let tables = read_back(alloc, &text)?;
    let parts = tables.parts();
    let counts = (parts.conditions.len(), parts.rules.len(), parts.classes);
    Ok(counts == (255, 4_096, 256))
}

/// The file of the most conditions, rules and classes of bytes is read back.
#[test]
fn the_greatest_counts_are_read(rt: HostRuntime) -> Result<(), Fail> {
    assert!(rt; is_read_back(rt.alloc())?);
    Ok(())
}
