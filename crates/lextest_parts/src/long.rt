//! Texts that fill a buffer.
use std::alloc::{AllocError, Global};

/// How many bytes a buffer has at most.
pub(crate) const CAPACITY: usize = 65_536;

/// How many bytes a reader's buffer has at first.
pub(crate) const FIRST: usize = 4_096;

/// This many dots.
pub(crate) fn dots(alloc: Global, count: usize) -> Result<Vec<u8>, AllocError> {
    let mut dots = Vec::new(alloc);
    dots.resize(count, b'.')?;
    Ok(dots)
}

/// These bytes, and then those.
pub(crate) fn followed(alloc: Global, bytes: &[u8], more: &[u8]) -> Result<Vec<u8>, AllocError> {
    let mut both = Vec::new(alloc);
    both.extend_from_slice(bytes)?;
    both.extend_from_slice(more)?;
    Ok(both)
}
