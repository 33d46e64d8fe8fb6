//! The buffers of readers and writers.
ghost use Rattle.std.specs.Prelude.{◌≡◌, IfOk, vec_len};

use std::alloc::{AllocError, Global};

/// How many bytes a buffer has at most.
pub const CAPACITY: usize = 65_536;

/// How many it has at first: a page of memory, so that a short run touches no more.
pub const FIRST: usize = 4_096;

/// A buffer of this many bytes.
pub fn make(alloc: Global, capacity: usize) -> Result<Vec<u8>, AllocError>
    ensures { IfOk result (λ buffer. vec_len buffer ≡ capacity) }
{
    let mut buffer = Vec::with_capacity(alloc, capacity)?;
    buffer.resize(capacity, 0)?;
    Ok(buffer)
}
