//! Byte classes.
ghost use Rattle.std.specs.Prelude.{◌≡◌, ℕ, ◌*◌, ◌<◌, ◌≤◌, length, slice_index, IfOk};
ghost use Rattle.lexauto_dfa.specs.Alike.{moves};
ghost use Rattle.lextab.specs.Classes.{IsClassMap};
ghost use Rattle.lextab.specs.Searching.{AreAllBytes, AreNumbered};

use lexauto_dfa::first_bytes;
use std::alloc::{AllocError, Global};

/// The class of each byte, and a byte of each class.
#[derive(Drop)]
pub(crate) struct Classes {
    pub(crate) class_of: Vec<u8>,
    pub(crate) heads: Vec<u8>,
}

/// Numbers the classes in order of their first byte.
fn numbered(alloc: Global, lead: &[u8]) -> Result<Classes, AllocError>
    requires len { length lead.now ≡ 256 }
    requires heads { (b : ℕ) → b < 256 → (slice_index lead.now b ≤ b)
        × (slice_index lead.now (slice_index lead.now b) ≡ slice_index lead.now b) }
    ensures { IfOk result (λ c. AreNumbered lead.now c.class_of.items c.heads.items 256) }
{
    let mut class_of: Vec<u8> = Vec::with_capacity(alloc, 256)?;
    let mut heads = Vec::with_capacity(alloc, 256)?;
    for byte in 0..256usize {
        let first = lead[byte] as usize;
        if first < byte {
            let class = class_of[first];
            class_of.push(class)?;
        } else {
            class_of.push(heads.len() as u8)?;
            heads.push(byte as u8)?;
        }
    }
    Ok(Classes { class_of, heads })
}

/// The byte classes of an automaton.
pub(crate) fn classes_of(alloc: Global, next: &[u32], states: usize) -> Result<Classes, AllocError>
    requires { length next.now ≡ 256 * states }
    ensures map { IfOk result (λ c. IsClassMap states (moves next.now) c.class_of.items (length c.heads.items)) }
    ensures heads { IfOk result (λ c. (k : ℕ) → k < length c.heads.items → (slice_index c.heads.items k < 256)
        × (slice_index c.class_of.items (slice_index c.heads.items k) ≡ k)) }
    ensures all { IfOk result (λ c. AreAllBytes c.heads.items) }
    ensures few { IfOk result (λ c. (0 < length c.heads.items) × (length c.heads.items ≤ 256)) }
{
    let lead = first_bytes(alloc, next, states)?;
    let classes = numbered(alloc, &lead)?;
    Ok(classes)
}
