//! Bytes that the same letters have are of one kind.
ghost use Rattle.std.specs.Prelude.{◌≡◌, ◌+◌, ◌-◌, ◌<◌, ◌≤◌, ℕ, Bool, length, IfOk, IfSome, OnOk};
ghost use Rattle.lex_semantics.specs.Text.{flag};
ghost use Rattle.lexauto_positions.specs.Letters.{reads_at};
ghost use Rattle.lexauto.specs.Moving.{AreChanges, AreKinds, marks_at};

use crate::changing::united;
use lexauto_positions::mask_of;
use lexre_bytes::ByteSet;
use std::alloc::{AllocError, Global};

/// A kind of bytes.
#[derive(Drop)]
pub(crate) struct Kind {
    /// The first byte of this kind.
    pub first: u8,
    /// The letters that have its bytes; no marks where none has.
    pub marks: Vec<bool>,
    /// A number that equal marks have in common, and others mostly not.
    digest: u64,
}

/// The kinds of bytes, in the order of their first bytes, and for each byte the place of its kind.
#[derive(Drop)]
pub(crate) struct Kinds {
    pub kinds: Vec<Kind>,
    pub places: Vec<u8>,
}

/// The marks, or none where nothing is marked.
fn marks_or_none(alloc: Global, marks: Vec<bool>) -> Vec<bool>
    ensures { (q : ℕ) → flag result.items q ≡ flag marks.items q }
{
    if marks.iter().any(|is_marked| *is_marked) {
        return marks;
    }
    Vec::new(alloc)
}

/// The sum of what is marked.
fn digest_of(marks: &[bool]) -> u64 {
    let mut sum: u64 = 0;
    for (i, is_marked) in marks.iter().enumerate() {
        if *is_marked {
            sum = sum.wrapping_add(i as u64);
        }
    }
    sum
}

/// The place of the kind that has these marks, if there is one.
fn place_of(kinds: &[Kind], marks: &[bool], digest: u64) -> Option<usize>
    ensures { IfSome result (λ k. (k < length kinds.now) × (marks_at kinds.now k ≡ marks.now)) }
{
    for (place, kind) in kinds.iter().enumerate() {
        if kind.digest == digest && kind.marks.as_slice() == marks {
            return Some(place);
        }
    }
    None
}

impl Kinds {
    /// Adds the next byte, which the letters with these marks have.
    fn add(&mut self, marks: Vec<bool>) -> Result<(), AllocError>
        requires bytes { length self.old.places.items < 256 }
        requires few { length self.old.kinds.items ≤ length self.old.places.items }
        ensures few { OnOk result (length self.new.kinds.items ≤ length self.new.places.items) }
        ensures are { OnOk result ((reads : ℕ → ℕ → Bool)
            → AreKinds reads self.old.kinds.items self.old.places.items
            → ((q : ℕ) → flag marks.items q ≡ reads (length self.old.places.items) q)
            → AreKinds reads self.new.kinds.items self.new.places.items) }
        ensures len { OnOk result (length self.new.places.items ≡ length self.old.places.items + 1) }
    {
        let byte = self.places.len() as u8;
        let digest = digest_of(&marks);
        if let Some(place) = place_of(&self.kinds, &marks, digest) {
            self.places.push(place as u8)?;
            return Ok(());
        }
        self.places.push(self.kinds.len() as u8)?;
        self.kinds.push(Kind {
            first: byte,
            marks,
            digest,
        })?;
        Ok(())
    }

    /// Adds the next byte, which the same letters have as the byte before.
    fn add_again(&mut self) -> Result<(), AllocError>
        requires { 0 < length self.old.places.items }
        ensures kinds { self.new.kinds.items ≡ self.old.kinds.items }
        ensures are { OnOk result ((reads : ℕ → ℕ → Bool)
            → AreKinds reads self.old.kinds.items self.old.places.items
            → ((q : ℕ) → reads (length self.old.places.items - 1) q ≡ reads (length self.old.places.items) q)
            → AreKinds reads self.new.kinds.items self.new.places.items) }
        ensures len { OnOk result (length self.new.places.items ≡ length self.old.places.items + 1) }
    {
        let last = self.places[self.places.len() - 1];
        self.places.push(last)?;
        Ok(())
    }
}

/// The kinds of bytes, by the bytes that each letter has, and where that changes.
pub(crate) fn kinds_of(
    alloc: Global,
    letters: &[ByteSet],
    changes: &[ByteSet],
) -> Result<Kinds, AllocError>
    requires { AreChanges (λ b q. reads_at letters.now b q 0) changes.now }
    ensures are { IfOk result (λ k. AreKinds (λ b q. reads_at letters.now b q 0) k.kinds.items k.places.items) }
    ensures all { IfOk result (λ k. length k.places.items ≡ 256) }
{
    let changing = united(changes);
    let mut kinds = Kinds {
        kinds: Vec::new(alloc),
        places: Vec::with_capacity(alloc, 256)?,
    };
    for byte in 0..256usize {
        if byte > 0 && !changing.contains(byte as u8) {
            kinds.add_again()?;
        } else {
            let mask = mask_of(alloc, letters, byte as u8)?;
            kinds.add(marks_or_none(alloc, mask))?;
        }
    }
    Ok(kinds)
}
