//! The letters of positions, each but a few times.
ghost use Rattle.std.specs.Prelude.{◌≡◌, ◌<◌, ◌++◌, ◌∷◌, [], List, length, slice_index_or, IfOk, OnOk, IfSome};
ghost use Rattle.lex_semantics.specs.ByteSets.{ByteSet, empty_set};
ghost use Rattle.lexauto.specs.Moving.{AreLetters};

use lexre_bytes::ByteSet;
use std::alloc::{AllocError, Global};

/// Letters, which are sets of bytes, and for each position the place of the letter that it reads.
#[derive(Drop)]
pub(crate) struct Alphabet {
    pub letters: Vec<ByteSet>,
    pub places: Vec<usize>,
}

/// How many of the last letters are looked at for the same one.
const NEAR: usize = 128;

/// The place of a letter among the last of these.
fn place_of(letters: &[ByteSet], letter: &ByteSet) -> Option<usize>
    ensures { IfSome result (λ k. (k < length letters.now)
        × (slice_index_or letters.now k empty_set ≡ letter.now)) }
{
    let count = letters.len();
    for place in count.saturating_sub(NEAR)..count {
        if letters[place] == *letter {
            return Some(place);
        }
    }
    None
}

impl Alphabet {
    /// Adds the letter of one position more.
    fn add(&mut self, letter: &ByteSet) -> Result<(), AllocError>
        ensures { OnOk result ((all : List ByteSet) → AreLetters all self.old.letters.items self.old.places.items
            → AreLetters (all ++ letter.now ∷ []) self.new.letters.items self.new.places.items) }
    {
        if let Some(place) = place_of(&self.letters, letter) {
            self.places.push(place)?;
            return Ok(());
        }
        self.places.push(self.letters.len())?;
        self.letters.push(*letter)?;
        Ok(())
    }
}

/// The letters of these positions.
pub(crate) fn alphabet_of(alloc: Global, all: &[ByteSet]) -> Result<Alphabet, AllocError>
    ensures { IfOk result (λ a. AreLetters all.now a.letters.items a.places.items) }
{
    let mut alphabet = Alphabet {
        letters: Vec::new(alloc),
        places: Vec::with_capacity(alloc, all.len())?,
    };
    for letter in all {
        alphabet.add(letter)?;
    }
    Ok(alphabet)
}
