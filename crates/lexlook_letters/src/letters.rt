//! The pattern of ranges of code points.
ghost use Rattle.std.specs.Prelude.{◌≡◌, ◌↔◌, ◌<◌, IfErr, IfOk, List, ℕ};
ghost use Rattle.lex_semantics.specs.Shapes.{nodes};
ghost use Rattle.lexre.specs.Limits.{max_nodes};
ghost use Rattle.lexlook_letters.specs.Encoding.{InOneOf, IsEncodingOf};
ghost use Rattle.lexlook_letters.specs.Sequences.{FollowsOne};
ghost use Rattle.lexlook_letters.specs.Text.{SpellsEncodings, letters_tree};
ghost use Rattle.lexlook_letters.specs.declared.sequence.Sequence.{Sequence};

use crate::complement::merged;
use crate::ranges::CodeRange;
use crate::spelling::{LettersError, spell};
use crate::split::sequences;
use std::alloc::Global;

/// The text of a pattern whose words are the encodings in UTF-8 of the code points of the ranges. The ranges may stand in
/// any order and overlap: the text is that of `merged`, so ranges with the same code points have the same one. Surrogates
/// and numbers beyond U+10FFFF have no encoding. (RFC 3629, section 3.)
///
/// `NoCodePoint` where no code point has an encoding, and `TooBig` where the pattern of `sequences` has more nodes than
/// one may have.
pub fn spell_ranges(alloc: Global, ranges: &[CodeRange]) -> Result<Vec<u8>, LettersError>
    ensures spelled { IfOk result (λ text. SpellsEncodings text.items ranges.now) }
    ensures none { IfErr result (λ e. e ≡ LettersError.NoCodePoint
        → (w : List ℕ) → IsEncodingOf (InOneOf ranges.now) w → ⊥) }
    ensures big { IfErr result (λ e. e ≡ LettersError.TooBig → (ss : List Sequence)
        × ((w : List ℕ) → FollowsOne ss w ↔ IsEncodingOf (InOneOf ranges.now) w)
        × (max_nodes < nodes (letters_tree ss))) }
{
    let apart = merged(alloc, ranges)?;
    let found = sequences(alloc, apart.as_slice())?;
    spell(alloc, found.as_slice())
}
