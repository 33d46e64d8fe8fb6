//! Keys as they are kept: a key of many positions as bits.
ghost use Rattle.std.specs.Prelude.{◌≡◌, ℕ, ◌<◌, ◌*◌, ◌/◌, ◌%◌, ◌^◌, ◌∷◌, ◌++◌, true, length, bit_or, slice_index};
ghost use Rattle.std.specs.Prelude.{IfOk, OnOk, IfSome, List};
ghost use Rattle.std.proofs.Common.{replicate};
ghost use Rattle.std.specs.List.{filter};
ghost use Rattle.lexauto_positions.specs.Cursors.{Increases};
ghost use Rattle.lexauto.specs.Sets.{lasts_in, marked_by, tagged};
ghost use Rattle.lex_semantics.specs.Text.{Ascending, listed};
ghost use Rattle.lexauto.specs.KeyPacking.{bit_at, word_bits, with_bit, with_bits, bit_count, unpacked, word_count};
ghost use Rattle.lexauto.specs.KeyPacking.{packed};

use crate::sets::{KeyKind, is_last_key, is_marked_by, lasts_in};
use std::alloc::{AllocError, Global};

/// What stands before the bits of positions.
const BITS: u32 = 0;

/// What stands before a key that is kept as it is.
const PLAIN: u32 = 1;

/// How many numbers there is room for at first in a key that is kept as it is.
const SHORT: usize = 6;

/// The most words of bits that are read: those of 16,384 positions.
const MOST_WORDS: usize = 512;

/// Adds the positions whose bits are set in one of the words.
fn add_word(words: &[u32], at: usize, key: &mut Vec<u32>) -> Result<(), AllocError>
    requires within { at < length words.now }
    requires few { at < 512 }
    ensures { OnOk result (key.new.items ≡ key.old.items ++ listed (bit_at words.now) (at * 32) word_bits) }
{
    let word = words[at];
    if word == 0 {
        return Ok(());
    }
    for bit in 0..32usize {
        if (word >> bit) % 2 == 1 {
            key.push((at * 32 + bit) as u32)?;
        }
    }
    Ok(())
}

/// Adds the positions whose bits are set.
fn add_words(words: &[u32], key: &mut Vec<u32>) -> Result<(), AllocError>
    ensures { OnOk result (key.new.items ≡ key.old.items ++ listed (bit_at words.now) 0 (bit_count words.now)) }
{
    for at in 0..words.len().min(MOST_WORDS) {
        add_word(words, at, key)?;
    }
    Ok(())
}

/// The key of the positions whose bits are set.
fn key_of_bits(alloc: Global, words: &[u32]) -> Result<Vec<u32>, AllocError>
    ensures { IfOk result (λ v. v.items ≡ 1 ∷ listed (bit_at words.now) 0 (bit_count words.now)) }
{
    let mut key = Vec::with_capacity(alloc, words.len().min(MOST_WORDS) * 32 + 1)?;
    key.push(KeyKind::LastPositions.number())?;
    add_words(words, &mut key)?;
    Ok(key)
}

/// The key of the positions whose bits are set, as it is kept where it is not kept as bits, with room for so many.
fn plain_of_bits(alloc: Global, room: usize, words: &[u32]) -> Result<Vec<u32>, AllocError>
    ensures { IfOk result (λ v. v.items ≡ 1 ∷ 1 ∷ listed (bit_at words.now) 0 (bit_count words.now)) }
{
    let mut plain = Vec::with_capacity(alloc, room.saturating_add(2))?;
    plain.push(PLAIN)?;
    plain.push(KeyKind::LastPositions.number())?;
    add_words(words, &mut plain)?;
    Ok(plain)
}

/// This many words, with the bits of these positions.
fn bits_of(alloc: Global, count: usize, positions: &[u32]) -> Result<Vec<u32>, AllocError>
    ensures { IfOk result (λ v. v.items ≡ with_bits (replicate count 0) positions.now) }
{
    let mut words = vec![in alloc; 0u32; count]?;
    for position in positions {
        let at = *position as usize / 32;
        if at < words.len() {
            words[at] |= 1 << (*position % 32);
        }
    }
    Ok(words)
}

/// How many words the bits of a key need.
fn word_count(key: &[u32]) -> usize
    ensures { result ≡ word_count key.now }
{
    if key.is_empty() {
        return 1;
    }
    key[key.len() - 1] as usize / 32 + 1
}

/// These numbers with another before them.
fn behind(alloc: Global, first: u32, numbers: &[u32]) -> Result<Vec<u32>, AllocError>
    ensures { IfOk result (λ v. v.items ≡ first ∷ numbers.now) }
{
    let mut all = Vec::with_capacity(alloc, numbers.len() + 1)?;
    all.push(first)?;
    all.extend_from_slice(numbers)?;
    Ok(all)
}

/// The key that is kept so.
pub(crate) fn unpack_key(alloc: Global, kept: &[u32]) -> Result<Vec<u32>, AllocError>
    ensures { IfOk result (λ v. v.items ≡ unpacked kept.now) }
{
    match kept.split_first() {
        Some((form, words)) if *form == BITS => key_of_bits(alloc, words),
        Some((_, key)) => Vec::from_slice(alloc, key),
        None => Ok(Vec::new(alloc)),
    }
}

/// The key that is kept as it is.
pub(crate) fn plain_key(kept: &[u32]) -> Option<&[u32]>
    ensures { IfSome result (λ k. k.now ≡ unpacked kept.now) }
{
    match kept.split_first() {
        Some((form, key)) if *form == PLAIN => Some(key),
        _ => None,
    }
}

/// Whether a key is kept as bits, so that the last positions in it ascend.
pub(crate) fn is_bits(kept: &[u32]) -> bool
    ensures { result ≡ true → Increases (lasts_in (unpacked kept.now)) }
{
    !kept.is_empty() && kept[0] == BITS
}

/// How a key is kept: as bits where they are fewer and say the same.
pub(crate) fn pack_key(alloc: Global, key: &[u32]) -> Result<Vec<u32>, AllocError>
    ensures { IfOk result (λ v. v.items ≡ packed key.now) }
{
    let count = word_count(key);
    if count < key.len() {
        let words = bits_of(alloc, count, lasts_in(key))?;
        let bits = behind(alloc, BITS, &words)?;
        let again = unpack_key(alloc, &bits)?;
        if again.as_slice() == key {
            return Ok(bits);
        }
    }
    behind(alloc, PLAIN, key)
}

/// Those positions of a list that are marked.
#[derive(Drop)]
struct Marked {
    /// Their bits.
    words: Vec<u32>,
    /// How many they are.
    number: usize,
    /// The last of them, or 1 where there is none.
    last: u32,
}

/// Sets the bit of a position, where there is a word for it.
fn set_bit(words: &mut Vec<u32>, position: u32)
    ensures { words.new.items ≡ with_bit words.old.items position }
{
    let at = position as usize / 32;
    if at < words.len() {
        words[at] |= 1 << (position % 32);
    }
}

/// Those of the positions that are marked, with their bits in this many words.
fn marked_in(
    alloc: Global,
    count: usize,
    positions: &[u32],
    places: &[usize],
    marks: &[bool],
) -> Result<Marked, AllocError>
    ensures words { IfOk result (λ m. m.words.items
        ≡ with_bits (replicate count 0) (filter (marked_by places.now marks.now) positions.now)) }
    ensures number { IfOk result (λ m. m.number ≡ length (filter (marked_by places.now marks.now) positions.now)) }
    ensures last { IfOk result (λ m. m.last
        ≡ slice_index (1 ∷ filter (marked_by places.now marks.now) positions.now) (length (filter (marked_by places.now marks.now) positions.now))) }
{
    let mut words = vec![in alloc; 0u32; count]?;
    let mut number = 0;
    let mut last = 1;
    for position in positions {
        if is_marked_by(places, marks, *position as usize) {
            set_bit(&mut words, *position);
            number += 1;
            last = *position;
        }
    }
    Ok(Marked {
        words,
        number,
        last,
    })
}

/// The key of those positions of the list that are marked, as it is kept where it is not kept as bits.
fn plain_marked(
    alloc: Global,
    positions: &[u32],
    places: &[usize],
    marks: &[bool],
) -> Result<Vec<u32>, AllocError>
    ensures { IfOk result (λ v. v.items ≡ 1 ∷ tagged 1 (filter (marked_by places.now marks.now) positions.now)) }
{
    let mut plain = Vec::with_capacity(alloc, SHORT)?;
    plain.push(PLAIN)?;
    plain.push(KeyKind::LastPositions.number())?;
    for position in positions {
        if is_marked_by(places, marks, *position as usize) {
            plain.push(*position)?;
        }
    }
    if plain.len() == 2 {
        plain.truncate(1);
    }
    Ok(plain)
}

/// How a key is kept that stands behind the first of these numbers, which are those of one that is kept as it is.
fn packed_again(alloc: Global, plain: Vec<u32>) -> Result<Vec<u32>, AllocError>
    ensures { (k : List ℕ) → plain.items ≡ 1 ∷ k → IfOk result (λ v. v.items ≡ packed k) }
{
    if plain.len() > 1 && word_count(&plain[1..]) < plain.len() - 1 {
        return pack_key(alloc, &plain[1..]);
    }
    Ok(plain)
}

/// How the key of those last positions of the list that are marked is kept. Where many of the positions up to the last
/// one are listed, their bits are set at once.
pub(crate) fn pack_marked(
    alloc: Global,
    positions: &[u32],
    places: &[usize],
    marks: &[bool],
) -> Result<Vec<u32>, AllocError>
    requires { Ascending positions.now }
    ensures { IfOk result (λ v. v.items ≡ packed (tagged 1 (filter (marked_by places.now marks.now) positions.now))) }
{
    let count = word_count(positions);
    if marks.is_empty() {
        return behind(alloc, PLAIN, &[]);
    }
    if count > positions.len() / 4 || count > MOST_WORDS {
        let plain = plain_marked(alloc, positions, places, marks)?;
        return packed_again(alloc, plain);
    }
    let marked = marked_in(alloc, count, positions, places, marks)?;
    if marked.number == 0 {
        return behind(alloc, PLAIN, &[]);
    }
    let used = marked.last as usize / 32 + 1;
    if used <= marked.number {
        return behind(alloc, BITS, &marked.words[..used]);
    }
    plain_of_bits(alloc, marked.number, &marked.words)
}

/// Whether a key is kept as it is, and is that of those last positions of the list that are marked.
pub(crate) fn keeps_marked(
    kept: &[u32],
    positions: &[u32],
    places: &[usize],
    marks: &[bool],
) -> bool
    ensures { result ≡ true → unpacked kept.now ≡ tagged 1 (filter (marked_by places.now marks.now) positions.now) }
{
    match kept.split_first() {
        Some((form, key)) if *form == PLAIN => is_last_key(key, positions, places, marks),
        _ => false,
    }
}
