//! Sequences of ranges of bytes.
ghost use Rattle.std.specs.Prelude.{◌≡◌, ◌↔◌, ℕ, ◌+◌, ◌/◌, ◌<◌, ◌≤◌, List};
ghost use Rattle.lexlook_letters.specs.Cutting.{IsEncodingWithin, IsPiece, IsWhole};
ghost use Rattle.lexlook_letters.specs.Encoding.{going_on};
ghost use Rattle.lexlook_letters.specs.Sequences.{HasByteOfEach, IsSoundSequence, byte_ranges, bytes_between};

/// The bytes from the first to the last, both in it.
#[derive(Clone, Copy)]
pub struct ByteRange {
    pub first: u8,
    pub last: u8,
}

/// One to four bytes in order, each out of its range.
#[derive(Clone, Copy)]
pub enum Sequence {
    One(ByteRange),
    Two(ByteRange, ByteRange),
    Three(ByteRange, ByteRange, ByteRange),
    Four(ByteRange, ByteRange, ByteRange, ByteRange),
}

/// The bytes from one to another.
fn byte_range(first: u32, last: u32) -> ByteRange
    requires first { first < 0x100 }
    requires last { last < 0x100 }
    ensures { result ≡ bytes_between first last }
{
    ByteRange {
        first: first as u8,
        last: last as u8,
    }
}

/// The bytes that go on with the lowest six bits of two numbers, and those between them.
fn going_on(first: u32, last: u32) -> ByteRange
    ensures { result ≡ bytes_between (going_on first) (going_on last) }
{
    byte_range(0x80 + first % 64, 0x80 + last % 64)
}

/// The sequence of code points of one byte.
fn one(first: u32, last: u32) -> Sequence
    requires order { first ≤ last }
    requires last { last < 0x80 }
    ensures words { (w : List ℕ) → HasByteOfEach (byte_ranges result) w ↔ IsEncodingWithin first last w }
    ensures sound { IsSoundSequence result }
{
    Sequence::One(byte_range(first, last))
}

/// The sequence of a piece of two bytes.
fn two(first: u32, last: u32) -> Sequence
    requires order { first ≤ last }
    requires first { 0x80 ≤ first }
    requires last { last < 0x800 }
    requires whole { IsWhole first last }
    ensures words { (w : List ℕ) → HasByteOfEach (byte_ranges result) w ↔ IsEncodingWithin first last w }
    ensures sound { IsSoundSequence result }
{
    let lead = byte_range(0xC0 + first / 64, 0xC0 + last / 64);
    let third = going_on(first, last);
    Sequence::Two(lead, third)
}

/// The sequence of a piece of three bytes.
fn three(first: u32, last: u32) -> Sequence
    requires order { first ≤ last }
    requires first { 0x800 ≤ first }
    requires last { last < 0x10000 }
    requires whole { IsWhole first last }
    requires whole_64 { IsWhole (first / 64) (last / 64) }
    ensures words { (w : List ℕ) → HasByteOfEach (byte_ranges result) w ↔ IsEncodingWithin first last w }
    ensures sound { IsSoundSequence result }
{
    let lead = byte_range(0xE0 + first / 64 / 64, 0xE0 + last / 64 / 64);
    let second = going_on(first / 64, last / 64);
    let third = going_on(first, last);
    Sequence::Three(lead, second, third)
}

/// The sequence of a piece of four bytes.
fn four(first: u32, last: u32) -> Sequence
    requires order { first ≤ last }
    requires first { 0x10000 ≤ first }
    requires last { last ≤ 0x10FFFF }
    requires whole { IsWhole first last }
    requires whole_64 { IsWhole (first / 64) (last / 64) }
    requires whole_4096 { IsWhole (first / 64 / 64) (last / 64 / 64) }
    ensures words { (w : List ℕ) → HasByteOfEach (byte_ranges result) w ↔ IsEncodingWithin first last w }
    ensures sound { IsSoundSequence result }
{
    let lead = byte_range(0xF0 + first / 64 / 64 / 64, 0xF0 + last / 64 / 64 / 64);
    let second = going_on(first / 64 / 64, last / 64 / 64);
    let third = going_on(first / 64, last / 64);
    let fourth = going_on(first, last);
    Sequence::Four(lead, second, third, fourth)
}

/// The sequence whose words are the encodings of a piece.
pub(crate) fn sequence_of(first: u32, last: u32) -> Sequence
    requires order { first ≤ last }
    requires piece { IsPiece first last }
    ensures words { (w : List ℕ) → HasByteOfEach (byte_ranges result) w ↔ IsEncodingWithin first last w }
    ensures sound { IsSoundSequence result }
{
    if last < 0x80 {
        one(first, last)
    } else if last < 0x800 {
        two(first, last)
    } else if last < 0x10000 {
        three(first, last)
    } else {
        four(first, last)
    }
}
