//! Where a range of code points is cut.
ghost use Rattle.std.specs.Prelude.{◌≡◌, ℕ, ◌/◌, ◌<◌, ◌≤◌};
ghost use Rattle.lexlook_letters.specs.Cutting.{HaveOneLength, IsPiece, IsWhole};

/// The greatest code point.
pub(crate) const LAST: u32 = 0x10FFFF;

/// The last number up to the last with which the first one is whole.
fn whole_end(first: u32, last: u32) -> u32
    requires { first ≤ last }
    ensures from { first ≤ result }
    ensures to { result ≤ last }
    ensures whole { IsWhole first result }
{
    if first / 64 == last / 64 {
        last
    } else if first % 64 != 0 {
        first - first % 64 + 63
    } else if last % 64 != 63 {
        last - last % 64 - 1
    } else {
        last
    }
}

/// The same, where what stands above six bits is whole too.
fn twice_whole_end(first: u32, last: u32) -> u32
    requires { first ≤ last }
    ensures from { first ≤ result }
    ensures to { result ≤ last }
    ensures whole { IsWhole first result }
    ensures whole_64 { IsWhole (first / 64) (result / 64) }
{
    let end = whole_end(first, last);
    if first / 64 == end / 64 {
        end
    } else {
        whole_end(first / 64, end / 64) * 64 + 63
    }
}

/// The same, where what stands above twelve bits is whole too.
fn thrice_whole_end(first: u32, last: u32) -> u32
    requires { first ≤ last }
    ensures from { first ≤ result }
    ensures to { result ≤ last }
    ensures whole { IsWhole first result }
    ensures whole_64 { IsWhole (first / 64) (result / 64) }
    ensures whole_4096 { IsWhole (first / 64 / 64) (result / 64 / 64) }
{
    let end = whole_end(first, last);
    if first / 64 == end / 64 {
        end
    } else {
        twice_whole_end(first / 64, end / 64) * 64 + 63
    }
}

/// The last code point whose encoding is as long.
fn length_end(first: u32) -> u32
    requires { first ≤ 0x10FFFF }
    ensures from { first ≤ result }
    ensures one { (m : ℕ) → m ≤ result → HaveOneLength first m }
{
    if first < 0x80 {
        0x7F
    } else if first < 0x800 {
        0x7FF
    } else if first < 0x10000 {
        0xFFFF
    } else {
        LAST
    }
}

/// The last code point of the longest piece that begins at the first.
pub(crate) fn piece_end(first: u32, last: u32) -> u32
    requires order { first ≤ last }
    requires last { last ≤ 0x10FFFF }
    ensures from { first ≤ result }
    ensures to { result ≤ last }
    ensures piece { IsPiece first result }
{
    let most = last.min(length_end(first));
    if most < 0x80 {
        most
    } else {
        thrice_whole_end(first, most)
    }
}
