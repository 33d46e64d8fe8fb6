//! Words of 128 bits: runs of ones, and where the next one stands.
ghost use Rattle.std.specs.Prelude.{◌≡◌, ℕ, ◌-◌, ◌^◌, ◌<◌, ◌≤◌};
ghost use Rattle.std.specs.Int.{bit_at};

/// The word whose ones are the bits below this one.
fn ones_below(bit: usize) -> u128
    requires { bit ≤ 128 }
    ensures { result ≡ 2 ^ bit - 1 }
{
    if bit < 128 { (1 << bit) - 1 } else { u128::MAX }
}

/// The word whose ones are the bits from `from` on that are below `to`.
pub(crate) fn ones_between(from: usize, to: usize) -> u128
    requires order { from ≤ to }
    requires within { to ≤ 128 }
    ensures { result ≡ 2 ^ to - 2 ^ from }
{
    ones_below(to) - ones_below(from)
}

/// The first bit of the word that is set, or 128.
pub(crate) fn first_one(word: u128) -> usize
    ensures within { result ≤ 128 }
    ensures none { (i : ℕ) → i < result → bit_at word i ≡ 0 }
    ensures one { result < 128 → bit_at word result ≡ 1 }
{
    word.trailing_zeros() as usize
}

/// The first bit after this one that is set, or 128.
pub(crate) fn next_one(word: u128, bit: u8) -> usize
    requires { bit < 128 }
    ensures after { bit < result }
    ensures within { result ≤ 128 }
    ensures none { (i : ℕ) → bit < i → i < result → bit_at word i ≡ 0 }
    ensures one { result < 128 → bit_at word result ≡ 1 }
{
    let rest = (word >> bit) >> 1;
    if rest == 0 {
        return 128;
    }
    usize::from(bit) + 1 + first_one(rest)
}
