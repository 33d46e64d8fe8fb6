//! Sets of bytes. (POSIX, lex, Regular Expressions in lex: bracket expressions in the POSIX locale.)
ghost use Rattle.std.specs.Prelude.{◌≡◌, ℕ, ◌-◌, ◌<◌, ◌≤◌, ◌↔◌, Bool, false, true, IsTrue};
ghost use Rattle.lex_semantics.specs.ByteSets.{has, set_of, empty_set, single, range_set};
ghost use Rattle.lex_semantics.specs.ByteSets.{union, complement, fold_case, named_set};
ghost use Rattle.std.proofs.Math.Bool.{xor};

use crate::classes::{Class, other_case};
use crate::words::{first_one, next_one, ones_between};
use std::marker::Model;

/// A set of bytes. Bit b of the two words says whether the byte b is in it.
#[derive(Clone, Copy, PartialEq, Eq, Debug)]
pub struct ByteSet {
    low: u128,
    high: u128,
}

impl Model for ByteSet {
    ghost use Rattle.std.specs.Prelude.{ℕ, ◌+◌, ◌*◌, ◌/◌, ◌%◌, ◌<◌, ◌^◌};
    ghost use Rattle.lexre_bytes.specs.Halves.{joined, low_of, high_of};

    ghost Value = { ℕ };

    ghost view = { λ s. joined s.high s.low };

    ghost invariant = { λ s. (s.low < 2 ^ 128) × (s.high < 2 ^ 128) };

    ghost inverse = { λ n. record { low = n % 2 ^ 128; high = n / 2 ^ 128 } };

    ghost inverse_ok = { λ s h i. record {
      low = low_of s.high s.low h.0 i;
      high = high_of s.high s.low h.0 i;
    } };
}

impl ByteSet {
    /// The set with no byte.
    pub fn empty() -> ByteSet
        ensures { result ≡ empty_set }
    {
        ByteSet { low: 0, high: 0 }
    }

    /// Whether no byte is in the set.
    pub fn is_empty(&self) -> bool
        ensures { IsTrue result ↔ (self.now ≡ empty_set) }
    {
        *self == ByteSet::empty()
    }

    /// Whether the byte is in the set.
    pub fn contains(&self, byte: u8) -> bool
        ensures { result ≡ has self.now byte }
    {
        if byte < 128 {
            (self.low >> byte) & 1 == 1
        } else {
            (self.high >> (byte - 128)) & 1 == 1
        }
    }

    /// The bytes that are in one of the two sets.
    pub fn union(&self, other: &ByteSet) -> ByteSet
        ensures { result ≡ union self.now other.now }
    {
        ByteSet {
            low: self.low | other.low,
            high: self.high | other.high,
        }
    }

    /// The bytes that are not in the set, of all 256.
    pub fn complement(&self) -> ByteSet
        ensures { result ≡ complement self.now }
    {
        ByteSet {
            low: !self.low,
            high: !self.high,
        }
    }

    /// The set of the bytes that pass the test.
    fn passing<F: Fn(u8) -> bool>(test: F) -> ByteSet
        requires { F.IsAlwaysCallable test }
        ensures { (p : ℕ → Bool) → ((b : ℕ) (r : Bool) → b < 256 → F.post test b r → r ≡ p b) → result ≡ set_of p }
    {
        let mut low: u128 = 0;
        let mut high: u128 = 0;
        for byte in 0..128u8 {
            if test(byte) {
                low |= 1 << byte;
            }
            if test(byte + 128) {
                high |= 1 << byte;
            }
        }
        ByteSet { low, high }
    }

    /// The set of this byte alone.
    pub fn of(byte: u8) -> ByteSet
        ensures { result ≡ single byte }
    {
        if byte < 128 {
            ByteSet {
                low: 1 << byte,
                high: 0,
            }
        } else {
            ByteSet {
                low: 0,
                high: 1 << (byte - 128),
            }
        }
    }

    /// The bytes from `lo` to `hi`, both in it.
    pub fn range(lo: u8, hi: u8) -> ByteSet
        requires { lo ≤ hi }
        ensures { result ≡ range_set lo hi }
    {
        let first = usize::from(lo);
        let end = usize::from(hi) + 1;
        ByteSet {
            low: ones_between(first.min(128), end.min(128)),
            high: ones_between(first.max(128) - 128, end.max(128) - 128),
        }
    }

    /// The set closed under changing the case of ASCII letters. (flex, Scanner Options: case-insensitive.)
    #[tactic(auto, unfolding(lex_semantics::specs::ByteSets::fold_case))]
    pub fn fold_case(&self) -> ByteSet
        ensures { result ≡ fold_case self.now }
    {
        ByteSet::passing(|b| self.contains(b) || self.contains(other_case(b)))
    }

    /// The bytes of which the set has just one, that or the byte before. No byte is before the first.
    pub fn changes(&self) -> ByteSet
        ensures first { has result 0 ≡ has self.now 0 }
        ensures later { (b : ℕ) → 1 ≤ b → b < 256 → has result b ≡ xor (has self.now (b - 1)) (has self.now b) }
    {
        ByteSet {
            low: self.low ^ (self.low << 1),
            high: self.high ^ ((self.high << 1) | (self.low >> 127)),
        }
    }

    /// The first byte of the set after this one, or 256.
    pub fn first_after(&self, byte: u8) -> usize
        ensures after { byte < result }
        ensures within { result ≤ 256 }
        ensures none { (b : ℕ) → byte < b → b < result → has self.now b ≡ false }
        ensures there { result < 256 → has self.now result ≡ true }
    {
        if byte >= 128 {
            return 128 + next_one(self.high, byte - 128);
        }
        let place = next_one(self.low, byte);
        if place < 128 {
            return place;
        }
        128 + first_one(self.high)
    }

    /// The character class of this name in the POSIX locale, and None for a name that it does not have.
    /// (POSIX, Base Definitions, LC_CTYPE.)
    pub fn named(name: &[u8]) -> Option<ByteSet>
        ensures { result ≡ named_set name.now }
    {
        let class = Class::named(name)?;
        Some(ByteSet::passing(|byte| class.contains(byte)))
    }
}
