//! Slots that are taken, a bit each.
ghost use Rattle.std.specs.Prelude.{◌≡◌, ℕ, ◌+◌, ◌-◌, ◌*◌, ◌<◌, ◌≤◌, ◌^◌, length, slice_index, OnOk, IfOk};
ghost use Rattle.std.specs.Int.{bit_at};
ghost use Rattle.lextab.specs.Searching.{slot_bit, Hits, Misses, IsFirstFit, IsMarked, HasRoom};

/// How many words the slots of one state reach into, and how many words at the end are kept free.
pub(crate) const REACH: usize = 5;

/// The 64 bits from the place `at` of a word on, which the next word goes on with.
#[inline(always)]
fn bits(words: &[u64], word: usize, at: usize) -> u64
    requires next { word + 1 < length words.now }
    requires at { at < 64 }
    ensures { (j : ℕ) → j < 64 → bit_at result j ≡ slot_bit words.now (64 * word + at + j) }
{
    let both = (u128::from(words[word + 1]) << 64) + u128::from(words[word]);
    ((both >> at) % (1 << 64)) as u64
}

/// Which of the 64 places of a word have an entry on a taken slot. The last entries are tried first: they fall on taken
/// slots more often.
fn blocked(words: &[u64], entries: &[u32], w: usize) -> u64
    requires within { w + 5 ≤ length words.now }
    requires few { length words.now < 2 ^ 30 }
    requires small { (j : ℕ) → j < length entries.now → slice_index entries.now j < 256 }
    ensures taken { (j : ℕ) → j < 64 → bit_at result j ≡ 1 → Hits words.now entries.now (64 * w + j) }
    ensures free { (j : ℕ) → j < 64 → bit_at result j ≡ 0 → Misses words.now entries.now (64 * w + j) }
{
    let mut bad = 0u64;
    for i in 0..entries.len() {
        let class = entries[entries.len() - 1 - i] as usize;
        bad |= bits(words, w + class / 64, class % 64);
        if bad == u64::MAX {
            return bad;
        }
    }
    bad
}

/// The first place at which no entry falls on a taken slot. The first `full` words are all taken, the last ones are free,
/// and at each place before `from` some entry does.
pub(crate) fn first_fit(words: &[u64], entries: &[u32], full: usize, from: usize) -> usize
    requires few { length words.now < 2 ^ 30 }
    requires some { 0 < length entries.now }
    requires small { (j : ℕ) → j < length entries.now → slice_index entries.now j < 256 }
    requires room { HasRoom words.now full }
    requires from { (c : ℕ) → c < from → Hits words.now entries.now c }
    ensures within { result ≤ 64 * (length words.now - 5) }
    ensures first { IsFirstFit words.now entries.now result }
{
    let past_full = (64 * full).saturating_sub(entries[0] as usize);
    let free = words.len().saturating_sub(REACH);
    let start = (past_full.max(from) / 64).min(free);
    for w in start..free {
        let bad = blocked(words, entries, w);
        if bad != u64::MAX {
            return 64 * w + bad.trailing_ones() as usize;
        }
    }
    64 * free
}

/// Takes the slots of the entries placed from `base`.
pub(crate) fn mark(words: &mut [u64], entries: &[u32], base: usize)
    requires few { base < 2 ^ 40 }
    requires within { (j : ℕ) → j < length entries.now → base + slice_index entries.now j < 64 * length words.old }
    ensures { IsMarked words.old entries.now base (length entries.now) words.new }
{
    for k in entries {
        let at = base + *k as usize;
        words[at / 64] |= 1 << (at % 64);
    }
}

/// How many words from the first are all taken, at least `full`.
pub(crate) fn full_words(words: &[u64], full: usize) -> usize
    requires within { full ≤ length words.now }
    requires full { (i : ℕ) → i < 64 * full → slot_bit words.now i ≡ 1 }
    ensures within { result ≤ length words.now }
    ensures full { (i : ℕ) → i < 64 * result → slot_bit words.now i ≡ 1 }
{
    for w in full..words.len() {
        if words[w] != u64::MAX {
            return w;
        }
    }
    words.len()
}
