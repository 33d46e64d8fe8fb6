//! What stands at the front of a text.
ghost use Rattle.std.specs.Prelude.{◌≡◌, ℕ, ◌<◌, ◌++◌, Bool, List, drop, option_map};
ghost use Rattle.lex_semantics.specs.Reading.{take_up_to};
ghost use Rattle.lexre_bytes.specs.Lexical.{after_word};

/// The bytes at the front that pass the test, at most `limit` of them, and what follows.
pub fn take_up_to<F: Fn(u8) -> bool>(limit: usize, test: F, text: &[u8]) -> (&[u8], &[u8])
    requires { F.IsAlwaysCallable test }
    ensures front { (p : ℕ → Bool) → ((b : ℕ) (r : Bool) → b < 256 → F.post test b r → r ≡ p b)
        → ◌≡◌ {A = List ℕ × List ℕ} (take_up_to limit p text.now) (result.0.now, result.1.now) }
    ensures whole { result.0.now ++ result.1.now ≡ text.now }
{
    for (i, byte) in text.iter().enumerate() {
        if i == limit || !test(*byte) {
            return text.split_at(i);
        }
    }
    text.split_at(text.len())
}

/// What follows the word, where the text begins with it.
#[tactic(auto, unfolding(crate::specs::Lexical::after_word))]
pub fn skip_word<'a>(word: &[u8], text: &'a [u8]) -> Option<&'a [u8]>
    ensures { after_word word.now text.now ≡ option_map (λ x. x.now) result }
{
    if text.starts_with(word) {
        text.get(word.len()..)
    } else {
        None
    }
}

/// What follows the first byte, if there is one.
pub fn skip_first(text: &[u8]) -> &[u8]
    ensures { result.now ≡ drop 1 text.now }
{
    text.get(1..).unwrap_or(text)
}
