//! Lines, blanks and words of a specification file. (POSIX, lex, Definitions in lex.)
ghost use Rattle.std.specs.Prelude.{◌≡◌, ℕ, ◌<◌, ◌≤◌, ◌∷◌, [], ◌++◌, Bool, length, take, IfOk, IfSome, MatchOption};
ghost use Rattle.std.specs.List.{list_any};
ghost use Rattle.lex_semantics.specs.Reading.{after_blanks};
ghost use Rattle.lex_semantics.specs.ByteSets.{is_blank, same_bytes};
ghost use Rattle.lexspec_lines.specs.DefinitionLines.{has_name};
ghost use Rattle.lexspec_lines.specs.Lines.{without_returns, line_in, before_blank, words, is_all_blank};
ghost use Rattle.lexspec_lines.specs.Runs.{split_before};

use bstr::ByteSlice;
use lexre_bytes::{skip_first, take_up_to};
use std::alloc::{AllocError, Global};

/// The text without each carriage return that stands directly before a newline. What stands between carriage returns is
/// copied at once.
pub fn without_returns(alloc: Global, text: &[u8]) -> Result<Vec<u8>, AllocError>
    ensures { IfOk result (λ kept. kept.items ≡ without_returns text.now) }
{
    let mut kept = Vec::new(alloc);
    let mut rest = text;
    while let Some(at) = rest.find_byte(b'\r') {
        let (front, back) = rest.split_at(at);
        kept.extend_from_slice(front)?;
        rest = skip_first(back);
        if !rest.starts_with(b"\n") {
            kept.push(b'\r')?;
        }
    }
    kept.extend_from_slice(rest)?;
    Ok(kept)
}

/// The bytes before the first that passes the test, and the text from it on.
pub fn split_before<F: Fn(u8) -> bool>(test: F, text: &[u8]) -> (&[u8], &[u8])
    requires { F.IsAlwaysCallable test }
    ensures split { (p : ℕ → Bool) → ((b : ℕ) (r : Bool) → b < 256 → F.post test b r → r ≡ p b)
        → split_before p text.now ≡ (result.0.now, result.1.now) }
    ensures whole { result.0.now ++ result.1.now ≡ text.now }
{
    take_up_to(text.len(), |byte| !test(byte), text)
}

/// The first line, without its newline, and what follows that.
pub fn split_line(text: &[u8]) -> (&[u8], &[u8])
    ensures line { line_in text.now ≡ (result.0.now, result.1.now) }
    ensures shorter { 0 < length text.now → length result.1.now < length text.now }
    ensures within { length result.0.now ≤ length text.now }
{
    let at = text.find_byte(b'\n').unwrap_or(text.len());
    let (line, rest) = text.split_at(at);
    (line, skip_first(rest))
}

/// Whether the byte is a space or a tab.
#[tactic(auto, unfolding(lex_semantics::specs::ByteSets::is_blank))]
pub fn is_blank(byte: u8) -> bool
    ensures { result ≡ is_blank byte }
{
    byte == b'\t' || byte == b' '
}

/// What follows the blanks at the front.
pub fn skip_blanks(text: &[u8]) -> &[u8]
    ensures after { result.now ≡ after_blanks text.now }
    ensures shorter { length result.now ≤ length text.now }
{
    split_before(|byte| !is_blank(byte), text).1
}

/// Whether the text has blanks alone, or nothing.
pub fn is_all_blank(text: &[u8]) -> bool
    ensures { result ≡ is_all_blank text.now }
{
    skip_blanks(text).is_empty()
}

/// Whether the text begins with a blank.
pub fn starts_blank(text: &[u8]) -> bool
    ensures { result ≡ list_any is_blank (take 1 text.now) }
{
    match text.split_first() {
        Some((first, _)) => is_blank(*first),
        None => false,
    }
}

/// The bytes before the first blank, and the text from it on.
pub(crate) fn split_word(text: &[u8]) -> (&[u8], &[u8])
    ensures word { before_blank text.now ≡ (result.0.now, result.1.now) }
    ensures shorter { length result.1.now ≤ length text.now }
{
    split_before(|byte| is_blank(byte), text)
}

/// The first word, and the text after it. None where there is no word.
pub(crate) fn next_word(text: &[u8]) -> Option<(&[u8], &[u8])>
    ensures words { MatchOption result (words text.now ≡ []) (λ x. words text.now ≡ x.0.now ∷ words x.1.now) }
    ensures shorter { IfSome result (λ x. length x.1.now < length text.now) }
{
    let first = skip_blanks(text);
    if first.is_empty() {
        return None;
    }
    Some(split_word(first))
}

/// Whether the word is among those of the text.
pub(crate) fn has_word(text: &[u8], word: &[u8]) -> bool
    ensures named { result ≡ has_name (words text.now) word.now }
    ensures among { result ≡ list_any (same_bytes word.now) (words text.now) }
{
    let mut rest = text;
    while let Some((one, after)) = next_word(rest) {
        if one == word {
            return true;
        }
        rest = after;
    }
    false
}
