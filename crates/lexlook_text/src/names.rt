//! The words of a text, and which of them is nearest to a name.
ghost use Rattle.std.specs.Prelude.{◌≡◌, ◌≤◌, ◌<◌, [], ◌∷◌, IfSome, MatchOption, length, option_map, reverse};
ghost use Rattle.lexspec_lines.specs.DefinitionLines.{has_name};
ghost use Rattle.lexspec_lines.specs.Lines.{before_blank, words};
ghost use Rattle.lexlook_text.specs.Names.{alike, is_near, longer, nearer_name, nearest, unlike};

use lexspec_lines::{is_blank, skip_blanks, split_before};

/// The bytes before the first blank, and the text from it on.
pub fn split_word(text: &[u8]) -> (&[u8], &[u8])
    ensures word { before_blank text.now ≡ (result.0.now, result.1.now) }
    ensures shorter { length result.1.now ≤ length text.now }
{
    split_before(|byte| is_blank(byte), text)
}

/// The first word, and the text after it. None where there is no word.
fn next_word(text: &[u8]) -> Option<(&[u8], &[u8])>
    ensures words { MatchOption result (words text.now ≡ []) (λ x. words text.now ≡ x.0.now ∷ words x.1.now) }
    ensures shorter { IfSome result (λ x. length x.1.now < length text.now) }
{
    let first = skip_blanks(text);
    if first.is_empty() {
        return None;
    }
    Some(split_word(first))
}

/// Whether the word is among those of the text.
pub fn has_word(text: &[u8], word: &[u8]) -> bool
    ensures { result ≡ has_name (words text.now) word.now }
{
    let mut rest = text;
    'words: while let Some((one, after)) = next_word(rest) {
        if one == word {
            return true;
        }
        rest = after;
    }
    false
}

/// How many bytes both have alike in front, where letters stand for both cases.
fn alike_in_front(word: &[u8], name: &[u8]) -> usize
    ensures is { result ≡ alike word.now name.now }
    ensures within { result ≤ length word.now }
    ensures within_name { result ≤ length name.now }
{
    let mut count = 0;
    let mut left = word;
    let mut right = name;
    'bytes: while let Some((first, next)) = left.split_first() {
        let Some((other, after)) = right.split_first() else {
            return count;
        };
        if !first.eq_ignore_ascii_case(other) {
            return count;
        }
        count += 1;
        left = next;
        right = after;
    }
    count
}

/// How many bytes both have alike at the end.
#[tactic(auto, using(crate::proofs::NameLaws::last_first))]
fn alike_at_end(word: &[u8], name: &[u8]) -> usize
    ensures { result ≡ alike (reverse word.now) (reverse name.now) }
{
    let mut count = 0;
    let mut left = word;
    let mut right = name;
    'bytes: while let Some((last, before)) = left.split_last() {
        let Some((other, rest)) = right.split_last() else {
            return count;
        };
        if !last.eq_ignore_ascii_case(other) {
            return count;
        }
        count += 1;
        left = before;
        right = rest;
    }
    count
}

/// How many bytes the longer one has.
fn longer(word: &[u8], name: &[u8]) -> usize
    ensures { result ≡ longer word.now name.now }
{
    if word.len() < name.len() {
        name.len()
    } else {
        word.len()
    }
}

/// How many bytes of the longer one are alike neither in front nor at the end.
fn unlike(word: &[u8], name: &[u8]) -> usize
    ensures { result ≡ unlike word.now name.now }
{
    let front = alike_in_front(word, name);
    let back = alike_at_end(word.split_at(front).1, name.split_at(front).1);
    longer(word, name)
        .saturating_sub(front)
        .saturating_sub(back)
}

/// Whether half of the longer one is alike at least.
fn is_near(word: &[u8], name: &[u8]) -> bool
    ensures { result ≡ is_near word.now name.now }
{
    let differ = unlike(word, name);
    differ <= longer(word, name).saturating_sub(differ)
}

/// Of the nearest so far and a name that which is nearer to the word.
fn nearer<'a>(word: &[u8], best: Option<&'a [u8]>, name: &'a [u8]) -> Option<&'a [u8]>
    ensures { option_map (λ n. n.now) result ≡ nearer_name word.now (option_map (λ n. n.now) best.entry) name.now }
{
    match best {
        None => {
            if is_near(word, name) {
                Some(name)
            } else {
                None
            }
        }
        Some(best) => {
            if is_near(word, name) && unlike(word, name) < unlike(word, best) {
                Some(name)
            } else {
                Some(best)
            }
        }
    }
}

/// Of the words of a text the nearest to this one, if one is near.
pub fn nearest<'a>(word: &[u8], names: &'a [u8]) -> Option<&'a [u8]>
    ensures { option_map (λ n. n.now) result ≡ nearest word.now names.now }
{
    let mut best = None;
    let mut rest = names;
    'words: while let Some((name, after)) = next_word(rest) {
        best = nearer(word, best, name);
        rest = after;
    }
    best
}
