//! What stands between braces. (POSIX, lex, Definitions in lex; flex, Patterns.)
ghost use Rattle.std.specs.Prelude.{◌≡◌, List, ℕ, Option, Some, None, MatchResult};
ghost use Rattle.std.specs.Prelude.{IfOk, IfSome, ◌≤◌, length, option_map};
ghost use Rattle.lex_semantics.specs.ByteSets.{is_digit};
ghost use Rattle.lexre.specs.Soundness.{IsSoundSymbol};
ghost use Rattle.lexre.specs.SymbolViews.{Front, symbol_of};
ghost use Rattle.lex_semantics.specs.Reading.{goes_on_name, take_up_to};
ghost use Rattle.lexre_bytes.specs.BraceSteps.{bounded, interval, interval_at};
ghost use Rattle.lexre_bytes.specs.Lexical.{braces_at};
ghost use Rattle.lexre.specs.Fronts.{name_front};
ghost use Rattle.lexre_bytes.specs.Symbols.{name};

use crate::symbols::Symbol;
use lexre_bytes::{
    Class, FaultAt, PatternErrorKind, capped_value, goes_on_name, skip_word, starts_name,
    take_up_to,
};

/// The letters of a name, after the opening brace, and what follows the closing one.
pub(crate) fn name_at(text: &[u8]) -> Option<(&[u8], &[u8])>
    ensures { ◌≡◌ {A = Front} (name_front text.now) (option_map (λ x. (name x.0.now, x.1.now)) result) }
{
    let (letters, rest) = take_up_to(text.len(), |byte| goes_on_name(byte), text);
    let after = skip_word(b"}", rest)?;
    Some((letters, after))
}

/// The least and the greatest count of an interval, after the opening brace, and what follows the closing one.
pub(crate) fn interval_at(text: &[u8]) -> Option<((u8, Option<u8>), &[u8])>
    ensures front { ◌≡◌ {A = Front} (interval_at text.now) (option_map (λ x. (interval x.0.0 x.0.1, x.1.now)) result) }
    ensures sound { IfSome result (λ x. IfSome x.0.1 (λ n. (x.0.0 ≤ n) × (1 ≤ n))) }
{
    let (digits, rest) = digits_at(text);
    let least = capped_value(10, digits);
    if let Some(after) = skip_word(b"}", rest) {
        return Some((counts(least, least)?, after));
    }
    if let Some(after) = skip_word(b",}", rest) {
        return Some(((u8::try_from(least).ok()?, None), after));
    }
    let (digits, rest) = digits_at(skip_word(b",", rest)?);
    let after = skip_word(b"}", rest)?;
    if digits.is_empty() {
        return None;
    }
    Some((counts(least, capped_value(10, digits))?, after))
}

/// The digits at the front, and what follows them.
fn digits_at(text: &[u8]) -> (&[u8], &[u8])
    ensures { ◌≡◌ {A = List ℕ × List ℕ} (take_up_to (length text.now) is_digit text.now) (result.0.now, result.1.now) }
{
    take_up_to(text.len(), |byte| Class::Digit.contains(byte), text)
}

/// The two counts, where they are in order and the greatest is from 1 to 255.
#[tactic(auto, unfolding(lexre_bytes::specs::BraceSteps::bounded))]
fn counts(least: u32, most: u32) -> Option<(u8, Option<u8>)>
    ensures front { (rest : List ℕ)
        → ◌≡◌ {A = Front} (bounded least most rest) (option_map (λ x. (interval x.0 x.1, rest)) result) }
    ensures sound { IfSome result (λ x. IfSome x.1 (λ n. (x.0 ≤ n) × (1 ≤ n))) }
{
    if least > most || most == 0 {
        return None;
    }
    let most = u8::try_from(most).ok()?;
    let least = u8::try_from(least).ok()?;
    Some((least, Some(most)))
}

/// What stands after an opening brace, and what follows the closing one. `braces` is the text from the opening brace
/// on.
#[tactic(auto, using(lexre_bytes::proofs::BraceForms::braces_is), unfolding(lexre_bytes::specs::BraceSteps::braces_from, crate::specs::Fronts::name_front))]
pub(crate) fn braces_at<'a>(
    braces: &'a [u8],
    text: &'a [u8],
) -> Result<(Symbol<'a>, &'a [u8]), FaultAt<'a>>
    ensures front { MatchResult result
        (λ x. ◌≡◌ {A = Front} (braces_at text.now) (Some (symbol_of x.0, x.1.now)))
        (λ _. ◌≡◌ {A = Front} (braces_at text.now) None) }
    ensures sound { IfOk result (λ x. IsSoundSymbol x.0) }
{
    let refused = FaultAt {
        kind: PatternErrorKind::BadInterval,
        rest: braces,
    };
    let (&byte, _) = text.split_first().ok_or(refused)?;
    if Class::Digit.contains(byte) {
        let ((least, most), rest) = interval_at(text).ok_or(refused)?;
        Ok((Symbol::Interval(least, most), rest))
    } else if starts_name(byte) {
        let (letters, rest) = name_at(text).ok_or(refused)?;
        Ok((Symbol::Name(letters), rest))
    } else {
        Err(refused)
    }
}
