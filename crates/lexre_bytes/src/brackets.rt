//! What stands between brackets inside a class. (POSIX, Base Definitions, RE Bracket Expression.)
ghost use Rattle.std.specs.Prelude.{◌≡◌, ◌≤◌, ℕ, List, length, Option, Some, None, MatchResult, IfErr, option_map};
ghost use Rattle.lexre_bytes.specs.Faults.{IsByteFault};
ghost use Rattle.lexre_bytes.specs.Lexical.{escape_at};
ghost use Rattle.lex_semantics.specs.Escapes.{byte_with};
ghost use Rattle.lexre_bytes.specs.Brackets.{enclosed_at, letters_at, named_at, unsupported_at};
ghost use Rattle.lexre_bytes.specs.Stops.{stop_of};
ghost use Rattle.lexre_bytes.specs.Unread.{Fault, fault_inside};
ghost use Rattle.lexre_bytes.specs.declared.error.PatternErrorKind.TheVariants.{UnclosedClass};

use crate::classes::Class;
use crate::error::{FaultAt, PatternErrorKind};
use crate::escapes::literal_byte_at;
use crate::fronts::{skip_word, take_up_to};

/// At least one letter, and `:]`: the letters, and what follows.
fn letters_at(text: &[u8]) -> Option<(&[u8], &[u8])>
    ensures { ◌≡◌ {A = Option (List ℕ × List ℕ)} (letters_at text.now) (option_map (λ x. (x.0.now, x.1.now)) result) }
{
    let (letters, rest) = take_up_to(text.len(), |byte| Class::Alpha.contains(byte), text);
    if letters.is_empty() {
        return None;
    }
    let after = skip_word(b":]", rest)?;
    Some((letters, after))
}

/// `[:`, at least one letter, and `:]`: the letters, and what follows.
pub(crate) fn named_at(text: &[u8]) -> Option<(&[u8], &[u8])>
    ensures { ◌≡◌ {A = Option (List ℕ × List ℕ)} (named_at text.now) (option_map (λ x. (x.0.now, x.1.now)) result) }
{
    letters_at(skip_word(b"[:", text)?)
}

/// The text from its first `]` or newline on, or its end.
pub(crate) fn find_stop(text: &[u8]) -> &[u8]
    ensures { result.now ≡ stop_of text.now }
{
    let (_, stop) = take_up_to(text.len(), |byte| !matches!(byte, b']' | b'\n'), text);
    stop
}

/// The text from its first `]` or newline on, or its end. `known` is that of a text before, and is kept where it is not
/// passed.
pub(crate) fn next_stop<'a>(known: &'a [u8], text: &'a [u8]) -> &'a [u8]
    requires { length known.now ≤ length text.now → known.now ≡ stop_of text.now }
    ensures { result.now ≡ stop_of text.now }
{
    if known.len() <= text.len() {
        known
    } else {
        find_stop(text)
    }
}

/// At least one byte that is no `]` and no newline, then this sign and `]`: what follows. `stop` is the text from its
/// first `]` or newline on.
fn skip_enclosed<'a>(sign: u8, text: &'a [u8], stop: &[u8]) -> Option<&'a [u8]>
    requires { stop.now ≡ stop_of text.now }
    ensures { enclosed_at sign text.now ≡ option_map (λ x. x.now) result }
{
    let (bytes, rest) = text.split_at(text.len() - stop.len());
    if bytes.len() > 1 && bytes.ends_with(&[sign]) {
        skip_word(b"]", rest)
    } else {
        None
    }
}

/// What follows `[:^`, at least one letter and `:]`; or `[=`, at least one byte and `=]`; or the same with dots. `stop`
/// is the text from its first `]` or newline on.
pub(crate) fn skip_unsupported<'a>(text: &'a [u8], stop: &[u8]) -> Option<&'a [u8]>
    requires { stop.now ≡ stop_of text.now }
    ensures { unsupported_at text.now ≡ option_map (λ x. x.now) result }
{
    if let Some(rest) = skip_word(b"[:^", text) {
        let (_, after) = letters_at(rest)?;
        Some(after)
    } else if let Some(rest) = skip_word(b"[=", text) {
        skip_enclosed(b'=', rest, stop)
    } else {
        skip_enclosed(b'.', skip_word(b"[.", text)?, stop)
    }
}

/// A byte of a class, and what follows it: an escape, or any byte but a newline. `class` is the text from the class on,
/// at which a class that is not closed is reported.
pub(crate) fn class_byte_at<'a>(
    class: &'a [u8],
    text: &'a [u8],
) -> Result<(u8, &'a [u8]), FaultAt<'a>>
    ensures found { MatchResult result
        (λ x. ◌≡◌ {A = Option (ℕ × List ℕ)} (byte_with escape_at text.now) (Some (x.0, x.1.now)))
        (λ _. ◌≡◌ {A = Option (ℕ × List ℕ)} (byte_with escape_at text.now) None) }
    ensures fault { IfErr result (λ f. IsByteFault f.kind) }
    ensures told { IfErr result (λ f. ◌≡◌ {A = Fault} (f.kind, f.rest.now)
        (fault_inside UnclosedClass class.now text.now)) }
{
    match literal_byte_at(text) {
        Some(found) => Ok(found),
        None if text.starts_with(b"\\") => Err(FaultAt {
            kind: PatternErrorKind::BadEscape,
            rest: text,
        }),
        None => Err(FaultAt {
            kind: PatternErrorKind::UnclosedClass,
            rest: class,
        }),
    }
}
