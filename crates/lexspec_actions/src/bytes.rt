//! Bytes, names, numbers and strings of an action.
ghost use Rattle.std.specs.Prelude.{◌≡◌, ◌≤◌, ◌<◌, ◌+◌, suc, length, min, option_map};
ghost use Rattle.std.specs.Prelude.{◌∷◌, [], MatchOption, IfSome, IfOk, IfErr};
ghost use Rattle.lex_semantics.specs.Reading.{take_run, is_white, starts_name};
ghost use Rattle.lex_semantics.specs.ByteSets.{is_digit};
ghost use Rattle.lexre_bytes.specs.Lexical.{name_at};
ghost use Rattle.lexspec_actions.specs.Bytes.{after_spaces, expect};
ghost use Rattle.lexspec_actions.specs.ByteSteps.{digits_at};
ghost use Rattle.lexspec_actions.specs.ByteSteps.{skip_in, as_byte};
ghost use Rattle.lexspec_actions.specs.Bytes.{literal_at};
ghost use Rattle.lexspec_actions.specs.ByteSteps.{plain_escape, escape_from, string_byte_at, string_at};
ghost use Rattle.lexspec_actions.specs.ByteSteps.{outside, slash, block, line};
ghost use Rattle.lexspec_actions.specs.Outcome.{Reads};
ghost use Rattle.lexspec_actions.specs.ActionFaults.{IsActionFault};

use lexre_bytes::{
    Class, SpecErrorKind, hexadecimal_at, octal_at, simple_escape, split_name, starts_name,
    take_up_to,
};
use std::alloc::Global;

/// Whether the byte is a blank or a newline.
#[tactic(auto, unfolding(lex_semantics::specs::ByteSets::is_blank))]
fn is_white(byte: u8) -> bool
    ensures { result ≡ is_white byte }
{
    byte == b'\t' || byte == b' ' || byte == b'\n'
}

/// The digits at the front, and what follows them.
fn split_digits(text: &[u8]) -> (&[u8], &[u8])
    ensures { take_run is_digit text.now ≡ (result.0.now, result.1.now) }
{
    take_up_to(text.len(), |byte| Class::Digit.contains(byte), text)
}

/// The name at the front, and what follows it. None where no name begins there.
#[tactic(auto, unfolding(lexre_bytes::specs::Lexical::name_at))]
pub(crate) fn name_at(text: &[u8]) -> Option<(&[u8], &[u8])>
    ensures name { option_map (λ x. (x.0.now, x.1.now)) result ≡ name_at text.now }
    ensures shorter { IfSome result (λ x. length x.1.now < length text.now) }
{
    let (first, _after) = text.split_first()?;
    if !starts_name(*first) {
        return None;
    }
    Some(split_name(text))
}

/// The digits at the front, of which there is one at least, and what follows them.
#[tactic(auto, unfolding(lexre_bytes::specs::Lexical::run_at), using(lex_semantics::proofs::ReadingLaws::empty_test))]
pub(crate) fn digits_at(text: &[u8]) -> Option<(&[u8], &[u8])>
    ensures digits { option_map (λ x. (x.0.now, x.1.now)) result ≡ digits_at text.now }
    ensures shorter { IfSome result (λ x. length x.1.now ≤ length text.now) }
{
    let (digits, rest) = split_digits(text);
    if digits.is_empty() {
        return None;
    }
    Some((digits, rest))
}

/// What follows the end of a comment between `/*` and `*/`.
fn after_block(text: &[u8]) -> &[u8]
    ensures same { skip_in block text.now ≡ skip_in outside result.now }
    ensures shorter { length result.now ≤ length text.now }
{
    let mut rest = text;
    let mut star = false;
    while let Some((first, after)) = rest.split_first() {
        if star && *first == b'/' {
            return after;
        }
        star = *first == b'*';
        rest = after;
    }
    rest
}

/// What follows the line.
fn after_line(text: &[u8]) -> &[u8]
    ensures same { skip_in line text.now ≡ skip_in outside result.now }
    ensures shorter { length result.now ≤ length text.now }
{
    let mut rest = text;
    while let Some((first, after)) = rest.split_first() {
        if *first == b'\n' {
            return after;
        }
        rest = after;
    }
    rest
}

/// What follows the comment that a slash before the text opens.
fn after_comment(text: &[u8]) -> Option<&[u8]>
    ensures { MatchOption result (skip_in slash text.now
        ≡ 47 ∷ text.now) (λ r. (skip_in slash text.now ≡ skip_in outside r.now) × (length r.now ≤ length text.now)) }
{
    let (first, after) = text.split_first()?;
    if *first == b'*' {
        return Some(after_block(after));
    }
    if *first == b'/' {
        return Some(after_line(after));
    }
    None
}

/// What follows blanks, newlines and comments.
#[tactic(auto, using(crate::proofs::SameBytes::skip_is))]
pub(crate) fn skip(text: &[u8]) -> &[u8]
    ensures skipped { result.now ≡ after_spaces text.now }
    ensures shorter { length result.now ≤ length text.now }
{
    let mut rest = text;
    while let Some((first, after)) = rest.split_first() {
        if is_white(*first) {
            rest = after;
        } else if *first == b'/' {
            match after_comment(after) {
                Some(beyond) => rest = beyond,
                None => return rest,
            }
        } else {
            return rest;
        }
    }
    rest
}

/// What follows the byte, where that comes next.
#[tactic(auto, using(crate::proofs::SameBytes::next_is))]
pub(crate) fn next(byte: u8, text: &[u8]) -> Option<&[u8]>
    ensures next { option_map (λ r. r.now) result ≡ expect (byte ∷ []) text.now }
    ensures shorter { IfSome result (λ r. length r.now < length text.now) }
{
    match skip(text) {
        [first, after @ ..] if *first == byte => Some(after),
        _ => None,
    }
}

/// The byte that a letter or sign stands for after a backslash in a string. None for any other.
#[tactic(auto, unfolding(crate::specs::ByteSteps::plain_escape, lex_semantics::specs::Escapes::simple_escape))]
fn plain_escape(byte: u8) -> Option<u8>
    ensures { result ≡ plain_escape byte }
{
    match byte {
        b'a' | b'b' | b'f' | b'n' | b'r' | b't' | b'v' => Some(simple_escape(byte)),
        b'\\' | b'"' | b'\'' | b'?' => Some(byte),
        _ => None,
    }
}

/// A byte other than 0, and the rest.
fn as_byte(byte: u8, rest: &[u8]) -> Option<(u8, &[u8])>
    ensures byte { option_map (λ x. (x.0, x.1.now)) result ≡ as_byte byte rest.now }
    ensures same { IfSome result (λ x. x.1.now ≡ rest.now) }
{
    if byte == 0 {
        return None;
    }
    Some((byte, rest))
}

/// After a backslash.
#[tactic(auto, unfolding(crate::specs::ByteSteps::escape_from))]
fn escape_at(text: &[u8]) -> Option<(u8, &[u8])>
    ensures escape { option_map (λ x. (x.0, x.1.now)) result ≡ escape_from text.now }
    ensures shorter { IfSome result (λ x. length x.1.now ≤ length text.now) }
{
    let (first, after) = text.split_first()?;
    match *first {
        b'0'..=b'7' => {
            let (byte, rest) = octal_at(text)?;
            as_byte(byte, rest)
        }
        b'x' => {
            let (byte, rest) = hexadecimal_at(after)?;
            as_byte(byte, rest)
        }
        other => Some((plain_escape(other)?, after)),
    }
}

/// A byte of a string.
#[tactic(auto, unfolding(crate::specs::ByteSteps::string_byte_at))]
fn string_byte_at(text: &[u8]) -> Option<(u8, &[u8])>
    ensures byte { option_map (λ x. (x.0, x.1.now)) result ≡ string_byte_at text.now }
    ensures shorter { IfSome result (λ x. length x.1.now < length text.now) }
{
    let (first, after) = text.split_first()?;
    if *first == b'\n' {
        return None;
    }
    if *first == b'\\' {
        return escape_at(after);
    }
    Some((*first, after))
}

/// After the opening quote.
fn string_at(alloc: Global, text: &[u8]) -> Result<(Vec<u8>, &[u8]), SpecErrorKind>
    ensures string { Reads (λ x. (x.0.items, x.1.now)) result (string_at (suc (length text.now)) text.now) }
    ensures shorter { IfOk result (λ x. length x.1.now < length text.now) }
    ensures fault { IfErr result (λ e. IsActionFault e) }
{
    let mut bytes = Vec::new(alloc);
    let mut rest = text;
    while let Some((first, after)) = rest.split_first() {
        if *first == b'"' {
            return Ok((bytes, after));
        }
        let Some((byte, beyond)) = string_byte_at(rest) else {
            return Err(SpecErrorKind::UnknownStatement);
        };
        bytes.push(byte)?;
        rest = beyond;
    }
    Err(SpecErrorKind::Unclosed)
}

/// The bytes of the string that comes next, and what follows its closing quote. `UnknownStatement` where none begins or
/// a byte may not stand there, `Unclosed` where it is left open.
#[tactic(auto, using(crate::proofs::SameBytes::literal_is))]
pub(crate) fn literal_at(alloc: Global, text: &[u8]) -> Result<(Vec<u8>, &[u8]), SpecErrorKind>
    ensures literal { Reads (λ x. (x.0.items, x.1.now)) result (literal_at text.now) }
    ensures shorter { IfOk result (λ x. length x.1.now ≤ length text.now) }
    ensures fault { IfErr result (λ e. IsActionFault e) }
{
    let Some(inside) = next(b'"', text) else {
        return Err(SpecErrorKind::UnknownStatement);
    };
    string_at(alloc, inside)
}
