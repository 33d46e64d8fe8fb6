//! Escapes. (POSIX, lex, Regular Expressions in lex; flex, Patterns.)
ghost use Rattle.std.specs.Prelude.{◌≡◌, ℕ, List, Option, option_map};
ghost use Rattle.lex_semantics.specs.Escapes.{simple_escape, hexadecimal_at, octal_at};
ghost use Rattle.lexre_bytes.specs.Lexical.{escape_at};
ghost use Rattle.lex_semantics.specs.Escapes.{byte_with};

use crate::classes::Class;
use crate::digits::capped_value;
use crate::fronts::take_up_to;

/// After a backslash: the byte, and what follows it. None at a newline, at the end, and at octal digits above 255.
#[tactic(auto, using(crate::proofs::EscapeForms::escape_is), unfolding(crate::specs::EscapeSteps::escape_from))]
pub fn escape_at(text: &[u8]) -> Option<(u8, &[u8])>
    ensures { ◌≡◌ {A = Option (ℕ × List ℕ)} (escape_at text.now) (option_map (λ x. (x.0, x.1.now)) result) }
{
    let (first, after) = text.split_first()?;
    match *first {
        b'\n' => None,
        b'0'..=b'7' => octal_at(text),
        b'x' => Some(hexadecimal_at(after).unwrap_or((b'x', after))),
        other => Some((simple_escape(other), after)),
    }
}

/// A byte between quotes or brackets, and what follows it: an escape, or any byte but a newline.
pub fn literal_byte_at(text: &[u8]) -> Option<(u8, &[u8])>
    ensures { ◌≡◌ {A = Option (ℕ × List ℕ)} (byte_with escape_at text.now) (option_map (λ x. (x.0, x.1.now)) result) }
{
    let (&byte, after) = text.split_first()?;
    match byte {
        b'\n' => None,
        b'\\' => escape_at(after),
        _ => Some((byte, after)),
    }
}

/// The byte of one to three octal digits, as many as stand there, and what follows them. None above 255.
pub fn octal_at(text: &[u8]) -> Option<(u8, &[u8])>
    ensures { ◌≡◌ {A = Option (ℕ × List ℕ)} (octal_at text.now) (option_map (λ x. (x.0, x.1.now)) result) }
{
    let (digits, rest) = take_up_to(3, |byte| matches!(byte, b'0'..=b'7'), text);
    let byte = u8::try_from(capped_value(8, digits)).ok()?;
    Some((byte, rest))
}

/// The byte of one or two hexadecimal digits, as many as stand there, and what follows them. None without one.
pub fn hexadecimal_at(text: &[u8]) -> Option<(u8, &[u8])>
    ensures { ◌≡◌ {A = Option (ℕ × List ℕ)} (hexadecimal_at text.now) (option_map (λ x. (x.0, x.1.now)) result) }
{
    let (digits, rest) = take_up_to(2, |byte| Class::Xdigit.contains(byte), text);
    if digits.is_empty() {
        return None;
    }
    let byte = u8::try_from(capped_value(16, digits)).ok()?;
    Some((byte, rest))
}

/// The byte that a backslash and this one stand for: C's, or itself.
#[tactic(auto, unfolding(lex_semantics::specs::Escapes::simple_escape))]
pub fn simple_escape(byte: u8) -> u8
    ensures { result ≡ simple_escape byte }
{
    match byte {
        b'a' => 7,
        b'b' => 8,
        b'f' => 12,
        b'n' => 10,
        b'r' => 13,
        b't' => 9,
        b'v' => 11,
        other => other,
    }
}
