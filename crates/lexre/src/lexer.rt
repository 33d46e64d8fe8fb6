//! The symbol at the front of a text. (POSIX, lex, Regular Expressions in lex; flex, Patterns.)
ghost use Rattle.std.specs.Prelude.{◌≡◌, ℕ, List, Option, Some, None, MatchResult, IfOk, drop};
ghost use Rattle.lexre.specs.Fronts.{class_front, escape_front, quoted_front};
ghost use Rattle.lexre_bytes.specs.Lexical.{symbol_at};
ghost use Rattle.lexre.specs.Outcome.{IsRefused, UnlessPatternMemory};
ghost use Rattle.lexre.specs.Soundness.{IsSoundSymbol};
ghost use Rattle.lexre.specs.SymbolViews.{Front, symbol_of};

use crate::braces::braces_at;
use crate::pattern::Pattern;
use crate::quotes::{byte_pattern, quoted_at, quoted_pattern};
use crate::symbols::{Sign, Symbol};
use lexre_bytes::{ByteSet, FaultAt, PatternErrorKind, class_at, escape_at};
use std::alloc::Global;

/// The item of a text in quotes, and what follows it. `quote` is the text from the opening quote on, and `text` what
/// follows that.
fn quoted_item<'a>(
    alloc: Global,
    quote: &'a [u8],
    text: &'a [u8],
    fold: bool,
) -> Result<(Symbol<'a>, &'a [u8]), FaultAt<'a>>
    ensures front { MatchResult result
        (λ x. ◌≡◌ {A = Front} (quoted_front fold text.now) (Some (symbol_of x.0, x.1.now)))
        (λ e. UnlessPatternMemory e.kind (IsRefused (quoted_front fold text.now))) }
    ensures sound { IfOk result (λ x. IsSoundSymbol x.0) }
{
    let (bytes, rest) = match quoted_at(alloc, quote, text) {
        Ok(found) => found,
        Err(fault) => return Err(fault),
    };
    match quoted_pattern(alloc, &bytes, fold) {
        Ok(pattern) => Ok((Symbol::Item(pattern), rest)),
        Err(kind) => Err(FaultAt { kind, rest: quote }),
    }
}

/// The item of a class, and what follows it. `class` is the text from its opening bracket on.
fn class_item<'a>(class: &'a [u8], fold: bool) -> Result<(Symbol<'a>, &'a [u8]), FaultAt<'a>>
    ensures front { MatchResult result
        (λ x. ◌≡◌ {A = Front} (class_front fold (drop 1 class.now)) (Some (symbol_of x.0, x.1.now)))
        (λ _. ◌≡◌ {A = Front} (class_front fold (drop 1 class.now)) None) }
    ensures sound { IfOk result (λ x. IsSoundSymbol x.0) }
{
    match class_at(class, fold) {
        Ok((set, rest)) => Ok((Symbol::Item(Pattern::Set(set)), rest)),
        Err(fault) => Err(fault),
    }
}

/// The item of an escape, and what follows it. `escape` is the text from the backslash on, and `text` what follows
/// that.
fn escape_item<'a>(
    escape: &'a [u8],
    text: &'a [u8],
    fold: bool,
) -> Result<(Symbol<'a>, &'a [u8]), FaultAt<'a>>
    ensures front { MatchResult result
        (λ x. ◌≡◌ {A = Front} (escape_front fold text.now) (Some (symbol_of x.0, x.1.now)))
        (λ _. ◌≡◌ {A = Front} (escape_front fold text.now) None) }
    ensures sound { IfOk result (λ x. IsSoundSymbol x.0) }
{
    match escape_at(text) {
        Some((byte, rest)) => Ok((Symbol::Item(byte_pattern(byte, fold)), rest)),
        None => Err(FaultAt {
            kind: PatternErrorKind::BadEscape,
            rest: escape,
        }),
    }
}

/// The symbol at the front of the text, and what follows it. A fault is reported at its place: `MisplacedSlash` at a
/// `/`, `MissingOperand` at a blank, a newline and the end, and the faults of quotes, classes, escapes and braces at
/// theirs. A text in quotes that has too many nodes by itself is `TooBig`.
#[tactic(auto, unfolding(lexre_bytes::specs::Lexical::symbol_at))]
pub(crate) fn symbol_at<'a>(
    alloc: Global,
    text: &'a [u8],
    fold: bool,
) -> Result<(Symbol<'a>, &'a [u8]), FaultAt<'a>>
    ensures front { MatchResult result
        (λ x. ◌≡◌ {A = Front} (symbol_at fold text.now) (Some (symbol_of x.0, x.1.now)))
        (λ e. UnlessPatternMemory e.kind (IsRefused (symbol_at fold text.now))) }
    ensures sound { IfOk result (λ x. IsSoundSymbol x.0) }
{
    let missing = FaultAt {
        kind: PatternErrorKind::MissingOperand,
        rest: text,
    };
    let (&first, after) = text.split_first().ok_or(missing)?;
    match first {
        b'(' => Ok((Symbol::Opening, after)),
        b')' => Ok((Symbol::Closing, after)),
        b'|' => Ok((Symbol::Bar, after)),
        b'*' => Ok((Symbol::Sign(Sign::AnyTimes), after)),
        b'+' => Ok((Symbol::Sign(Sign::OnceOrMore), after)),
        b'?' => Ok((Symbol::Sign(Sign::AtMostOnce), after)),
        b'.' => {
            let set = ByteSet::of(b'\n').complement();
            Ok((Symbol::Item(Pattern::Set(set)), after))
        }
        b'"' => quoted_item(alloc, text, after, fold),
        b'[' => class_item(text, fold),
        b'\\' => escape_item(text, after, fold),
        b'{' => braces_at(text, after),
        b'/' => Err(FaultAt {
            kind: PatternErrorKind::MisplacedSlash,
            rest: text,
        }),
        b' ' | b'\t' | b'\n' => Err(missing),
        byte => Ok((Symbol::Item(byte_pattern(byte, fold)), after)),
    }
}
