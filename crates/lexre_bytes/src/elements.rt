//! The elements of a class. (POSIX, Base Definitions, RE Bracket Expression.)
ghost use Rattle.std.specs.Prelude.{◌≡◌, ◌≤◌, List, length, ℕ, Option, Some, None};
ghost use Rattle.std.specs.Prelude.{MatchResult, IfErr, IfOk, IfSome, option_map};
ghost use Rattle.lexre_bytes.specs.Lexical.{bracketed_at, element_at, range_at};
ghost use Rattle.lexre_bytes.specs.Elements.{element_of, is_range, Element};
ghost use Rattle.lexre_bytes.specs.Faults.{IsByteFault, HasPartFault};
ghost use Rattle.lexre_bytes.specs.Stops.{stop_of};
ghost use Rattle.lexre_bytes.specs.Unread.{Fault, after_part, fault_inside, unread};
ghost use Rattle.lexre_bytes.specs.declared.error.PatternErrorKind.TheVariants.{UnclosedClass};

use crate::brackets::{class_byte_at, named_at, next_stop, skip_unsupported};
use crate::class_item::ClassItem;
use crate::error::{FaultAt, PatternErrorKind};

/// `[:name:]`, or what is like it and not supported, and what follows it. `stop` is the text from its first `]` or
/// newline on.
#[tactic(auto, using(crate::proofs::ShorterLaws::named_is, crate::proofs::ShorterLaws::unsupported_is, crate::proofs::ShorterLaws::no_bracket))]
fn bracketed_at<'a>(text: &'a [u8], stop: &[u8]) -> Option<(ClassItem<'a>, &'a [u8])>
    requires { stop.now ≡ stop_of text.now }
    ensures found { ◌≡◌ {A = Option (Element
        × List ℕ)} (bracketed_at text.now) (option_map (λ x. (element_of x.0, x.1.now)) result) }
    ensures refused { IfSome result (λ x. HasPartFault x.0) }
{
    if let Some((letters, rest)) = named_at(text) {
        return Some((ClassItem::Named(letters), rest));
    }
    let rest = skip_unsupported(text, stop)?;
    let fault = FaultAt {
        kind: PatternErrorKind::UnsupportedBracket,
        rest: text,
    };
    Some((ClassItem::Refused(fault), rest))
}

/// Whether a range goes on here: a `-` that is followed by anything but an unescaped `]`.
fn is_range(text: &[u8]) -> bool
    ensures { result ≡ is_range text.now }
{
    match text {
        [first, second, ..] => *first == b'-' && *second != b']',
        _ => false,
    }
}

/// After the first end of a range and its `-`: the range, and what follows it. `range` is the text from the range on,
/// and `stop` that from its first `]` or newline on.
#[tactic(auto, unfolding(crate::specs::Lexical::range_at))]
fn range_at<'a>(
    class: &'a [u8],
    range: &'a [u8],
    low: u8,
    text: &'a [u8],
    stop: &'a [u8],
) -> Result<(ClassItem<'a>, &'a [u8]), FaultAt<'a>>
    requires { length stop.now ≤ length text.now → stop.now ≡ stop_of text.now }
    ensures found { MatchResult result
        (λ x. ◌≡◌ {A = Option (Element × List ℕ)} (range_at low text.now) (Some (element_of x.0, x.1.now)))
        (λ _. ◌≡◌ {A = Option (Element × List ℕ)} (range_at low text.now) None) }
    ensures refused { IfOk result (λ x. HasPartFault x.0) }
    ensures fault { IfErr result (λ f. IsByteFault f.kind) }
    ensures left { MatchResult result
        (λ x. unread after_part text.now ≡ unread after_part x.1.now)
        (λ f. ◌≡◌ {A = Fault} (f.kind, f.rest.now)
        (fault_inside UnclosedClass class.now (unread after_part text.now))) }
{
    match bracketed_at(text, next_stop(stop, text)) {
        Some((ClassItem::Named(_), rest)) => {
            let fault = FaultAt {
                kind: PatternErrorKind::BadRange,
                rest: range,
            };
            Ok((ClassItem::Refused(fault), rest))
        }
        Some((_, rest)) => {
            let fault = FaultAt {
                kind: PatternErrorKind::UnsupportedBracket,
                rest: text,
            };
            Ok((ClassItem::Refused(fault), rest))
        }
        None => {
            let (high, rest) = class_byte_at(class, text)?;
            Ok((ClassItem::Span(low, high), rest))
        }
    }
}

/// An element of a class, and what follows it. `class` is the text from the class on, at which a class that is not
/// closed is reported, and `stop` the text from its first `]` or newline on.
#[tactic(auto, unfolding(crate::specs::Lexical::element_at))]
pub(crate) fn element_at<'a>(
    class: &'a [u8],
    text: &'a [u8],
    stop: &'a [u8],
) -> Result<(ClassItem<'a>, &'a [u8]), FaultAt<'a>>
    requires { stop.now ≡ stop_of text.now }
    ensures found { MatchResult result
        (λ x. ◌≡◌ {A = Option (Element × List ℕ)} (element_at text.now) (Some (element_of x.0, x.1.now)))
        (λ _. ◌≡◌ {A = Option (Element × List ℕ)} (element_at text.now) None) }
    ensures refused { IfOk result (λ x. HasPartFault x.0) }
    ensures fault { IfErr result (λ f. IsByteFault f.kind) }
    ensures left { MatchResult result
        (λ x. unread after_part text.now ≡ unread after_part x.1.now)
        (λ f. ◌≡◌ {A = Fault} (f.kind, f.rest.now)
        (fault_inside UnclosedClass class.now (unread after_part text.now))) }
{
    if let Some(found) = bracketed_at(text, stop) {
        return Ok(found);
    }
    let (low, rest) = class_byte_at(class, text)?;
    match rest.split_first() {
        Some((_, after)) if is_range(rest) => range_at(class, text, low, after, stop),
        _ => Ok((ClassItem::Span(low, low), rest)),
    }
}
