//! The condition list and the pattern of a rule, as texts. (POSIX, lex, Rules in lex; flex, Patterns.)
ghost use Rattle.std.specs.Prelude.{◌≡◌, ◌+◌, ◌<◌, ◌^◌, ℕ, List, false, Option, Some, None};
ghost use Rattle.std.specs.Prelude.{option_map, take, drop, IfOk, IfErr, OnErr};
ghost use Rattle.std.specs.List.{list_all};
ghost use Rattle.lex_semantics.specs.Reading.{is_white};
ghost use Rattle.lexspec.specs.ItemRuns.{Subject as SubjectMeant, Trailing as TrailMeant, IsSides, IsSubject};
ghost use Rattle.lexspec.specs.Items.{Conditions as AskedFor};
ghost use Rattle.lexspec.specs.Items.{conditions_at};
ghost use Rattle.lexspec.specs.SubjectFaults.{IsSubjectFault};
ghost use Rattle.lexspec.specs.SubjectViews.{conditions_of, trailing_of, subject_of, sides};

use lexre::{Cutting, PatternError, cut_pattern};
use lexre_bytes::skip_first;
use lexspec_lines::{SpecErrorKind, is_blank, split_before, split_line};

/// The condition list of a rule.
#[derive(Clone, Copy)]
pub(crate) enum Conditions<'a> {
    /// There is none.
    Unlisted,
    /// `<*>`
    Every,
    /// The text between the signs, in which the names stand.
    Only(&'a [u8]),
}

/// What follows the head of a pattern.
#[derive(Clone, Copy)]
pub(crate) enum Trailing<'a> {
    None,
    /// `$`
    LineEnd,
    /// The pattern after a slash.
    Pattern(&'a [u8]),
}

/// The pattern of a rule, cut, or `<<EOF>>`.
#[derive(Clone, Copy)]
pub(crate) enum Subject<'a> {
    AtEnd,
    Matching {
        /// Whether it begins with `^`.
        anchored: bool,
        head: &'a [u8],
        trail: Trailing<'a>,
    },
}

/// The first `count` bytes, or all where there are fewer.
fn first_bytes(text: &[u8], count: usize) -> &[u8]
    ensures { result.now ≡ take count text.now }
{
    text.get(..count).unwrap_or(text)
}

/// The text without its first `count` bytes, or nothing where there are fewer.
fn without_bytes(text: &[u8], count: usize) -> &[u8]
    ensures { result.now ≡ drop count text.now }
{
    text.split_at(count.min(text.len())).1
}

/// The condition list at the front of a rule, and what follows it. None where a list is not closed on its line.
#[tactic(auto, unfolding(crate::specs::Items::conditions_at))]
pub(crate) fn conditions_at(text: &[u8]) -> Option<(Conditions<'_>, &[u8])>
    ensures { ◌≡◌ {A = Option (AskedFor
        × List ℕ)} (conditions_at text.now) (option_map (λ x. (conditions_of x.0, x.1.now)) result) }
{
    if text.starts_with(b"<<EOF>>") || !text.starts_with(b"<") {
        return Some((Conditions::Unlisted, text));
    }
    let (line, _) = split_line(skip_first(text));
    let (inside, closing) = split_before(|byte| byte == b'>', line);
    if closing.is_empty() {
        return None;
    }
    let rest = without_bytes(text, inside.len() + 2);
    if inside == b"*".as_slice() {
        return Some((Conditions::Every, rest));
    }
    Some((Conditions::Only(inside), rest))
}

/// The head and the trailing context of a pattern that ends without a second slash.
fn sides<'a>(text: &'a [u8], cutting: Cutting) -> Option<(&'a [u8], Trailing<'a>)>
    ensures { ◌≡◌ {A = Option (List ℕ
        × TrailMeant)} (option_map (λ x. (x.0.now, trailing_of x.1)) result)
        (sides text.now cutting.end cutting.slash cutting.dollar) }
{
    match cutting.slash {
        None if cutting.dollar => Some((
            first_bytes(text, cutting.end.saturating_sub(1)),
            Trailing::LineEnd,
        )),
        None => Some((first_bytes(text, cutting.end), Trailing::None)),
        Some(_) if cutting.dollar => None,
        Some(at) => {
            let after = skip_first(without_bytes(text, at));
            let count = cutting.end.saturating_sub(at).saturating_sub(1);
            Some((
                first_bytes(text, at),
                Trailing::Pattern(first_bytes(after, count)),
            ))
        }
    }
}

/// The pattern at the front of a text which stands at this place of the rule's line, cut, and what follows it. It is a
/// `Pattern` fault where the text has no cutting, and `TwoTrailing` where it has two trailing contexts.
fn pattern_at(text: &[u8], at: usize) -> Result<((&[u8], Trailing<'_>), &[u8]), SpecErrorKind>
    ensures found { IfOk result (λ x. IsSides text.now x.0.0.now (trailing_of x.0.1) x.1.now) }
    ensures none { OnErr result ((head : List ℕ) (after : TrailMeant) (rest : List ℕ)
        → IsSides text.now head after rest → ⊥) }
    ensures fault { IfErr result (λ e. IsSubjectFault e) }
{
    let cutting = match cut_pattern(text) {
        Ok(cutting) => cutting,
        Err(fault) => {
            return Err(SpecErrorKind::Pattern(PatternError {
                kind: fault.kind,
                at: fault.at.saturating_add(at),
            }));
        }
    };
    if cutting.two {
        return Err(SpecErrorKind::TwoTrailing);
    }
    match sides(text, cutting) {
        Some(parts) => Ok((parts, without_bytes(text, cutting.end))),
        None => Err(SpecErrorKind::TwoTrailing),
    }
}

/// Whether the text begins with a blank or a newline, or has nothing.
fn ends_subject(text: &[u8]) -> bool
    ensures { result ≡ list_all is_white (take 1 text.now) }
{
    match text.split_first() {
        Some((first, _)) => is_blank(*first) || *first == b'\n',
        None => true,
    }
}

/// The pattern or the `<<EOF>>` at the front of a text, which stands at this place of the rule's line, and what follows
/// it. `<<EOF>>` that goes on, or stands after `^`, is `BadEofRule`.
pub(crate) fn subject_at(text: &[u8], at: usize) -> Result<(Subject<'_>, &[u8]), SpecErrorKind>
    ensures found { IfOk result (λ x. IsSubject text.now (subject_of x.0) x.1.now) }
    ensures none { OnErr result ((s : SubjectMeant) (rest : List ℕ) → IsSubject text.now s rest → ⊥) }
    ensures fault { IfErr result (λ e. IsSubjectFault e) }
{
    if text.starts_with(b"<<EOF>>") {
        let rest = without_bytes(text, 7);
        if !ends_subject(rest) {
            return Err(SpecErrorKind::BadEofRule);
        }
        return Ok((Subject::AtEnd, rest));
    }
    if !text.starts_with(b"^") {
        let ((head, trail), rest) = pattern_at(text, at)?;
        return Ok((
            Subject::Matching {
                anchored: false,
                head,
                trail,
            },
            rest,
        ));
    }
    let after = skip_first(text);
    if after.starts_with(b"<<EOF>>") {
        return Err(SpecErrorKind::BadEofRule);
    }
    let ((head, trail), rest) = pattern_at(after, at.saturating_add(1))?;
    Ok((
        Subject::Matching {
            anchored: true,
            head,
            trail,
        },
        rest,
    ))
}
