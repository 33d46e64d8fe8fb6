//! The lengths of the texts that a pattern matches.
//!
//! They are of the language: a star of the empty pattern has the greatest length 0, so `a*/(""*)` has trailing context
//! of the fixed length 0. They are computed with a cap at 2 ^ 32 and tested at the end, so a part may pass the limit
//! where the whole does not.
ghost use Rattle.std.specs.Prelude.{◌≡◌, ℕ, Option, ◌^◌, min, map, option_map, IfSome, IfNone};
ghost use Rattle.lex_semantics.specs.Shapes.{HasLengths, IsSoundTree};
ghost use Rattle.lex_semantics.specs.Tree.{In, trees};
ghost use Rattle.lexre.specs.Lengths.{least, least_of_each, least_of_some, greatest, greatest_of_each};
ghost use Rattle.lexre.specs.Lengths.{greatest_of_some, capped, unbounded, length_repeated, PassesLimit};
ghost use Rattle.lexre.specs.Views.{tree_of};

use crate::bounds::Lengths;
use crate::pattern::Pattern;

/// A length above this is as good as this.
const CAP: u64 = 1 << 32;

/// The least length of the words that the pattern matches, in bytes, and the greatest where lengths are bounded, of the
/// language and not of its parts: `(""*)` has the greatest length 0. None exactly where one of the two passes
/// 4,294,967,295.
pub fn lengths(pattern: &Pattern) -> Option<Lengths>
    requires { IsSoundTree (tree_of pattern.now) }
    ensures found { IfSome result (λ l. HasLengths (In (tree_of pattern.now)) l.min l.max) }
    ensures none { IfNone result (PassesLimit (tree_of pattern.now)) }
{
    let min = u32::try_from(capped_least(pattern)).ok()?;
    let max = match capped_greatest(pattern) {
        None => None,
        Some(greatest) => Some(u32::try_from(greatest).ok()?),
    };
    Some(Lengths { min, max })
}

/// The least length of a text that the pattern matches, up to the cap.
#[cycle(least)]
fn capped_least(pattern: &Pattern) -> u64
    ensures { result ≡ capped (least (tree_of pattern.now)) }
{
    match pattern {
        Pattern::Empty => 0,
        Pattern::Set(_) => 1,
        Pattern::Cat(parts) => {
            if parts.is_bare() {
                return 0;
            }
            capped_least_of_each(parts.items())
        }
        Pattern::Alt(parts) => {
            if parts.is_bare() {
                return 0;
            }
            capped_least_of_some(parts.items()).unwrap_or(0)
        }
        Pattern::Star(_) => 0,
        Pattern::Repeat(inner, times, _) => (u64::from(*times) * capped_least(inner)).min(CAP),
    }
}

/// The sum of the least lengths of these, up to the cap.
#[cycle(least)]
fn capped_least_of_each(parts: &[Pattern]) -> u64
    ensures { result ≡ capped (least_of_each (trees (map tree_of parts.now))) }
{
    let mut total = 0;
    for part in parts {
        total = (total + capped_least(part)).min(CAP);
    }
    total
}

/// The least of the least lengths of these, up to the cap. None where there are none.
#[cycle(least)]
fn capped_least_of_some(parts: &[Pattern]) -> Option<u64>
    ensures { result ≡ option_map capped (least_of_some (trees (map tree_of parts.now))) }
{
    let mut found: Option<u64> = None;
    for part in parts {
        found = Some(found.unwrap_or(CAP).min(capped_least(part)));
    }
    found
}

/// The greatest length of a text that the pattern matches, up to the cap. None where there is none.
#[cycle(greatest)]
fn capped_greatest(pattern: &Pattern) -> Option<u64>
    ensures { result ≡ option_map capped (greatest (tree_of pattern.now)) }
{
    match pattern {
        Pattern::Empty => Some(0),
        Pattern::Set(_) => Some(1),
        Pattern::Cat(parts) => {
            if parts.is_bare() {
                return Some(0);
            }
            capped_greatest_of_each(parts.items())
        }
        Pattern::Alt(parts) => {
            if parts.is_bare() {
                return Some(0);
            }
            capped_greatest_of_some(parts.items())
        }
        Pattern::Star(inner) => unbounded(capped_greatest(inner)),
        Pattern::Repeat(inner, _, times) => repeated(*times, capped_greatest(inner)),
    }
}

/// Any number of times what has this greatest length.
fn unbounded(most: Option<u64>) -> Option<u64>
    ensures { (x : Option ℕ) → most ≡ option_map capped x → result ≡ option_map capped (unbounded x) }
{
    if most == Some(0) { Some(0) } else { None }
}

/// At most so many times, or any number of times, what has this greatest length.
fn repeated(times: Option<u8>, most: Option<u64>) -> Option<u64>
    ensures { (x : Option ℕ) → most ≡ option_map capped x → result ≡ option_map capped (length_repeated times x) }
{
    let Some(times) = times else {
        return unbounded(most);
    };
    let most = most?;
    Some(u64::from(times).saturating_mul(most).min(CAP))
}

/// The sum of the greatest lengths of these, up to the cap. None where one has none.
#[cycle(greatest)]
fn capped_greatest_of_each(parts: &[Pattern]) -> Option<u64>
    ensures { result ≡ option_map capped (greatest_of_each (trees (map tree_of parts.now))) }
{
    let mut total = 0;
    for part in parts {
        total = (total + capped_greatest(part)?).min(CAP);
    }
    Some(total)
}

/// The greatest of the greatest lengths of these, up to the cap. None where one has none.
#[cycle(greatest)]
fn capped_greatest_of_some(parts: &[Pattern]) -> Option<u64>
    ensures { result ≡ option_map capped (greatest_of_some (trees (map tree_of parts.now))) }
{
    let mut most = 0;
    for part in parts {
        most = capped_greatest(part)?.max(most);
    }
    Some(most)
}
