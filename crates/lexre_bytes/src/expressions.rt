//! The set of a class. (POSIX, Base Definitions, RE Bracket Expression.)
ghost use Rattle.std.specs.Prelude.{◌≡◌, ◌≤◌, ℕ, Bool, List, Option, Some, None};
ghost use Rattle.std.specs.Prelude.{true, suc, length, drop, MatchResult, IfOk, IfErr};
ghost use Rattle.lex_semantics.specs.ByteSets.{ByteSet, complement, range_set, HasByte};
ghost use Rattle.lexre_bytes.specs.ClassSets.{class_set_at, member_at, members_at};
ghost use Rattle.lexre_bytes.specs.Faults.{IsClassFault};
ghost use Rattle.lexre_bytes.specs.Lexical.{folded};
ghost use Rattle.lexre_bytes.specs.Stops.{stop_of};

use crate::brackets::{find_stop, next_stop};
use crate::class_item::ClassItem;
use crate::elements::element_at;
use crate::error::{FaultAt, PatternErrorKind};
use crate::fronts::{skip_first, skip_word};
use crate::sets::ByteSet;

/// The bytes from `low` to `high`, of which there is one at least.
fn span(low: u8, high: u8) -> ByteSet
    requires { low ≤ high }
    ensures set { result ≡ range_set low high }
    ensures some { HasByte result }
{
    ByteSet::range(low, high)
}

/// The set of the element at the front of the text, and what follows it. `class` is the text from the class on, and
/// `stop` the text from its first `]` or newline on.
#[tactic(auto, unfolding(crate::specs::Lexical::span, lex_semantics::specs::ByteSets::range_set), using(crate::proofs::FaultLaws::byte_fault_of_class, crate::proofs::FaultLaws::part_fault_of_class))]
fn member_at<'a>(
    class: &'a [u8],
    text: &'a [u8],
    stop: &'a [u8],
) -> Result<(ByteSet, &'a [u8]), FaultAt<'a>>
    requires { stop.now ≡ stop_of text.now }
    ensures set { MatchResult result
        (λ x. ◌≡◌ {A = Option (ByteSet × List ℕ)} (member_at text.now) (Some (x.0, x.1.now)))
        (λ _. ◌≡◌ {A = Option (ByteSet × List ℕ)} (member_at text.now) None) }
    ensures some { IfOk result (λ x. HasByte x.0) }
    ensures fault { IfErr result (λ f. IsClassFault f.kind) }
{
    let (part, rest) = element_at(class, text, stop)?;
    match part {
        ClassItem::Span(low, high) => {
            if low > high {
                return Err(FaultAt {
                    kind: PatternErrorKind::BadRange,
                    rest: text,
                });
            }
            Ok((span(low, high), rest))
        }
        ClassItem::Named(name) => {
            let set = ByteSet::named(name).ok_or(FaultAt {
                kind: PatternErrorKind::UnknownClassName,
                rest: text,
            })?;
            Ok((set, rest))
        }
        ClassItem::Refused(fault) => Err(fault),
    }
}

/// The bytes of the elements up to the closing bracket, and what follows it. A bracket that comes first is an element.
fn members_at<'a>(class: &'a [u8], text: &'a [u8]) -> Result<(ByteSet, &'a [u8]), FaultAt<'a>>
    ensures set { MatchResult result
        (λ x. ◌≡◌ {A = Option (ByteSet × List ℕ)}
        (members_at (suc (length text.now)) true text.now) (Some (x.0, x.1.now)))
        (λ _. ◌≡◌ {A = Option (ByteSet × List ℕ)} (members_at (suc (length text.now)) true text.now) None) }
    ensures some { IfOk result (λ x. HasByte x.0) }
    ensures fault { IfErr result (λ f. IsClassFault f.kind) }
{
    let mut stop = find_stop(text);
    let (mut set, mut rest) = match member_at(class, text, stop) {
        Ok(found) => found,
        Err(fault) => return Err(fault),
    };
    while !rest.starts_with(b"]") {
        stop = next_stop(stop, rest);
        let (more, after) = match member_at(class, rest, stop) {
            Ok(found) => found,
            Err(fault) => return Err(fault),
        };
        set = set.union(&more);
        rest = after;
    }
    Ok((set, skip_first(rest)))
}

/// The set, with each letter in both cases under `fold`. (flex, Scanner Options: case-insensitive.)
#[tactic(auto, unfolding(lex_semantics::specs::ByteSets::fold_case))]
pub fn fold_if(fold: bool, set: ByteSet) -> ByteSet
    ensures { result ≡ folded fold set }
{
    if fold { set.fold_case() } else { set }
}

/// The bytes that are not in the set, which has each letter in both cases under `fold` before. (flex, Scanner Options.)
fn negate(fold: bool, set: ByteSet) -> ByteSet
    ensures { result ≡ complement (folded fold set) }
{
    fold_if(fold, set).complement()
}

/// The set of a class, and what follows it. `class` is the text from its opening bracket on.
pub fn class_at<'a>(class: &'a [u8], fold: bool) -> Result<(ByteSet, &'a [u8]), FaultAt<'a>>
    ensures set { MatchResult result
        (λ x. ◌≡◌ {A = Option (ByteSet × List ℕ)} (class_set_at fold (drop 1 class.now)) (Some (x.0, x.1.now)))
        (λ _. ◌≡◌ {A = Option (ByteSet × List ℕ)} (class_set_at fold (drop 1 class.now)) None) }
    ensures some { IfOk result (λ x. HasByte x.0) }
    ensures fault { IfErr result (λ f. IsClassFault f.kind) }
{
    let inside = skip_first(class);
    if let Some(listed) = skip_word(b"^", inside) {
        let (set, rest) = match members_at(class, listed) {
            Ok(found) => found,
            Err(fault) => return Err(fault),
        };
        let others = negate(fold, set);
        if others.is_empty() {
            return Err(FaultAt {
                kind: PatternErrorKind::EmptyClass,
                rest: class,
            });
        }
        return Ok((others, rest));
    }
    let (set, rest) = match members_at(class, inside) {
        Ok(found) => found,
        Err(fault) => return Err(fault),
    };
    Ok((fold_if(fold, set), rest))
}
