//! Classes, passed over. (POSIX, lex, Regular Expressions in lex; flex, Patterns.)
ghost use Rattle.std.specs.Prelude.{◌≡◌, ◌<◌, ◌≤◌, length, drop, codes, if◌then◌else◌};
ghost use Rattle.std.specs.Prelude.{Some, None, IfOk, IfErr, MatchResult};
ghost use Rattle.lex_semantics.specs.Reading.{begins};
ghost use Rattle.lexre_bytes.specs.Lexical.{class_at};
ghost use Rattle.lexre_bytes.specs.Faults.{IsByteFault};
ghost use Rattle.lexre_bytes.specs.Passing.{rest_of_class};
ghost use Rattle.lexre_bytes.specs.Unread.{Fault, after_part, fault_inside, unread};
ghost use Rattle.lexre_bytes.specs.declared.error.PatternErrorKind.TheVariants.{UnclosedClass};

use crate::brackets::{find_stop, next_stop};
use crate::elements::element_at;
use crate::error::{FaultAt, PatternErrorKind};

/// After the opening bracket of a class: what follows the closing one, whatever the elements are. `class` is the text
/// from the class on, at which a class that is not closed is reported.
pub fn skip_class<'a>(class: &'a [u8], text: &'a [u8]) -> Result<&'a [u8], FaultAt<'a>>
    ensures rest { MatchResult result
        (λ rest. rest_of_class (class_at text.now) ≡ Some rest.now)
        (λ _. rest_of_class (class_at text.now) ≡ None) }
    ensures shorter { IfOk result (λ rest. length rest.now < length text.now) }
    ensures fault { IfErr result (λ f. IsByteFault f.kind) }
    ensures told { IfErr result (λ f. ◌≡◌ {A = Fault} (f.kind, f.rest.now)
        (fault_inside UnclosedClass class.now (unread after_part text.now))) }
{
    let inside = skip_negation(text);
    let mut stop = find_stop(inside);
    let (_, mut rest) = element_at(class, inside, stop)?;
    while let Some((&first, after)) = rest.split_first() {
        if first == b']' {
            return Ok(after);
        }
        stop = next_stop(stop, rest);
        let (_, next) = element_at(class, rest, stop)?;
        rest = next;
    }
    Err(FaultAt {
        kind: PatternErrorKind::UnclosedClass,
        rest: class,
    })
}

/// What follows the `^` of a negated class, and the whole text of another.
fn skip_negation(text: &[u8]) -> &[u8]
    ensures rest { result.now ≡ (if begins (codes "^") text.now then drop 1 text.now else text.now) }
    ensures shorter { length result.now ≤ length text.now }
{
    match text {
        [b'^', after @ ..] => after,
        _ => text,
    }
}
