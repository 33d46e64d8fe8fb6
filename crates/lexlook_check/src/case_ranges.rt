//! Ranges from an upper to a lower case letter in a class, which flex reads otherwise where letters stand for both cases.
ghost use Rattle.std.specs.Prelude.{◌≡◌};
ghost use Rattle.lexlook_check.specs.CaseRanges.{element_rest, has_case_range, is_case_class, is_case_range};

use lexre_bytes::skip_first;

/// Whether the byte before this text is an upper case letter that begins a range to a lower case one.
fn is_case_range(first: u8, rest: &[u8]) -> bool
    ensures { result ≡ is_case_range first rest.now }
{
    match rest {
        [sign, last, ..] => {
            (first >= b'A' && first <= b'Z') && *sign == b'-' && (*last >= b'a' && *last <= b'z')
        }
        _ => false,
    }
}

/// How many bytes behind this one belong to its element of a class, where it is one of so many of the element before.
fn element_rest(passed: usize, first: u8, rest: &[u8]) -> usize
    ensures { result ≡ element_rest passed first rest.now }
{
    if passed != 0 {
        passed - 1
    } else if first == b'\\' {
        1
    } else if rest.starts_with(b"-") {
        2
    } else {
        0
    }
}

/// Whether such a range is an element of a class, which has these bytes behind its `[`.
fn has_case_range(class: &[u8]) -> bool
    ensures { result ≡ has_case_range 0 class.now }
{
    let mut rest = class;
    let mut passed = 0;
    'bytes: while let Some((first, next)) = rest.split_first() {
        if passed == 0 && is_case_range(*first, next) {
            return true;
        }
        passed = element_rest(passed, *first, next);
        rest = next;
    }
    false
}

/// Whether a piece is a class in which such a range stands.
pub(crate) fn is_case_class(piece: &[u8]) -> bool
    ensures { result ≡ is_case_class piece.now }
{
    piece.starts_with(b"[") && has_case_range(skip_first(piece))
}
