//! Texts in quotes. (POSIX, lex, Regular Expressions in lex.)
ghost use Rattle.std.specs.Prelude.{◌≡◌, ◌<◌, ℕ, List, Option, Some, None, MatchResult, IfOk, IfErr, drop};
ghost use Rattle.lex_semantics.specs.ByteSets.{single};
ghost use Rattle.lex_semantics.specs.Shapes.{IsSoundTree, nodes};
ghost use Rattle.lex_semantics.specs.Tree.{Set};
ghost use Rattle.lexre_bytes.specs.Lexical.{folded, quoted_tree, quoted_bytes};
ghost use Rattle.lexre_bytes.specs.Quotes.{after_quotes};
ghost use Rattle.lexre_bytes.specs.Unread.{Fault, after_byte, fault_inside, unread};
ghost use Rattle.lexre_bytes.specs.declared.error.PatternErrorKind.TheVariants.{UnclosedQuote};
ghost use Rattle.lexre.specs.Cutting.{IsQuoteFault};
ghost use Rattle.lexre.specs.Outcome.{UnlessPatternMemory};
ghost use Rattle.lexre.specs.Views.{tree_of};
ghost use Rattle.lexre.specs.Limits.{max_nodes};

use crate::pattern::Pattern;
use lexre_bytes::{ByteSet, FaultAt, PatternErrorKind, escape_at, fold_if, literal_byte_at};
use std::alloc::Global;

/// The most bytes of a text in quotes: their series has as many nodes as a pattern may have.
const MAX_QUOTED_BYTES: usize = 65_535;

/// What follows a text in quotes. The text handed in begins with the first quote, at which a quote that no other closes
/// is reported.
pub(crate) fn skip_quoted<'a>(text: &'a [u8]) -> Result<&'a [u8], FaultAt<'a>>
    ensures found { MatchResult result (λ rest. after_quotes (drop 1 text.now)
        ≡ Some rest.now) (λ _. after_quotes (drop 1 text.now) ≡ None) }
    ensures fault { IfErr result (λ f. IsQuoteFault f.kind) }
    ensures told { IfErr result (λ f. ◌≡◌ {A = Fault} (f.kind, f.rest.now)
        (fault_inside UnclosedQuote text.now (unread after_byte (drop 1 text.now)))) }
{
    let mut rest = text.get(1..).unwrap_or(text);
    while let Some((&byte, after)) = rest.split_first() {
        if byte == b'"' {
            return Ok(after);
        } else if byte == b'\n' {
            break;
        } else if byte == b'\\' {
            let Some((_, after_escape)) = escape_at(after) else {
                return Err(FaultAt {
                    kind: PatternErrorKind::BadEscape,
                    rest,
                });
            };
            rest = after_escape;
        } else {
            rest = after;
        }
    }
    Err(FaultAt {
        kind: PatternErrorKind::UnclosedQuote,
        rest: text,
    })
}

/// The bytes after an opening quote, and what follows the closing one. `quote` is the text from the opening quote on,
/// at which a quote that no other closes is reported.
pub(crate) fn quoted_at<'a>(
    alloc: Global,
    quote: &'a [u8],
    text: &'a [u8],
) -> Result<(Vec<u8>, &'a [u8]), FaultAt<'a>>
    ensures { MatchResult result
        (λ x. ◌≡◌ {A = Option (List ℕ × List ℕ)} (quoted_bytes text.now) (Some (x.0.items, x.1.now)))
        (λ e. UnlessPatternMemory e.kind (◌≡◌ {A = Option (List ℕ × List ℕ)} (quoted_bytes text.now) None)) }
{
    let mut bytes = Vec::new(alloc);
    let mut rest = text;
    while let Some((&first, after)) = rest.split_first() {
        if first == b'"' {
            return Ok((bytes, after));
        }
        let Some((byte, beyond)) = literal_byte_at(rest) else {
            return Err(match first {
                b'\n' => FaultAt {
                    kind: PatternErrorKind::UnclosedQuote,
                    rest: quote,
                },
                _ => FaultAt {
                    kind: PatternErrorKind::BadEscape,
                    rest,
                },
            });
        };
        match bytes.push(byte) {
            Ok(()) => rest = beyond,
            Err(_) => {
                return Err(FaultAt {
                    kind: PatternErrorKind::OutOfMemory,
                    rest,
                });
            }
        }
    }
    Err(FaultAt {
        kind: PatternErrorKind::UnclosedQuote,
        rest: quote,
    })
}

/// The pattern of one byte, in both cases under `fold`.
pub(crate) fn byte_pattern(byte: u8, fold: bool) -> Pattern
    ensures tree { tree_of result ≡ Set (folded fold (single byte)) }
    ensures sound { IsSoundTree (tree_of result) }
{
    Pattern::Set(fold_if(fold, ByteSet::of(byte)))
}

/// The pattern of the bytes of a text in quotes. More nodes than a pattern may have are `TooBig`.
#[tactic(auto, unfolding(lexre_bytes::specs::Lexical::quoted_tree))]
pub(crate) fn quoted_pattern(
    alloc: Global,
    bytes: &[u8],
    fold: bool,
) -> Result<Pattern, PatternErrorKind>
    ensures tree { MatchResult result
        (λ p. tree_of p ≡ quoted_tree fold bytes.now)
        (λ e. UnlessPatternMemory e (max_nodes < nodes (quoted_tree fold bytes.now))) }
    ensures sound { IfOk result (λ p. IsSoundTree (tree_of p)) }
{
    match bytes {
        [] => Ok(Pattern::Empty),
        [byte] => Ok(byte_pattern(*byte, fold)),
        _ => {
            if bytes.len() > MAX_QUOTED_BYTES {
                return Err(PatternErrorKind::TooBig);
            }
            let mut parts = Vec::new(alloc);
            for byte in bytes {
                parts.push(byte_pattern(*byte, fold))?;
            }
            Ok(Pattern::series(alloc, parts)?)
        }
    }
}
