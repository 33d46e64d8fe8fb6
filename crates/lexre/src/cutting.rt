//! Where the pattern of a rule ends. (POSIX, lex, Rules in lex; flex, Patterns: `r/s`, `r$`.)
//!
//! A pattern is said by the texts from each piece on (`specs/Cutting`): what such a text begins with is its piece, and
//! its length says where it stands. The code goes by kinds and places, and both are proved to say the same. What is
//! wrong inside a class is passed over, but for a class without an end: the reader of classes, which comes later,
//! reports the rest.
ghost use Rattle.std.specs.Prelude.{◌≡◌, ◌+◌, ◌^◌, ◌<◌, ◌≤◌, ℕ, Bool, ◌∷◌, List, length, Option, Some, None};
ghost use Rattle.std.specs.Prelude.{IfOk, IfErr, IfSome, OnErr, MatchOption, MatchResult};
ghost use Rattle.std.specs.Result.{result_err};
ghost use Rattle.lexre.specs.Cutting.{IsCutting, IsCuttingFault};
ghost use Rattle.lexre.specs.Pieces.{kind_at, slash, IsEnd, Piece};
ghost use Rattle.lexre_bytes.specs.declared.error.PatternErrorKind.TheVariants.{MisplacedSlash};
ghost use Rattle.lexre.specs.CuttingFaults.{cutting_fault, piece_fault, placed};
ghost use Rattle.lexre.specs.CuttingSoFar.{depth_past, ending, piece_of, Ending};

use crate::quotes::skip_quoted;
use lexre_bytes::{FaultAt, PatternError, PatternErrorKind, escape_at, skip_class};

/// Where the pattern of a rule ends, and what stands at its end.
#[derive(Clone, Copy, PartialEq, Eq, Debug)]
pub struct Cutting {
    /// The offset of the first blank or newline outside quotes, classes and escapes, or else of the end of the text.
    pub end: usize,
    /// The offset of the first `/` outside parentheses.
    pub slash: Option<usize>,
    /// Whether there is a second `/`.
    pub two: bool,
    /// Whether the pattern ends with a special `$`.
    pub dollar: bool,
}

/// What the text of a pattern is made of, as far as cutting it goes.
#[derive(Clone, Copy)]
enum Kind {
    Opens,
    Closes,
    Slash,
    Dollar,
    /// Any other byte, an escape, a text in quotes, or a class.
    Other,
}

/// What is known of a pattern up to a place.
#[derive(Clone, Copy)]
struct CuttingSoFar {
    /// How many parentheses are open.
    depth: usize,
    slash: Option<usize>,
    two: bool,
    /// Whether the last piece is a `$`.
    dollar: bool,
}

/// Where the pattern of a rule that begins the text ends: at the first blank or newline outside quotes, classes and
/// escapes, or at the end of the text. Offsets are from 0. What is wrong inside a class is passed over.
///
/// The first fault from the left is reported: `UnclosedQuote` and `UnclosedClass` at the opening sign, `BadEscape` at
/// the backslash, and `MisplacedSlash` at a `/` inside parentheses. A `)` with none open counts for nothing.
pub fn cut_pattern(text: &[u8]) -> Result<Cutting, PatternError>
    ensures found { IfOk result (λ c. IsCutting text.now c.end c.slash c.two c.dollar) }
    ensures inside { IfOk result (λ c. c.end ≤ length text.now) }
    ensures none { IfErr result
        (λ _. (end : ℕ) (first : Option ℕ) (two special : Bool) → IsCutting text.now end first two special → ⊥) }
    ensures fault { IfErr result (λ e. IsCuttingFault e.kind) }
    ensures refused { cutting_fault text.now ≡ result_err result }
{
    let mut progress = CuttingSoFar {
        depth: 0,
        slash: None,
        two: false,
        dollar: false,
    };
    let mut rest = text;
    'pieces: loop {
        let at = text.len() - rest.len();
        let Some((kind, after)) = piece_at(rest, at)? else {
            return Ok(Cutting {
                end: at,
                slash: progress.slash,
                two: progress.two,
                dollar: progress.dollar,
            });
        };
        progress = progress.past(kind, at)?;
        rest = after;
    }
}

impl CuttingSoFar {
    /// What is known behind a piece that stands at this place. A `/` inside parentheses is a `MisplacedSlash`.
    #[tactic(auto, unfolding(crate::specs::Pieces::slashes, crate::specs::CuttingSoFar::ending))]
    fn past(self, kind: Kind, at: usize) -> Result<CuttingSoFar, PatternError>
        requires { self.depth + 1 < 2 ^ 64 }
        ensures ending { MatchResult result
            (λ after. (ps : List (Piece × ℕ))
            → ◌≡◌ {A = Ending} (ending self ((piece_of kind, at) ∷ ps)) (ending after ps))
            (λ _. (ps : List (Piece × ℕ)) → ◌≡◌ {A = Ending} (ending self ((piece_of kind, at) ∷ ps)) None) }
        ensures depth { MatchResult result
            (λ after. depth_past self.depth (piece_of kind) ≡ Some after.depth)
            (λ _. depth_past self.depth (piece_of kind) ≡ None) }
        ensures fault { IfErr result (λ e. e ≡ record { kind = MisplacedSlash; at = at }) }
    {
        match kind {
            Kind::Opens => Ok(CuttingSoFar {
                depth: self.depth + 1,
                dollar: false,
                ..self
            }),
            Kind::Closes => Ok(CuttingSoFar {
                depth: self.depth.saturating_sub(1),
                dollar: false,
                ..self
            }),
            Kind::Slash => self.past_slash(at),
            Kind::Dollar => Ok(CuttingSoFar {
                dollar: true,
                ..self
            }),
            Kind::Other => Ok(CuttingSoFar {
                dollar: false,
                ..self
            }),
        }
    }

    /// What is known behind a slash.
    #[tactic(auto, unfolding(crate::specs::Pieces::slashes, crate::specs::CuttingSoFar::ending))]
    fn past_slash(self, at: usize) -> Result<CuttingSoFar, PatternError>
        ensures ending { MatchResult result
            (λ after. (ps : List (Piece × ℕ)) → ◌≡◌ {A = Ending} (ending self ((slash, at) ∷ ps)) (ending after ps))
            (λ _. (ps : List (Piece × ℕ)) → ◌≡◌ {A = Ending} (ending self ((slash, at) ∷ ps)) None) }
        ensures depth { MatchResult result
            (λ after. depth_past self.depth slash ≡ Some after.depth)
            (λ _. depth_past self.depth slash ≡ None) }
        ensures fault { IfErr result (λ e. e ≡ record { kind = MisplacedSlash; at = at }) }
    {
        if self.depth > 0 {
            return Err(PatternError {
                kind: PatternErrorKind::MisplacedSlash,
                at,
            });
        }
        match self.slash {
            None => Ok(CuttingSoFar {
                slash: Some(at),
                dollar: false,
                ..self
            }),
            Some(_) => Ok(CuttingSoFar {
                two: true,
                dollar: false,
                ..self
            }),
        }
    }
}

/// The piece at the front of the text, which stands at this place, and what follows it. None at the end of the pattern.
#[tactic(auto, unfolding(crate::specs::Cutting::piece_at, crate::specs::Pieces::kind_at, lexre_bytes::specs::Quotes::after_quotes, lex_semantics::specs::ByteSets::is_blank), using(crate::proofs::FaultLaws::quote_fault_of_cutting, crate::proofs::FaultLaws::byte_fault_of_cutting))]
fn piece_at(text: &[u8], at: usize) -> Result<Option<(Kind, &[u8])>, PatternError>
    requires { at + length text.now < 2 ^ 64 }
    ensures found { IfOk result (λ found. MatchOption found
        (IsEnd text.now)
        (λ x. ◌≡◌ {A = Option (Piece × List ℕ)} (kind_at text.now) (Some (piece_of x.0, x.1.now)))) }
    ensures shorter { IfOk result (λ found. IfSome found (λ x. length x.1.now < length text.now)) }
    ensures none { OnErr result (◌≡◌ {A = Option (Piece × List ℕ)} (kind_at text.now) None) }
    ensures not_end { OnErr result (IsEnd text.now → ⊥) }
    ensures fault { IfErr result (λ e. IsCuttingFault e.kind) }
    ensures told { IfErr result (λ e. e ≡ placed at text.now (piece_fault text.now)) }
{
    let Some((first, after)) = text.split_first() else {
        return Ok(None);
    };
    match *first {
        b' ' | b'\t' | b'\n' => Ok(None),
        b'(' => Ok(Some((Kind::Opens, after))),
        b')' => Ok(Some((Kind::Closes, after))),
        b'/' => Ok(Some((Kind::Slash, after))),
        b'$' => Ok(Some((Kind::Dollar, after))),
        b'"' => match skip_quoted(text) {
            Ok(rest) => Ok(Some((Kind::Other, rest))),
            Err(fault) => Err(fault_at(fault, text, at)),
        },
        b'[' => match skip_class(text, after) {
            Ok(rest) => Ok(Some((Kind::Other, rest))),
            Err(fault) => Err(fault_at(fault, text, at)),
        },
        b'\\' => match escape_at(after) {
            Some((_byte, rest)) => Ok(Some((Kind::Other, rest))),
            None => Err(PatternError {
                kind: PatternErrorKind::BadEscape,
                at,
            }),
        },
        _ => Ok(Some((Kind::Other, after))),
    }
}

/// The fault, by its place: the text, of which the fault has a part, stands at the place `at`.
fn fault_at(fault: FaultAt, text: &[u8], at: usize) -> PatternError
    requires { at + length text.now < 2 ^ 64 }
    ensures { result ≡ placed at text.now (fault.entry.kind, fault.entry.rest.now) }
{
    PatternError {
        kind: fault.kind,
        at: at + text.len().saturating_sub(fault.rest.len()),
    }
}
