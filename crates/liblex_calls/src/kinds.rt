//! The number of each refusal.
ghost use Rattle.std.specs.Prelude.{◌≡◌};
ghost use Rattle.liblex_calls.specs.Kinds.{kind_number, pattern_number, build_number};

use lexkit::{BuildError, PatternErrorKind, SpecErrorKind};

/// That of a refusal of a pattern: from 101, and 0 for want of memory.
fn pattern_number(kind: PatternErrorKind) -> u32
    ensures { result ≡ pattern_number kind }
{
    match kind {
        PatternErrorKind::UnclosedQuote => 101,
        PatternErrorKind::UnclosedClass => 102,
        PatternErrorKind::BadRange => 103,
        PatternErrorKind::EmptyClass => 104,
        PatternErrorKind::UnknownClassName => 105,
        PatternErrorKind::UnsupportedBracket => 106,
        PatternErrorKind::BadEscape => 107,
        PatternErrorKind::BadInterval => 108,
        PatternErrorKind::UnbalancedParen => 109,
        PatternErrorKind::MissingOperand => 110,
        PatternErrorKind::UndefinedName => 111,
        PatternErrorKind::DefinitionCycle => 112,
        PatternErrorKind::TooDeep => 113,
        PatternErrorKind::TooBig => 114,
        PatternErrorKind::MisplacedSlash => 115,
        PatternErrorKind::OutOfMemory => 0,
    }
}

/// That of a refusal of a specification: below 100, or that of the pattern in it.
pub(crate) fn kind_number(kind: SpecErrorKind) -> u32
    ensures { result ≡ kind_number kind }
{
    match kind {
        SpecErrorKind::NoRulesSection => 1,
        SpecErrorKind::BadDefinitionLine => 2,
        SpecErrorKind::DuplicateName => 3,
        SpecErrorKind::DuplicateCondition => 4,
        SpecErrorKind::UnknownCondition => 5,
        SpecErrorKind::Pattern(error) => pattern_number(error.kind),
        SpecErrorKind::VariableTrailing => 6,
        SpecErrorKind::TwoTrailing => 7,
        SpecErrorKind::AnchoredDefinition => 8,
        SpecErrorKind::BadEofRule => 9,
        SpecErrorKind::DuplicateEof => 10,
        SpecErrorKind::UnknownStatement => 11,
        SpecErrorKind::LessAndMore => 12,
        SpecErrorKind::RejectCombination => 13,
        SpecErrorKind::NotLast => 14,
        SpecErrorKind::BadEofAction => 15,
        SpecErrorKind::BadCount => 16,
        SpecErrorKind::BadStatus => 17,
        SpecErrorKind::Unclosed => 18,
        SpecErrorKind::DanglingBar => 19,
        SpecErrorKind::UnsupportedOption => 20,
        SpecErrorKind::TooManyRules => 21,
        SpecErrorKind::TooManyConditions => 22,
        SpecErrorKind::TooLong => 23,
        SpecErrorKind::OutOfMemory => 0,
    }
}

/// That of an automaton that passes a limit.
pub(crate) fn build_number(error: BuildError) -> u32
    ensures { result ≡ build_number error }
{
    match error {
        BuildError::TooManyPositions => 201,
        BuildError::TooManyStates => 202,
        BuildError::OutOfMemory => 0,
    }
}
