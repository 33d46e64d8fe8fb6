//! Why a file is no specification.
ghost use Rattle.std.specs.Prelude.{◌≡◌};
ghost use Rattle.lexre_bytes.specs.RefusalNames.{kind_name};
ghost use Rattle.lexre_bytes.specs.declared.refusals.SpecErrorKind.TheVariants.{OutOfMemory};

use crate::error::PatternError;
use std::alloc::{AllocError, AllocFailed};
use std::fmt;
use thiserror::Error;

/// Why a file is refused, by name.
#[derive(Clone, Copy, PartialEq, Eq, Debug, Error)]
pub enum SpecErrorKind {
    /// No line begins with `%%`.
    NoRulesSection,
    /// A line of the definitions section that is none of its forms.
    BadDefinitionLine,
    /// A name is defined twice.
    DuplicateName,
    /// A condition is declared twice.
    DuplicateCondition,
    /// A condition is not declared, or its list is not closed on the line.
    UnknownCondition,
    /// A pattern is not cut or not read.
    Pattern(PatternError),
    /// Neither side of the trailing context has a fixed length of at most 65,535.
    VariableTrailing,
    /// A rule has two trailing contexts.
    TwoTrailing,
    /// A substitute begins with `^`, or ends with a `$` that is not directly after a backslash.
    AnchoredDefinition,
    /// `<<EOF>>` goes on, or stands after `^`.
    BadEofRule,
    /// A condition has two `<<EOF>>` rules.
    DuplicateEof,
    /// No statement stands there, or its form is wrong.
    UnknownStatement,
    /// yyless stands with yymore, or twice.
    LessAndMore,
    /// REJECT stands with yymore or yyless.
    RejectCombination,
    /// A statement stands after REJECT, yyterminate or exit.
    NotLast,
    /// An `<<EOF>>` rule does more than print and end.
    BadEofAction,
    /// yyless keeps no byte, or more than 65,535.
    BadCount,
    /// exit has a status above 63.
    BadStatus,
    /// A string, comment, brace or `%{` block is left open.
    Unclosed,
    /// `|` stands at the last rule, or before an `<<EOF>>` rule.
    DanglingBar,
    /// An option that is not known.
    UnsupportedOption,
    /// More than 4,096 rules.
    TooManyRules,
    /// More than 255 conditions, INITIAL among them.
    TooManyConditions,
    /// A file of more than 1,048,576 bytes, or an action of more than 256 statements or 4,096 literal bytes.
    TooLong,
    /// A request for memory was refused.
    OutOfMemory,
}

impl SpecErrorKind {
    /// Its name, as messages have it; that of a pattern is the name of what is wrong with it.
    pub fn name(self) -> &'static str
        ensures { result.now ≡ kind_name self }
    {
        match self {
            SpecErrorKind::NoRulesSection => "NoRulesSection",
            SpecErrorKind::BadDefinitionLine => "BadDefinitionLine",
            SpecErrorKind::DuplicateName => "DuplicateName",
            SpecErrorKind::DuplicateCondition => "DuplicateCondition",
            SpecErrorKind::UnknownCondition => "UnknownCondition",
            SpecErrorKind::Pattern(error) => error.kind.name(),
            SpecErrorKind::VariableTrailing => "VariableTrailing",
            SpecErrorKind::TwoTrailing => "TwoTrailing",
            SpecErrorKind::AnchoredDefinition => "AnchoredDefinition",
            SpecErrorKind::BadEofRule => "BadEofRule",
            SpecErrorKind::DuplicateEof => "DuplicateEof",
            SpecErrorKind::UnknownStatement => "UnknownStatement",
            SpecErrorKind::LessAndMore => "LessAndMore",
            SpecErrorKind::RejectCombination => "RejectCombination",
            SpecErrorKind::NotLast => "NotLast",
            SpecErrorKind::BadEofAction => "BadEofAction",
            SpecErrorKind::BadCount => "BadCount",
            SpecErrorKind::BadStatus => "BadStatus",
            SpecErrorKind::Unclosed => "Unclosed",
            SpecErrorKind::DanglingBar => "DanglingBar",
            SpecErrorKind::UnsupportedOption => "UnsupportedOption",
            SpecErrorKind::TooManyRules => "TooManyRules",
            SpecErrorKind::TooManyConditions => "TooManyConditions",
            SpecErrorKind::TooLong => "TooLong",
            SpecErrorKind::OutOfMemory => "OutOfMemory",
        }
    }
}

impl fmt::Display for SpecErrorKind {
    /// Writes the name of the reason.
    fn fmt<W: fmt::Write>(&self, f: &mut fmt::Formatter<W>) -> fmt::Result {
        match self {
            SpecErrorKind::Pattern(error) => error.fmt(f),
            _ => f.write_str(self.name()),
        }
    }
}

/// The first fault of a file, and its line, from 1. Line 0 is the whole file.
#[derive(Clone, Copy, PartialEq, Eq, Debug, Error)]
#[error("line {line}: {kind}")]
pub struct SpecError {
    /// The line, from 1, or 0 where it is of no line.
    pub line: u32,
    /// The reason.
    pub kind: SpecErrorKind,
}

/// Want of memory, reported at line 0, for the whole file.
const OUT_OF_MEMORY: SpecError = SpecError {
    line: 0,
    kind: SpecErrorKind::OutOfMemory,
};

impl From<AllocError> for SpecErrorKind {
    ghost from_gives = { λ _ e. e ≡ OutOfMemory };

    /// A request for memory was refused.
    fn from(_error: AllocError) -> SpecErrorKind {
        SpecErrorKind::OutOfMemory
    }
}

impl<T: Drop> From<AllocFailed<T>> for SpecErrorKind {
    ghost from_gives = { λ _ e. e ≡ OutOfMemory };

    /// A request for memory was refused, and what was handed in is dropped.
    fn from(_error: AllocFailed<T>) -> SpecErrorKind {
        SpecErrorKind::OutOfMemory
    }
}

impl From<AllocError> for SpecError {
    ghost from_gives = { λ _ e. e ≡ record { line = 0; kind = OutOfMemory } };

    /// A request for memory was refused where no line is at hand: it is reported at line 0.
    fn from(_error: AllocError) -> SpecError {
        OUT_OF_MEMORY
    }
}

impl<T: Drop> From<AllocFailed<T>> for SpecError {
    ghost from_gives = { λ _ e. e ≡ record { line = 0; kind = OutOfMemory } };

    /// A request for memory was refused where no line is at hand, and what was handed in is dropped.
    fn from(_error: AllocFailed<T>) -> SpecError {
        OUT_OF_MEMORY
    }
}
