//! Why a text is no pattern.
ghost use Rattle.std.specs.Prelude.{◌≡◌, Some};
ghost use Rattle.lexre_bytes.specs.RefusalNames.{pattern_name};
ghost use Rattle.lexre_bytes.specs.declared.error.PatternErrorKind.TheVariants.{OutOfMemory};

use std::alloc::{AllocError, AllocFailed};
use std::fmt;
use thiserror::Error;

/// Why a text is no pattern, by name. A fault inside a name's substitute is reported at the name.
#[derive(Clone, Copy, Debug, PartialEq, Eq, Error)]
pub enum PatternErrorKind {
    /// A quote that is not closed on its line.
    UnclosedQuote,
    /// A class that is not closed on its line.
    UnclosedClass,
    /// A range whose ends are in the wrong order, or whose second end is a named class.
    BadRange,
    /// A negated class without a byte.
    EmptyClass,
    /// `[:name:]` with a name that the POSIX locale does not have.
    UnknownClassName,
    /// `[:^name:]`, `[=a=]` or `[.a.]`.
    UnsupportedBracket,
    /// A backslash before a newline or at the end, or octal digits above 255.
    BadEscape,
    /// Braces that hold neither an interval nor a name.
    BadInterval,
    /// A parenthesis without its other.
    UnbalancedParen,
    /// No item where one is wanted.
    MissingOperand,
    /// `{name}` where the name has no definition.
    UndefinedName,
    /// A name whose substitute leads back to it.
    DefinitionCycle,
    /// More than 64 parentheses and names open at one place, or more than 64 signs on one item.
    TooDeep,
    /// More than 65,536 nodes.
    TooBig,
    /// A slash inside a pattern, or inside parentheses.
    MisplacedSlash,
    /// A request for memory was refused.
    OutOfMemory,
}

impl PatternErrorKind {
    /// Its name, as messages have it.
    pub fn name(self) -> &'static str
        ensures { result.now ≡ pattern_name self }
    {
        match self {
            PatternErrorKind::UnclosedQuote => "UnclosedQuote",
            PatternErrorKind::UnclosedClass => "UnclosedClass",
            PatternErrorKind::BadRange => "BadRange",
            PatternErrorKind::EmptyClass => "EmptyClass",
            PatternErrorKind::UnknownClassName => "UnknownClassName",
            PatternErrorKind::UnsupportedBracket => "UnsupportedBracket",
            PatternErrorKind::BadEscape => "BadEscape",
            PatternErrorKind::BadInterval => "BadInterval",
            PatternErrorKind::UnbalancedParen => "UnbalancedParen",
            PatternErrorKind::MissingOperand => "MissingOperand",
            PatternErrorKind::UndefinedName => "UndefinedName",
            PatternErrorKind::DefinitionCycle => "DefinitionCycle",
            PatternErrorKind::TooDeep => "TooDeep",
            PatternErrorKind::TooBig => "TooBig",
            PatternErrorKind::MisplacedSlash => "MisplacedSlash",
            PatternErrorKind::OutOfMemory => "OutOfMemory",
        }
    }
}

impl fmt::Display for PatternErrorKind {
    ghost output = { λ kind. Some (pattern_name kind) };

    /// Writes the name of the reason.
    fn fmt<W: fmt::Write>(&self, f: &mut fmt::Formatter<W>) -> fmt::Result {
        f.write_str(self.name())
    }
}

impl From<AllocError> for PatternErrorKind {
    ghost from_gives = { λ _ e. e ≡ OutOfMemory };

    /// A request for memory was refused.
    fn from(_error: AllocError) -> PatternErrorKind {
        PatternErrorKind::OutOfMemory
    }
}

impl<T: Drop> From<AllocFailed<T>> for PatternErrorKind {
    ghost from_gives = { λ _ e. e ≡ OutOfMemory };

    /// A request for memory was refused, and what was handed in is dropped.
    fn from(_error: AllocFailed<T>) -> PatternErrorKind {
        PatternErrorKind::OutOfMemory
    }
}

/// The first fault in a text, and its place there, counted from 0.
#[derive(Clone, Copy, Debug, PartialEq, Eq, Error)]
#[error("{kind} at {at}")]
pub struct PatternError {
    /// The reason.
    pub kind: PatternErrorKind,
    /// The offset in the text where it was found, from 0.
    pub at: usize,
}

/// A fault, and the text from its place on.
#[derive(Clone, Copy)]
pub struct FaultAt<'a> {
    /// The reason.
    pub kind: PatternErrorKind,
    /// The text from the place on where it was found.
    pub rest: &'a [u8],
}
