//! The words that each error is shown by: those of the lines that the manual lists.
use lex_command::ArgsError;
use lexauto::{BuildError, OutOfMemory};
use lexkit::{GenError, ScanError};
use lexre::{DefsError, PatternError, PatternErrorKind};
use lexscan::{ReadFault, RunError};
use lexspec::{SpecError, SpecErrorKind};
use lextab::{TableError, WriteFault};
use std::alloc::Global;
use std::fmt::Display;

/// Whether the error is shown so.
fn says<E: Display>(alloc: Global, error: &E, words: &str) -> bool {
    match format!(in alloc; "{error}") {
        Ok(shown) => shown.as_str() == words,
        Err(_) => false,
    }
}

/// An error of the product.
enum Fault {
    Defs(DefsError),
    PatternKind(PatternErrorKind),
    Pattern(PatternError),
    SpecKind(SpecErrorKind),
    Spec(SpecError),
    Build(BuildError),
    Automaton(OutOfMemory),
    Table(TableError),
    Run(RunError),
    Read(ReadFault),
    Write(WriteFault),
    Generate(GenError),
    Scan(ScanError),
    Args(ArgsError),
}

/// Whether an error is shown so.
fn is_shown(alloc: Global, fault: &Fault, words: &str) -> bool {
    match fault {
        Fault::Defs(error) => says(alloc, error, words),
        Fault::PatternKind(error) => says(alloc, error, words),
        Fault::Pattern(error) => says(alloc, error, words),
        Fault::SpecKind(error) => says(alloc, error, words),
        Fault::Spec(error) => says(alloc, error, words),
        Fault::Build(error) => says(alloc, error, words),
        Fault::Automaton(error) => says(alloc, error, words),
        Fault::Table(error) => says(alloc, error, words),
        Fault::Run(error) => says(alloc, error, words),
        Fault::Read(error) => says(alloc, error, words),
        Fault::Write(error) => says(alloc, error, words),
        Fault::Generate(error) => says(alloc, error, words),
        Fault::Scan(error) => says(alloc, error, words),
        Fault::Args(error) => says(alloc, error, words),
    }
}

const BAD_PATTERN: PatternError = PatternError {
    kind: PatternErrorKind::BadInterval,
    at: 7,
};

const SPEC_REFUSED: SpecError = SpecError {
    line: 12,
    kind: SpecErrorKind::Pattern(BAD_PATTERN),
};

const UNMADE: GenError = GenError::Spec(SPEC_REFUSED);

const ROWS: &[(Fault, &str)] = &[
    (
        Fault::Defs(DefsError::Duplicate),
        "the name is defined already",
    ),
    (Fault::Defs(DefsError::OutOfMemory), "out of memory"),
    (
        Fault::PatternKind(PatternErrorKind::BadInterval),
        "BadInterval",
    ),
    (Fault::Pattern(BAD_PATTERN), "BadInterval at 7"),
    (Fault::Spec(SPEC_REFUSED), "line 12: BadInterval at 7"),
    (
        Fault::SpecKind(SpecErrorKind::Pattern(BAD_PATTERN)),
        "BadInterval at 7",
    ),
    (
        Fault::Build(BuildError::TooManyPositions),
        "TooManyPositions",
    ),
    (Fault::Build(BuildError::TooManyStates), "TooManyStates"),
    (Fault::Build(BuildError::OutOfMemory), "OutOfMemory"),
    (Fault::Automaton(OutOfMemory), "OutOfMemory"),
    (Fault::Table(TableError::BadMagic), "BadMagic"),
    (Fault::Table(TableError::BadVersion), "BadVersion"),
    (Fault::Table(TableError::Truncated), "Truncated"),
    (Fault::Table(TableError::TrailingBytes), "TrailingBytes"),
    (Fault::Table(TableError::BadField(28)), "BadField at 28"),
    (Fault::Table(TableError::OutOfMemory), "OutOfMemory"),
    (Fault::Run(RunError::Read), "read fault"),
    (Fault::Run(RunError::TooManyReads), "too many reads"),
    (Fault::Run(RunError::Write), "write fault"),
    (Fault::Run(RunError::OutOfMemory), "out of memory"),
    (Fault::Run(RunError::Stack), "condition stack"),
    (Fault::Run(RunError::Failed), "failed"),
    (Fault::Read(ReadFault), "read fault"),
    (Fault::Write(WriteFault), "write fault"),
    (
        Fault::Scan(ScanError::Generate(UNMADE)),
        "line 12: BadInterval at 7",
    ),
    (
        Fault::Scan(ScanError::Table(TableError::BadMagic)),
        "BadMagic",
    ),
    (
        Fault::Scan(ScanError::Run(RunError::Stack)),
        "condition stack",
    ),
    (Fault::Generate(UNMADE), "line 12: BadInterval at 7"),
    (Fault::Generate(GenError::OutOfMemory), "out of memory"),
    (Fault::Args(ArgsError::Usage), "usage"),
    (Fault::Args(ArgsError::OutOfMemory), "out of memory"),
];

#[test]
fn errors_are_shown_so(rt: HostRuntime) {
    for (fault, words) in ROWS {
        assert!(rt; is_shown(rt.alloc(), fault, *words), "{words}");
    }
}
