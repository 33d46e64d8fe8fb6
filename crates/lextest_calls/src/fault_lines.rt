//! The lines and statuses of faults.
use lexkit::{
    BuildError, Fault, GenError, MemorySink, PatternError, PatternErrorKind, RunError, ScanError,
    SpecError, SpecErrorKind, TableError, write_fault,
};
use std::alloc::Global;

/// Whether the program would end with this status and this line.
fn is_told(alloc: Global, fault: Fault<'_>, status: u8, line: &str) -> bool {
    let mut sink = MemorySink::new(alloc);
    let written = write_fault(fault, &mut sink).is_ok();
    written && sink.written() == line.as_bytes() && fault.status() == status
}

const MISSING_OPERAND: SpecErrorKind = SpecErrorKind::Pattern(PatternError {
    kind: PatternErrorKind::MissingOperand,
    at: 0,
});

const TOO_BIG: SpecErrorKind = SpecErrorKind::Pattern(PatternError {
    kind: PatternErrorKind::TooBig,
    at: 65_535,
});

const NO_MEMORY_IN_A_PATTERN: SpecErrorKind = SpecErrorKind::Pattern(PatternError {
    kind: PatternErrorKind::OutOfMemory,
    at: 7,
});

/// A fault, its status and its line.
type Row = (Fault<'static>, u8, &'static str);

/// Faults of words, files, automata, tables and runs.
fn of_the_program() -> &'static [Row] {
    const ROWS: &[Row] = &[
        (Fault::Usage, 64, "lex: usage\n"),
        (
            Fault::Scan(ScanError::Generate(GenError::OutOfMemory)),
            71,
            "lex: out of memory\n",
        ),
        (
            Fault::Scan(ScanError::Generate(GenError::Build(BuildError::TooManyStates))),
            65,
            "lex: TooManyStates\n",
        ),
        (
            Fault::Scan(ScanError::Generate(GenError::Build(BuildError::TooManyPositions))),
            65,
            "lex: TooManyPositions\n",
        ),
        (
            Fault::Scan(ScanError::Generate(GenError::Build(BuildError::OutOfMemory))),
            71,
            "lex: out of memory\n",
        ),
        (
            Fault::Scan(ScanError::Table(TableError::Truncated)),
            65,
            "lex: table: Truncated\n",
        ),
        (
            Fault::Scan(ScanError::Table(TableError::BadField(28))),
            65,
            "lex: table: BadField at 28\n",
        ),
        (
            Fault::Scan(ScanError::Table(TableError::OutOfMemory)),
            71,
            "lex: out of memory\n",
        ),
        (Fault::File("a.l"), 66, "lex: cannot read a.l\n"),
        (Fault::File("missing.l"), 66, "lex: cannot read missing.l\n"),
        (Fault::File(""), 66, "lex: cannot read \n"),
        (Fault::Output, 74, "lex: write fault\n"),
        (
            Fault::Scan(ScanError::Run(RunError::Read)),
            74,
            "lex: read fault\n",
        ),
        (
            Fault::Scan(ScanError::Run(RunError::TooManyReads)),
            74,
            "lex: too many reads\n",
        ),
        (
            Fault::Scan(ScanError::Run(RunError::Write)),
            74,
            "lex: write fault\n",
        ),
        (
            Fault::Scan(ScanError::Run(RunError::OutOfMemory)),
            71,
            "lex: out of memory\n",
        ),
        (
            Fault::Scan(ScanError::Run(RunError::Stack)),
            70,
            "lex: condition stack\n",
        ),
        (
            Fault::Scan(ScanError::Run(RunError::Failed)),
            74,
            "lex: failed\n",
        ),
    ];
    ROWS
}

/// Faults of specifications.
fn of_specifications() -> &'static [Row] {
    const ROWS: &[Row] = &[
        (
            Fault::Scan(ScanError::Generate(GenError::Spec(SpecError {
                line: 1,
                kind: SpecErrorKind::NoRulesSection,
            }))),
            65,
            "lex: line 1: NoRulesSection\n",
        ),
        (
            Fault::Scan(ScanError::Generate(GenError::Spec(SpecError {
                line: 12,
                kind: SpecErrorKind::BadDefinitionLine,
            }))),
            65,
            "lex: line 12: BadDefinitionLine\n",
        ),
        (
            Fault::Scan(ScanError::Generate(GenError::Spec(SpecError {
                line: 2,
                kind: MISSING_OPERAND,
            }))),
            65,
            "lex: line 2: MissingOperand at 0\n",
        ),
        (
            Fault::Scan(ScanError::Generate(GenError::Spec(SpecError {
                line: 2,
                kind: TOO_BIG,
            }))),
            65,
            "lex: line 2: TooBig at 65535\n",
        ),
        (
            Fault::Scan(ScanError::Generate(GenError::Spec(SpecError {
                line: 2,
                kind: NO_MEMORY_IN_A_PATTERN,
            }))),
            71,
            "lex: out of memory\n",
        ),
        (
            Fault::Scan(ScanError::Generate(GenError::Spec(SpecError {
                line: 3,
                kind: SpecErrorKind::UnknownStatement,
            }))),
            65,
            "lex: line 3: UnknownStatement\n",
        ),
        (
            Fault::Scan(ScanError::Generate(GenError::Spec(SpecError {
                line: 4098,
                kind: SpecErrorKind::TooManyRules,
            }))),
            65,
            "lex: line 4098: TooManyRules\n",
        ),
        (
            Fault::Scan(ScanError::Generate(GenError::Spec(SpecError {
                line: 9,
                kind: SpecErrorKind::TooLong,
            }))),
            65,
            "lex: line 9: TooLong\n",
        ),
        (
            Fault::Scan(ScanError::Generate(GenError::Spec(SpecError {
                line: 2,
                kind: SpecErrorKind::OutOfMemory,
            }))),
            71,
            "lex: out of memory\n",
        ),
    ];
    ROWS
}

/// Whether each fault is told so.
fn all_are_told(alloc: Global, rows: &[Row]) -> bool {
    let mut so = true;
    for &(fault, status, line) in rows {
        so = is_told(alloc, fault, status, line) && so;
    }
    so
}

#[test]
fn tells_each_fault(rt: HostRuntime) {
    assert!(rt; all_are_told(rt.alloc(), of_the_program()));
    assert!(rt; all_are_told(rt.alloc(), of_specifications()));
}
