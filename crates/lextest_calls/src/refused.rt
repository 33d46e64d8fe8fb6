//! What stays where memory is refused. No request is refused in these tests themselves: `scripts/campaigns/refuse-memory.py` runs
//! each of them with the first request refused, then the second, and so on. A run must then end well, or fail with the
//! name of an error that says that memory ran out.
use crate::building::{machine_of, made};
use crate::turns::{Turns, turn};
use lex_command::{ArgsError, read_args};
use lexkit::{
    BuildError, Flat, GenError, MemorySink, MemorySource, Options, PatternErrorKind, RunError,
    ScanError, SpecErrorKind, TableError, ToWrite, generate, scan_spec, scan_table,
};
use lexscan::{Scanner, Turn, Window, run};
use std::alloc::{AllocError, Global};
use std::test::Fail;

const INPUT: &[u8] = b"abcdefghijklmnopqrstuvwxyzabcdefghijklmn";

/// Each match is given back but for a letter.
const LETTERS: &str = "%%\n[a-z]+ yyless(1);\n";

/// Whether all that was taken from the start of the text on is held after a refused turn, and no turn is taken any
/// more.
fn holds_all(
    scanner: &mut Turns<'_, '_>,
    input: &[u8],
    start: usize,
    answer: Result<Turn, RunError>,
) -> bool {
    let taken = scanner.taken() as usize;
    answer == Err(RunError::OutOfMemory)
        && input.get(start..taken) == Some(scanner.held())
        && turn(scanner) == Err(RunError::Failed)
}

/// Whether all turns are taken, each of which keeps one byte. So many of the first may be refused: such a one holds what it has to.
fn goes_through(alloc: Global, machine: &Flat, input: &[u8], may_be: usize) -> bool {
    let mut source = MemorySource::new(input);
    let mut sink = MemorySink::new(alloc);
    let mut scanner = Scanner::new(alloc, machine, &mut source, &mut sink, 10_000);
    for (start, _) in input.iter().enumerate() {
        let answer = turn(&mut scanner);
        if answer != Ok(Turn::Went) {
            return start < may_be && holds_all(&mut scanner, input, start, answer);
        }
    }
    turn(&mut scanner) == Ok(Turn::Ended(0))
}

/// Goes through all turns. After a refused turn all that was taken from the start of the text on is held, and no turn
/// is taken any more.
#[test]
fn refused_turns(rt: HostRuntime) -> Result<(), Fail> {
    let machine = machine_of(rt.alloc(), LETTERS)?;
    assert!(rt; goes_through(rt.alloc(), &machine, INPUT, 40));
    Ok(())
}

/// Each match asks for all the letters, and keeps one.
const ONE_OF_MANY: &str = "%%\na ;\na*b ;\n";

const THOUSAND: &[u8] = &[b'a'; 1_000];

/// Where memory for marks of walks in vain is refused, that is not told: once all bytes are taken, each turn is taken.
#[test]
fn refused_marks(rt: HostRuntime) -> Result<(), Fail> {
    let machine = machine_of(rt.alloc(), ONE_OF_MANY)?;
    assert!(rt; goes_through(rt.alloc(), &machine, THOUSAND, 1));
    Ok(())
}

/// Whether a run ends well or tells that memory ran out, and nothing is written by it.
fn runs_well(alloc: Global, machine: &Flat) -> bool {
    let mut source = MemorySource::new(INPUT);
    let mut sink = MemorySink::new(alloc);
    let result = run(alloc, machine, &mut source, &mut sink, 10_000);
    let told = result == Ok(0) || result == Err(RunError::OutOfMemory);
    told && sink.written().is_empty()
}

/// A run ends well, or tells that memory ran out; nothing is written by it.
#[test]
fn refused_run(rt: HostRuntime) -> Result<(), Fail> {
    let machine = machine_of(rt.alloc(), LETTERS)?;
    assert!(rt; runs_well(rt.alloc(), &machine));
    Ok(())
}

/// A specification, an input, what is written, and the status.
type Scan = (&'static [u8], &'static [u8], &'static [u8], u8);

/// Scans with REJECT, with conditions, with names, and one that is warned of.
const SCANS: &[Scan] = &[
    (
        b"%%\na |\nab |\nabc |\nabcd ECHO; REJECT;\n.|\\n ;\n",
        b"abcd",
        b"abcdabcaba",
        0,
    ),
    (
        b"%x C\n%%\n\"/*\" BEGIN(C);\n<C>\"*/\" BEGIN(INITIAL);\n<C>.|\\n ;\n<C><<EOF>> printf(\"open\"); exit(3);\n",
        b"a/*b*/c/*d",
        b"acopen",
        3,
    ),
    (
        b"N {D}+\nD [0-9]\n%%\n{N}\".\"{N} printf(\"F\");\n",
        b"aa",
        b"aa",
        0,
    ),
    (
        b"%{\nint n;\n%}\n%%\na+ ;\naa ;\n%%\nint main(){}\n",
        b"aa",
        b"",
        0,
    ),
];

/// How many rules each of these has, and how many warnings: of the last its skipped code is told twice, and the rule
/// that the one before it takes all texts of.
const COUNTS: &[(usize, usize)] = &[(5, 0), (3, 0), (1, 0), (2, 3)];

/// Whether the fault of a specification says that memory ran out, in the words of its layer.
fn is_want_of_memory(error: GenError) -> bool {
    match error {
        GenError::OutOfMemory | GenError::Build(BuildError::OutOfMemory) => true,
        GenError::Build(_) => false,
        GenError::Spec(fault) => match fault.kind {
            SpecErrorKind::OutOfMemory => true,
            SpecErrorKind::Pattern(fault) => fault.kind == PatternErrorKind::OutOfMemory,
            _ => false,
        },
    }
}

/// What is answered of a text, and whether tables are made, with so many lines of rules and warnings, or memory ran out.
fn is_made(
    alloc: Global,
    text: &[u8],
    rules: usize,
    warned: usize,
) -> (Result<(), GenError>, bool) {
    match generate(alloc, text, Options::new()) {
        Ok(generated) => {
            let made = &generated.made;
            (
                Ok(()),
                (made.rule_lines.len(), made.warnings.len()) == (rules, warned),
            )
        }
        Err(error) => (Err(error), is_want_of_memory(error)),
    }
}

/// Tables are made, with their lines and warnings, or memory ran out.
#[test]
fn refused_generate(rt: HostRuntime) -> Result<(), Fail> {
    for (&(text, ..), &(rules, warned)) in SCANS.iter().zip(COUNTS) {
        let (got, so) = is_made(rt.alloc(), text, rules, warned);
        assert!(rt; so);
        got?;
    }
    Ok(())
}

/// Whether the fault of a scan, by a table file or not, says that memory ran out. It did so in the scan, or before anything was read or
/// written.
fn is_want_in_a_scan(error: ScanError, by_table: bool, is_untouched: bool) -> bool {
    match error {
        ScanError::Generate(fault) => is_want_of_memory(fault) && !by_table && is_untouched,
        ScanError::Table(fault) => fault == TableError::OutOfMemory && by_table && is_untouched,
        ScanError::Run(fault) => fault == RunError::OutOfMemory,
    }
}

/// What a scan of a row answers, how often it called its source, and what it wrote. It is by a table file, where there is one. What it
/// promises is left out, so that what calls it is proved in less time.
fn scan(
    alloc: Global,
    row: &Scan,
    file: Option<&[u8]>,
) -> Result<(Result<u8, ScanError>, u64, Vec<u8>), AllocError> {
    let &(text, input, ..) = row;
    let mut source = MemorySource::new(input);
    let mut sink = ToWrite::new(Vec::with_capacity(alloc, 16)?);
    let got = match file {
        Some(file) => scan_table(alloc, file, &mut source, &mut sink),
        None => scan_spec(alloc, text, Options::new(), &mut source, &mut sink),
    };
    Ok((got, source.calls(), sink.into_inner()))
}

/// What a scan answers, and whether it wrote all, or a beginning of it where memory ran out.
type Scanned = (Result<u8, ScanError>, bool);

/// A scan of a row: what is answered, and whether what was written is as it has to be.
fn scanned(alloc: Global, row: &Scan, file: Option<&[u8]>) -> Result<Scanned, AllocError> {
    let &(_, _, want, status) = row;
    let (got, calls, written) = scan(alloc, row, file)?;
    let so = match got {
        Ok(answer) => answer == status && written.len() == want.len(),
        Err(error) => {
            let is_untouched = calls == 0 && written.is_empty();
            is_want_in_a_scan(error, file.is_some(), is_untouched)
        }
    };
    Ok((got, so && want.starts_with(&written)))
}

/// A scan writes all, or memory ran out: before anything is read, or in the scan.
#[test]
fn refused_scan_spec(rt: HostRuntime) -> Result<(), Fail> {
    for row in SCANS {
        let (got, so) = scanned(rt.alloc(), row, None)?;
        assert!(rt; so);
        got?;
    }
    Ok(())
}

const BY_TABLE: Scan = (
    b"%%\nif printf(\"K\");\n[a-z]+ printf(\"I\");\n",
    b"if iff",
    b"K I",
    0,
);

/// The same by a table file.
#[test]
fn refused_scan_table(rt: HostRuntime) -> Result<(), Fail> {
    let file = made(rt.alloc(), BY_TABLE.0)?;
    let (got, so) = scanned(rt.alloc(), &BY_TABLE, Some(file.written()))?;
    assert!(rt; so);
    got?;
    Ok(())
}

/// Whether a window holds all that came, up to the byte for which it is refused room.
fn holds_what_it_held(alloc: Global) -> bool {
    let mut window = Window::new(alloc);
    let mut so = true;
    for (at, &byte) in INPUT.iter().enumerate() {
        let room = window.reserve();
        so = so && INPUT.get(..at) == Some(window.slice(0, window.len()));
        if room.is_err() {
            return so;
        }
        window.push(byte);
    }
    so
}

/// A window that was refused room holds what it held.
#[test]
fn refused_room(rt: HostRuntime) {
    assert!(rt; holds_what_it_held(rt.alloc()));
}

/// Whether the words of a line are read where they may be, or memory ran out.
fn is_read_so(alloc: Global, line: &[&str], is_read: bool) -> Result<bool, AllocError> {
    let mut words = Vec::new(alloc);
    for word in line {
        words.push(String::from_str(alloc, *word)?)?;
    }
    Ok(match read_args(alloc, words.as_slice()) {
        Ok(_) => is_read,
        Err(ArgsError::Usage) => !is_read,
        Err(ArgsError::OutOfMemory) => true,
    })
}

/// The words of a command line are read, or memory ran out.
#[test]
fn refused_words(rt: HostRuntime) -> Result<(), Fail> {
    const LINES: &[(&[&str], bool)] = &[
        (&["-tv", "a.l"], true),
        (&["--scan-spec"], false),
        (&["--scan-spec", "a", "--scan-table", "b"], false),
        (&["--scan-table", "b"], true),
    ];
    for &(line, is_read) in LINES {
        assert!(rt; is_read_so(rt.alloc(), line, is_read)?);
    }
    Ok(())
}
