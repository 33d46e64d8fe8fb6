//! Worked scans turn by turn: what is taken, what is held, what is written, and what a fault leaves.
use crate::building::machine_of;
use crate::scanning::{Failing, sink_that, source_that};
use lexkit::{Flat, MemorySink, MemorySource, RunError};
use lexscan::{Scanner, Turn, run};
use std::alloc::Global;
use std::test::Fail;

const NUMBERS: &str = "%%\nif printf(\"K\");\n[0-9][0-9] printf(\"N\");\n";

const MEGA: &str = "%%\nmega- ECHO; yymore();\nkludge ECHO;\n";

const FRONTS: &str = "%%\na |\nab |\nabc |\nabcd ECHO; REJECT;\n.|\\n ;\n";

const TRAIL: &str = "%%\nab/cd printf(\"[%s]\", yytext);\n";

const COMMENTS: &str =
    "%x C\n%%\n\"/*\" BEGIN(C);\n<C>\"*/\" BEGIN(INITIAL);\n<C>.|\\n ;\n<C><<EOF>> printf(\"open\"); exit(3);\n";

const LETTERS: &str = "%%\n[a-z]+ printf(\"I\");\n";

/// Its longer match asks for all letters, and is given up.
const GIVEN_UP: &str = "%%\n[a-z]+ REJECT;\n.|\\n ;\n";

const POPS: &str = "%option stack\n%%\na printf(\"A\"); yy_pop_state(); printf(\"B\");\n";

/// Each match is given back but for a letter.
const ONE_BY_ONE: &str = "%%\n[a-z]+ yyless(1);\n";

const THOUSAND: &[u8] = &[b'a'; 1_000];

/// A scanner over memory.
pub(crate) type Turns<'a, 'b> = Scanner<'a, Flat, MemorySource<'b>, MemorySink>;

/// One turn. What it promises is left out, so that what calls it is proved in less time.
pub(crate) fn turn(scanner: &mut Turns<'_, '_>) -> Result<Turn, RunError> {
    scanner.turn()
}

/// Whether so many turns go on.
fn go_on(scanner: &mut Turns<'_, '_>, count: usize) -> bool {
    let mut so = true;
    for _ in 0..count {
        so = turn(scanner) == Ok(Turn::Went) && so;
    }
    so
}

/// What the next turns do.
enum Step {
    /// So many go on.
    Go(usize),
    /// One goes on, and leaves this many bytes taken and these held.
    GoTo(u64, &'static str),
    /// One answers this, and leaves this many bytes taken and so many held.
    Answer(Result<Turn, RunError>, u64, usize),
    /// One ends the scan with this status, and leaves nothing held.
    End(u8),
    /// One is refused so.
    Fail(RunError),
}

/// Whether the next turns do so.
fn does(scanner: &mut Turns<'_, '_>, step: &Step) -> bool {
    match step {
        Step::Go(count) => go_on(scanner, *count),
        Step::GoTo(taken, held) => {
            turn(scanner) == Ok(Turn::Went)
                && scanner.taken() == *taken
                && scanner.held() == held.as_bytes()
        }
        Step::Answer(answer, taken, held) => {
            turn(scanner) == *answer && scanner.taken() == *taken && scanner.held().len() == *held
        }
        Step::End(status) => {
            turn(scanner) == Ok(Turn::Ended(*status)) && scanner.held().is_empty()
        }
        Step::Fail(error) => turn(scanner) == Err(*error),
    }
}

/// A specification, an input, where the source or the sink fails, what the turns do, and what they write.
type Scan = (
    &'static str,
    &'static [u8],
    Failing,
    &'static [Step],
    &'static str,
);

/// Whether the turns of a row do what it says.
fn goes_so(alloc: Global, row: &Scan) -> Result<bool, Fail> {
    let (text, input, failing, steps, written) = *row;
    let machine = machine_of(alloc, text)?;
    let mut source = source_that(failing, input);
    let mut sink = sink_that(alloc, failing);
    let mut scanner = Scanner::new(alloc, &machine, &mut source, &mut sink, 10_000);
    let mut so = true;
    for step in steps {
        so = does(&mut scanner, step) && so;
    }
    Ok(scanner.sink().written() == written.as_bytes() && so)
}

const WENT: Result<Turn, RunError> = Ok(Turn::Went);

const UNWRITTEN: Result<Turn, RunError> = Err(RunError::Write);

const UNREAD: Result<Turn, RunError> = Err(RunError::Read);

const FAILED: Result<Turn, RunError> = Err(RunError::Failed);

const UNWRITTEN_AT_ONCE: &[Step] = &[Step::Fail(RunError::Write), Step::Fail(RunError::Failed)];

/// So many turns go on, and the next one finds that the source fails.
const NO_TURN: &[Step] = &[
    Step::Go(0),
    Step::Fail(RunError::Read),
    Step::Fail(RunError::Failed),
];

const ONE_TURN: &[Step] = &[
    Step::Go(1),
    Step::Fail(RunError::Read),
    Step::Fail(RunError::Failed),
];

const TWO_TURNS: &[Step] = &[
    Step::Go(2),
    Step::Fail(RunError::Read),
    Step::Fail(RunError::Failed),
];

const THREE_TURNS: &[Step] = &[
    Step::Go(3),
    Step::Fail(RunError::Read),
    Step::Fail(RunError::Failed),
];

const FOUR_TURNS: &[Step] = &[
    Step::Go(4),
    Step::Fail(RunError::Read),
    Step::Fail(RunError::Failed),
];

const FIVE_TURNS: &[Step] = &[
    Step::Go(5),
    Step::Fail(RunError::Read),
    Step::Fail(RunError::Failed),
];

const SIX_TURNS: &[Step] = &[
    Step::Go(6),
    Step::Fail(RunError::Read),
    Step::Fail(RunError::Failed),
];

const SEVEN_TURNS: &[Step] = &[
    Step::Go(7),
    Step::Fail(RunError::Read),
    Step::Fail(RunError::Failed),
];

/// What is asked for is taken and held.
fn held() -> &'static [Scan] {
    const SCANS: &[Scan] = &[
        (
            "%%\n",
            b"abc",
            Failing::Never,
            &[
                Step::GoTo(1, ""),
                Step::GoTo(2, ""),
                Step::GoTo(3, ""),
                Step::End(0),
                Step::End(0),
            ],
            "abc",
        ),
        (
            NUMBERS,
            b"if 42 x",
            Failing::Never,
            &[
                Step::GoTo(2, ""),
                Step::GoTo(3, ""),
                Step::GoTo(5, ""),
                Step::GoTo(6, ""),
                Step::GoTo(7, ""),
                Step::End(0),
                Step::End(0),
            ],
            "K N x",
        ),
        (
            "%%\nabc printf(\"X\");\n",
            b"abab",
            Failing::Never,
            &[
                Step::GoTo(3, "ba"),
                Step::GoTo(3, "a"),
                Step::GoTo(4, "b"),
                Step::GoTo(4, ""),
                Step::End(0),
                Step::End(0),
            ],
            "abab",
        ),
        (
            MEGA,
            b"mega-kludge",
            Failing::Never,
            &[
                Step::GoTo(5, "mega-"),
                Step::GoTo(11, ""),
                Step::End(0),
                Step::End(0),
            ],
            "mega-mega-kludge",
        ),
    ];
    SCANS
}

/// The same where trailing context, exit, yymore and yyless have a part in it.
fn held_by_statements() -> &'static [Scan] {
    const SCANS: &[Scan] = &[
        (
            TRAIL,
            b"abcdab",
            Failing::Never,
            &[
                Step::GoTo(4, "cd"),
                Step::GoTo(4, "d"),
                Step::GoTo(4, ""),
                Step::GoTo(6, "b"),
                Step::GoTo(6, ""),
                Step::End(0),
                Step::End(0),
            ],
            "[ab]cdab",
        ),
        (
            "%%\nab exit(7);\n",
            b"abXYZ",
            Failing::Never,
            &[Step::End(7), Step::End(7)],
            "",
        ),
        (
            "%%\na yymore();\nb yymore(); exit(3);\n",
            b"abc",
            Failing::Never,
            &[Step::GoTo(1, "a"), Step::End(3), Step::End(3)],
            "",
        ),
        (
            "%%\naa yymore();\nb ECHO; yyless(1);\n",
            b"aab",
            Failing::Never,
            &[
                Step::GoTo(2, "aa"),
                Step::GoTo(3, "ab"),
                Step::GoTo(3, "b"),
                Step::GoTo(3, ""),
                Step::End(0),
                Step::End(0),
            ],
            "aabab",
        ),
    ];
    SCANS
}

/// The end is asked for once: a source that has answered it is not called again, whatever it would give then.
fn ended() -> &'static [Scan] {
    const SCANS: &[Scan] = &[(
        TRAIL,
        b"abcdabz",
        Failing::End(6),
        &[Step::Go(5), Step::Answer(Ok(Turn::Ended(0)), 6, 0)],
        "[ab]cdab",
    )];
    SCANS
}

/// A thousand letters are taken in the first turn, and returned one by one.
fn returned() -> &'static [Scan] {
    const SCANS: &[Scan] = &[(
        ONE_BY_ONE,
        THOUSAND,
        Failing::Never,
        &[
            Step::Answer(Ok(Turn::Went), 1_000, 999),
            Step::Go(999),
            Step::Answer(Ok(Turn::Ended(0)), 1_000, 0),
            Step::Answer(Ok(Turn::Ended(0)), 1_000, 0),
        ],
        "",
    )];
    SCANS
}

/// A refused turn holds what was taken.
fn refused() -> &'static [Scan] {
    const SCANS: &[Scan] = &[
        (
            MEGA,
            b"mega-kludge",
            Failing::Write(5),
            &[
                Step::Answer(WENT, 5, 5),
                Step::Answer(UNWRITTEN, 11, 11),
                Step::Answer(FAILED, 11, 11),
            ],
            "mega-",
        ),
        (
            MEGA,
            b"mega-kludge",
            Failing::Read(5),
            &[
                Step::Answer(WENT, 5, 5),
                Step::Answer(UNREAD, 5, 5),
                Step::Answer(FAILED, 5, 5),
            ],
            "mega-",
        ),
        (
            FRONTS,
            b"abcd",
            Failing::Write(3),
            &[
                Step::Answer(UNWRITTEN, 4, 4),
                Step::Answer(FAILED, 4, 4),
                Step::Answer(FAILED, 4, 4),
            ],
            "abc",
        ),
        (
            POPS,
            b"xa",
            Failing::Never,
            &[
                Step::Answer(WENT, 1, 0),
                Step::Answer(Err(RunError::Stack), 2, 1),
                Step::Answer(FAILED, 2, 1),
            ],
            "xA",
        ),
    ];
    SCANS
}

/// A source that gives 0 to 10 bytes lets so many turns go on.
fn cut_short() -> &'static [Scan] {
    const SCANS: &[Scan] = &[
        (COMMENTS, b"a/*b*/c/*d", Failing::Read(0), NO_TURN, ""),
        (COMMENTS, b"a/*b*/c/*d", Failing::Read(1), ONE_TURN, "a"),
        (COMMENTS, b"a/*b*/c/*d", Failing::Read(2), ONE_TURN, "a"),
        (COMMENTS, b"a/*b*/c/*d", Failing::Read(3), TWO_TURNS, "a"),
        (COMMENTS, b"a/*b*/c/*d", Failing::Read(4), THREE_TURNS, "a"),
        (COMMENTS, b"a/*b*/c/*d", Failing::Read(5), THREE_TURNS, "a"),
        (COMMENTS, b"a/*b*/c/*d", Failing::Read(6), FOUR_TURNS, "a"),
        (COMMENTS, b"a/*b*/c/*d", Failing::Read(7), FIVE_TURNS, "ac"),
        (COMMENTS, b"a/*b*/c/*d", Failing::Read(8), FIVE_TURNS, "ac"),
        (COMMENTS, b"a/*b*/c/*d", Failing::Read(9), SIX_TURNS, "ac"),
        (
            COMMENTS,
            b"a/*b*/c/*d",
            Failing::Read(10),
            SEVEN_TURNS,
            "ac",
        ),
    ];
    SCANS
}

/// A sink that takes 0 to 9 of the ten bytes of the first turn has the first ones.
fn filled() -> &'static [Scan] {
    const SCANS: &[Scan] = &[
        (FRONTS, b"abcd", Failing::Write(0), UNWRITTEN_AT_ONCE, ""),
        (FRONTS, b"abcd", Failing::Write(1), UNWRITTEN_AT_ONCE, "a"),
        (FRONTS, b"abcd", Failing::Write(2), UNWRITTEN_AT_ONCE, "ab"),
        (FRONTS, b"abcd", Failing::Write(3), UNWRITTEN_AT_ONCE, "abc"),
        (
            FRONTS,
            b"abcd",
            Failing::Write(4),
            UNWRITTEN_AT_ONCE,
            "abcd",
        ),
        (
            FRONTS,
            b"abcd",
            Failing::Write(5),
            UNWRITTEN_AT_ONCE,
            "abcda",
        ),
        (
            FRONTS,
            b"abcd",
            Failing::Write(6),
            UNWRITTEN_AT_ONCE,
            "abcdab",
        ),
        (
            FRONTS,
            b"abcd",
            Failing::Write(7),
            UNWRITTEN_AT_ONCE,
            "abcdabc",
        ),
        (
            FRONTS,
            b"abcd",
            Failing::Write(8),
            UNWRITTEN_AT_ONCE,
            "abcdabca",
        ),
        (
            FRONTS,
            b"abcd",
            Failing::Write(9),
            UNWRITTEN_AT_ONCE,
            "abcdabcab",
        ),
    ];
    SCANS
}

/// The flush fails at the end of an empty input, and before a pop of an empty stack is told.
fn unflushed() -> &'static [Scan] {
    const SCANS: &[Scan] = &[
        ("%%\n", b"", Failing::Flush, UNWRITTEN_AT_ONCE, ""),
        (POPS, b"a", Failing::Flush, UNWRITTEN_AT_ONCE, "A"),
    ];
    SCANS
}

/// Whether the turns of each row do what it says.
fn all_go_so(alloc: Global, rows: &[Scan]) -> Result<bool, Fail> {
    let mut so = true;
    for row in rows {
        so = goes_so(alloc, row)? && so;
    }
    Ok(so)
}

#[test]
fn turns_go_so(rt: HostRuntime) -> Result<(), Fail> {
    let alloc = rt.alloc();
    let so = all_go_so(alloc, held())?
        && all_go_so(alloc, held_by_statements())?
        && all_go_so(alloc, ended())?
        && all_go_so(alloc, returned())?
        && all_go_so(alloc, refused())?
        && all_go_so(alloc, cut_short())?
        && all_go_so(alloc, filled())?
        && all_go_so(alloc, unflushed())?;
    assert!(rt; so);
    Ok(())
}

/// A specification, an input, where the source fails, the most reads, how a run ends, how often the source is called,
/// and what is written.
type Run = (
    &'static str,
    &'static [u8],
    Failing,
    u64,
    Result<u8, RunError>,
    u64,
    &'static [u8],
);

/// Whether the run ends so.
fn ends_so(alloc: Global, row: &Run) -> Result<bool, Fail> {
    let (text, input, failing, max_reads, want, calls, written) = *row;
    let machine = machine_of(alloc, text)?;
    let mut source = source_that(failing, input);
    let mut sink = MemorySink::new(alloc);
    let got = run(alloc, &machine, &mut source, &mut sink, max_reads);
    Ok(got == want && source.calls() == calls && sink.written() == written)
}

const TOO_MANY: Result<u8, RunError> = Err(RunError::TooManyReads);

const RUNS: &[Run] = &[
    // The source is called as often as a byte is asked for.
    (
        NUMBERS,
        b"if 42 x",
        Failing::Never,
        10_000,
        Ok(0),
        8,
        b"K N x",
    ),
    (
        TRAIL,
        b"abcdab",
        Failing::Never,
        10_000,
        Ok(0),
        7,
        b"[ab]cdab",
    ),
    (LETTERS, b"aaa", Failing::Never, 4, Ok(0), 4, b"I"),
    (LETTERS, b"aaa", Failing::Never, 3, TOO_MANY, 3, b""),
    (GIVEN_UP, b"abc", Failing::Never, 4, Ok(0), 4, b""),
    (GIVEN_UP, b"abc", Failing::Never, 3, TOO_MANY, 3, b""),
    (
        "%%\nab exit(7);\n",
        b"abXYZ",
        Failing::Never,
        2,
        Ok(7),
        2,
        b"",
    ),
    (
        "%%\nab* exit(7);\n",
        b"abXYZ",
        Failing::Never,
        10_000,
        Ok(7),
        3,
        b"",
    ),
    // The end is asked for once.
    (
        TRAIL,
        b"abcdabz",
        Failing::End(6),
        10_000,
        Ok(0),
        7,
        b"[ab]cdab",
    ),
    // A thousand letters are returned one by one.
    (
        ONE_BY_ONE,
        THOUSAND,
        Failing::Never,
        1_001,
        Ok(0),
        1_001,
        b"",
    ),
    (
        ONE_BY_ONE,
        THOUSAND,
        Failing::Never,
        1_000,
        TOO_MANY,
        1_000,
        b"",
    ),
];

#[test]
fn runs_end_so(rt: HostRuntime) -> Result<(), Fail> {
    for (place, row) in RUNS.iter().enumerate() {
        assert!(rt; ends_so(rt.alloc(), row)?, "row {place}");
    }
    Ok(())
}
