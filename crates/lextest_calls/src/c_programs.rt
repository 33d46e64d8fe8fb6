//! Programs in C, as the steps that they go: scans by pieces, tables that are loaded once, streams and lists of tokens.
use crate::building::made;
use crate::c_steps::{OfPieces, OfStream, OfTable, Step, goes_so};
use liblex_calls::Answer;
use std::alloc::Global;
use std::test::Fail;

/// What is shown, the text of which a program has the table file, and what it does.
type Program = (&'static str, &'static [u8], &'static [Step]);

const TEXT: &[u8] =
    b"%option stack\n%x C\n%%\n[0-9]+ printf(\"N\");\nstop exit(3);\n\"(\" yy_push_state(C);\n<C>. yy_pop_state();\n\")\" yy_pop_state();\n";

const LOADED: &[u8] = b"%%\n[0-9]+ printf(\"N\");\nstop exit(3);\n";

const NAMED: &[u8] =
    b"%%\na ECHO; puts(\"TOKEN\"); puts(\"OTHER\");\nb ECHO;\nc |\nd printf(\"int\");\ne puts(\"a-b\");\n";

/// Scans by pieces.
fn by_pieces() -> &'static [Program] {
    const PROGRAMS: &[Program] = &[
        (
            "what the pieces decide is handed out",
            TEXT,
            &[
                Step::Pieces(OfPieces::Open(Answer::Done)),
                Step::Pieces(OfPieces::Feed(b"a1", 16, Answer::Done, b"a")),
                Step::Pieces(OfPieces::Feed(b"", 16, Answer::Done, b"")),
                Step::Pieces(OfPieces::Feed(b"2 b\n", 16, Answer::Done, b"N b\n")),
                Step::Pieces(OfPieces::Finish(16, Answer::Done, b"", 0)),
            ],
        ),
        (
            "what the buffer has no room for waits",
            TEXT,
            &[
                Step::Pieces(OfPieces::Open(Answer::Done)),
                Step::Pieces(OfPieces::Feed(b"xyz", 2, Answer::TooSmall, b"xyz")),
                Step::Pieces(OfPieces::Feed(b"", 0, Answer::TooSmall, b"z")),
                Step::Pieces(OfPieces::Feed(b"", 1, Answer::Done, b"z")),
                Step::Pieces(OfPieces::Feed(b"", 1, Answer::Done, b"")),
                Step::Pieces(OfPieces::Finish(16, Answer::Done, b"", 0)),
            ],
        ),
        (
            "what waits grows from piece to piece, and none of it is lost",
            TEXT,
            &[
                Step::Pieces(OfPieces::Open(Answer::Done)),
                Step::Pieces(OfPieces::Feed(b"", 0, Answer::Done, b"")),
                Step::Pieces(OfPieces::Feed(b"xy", 0, Answer::TooSmall, b"xy")),
                Step::Pieces(OfPieces::Feed(b"z1", 0, Answer::TooSmall, b"xyz")),
                Step::Pieces(OfPieces::Feed(b"", 0, Answer::TooSmall, b"xyz")),
                Step::Pieces(OfPieces::Feed(b"2-", 2, Answer::TooSmall, b"xyzN-")),
                Step::Pieces(OfPieces::Feed(b"", 0, Answer::TooSmall, b"zN-")),
                Step::Pieces(OfPieces::Feed(b"", 3, Answer::Done, b"zN-")),
                Step::Pieces(OfPieces::Feed(b"", 0, Answer::Done, b"")),
                Step::Pieces(OfPieces::Finish(0, Answer::Done, b"", 0)),
            ],
        ),
    ];
    PROGRAMS
}

/// Scans by pieces that end or fail.
fn by_pieces_to_an_end() -> &'static [Program] {
    const PROGRAMS: &[Program] = &[
        (
            "what waits comes before the end that the rules make, which is then answered again, whatever more is fed",
            TEXT,
            &[
                Step::Pieces(OfPieces::Open(Answer::Done)),
                Step::Pieces(OfPieces::Feed(b"a stop!", 0, Answer::TooSmall, b"a ")),
                Step::Pieces(OfPieces::Feed(b"b", 1, Answer::TooSmall, b"a ")),
                Step::Pieces(OfPieces::Feed(b"b", 0, Answer::TooSmall, b" ")),
                Step::Pieces(OfPieces::Finish(0, Answer::TooSmall, b" ", 3)),
                Step::Pieces(OfPieces::Finish(1, Answer::Done, b" ", 3)),
                Step::Pieces(OfPieces::Finish(0, Answer::Done, b"", 3)),
            ],
        ),
        (
            "what waits comes before a fault of the stack",
            TEXT,
            &[
                Step::Pieces(OfPieces::Open(Answer::Done)),
                Step::Pieces(OfPieces::Feed(b"ab)c", 0, Answer::TooSmall, b"ab")),
                Step::Pieces(OfPieces::Feed(b"c", 1, Answer::TooSmall, b"ab")),
                Step::Pieces(OfPieces::Feed(b"c", 1, Answer::Stack, b"b")),
                Step::Pieces(OfPieces::Feed(b"", 0, Answer::Stack, b"")),
                Step::Pieces(OfPieces::Finish(16, Answer::Stack, b"", 0)),
                Step::Pieces(OfPieces::Finish(0, Answer::Stack, b"", 0)),
            ],
        ),
        (
            "what waits comes before the end of the input, and before what the rules write there",
            TEXT,
            &[
                Step::Pieces(OfPieces::Open(Answer::Done)),
                Step::Pieces(OfPieces::Feed(b"ab12", 1, Answer::TooSmall, b"ab")),
                Step::Pieces(OfPieces::Finish(0, Answer::TooSmall, b"bN", 0)),
                Step::Pieces(OfPieces::Finish(1, Answer::TooSmall, b"bN", 0)),
                Step::Pieces(OfPieces::Finish(1, Answer::Done, b"N", 0)),
                Step::Pieces(OfPieces::Finish(16, Answer::Done, b"", 0)),
            ],
        ),
    ];
    PROGRAMS
}

/// Scans by pieces that are fed after their end.
fn by_pieces_after_an_end() -> &'static [Program] {
    const PROGRAMS: &[Program] = &[
        (
            "an end by the rules is answered again",
            TEXT,
            &[
                Step::Pieces(OfPieces::Open(Answer::Done)),
                Step::Pieces(OfPieces::Feed(b"a stop!", 16, Answer::Ended, b"a ")),
                Step::Pieces(OfPieces::Feed(b"1 stop", 16, Answer::Ended, b"")),
                Step::Pieces(OfPieces::Finish(16, Answer::Done, b"", 3)),
            ],
        ),
        (
            "a fault of the stack is answered again",
            TEXT,
            &[
                Step::Pieces(OfPieces::Open(Answer::Done)),
                Step::Pieces(OfPieces::Feed(b"a)b", 16, Answer::Stack, b"a")),
                Step::Pieces(OfPieces::Feed(b"b", 16, Answer::Stack, b"")),
                Step::Pieces(OfPieces::Finish(16, Answer::Stack, b"", 0)),
            ],
        ),
        (
            "a piece that comes after the end was told counts for nothing, while bytes wait and later",
            TEXT,
            &[
                Step::Pieces(OfPieces::Open(Answer::Done)),
                Step::Pieces(OfPieces::Feed(b"a12", 0, Answer::TooSmall, b"a")),
                Step::Pieces(OfPieces::Finish(1, Answer::TooSmall, b"aN", 0)),
                Step::Pieces(OfPieces::Feed(b"3", 0, Answer::TooSmall, b"N")),
                Step::Pieces(OfPieces::Finish(1, Answer::Done, b"N", 0)),
                Step::Pieces(OfPieces::Feed(b"3", 16, Answer::Ended, b"")),
                Step::Pieces(OfPieces::Finish(16, Answer::Done, b"", 0)),
            ],
        ),
    ];
    PROGRAMS
}

/// Lists of tokens of an input: a series of them stops before a rule that does more than write or begin a condition.
fn lists() -> &'static [Program] {
    const PROGRAMS: &[Program] = &[
        (
            "the longest match is rejected, and the next one carried out",
            b"%%\na ;\nbc REJECT;\nb ;\nc ;\n",
            &[Step::List((
                b"aabcaa",
                Answer::Done,
                &[
                    (0, 1, 0),
                    (1, 2, 0),
                    (2, 3, 2),
                    (3, 4, 3),
                    (4, 5, 0),
                    (5, 6, 0),
                ],
                0,
            ))],
        ),
        (
            "what a match gives back is scanned again",
            b"%%\na ;\nb/cc ;\nc ;\n",
            &[Step::List((
                b"aabccaa",
                Answer::Done,
                &[
                    (0, 1, 0),
                    (1, 2, 0),
                    (2, 3, 1),
                    (3, 4, 2),
                    (4, 5, 2),
                    (5, 6, 0),
                    (6, 7, 0),
                ],
                0,
            ))],
        ),
        (
            "the end of the input has a rule",
            b"%%\na ;\n<<EOF>> exit(3);\n",
            &[Step::List((b"aaa", Answer::Done, &[(0, 1, 0), (1, 2, 0), (2, 3, 0)], 3))],
        ),
        (
            "the stack is at fault behind three tokens",
            b"%option stack\n%%\na ;\nb yy_pop_state();\n",
            &[Step::List((
                b"aaaba",
                Answer::Stack,
                &[(0, 1, 0), (1, 2, 0), (2, 3, 0)],
                0,
            ))],
        ),
        (
            "a token begins before the end of the one before it, and those behind it keep their places",
            b"%%\na+ yymore();\nb ;\nc ;\n",
            &[Step::List((
                b"cccaabccc",
                Answer::Done,
                &[
                    (0, 1, 2),
                    (1, 2, 2),
                    (2, 3, 2),
                    (3, 5, 0),
                    (3, 6, 1),
                    (6, 7, 2),
                    (7, 8, 2),
                    (8, 9, 2),
                ],
                0,
            ))],
        ),
        (
            "a long file is one",
            b"%%\n(a|b)*a(a|b){8} ;\n",
            &[
                Step::Scan((b"c", Answer::Done, b"c", 0)),
                Step::List((b"c", Answer::Done, &[(0, 1, u32::MAX)], 0)),
                Step::Pieces(OfPieces::Open(Answer::Done)),
            ],
        ),
    ];
    PROGRAMS
}

/// Calls by a table that is loaded once.
fn by_tables() -> &'static [Program] {
    const PROGRAMS: &[Program] = &[
        (
            "a table that is shared serves scans by pieces side by side once it is unloaded, a scan and a list of tokens",
            LOADED,
            &[
                Step::Table(OfTable::Load(Answer::Done)),
                Step::Table(OfTable::Share(Answer::Done)),
                Step::Pieces(OfPieces::OpenLoaded(Answer::Done)),
                Step::OtherPieces(OfPieces::OpenLoaded(Answer::Done)),
                Step::Table(OfTable::Unload),
                Step::Pieces(OfPieces::Feed(b"12", 0, Answer::Done, b"")),
                Step::Pieces(OfPieces::Finish(8, Answer::Done, b"N", 0)),
                Step::OtherPieces(OfPieces::Feed(b"b", 0, Answer::TooSmall, b"b")),
                Step::OtherPieces(OfPieces::Finish(8, Answer::Done, b"b", 0)),
                Step::Sharing(OfTable::Scan((b"a1 stop!", Answer::Done, b"aN ", 3))),
                Step::Sharing(OfTable::List((
                    b"a1 stop!",
                    Answer::Done,
                    &[(0, 1, u32::MAX), (1, 2, 0), (2, 3, u32::MAX), (3, 7, 1)],
                    3,
                ))),
            ],
        ),
        (
            "rules have the names that they put, and numbers that no rule has have none",
            NAMED,
            &[
                Step::Table(OfTable::Load(Answer::Done)),
                Step::Table(OfTable::Name(0, b"TOKEN")),
                Step::Table(OfTable::Name(1, b"")),
                Step::Table(OfTable::Name(2, b"int")),
                Step::Table(OfTable::Name(3, b"int")),
                Step::Table(OfTable::Name(4, b"")),
                Step::Table(OfTable::Name(5, b"")),
                Step::Table(OfTable::Name(u32::MAX, b"")),
            ],
        ),
    ];
    PROGRAMS
}

/// Streams of tokens.
fn by_streams() -> &'static [Program] {
    const PROGRAMS: &[Program] = &[
        (
            "more is wanted before the first piece, and pieces behind a fault count for nothing",
            b"%option stack\n%%\na ;\nb yy_pop_state();\n",
            &[
                Step::Stream(OfStream::Open(true, Answer::Done)),
                Step::Stream(OfStream::Answer(Answer::More)),
                Step::Stream(OfStream::Feed(b"", Answer::Done)),
                Step::Stream(OfStream::Answer(Answer::More)),
                Step::Stream(OfStream::Feed(b"aba", Answer::Done)),
                Step::Stream(OfStream::Tokens(&[(0, 0, 0, "a", 1, 1)])),
                Step::Stream(OfStream::Answer(Answer::Stack)),
                Step::Stream(OfStream::Feed(b"a", Answer::Stack)),
                Step::Stream(OfStream::End),
                Step::Stream(OfStream::Answer(Answer::Stack)),
            ],
        ),
        (
            "tokens that one piece decides come one by one, also where a piece and the end come between them",
            b"%%\n[a-z]+ ;\n[0-9]+ ;\n[ \\n] ;\n",
            &[
                Step::Stream(OfStream::Open(true, Answer::Done)),
                Step::Stream(OfStream::Feed(b"ab 12\ncd 3", Answer::Done)),
                Step::Stream(OfStream::Tokens(&[(0, 0, 0, "ab", 1, 1)])),
                Step::Stream(OfStream::Feed(b"4 ", Answer::Done)),
                Step::Stream(OfStream::Text(16, Answer::Done, b"ab")),
                Step::Stream(OfStream::Tokens(&[(2, 2, 0, " ", 1, 3), (1, 3, 0, "12", 1, 4)])),
                Step::Stream(OfStream::End),
                Step::Stream(OfStream::Text(16, Answer::Done, b"12")),
                Step::Stream(OfStream::Tokens(&[
                    (2, 5, 0, "\n", 1, 6),
                    (0, 6, 0, "cd", 2, 1),
                    (2, 8, 0, " ", 2, 3),
                    (1, 9, 0, "34", 2, 4),
                    (2, 11, 0, " ", 2, 6),
                ])),
                Step::Stream(OfStream::Answer(Answer::Ended)),
            ],
        ),
        (
            "two streams by one table go on once it is unloaded, and a text is handed out in parts",
            b"%%\n[a-z]+ ;\n",
            &[
                Step::Table(OfTable::Load(Answer::Done)),
                Step::Stream(OfStream::OpenLoaded(true, Answer::Done)),
                Step::OtherStream(OfStream::OpenLoaded(false, Answer::Done)),
                Step::Table(OfTable::Unload),
                Step::Stream(OfStream::Feed(b"abc 1", Answer::Done)),
                Step::Stream(OfStream::Tokens(&[(0, 0, 0, "abc", 1, 1)])),
                Step::Stream(OfStream::Text(2, Answer::TooSmall, b"abc")),
                Step::Stream(OfStream::Text(4, Answer::Done, b"abc")),
                Step::OtherStream(OfStream::Answer(Answer::More)),
                Step::OtherStream(OfStream::Close),
            ],
        ),
    ];
    PROGRAMS
}

/// Whether each program goes so by the table file of its text.
fn all_go_so(alloc: Global, programs: &[Program]) -> Result<bool, Fail> {
    let mut so = true;
    for &(_, text, steps) in programs {
        so = goes_so_by(alloc, text, steps)? && so;
    }
    Ok(so)
}

/// Whether a program goes so by the table file of a text.
fn goes_so_by(alloc: Global, text: &[u8], steps: &[Step]) -> Result<bool, Fail> {
    let file = made(alloc, text)?;
    Ok(goes_so(alloc, file.written(), steps))
}

#[test]
fn programs_go_so(rt: HostRuntime) -> Result<(), Fail> {
    let alloc = rt.alloc();
    let so = all_go_so(alloc, by_pieces())?
        && all_go_so(alloc, by_pieces_to_an_end())?
        && all_go_so(alloc, by_pieces_after_an_end())?
        && all_go_so(alloc, lists())?
        && all_go_so(alloc, by_tables())?
        && all_go_so(alloc, by_streams())?;
    assert!(rt; so);
    Ok(())
}
