//! What a program in C is told of each kind of refusal. No contract says that a refusal is not told as want of memory;
//! here there is ample. The texts are those of docs/MANUAL.md, with the lines and the places that it has of them. The numbers are those
//! of include/lex.h.
use crate::building::{made, repeated};
use crate::c_steps::{OfPieces, OfStream, OfTable, Step, goes_so};
use crate::for_c::{generate, lines};
use crate::table_files::conditions;
use liblex_calls::{Answer, TextFault};
use std::alloc::{AllocError, Global};
use std::test::Fail;

/// A text, and the line, the kind and the place that are told of it.
type Refused = (&'static [u8], u32, u32, usize);

/// Whether a text is refused so. Its lines of rules are too, unless only the automaton passes a limit: then it has a rule, in line 2.
/// The buffer for them begins with 7.
fn is_refused(alloc: Global, text: &[u8], line: u32, kind: u32, place: usize) -> bool {
    let mut buffer = [7u32; 1];
    let (answer, _, fault) = generate(alloc, text, &mut [0u8; 8]);
    let (told, count) = lines(alloc, text, &mut buffer);
    let listed = if kind < 201 {
        (Answer::Refused, 0, 7)
    } else {
        (Answer::Done, 1, 2)
    };
    (answer, fault) == (Answer::Refused, TextFault { line, kind, place })
        && (told, count, buffer[0]) == listed
}

/// Refusals of definitions, of conditions and of where patterns end.
fn of_lines() -> &'static [Refused] {
    const ROWS: &[Refused] = &[
        (b"", 1, 1, 0),
        (b"D [0-9]\n", 2, 1, 0),
        (b"foo\n%%\n", 1, 2, 0),
        (b"D [0-9]\nD a\n%%\n", 2, 3, 0),
        (b"%x INITIAL\n%%\n", 1, 4, 0),
        (b"%%\n<Z>a ;\n", 2, 5, 0),
        (b"%%\na*/b* ;\n", 2, 6, 0),
        (b"%%\na/b$ ;\n", 2, 7, 0),
        (b"A ^a\n%%\n", 1, 8, 0),
        (b"%%\n<<EOF>>x ;\n", 2, 9, 0),
        (b"%%\n<<EOF>> ;\n<<EOF>> ;\n", 3, 10, 0),
        (b"%%\na return 1;\n", 2, 11, 0),
        (b"%%\na yyless(1); yymore();\n", 2, 12, 0),
    ];
    ROWS
}

/// Refusals of actions and options.
fn of_actions() -> &'static [Refused] {
    const ROWS: &[Refused] = &[
        (b"%%\na yymore(); REJECT;\n", 2, 13, 0),
        (b"%%\na REJECT; ECHO;\n", 2, 14, 0),
        (b"%%\n<<EOF>> ECHO;\n", 2, 15, 0),
        (b"%%\na yyless(0);\n", 2, 16, 0),
        (b"%%\na exit(64);\n", 2, 17, 0),
        (b"%%\na { ECHO;\n", 2, 18, 0),
        (b"%%\na |\n", 2, 19, 0),
        (b"%option reentrant\n%%\n", 1, 20, 0),
    ];
    ROWS
}

/// Refusals of patterns. Where only the automaton passes a limit, no line is at fault.
fn of_patterns() -> &'static [Refused] {
    const ROWS: &[Refused] = &[
        (b"%%\n\"a ;\n", 2, 101, 0),
        (b"%%\n[a ;\n", 2, 102, 0),
        (b"%%\n[z-a] ;\n", 2, 103, 1),
        (b"%%\n[^\\0-\\377] ;\n", 2, 104, 0),
        (b"%%\n[[:foo:]] ;\n", 2, 105, 1),
        (b"%%\n[[=a=]] ;\n", 2, 106, 1),
        (b"%%\n\\400 ;\n", 2, 107, 0),
        (b"%%\na{2,1} ;\n", 2, 108, 1),
        (b"%%\na) ;\n", 2, 109, 1),
        (b"%%\n*a ;\n", 2, 110, 0),
        (b"%%\n{x} ;\n", 2, 111, 0),
        (b"x a{x}\n%%\n{x} ;\n", 3, 112, 0),
        (b"%%\n(a/b) ;\n", 2, 115, 2),
        (b"%%\n(a{255}){65} ;\n", 0, 201, 0),
        (b"%%\n(a|b)*a(a|b){14} ;\n", 0, 202, 0),
    ];
    ROWS
}

/// Whether each text is refused so.
fn all_are_refused(alloc: Global, rows: &[Refused]) -> bool {
    let mut so = true;
    for &(text, line, kind, place) in rows {
        so = is_refused(alloc, text, line, kind, place) && so;
    }
    so
}

#[test]
fn tells_each_refusal_of_a_text(rt: HostRuntime) {
    assert!(rt; all_are_refused(rt.alloc(), of_lines()));
    assert!(rt; all_are_refused(rt.alloc(), of_actions()));
    assert!(rt; all_are_refused(rt.alloc(), of_patterns()));
}

/// A part of a text and how often it stands there, what stands after it, and the line, the kind and the place that are told.
type Long = (&'static [u8], usize, &'static [u8], u32, u32, usize);

/// Whether the text of a row is refused so.
fn is_long_refused(alloc: Global, row: &Long) -> Result<bool, AllocError> {
    let &(part, times, after, line, kind, place) = row;
    let text = repeated(alloc, b"%%\n", part, times, after)?;
    Ok(is_refused(alloc, &text, line, kind, place))
}

/// Whether a text of more conditions than there may be is refused so.
fn are_too_many(alloc: Global) -> Result<bool, AllocError> {
    let text = conditions(alloc, 255)?;
    Ok(is_refused(alloc, &text, 1, 22, 0))
}

#[test]
fn tells_each_limit_of_a_specification(rt: HostRuntime) -> Result<(), Fail> {
    const ROWS: &[Long] = &[
        (b"a ;\n", 4_097, b"", 4_098, 21, 0),
        (b"\n", 1_048_574, b"", 0, 23, 0),
        (b"(", 65, b"a ;\n", 2, 113, 64),
        (b"a", 65_536, b" ;\n", 2, 114, 65_535),
    ];
    for row in ROWS {
        assert!(rt; is_long_refused(rt.alloc(), row)?);
    }
    assert!(rt; are_too_many(rt.alloc())?);
    Ok(())
}

/// Each call that reads a table file, and refuses these bytes, which are none.
const REFUSING: &[Step] = &[
    Step::Scan((b"a", Answer::Refused, b"", 0)),
    Step::List((b"a", Answer::Refused, &[], 0)),
    Step::Pieces(OfPieces::Open(Answer::Refused)),
    Step::Stream(OfStream::Open(true, Answer::Refused)),
    Step::Table(OfTable::Load(Answer::Refused)),
];

/// Whether no front of a file is one.
fn no_front_is_one(alloc: Global, file: &[u8]) -> bool {
    let mut so = true;
    for (n, _) in file.iter().enumerate() {
        so = goes_so(alloc, &file[..n], REFUSING) && so;
    }
    so
}

/// Whether a file with other bytes from a place on, or from its end on, is none.
fn is_none_changed(alloc: Global, file: &[u8], at: usize, put: &[u8]) -> Result<bool, AllocError> {
    let (before, rest) = file.split_at(at.min(file.len()));
    let after = rest.get(put.len()..).unwrap_or_default();
    let changed = repeated(alloc, before, put, 1, after)?;
    Ok(goes_so(alloc, &changed, REFUSING))
}

/// Whether no changed file is one: with another name, with a version that is none and with too many conditions, and with a byte more.
fn no_change_is_one(alloc: Global, file: &[u8]) -> Result<bool, AllocError> {
    const CHANGES: &[(usize, &[u8])] = &[
        (0, b"M"),
        (6, b"\0\x03"),
        (8, b"\0\0\x01\0"),
        (usize::MAX, b"\0"),
    ];
    for &(at, put) in CHANGES {
        if !is_none_changed(alloc, file, at, put)? {
            return Ok(false);
        }
    }
    Ok(true)
}

/// A file that is cut short or changed, as docs/TABLE-FORMAT.md has these.
#[test]
fn tells_each_refusal_of_a_table_file(rt: HostRuntime) -> Result<(), Fail> {
    let file = made(rt.alloc(), b"%%\na ;\n")?;
    let bytes = file.written();
    let so = no_front_is_one(rt.alloc(), bytes) && no_change_is_one(rt.alloc(), bytes)?;
    assert!(rt; so && !goes_so(rt.alloc(), bytes, REFUSING));
    Ok(())
}
