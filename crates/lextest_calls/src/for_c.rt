//! Calls that a program in C makes, each by a helper that makes it once. What they promise is left out, so that what calls them is proved
//! in less time.
use crate::c_rows::Row;
use liblex_calls::{
    Answer, LoadedTables, NextToken, Scan, TextFault, TextToken, TokenStream, end_stream,
    feed_into, feed_stream, finish_into, generate_into, next_token, open_stream, options_of,
    rule_lines_into, rule_name_into, scan_into, text_into, tokens_into, tokens_loaded,
};
use std::alloc::Global;

/// What is answered of a text, how long its file is, and its fault.
pub(crate) fn generate(alloc: Global, text: &[u8], file: &mut [u8]) -> (Answer, usize, TextFault) {
    let mut count = 0;
    let mut fault = TextFault {
        line: 0,
        kind: 0,
        place: 0,
    };
    let answer = generate_into(alloc, text, options_of(0), file, &mut count, &mut fault);
    (answer, count, fault)
}

/// What is answered of the lines of a text's rules, and how many there are.
pub(crate) fn lines(alloc: Global, text: &[u8], lines: &mut [u32]) -> (Answer, usize) {
    let mut count = 9;
    let answer = rule_lines_into(alloc, text, options_of(0), lines, &mut count);
    (answer, count)
}

/// A token of INITIAL.
pub(crate) fn token(start: usize, end: usize, rule: u32) -> TextToken {
    TextToken {
        start,
        end,
        rule,
        condition: 0,
    }
}

/// The token of a buffer that nothing was written to.
pub(crate) const NO_TOKEN: TextToken = TextToken {
    start: 0,
    end: 0,
    rule: 0,
    condition: 0,
};

/// Where a token begins and ends, and its rule.
pub(crate) type Place = (usize, usize, u32);

/// Whether just these tokens, of INITIAL, stand at the front of a buffer.
pub(crate) fn are_listed(tokens: &[TextToken], wanted: &[Place]) -> bool {
    for (i, listed) in tokens.iter().enumerate() {
        let at = match wanted.get(i) {
            Some(&(start, end, rule)) => token(start, end, rule),
            None => NO_TOKEN,
        };
        if *listed != at {
            return false;
        }
    }
    wanted.len() <= tokens.len()
}

/// What is answered of the tokens of an input, how many there are, and the status.
pub(crate) fn list(
    alloc: Global,
    file: &[u8],
    input: &[u8],
    tokens: &mut [TextToken],
) -> (Answer, usize, u8) {
    let mut count = 9;
    let mut status = 9;
    let answer = tokens_into(alloc, file, input, tokens, &mut count, &mut status);
    (answer, count, status)
}

/// The same by a table that is loaded.
pub(crate) fn list_by(
    alloc: Global,
    tables: &mut LoadedTables,
    input: &[u8],
    tokens: &mut [TextToken],
) -> (Answer, usize, u8) {
    let mut count = 9;
    let mut status = 9;
    let answer = tokens_loaded(alloc, tables, input, tokens, &mut count, &mut status);
    (answer, count, status)
}

/// What is answered of a scan of an input, how many bytes are written, and the status.
pub(crate) fn scan(
    alloc: Global,
    file: &[u8],
    input: &[u8],
    out: &mut [u8],
) -> (Answer, usize, u8) {
    let mut count = 9;
    let mut status = 9;
    let answer = scan_into(alloc, file, input, out, &mut count, &mut status);
    (answer, count, status)
}

/// The byte that buffers are filled with.
pub(crate) const UNTOUCHED: u8 = 7;

/// Whether these bytes were handed out into a buffer of this room, whose next byte is as it was.
pub(crate) fn holds(buffer: &[u8], room: usize, count: usize, out: &[u8]) -> bool {
    let handed = count.min(room);
    let next = buffer.get(handed).copied().unwrap_or(UNTOUCHED);
    count == out.len() && buffer.get(..handed) == out.get(..handed) && next == UNTOUCHED
}

/// Whether this is the name of a rule.
pub(crate) fn has_name(alloc: Global, tables: &mut LoadedTables, rule: u32, name: &[u8]) -> bool {
    let mut out = [UNTOUCHED; 8];
    let mut count = 9;
    let answer = rule_name_into(alloc, tables, rule, &mut out, &mut count);
    answer == Answer::Done && holds(&out, 8, count, name)
}

/// Whether a piece is answered so, and hands these bytes out into a buffer of this room, 4,096 at most.
pub(crate) fn feeds(
    alloc: Global,
    scan: &mut Scan,
    piece: &[u8],
    room: usize,
    answer: Answer,
    out: &[u8],
) -> bool {
    let mut buffer = [UNTOUCHED; 4_096];
    let mut count = 99;
    let room = room.min(4_096);
    let got = feed_into(alloc, scan, piece, &mut buffer[..room], &mut count);
    got == answer && holds(&buffer, room, count, out)
}

/// Whether the end is answered so, and hands these bytes out into a buffer of this room, 16 at most.
pub(crate) fn finishes(
    alloc: Global,
    scan: &mut Scan,
    room: usize,
    answer: Answer,
    out: &[u8],
    status: u8,
) -> bool {
    let mut buffer = [UNTOUCHED; 16];
    let mut count = 99;
    let mut ended = 99;
    let room = room.min(16);
    let got = finish_into(alloc, scan, &mut buffer[..room], &mut count, &mut ended);
    got == answer && ended == status && holds(&buffer, room, count, out)
}

/// Whether the opening of a stream of tokens is answered so.
pub(crate) fn opens(
    alloc: Global,
    stream: &mut TokenStream,
    file: &[u8],
    lines: bool,
    answer: Answer,
) -> bool {
    open_stream(alloc, stream, file, lines) == answer
}

/// Whether a piece for a stream is answered so.
pub(crate) fn takes(alloc: Global, stream: &mut TokenStream, piece: &[u8], answer: Answer) -> bool {
    feed_stream(alloc, stream, piece) == answer
}

/// Whether a stream is told its end.
pub(crate) fn ends(alloc: Global, stream: &mut TokenStream) -> bool {
    end_stream(alloc, stream) == Answer::Done
}

/// Whether a text is shown so in a buffer of this room, 16 at most.
pub(crate) fn shows(stream: &mut TokenStream, room: usize, answer: Answer, text: &[u8]) -> bool {
    let mut buffer = [UNTOUCHED; 16];
    let mut count = 99;
    let room = room.min(16);
    let got = text_into(stream, &mut buffer[..room], &mut count);
    got == answer && holds(&buffer, room, count, text)
}

const NO_NEXT: NextToken = NextToken {
    start: 99,
    length: 99,
    rule: 99,
    condition: 99,
    line: 99,
    column: 99,
};

/// What comes next, and the status.
fn next(stream: &mut TokenStream) -> (Answer, NextToken, u8) {
    let mut token = NO_NEXT;
    let mut status = 99;
    let answer = next_token(stream, &mut token, &mut status);
    (answer, token, status)
}

/// Whether this token comes next, with its text, and its line and column, where these are counted.
fn tells(stream: &mut TokenStream, row: Row, lines: bool) -> bool {
    let (rule, start, condition, text, line, column) = row;
    let wanted = NextToken {
        start,
        length: text.len(),
        rule,
        condition,
        line: if lines { line } else { 0 },
        column: if lines { column } else { 0 },
    };
    next(stream) == (Answer::Done, wanted, 0) && shows(stream, 16, Answer::Done, text.as_bytes())
}

/// How many of these tokens have come once those come that are decided, after as many as came before.
pub(crate) fn count_told(
    stream: &mut TokenStream,
    rows: &[Row],
    before: usize,
    lines: bool,
) -> usize {
    for (count, &row) in rows.iter().enumerate() {
        if count >= before && !tells(stream, row, lines) {
            return count;
        }
    }
    rows.len()
}

/// Whether these tokens come next, with their lines and columns.
pub(crate) fn tells_all(stream: &mut TokenStream, rows: &[Row]) -> bool {
    count_told(stream, rows, 0, true) == rows.len()
}

/// Whether no token comes next, but this answer, with this status, twice.
pub(crate) fn answers(stream: &mut TokenStream, wanted: Answer, status: u8) -> bool {
    let mut so = true;
    for _ in 0..2u32 {
        so = so && next(stream) == (wanted, NO_NEXT, status);
        so = so && shows(stream, 16, Answer::Done, b"");
    }
    so
}
