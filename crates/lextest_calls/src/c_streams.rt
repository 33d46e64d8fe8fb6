//! Streams of tokens as a program in C calls them: the same tokens from pieces of any size. Streams and lists of tokens where memory is
//! refused.
use crate::building::made;
use crate::c_rows::{self, DEFAULT, Row, Scan};
use crate::for_c::{
    NO_TOKEN, answers, are_listed, count_told, ends, list_by, opens, takes, tells_all,
};
use liblex_calls::{Answer, LoadedTables, TokenStream, feed_stream, load_tables, open_stream};
use std::alloc::Global;
use std::test::Fail;

/// Whether a stream has ended, and tells that again, also where it is fed.
fn stays_ended(alloc: Global, stream: &mut TokenStream, status: u8) -> bool {
    answers(stream, Answer::Ended, status)
        && takes(alloc, stream, b"1", Answer::Ended)
        && answers(stream, Answer::Ended, status)
}

/// Whether a stream is told its end, twice, and then takes no piece, twice, also where tokens are still to come.
fn is_at_end(alloc: Global, stream: &mut TokenStream) -> bool {
    ends(alloc, stream)
        && takes(alloc, stream, b"1", Answer::Ended)
        && ends(alloc, stream)
        && takes(alloc, stream, b"1", Answer::Ended)
}

/// Whether a piece is taken, or the scan has ended.
fn is_fed(alloc: Global, stream: &mut TokenStream, piece: &[u8]) -> bool {
    let fed = feed_stream(alloc, stream, piece);
    fed == Answer::Done || fed == Answer::Ended
}

/// Whether the input of a scan has its tokens in pieces of a size, and ends with its status.
fn streams(alloc: Global, file: &[u8], scan: &Scan, size: usize, lines: bool) -> bool {
    let &(_, input, rows, status) = scan;
    let mut stream = TokenStream::closed();
    let mut so = opens(alloc, &mut stream, file, lines, Answer::Done);
    let mut told = 0;
    for piece in input.chunks(size.max(1)) {
        so = is_fed(alloc, &mut stream, piece) && so;
        told = count_told(&mut stream, rows, told, lines);
    }
    so = is_at_end(alloc, &mut stream) && so;
    told = count_told(&mut stream, rows, told, lines);
    so = so && told == rows.len() && stays_ended(alloc, &mut stream, status);
    stream.close(alloc);
    so
}

/// Whether it has them in pieces of any size, with lines and columns and without.
fn streams_in_pieces(alloc: Global, scan: &Scan) -> Result<bool, Fail> {
    const SIZES: &[usize] = &[1, 2, 7, 4_096];
    let file = made(alloc, scan.0)?;
    let mut so = true;
    for &size in SIZES {
        so = streams(alloc, file.written(), scan, size, true) && so;
        so = streams(alloc, file.written(), scan, size, false) && so;
    }
    Ok(so)
}

/// Whether each of some scans does.
fn all_stream_in_pieces(alloc: Global, scans: &[Scan]) -> Result<bool, Fail> {
    let mut so = true;
    for scan in scans {
        so = streams_in_pieces(alloc, scan)? && so;
    }
    Ok(so)
}

#[test]
fn pieces_of_any_size_have_the_same_tokens(rt: HostRuntime) -> Result<(), Fail> {
    let alloc = rt.alloc();
    let so = all_stream_in_pieces(alloc, c_rows::first())?
        && all_stream_in_pieces(alloc, c_rows::second())?
        && all_stream_in_pieces(alloc, c_rows::third())?
        && all_stream_in_pieces(alloc, c_rows::fourth())?
        && all_stream_in_pieces(alloc, c_rows::fifth())?
        && all_stream_in_pieces(alloc, c_rows::sixth())?
        && all_stream_in_pieces(alloc, c_rows::seventh())?;
    assert!(rt; so);
    Ok(())
}

/// Whether a piece is taken. One that is refused since memory ran out is fed once more.
fn is_taken(alloc: Global, stream: &mut TokenStream, piece: &[u8]) -> bool {
    match feed_stream(alloc, stream, piece) {
        Answer::Done => true,
        Answer::OutOfMemory => takes(alloc, stream, piece, Answer::Done),
        _ => false,
    }
}

/// Whether a stream has all its tokens, or stops at a request for memory that was refused, which is told again.
fn has_all_or_stops(alloc: Global, stream: &mut TokenStream) -> bool {
    const ROWS: &[Row] = &[
        (0, 0, 0, "abc", 1, 1),
        (DEFAULT, 3, 0, "\n", 1, 4),
        (0, 4, 0, "d", 2, 1),
    ];
    let is_fed = is_taken(alloc, stream, b"ab")
        && is_taken(alloc, stream, b"c")
        && is_taken(alloc, stream, b"\nd")
        && ends(alloc, stream);
    let told = tells_all(stream, ROWS);
    let stops = answers(stream, Answer::OutOfMemory, 0);
    is_fed && (stops || told && answers(stream, Answer::Ended, 0))
}

/// The same of a stream that is opened, unless memory runs out there.
fn streams_or_stops(alloc: Global, file: &[u8]) -> bool {
    let mut stream = TokenStream::closed();
    let so = match open_stream(alloc, &mut stream, file, true) {
        Answer::Done => has_all_or_stops(alloc, &mut stream),
        answer => answer == Answer::OutOfMemory,
    };
    stream.close(alloc);
    so
}

#[test]
fn refused_streams(rt: HostRuntime) -> Result<(), Fail> {
    let file = made(rt.alloc(), b"%%\n[a-z]+ ;\n")?;
    assert!(rt; streams_or_stops(rt.alloc(), file.written()));
    Ok(())
}

/// Whether tokens are listed by a loaded table, or memory ran out and nothing was handed out.
fn lists_or_stops(alloc: Global, file: &[u8]) -> bool {
    let mut tables = LoadedTables::unloaded();
    let mut out = [NO_TOKEN; 4];
    let loaded = load_tables(alloc, &mut tables, file);
    let (answer, count, status) = list_by(alloc, &mut tables, b"a12stop!", &mut out);
    tables.unload(alloc);
    if answer == Answer::Done {
        let wanted = &[(0, 1, u32::MAX), (1, 3, 0), (3, 7, 1)];
        return (count, status) == (3, 3) && are_listed(&out, wanted);
    }
    let stopped = answer == Answer::OutOfMemory || loaded == Answer::OutOfMemory;
    stopped && (count, status, out[0]) == (0, 0, NO_TOKEN)
}

#[test]
fn refused_tokens(rt: HostRuntime) -> Result<(), Fail> {
    let text = b"%%\n[0-9]+ printf(\"N\");\nstop exit(3);\n";
    let file = made(rt.alloc(), text)?;
    assert!(rt; lists_or_stops(rt.alloc(), file.written()));
    Ok(())
}
