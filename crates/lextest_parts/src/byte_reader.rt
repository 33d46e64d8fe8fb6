//! Tests over the reader with a buffer.
use crate::counted::Asked;
use crate::long::{FIRST, dots, followed};
use crate::script::{Reply, Script};
use lex_io::{ByteReader, FromRead};
use std::alloc::{AllocError, Global};
use std::io::{ErrorKind, Read};
use std::test::Fail;

const REPLIES: &[Reply] = &[
    Reply::Bytes(b"ab"),
    Reply::Fault(ErrorKind::Interrupted),
    Reply::Bytes(b"c"),
    Reply::Bytes(b""),
    Reply::Bytes(b"d"),
    Reply::Fault(ErrorKind::Other),
];

const WANTS: &[Result<&[u8], ErrorKind>] = &[
    Ok(b"a"),
    Ok(b"b"),
    Err(ErrorKind::Interrupted),
    Ok(b"c"),
    Ok(b""),
    Ok(b"d"),
    Err(ErrorKind::Other),
    Ok(b""),
];

/// Whether a read into this much room answers this.
fn reads<R: Read>(reader: &mut ByteReader<R>, room: usize, want: Result<&[u8], ErrorKind>) -> bool {
    let mut place = [0u8; 4];
    match reader.read(&mut place[..room.min(4)]) {
        Ok(count) => want == Ok(&place[..count]),
        Err(error) => want == Err(error.kind()),
    }
}

/// Whether single bytes are read so.
fn reads_each<R: Read>(reader: &mut ByteReader<R>, wants: &[Result<&[u8], ErrorKind>]) -> bool {
    let mut so = true;
    for &want in wants {
        so = reads(reader, 1, want) && so;
    }
    so
}

#[test]
fn tells_each_answer_where_it_is_met(rt: HostRuntime) -> Result<(), Fail> {
    let mut reader = ByteReader::new(rt.alloc(), Script { replies: REPLIES })?;
    assert!(rt; reads_each(&mut reader, WANTS));
    Ok(())
}

#[test]
fn stands_below_a_source(rt: HostRuntime) -> Result<(), Fail> {
    let reader = ByteReader::new(rt.alloc(), b"a".as_slice())?;
    let mut source = Asked::new(FromRead::new(reader));
    assert!(rt; source.answers(&[Ok(Some(b'a')), Ok(None)]));
    Ok(())
}

/// Whether it reads a dot, and then drops dots until it gave this many.
fn drops<R: Read>(reader: &mut ByteReader<R>, dots: usize) -> bool {
    let first = reads(reader, 1, Ok(b"."));
    let rest = dots.saturating_sub(1);
    let may_drop = rest <= reader.ahead().len();
    if may_drop {
        reader.skip(rest);
    }
    first && may_drop
}

// How much room there is, and which bytes are given.
const ROOMS: &[(usize, &[u8])] = &[(1, b"a"), (4, b"bc"), (0, b""), (2, b"de"), (2, b"")];

/// Whether these bytes are given behind the dots.
fn gives<R: Read>(reader: &mut ByteReader<R>, rooms: &[(usize, &[u8])]) -> bool {
    let mut so = drops(reader, 4_093);
    for &(room, want) in rooms {
        so = reads(reader, room, Ok(want)) && so;
    }
    so
}

/// The text of the test: so many dots, and behind them what is given.
fn text_behind_dots(alloc: Global) -> Result<Vec<u8>, AllocError> {
    let dots = dots(alloc, FIRST - 3)?;
    followed(alloc, &dots, b"abcde")
}

/// The first buffer ends after three bytes behind the dots.
#[test]
fn gives_what_there_is_room_for(rt: HostRuntime) -> Result<(), Fail> {
    let text = text_behind_dots(rt.alloc())?;
    let mut reader = ByteReader::new(rt.alloc(), text.as_slice())?;
    assert!(rt; gives(&mut reader, ROOMS));
    Ok(())
}
