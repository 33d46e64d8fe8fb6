//! Tests over the writer with a buffer.
use crate::long::{CAPACITY, dots, followed};
use lex_io::ByteWriter;
use std::alloc::{AllocError, Global};
use std::cell::{Cell, RefCell};
use std::io;
use std::io::{Error, ErrorKind, Write};
use std::test::Fail;

/// What a writer that drips took and has room for. The test looks on.
#[derive(Drop)]
struct Tally {
    taken: RefCell<Vec<u8>>,
    room: Cell<usize>,
    flushes: Cell<u8>,
}

impl Tally {
    /// Nothing taken yet, and room for so many bytes.
    fn new(alloc: Global, room: usize) -> Tally {
        Tally {
            taken: RefCell::new(Vec::new(alloc)),
            room: Cell::new(room),
            flushes: Cell::new(0),
        }
    }

    /// Whether these bytes were taken so far, after those before.
    fn has(&self, before: &[u8], bytes: &[u8]) -> bool {
        match self.taken.try_borrow() {
            Ok(taken) => taken.as_slice().strip_prefix(before) == Some(bytes),
            Err(_) => false,
        }
    }

    /// Whether nothing was taken.
    fn is_empty(&self) -> bool {
        self.has(b"", b"")
    }
}

/// Takes at most three bytes in one write, and no more than there is room for. Then it answers this kind of error, or
/// else that it took nothing.
#[derive(Drop)]
struct Drip<'a> {
    tally: &'a Tally,
    full: Option<ErrorKind>,
}

impl Write for Drip<'_> {
    fn write(&mut self, buf: &[u8]) -> io::Result<usize> {
        let room = self.tally.room.get();
        let count = buf.len().min(room).min(3);
        if count == 0 {
            return match self.full {
                None => Ok(0),
                Some(kind) => Err(Error::from(kind)),
            };
        }
        let Ok(mut taken) = self.tally.taken.try_borrow_mut() else {
            return Err(Error::from(ErrorKind::ResourceBusy));
        };
        taken.extend_from_slice(&buf[..count])?;
        self.tally.room.set(room - count);
        Ok(count)
    }

    fn flush(&mut self) -> io::Result<()> {
        let flushes = &self.tally.flushes;
        flushes.set(flushes.get().saturating_add(1));
        Ok(())
    }
}

/// Whether this many of the bytes are written.
fn writes(writer: &mut ByteWriter<Drip<'_>>, bytes: &[u8], want: usize) -> bool {
    match writer.write(bytes) {
        Ok(count) => count == want,
        Err(_) => false,
    }
}

/// Whether a write fails so.
fn refuses(writer: &mut ByteWriter<Drip<'_>>, bytes: &[u8], want: ErrorKind) -> bool {
    match writer.write(bytes) {
        Ok(_) => false,
        Err(error) => error.kind() == want,
    }
}

/// Whether a flush answers this.
fn flushes(writer: &mut ByteWriter<Drip<'_>>, want: Result<(), ErrorKind>) -> bool {
    match writer.flush() {
        Ok(()) => want.is_ok(),
        Err(error) => want == Err(error.kind()),
    }
}

// Bytes that there is room for once all but four bytes are taken, and how many of them are written.
// Nothing is poured then.
const HELD: &[(&[u8], usize)] = &[(b"abc", 3), (b"", 0), (b"d", 1)];

/// Whether what there is room for is taken, and nothing is poured.
fn holds(writer: &mut ByteWriter<Drip<'_>>, tally: &Tally) -> bool {
    let mut so = true;
    for &(bytes, count) in HELD {
        so = writes(writer, bytes, count) && tally.is_empty() && so;
    }
    so
}

/// Whether it is poured when it is full, and in a flush.
fn pours(writer: &mut ByteWriter<Drip<'_>>, tally: &Tally, dots: &[u8], long: &[u8]) -> bool {
    writes(writer, b"ef", 2)
        && tally.has(dots, b"abcd")
        && writes(writer, long, 3)
        && tally.has(dots, b"abcdefghi")
        && writes(writer, b"j", 1)
        && flushes(writer, Ok(()))
        && tally.has(dots, b"abcdefghij")
        && tally.flushes.get() == 1
}

/// Dots come first, so that it is full after a few bytes. More bytes than it may hold are handed on.
#[test]
fn pours_when_it_is_full_and_in_a_flush(rt: HostRuntime) -> Result<(), Fail> {
    let dots = dots(rt.alloc(), CAPACITY - 4)?;
    let long = followed(rt.alloc(), b"ghijk", &dots)?;
    let tally = Tally::new(rt.alloc(), usize::MAX);
    let drip = Drip {
        tally: &tally,
        full: None,
    };
    let mut writer = ByteWriter::new(rt.alloc(), drip)?;
    let held = writes(&mut writer, &dots, 65_532) && holds(&mut writer, &tally);
    assert!(rt; held && pours(&mut writer, &tally, &dots, &long));
    Ok(())
}

// What a full writer answers, and what is told.
const FAULTS: &[(Option<ErrorKind>, ErrorKind)] = &[
    (None, ErrorKind::WriteZero),
    (Some(ErrorKind::Interrupted), ErrorKind::Interrupted),
    (Some(ErrorKind::Other), ErrorKind::Other),
];

/// Whether a full writer refuses so, and what it did not take is poured later.
fn loses_nothing(
    writer: &mut ByteWriter<Drip<'_>>,
    tally: &Tally,
    dots: &[u8],
    want: ErrorKind,
) -> bool {
    let refused = writes(writer, dots, 65_528)
        && writes(writer, b"abcdefg", 7)
        && refuses(writer, b"hij", want)
        && tally.has(dots, b"abcde")
        && flushes(writer, Err(want))
        && writes(writer, b"hij", 3);
    tally.room.set(99);
    refused && flushes(writer, Ok(())) && tally.has(dots, b"abcdefghij")
}

/// Whether this holds of a writer over one that has room for all but some bytes, and then answers so.
fn loses_nothing_at(
    alloc: Global,
    dots: &[u8],
    full: Option<ErrorKind>,
    want: ErrorKind,
) -> Result<bool, AllocError> {
    let tally = Tally::new(alloc, 65_533);
    let drip = Drip {
        tally: &tally,
        full,
    };
    let mut writer = ByteWriter::new(alloc, drip)?;
    Ok(loses_nothing(&mut writer, &tally, dots, want))
}

/// What the writer behind it does not take stays held, and is poured later.
#[test]
fn loses_and_repeats_nothing_at_a_fault(rt: HostRuntime) -> Result<(), Fail> {
    let dots = dots(rt.alloc(), CAPACITY - 8)?;
    for &(full, want) in FAULTS {
        assert!(rt; loses_nothing_at(rt.alloc(), &dots, full, want)?);
    }
    Ok(())
}

const TEXT: &[u8] = b"a text of more than sixteen bytes";

/// How much of the text is written by a writer that is then dropped.
fn written(alloc: Global, taken: &mut Vec<u8>) -> io::Result<usize> {
    let mut writer = ByteWriter::new(alloc, taken)?;
    writer.write(TEXT)
}

#[test]
fn pours_when_it_is_dropped(rt: HostRuntime) -> Result<(), Fail> {
    let mut taken: Vec<u8> = Vec::new(rt.alloc());
    let count = written(rt.alloc(), &mut taken)?;
    assert!(rt; count == 33 && taken.as_slice() == TEXT);
    Ok(())
}
