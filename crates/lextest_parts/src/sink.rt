//! Tests over the sink that calls a writer.
ghost use Rattle.std.specs.Prelude.{◌≡◌, IfOk};

use lex_io::{Sink, ToWrite, WriteFault};
use std::alloc::Global;
use std::io;
use std::io::Write;

/// What a writer answers once its room is used up.
#[derive(Clone, Copy)]
enum Full {
    Nothing,
    Fault,
}

/// Takes at most two bytes in one write, and no more than it has room for. It can't flush.
#[derive(Drop)]
struct Drip {
    taken: Vec<u8>,
    room: usize,
    full: Full,
}

impl Write for Drip {
    fn write(&mut self, buf: &[u8]) -> io::Result<usize> {
        let count = buf.len().min(self.room).min(2);
        if count == 0 {
            return match self.full {
                Full::Nothing => Ok(0),
                Full::Fault => Err(io::Error::from(io::ErrorKind::Interrupted)),
            };
        }
        self.taken.extend_from_slice(&buf[..count])?;
        self.room -= count;
        Ok(count)
    }

    fn flush(&mut self) -> io::Result<()> {
        Err(io::Error::from(io::ErrorKind::Interrupted))
    }
}

/// A writer with room for so many bytes, that answers this where it is full.
fn dripping(alloc: Global, room: usize, full: Full) -> Drip {
    let taken = Vec::new(alloc);
    Drip { taken, room, full }
}

// How many bytes there is room for, what is answered then, whether all are written, and which.
const ROWS: &[(usize, Full, bool, &[u8])] = &[
    (9, Full::Fault, true, b"abcde"),
    (5, Full::Nothing, true, b"abcde"),
    (3, Full::Nothing, false, b"abc"),
    (4, Full::Fault, false, b"abcd"),
];

/// Whether all of five bytes are written into this room or not, and these are.
fn writes_so(alloc: Global, room: usize, full: Full, all: bool, written: &[u8]) -> bool {
    let mut sink = ToWrite::new(dripping(alloc, room, full));
    let so = sink.put(b"abcde").is_ok() == all;
    so && sink.into_inner().taken.as_slice() == written
}

#[test]
fn writes_all_or_tells_a_fault(rt: HostRuntime) {
    for &(room, full, all, written) in ROWS {
        assert!(rt; writes_so(rt.alloc(), room, full, all, written));
    }
}

/// Takes two bytes in a write. One of its writes fails, after so many that do not; those behind it work again.
#[derive(Drop)]
struct FailsOnce {
    taken: Vec<u8>,
    before: usize,
    failed: bool,
}

impl Write for FailsOnce {
    fn write(&mut self, buf: &[u8]) -> io::Result<usize> {
        if self.before == 0 && !self.failed {
            self.failed = true;
            return Err(io::Error::from(io::ErrorKind::Interrupted));
        }
        self.before = self.before.saturating_sub(1);
        let count = buf.len().min(2);
        self.taken.extend_from_slice(&buf[..count])?;
        Ok(count)
    }

    fn flush(&mut self) -> io::Result<()> {
        Ok(())
    }
}

/// Whether a fault after so many writes is told, and these bytes are written.
fn stops_so(alloc: Global, before: usize, written: &[u8]) -> bool {
    let taken = Vec::new(alloc);
    let mut sink = ToWrite::new(FailsOnce {
        taken,
        before,
        failed: false,
    });
    let so = sink.put(b"abcde").is_err();
    so && sink.into_inner().taken.as_slice() == written
}

/// A write that failed is not tried again, though it would work: nothing comes behind what was written before it.
#[test]
fn tries_no_failed_write_again(rt: HostRuntime) {
    const ROWS: &[(usize, &[u8])] = &[(0, b""), (1, b"ab"), (2, b"abcd")];
    for &(before, written) in ROWS {
        assert!(rt; stops_so(rt.alloc(), before, written));
    }
}

#[test]
fn tells_a_failed_flush(rt: HostRuntime) {
    let mut sink = ToWrite::new(dripping(rt.alloc(), 0, Full::Nothing));
    assert!(rt; sink.flush().is_err());
}

/// Over memory, whose bytes are known, what is held is what was put.
fn copied(alloc: Global, bytes: &[u8]) -> Result<Vec<u8>, WriteFault>
    ensures { IfOk result (λ copy. copy.items ≡ bytes.now) }
{
    let mut sink = ToWrite::new(Vec::new(alloc));
    sink.put(bytes)?;
    Ok(sink.into_inner())
}

/// Whether these bytes are copied.
fn is_copied(alloc: Global, bytes: &[u8]) -> bool {
    match copied(alloc, bytes) {
        Ok(copy) => copy.as_slice() == bytes,
        Err(_) => false,
    }
}

#[test]
fn keeps_the_bytes_in_memory(rt: HostRuntime) {
    assert!(rt; is_copied(rt.alloc(), b"abc"));
}
