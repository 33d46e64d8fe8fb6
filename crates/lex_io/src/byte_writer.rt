//! A writer with a buffer, made for short writes.
ghost use Rattle.std.specs.Prelude.{◌≡◌, ◌+◌, ◌-◌, ◌≤◌, [], ◌++◌, length, take, drop, IfOk, true, false, nat_le};
ghost use Rattle.std.specs.Prelude.{OnOk, OnErr, IfSome, IfNone, IsSome, MatchOption, vec_len, vec_capacity};
ghost use Rattle.std.specs.Io.{WritesAtMost};
ghost use Rattle.std.specs.Io.KnownBytes.{Appends, Keeps, WriteAppends};

use crate::buffer;
use crate::copying::copy_to;
use std::alloc::{AllocError, Global};
use std::io;
use std::io::Write;

/// The bytes that wait: those of the buffer up to `end`. The buffer is made longer as they need it, in memory that was
/// taken at the start: what is never written to is never touched.
#[derive(Drop)]
struct Held {
    buffer: Vec<u8>,
    end: usize,
    /// How long the buffer may become.
    capacity: usize,
    ghost in_bounds: { end ≤ vec_len buffer },
    ghost within: { vec_len buffer ≤ capacity },
    ghost taken: { capacity ≤ vec_capacity buffer },
}

impl Held {
    /// Nothing, with room for this many bytes. All its memory is taken here.
    fn with_capacity(alloc: Global, capacity: usize) -> Result<Held, AllocError>
        ensures empty { IfOk result (λ held. held.end ≡ 0) }
        ensures room { IfOk result (λ held. held.capacity ≡ capacity) }
    {
        let buffer = Vec::with_capacity(alloc, capacity)?;
        Ok(Held {
            buffer,
            end: 0,
            capacity,
        })
    }

    /// How many more bytes there is room for.
    #[inline(always)]
    fn room(&self) -> usize
        ensures { result ≡ self.now.capacity - self.now.end }
    {
        self.capacity - self.end
    }

    /// How many more bytes the buffer has room for as it is.
    #[inline(always)]
    fn ready(&self) -> usize
        ensures { result ≡ vec_len self.now.buffer - self.now.end }
    {
        self.buffer.len() - self.end
    }

    /// Makes the buffer longer, so that this many bytes more find room in it.
    fn grow(&mut self, count: usize)
        requires { count ≤ self.old.capacity - self.old.end }
        ensures bytes { take self.new.end self.new.buffer.items ≡ take self.old.end self.old.buffer.items }
        ensures end { self.new.end ≡ self.old.end }
        ensures capacity { self.new.capacity ≡ self.old.capacity }
        ensures ready { self.new.end + count ≤ vec_len self.new.buffer }
    {
        let needed = self.end + count;
        let len = self.buffer.len();
        let longer = needed
            .max(len.saturating_mul(2))
            .max(buffer::FIRST)
            .min(self.capacity);
        if len < longer {
            let Ok(()) = self.buffer.resize(longer, 0) else {
                unreachable!()
            };
        }
    }

    /// The bytes that wait.
    fn as_slice(&self) -> &[u8]
        ensures { result.now ≡ take self.now.end self.now.buffer.items }
    {
        &self.buffer[..self.end]
    }

    /// Holds more bytes.
    #[inline(always)]
    fn push(&mut self, bytes: &[u8])
        requires { self.old.end + length bytes.now ≤ vec_len self.old.buffer }
        ensures bytes { take self.new.end self.new.buffer.items ≡ take self.old.end self.old.buffer.items ++ bytes.now }
        ensures capacity { self.new.capacity ≡ self.old.capacity }
    {
        let begin = self.end;
        let end = begin + bytes.len();
        copy_to(&mut self.buffer[begin..end], bytes);
        self.end = end;
    }

    /// Drops this many bytes from the front.
    fn drop_front(&mut self, count: usize)
        requires { count ≤ self.old.end }
        ensures bytes { take self.new.end self.new.buffer.items ≡ drop count (take self.old.end self.old.buffer.items) }
        ensures end { self.new.end ≡ self.old.end - count }
        ensures capacity { self.new.capacity ≡ self.old.capacity }
    {
        self.buffer.copy_within(count..self.end, 0);
        self.end -= count;
    }
}

/// Holds bytes in a buffer, so that a short write is mostly a short copy.
///
/// What is held is poured into the writer behind it where it is full, in a flush and in a drop. Where that fails, the
/// error is told, what was not taken stays held, and a later call goes on with it: no byte is lost, and none is written
/// twice.
pub struct ByteWriter<W: Write + Drop> {
    held: Held,
    error: Option<io::Error>,
    writer: W,
}

impl<W: Write + Drop> ByteWriter<W> {
    ghost use Rattle.lex_io.specs.ByteWriters.{writer_behind, bytes_held, bytes_written, room_in, Holds, EndsWith};

    /// Over this writer, with nothing held. All its memory is taken here.
    pub fn new(alloc: Global, writer: W) -> Result<ByteWriter<W>, AllocError>
        ensures writer { IfOk result (λ made. writer_behind made ≡ writer) }
        ensures empty { IfOk result (λ made. bytes_held made ≡ []) }
        ensures room { IfOk result (λ made. room_in made ≡ 65536) }
    {
        ByteWriter::with_capacity(alloc, buffer::CAPACITY, writer)
    }

    /// The same with a buffer of this many bytes.
    fn with_capacity(alloc: Global, capacity: usize, writer: W) -> Result<ByteWriter<W>, AllocError>
        ensures writer { IfOk result (λ made. made.writer ≡ writer) }
        ensures empty { IfOk result (λ made. bytes_held made ≡ []) }
        ensures room { IfOk result (λ made. room_in made ≡ capacity) }
    {
        let held = Held::with_capacity(alloc, capacity)?;
        Ok(ByteWriter {
            held,
            error: None,
            writer,
        })
    }

    /// Writes what is held to the writer behind it. What it does not take stays held.
    fn pour(&mut self) -> io::Result<()>
        ensures bytes { Keeps (bytes_written W.contents self.old) (bytes_written W.contents self.new) }
        ensures poured { OnOk result (self.new.held.end ≡ 0) }
        ensures rest { EndsWith (bytes_held self.old) (bytes_held self.new) }
        ensures room { self.new.held.capacity ≡ self.old.held.capacity }
    {
        let (written, result) = write_out(self.held.as_slice(), &mut self.writer);
        self.held.drop_front(written);
        result
    }

    /// How many more bytes there is room for.
    #[inline(always)]
    pub(crate) fn room(&self) -> usize
        ensures { result ≡ room_in self.now }
    {
        self.held.room()
    }

    /// Holds the bytes, if there is room for them. Else it does nothing.
    #[inline(always)]
    pub(crate) fn hold(&mut self, bytes: &[u8]) -> bool
        ensures fits { result ≡ nat_le (length bytes.now) (room_in self.old) }
        ensures held { result ≡ true → Holds self.old self.new bytes.now }
        ensures full { result ≡ false → self.new ≡ self.old }
    {
        if bytes.len() <= self.held.ready() {
            self.held.push(bytes);
            return true;
        }
        self.grow_and_hold(bytes)
    }

    /// The same where the buffer has no room as it is.
    #[cold]
    #[inline(never)]
    fn grow_and_hold(&mut self, bytes: &[u8]) -> bool
        ensures fits { result ≡ nat_le (length bytes.now) (room_in self.old) }
        ensures held { result ≡ true → Holds self.old self.new bytes.now }
        ensures full { result ≡ false → self.new ≡ self.old }
    {
        if bytes.len() > self.held.room() {
            return false;
        }
        self.held.grow(bytes.len());
        self.held.push(bytes);
        true
    }

    /// Pours, and then holds the bytes, or hands them on where there are more than may be held. Where it answers
    /// nothing, the error waits.
    #[cold]
    #[inline(never)]
    fn pour_and_write(&mut self, bytes: &[u8]) -> Option<usize>
        ensures bound { IfSome result (λ count. count ≤ length bytes.now) }
        ensures bytes { MatchOption result
            (Keeps (bytes_written W.contents self.old) (bytes_written W.contents self.new))
            (λ count. Appends (bytes_written W.contents self.old) (bytes_written W.contents self.new)
            (take count bytes.now)) }
        ensures rest { IfNone result (EndsWith (bytes_held self.old) (bytes_held self.new)) }
        ensures error { IfNone result (IsSome self.new.error) }
    {
        if let Err(error) = self.pour() {
            self.error = Some(error);
            return None;
        }
        if self.hold(bytes) {
            return Some(bytes.len());
        }
        match self.writer.write(bytes) {
            Ok(count) => Some(count),
            Err(error) => {
                self.error = Some(error);
                None
            }
        }
    }

    /// The error that pouring met.
    #[cold]
    fn take_error(&mut self) -> io::Error
        requires { IsSome self.old.error }
        ensures error { self.old.error ≡ Some result }
        ensures writer { self.new.writer ≡ self.old.writer }
        ensures held { self.new.held ≡ self.old.held }
    {
        let Some(error) = self.error.take() else {
            unreachable!()
        };
        error
    }
}

impl<W: Write + Drop> Write for ByteWriter<W> {
    ghost use Rattle.lex_io.specs.ByteWriters.{bytes_held, bytes_written, room_in, Holds, EndsWith};

    ghost contents = { bytes_written W.contents };

    /// Holds the bytes where there is room for them. At an error none of them is held or written.
    #[inline(always)]
    fn write(&mut self, buf: &[u8]) -> io::Result<usize>
        ensures bound { WritesAtMost result buf.now }
        ensures bytes { WriteAppends (bytes_written W.contents self.old)
            (bytes_written W.contents self.new) result buf.now }
        ensures fits { length buf.now ≤ room_in self.old → (result ≡ Ok (length buf.now))
            × Holds self.old self.new buf.now }
        ensures rest { OnErr result (EndsWith (bytes_held self.old) (bytes_held self.new)) }
    {
        if self.hold(buf) {
            return Ok(buf.len());
        }
        match self.pour_and_write(buf) {
            Some(count) => Ok(count),
            None => Err(self.take_error()),
        }
    }

    /// Pours what is held, and flushes the writer behind it.
    fn flush(&mut self) -> io::Result<()>
        ensures bytes { Keeps (bytes_written W.contents self.old) (bytes_written W.contents self.new) }
        ensures poured { OnOk result (bytes_held self.new ≡ []) }
        ensures rest { EndsWith (bytes_held self.old) (bytes_held self.new) }
    {
        self.pour()?;
        self.writer.flush()
    }
}

impl<W: Write + Drop> Drop for ByteWriter<W> {
    /// Pours what is held. An error of that is told to nobody, so flush before.
    fn drop(mut self) {
        let _ = self.pour();
        let ByteWriter {
            held: _,
            error: _,
            writer: _writer,
        } = self;
    }
}

/// Writes until all is written or a write fails, and tells how many bytes were written. A write that takes none has
/// failed.
fn write_out<W: Write>(bytes: &[u8], writer: &mut W) -> (usize, io::Result<()>)
    ensures bound { result.0 ≤ length bytes.now }
    ensures all { OnOk result.1 (result.0 ≡ length bytes.now) }
    ensures bytes { Appends (W.contents writer.old) (W.contents writer.new) (take result.0 bytes.now) }
{
    let mut written = 0;
    while written < bytes.len() {
        match writer.write(&bytes[written..]) {
            Ok(0) => return (written, Err(io::Error::from(io::ErrorKind::WriteZero))),
            Ok(count) => written += count,
            Err(error) => return (written, Err(error)),
        }
    }
    (written, Ok(()))
}
