//! A reader with a buffer, made for reads of one byte.
ghost use Rattle.std.specs.Prelude.{◌≡◌, ◌≢◌, ◌-◌, ◌<◌, ◌≤◌, min, [], ◌∷◌, ◌++◌};
ghost use Rattle.std.specs.Prelude.{length, take, drop, IfOk, OnErr, IsSome, vec_len};
ghost use Rattle.std.specs.Io.{ReadsAtMost};
ghost use Rattle.std.specs.Io.KnownBytes.{Consumes, Keeps, IsAtEnd, ReadConsumes};

use crate::buffer;
use std::alloc::{AllocError, Global};
use std::io;
use std::io::Read;

/// What a refill brought.
#[derive(Clone, Copy, PartialEq, Eq)]
enum Refill {
    Bytes,
    End,
    /// The error waits in the reader.
    Fault,
}

/// Reads into a buffer, so that a read of one byte is mostly a look into it.
///
/// The reader behind it is asked where no byte is ahead, and once in a call: so an error and an end are reported where
/// they are met, after the bytes before them. The bytes ahead are the last of the buffer, so that one comparison finds
/// whether there is one. A buffer that a read filled is made larger before the next one, up to `CAPACITY`.
#[derive(Drop)]
pub struct ByteReader<R> {
    buffer: Vec<u8>,
    start: usize,
    /// Whether the last read filled the buffer.
    filled: bool,
    error: Option<io::Error>,
    reader: R,
    ghost in_bounds: { start ≤ vec_len buffer },
    ghost some_room: { 0 < vec_len buffer },
}

impl<R: Read> ByteReader<R> {
    ghost use Rattle.lex_io.specs.ByteReaders.{reader_behind, bytes_ahead, bytes_left};

    /// Over this reader, with nothing read yet. More memory is taken where reads are long; where it is refused, they stay
    /// short.
    pub fn new(alloc: Global, reader: R) -> Result<ByteReader<R>, AllocError>
    where
        R: Drop,
        ensures reader { IfOk result (λ made. reader_behind made ≡ reader) }
        ensures empty { IfOk result (λ made. bytes_ahead made ≡ []) }
    {
        ByteReader::with_capacity(alloc, buffer::FIRST, reader)
    }

    /// The same with a buffer of this many bytes.
    fn with_capacity(alloc: Global, capacity: usize, reader: R) -> Result<ByteReader<R>, AllocError>
    where
        R: Drop,
        requires { 0 < capacity }
        ensures reader { IfOk result (λ made. made.reader ≡ reader) }
        ensures empty { IfOk result (λ made. bytes_ahead made ≡ []) }
    {
        let buffer = buffer::make(alloc, capacity)?;
        Ok(ByteReader {
            buffer,
            start: capacity,
            filled: false,
            error: None,
            reader,
        })
    }

    /// Makes the buffer twice as large where the last read filled it, and no byte is ahead. Where memory for that is
    /// refused, it stays as it is.
    fn grow(&mut self)
        requires { self.old.start ≡ vec_len self.old.buffer }
        ensures reader { self.new.reader ≡ self.old.reader }
        ensures none { self.new.start ≡ vec_len self.new.buffer }
    {
        let len = self.buffer.len();
        let larger = len.saturating_mul(2).min(buffer::CAPACITY);
        if self.filled && len < larger && self.buffer.resize(larger, 0).is_ok() {
            self.start = larger;
        }
    }

    /// Asks the reader behind it once, where no byte is ahead.
    #[cold]
    #[inline(never)]
    fn refill(&mut self) -> Refill
        requires { self.old.start ≡ vec_len self.old.buffer }
        ensures bytes { Keeps (bytes_left R.remaining self.old) (bytes_left R.remaining self.new) }
        ensures some { result ≡ Refill.Bytes → self.new.start < vec_len self.new.buffer }
        ensures none { result ≢ Refill.Bytes → self.new.start ≡ vec_len self.new.buffer }
        ensures end { result ≡ Refill.End → IsAtEnd (R.remaining self.new.reader) }
        ensures fault { result ≡ Refill.Fault → IsSome self.new.error }
    {
        self.grow();
        match read_over(&mut self.reader, &mut self.buffer) {
            Ok(0) => Refill::End,
            Ok(count) => {
                self.filled = count == self.buffer.len();
                self.start = self.buffer.len() - count;
                move_to_end(self.buffer.as_mut_slice(), count);
                Refill::Bytes
            }
            Err(error) => {
                self.error = Some(error);
                Refill::Fault
            }
        }
    }

    /// The error that a refill met.
    #[cold]
    fn take_error(&mut self) -> io::Error
        requires { IsSome self.old.error }
        ensures error { self.old.error ≡ Some result }
        ensures reader { self.new.reader ≡ self.old.reader }
        ensures ahead { bytes_ahead self.new ≡ bytes_ahead self.old }
    {
        let Some(error) = self.error.take() else {
            unreachable!()
        };
        error
    }

    /// Gives the first byte ahead.
    #[inline(always)]
    fn give_byte(&mut self) -> u8
        requires { self.old.start < vec_len self.old.buffer }
        ensures reader { self.new.reader ≡ self.old.reader }
        ensures ahead { bytes_ahead self.old ≡ result ∷ bytes_ahead self.new }
    {
        let byte = self.buffer[self.start];
        self.start += 1;
        byte
    }

    /// The bytes ahead.
    #[inline(always)]
    pub fn ahead(&self) -> &[u8]
        ensures { result.now ≡ bytes_ahead self.now }
    {
        &self.buffer[self.start..]
    }

    /// Drops as many of the bytes ahead.
    #[inline(always)]
    pub fn skip(&mut self, count: usize)
        requires { count ≤ length (bytes_ahead self.old) }
        ensures reader { reader_behind self.new ≡ reader_behind self.old }
        ensures ahead { bytes_ahead self.new ≡ drop count (bytes_ahead self.old) }
    {
        self.start += count;
    }

    /// Gives as many bytes ahead as there is room for.
    fn give(&mut self, buf: &mut [u8]) -> usize
        ensures reader { self.new.reader ≡ self.old.reader }
        ensures count { result ≡ min (length buf.old) (length (bytes_ahead self.old)) }
        ensures ahead { bytes_ahead self.old ≡ take result buf.new ++ bytes_ahead self.new }
    {
        let count = buf.len().min(self.buffer.len() - self.start);
        let end = self.start + count;
        buf[..count].copy_from_slice(&self.buffer[self.start..end]);
        self.start = end;
        count
    }
}

impl<R: Read> Read for ByteReader<R> {
    ghost use Rattle.lex_io.specs.ByteReaders.{bytes_ahead, bytes_left, GivesAhead};

    ghost remaining = { bytes_left R.remaining };

    /// Gives as many bytes ahead as there is room for. Where none is ahead, the reader behind is asked once before.
    #[inline(always)]
    fn read(&mut self, buf: &mut [u8]) -> io::Result<usize>
        ensures bound { ReadsAtMost result buf.new }
        ensures bytes { ReadConsumes (bytes_left R.remaining self.old)
            (bytes_left R.remaining self.new) result buf.new }
        ensures ahead { bytes_ahead self.old ≢ [] → GivesAhead self.old self.new result buf.new }
    {
        if self.start == self.buffer.len() {
            match self.refill() {
                Refill::Bytes => {}
                Refill::End => return Ok(0),
                Refill::Fault => return Err(self.take_error()),
            }
        }
        if buf.len() == 1 {
            buf[0] = self.give_byte();
            return Ok(1);
        }
        Ok(self.give(buf))
    }
}

/// Moves the first bytes to the end, so many of them. A few are copied; of more than half the others make room.
#[inline(always)]
fn move_to_end(bytes: &mut [u8], count: usize)
    requires { count ≤ length bytes.old }
    ensures len { length bytes.new ≡ length bytes.old }
    ensures moved { drop (length bytes.old - count) bytes.new ≡ take count bytes.old }
{
    let start = bytes.len() - count;
    if start < count {
        bytes.rotate_right(start);
        return;
    }
    let (front, back) = bytes.split_at_mut(start);
    back.copy_from_slice(&front[..count]);
}

/// Reads once, to the front of the buffer.
fn read_over<R: Read>(reader: &mut R, buffer: &mut Vec<u8>) -> io::Result<usize>
    ensures len { vec_len buffer.new ≡ vec_len buffer.old }
    ensures bound { IfOk result (λ count. count ≤ vec_len buffer.new) }
    ensures ok { IfOk result (λ count. Consumes (R.remaining reader.old) (R.remaining reader.new)
        (take count buffer.new.items)) }
    ensures end { IfOk result (λ count. count ≡ 0 → 0 < vec_len buffer.old → IsAtEnd (R.remaining reader.new)) }
    ensures err { OnErr result (Keeps (R.remaining reader.old) (R.remaining reader.new)) }
{
    reader.read(buffer.as_mut_slice())
}
