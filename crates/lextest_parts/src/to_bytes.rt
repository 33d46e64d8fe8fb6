//! Tests over the sink that calls a writer with a buffer.
use crate::counted::Called;
use lex_io::{ByteWriter, ToBytes};
use std::alloc::{AllocError, Global};
use std::io;
use std::io::{Error, ErrorKind, Write};
use std::test::Fail;

/// Can't be flushed.
#[derive(Drop)]
struct Stuck;

impl Write for Stuck {
    fn write(&mut self, buf: &[u8]) -> io::Result<usize> {
        Ok(buf.len())
    }

    fn flush(&mut self) -> io::Result<()> {
        Err(Error::from(ErrorKind::Other))
    }
}

/// Whether the bytes are put, and then flushed.
fn hands_on<W: Write + Drop>(sink: &mut Called<ToBytes<W>>, bytes: &[u8]) -> bool {
    sink.takes(bytes) && sink.flushes()
}

/// Whether bytes are handed on to what takes them, and then more.
fn hands_on_twice(alloc: Global, taken: &mut Vec<u8>) -> Result<bool, AllocError> {
    let mut sink = Called::new(ToBytes::new(ByteWriter::new(alloc, taken)?));
    Ok(hands_on(&mut sink, b"ab") && hands_on(&mut sink, b"c"))
}

#[test]
fn hands_on_what_was_put(rt: HostRuntime) -> Result<(), Fail> {
    let mut taken = Vec::new(rt.alloc());
    let so = hands_on_twice(rt.alloc(), &mut taken)?;
    assert!(rt; so && taken.as_slice() == b"abc".as_slice());
    Ok(())
}

#[test]
fn tells_a_failed_flush(rt: HostRuntime) -> Result<(), Fail> {
    let mut sink = Called::new(ToBytes::new(ByteWriter::new(rt.alloc(), Stuck)?));
    assert!(rt; !hands_on(&mut sink, b"a"));
    Ok(())
}
