//! The two ends of a scan: a source of bytes and a sink for them, which tell what each call gave or wrote.
//!
//! - `source`: the trait `Source`, and `FromRead` over any reader, byte by byte.
//! - `sink`: the trait `Sink`, and `ToWrite` over any writer.
//! - `buffer`: how large the buffers of the next two are.
//! - `byte_reader`: a reader with a buffer, made for reads of one byte.
//! - `byte_writer`: a writer with a buffer, made for short writes.
//! - `from_bytes`: a source over the first, which shows what was read ahead.
//! - `to_bytes`: a sink over the second, which knows whether anything is held.
//! - `slice_source`: a source over a slice.
//! - `null_sink`: a sink that keeps nothing.
//! - `memory_source`: a source for tests, which fails or ends where a test says so.
//! - `memory_sink`: a sink for tests, which keeps what it is given and fails where a test says so.
//! - `copying`: copies of short texts.
//! - `escapes`: a byte that cannot be printed, in octal digits.
//!
//! It promises the rooms that scan or write which bytes each call gave or wrote, and how often an end failed. The two
//! traits may not be changed alone: every scan and every writer is proved over them. How the buffers are filled and
//! poured may.
//!
//! Decided for this room alone; docs/DECISIONS.md has what concerns others (Sources and sinks):
//!
//! - What fills and pours stands in functions of its own, and an error that they meet waits in a field: no answer of
//!   the size of an error goes through memory for each byte. The bytes ahead are the last of the buffer: one
//!   comparison finds them.
//! - A reader behind is asked once in a call, where nothing is ahead. An interrupted read or write is not tried again.
//! - After a fault what was not taken stays held, and a later call goes on with it; in a drop it is poured too, and a
//!   fault lost. More bytes than there is room for are handed on in one write, after a pour.
#![tactic(auto)]

mod buffer;
mod byte_reader;
mod byte_writer;
mod copying;
mod escapes;
mod from_bytes;
mod memory_sink;
mod memory_source;
mod null_sink;
mod sink;
mod slice_source;
mod source;
mod to_bytes;

pub use byte_reader::ByteReader;
pub use byte_writer::ByteWriter;
pub use copying::copy_to;
pub use escapes::octal;
pub use from_bytes::FromBytes;
pub use memory_sink::MemorySink;
pub use memory_source::MemorySource;
pub use null_sink::NullSink;
pub use sink::{Sink, ToWrite, WriteFault};
pub use slice_source::SliceSource;
pub use source::{FromRead, ReadFault, Source};
pub use to_bytes::ToBytes;
