//! The ends of scans over memory, and where these fail.
ghost use Rattle.std.specs.Prelude.{◌≡◌};

use lexkit::{MemorySink, MemorySource, Sink, Source};
use lexspec::ReadOptions;
use std::alloc::Global;

/// Patterns as they stand.
pub(crate) const PLAIN: ReadOptions = ReadOptions {
    fold: false,
    posix: false,
};

/// Where a source or a sink fails: nowhere, after so many bytes, or in a flush; or where a source answers its end once,
/// after so many bytes.
#[derive(Clone, Copy)]
pub(crate) enum Failing {
    Never,
    Read(usize),
    End(usize),
    Write(usize),
    Flush,
}

/// A source of these bytes that fails there.
pub(crate) fn source_that<'a>(failing: Failing, input: &'a [u8]) -> MemorySource<'a>
    ensures ends { ⟦<MemorySource<'a> as Source>⟧.ends result ≡ 0 }
    ensures failures { ⟦<MemorySource<'a> as Source>⟧.failures result ≡ 0 }
{
    match failing {
        Failing::Read(given) => MemorySource::failing_after(input, given),
        Failing::End(given) => MemorySource::ending_after(input, given),
        _ => MemorySource::new(input),
    }
}

/// A sink that fails there.
pub(crate) fn sink_that(alloc: Global, failing: Failing) -> MemorySink
    ensures failures { ⟦<MemorySink as Sink>⟧.failures result ≡ 0 }
{
    match failing {
        Failing::Write(room) => MemorySink::failing_after(alloc, room),
        Failing::Flush => MemorySink::failing_flush(alloc),
        _ => MemorySink::new(alloc),
    }
}
