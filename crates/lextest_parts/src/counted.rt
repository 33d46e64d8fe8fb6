//! Sources and sinks with a count of their calls, so that a test may ask them again and again.
ghost use Rattle.std.specs.Prelude.{◌≡◌, ◌≤◌};

use lex_io::{ReadFault, Sink, Source, WriteFault};

/// What one call of a source answers.
pub(crate) type Answer = Result<Option<u8>, ReadFault>;

/// A source. It answered its end at most once in each call, and failed at most once.
#[derive(Drop)]
pub(crate) struct Asked<S: Source> {
    pub(crate) source: S,
    calls: u64,
    ghost few_ends: { S.ends source ≤ calls },
    ghost few_failures: { S.failures source ≤ calls },
}

impl<S: Source> Asked<S> {
    /// Over a source that was not asked yet.
    pub(crate) fn new(source: S) -> Asked<S>
        requires no_end { S.ends source ≡ 0 }
        requires no_failure { S.failures source ≡ 0 }
    {
        Asked { source, calls: 0 }
    }

    /// Whether this is the answer to one call.
    fn answers_one(&mut self, want: Answer) -> bool {
        if self.calls == u64::MAX {
            return false;
        }
        self.calls += 1;
        match self.source.next() {
            Ok(Some(byte)) => want == Ok(Some(byte)),
            Ok(None) => want == Ok(None),
            Err(fault) => want == Err(fault),
        }
    }

    /// Whether these are the answers to as many calls.
    pub(crate) fn answers(&mut self, wants: &[Answer]) -> bool {
        for &want in wants {
            if !self.answers_one(want) {
                return false;
            }
        }
        true
    }

    /// Whether these are the bytes that it shows.
    pub(crate) fn shows(&self, want: &[u8]) -> bool {
        self.source.ahead() == want
    }

    /// Gives as many of the bytes that it shows. Else it answers false.
    pub(crate) fn gives(&mut self, count: usize) -> bool {
        let may_give = count <= self.source.ahead().len();
        if may_give {
            self.source.give(count);
        }
        may_give
    }

    /// Whether its next call may wait.
    pub(crate) fn may_wait(&self) -> bool {
        self.source.may_wait()
    }
}

/// A sink. It failed at most once in each call.
#[derive(Drop)]
pub(crate) struct Called<K: Sink> {
    pub(crate) sink: K,
    calls: u64,
    ghost few_failures: { K.failures sink ≤ calls },
}

impl<K: Sink> Called<K> {
    /// Over a sink that was not called yet.
    pub(crate) fn new(sink: K) -> Called<K>
        requires no_failure { K.failures sink ≡ 0 }
    {
        Called { sink, calls: 0 }
    }

    /// Whether all of the bytes are put.
    pub(crate) fn takes(&mut self, bytes: &[u8]) -> bool {
        if self.calls == u64::MAX {
            return false;
        }
        self.calls += 1;
        match self.sink.put(bytes) {
            Ok(()) => true,
            Err(WriteFault) => false,
        }
    }

    /// Whether a flush is answered.
    pub(crate) fn flushes(&mut self) -> bool {
        if self.calls == u64::MAX {
            return false;
        }
        self.calls += 1;
        match self.sink.flush() {
            Ok(()) => true,
            Err(WriteFault) => false,
        }
    }
}
