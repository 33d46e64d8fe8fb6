//! The two ends of a scan, each with what is known of its count of failures.
ghost use Rattle.std.specs.Prelude.{◌≡◌, ℕ, ◌+◌, ◌-◌, ◌^◌, ◌<◌, ◌≤◌, List, [], ◌++◌, length, take, true, false};
ghost use Rattle.std.specs.Prelude.{is_ok, OnOk, OnErr};
ghost use Rattle.lex_io.specs.Source.{given, end_count};
ghost use Rattle.lex_io.specs.Sink.{Appended, fault_count};
ghost use Rattle.lexscan_window.specs.Answer.{gives_byte};

use lex_io::{ReadFault, Sink, Source, WriteFault};

/// A source that may be called until it has failed or ended.
#[derive(Drop)]
pub struct Intake<'a, S: Source> {
    source: &'a mut S,
    live: bool,
    ghost few_ends: { live ≡ true → S.ends source.now < 2 ^ 64 - 1 },
    ghost few_failures: { live ≡ true → S.failures source.now < 2 ^ 64 - 1 },
}

impl<'a, S: Source> Intake<'a, S> {
    ghost use Rattle.lexscan_window.specs.Intakes.{source_of, source_name, can_read, sink_of};

    /// A source that has not failed or ended here.
    pub fn new(source: &'a mut S) -> Intake<'a, S>
        requires few_ends { S.ends source.old < 2 ^ 64 - 1 }
        requires few_failures { S.failures source.old < 2 ^ 64 - 1 }
        ensures same { source_name result ≡ source.entry.ghost_name }
        ensures value { source_of result ≡ source.old }
        ensures live { can_read result ≡ true }
    {
        Intake { source, live: true }
    }

    /// Gives the source back.
    pub fn into_inner(self) -> &'a mut S
        ensures same { result.ghost_name ≡ source_name self.entry }
        ensures value { result.now ≡ source_of self.entry }
    {
        let Intake { source, .. } = self;
        source
    }

    /// The next byte, or none at the end. Where that may have to be waited for, what was put into the sink has been
    /// handed on. After the end or a fault the source is not called again.
    #[inline]
    pub fn next<K: Sink>(&mut self, outlet: &Outlet<'_, K>) -> Result<Option<u8>, ReadFault>
        requires live { can_read self.old ≡ true }
        requires handed_on { S.waits (source_of self.old) ≡ true → K.flushed (sink_of outlet.now) ≡ true }
        ensures same { source_name self.new ≡ source_name self.old }
        ensures byte { S.gave (source_of self.old) (given result) (source_of self.new) }
        ensures ends { S.ends (source_of self.new) ≡ S.ends (source_of self.old) + end_count result }
        ensures failures { S.failures (source_of self.new) ≡ S.failures (source_of self.old) + fault_count result }
        ensures live { can_read self.new ≡ gives_byte result }
    {
        let _outlet = outlet;
        match self.source.next() {
            Ok(Some(byte)) => Ok(Some(byte)),
            other => {
                self.live = false;
                other
            }
        }
    }
}

impl<'a, S: Source> Intake<'a, S> {
    ghost use Rattle.lexscan_window.specs.Intakes.{source_of, source_name, can_read};

    /// The bytes that the source has ready. They are not given yet.
    #[inline(always)]
    pub fn ahead(&self) -> &[u8]
        ensures { result.now ≡ S.ready (source_of self.now) }
    {
        self.source.ahead()
    }

    /// Whether the next byte may have to be waited for.
    #[inline(always)]
    pub fn may_wait(&self) -> bool
        ensures { result ≡ S.waits (source_of self.now) }
    {
        self.source.may_wait()
    }

    /// Has the source give as many of these bytes.
    #[inline(always)]
    pub fn give(&mut self, count: usize)
        requires { count ≤ length (S.ready (source_of self.old)) }
        ensures same { source_name self.new ≡ source_name self.old }
        ensures bytes { S.gave (source_of self.old) (take count (S.ready (source_of self.old))) (source_of self.new) }
        ensures ends { S.ends (source_of self.new) ≡ S.ends (source_of self.old) }
        ensures failures { S.failures (source_of self.new) ≡ S.failures (source_of self.old) }
        ensures live { can_read self.new ≡ can_read self.old }
    {
        let live = self.live;
        self.live = false;
        self.source.give(count);
        self.live = live;
    }
}

/// A sink that may be called until it has failed.
#[derive(Drop)]
pub struct Outlet<'a, K: Sink> {
    sink: &'a mut K,
    live: bool,
    /// Something may have been put that no flush has handed on.
    pending: bool,
    ghost handed_on: { pending ≡ false → K.flushed sink.now ≡ true },
    ghost few_failures: { live ≡ true → K.failures sink.now < 2 ^ 64 - 1 },
}

impl<'a, K: Sink> Outlet<'a, K> {
    ghost use Rattle.lexscan_window.specs.Intakes.{sink_of, sink_name, can_write};

    /// A sink that has not failed here.
    pub fn new(sink: &'a mut K) -> Outlet<'a, K>
        requires { K.failures sink.old < 2 ^ 64 - 1 }
        ensures same { sink_name result ≡ sink.entry.ghost_name }
        ensures value { sink_of result ≡ sink.old }
        ensures live { can_write result ≡ true }
    {
        Outlet {
            sink,
            live: true,
            pending: true,
        }
    }

    /// Gives the sink back.
    pub fn into_inner(self) -> &'a mut K
        ensures same { result.ghost_name ≡ sink_name self.entry }
        ensures value { result.now ≡ sink_of self.entry }
    {
        let Outlet { sink, .. } = self;
        sink
    }

    /// A look at the sink.
    pub fn sink(&self) -> &K
        ensures { result.now ≡ sink_of self.now }
    {
        self.sink
    }

    /// Appends bytes to the sink. After a fault it is not called again.
    #[inline]
    pub fn put(&mut self, bytes: &[u8]) -> Result<(), WriteFault>
        requires { can_write self.old ≡ true }
        ensures same { sink_name self.new ≡ sink_name self.old }
        ensures bytes { Appended (λ xs. K.wrote (sink_of self.old) xs (sink_of self.new)) bytes.now result }
        ensures failures { K.failures (sink_of self.new) ≡ K.failures (sink_of self.old) + fault_count result }
        ensures live { can_write self.new ≡ is_ok result }
    {
        self.live = false;
        self.pending = true;
        let result = self.sink.put(bytes);
        self.live = result.is_ok();
        result
    }

    /// How many bytes may be appended at the least, where that cannot fail. It says only what pays.
    #[inline(always)]
    pub fn room(&self) -> usize {
        self.sink.room()
    }

    /// Appends some of the first bytes, as many as the sink can append without fail. Answers how many. It stands by
    /// itself, so that it is no part of the loop of a burst.
    #[inline(never)]
    pub fn hold(&mut self, bytes: &[u8]) -> usize
        ensures few { result ≤ length bytes.now }
        ensures same { sink_name self.new ≡ sink_name self.old }
        ensures bytes { K.wrote (sink_of self.old) (take result bytes.now) (sink_of self.new) }
        ensures failures { K.failures (sink_of self.new) ≡ K.failures (sink_of self.old) }
        ensures live { can_write self.new ≡ can_write self.old }
    {
        let live = self.live;
        self.live = false;
        self.pending = true;
        let count = self.sink.hold(bytes);
        self.live = live;
        count
    }

    /// Has the sink hand on what was put. After a fault it is not called again.
    pub fn flush(&mut self) -> Result<(), WriteFault>
        requires { can_write self.old ≡ true }
        ensures same { sink_name self.new ≡ sink_name self.old }
        ensures bytes { K.wrote (sink_of self.old) [] (sink_of self.new) }
        ensures failures { K.failures (sink_of self.new) ≡ K.failures (sink_of self.old) + fault_count result }
        ensures live { can_write self.new ≡ is_ok result }
        ensures flushed { OnOk result (K.flushed (sink_of self.new) ≡ true) }
    {
        self.live = false;
        self.pending = true;
        let result = self.sink.flush();
        self.live = result.is_ok();
        self.pending = result.is_err();
        result
    }

    /// Whether something may have been put that no flush has handed on.
    #[inline(always)]
    pub fn is_pending(&self) -> bool
        ensures { result ≡ false → K.flushed (sink_of self.now) ≡ true }
    {
        self.pending
    }
}
