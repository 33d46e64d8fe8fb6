//! How much of the input is read, on standard error, where the input is a file and standard error is a terminal.
ghost use Rattle.std.specs.Prelude.{◌≡◌, ◌+◌, ◌-◌, ◌^◌, ◌<◌, Option, List, ℕ, None};
ghost use Rattle.std.specs.Io.{ReadsAtMost};
ghost use Rattle.std.specs.Io.KnownBytes.{ReadConsumes};
ghost use Rattle.lex_io.specs.Sink.{Appended, fault_count};
ghost use Rattle.lexlook.specs.Progress.{percent_read, progress_line};

use itoa::Buffer;
use lexauto_reports::put_all;
use lexkit::{Sink, ToWrite, WriteFault};
use std::io::{IsTerminal, Read};
use std::time::Instant;
use std::{fs, io};

/// How many seconds nothing is shown at first, and each line stands at least.
const PAUSE: u64 = 1;

/// What of a file is read, in percent: a whole number, and 100 at most.
fn percent_read(read: u64, size: u64) -> u64
    ensures { result ≡ percent_read read size }
{
    if read < size {
        (u128::from(read) * 100 / u128::from(size)) as u64
    } else {
        100
    }
}

/// Writes how much is read, over what was shown before.
fn put_percent<K: Sink>(percent: u64, sink: &mut K) -> Result<(), WriteFault>
    requires { K.failures sink.old < 2 ^ 64 - 1 }
    ensures bytes { Appended (λ xs. K.wrote sink.old xs sink.new) (progress_line percent) result }
    ensures failures { K.failures sink.new ≡ K.failures sink.old + fault_count result }
{
    let mut digits = Buffer::new();
    put_all(sink, &["\rlexlook: ", digits.format(percent), "% read"])
}

/// How much of a file is read, when reading began, and when it was last shown.
#[derive(Clone, Copy)]
pub struct Progress {
    size: u64,
    read: u64,
    began: Instant,
    last: Instant,
}

impl Progress {
    /// That of standard input, nothing of which is read. None where it is no file, or where standard error is no terminal.
    pub fn of_input(rt: &HostRuntime) -> Option<Progress> {
        if !rt.stderr().is_terminal() {
            return None;
        }
        let Ok(about) = fs::metadata(rt, "/dev/stdin") else {
            return None;
        };
        let Ok(began) = Instant::now(rt) else {
            return None;
        };
        if !about.is_file() {
            return None;
        }
        Some(Progress {
            size: about.len(),
            read: 0,
            began,
            last: began,
        })
    }

    /// Counts bytes that were read, and shows once a second how many of all that is. None are the end.
    fn go_on(&mut self, rt: &HostRuntime, count: usize) {
        if count == 0 {
            self.clear(rt);
            return;
        }
        self.read = self.read.saturating_add(count as u64);
        let Ok(now) = Instant::now(rt) else {
            return;
        };
        if now.duration_since(self.last).as_secs() < PAUSE {
            return;
        }
        self.last = now;
        // What standard error does not take is lost: the counts are what was asked for.
        let percent = percent_read(self.read, self.size);
        let _ = put_percent(percent, &mut ToWrite::new(rt.stderr()));
    }

    /// Takes away what may be shown.
    pub fn clear(&self, rt: &HostRuntime) {
        let Ok(now) = Instant::now(rt) else {
            return;
        };
        if PAUSE <= now.duration_since(self.began).as_secs() {
            let _ = ToWrite::new(rt.stderr()).put(b"\r                  \r");
        }
    }
}

/// A reader whose progress is shown, if there is any to show.
#[derive(Drop)]
pub struct Watched<'a, R> {
    rt: &'a HostRuntime,
    progress: Option<Progress>,
    reader: R,
}

impl<R: Read> Watched<'_, R> {
    /// Over this reader, of which nothing is read yet.
    pub fn new(rt: &HostRuntime, progress: Option<Progress>, reader: R) -> Watched<'_, R>
        ensures { result.reader ≡ reader }
    {
        Watched {
            rt,
            progress,
            reader,
        }
    }
}

impl<R: Read> Read for Watched<'_, R> {
    ghost remaining = { λ watched. R.remaining watched.reader };

    /// Reads once.
    fn read(&mut self, buf: &mut [u8]) -> io::Result<usize>
        ensures bound { ReadsAtMost result buf.new }
        ensures bytes { ReadConsumes (R.remaining self.old.reader) (R.remaining self.new.reader) result buf.new }
    {
        let result = self.reader.read(buf);
        if let (Ok(count), Some(progress)) = (&result, self.progress.as_mut()) {
            progress.go_on(self.rt, *count);
        }
        result
    }
}
