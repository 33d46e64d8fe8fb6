//! How far a scan by pieces has come.
ghost use Rattle.std.specs.Prelude.{◌≡◌};

use crate::answer::Answer;
use lexkit::{RunError, Turn};

/// How far a scan by pieces has come.
#[derive(Clone, Copy)]
pub enum Stage {
    /// The next match asks for more than was fed.
    Going,
    /// The scan has ended with this status.
    Ended(u8),
    /// The stack of conditions was at fault.
    Stack,
    /// A request for memory was refused.
    OutOfMemory,
    /// More than 2^64 - 2 bytes were fed.
    TooManyReads,
}

impl Stage {
    ghost use Rattle.liblex_calls.specs.Stages.{stage_of, end_of, fault_of, feed_answer, finish_answer, status_in};

    /// The one after a fault of the scan: each but those of the stack and of the count is want of memory.
    pub(crate) fn after_fault(error: RunError) -> Stage
        ensures { result ≡ fault_of error }
    {
        match error {
            RunError::Stack => Stage::Stack,
            RunError::TooManyReads => Stage::TooManyReads,
            _ => Stage::OutOfMemory,
        }
    }

    /// The one after a feed.
    pub(crate) fn after_feed(fed: Result<Turn, RunError>) -> Stage
        ensures { result ≡ stage_of fed }
    {
        match fed {
            Ok(Turn::Went) => Stage::Going,
            Ok(Turn::Ended(status)) => Stage::Ended(status),
            Err(error) => Stage::after_fault(error),
        }
    }

    /// The one after the end of the input.
    pub(crate) fn after_finish(ended: Result<u8, RunError>) -> Stage
        ensures { result ≡ end_of ended }
    {
        match ended {
            Ok(status) => Stage::Ended(status),
            Err(error) => Stage::after_fault(error),
        }
    }

    /// What a feed answers where so many bytes are left.
    pub(crate) fn feed_answer(self, left: usize) -> Answer
        ensures { result ≡ feed_answer self left }
    {
        if left != 0 {
            return Answer::TooSmall;
        }
        match self {
            Stage::Going => Answer::Done,
            Stage::Ended(_) => Answer::Ended,
            Stage::Stack => Answer::Stack,
            Stage::OutOfMemory => Answer::OutOfMemory,
            Stage::TooManyReads => Answer::TooManyReads,
        }
    }

    /// What the end of the input answers where so many bytes are left.
    pub(crate) fn finish_answer(self, left: usize) -> Answer
        ensures { result ≡ finish_answer self left }
    {
        match self.feed_answer(left) {
            Answer::Ended => Answer::Done,
            answer => answer,
        }
    }

    /// The status that the scan has ended with, or 0.
    pub(crate) fn status(self) -> u8
        ensures { result ≡ status_in self }
    {
        match self {
            Stage::Ended(status) => status,
            _ => 0,
        }
    }
}
