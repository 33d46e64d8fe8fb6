//! What a call answers.
ghost use Rattle.std.specs.Prelude.{◌≡◌};

/// What a call answers. The numbers from 65 on are those of the program's statuses.
#[derive(Clone, Copy, Debug, PartialEq, Eq)]
pub enum Answer {
    /// All is done.
    Done,
    /// The buffer has no room for all the bytes. How many there are is told.
    TooSmall,
    /// The rules have ended the scan, before the end of the input was told.
    Ended,
    /// No scan is open.
    Closed,
    /// The next token asks for more than was fed.
    More,
    /// The text spells no specification, its automaton passes a limit, or the bytes are no table file.
    Refused,
    /// The stack of conditions was at fault: the scan ended so.
    Stack,
    /// A request for memory was refused.
    OutOfMemory,
    /// The scan would make more than 2^40 reads, or more than 2^64 - 2 bytes were fed to it.
    TooManyReads,
}

impl Answer {
    ghost use Rattle.liblex_calls.specs.Numbers.{number_of};

    /// Its number for C.
    pub fn number(self) -> i32
        ensures { result ≡ number_of self }
    {
        match self {
            Answer::Done => 0,
            Answer::TooSmall => 1,
            Answer::Ended => 2,
            Answer::Closed => 3,
            Answer::More => 4,
            Answer::Refused => 65,
            Answer::Stack => 70,
            Answer::OutOfMemory => 71,
            Answer::TooManyReads => 74,
        }
    }
}
