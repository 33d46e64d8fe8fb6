//! How patterns are read.

/// How a pattern is read.
#[derive(Clone, Copy)]
pub struct ReadOptions {
    /// Whether letters stand for both cases. (flex, Scanner Options: case-insensitive.)
    pub fold: bool,
    /// Whether an interval applies to the whole series to its left, and not to the last item alone. (POSIX, lex,
    /// Regular Expressions in lex: an interval is looser than a series.)
    pub posix: bool,
}
