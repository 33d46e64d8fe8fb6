//! How much of a match is the text.

/// How much of a match is the text, where the rule has trailing context. (flex, Patterns: `r/s`.)
#[derive(Clone, Copy, Debug, PartialEq, Eq)]
pub enum Cut {
    /// All of it: there is no trailing context.
    Whole,
    /// Its first bytes, this many of them, up to 65,535.
    Head(u16),
    /// All but its last bytes, this many of them, up to 65,535.
    Trail(u16),
}
