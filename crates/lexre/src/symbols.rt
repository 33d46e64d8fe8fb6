//! The symbols of a pattern. (POSIX, lex, Regular Expressions in lex; intervals as in flex, Patterns.)
use crate::pattern::Pattern;

/// How often an item stands.
#[derive(Clone, Copy)]
pub(crate) enum Sign {
    /// `*`.
    AnyTimes,
    /// `+`.
    OnceOrMore,
    /// `?`.
    AtMostOnce,
}

/// A symbol of a pattern.
pub(crate) enum Symbol<'a> {
    /// What is an item by itself: a byte, an escape, `.`, a class, or a text in quotes.
    Item(Pattern),
    /// `{name}`.
    Name(&'a [u8]),
    Opening,
    Closing,
    Bar,
    Sign(Sign),
    /// `{m,n}`, or `{m,}`.
    Interval(u8, Option<u8>),
}
