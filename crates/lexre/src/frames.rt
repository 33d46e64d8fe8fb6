//! A pattern as far as it was read, as values. The steps over them are in `stack`.
//!
//! Operators are counted by two numbers (`Signs`): how many stand on the series, and how many on its last item, if it
//! has one that stands for itself. An interval over the whole series and the operators that directly follow it are at
//! most 64 in all, whatever items stand between. The operators on an item are counted for that item. Each parenthesis
//! and each name begins a series of its own. So one grammar serves intervals over series and over items.
ghost use Rattle.std.specs.Prelude.{◌+◌, ◌≤◌, vec_len};
ghost use Rattle.lexre.specs.Limits.{max_open};

use crate::pattern::Pattern;
use std::alloc::Global;

/// What the next sign applies to, and how many stand on it.
#[derive(Clone, Copy)]
pub(crate) enum Signs {
    /// The item that was read last. `before` stand on the series before it.
    OnItem { before: u8, signs: u8 },
    /// The whole series, from an interval on that applies to it.
    OnSeries(u8),
}

/// A pattern inside its parentheses, as far as it was read.
#[derive(Drop)]
pub(crate) struct Frame {
    /// Where its opening parenthesis stands.
    pub(crate) opening: usize,
    /// Where the item begins that was read last, or that is being read.
    pub(crate) start: usize,
    /// Its finished series.
    pub(crate) done: Vec<Pattern>,
    /// The parts of the series that is being read, before its last.
    pub(crate) parts: Vec<Pattern>,
    pub(crate) last: Option<Pattern>,
    /// The signs of the last part.
    pub(crate) signs: Signs,
}

/// The pattern that is being read, with those round it that its parentheses and names interrupt.
#[derive(Drop)]
pub(crate) struct Stack {
    pub(crate) alloc: Global,
    pub(crate) here: Frame,
    /// The patterns round it, the outermost first.
    pub(crate) outer: Vec<Frame>,
    /// How many more may be opened.
    pub(crate) left: u8,
    ghost within_limit: { vec_len outer + left ≤ max_open },
}
