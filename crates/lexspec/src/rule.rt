//! A rule as a value.

use lex_machine::{Cut, Statement};
use lexre::Pattern;

/// A rule of a specification. (POSIX, lex, Rules in lex.)
#[derive(Drop)]
pub struct Rule {
    /// The line of its pattern, from 1.
    pub line: u32,
    /// The numbers of the conditions in its list, ascending; None without a list, all numbers for `<*>`.
    pub conditions: Option<Vec<u8>>,
    /// Whether it begins with `^`.
    pub anchored: bool,
    /// Its pattern, before trailing context.
    pub head: Pattern,
    /// Its trailing context: `r/s` or `r$`.
    pub trail: Option<Pattern>,
    /// How much of a match is the text.
    pub cut: Cut,
    /// Its action, in normal form.
    pub statements: Vec<Statement>,
}
