//! What a turn has matched.

/// The rule of a match: its number, from 0 on, or the default rule, which takes one byte where no other rule matches.
/// (POSIX, lex, Rules in lex: unmatched input is copied.)
#[derive(Clone, Copy, Debug, PartialEq, Eq)]
pub enum MatchedRule {
    Numbered(u32),
    Default,
}

/// A match that was carried out: its rule, where its text begins, counted in bytes of the input, and how long that
/// is: with what yymore kept before it, and after trailing context and yyless.
#[derive(Clone, Copy, Debug, PartialEq, Eq)]
pub struct Match {
    pub rule: MatchedRule,
    pub start: u64,
    pub length: usize,
}

/// A match at the front of a text: its rule, how many bytes it takes, and how many of these are its text, which ends
/// before trailing context.
#[derive(Clone, Copy, Debug, PartialEq, Eq)]
pub struct Candidate {
    pub rule: MatchedRule,
    pub length: usize,
    pub text: usize,
}
