//! What was met in a command line: flags, values, and how patterns are read.
ghost use Rattle.std.specs.Prelude.{◌≡◌, IfOk, map, option_map, string_bytes};
ghost use Rattle.clap.specs.Words.{all_of, first_of, found_of, rows_of};
ghost use Rattle.lex_command.specs.Flags.{has_flag, patterns_of};

use clap::ArgMatches;
use std::alloc::{AllocError, Global};

/// How the patterns of a specification are read, as `-i` and `-X` say.
#[derive(Clone, Copy, Debug, PartialEq, Eq)]
pub struct PatternFlags {
    /// Letters stand for both cases: `-i`. (flex, Scanner Options: case-insensitive.)
    pub fold: bool,
    /// Intervals apply to series: `-X`. (POSIX, lex, Regular Expressions in lex.)
    pub posix: bool,
}

/// Whether the flag stands there.
pub(crate) fn has(matches: &ArgMatches<'_>, flag: &str) -> bool
    ensures { result ≡ has_flag flag.now (rows_of (found_of matches.now)) }
{
    matches.get_count(flag) > 0
}

/// The value of the name, where one stands there.
pub(crate) fn value_of<'a>(matches: &ArgMatches<'a>, name: &str) -> Option<&'a str>
    ensures { option_map (λ s. s.now) result ≡ first_of name.now (rows_of (found_of matches.now)) }
{
    matches.get_str(name)
}

/// The values of the name, where some stand there.
pub(crate) fn values_of<'m, 'a>(matches: &'m ArgMatches<'a>, name: &str) -> Option<&'m [&'a str]>
    ensures { option_map (λ s. map (λ v. v.now) s.now) result ≡ all_of name.now (rows_of (found_of matches.now)) }
{
    matches.get_strs(name)
}

/// The names, as texts of their own.
pub(crate) fn copied(alloc: Global, names: &[&str]) -> Result<Vec<String>, AllocError>
    ensures { IfOk result (λ v. map string_bytes v.items ≡ map (λ n. n.now) names.now) }
{
    let mut copies = Vec::new(alloc);
    for name in names {
        copies.push(String::from_str(alloc, *name)?)?;
    }
    Ok(copies)
}

/// How patterns are read, by what stands there.
pub(crate) fn patterns_of(matches: &ArgMatches<'_>) -> PatternFlags
    ensures { result ≡ patterns_of (rows_of (found_of matches.now)) }
{
    PatternFlags {
        fold: has(matches, "fold"),
        posix: has(matches, "posix"),
    }
}
