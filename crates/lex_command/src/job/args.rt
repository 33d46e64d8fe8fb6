//! What a command line of lex asks for.
ghost use Rattle.std.specs.Prelude.{◌≡◌, ◌≢◌, ◌⊎◌, IfErr, IfOk, codes, map, string_bytes, true};
ghost use Rattle.clap.specs.Words.{app_of, found_of, rows_of};
ghost use Rattle.lex_command.specs.Args.{IsNamed};
ghost use Rattle.lex_command.specs.CommandLine.{AsksFor, IsJobOf, AsksToMake, ScansBySpec, ScansByTable, files_of};
ghost use Rattle.lex_command.specs.CommandLine.{has_byte_at, has_separator, has_value_behind_equals};
ghost use Rattle.lex_command.specs.CommandLine.{is_long_with_equals, is_out_with_equals, lex_app, makes_tables};
ghost use Rattle.lex_command.specs.CommandLine.{reads_patterns};

use crate::error::ArgsError;
use crate::flags::{PatternFlags, copied, has, patterns_of, value_of, values_of};
use crate::words::{Form, with_words};
use clap::{ArgMatches, Command};
use std::alloc::{AllocError, Global};

/// What the program is to do.
#[derive(Debug, Drop)]
pub enum Job {
    /// Make tables of the specification that these files are together. No file, and `-`, is standard input.
    Generate {
        files: Vec<String>,
        /// The table file's name, where one is given.
        out: Option<String>,
        /// The table file goes to standard output, whatever `out` says.
        stdout: bool,
        /// Statistics are written.
        stats: bool,
        /// The report of states that back up is written.
        backup: bool,
        /// How patterns are read.
        patterns: PatternFlags,
        /// Warnings are not written.
        quiet: bool,
    },
    /// Scan standard input by the specification in this file.
    ScanSpec {
        file: String,
        /// How patterns are read.
        patterns: PatternFlags,
        /// Warnings are not written.
        quiet: bool,
    },
    /// Scan standard input by the table in this file.
    ScanTable {
        file: String,
    },
}

/// Reads the words after the program's name: `[-t] [-n] [-v] [-b] [-i] [-X] [-w] [-o FILE] [FILE..]`, or
/// `--scan-spec FILE` with `-i`, `-X` or `-w`, or `--scan-table FILE` alone. Flags may be repeated. `-` is no FILE of a
/// scan. Words that it refuses by `Usage` ask for no job.
pub fn read_args(alloc: Global, words: &[String]) -> Result<Job, ArgsError>
    ensures named { IfOk result IsNamed }
    ensures asked { IfOk result (AsksFor (map string_bytes words.now)) }
    ensures refused { IfErr result (λ e. e ≡ ArgsError.Usage
        → (job : Job) → AsksFor (map string_bytes words.now) job → ⊥) }
{
    if has_value_behind_equals(words) {
        return Err(ArgsError::Usage);
    }
    let command = command(alloc)?;
    let matches = command.try_get_matches_from(words)?;
    job_of(alloc, &matches, has_separator(words))
}

/// The job of what was met, where `separated` says that some word is `--`: a scan has none.
fn job_of(alloc: Global, matches: &ArgMatches<'_>, separated: bool) -> Result<Job, ArgsError>
    ensures named { IfOk result IsNamed }
    ensures asked { IfOk result (IsJobOf (rows_of (found_of matches.now)) separated) }
    ensures refused { IfErr result (λ e. e ≡ ArgsError.Usage
        → (job : Job) → IsJobOf (rows_of (found_of matches.now)) separated job → ⊥) }
{
    let spec = value_of(matches, "scan-spec");
    let table = value_of(matches, "scan-table");
    match (spec, table, separated) {
        (None, None, _) => generating(alloc, matches),
        (Some(file), None, false) => scanning_by_spec(alloc, matches, file),
        (None, Some(file), false) => scanning_by_table(alloc, matches, file),
        (Some(_), None, true) | (None, Some(_), true) | (Some(_), Some(_), _) => {
            Err(ArgsError::Usage)
        }
    }
}

/// Whether some word is `--`, behind which each word is a file.
fn has_separator(words: &[String]) -> bool
    ensures { result ≡ has_separator (map string_bytes words.now) }
{
    words.iter().any(|word| word.as_str() == "--")
}

/// Whether some word before any `--` has its value behind a sign of equality, as `--scan-spec=FILE` or `-o=FILE`: that
/// is none of the forms.
fn has_value_behind_equals(words: &[String]) -> bool
    ensures { result ≡ has_value_behind_equals (map string_bytes words.now) }
{
    for word in words {
        let text = word.as_str();
        if text == "--" {
            return false;
        }
        if is_long_with_equals(text.as_bytes()) || is_out_with_equals(text.as_bytes()) {
            return true;
        }
    }
    false
}

/// Whether the word begins with `--`, and has `=`.
fn is_long_with_equals(word: &[u8]) -> bool
    ensures { result ≡ is_long_with_equals word.now }
{
    word.starts_with(b"--") && word.contains(&b'=')
}

/// Whether the word has flags up to an `o`, and `=` directly behind that.
fn is_out_with_equals(word: &[u8]) -> bool
    ensures { result ≡ is_out_with_equals word.now }
{
    if !has_byte_at(word, 0, b'-') {
        return false;
    }
    match word.iter().position(|byte| *byte == b'o') {
        Some(at) => has_byte_at(word, at + 1, b'='),
        None => false,
    }
}

/// Whether the byte stands at the place.
fn has_byte_at(word: &[u8], at: usize, byte: u8) -> bool
    ensures { result ≡ has_byte_at word.now at byte }
{
    word.get(at) == Some(&byte)
}

/// The words that the program knows.
const WORDS: &[(&str, Form)] = &[
    ("stdout", Form::Flag('t')),
    ("no-stats", Form::Flag('n')),
    ("stats", Form::Flag('v')),
    ("backup", Form::Flag('b')),
    ("fold", Form::Flag('i')),
    ("posix", Form::Flag('X')),
    ("quiet", Form::Flag('w')),
    ("out", Form::Value('o')),
    ("scan-spec", Form::LongValue),
    ("scan-table", Form::LongValue),
    ("file", Form::Several),
];

/// The command that knows them.
fn command<'a>(alloc: Global) -> Result<Command<'a>, AllocError>
    ensures { IfOk result (λ c. app_of c ≡ lex_app) }
{
    let command = Command::new(alloc, "lex").no_binary_name(true);
    with_words(alloc, command, WORDS)
}

/// Whether something stands there that only making tables takes: `-t`, `-n`, `-v`, `-b`, `-o` or a file.
fn makes_tables(matches: &ArgMatches<'_>) -> bool
    ensures { result ≡ makes_tables (rows_of (found_of matches.now)) }
{
    has(matches, "stdout")
        || has(matches, "no-stats")
        || has(matches, "stats")
        || has(matches, "backup")
        || value_of(matches, "out").is_some()
        || value_of(matches, "file").is_some()
}

/// Whether something stands there that only reading patterns takes: `-i`, `-X` or `-w`.
fn reads_patterns(matches: &ArgMatches<'_>) -> bool
    ensures { result ≡ reads_patterns (rows_of (found_of matches.now)) }
{
    has(matches, "fold") || has(matches, "posix") || has(matches, "quiet")
}

/// The making of tables, with what was met.
fn generating(alloc: Global, matches: &ArgMatches<'_>) -> Result<Job, ArgsError>
    ensures named { IfOk result IsNamed }
    ensures made { IfOk result (AsksToMake (rows_of (found_of matches.now))) }
    ensures memory { IfErr result (λ e. e ≡ ArgsError.OutOfMemory) }
{
    let out = match value_of(matches, "out") {
        None => None,
        Some(name) => Some(String::from_str(alloc, name)?),
    };
    Ok(Job::Generate {
        files: files_of(alloc, matches)?,
        out,
        stdout: has(matches, "stdout"),
        stats: has(matches, "stats") && !has(matches, "no-stats"),
        backup: has(matches, "backup"),
        patterns: patterns_of(matches),
        quiet: has(matches, "quiet"),
    })
}

/// The files that were met.
pub(crate) fn files_of(alloc: Global, matches: &ArgMatches<'_>) -> Result<Vec<String>, AllocError>
    ensures { IfOk result (λ v. map string_bytes v.items ≡ files_of (rows_of (found_of matches.now))) }
{
    match values_of(matches, "file") {
        None => Ok(Vec::new(alloc)),
        Some(names) => copied(alloc, names),
    }
}

/// The scan by the specification in the file.
fn scanning_by_spec(alloc: Global, matches: &ArgMatches<'_>, file: &str) -> Result<Job, ArgsError>
    ensures named { IfOk result IsNamed }
    ensures scans { IfOk result (ScansBySpec (rows_of (found_of matches.now)) file.now) }
    ensures refused { IfErr result (λ e. e ≡ ArgsError.Usage
        → (makes_tables (rows_of (found_of matches.now)) ≡ true) ⊎ (file.now ≡ codes "-")) }
{
    if makes_tables(matches) || file == "-" {
        return Err(ArgsError::Usage);
    }
    Ok(Job::ScanSpec {
        file: String::from_str(alloc, file)?,
        patterns: patterns_of(matches),
        quiet: has(matches, "quiet"),
    })
}

/// The scan by the table in the file.
fn scanning_by_table(alloc: Global, matches: &ArgMatches<'_>, file: &str) -> Result<Job, ArgsError>
    ensures named { IfOk result IsNamed }
    ensures scans { IfOk result (ScansByTable (rows_of (found_of matches.now)) file.now) }
    ensures refused { IfErr result (λ e. e ≡ ArgsError.Usage
        → (makes_tables (rows_of (found_of matches.now)) ≡ true)
        ⊎ ((reads_patterns (rows_of (found_of matches.now)) ≡ true) ⊎ (file.now ≡ codes "-"))) }
{
    if makes_tables(matches) || reads_patterns(matches) || file == "-" {
        return Err(ArgsError::Usage);
    }
    Ok(Job::ScanTable {
        file: String::from_str(alloc, file)?,
    })
}
