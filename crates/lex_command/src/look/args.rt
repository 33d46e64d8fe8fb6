//! What a command line of lexlook asks for.
ghost use Rattle.std.specs.Prelude.{◌≡◌, ◌≢◌, IfErr, IfOk, IfSome, None, Some, codes, fold, map};
ghost use Rattle.std.specs.Prelude.{option_map, string_bytes};
ghost use Rattle.clap.specs.Words.{app_of, found_of, rows_of, subcommand_rows_of, with_subcommand};
ghost use Rattle.lex_command.specs.Forms.{subcommand_app};
ghost use Rattle.lex_command.specs.LookLine.{AsksToShow, HasOwn, IsLookOf, about_of, first_about, lexlook_app, name_of};
ghost use Rattle.lex_command.specs.LookLine.{told_version};

use crate::error::ArgsError;
use crate::flags::{PatternFlags, copied, has, patterns_of, value_of, values_of};
use crate::job::files_of;
use crate::words::{Form, with_words};
use clap::{ArgMatches, Command};
use std::alloc::{AllocError, Global};

/// What is shown of one file.
#[derive(Clone, Copy, Debug, PartialEq, Eq)]
pub enum Subcommand {
    /// The picture of the automaton of a specification.
    Picture,
    /// Whether an input may be cut after any newline.
    Lines,
    /// The texts that the rules of a specification take.
    Words,
    /// The pairs of its rules that fit one text with the same length.
    Overlaps,
    /// The lines of the matches of a scan by a specification.
    Trace {
        /// Whether they are those of places.
        offsets: bool,
    },
    /// What the matches of a scan by a specification go through.
    Cover,
    /// The rules of a specification as constants of a program.
    Header {
        /// Whether the program is in Rust, and not in C.
        rust: bool,
    },
    /// How often the rules of a specification match standard input.
    Count {
        /// Whether that is told as JSON.
        json: bool,
    },
}

/// What the program tells of itself.
#[derive(Clone, Copy, Debug, PartialEq, Eq)]
pub enum About {
    /// How it is called.
    Help,
    /// Its version.
    Version,
    /// The version of Unicode by which it knows sets of code points.
    UnicodeVersion,
}

/// What the program is to show. A file `-` is standard input.
#[derive(Debug, Drop)]
pub enum Look {
    /// This of the program itself.
    About(About),
    /// This of one file.
    One {
        what: Subcommand,
        file: String,
        /// How patterns are read.
        patterns: PatternFlags,
    },
    /// Whether these two files do the same on every input.
    Same {
        left: String,
        right: String,
        /// How patterns are read.
        patterns: PatternFlags,
    },
    /// The definition of these sets of code points, of which there is one at least.
    Letters {
        sets: Vec<String>,
    },
    /// Every fault of the specification that these files are together.
    Check {
        files: Vec<String>,
        /// Whether it is one that the default rule copies a byte: `-s`. (flex, Scanner Options: -s.)
        strict: bool,
        /// Whether they are told as JSON.
        json: bool,
        /// How patterns are read.
        patterns: PatternFlags,
    },
    /// Inputs that go over the edges of a specification's automaton, with what their scans do.
    Suite {
        file: String,
        /// Where they are put, a file for each start condition: `-o`. Else they go to standard output.
        folder: Option<String>,
        /// How patterns are read.
        patterns: PatternFlags,
    },
}

/// Reads the words after the program's name: `picture FILE`, `same FILE FILE`, `lines FILE`, `words FILE`, `overlaps FILE`,
/// `trace FILE`, `cover FILE`, `header FILE`, `count FILE` or `check FILE..`, with `-i` or `-X` or without, and `check` with `-s` and `--json` too,
/// `trace` with `--offsets`, `header` with `--rust`, `count` with `--json`, `suite FILE` with `-o FOLDER` or without, `utf8 SET..`, or any words with `--help`, `-h` or `--version`. Behind `utf8` the version is that of Unicode. Flags may
/// be repeated. Words that it refuses by `Usage` ask for nothing.
pub fn read_args(alloc: Global, words: &[String]) -> Result<Look, ArgsError>
    ensures asked { IfOk result (AsksToShow (map string_bytes words.now)) }
    ensures refused { IfErr result (λ e. e ≡ ArgsError.Usage
        → (look : Look) → AsksToShow (map string_bytes words.now) look → ⊥) }
{
    if let Some(what) = about_of(words) {
        return Ok(Look::About(what));
    }
    let command = command(alloc)?;
    let matches = command.try_get_matches_from(words)?;
    look_of(alloc, &matches)
}

/// What the first of the words `--help`, `-h` and `--version` asks for, if it stands before any `--`.
fn about_of(words: &[String]) -> Option<About>
    ensures { result ≡ about_of (map string_bytes words.now) }
{
    first_about(told_version(words), words)
}

/// The version that `--version` asks for: the program's, and behind `utf8` that of Unicode.
fn told_version(words: &[String]) -> About
    ensures { result ≡ told_version (map string_bytes words.now) }
{
    let Some(word) = words.first() else {
        return About::Version;
    };
    if word.as_str() == "utf8" {
        About::UnicodeVersion
    } else {
        About::Version
    }
}

/// The same, where this is what `--version` asks for.
fn first_about(version: About, words: &[String]) -> Option<About>
    ensures { result ≡ first_about version (map string_bytes words.now) }
{
    for word in words {
        let text = word.as_str();
        if text == "--" {
            return None;
        }
        if text == "--help" || text == "-h" {
            return Some(About::Help);
        }
        if text == "--version" {
            return Some(version);
        }
    }
    None
}

/// How patterns are read.
const FOLD: (&str, Form) = ("fold", Form::Flag('i'));

const POSIX: (&str, Form) = ("posix", Form::Flag('X'));

/// The file of a subcommand.
const FILE: (&str, Form) = ("file", Form::Needed);

/// The words of a subcommand that has no others.
const ONE_FILE: &[(&str, Form)] = &[FOLD, POSIX, FILE];

/// The subcommands: their names, and the words behind each.
const LOOKS: &[(&str, &[(&str, Form)])] = &[
    ("picture", ONE_FILE),
    (
        "same",
        &[FOLD, POSIX, ("left", Form::Needed), ("right", Form::Needed)],
    ),
    ("lines", ONE_FILE),
    ("words", ONE_FILE),
    ("overlaps", ONE_FILE),
    ("trace", &[FOLD, POSIX, ("offsets", Form::LongFlag), FILE]),
    ("cover", ONE_FILE),
    ("header", &[FOLD, POSIX, ("rust", Form::LongFlag), FILE]),
    ("count", &[FOLD, POSIX, ("json", Form::LongFlag), FILE]),
    ("utf8", &[("set", Form::Several)]),
    (
        "check",
        &[
            FOLD,
            POSIX,
            ("strict", Form::Flag('s')),
            ("json", Form::LongFlag),
            ("file", Form::NeededSeveral),
        ],
    ),
    ("suite", &[FOLD, POSIX, ("out", Form::Value('o')), FILE]),
];

/// The subcommand of this name, with the words behind it.
fn look_command<'a>(
    alloc: Global,
    name: &'a str,
    words: &[(&'a str, Form)],
) -> Result<Command<'a>, AllocError>
    ensures { IfOk result (λ c. app_of c ≡ subcommand_app name.entry.now words.now) }
{
    let command = Command::new(alloc, name).disable_help_flag(true);
    with_words(alloc, command, words)
}

/// The command with this subcommand more.
fn with_look<'a>(
    alloc: Global,
    top: Command<'a>,
    name: &'a str,
    words: &[(&'a str, Form)],
) -> Result<Command<'a>, AllocError>
    ensures { IfOk result (λ c. app_of c
        ≡ with_subcommand (app_of top.entry) (subcommand_app name.entry.now words.now).top) }
{
    top.subcommand(look_command(alloc, name, words)?)
}

/// The command with these subcommands more.
fn with_looks<'a>(
    alloc: Global,
    top: Command<'a>,
    looks: &[(&'a str, &'a [(&'a str, Form)])],
) -> Result<Command<'a>, AllocError>
    ensures { IfOk result (λ c. app_of c ≡ fold with_subcommand (app_of top.entry)
        (map (λ look. (subcommand_app look.0.now look.1.now).top) looks.now)) }
{
    let mut with = top;
    for &(name, words) in looks {
        with = with_look(alloc, with, name, words)?;
    }
    Ok(with)
}

/// The words that the program knows.
fn command<'a>(alloc: Global) -> Result<Command<'a>, AllocError>
    ensures { IfOk result (λ c. app_of c ≡ lexlook_app) }
{
    let top = Command::new(alloc, "lexlook")
        .no_binary_name(true)
        .disable_help_flag(true)
        .disable_help_subcommand(true)
        .subcommand_required(true);
    with_looks(alloc, top, LOOKS)
}

/// What the matches ask for.
fn look_of(alloc: Global, matches: &ArgMatches<'_>) -> Result<Look, ArgsError>
    ensures asked { IfOk result (IsLookOf (subcommand_rows_of matches.now)) }
    ensures refused { IfErr result (λ e. e ≡ ArgsError.Usage
        → (look : Look) → IsLookOf (subcommand_rows_of matches.now) look → ⊥) }
{
    match matches.subcommand() {
        Some((name, found)) => look_behind(alloc, name, found),
        None => Err(ArgsError::Usage),
    }
}

/// What the matches behind the name of a subcommand ask for.
fn look_behind(alloc: Global, name: &str, found: &ArgMatches<'_>) -> Result<Look, ArgsError>
    ensures asked { IfOk result (IsLookOf (Some (name.now, rows_of (found_of found.now)))) }
    ensures refused { IfErr result (λ e. e ≡ ArgsError.Usage
        → (look : Look) → IsLookOf (Some (name.now, rows_of (found_of found.now))) look → ⊥) }
{
    if name == "same" {
        same_look(alloc, found)
    } else if name == "utf8" {
        letters_look(alloc, found)
    } else if name == "check" {
        check_look(alloc, found)
    } else if name == "suite" {
        suite_look(alloc, found)
    } else {
        one_look(alloc, name, found)
    }
}

/// The subcommand of this name, among those of one file, with its own flag as it stands there.
fn named(name: &str, found: &ArgMatches<'_>) -> Option<Subcommand>
    ensures some { IfSome result (λ what. (name.now ≡ name_of what) × HasOwn what (rows_of (found_of found.now))) }
    ensures none { result ≡ None → (what : Subcommand) → name.now ≡ name_of what → ⊥ }
{
    if name == "picture" {
        Some(Subcommand::Picture)
    } else if name == "lines" {
        Some(Subcommand::Lines)
    } else if name == "words" {
        Some(Subcommand::Words)
    } else if name == "overlaps" {
        Some(Subcommand::Overlaps)
    } else if name == "trace" {
        let offsets = has(found, "offsets");
        Some(Subcommand::Trace { offsets })
    } else if name == "cover" {
        Some(Subcommand::Cover)
    } else if name == "header" {
        let rust = has(found, "rust");
        Some(Subcommand::Header { rust })
    } else if name == "count" {
        let json = has(found, "json");
        Some(Subcommand::Count { json })
    } else {
        None
    }
}

/// What the matches behind the name of a subcommand of one file ask for.
fn one_look(alloc: Global, name: &str, found: &ArgMatches<'_>) -> Result<Look, ArgsError>
    ensures asked { IfOk result (IsLookOf (Some (name.now, rows_of (found_of found.now)))) }
    ensures refused { IfErr result (λ e. e ≡ ArgsError.Usage → name.now ≢ codes "same" → name.now ≢ codes "utf8"
        → name.now ≢ codes "check" → name.now ≢ codes "suite"
        → (look : Look) → IsLookOf (Some (name.now, rows_of (found_of found.now))) look → ⊥) }
{
    let what = match named(name, found) {
        None => return Err(ArgsError::Usage),
        Some(what) => what,
    };
    let file = match value_of(found, "file") {
        None => return Err(ArgsError::Usage),
        Some(file) => file,
    };
    Ok(Look::One {
        what,
        file: String::from_str(alloc, file)?,
        patterns: patterns_of(found),
    })
}

/// The comparison that the matches behind its name ask for.
fn same_look(alloc: Global, found: &ArgMatches<'_>) -> Result<Look, ArgsError>
    ensures asked { IfOk result (IsLookOf (Some (codes "same", rows_of (found_of found.now)))) }
    ensures refused { IfErr result (λ e. e ≡ ArgsError.Usage
        → (look : Look) → IsLookOf (Some (codes "same", rows_of (found_of found.now))) look → ⊥) }
{
    let left = match value_of(found, "left") {
        None => return Err(ArgsError::Usage),
        Some(file) => file,
    };
    let right = match value_of(found, "right") {
        None => return Err(ArgsError::Usage),
        Some(file) => file,
    };
    Ok(Look::Same {
        left: String::from_str(alloc, left)?,
        right: String::from_str(alloc, right)?,
        patterns: patterns_of(found),
    })
}

/// The definition that the matches behind its name ask for.
fn letters_look(alloc: Global, found: &ArgMatches<'_>) -> Result<Look, ArgsError>
    ensures asked { IfOk result (IsLookOf (Some (codes "utf8", rows_of (found_of found.now)))) }
    ensures refused { IfErr result (λ e. e ≡ ArgsError.Usage
        → (look : Look) → IsLookOf (Some (codes "utf8", rows_of (found_of found.now))) look → ⊥) }
{
    match values_of(found, "set") {
        None => Err(ArgsError::Usage),
        Some(sets) => Ok(Look::Letters {
            sets: copied(alloc, sets)?,
        }),
    }
}

/// The faults that the matches behind their name ask for.
fn check_look(alloc: Global, found: &ArgMatches<'_>) -> Result<Look, ArgsError>
    ensures asked { IfOk result (IsLookOf (Some (codes "check", rows_of (found_of found.now)))) }
    ensures memory { IfErr result (λ e. e ≡ ArgsError.OutOfMemory) }
{
    Ok(Look::Check {
        files: files_of(alloc, found)?,
        strict: has(found, "strict"),
        json: has(found, "json"),
        patterns: patterns_of(found),
    })
}

/// The value, as a text of its own.
fn own(alloc: Global, value: Option<&str>) -> Result<Option<String>, AllocError>
    ensures { IfOk result (λ o. option_map string_bytes o ≡ option_map (λ s. s.now) value.entry) }
{
    match value {
        None => Ok(None),
        Some(text) => Ok(Some(String::from_str(alloc, text)?)),
    }
}

/// The suite that the matches behind its name ask for.
fn suite_look(alloc: Global, found: &ArgMatches<'_>) -> Result<Look, ArgsError>
    ensures asked { IfOk result (IsLookOf (Some (codes "suite", rows_of (found_of found.now)))) }
    ensures refused { IfErr result (λ e. e ≡ ArgsError.Usage
        → (look : Look) → IsLookOf (Some (codes "suite", rows_of (found_of found.now))) look → ⊥) }
{
    let file = match value_of(found, "file") {
        None => return Err(ArgsError::Usage),
        Some(file) => file,
    };
    Ok(Look::Suite {
        file: String::from_str(alloc, file)?,
        folder: own(alloc, value_of(found, "out"))?,
        patterns: patterns_of(found),
    })
}
