//! The words that a command line knows, as rows of a table, and a command that knows them.
ghost use Rattle.std.specs.Prelude.{◌≡◌, IfOk, false, fold};
ghost use Rattle.clap.specs.Words.{app_of, rule_of, with_rule};
ghost use Rattle.lex_command.specs.CommandLine.{letter_rule, word_rule, words_rule};
ghost use Rattle.lex_command.specs.Flags.{flag_rule};
ghost use Rattle.lex_command.specs.Forms.{form_rule, rules_of};
ghost use Rattle.lex_command.specs.LookLine.{long_rule, needed_rule, needed_words_rule};

use clap::{Arg, ArgAction, Command};
use std::alloc::{AllocError, Global};

/// How a word stands in a command line.
#[derive(Clone, Copy)]
pub(crate) enum Form {
    /// A flag of this letter, which may be repeated.
    Flag(char),
    /// A flag that is a word, as `--json`, which may be repeated.
    LongFlag,
    /// A value behind this letter.
    Value(char),
    /// A value behind a word, as `--scan-spec`.
    LongValue,
    /// A word that stands for itself, and has to stand there.
    Needed,
    /// Words that stand for themselves.
    Several,
    /// The same, one of which has to stand there.
    NeededSeveral,
}

/// A flag, which may be repeated.
fn flag<'a>(alloc: Global, name: &'a str, letter: char) -> Arg<'a>
    ensures rule { rule_of result ≡ flag_rule name.entry.now letter }
    ensures global { result.global ≡ false }
{
    Arg::new(alloc, name).short(letter).action(ArgAction::Count)
}

/// A flag that is a word, which may be repeated.
fn long_flag<'a>(alloc: Global, name: &'a str) -> Arg<'a>
    ensures rule { rule_of result ≡ long_rule name.entry.now }
    ensures global { result.global ≡ false }
{
    Arg::new(alloc, name).long(name).action(ArgAction::Count)
}

/// A letter that has a value.
fn value<'a>(alloc: Global, name: &'a str, letter: char) -> Arg<'a>
    ensures rule { rule_of result ≡ letter_rule name.entry.now letter }
    ensures global { result.global ≡ false }
{
    Arg::new(alloc, name).short(letter).action(ArgAction::Set)
}

/// A word that has a value.
fn long_value<'a>(alloc: Global, name: &'a str) -> Arg<'a>
    ensures rule { rule_of result ≡ word_rule name.entry.now }
    ensures global { result.global ≡ false }
{
    Arg::new(alloc, name).long(name).action(ArgAction::Set)
}

/// A word that stands for itself, and has to stand there.
fn needed<'a>(alloc: Global, name: &'a str) -> Arg<'a>
    ensures rule { rule_of result ≡ needed_rule name.entry.now }
    ensures global { result.global ≡ false }
{
    Arg::new(alloc, name).required(true).action(ArgAction::Set)
}

/// Words that stand for themselves.
fn several<'a>(alloc: Global, name: &'a str) -> Arg<'a>
    ensures rule { rule_of result ≡ words_rule name.entry.now }
    ensures global { result.global ≡ false }
{
    Arg::new(alloc, name)
        .num_args(1..)
        .action(ArgAction::Append)
}

/// The same, one of which has to stand there.
fn needed_several<'a>(alloc: Global, name: &'a str) -> Arg<'a>
    ensures rule { rule_of result ≡ needed_words_rule name.entry.now }
    ensures global { result.global ≡ false }
{
    several(alloc, name).required(true)
}

/// The word of this name.
fn word<'a>(alloc: Global, name: &'a str, form: Form) -> Arg<'a>
    ensures rule { rule_of result ≡ form_rule name.entry.now form }
    ensures global { result.global ≡ false }
{
    match form {
        Form::Flag(letter) => flag(alloc, name, letter),
        Form::LongFlag => long_flag(alloc, name),
        Form::Value(letter) => value(alloc, name, letter),
        Form::LongValue => long_value(alloc, name),
        Form::Needed => needed(alloc, name),
        Form::Several => several(alloc, name),
        Form::NeededSeveral => needed_several(alloc, name),
    }
}

/// The command with these words more.
pub(crate) fn with_words<'a>(
    alloc: Global,
    command: Command<'a>,
    words: &[(&'a str, Form)],
) -> Result<Command<'a>, AllocError>
    ensures { IfOk result (λ c. app_of c ≡ fold with_rule (app_of command.entry) (rules_of words.now)) }
{
    let mut with = command;
    for &(name, form) in words {
        with = with.arg(word(alloc, name, form))?;
    }
    Ok(with)
}
