//! The words of command lines.
use crate::answer::Answer;
use crate::row::Row;
use lex_command::{ArgsError, read_args, read_look_args};
use lexlook_unicode::definition_of;
use std::alloc::{AllocError, Global};
use std::fmt::Debug;

/// The words of a row, each in a line.
fn words_of(alloc: Global, row: &Row<'_>) -> Result<Vec<String>, AllocError> {
    let mut words = Vec::new(alloc);
    let text = std::str::from_utf8(row.value("words")).unwrap_or("no text");
    for word in text.lines() {
        words.push(String::from_str(alloc, word)?)?;
    }
    Ok(words)
}

/// Tells what is asked for, in the form of the debugger.
fn asked<T: Debug>(alloc: Global, answer: &Result<T, ArgsError>) -> Result<Answer, AllocError> {
    let line = match answer {
        Ok(asked) => format!(in alloc; "{asked:?}\n")?,
        Err(error) => format!(in alloc; "{error}\n")?,
    };
    Answer::telling(alloc, line.as_str())
}

/// Tells what the words of a command line of lex ask for.
pub(crate) fn arguments(alloc: Global, row: &Row<'_>) -> Result<Answer, AllocError> {
    let words = words_of(alloc, row)?;
    asked(alloc, &read_args(alloc, words.as_slice()))
}

/// Tells what the words of a command line of lexlook ask for.
pub(crate) fn look(alloc: Global, row: &Row<'_>) -> Result<Answer, AllocError> {
    let words = words_of(alloc, row)?;
    asked(alloc, &read_look_args(alloc, words.as_slice()))
}

/// Writes the definition of the sets of a row.
pub(crate) fn letters(alloc: Global, row: &Row<'_>) -> Result<Answer, AllocError> {
    let words = words_of(alloc, row)?;
    match definition_of(alloc, words.as_slice()) {
        Ok(written) => Ok(Answer {
            written,
            told: Vec::new(alloc),
        }),
        Err(error) => {
            let line = format!(in alloc; "{error}\n")?;
            Answer::telling(alloc, line.as_str())
        }
    }
}
