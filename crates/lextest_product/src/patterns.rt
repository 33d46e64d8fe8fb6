//! Patterns.
ghost use Rattle.std.specs.Prelude.{IfOk};
ghost use Rattle.lex_semantics.specs.Shapes.{IsSoundTree};
ghost use Rattle.lexre.specs.Views.{tree_of};

use crate::answer::Answer;
use crate::reading::split_word;
use crate::row::Row;
use crate::scans::read_options;
use lexre::{
    Cutting, Defs, DefsError, Lengths, Pattern, PatternError, cut_pattern, lengths as lengths_of,
    positions as positions_of, read_pattern,
};
use std::alloc::{AllocError, Global};

/// The definitions of a row: a name and its text in each line.
fn definitions_of(alloc: Global, row: &Row<'_>) -> Result<Defs, DefsError> {
    let mut definitions = Defs::new(alloc);
    for line in row.value("names").split(|byte| *byte == b'\n') {
        let (name, text) = split_word(line);
        if !name.is_empty() {
            definitions.add(name, text)?;
        }
    }
    Ok(definitions)
}

/// The pattern of a row, or what is told in its place.
pub(crate) fn pattern_of(
    alloc: Global,
    row: &Row<'_>,
) -> Result<Result<Pattern, String>, AllocError>
    ensures sound { IfOk result (λ read. IfOk read (λ p. IsSoundTree (tree_of p))) }
{
    let Ok(definitions) = definitions_of(alloc, row) else {
        return Ok(Err(String::from_str(alloc, "definitions that are none\n")?));
    };
    match read_pattern(alloc, row.value("text"), &definitions, read_options(row)) {
        Ok(pattern) => Ok(Ok(pattern)),
        Err(error) => Ok(Err(format!(in alloc; "{error}\n")?)),
    }
}

/// Tells why a text is no pattern, if it is none.
pub(crate) fn pattern(alloc: Global, row: &Row<'_>) -> Result<Answer, AllocError> {
    match pattern_of(alloc, row)? {
        Ok(_) => Answer::telling(alloc, ""),
        Err(told) => Answer::telling(alloc, told.as_str()),
    }
}

/// The line of the lengths of a pattern.
fn line_of_lengths(alloc: Global, lengths: Option<Lengths>) -> Result<String, AllocError> {
    match lengths {
        Some(
            Lengths {
                min,
                max: Some(max),
            },
        ) => format!(in alloc; "{min} to {max}\n"),
        Some(Lengths { min, max: None }) => format!(in alloc; "{min} or more\n"),
        None => String::from_str(alloc, "too long\n"),
    }
}

/// Tells how long the texts of a pattern are.
pub(crate) fn lengths(alloc: Global, row: &Row<'_>) -> Result<Answer, AllocError> {
    match pattern_of(alloc, row)? {
        Ok(pattern) => {
            let line = line_of_lengths(alloc, lengths_of(&pattern))?;
            Answer::telling(alloc, line.as_str())
        }
        Err(told) => Answer::telling(alloc, told.as_str()),
    }
}

/// Tells how many positions a pattern has.
pub(crate) fn positions(alloc: Global, row: &Row<'_>) -> Result<Answer, AllocError> {
    match pattern_of(alloc, row)? {
        Ok(pattern) => match positions_of(&pattern) {
            Some(count) => {
                let line = format!(in alloc; "{count}\n")?;
                Answer::telling(alloc, line.as_str())
            }
            None => Answer::telling(alloc, "too many\n"),
        },
        Err(told) => Answer::telling(alloc, told.as_str()),
    }
}

/// The line of the end of a pattern, of its first slash, of a second one, and of a special `$`.
fn line_of_cut(alloc: Global, cut: Result<Cutting, PatternError>) -> Result<String, AllocError> {
    let Cutting {
        end,
        slash,
        two,
        dollar,
    } = match cut {
        Ok(cutting) => cutting,
        Err(error) => return format!(in alloc; "{error}\n"),
    };
    let mut line = format!(in alloc; "end {end}")?;
    if let Some(slash) = slash {
        line.push_str(&format!(in alloc; ", slash {slash}")?)?;
    }
    line.push_str(if two { ", another slash" } else { "" })?;
    line.push_str(if dollar { ", dollar\n" } else { "\n" })?;
    Ok(line)
}

/// Tells where a pattern ends.
pub(crate) fn cut(alloc: Global, row: &Row<'_>) -> Result<Answer, AllocError> {
    let line = line_of_cut(alloc, cut_pattern(row.value("text")))?;
    Answer::telling(alloc, line.as_str())
}
