//! The lines of the definitions section. (POSIX, lex, Definitions in lex; flex, Format of the Input File.)
ghost use Rattle.std.specs.Prelude.{◌≡◌, ◌<◌, ◌&&◌, ◌==◌, if◌then◌else◌, List, [], ◌∷◌, ℕ};
ghost use Rattle.std.specs.Prelude.{nat_eq, not, Option, Some, None, length, option_map, IfOk, OnErr, codes};
ghost use Rattle.std.specs.List.{list_all, ends_with};
ghost use Rattle.lexspec_lines.specs.Lines.{words};
ghost use Rattle.lexspec_lines.specs.DefinitionLines.{DefinitionLine as Meant, options, ignored, is_name};
ghost use Rattle.lexspec_lines.specs.DefinitionLines.{trimmed, declaration};
ghost use Rattle.lexspec_lines.specs.DefinitionLines.{definition_in, percent_line, definition_at};
ghost use Rattle.lexspec_lines.specs.DefinitionViews.{definition_of, are_names};
ghost use Rattle.lex_semantics.specs.Reading.{begins};
ghost use Rattle.lex_semantics.specs.ByteSets.{is_digit};

use crate::lines::{
    has_word, is_all_blank, is_blank, next_word, skip_blanks, split_before, split_line, split_word,
    starts_blank,
};
use crate::skipping::{skip_block, skip_comment};
use lexre_bytes::{skip_first, split_name, starts_name};

/// A line of the definitions section, with the lines of a comment or block that it opens.
#[derive(Clone, Copy)]
pub(crate) enum Definition<'a> {
    /// A line of blanks or nothing, or a comment.
    Nothing,
    /// A line of code.
    CodeLine,
    /// A block `%{ .. %}`.
    CodeBlock,
    /// `%s` and `%x`, with the text in which the names stand.
    Declares { exclusive: bool, names: &'a [u8] },
    /// `%option`, with the text in which the options stand.
    Options(&'a [u8]),
    /// A line without effect.
    Ignored,
    /// A name and its substitute.
    Defines { name: &'a [u8], text: &'a [u8] },
}

/// Why a line is no definition.
#[derive(Clone, Copy)]
pub(crate) enum DefinitionFault<'a> {
    /// It has none of the forms of a definition.
    BadLine,
    /// The block or the comment is not closed.
    Unclosed,
    /// The substitute of this name begins with `^` or ends with `$`.
    Anchored { name: &'a [u8] },
}

/// Whether the word is a name.
fn is_name(word: &[u8]) -> bool
    ensures { result ≡ is_name word.now }
{
    match word.split_first() {
        Some((first, _)) => starts_name(*first) && split_name(word).1.is_empty(),
        None => false,
    }
}

/// Whether each word is a name.
fn are_names(text: &[u8]) -> bool
    ensures { result ≡ are_names (words text.now) }
{
    let mut rest = text;
    while let Some((word, after)) = next_word(rest) {
        if !is_name(word) {
            return false;
        }
        rest = after;
    }
    true
}

/// The text without the blanks at its end, but for one directly after a backslash.
fn trimmed(text: &[u8]) -> &[u8]
    ensures { result.now ≡ trimmed text.now }
{
    let mut end = text.len();
    while end > 0 && is_blank(text[end - 1]) {
        end -= 1;
    }
    if end > 0 && end < text.len() && text[end - 1] == b'\\' {
        end += 1;
    }
    text.split_at(end).0
}

/// Whether the text ends with a `$` that is not directly after a backslash.
fn ends_anchored(text: &[u8]) -> bool
    ensures { result ≡ (ends_with nat_eq text.now (codes "$")
        && not (ends_with nat_eq text.now (codes "\\$"))) }
{
    let count = text.len();
    if count == 0 {
        return false;
    }
    if count == 1 {
        return text[0] == b'$';
    }
    text[count - 1] == b'$' && text[count - 2] != b'\\'
}

/// The definition of a name, in a line.
#[tactic(auto, using(crate::proofs::LineForms::definition_is), unfolding(crate::specs::LineSteps::definition_from))]
fn definition_in(line: &[u8]) -> Result<Definition<'_>, DefinitionFault<'_>>
    ensures found { IfOk result (λ d. ◌≡◌ {A = Option Meant} (definition_in line.now) (Some (definition_of d))) }
    ensures none { OnErr result (◌≡◌ {A = Option Meant} (definition_in line.now) None) }
{
    let Some((first, _)) = line.split_first() else {
        return Err(DefinitionFault::BadLine);
    };
    let (name, rest) = split_name(line);
    let text = trimmed(skip_blanks(rest));
    if !starts_name(*first) || !starts_blank(rest) || text.is_empty() {
        return Err(DefinitionFault::BadLine);
    }
    if text.starts_with(b"^") || ends_anchored(text) {
        return Err(DefinitionFault::Anchored { name });
    }
    Ok(Definition::Defines { name, text })
}

/// The declaration of these names, if there are some.
fn declaration(exclusive: bool, names: &[u8]) -> Option<Definition<'_>>
    ensures { ◌≡◌ {A = Option Meant} (option_map definition_of result) (declaration exclusive (words names.now)) }
{
    if next_word(names).is_none() || !are_names(names) {
        return None;
    }
    Some(Definition::Declares { exclusive, names })
}

/// The options of a line, if there are some.
fn options(text: &[u8]) -> Option<Definition<'_>>
    ensures { ◌≡◌ {A = Option Meant} (option_map definition_of result)
        (if length (words text.now) == 0 then None else Some (options (words text.now))) }
{
    if next_word(text).is_none() {
        return None;
    }
    Some(Definition::Options(text))
}

/// A line without effect, if nothing but blanks follows its word.
fn alone(text: &[u8]) -> Option<Definition<'_>>
    ensures { ◌≡◌ {A = Option Meant} (option_map definition_of result)
        (if length (words text.now) == 0 then Some ignored else None) }
{
    if next_word(text).is_some() {
        return None;
    }
    Some(Definition::Ignored)
}

/// Whether the word has digits alone.
fn is_number(word: &[u8]) -> bool
    ensures { result ≡ list_all is_digit word.now }
{
    split_before(|byte| !byte.is_ascii_digit(), word)
        .1
        .is_empty()
}

/// A line without effect, if one number follows its word.
fn number(text: &[u8]) -> Option<Definition<'_>>
    ensures { ◌≡◌ {A = Option Meant} (option_map definition_of result)
        (if length (words text.now) == 1 && list_all (list_all is_digit) (words text.now) then Some ignored else None) }
{
    let (digits, after) = next_word(text)?;
    if next_word(after).is_some() || !is_number(digits) {
        return None;
    }
    Some(Definition::Ignored)
}

/// The words that declare inclusive conditions, and those that declare exclusive ones.
const INCLUSIVE: &[u8] = b"%s %S %start %Start";

const EXCLUSIVE: &[u8] = b"%x %X";

/// The words that say how yytext is kept, and those that give the size of a table.
const STORAGE: &[u8] = b"%array %pointer";

const SIZES: &[u8] = b"%p %n %a %e %k %o";

/// A line that begins with `%`.
#[tactic(auto, unfolding(crate::specs::DefinitionLines::percent_line))]
fn percent_line(line: &[u8]) -> Option<Definition<'_>>
    ensures { ◌≡◌ {A = Option Meant} (option_map definition_of result) (percent_line line.now) }
{
    let (word, rest) = split_word(line);
    if has_word(INCLUSIVE, word) {
        declaration(false, rest)
    } else if has_word(EXCLUSIVE, word) {
        declaration(true, rest)
    } else if word == b"%option".as_slice() {
        options(rest)
    } else if has_word(STORAGE, word) {
        alone(rest)
    } else if has_word(SIZES, word) {
        number(rest)
    } else {
        None
    }
}

/// The definition that begins the text, which has no line that begins with `%%` there, and the text after it.
#[tactic(auto, unfolding(crate::specs::DefinitionLines::definition_at))]
pub(crate) fn definition_at(text: &[u8]) -> Result<(Definition<'_>, &[u8]), DefinitionFault<'_>>
    ensures found { IfOk result (λ x. ◌≡◌ {A = Option (Meant
        × List ℕ)} (definition_at text.now) (Some (definition_of x.0, x.1.now))) }
    ensures shorter { IfOk result (λ x. length x.1.now < length text.now) }
    ensures none { OnErr result (◌≡◌ {A = Option (Meant × List ℕ)} (definition_at text.now) None) }
{
    if text.is_empty() {
        return Err(DefinitionFault::BadLine);
    }
    let (line, rest) = split_line(text);
    if is_all_blank(line) {
        return Ok((Definition::Nothing, rest));
    }
    if starts_blank(line) {
        return Ok((Definition::CodeLine, rest));
    }
    if line.starts_with(b"%%") {
        return Err(DefinitionFault::BadLine);
    }
    if line.starts_with(b"%{") {
        return match skip_block(rest) {
            Some(after) => Ok((Definition::CodeBlock, after)),
            None => Err(DefinitionFault::Unclosed),
        };
    }
    if line.starts_with(b"/*") {
        return match skip_comment(skip_first(skip_first(text))) {
            Some(after) => Ok((Definition::Nothing, after)),
            None => Err(DefinitionFault::Unclosed),
        };
    }
    let definition = definition_of_line(line)?;
    Ok((definition, rest))
}

/// The definition of a line that opens neither a block nor a comment.
fn definition_of_line(line: &[u8]) -> Result<Definition<'_>, DefinitionFault<'_>>
    ensures found { IfOk result (λ d. ◌≡◌ {A = Option Meant}
        (if begins (codes "%") line.now then percent_line line.now else definition_in line.now)
        (Some (definition_of d))) }
    ensures none { OnErr result (◌≡◌ {A = Option Meant}
        (if begins (codes "%") line.now then percent_line line.now else definition_in line.now) None) }
{
    if !line.starts_with(b"%") {
        return definition_in(line);
    }
    match percent_line(line) {
        Some(definition) => Ok(definition),
        None => Err(DefinitionFault::BadLine),
    }
}
