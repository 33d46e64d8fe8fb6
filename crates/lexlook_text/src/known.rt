//! The names that a text declares, and those of statements and options.
ghost use Rattle.std.specs.Prelude.{◌≡◌, ◌++◌, IfOk, OnOk, codes, map};
ghost use Rattle.lexlook_text.specs.Known.{AreNamesOf, all_declared, argument_names, condition_names, declared_by, definition_names, front_name, stack_words_in, statement_words};
ghost use Rattle.lexlook_text.specs.LineViews.{line_of};

use crate::definitions::{Line, LineKind, section_lines};
use crate::names::{has_word, split_word};
use lexre_bytes::split_name;
use lexspec_lines::split_line;
use std::alloc::{AllocError, Global};

/// The names that have a meaning in a text, each list as words.
#[derive(Drop)]
pub struct KnownNames {
    /// Its conditions.
    pub conditions: Vec<u8>,
    /// What may stand in its actions beside the words of statements: those of the stack, and conditions.
    pub arguments: Vec<u8>,
    /// What may stand in its actions.
    pub words: Vec<u8>,
    /// Its definitions.
    pub definitions: Vec<u8>,
}

/// The options that are read.
pub const OPTIONS: &[u8] =
    b"noyywrap nounput noinput yylineno 8bit batch interactive always-interactive never-interactive case-insensitive stack";

/// The classes of the POSIX locale.
pub const CLASSES: &[u8] =
    b"alpha digit alnum upper lower space blank cntrl graph print punct xdigit";

/// The words of statements.
pub const STATEMENTS: &[u8] =
    b"ECHO REJECT BEGIN printf fputs puts yymore yyless yyterminate exit yytext yyout ";

/// Those of the stack of conditions.
const STACK: &[u8] = b"yy_push_state yy_pop_state ";

/// No words.
const NOTHING: &[u8] = b"";

/// The words that declare conditions.
pub(crate) const DECLARING: &[u8] = b"%s %S %start %Start %x %X";

/// Appends what the line that begins the text has behind its first word, where that is one of these.
fn add_declared(names: &mut Vec<u8>, firsts: &[u8], text: &[u8]) -> Result<(), AllocError>
    ensures { OnOk result (names.new.items ≡ names.old.items ++ declared_by firsts.now text.now) }
{
    let (word, rest) = split_word(split_line(text).0);
    if !has_word(firsts, word) {
        return Ok(());
    }
    names.extend_from_slice(rest)?;
    names.extend_from_slice(b" ")
}

/// Appends what lines have behind their first words, where these are some of these.
fn add_all_declared(
    names: &mut Vec<u8>,
    firsts: &[u8],
    declarations: &[Line<'_>],
) -> Result<(), AllocError>
    ensures { OnOk result (names.new.items
        ≡ names.old.items ++ all_declared firsts.now (map line_of declarations.now)) }
{
    for line in declarations {
        add_declared(names, firsts, line.text)?;
    }
    Ok(())
}

/// The conditions that these lines declare, and INITIAL.
fn condition_names(alloc: Global, declarations: &[Line<'_>]) -> Result<Vec<u8>, AllocError>
    ensures { IfOk result (λ names. names.items ≡ condition_names (map line_of declarations.now)) }
{
    let mut names = Vec::from_slice(alloc, b"INITIAL ")?;
    add_all_declared(&mut names, DECLARING, declarations)?;
    Ok(names)
}

/// The words of the stack of conditions, where these lines set its option.
fn stack_words(alloc: Global, declarations: &[Line<'_>]) -> Result<&'static [u8], AllocError>
    ensures { IfOk result (λ words. words.now ≡ stack_words_in (map line_of declarations.now)) }
{
    let mut options = Vec::new(alloc);
    add_all_declared(&mut options, b"%option", declarations)?;
    if has_word(options.as_slice(), b"stack") {
        Ok(STACK)
    } else {
        Ok(NOTHING)
    }
}

/// What may stand in an action beside the words of statements, where these lines declare these conditions.
fn argument_names(
    alloc: Global,
    declarations: &[Line<'_>],
    conditions: &[u8],
) -> Result<Vec<u8>, AllocError>
    requires { conditions.now ≡ condition_names (map line_of declarations.now) }
    ensures { IfOk result (λ names. names.items ≡ argument_names (map line_of declarations.now)) }
{
    let stack = stack_words(alloc, declarations)?;
    let mut names = Vec::from_slice(alloc, stack)?;
    names.extend_from_slice(conditions)?;
    Ok(names)
}

/// What may stand in an action, where this may beside the words of statements.
fn action_names(alloc: Global, arguments: &[u8]) -> Result<Vec<u8>, AllocError>
    ensures { IfOk result (λ names. names.items ≡ statement_words ++ arguments.now) }
{
    let mut names = Vec::from_slice(alloc, STATEMENTS)?;
    names.extend_from_slice(arguments)?;
    Ok(names)
}

/// Appends the name that begins the text, and a blank.
fn add_defined(names: &mut Vec<u8>, text: &[u8]) -> Result<(), AllocError>
    ensures { OnOk result (names.new.items ≡ names.old.items ++ (front_name text.now ++ codes " ")) }
{
    names.extend_from_slice(split_name(text).0)?;
    names.extend_from_slice(b" ")
}

/// The names of these definitions.
fn definition_names(alloc: Global, definitions: &[Line<'_>]) -> Result<Vec<u8>, AllocError>
    ensures { IfOk result (λ names. names.items ≡ definition_names (map line_of definitions.now)) }
{
    let mut names = Vec::new(alloc);
    for line in definitions {
        add_defined(&mut names, line.text)?;
    }
    Ok(names)
}

/// The names that have a meaning in a text with these lines.
pub fn names_of(alloc: Global, lines: &[Line<'_>]) -> Result<KnownNames, AllocError>
    ensures { IfOk result (λ names. AreNamesOf (map line_of lines.now) names) }
{
    let declarations = section_lines(alloc, LineKind::Declaration, lines)?;
    let defining = section_lines(alloc, LineKind::Definition, lines)?;
    let conditions = condition_names(alloc, declarations.as_slice())?;
    let arguments = argument_names(alloc, declarations.as_slice(), conditions.as_slice())?;
    let words = action_names(alloc, arguments.as_slice())?;
    let definitions = definition_names(alloc, defining.as_slice())?;
    Ok(KnownNames {
        conditions,
        arguments,
        words,
        definitions,
    })
}
