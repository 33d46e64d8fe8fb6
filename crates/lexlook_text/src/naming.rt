//! Where the conditions that a text declares stand, and its definitions. (flex, Start Conditions.)
ghost use Rattle.std.specs.Prelude.{◌≡◌, ◌<◌, ◌+◌, ◌^◌, ◌++◌, true, IfOk, OnOk, length, map, option_map};
ghost use Rattle.lexlook_text.specs.DeclaredNames.{again_in, declared_conditions, declared_in, declared_name_of, defined_names, first_named, front_place, is_again, is_behind, words_from};
ghost use Rattle.lexlook_text.specs.LineViews.{line_of};

use crate::definitions::{Line, LineKind, section_lines};
use crate::known::DECLARING;
use crate::names::{has_word, split_word};
use lexre_bytes::split_name;
use lexspec_lines::{is_blank, split_line};
use std::alloc::{AllocError, Global};

/// The name of a condition or a definition, where it is declared.
#[derive(Clone, Copy)]
pub struct DeclaredName<'a> {
    /// Its line, from 1.
    pub line: u32,
    /// How many bytes of that stand before it.
    pub at: usize,
    /// The name.
    pub name: &'a [u8],
}

/// Appends the words of a text, before which so many bytes of the line stand.
fn add_words<'a>(
    found: &mut Vec<DeclaredName<'a>>,
    line: u32,
    before: usize,
    text: &'a [u8],
) -> Result<(), AllocError>
    requires { before + length text.now < 2 ^ 64 }
    ensures { OnOk result (map declared_name_of found.new.items
        ≡ map declared_name_of found.old.items ++ words_from line before true text.now) }
{
    let mut rest = text;
    let mut at = before;
    let mut fresh = true;
    'bytes: while let Some((first, next)) = rest.split_first() {
        let blank = is_blank(*first);
        if fresh && !blank {
            let name = split_word(rest).0;
            found.push(DeclaredName { line, at, name })?;
        }
        fresh = blank;
        at += 1;
        rest = next;
    }
    Ok(())
}

/// Appends the conditions that a line declares.
fn add_declared_in<'a>(found: &mut Vec<DeclaredName<'a>>, line: Line<'a>) -> Result<(), AllocError>
    ensures { OnOk result (map declared_name_of found.new.items
        ≡ map declared_name_of found.old.items ++ declared_in (line_of line.entry)) }
{
    let (word, rest) = split_word(split_line(line.text).0);
    if !has_word(DECLARING, word) {
        return Ok(());
    }
    add_words(found, line.number, word.len(), rest)
}

/// The conditions that a text with these lines declares, but for INITIAL.
pub fn declared_conditions<'a>(
    alloc: Global,
    lines: &[Line<'a>],
) -> Result<Vec<DeclaredName<'a>>, AllocError>
    ensures { IfOk result (λ found. map declared_name_of found.items ≡ declared_conditions (map line_of lines.now)) }
{
    let declarations = section_lines(alloc, LineKind::Declaration, lines)?;
    let mut found = Vec::new(alloc);
    for line in declarations.as_slice() {
        add_declared_in(&mut found, *line)?;
    }
    Ok(found)
}

/// The name that begins a line.
fn front_place(line: Line<'_>) -> DeclaredName<'_>
    ensures { declared_name_of result ≡ front_place (line_of line.entry) }
{
    DeclaredName {
        line: line.number,
        at: 0,
        name: split_name(line.text).0,
    }
}

/// The definitions that stand in these lines, each at its name.
pub fn defined_names<'a>(
    alloc: Global,
    lines: &[Line<'a>],
) -> Result<Vec<DeclaredName<'a>>, AllocError>
    ensures { IfOk result (λ found. map declared_name_of found.items ≡ defined_names (map line_of lines.now)) }
{
    let definitions = section_lines(alloc, LineKind::Definition, lines)?;
    let mut found = Vec::new(alloc);
    for line in definitions.as_slice() {
        found.push(front_place(*line))?;
    }
    Ok(found)
}

/// Of names at their places the first that is this one.
pub fn first_named<'a>(places: &[DeclaredName<'a>], name: &[u8]) -> Option<DeclaredName<'a>>
    ensures { option_map declared_name_of result ≡ first_named name.now (map declared_name_of places.now) }
{
    for place in places {
        if place.name == name {
            return Some(*place);
        }
    }
    None
}

/// Whether a name does not stand at the place of the first that is the same.
fn is_behind(place: DeclaredName<'_>, first: Option<DeclaredName<'_>>) -> bool
    ensures { result ≡ is_behind (declared_name_of place.entry) (option_map declared_name_of first.entry) }
{
    match first {
        None => false,
        Some(first) => !(first.line == place.line && first.at == place.at),
    }
}

/// Whether a condition is declared before, among all that are: INITIAL always is.
fn is_again(all: &[DeclaredName<'_>], place: DeclaredName<'_>) -> bool
    ensures { result ≡ is_again (map declared_name_of all.now) (declared_name_of place.entry) }
{
    place.name == b"INITIAL".as_slice() || is_behind(place, first_named(all, place.name))
}

/// Of these conditions the first at this line that is declared before.
pub fn declared_again<'a>(all: &[DeclaredName<'a>], line: u32) -> Option<DeclaredName<'a>>
    ensures { option_map declared_name_of result
        ≡ again_in (map declared_name_of all.now) line (map declared_name_of all.now) }
{
    for place in all {
        if place.line == line && is_again(all, *place) {
            return Some(*place);
        }
    }
    None
}
