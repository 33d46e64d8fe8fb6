//! Where the name at the place of a fault is defined or declared.
ghost use Rattle.std.specs.Prelude.{◌≡◌, ◌++◌, IfOk, OnOk, map, option_map};
ghost use Rattle.lexlook_text.specs.DeclaredNames.{declared_name_of};
ghost use Rattle.lexlook_text.specs.LineViews.{line_of};
ghost use Rattle.lexlook_check.specs.Findings.{known_lines};
ghost use Rattle.lexlook_check.specs.Homes.{again_spot, braced_name, declared_home, defined_home, home_of, home_told, home_verb, home_words, name_spot};

use crate::adding::add_each;
use crate::findings::{What, known_lines};
use crate::lines::add_place;
use crate::places::SourceFile;
use lexlook_specs::add;
use lexlook_text::{
    DeclaredName, Line, Spot, declared_again, declared_conditions, defined_names, first_named,
    split_word,
};
use lexre_bytes::split_name;
use lexspec::SpecErrorKind;
use std::alloc::{AllocError, Global};

/// The place of a name as that of a word.
fn name_spot(place: Option<DeclaredName<'_>>) -> Option<Spot>
    ensures { result ≡ name_spot (option_map declared_name_of place.entry) }
{
    match place {
        None => None,
        Some(place) => Some(Spot {
            line: place.line,
            at: place.at,
            size: place.name.len(),
        }),
    }
}

/// Of a fault of this kind at a line the name of the condition that is declared again.
pub(crate) fn again_spot(
    alloc: Global,
    lines: &[Line<'_>],
    line: u32,
    kind: SpecErrorKind,
) -> Result<Option<Spot>, AllocError>
    ensures { IfOk result (λ spot. spot ≡ again_spot (map line_of lines.now) line kind) }
{
    match kind {
        SpecErrorKind::DuplicateCondition => {
            let places = declared_conditions(alloc, lines)?;
            Ok(name_spot(declared_again(places.as_slice(), line)))
        }
        _ => Ok(None),
    }
}

/// The name in braces that begins the text.
fn braced_name(text: &[u8]) -> Option<&[u8]>
    ensures { option_map (λ name. name.now) result ≡ braced_name text.now }
{
    let Some((first, next)) = text.split_first() else {
        return None;
    };
    let (name, rest) = split_name(next);
    if *first == b'{' && rest.starts_with(b"}") {
        Some(name)
    } else {
        None
    }
}

/// Where a text with these lines defines a name first.
fn defined_home<'a>(
    alloc: Global,
    lines: &[Line<'a>],
    name: Option<&[u8]>,
) -> Result<Option<DeclaredName<'a>>, AllocError>
    ensures { IfOk result (λ place. option_map declared_name_of place
        ≡ defined_home (map line_of lines.now) (option_map (λ n. n.now) name.entry)) }
{
    match name {
        None => Ok(None),
        Some(name) => {
            let places = defined_names(alloc, lines)?;
            Ok(first_named(places.as_slice(), name))
        }
    }
}

/// Where a text with these lines declares a condition first. No line declares INITIAL.
fn declared_home<'a>(
    alloc: Global,
    lines: &[Line<'a>],
    name: &[u8],
) -> Result<Option<DeclaredName<'a>>, AllocError>
    ensures { IfOk result (λ place. option_map declared_name_of place
        ≡ declared_home (map line_of lines.now) name.now) }
{
    if name == b"INITIAL".as_slice() {
        return Ok(None);
    }
    let places = declared_conditions(alloc, lines)?;
    Ok(first_named(places.as_slice(), name))
}

/// The same of the name that a fault of this kind is about, where this text stands at its place.
fn home_of<'a>(
    alloc: Global,
    lines: &[Line<'a>],
    kind: SpecErrorKind,
    rest: &[u8],
) -> Result<Option<DeclaredName<'a>>, AllocError>
    ensures { IfOk result (λ place. option_map declared_name_of place
        ≡ home_of (map line_of lines.now) kind rest.now) }
{
    match kind {
        SpecErrorKind::DuplicateName => defined_home(alloc, lines, Some(split_name(rest).0)),
        SpecErrorKind::DuplicateCondition => declared_home(alloc, lines, split_word(rest).0),
        SpecErrorKind::Pattern(_) => defined_home(alloc, lines, braced_name(rest)),
        _ => Ok(None),
    }
}

/// What is done with such a name.
fn home_verb(kind: SpecErrorKind) -> &'static str
    ensures { result.now ≡ home_verb kind }
{
    match kind {
        SpecErrorKind::DuplicateCondition => "declared",
        _ => "defined",
    }
}

/// Appends the name at a place, and the file and the line.
fn add_home(
    text: &mut Vec<u8>,
    files: &[SourceFile<'_>],
    verb: &str,
    place: Option<DeclaredName<'_>>,
) -> Result<(), AllocError>
    ensures { OnOk result (text.new.items
        ≡ text.old.items ++ home_words files.now verb.now (option_map declared_name_of place.entry)) }
{
    match place {
        None => add(text, b""),
        Some(place) => {
            add_each(
                text,
                &[b"`", place.name, b"` is ", verb.as_bytes(), b" at "],
            )?;
            add_place(text, files, place.line)?;
            add(text, b"; ")
        }
    }
}

/// Appends where the name is defined or declared that a fault of this kind is about, where this text stands at its place.
fn add_kind_home(
    alloc: Global,
    text: &mut Vec<u8>,
    files: &[SourceFile<'_>],
    whole: &[u8],
    kind: SpecErrorKind,
    rest: &[u8],
) -> Result<(), AllocError>
    ensures { OnOk result (text.new.items ≡ text.old.items
        ++ home_words files.now (home_verb kind) (home_of (known_lines whole.now) kind rest.now)) }
{
    let lines = known_lines(alloc, whole)?;
    let place = home_of(alloc, lines.as_slice(), kind, rest)?;
    add_home(text, files, home_verb(kind), place)
}

/// Appends where the name is defined or declared that a fault at this place of a line is about.
pub(crate) fn add_home_of(
    alloc: Global,
    text: &mut Vec<u8>,
    files: &[SourceFile<'_>],
    whole: &[u8],
    what: What,
    at: Option<usize>,
    line: &[u8],
) -> Result<(), AllocError>
    ensures { OnOk result (text.new.items
        ≡ text.old.items ++ home_told files.now (known_lines whole.now) what at line.now) }
{
    match what {
        What::Fault(kind) => match at {
            None => add(text, b""),
            Some(at) => {
                let rest = line.get(at..).unwrap_or(b"");
                add_kind_home(alloc, text, files, whole, kind, rest)
            }
        },
        _ => add(text, b""),
    }
}
