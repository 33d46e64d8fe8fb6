//! Patterns that no text spells, classes whose members are counted by hand, and definitions that find no room.
ghost use Rattle.std.specs.Prelude.{IfOk};
ghost use Rattle.lex_semantics.specs.Shapes.{IsSoundTree};
ghost use Rattle.lexre.specs.Views.{tree_of};

use lexre::{ByteSet, Defs, DefsError, Lengths, Pattern, lengths, positions};
use std::alloc::{AllocError, Global};
use std::rc::Rc;
use std::test::Fail;

/// The pattern of one byte.
fn byte(byte: u8) -> Pattern
    ensures { IsSoundTree (tree_of result) }
{
    Pattern::Set(ByteSet::of(byte))
}

/// Any number of times.
fn star(alloc: Global, inner: Pattern) -> Result<Pattern, AllocError>
    requires { IsSoundTree (tree_of inner) }
    ensures { IfOk result (λ p. IsSoundTree (tree_of p)) }
{
    Ok(Pattern::Star(Rc::new(alloc, inner)?))
}

/// One after the other.
fn cat(alloc: Global, first: Pattern, second: Pattern) -> Result<Pattern, AllocError>
    requires first { IsSoundTree (tree_of first) }
    requires second { IsSoundTree (tree_of second) }
    ensures { IfOk result (λ p. IsSoundTree (tree_of p)) }
{
    let parts = vec![in alloc; first, second]?;
    Ok(Pattern::series(alloc, parts)?)
}

/// One or the other.
fn alt(alloc: Global, first: Pattern, second: Pattern) -> Result<Pattern, AllocError>
    requires first { IsSoundTree (tree_of first) }
    requires second { IsSoundTree (tree_of second) }
    ensures { IfOk result (λ p. IsSoundTree (tree_of p)) }
{
    let parts = vec![in alloc; first, second]?;
    Ok(Pattern::choice(alloc, parts)?)
}

/// How long the words of a pattern are, at least and at most.
type Bounds = (u32, Option<u32>);

/// The least and the greatest length of its texts.
fn bounds_of(pattern: &Pattern) -> Option<Bounds>
    requires { IsSoundTree (tree_of pattern.now) }
{
    let Lengths { min, max } = lengths(pattern)?;
    Some((min, max))
}

/// Whether a pattern has these lengths, and this many positions.
fn measures(pattern: &Pattern, bounds: Option<Bounds>, count: Option<u32>) -> bool
    requires { IsSoundTree (tree_of pattern.now) }
{
    bounds_of(pattern) == bounds && positions(pattern) == count
}

// The first and the last byte of each class of the POSIX locale, and how many bytes it has.
const CLASSES: &[(&[u8], u8, u8, u32)] = &[
    (b"alpha", b'A', b'z', 52),
    (b"digit", b'0', b'9', 10),
    (b"alnum", b'0', b'z', 62),
    (b"upper", b'A', b'Z', 26),
    (b"lower", b'a', b'z', 26),
    (b"space", 9, b' ', 6),
    (b"blank", 9, b' ', 2),
    (b"cntrl", 0, 127, 33),
    (b"graph", b'!', b'~', 94),
    (b"print", b' ', b'~', 95),
    (b"punct", b'!', b'~', 32),
    (b"xdigit", b'0', b'f', 22),
];

// Words that name no class.
const NO_CLASSES: &[&[u8]] = &[b"word", b"Alpha", b"", b"alphas"];

/// Whether a class has this many bytes, all from the first to the last, and both of them.
fn has_members(name: &[u8], first: u8, last: u8, count: u32) -> bool {
    let Some(class) = ByteSet::named(name) else {
        return false;
    };
    let mut members: u32 = 0;
    for byte in 0..=255u8 {
        if class.contains(byte) {
            if byte < first || last < byte || members > 255 {
                return false;
            }
            members += 1;
        }
    }
    members == count && class.contains(first) && class.contains(last)
}

#[test]
fn classes(rt: HostRuntime) {
    for &(name, first, last, count) in CLASSES {
        assert!(rt; has_members(name, first, last, count));
    }
    for name in NO_CLASSES {
        assert!(rt; ByteSet::named(name).is_none());
    }
}

/// One more pair of parentheses: ((..)**..*a|b), with 64 signs.
fn nested(alloc: Global, inner: Pattern) -> Result<Pattern, AllocError>
    requires { IsSoundTree (tree_of inner) }
    ensures { IfOk result (λ p. IsSoundTree (tree_of p)) }
{
    let mut pattern = inner;
    for _ in 0..64 {
        pattern = star(alloc, pattern)?;
    }
    let series = cat(alloc, pattern, byte(b'a'))?;
    alt(alloc, series, byte(b'b'))
}

/// The deepest tree that 64 parentheses and 64 signs on each item give.
fn deepest(alloc: Global) -> Result<Pattern, AllocError>
    ensures { IfOk result (λ p. IsSoundTree (tree_of p)) }
{
    let mut pattern = byte(b'c');
    for _ in 0..65 {
        pattern = nested(alloc, pattern)?;
    }
    Ok(pattern)
}

/// A tree and this many bytes behind it.
fn lengthened(alloc: Global, first: Pattern, bytes: u32) -> Result<Pattern, AllocError>
    requires { IsSoundTree (tree_of first) }
    ensures { IfOk result (λ p. IsSoundTree (tree_of p)) }
{
    let mut parts = vec![in alloc; first]?;
    for _ in 0..bytes {
        parts.push(byte(b'a'))?;
    }
    Ok(Pattern::series(alloc, parts)?)
}

#[test]
fn counts_of_65536_nodes(rt: HostRuntime) -> Result<(), Fail> {
    let alloc = rt.alloc();
    let pattern = lengthened(alloc, deepest(alloc)?, 61_114)?;
    assert!(rt; measures(&pattern, Some((61_115, None)), Some(61_245)));
    Ok(())
}

const NAMES: &[&[u8]] = &[b"a", b"b", b"c", b"d", b"e", b"f", b"g", b"h", b"i"];

/// Whether a name has this text.
fn has_text(definitions: &Defs, name: &[u8], text: &[u8]) -> bool {
    definitions.find(name).is_some_and(|found| found == text)
}

/// Whether so many of the names are defined, and the next one is not.
fn are_defined(definitions: &Defs, count: usize) -> bool {
    for (at, &name) in NAMES.iter().enumerate() {
        if at == count {
            return definitions.find(name).is_none();
        }
        if !has_text(definitions, name, b"[0-9]") {
            return false;
        }
    }
    true
}

/// A name that finds no room is not added, and those before it stay (`scripts/campaigns/refuse-memory.py` refuses the room).
#[test]
fn refused_definitions(rt: HostRuntime) -> Result<(), Fail> {
    let mut definitions = Defs::new(rt.alloc());
    for (at, &name) in NAMES.iter().enumerate() {
        if let Err(error) = definitions.add(name, b"[0-9]") {
            let so = error == DefsError::OutOfMemory && are_defined(&definitions, at);
            assert!(rt; so);
            return Ok(());
        }
    }
    let again = definitions.add(b"a", b"x");
    assert!(rt; again == Err(DefsError::Duplicate));
    Ok(())
}
