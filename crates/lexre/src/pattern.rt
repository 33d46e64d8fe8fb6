//! Patterns as trees. (POSIX, lex, Regular Expressions in lex.)
ghost use Rattle.std.specs.Prelude.{◌≡◌, true, map, IfOk};
ghost use Rattle.lex_semantics.specs.Tree.{Alt, Cat, trees};
ghost use Rattle.lexre.specs.Views.{emptied, emptied_each, is_marked, items_of, tree_of};

use lexre_bytes::ByteSet;
use std::alloc::{AllocError, Global};
use std::rc::Rc;

/// The parts of a series or of a choice, in order, and whether none of them reads a byte.
#[derive(Drop)]
pub struct Operands<P: Drop> {
    items: Rc<Vec<P>>,
    is_bare: bool,
}

/// A pattern: what a text of lex's regular expressions stands for. Trees may have parts in common. Calls that go over a
/// pattern, and its drop, take stack in proportion to its depth, at most 160 bytes a level: less than 700 kB for 64
/// parentheses with 64 signs each.
#[derive(Drop)]
pub enum Pattern {
    /// The empty text.
    Empty,
    /// One byte of the set.
    Set(ByteSet),
    /// Its parts, one after another.
    Cat(Operands<Pattern>),
    /// One of its parts.
    Alt(Operands<Pattern>),
    /// Any number of times.
    Star(Rc<Pattern>),
    /// At least this many times, and at most this many where there is an upper bound.
    Repeat(Rc<Pattern>, u8, Option<u8>),
}

impl<P: Drop> Operands<P> {
    /// The parts.
    pub fn items(&self) -> &[P]
        ensures { result.now ≡ items_of self.now }
    {
        self.items.as_slice()
    }

    /// Whether no set stands in any of them. This takes no walk.
    pub fn is_bare(&self) -> bool
        ensures { result ≡ is_marked self.now }
    {
        self.is_bare
    }

    /// The same parts again, which are not copied.
    fn share(&self) -> Result<Operands<P>, AllocError>
        ensures mark { IfOk result (λ p. is_marked p ≡ is_marked self.now) }
        ensures items { IfOk result (λ p. items_of p ≡ items_of self.now) }
    {
        Ok(Operands {
            items: self.items.clone()?,
            is_bare: self.is_bare,
        })
    }
}

/// Whether no set stands in any of the patterns.
fn are_bare(patterns: &[Pattern]) -> bool
    ensures { result ≡ true → emptied_each (trees (map tree_of patterns.now)) ≡ trees (map tree_of patterns.now) }
{
    for pattern in patterns {
        if !pattern.is_bare() {
            return false;
        }
    }
    true
}

impl Pattern {
    /// The patterns, one after another.
    pub fn series(alloc: Global, patterns: Vec<Pattern>) -> Result<Pattern, AllocError>
        ensures { IfOk result (λ p. tree_of p ≡ Cat (trees (map tree_of patterns.items))) }
    {
        let is_bare = are_bare(&patterns);
        let items = Rc::new(alloc, patterns)?;
        Ok(Pattern::Cat(Operands { items, is_bare }))
    }

    /// One of the patterns.
    pub fn choice(alloc: Global, patterns: Vec<Pattern>) -> Result<Pattern, AllocError>
        ensures { IfOk result (λ p. tree_of p ≡ Alt (trees (map tree_of patterns.items))) }
    {
        let is_bare = are_bare(&patterns);
        let items = Rc::new(alloc, patterns)?;
        Ok(Pattern::Alt(Operands { items, is_bare }))
    }

    /// Whether no set stands in the pattern. Only the operators on the whole are walked over.
    fn is_bare(&self) -> bool
        ensures { result ≡ true → emptied (tree_of self.now) ≡ tree_of self.now }
    {
        match self {
            Pattern::Empty => true,
            Pattern::Set(_) => false,
            Pattern::Cat(parts) => parts.is_bare,
            Pattern::Alt(parts) => parts.is_bare,
            Pattern::Star(inner) => inner.is_bare(),
            Pattern::Repeat(inner, _, _) => inner.is_bare(),
        }
    }

    /// The same tree again, whose parts are not copied.
    pub(crate) fn share(&self) -> Result<Pattern, AllocError>
        ensures { IfOk result (λ p. tree_of p ≡ tree_of self.now) }
    {
        match self {
            Pattern::Empty => Ok(Pattern::Empty),
            Pattern::Set(set) => Ok(Pattern::Set(*set)),
            Pattern::Cat(parts) => Ok(Pattern::Cat(parts.share()?)),
            Pattern::Alt(parts) => Ok(Pattern::Alt(parts.share()?)),
            Pattern::Star(inner) => Ok(Pattern::Star(inner.clone()?)),
            Pattern::Repeat(inner, least, most) => {
                Ok(Pattern::Repeat(inner.clone()?, *least, *most))
            }
        }
    }
}
