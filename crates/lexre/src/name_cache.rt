//! The cache of the names of definitions: the trees of those that were read, for one file.
//!
//! A tree is kept with its count of nodes, and with how many parentheses and names it needs open. Where fewer may be
//! opened its name is read again: that fails, and says which limit is passed first. Where it has more nodes than there
//! is room for it is `TooBig`, as reading it would say.
ghost use Rattle.std.specs.Prelude.{◌≡◌, ◌-◌, false, OnOk, OnErr, option_map, [], ◌∷◌, ◌++◌, length, take};
ghost use Rattle.std.specs.FinMap.{empty, get, insert};
ghost use Rattle.lexre.specs.Names.{open_of, tree_kept, trees_of, usable};
ghost use Rattle.lexre.specs.Reading.{is_among};
ghost use Rattle.lexre.specs.Views.{tree_of};

use crate::counted::Counted;
use std::alloc::{AllocError, Global};
use std::collections::BTreeMap;

/// The tree of a name that was read whole.
#[derive(Drop)]
pub(crate) struct Kept {
    pub(crate) tree: Counted,
    /// How many parentheses and names have to be opened for it, the name itself among them.
    pub(crate) needed: u8,
}

/// What is kept of the names that patterns of one file use: each is read once.
#[derive(Drop)]
pub struct NameCache {
    alloc: Global,
    /// The names whose texts are being read, the outermost first.
    being_read: Vec<Vec<u8>>,
    kept: BTreeMap<Vec<u8>, Kept>,
}

/// Whether the name is one of these.
fn is_among(name: &[u8], names: &[Vec<u8>]) -> bool
    ensures { result ≡ is_among name.now names.now }
{
    for known in names {
        if known.as_slice() == name {
            return true;
        }
    }
    false
}

impl NameCache {
    /// No names.
    pub fn new(alloc: Global) -> NameCache
        ensures { trees_of result ≡ empty }
    {
        NameCache {
            alloc,
            being_read: Vec::new(alloc),
            kept: BTreeMap::new(alloc),
        }
    }

    /// Notes that no name is being read.
    pub(crate) fn begin(&mut self)
        ensures none_open { open_of self.new ≡ [] }
        ensures trees { trees_of self.new ≡ trees_of self.old }
    {
        self.being_read = Vec::new(self.alloc);
    }

    /// Whether the name is being read.
    pub(crate) fn is_open(&self, name: &[u8]) -> bool
        ensures { result ≡ is_among name.now self.now.being_read.items }
    {
        is_among(name, &self.being_read)
    }

    /// Notes that the name is being read, which it was not.
    pub(crate) fn enter(&mut self, name: &[u8]) -> Result<(), AllocError>
        requires { is_among name.now self.old.being_read.items ≡ false }
        ensures entered { OnOk result (open_of self.new ≡ open_of self.old ++ name.now ∷ []) }
        ensures trees { trees_of self.new ≡ trees_of self.old }
    {
        self.being_read.push(Vec::from_slice(self.alloc, name)?)?;
        Ok(())
    }

    /// Notes that the name that was opened last was read.
    pub(crate) fn leave(&mut self)
        ensures left { open_of self.new ≡ take (length (open_of self.old) - 1) (open_of self.old) }
        ensures trees { trees_of self.new ≡ trees_of self.old }
    {
        self.being_read.pop();
    }

    /// What is kept of a name, unless it needs more than may be opened.
    pub(crate) fn find(&self, name: &[u8], left: u8) -> Option<&Kept>
        ensures { option_map (λ k. tree_kept k.now) result ≡ usable left (get (trees_of self.now) name.now) }
    {
        let kept = self.kept.get(name)?;
        if kept.needed <= left {
            Some(kept)
        } else {
            None
        }
    }

    /// Keeps the tree of a name, for which this many have to be opened. Where memory is refused, what was kept is kept.
    pub(crate) fn keep(&mut self, name: &[u8], needed: u8, tree: Counted) -> Result<(), AllocError>
        ensures trees { OnOk result (trees_of self.new
            ≡ insert (trees_of self.old) name.now (tree_of tree.pattern, needed)) }
        ensures no_memory { OnErr result (trees_of self.new ≡ trees_of self.old) }
        ensures same_open { OnOk result (open_of self.new ≡ open_of self.old) }
    {
        let name = Vec::from_slice(self.alloc, name)?;
        self.kept.insert(name, Kept { tree, needed })?;
        Ok(())
    }
}
