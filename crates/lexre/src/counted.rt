//! Patterns with their sizes.
ghost use Rattle.std.specs.Prelude.{◌≡◌, IfOk};
ghost use Rattle.lexre.specs.Counting.{capped_nodes};
ghost use Rattle.lexre.specs.Views.{tree_of};

use crate::counts::capped_nodes;
use crate::pattern::Pattern;
use std::alloc::AllocError;

/// A pattern with its size, so that a tree that stands in many places is counted once.
#[derive(Drop)]
pub(crate) struct Counted {
    pub(crate) pattern: Pattern,
    /// How many nodes it has, up to 4,294,967,296.
    pub(crate) nodes: u64,
    ghost counted: { nodes ≡ capped_nodes (tree_of pattern) },
}

impl Counted {
    /// The pattern with its size.
    pub(crate) fn new(pattern: Pattern) -> Counted
        ensures { tree_of result.pattern ≡ tree_of pattern }
    {
        let nodes = capped_nodes(&pattern);
        Counted { pattern, nodes }
    }

    /// The same tree again, whose parts are not copied.
    pub(crate) fn share(&self) -> Result<Counted, AllocError>
        ensures { IfOk result (λ c. tree_of c.pattern ≡ tree_of self.now.pattern) }
    {
        let pattern = self.pattern.share()?;
        Ok(Counted {
            pattern,
            nodes: self.nodes,
        })
    }
}
