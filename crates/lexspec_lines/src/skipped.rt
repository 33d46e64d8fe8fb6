//! The lines where code was skipped.
ghost use Rattle.std.specs.Prelude.{◌≡◌, ◌<◌, ◌+◌, ◌^◌, ◌==◌, if◌then◌else◌, [], ◌∷◌, ◌++◌, OnOk, OnErr};
ghost use Rattle.lexspec_lines.specs.Skips.{next_in};

use std::alloc::{AllocError, Global};

/// The lines where code was skipped, for the warnings: each block at its first line, and each run of lines at its
/// first.
#[derive(Drop)]
pub struct Skipped {
    /// These lines, in the order in which they were added.
    pub lines: Vec<u32>,
    /// The line after the last line of code, at which a run goes on. 0 before any.
    next: u32,
}

impl Skipped {
    /// None so far.
    pub fn new(alloc: Global) -> Skipped
        ensures lines { result.lines.items ≡ [] }
        ensures next { next_in result ≡ 0 }
    {
        Skipped {
            lines: Vec::new(alloc),
            next: 0,
        }
    }

    /// A line of code, which may go on with a run. Where memory is refused, nothing is added.
    pub fn add_line(&mut self, line: u32) -> Result<(), AllocError>
        requires { line + 1 < 2 ^ 32 }
        ensures lines { OnOk result (self.new.lines.items
            ≡ (if next_in self.old == line then self.old.lines.items else self.old.lines.items ++ line ∷ [])) }
        ensures next { OnOk result (next_in self.new ≡ line + 1) }
        ensures refused { OnErr result ((self.new.lines.items ≡ self.old.lines.items)
            × (next_in self.new ≡ next_in self.old)) }
    {
        if self.next != line {
            self.lines.push(line)?;
        }
        self.next = line + 1;
        Ok(())
    }

    /// A block, or the user section, which begins at the line. Where memory is refused, nothing is added.
    pub fn add_block(&mut self, line: u32) -> Result<(), AllocError>
        ensures lines { OnOk result (self.new.lines.items ≡ self.old.lines.items ++ line ∷ []) }
        ensures next { next_in self.new ≡ next_in self.old }
        ensures refused { OnErr result (self.new.lines.items ≡ self.old.lines.items) }
    {
        self.lines.push(line)?;
        Ok(())
    }
}
