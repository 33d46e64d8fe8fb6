//! Readers of specifications.
ghost use Rattle.std.specs.Prelude.{ℕ, List, Result};
ghost use Rattle.lexre_bytes.specs.declared.refusals.SpecError.{SpecError};

use lexspec::{ReadOptions, SpecError, read_spec};
use std::alloc::Global;

/// Reads texts, and tells the first fault of each.
pub(crate) trait SpecReader {
    /// What is answered of a text.
    ghost reads: { Self → List ℕ → Result (Unit {0}) SpecError → Type 0 };

    /// Whether the text is a specification, and else its first fault.
    fn read(&self, alloc: Global, text: &[u8]) -> Result<(), SpecError>
        ensures { reads self.now text.now result };
}

/// The reader of lex.
#[derive(Clone, Copy)]
pub(crate) struct LexReader {
    /// How patterns are read.
    pub(crate) options: ReadOptions,
}

impl SpecReader for LexReader {
    ghost use Rattle.lexlook_check.specs.Finding.{ReadsSpec};

    ghost reads = { λ reader text answer. ReadsSpec reader.options text answer };

    /// What `read_spec` answers, without the specification.
    fn read(&self, alloc: Global, text: &[u8]) -> Result<(), SpecError> {
        match read_spec(alloc, text, self.options) {
            Ok(_) => Ok(()),
            Err(fault) => Err(fault),
        }
    }
}
