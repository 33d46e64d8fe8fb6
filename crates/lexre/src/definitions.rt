//! Definitions: the names of a specification, each with its substitute. (POSIX, lex, Definitions in lex.)
ghost use Rattle.std.specs.Prelude.{◌≡◌, ◌↔◌, IsSome, OnOk, OnErr, IsErrOf, option_copied};
ghost use Rattle.std.specs.FinMap as map;
ghost use Rattle.lexre.specs.declared.definitions.DefsError.TheVariants.{OutOfMemory};

use std::alloc::{AllocError, AllocFailed, Global};
use std::collections::BTreeMap;
use std::marker::Model;
use thiserror::Error;

/// Why a definition was not taken.
#[derive(Clone, Copy, Debug, PartialEq, Eq, Error)]
pub enum DefsError {
    /// The name has a text already.
    #[error("the name is defined already")]
    Duplicate,
    /// A request for memory was refused.
    #[error("out of memory")]
    OutOfMemory,
}

impl From<AllocError> for DefsError {
    ghost from_gives = { λ _ e. e ≡ OutOfMemory };

    /// A request for memory was refused.
    fn from(_error: AllocError) -> DefsError {
        DefsError::OutOfMemory
    }
}

impl<T: Drop> From<AllocFailed<T>> for DefsError {
    ghost from_gives = { λ _ e. e ≡ OutOfMemory };

    /// A request for memory was refused, and what was handed in is dropped.
    fn from(_error: AllocFailed<T>) -> DefsError {
        DefsError::OutOfMemory
    }
}

/// Names, each with its text. Clauses see a finite map.
#[derive(Drop)]
pub struct Defs {
    alloc: Global,
    texts: BTreeMap<Vec<u8>, Vec<u8>>,
}

impl Model for Defs {
    ghost use Rattle.std.specs.Coded.{coded_list, coded_ℕ};
    ghost use Rattle.std.specs.FinMap as map;
    ghost use Rattle.lexre.specs.Definitions.{Definitions, definitions_of};

    ghost Value = { Definitions };

    ghost coded = { map.code (coded_list coded_ℕ) (coded_list coded_ℕ) };

    ghost view = { λ d. definitions_of d.texts.entries };
}

impl Defs {
    /// No definitions.
    pub fn new(alloc: Global) -> Defs
        ensures { result ≡ map.empty }
    {
        Defs {
            alloc,
            texts: BTreeMap::new(alloc),
        }
    }

    /// Gives the name this text. A name that has one already is a `Duplicate`, and after an error nothing has changed.
    pub fn add(&mut self, name: &[u8], text: &[u8]) -> Result<(), DefsError>
        ensures ok { OnOk result (self.new ≡ map.insert self.old name.now text.now) }
        ensures duplicate { IsErrOf result DefsError.Duplicate ↔ IsSome (map.get self.old name.now) }
        ensures err { OnErr result (self.new ≡ self.old) }
    {
        if self.texts.contains_key(name) {
            return Err(DefsError::Duplicate);
        }
        let name = Vec::from_slice(self.alloc, name)?;
        let text = Vec::from_slice(self.alloc, text)?;
        self.texts.insert(name, text)?;
        Ok(())
    }

    /// The text of a name.
    pub fn find(&self, name: &[u8]) -> Option<&[u8]>
        ensures { option_copied result ≡ map.get self.now name.now }
    {
        let text = self.texts.get(name)?;
        Some(text.as_slice())
    }
}
