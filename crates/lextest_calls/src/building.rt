//! Texts, automata within the greatest limits, and table files. Of what `build` promises this keeps what a machine needs.
ghost use Rattle.std.specs.Prelude.{◌≡◌, length, IfOk};
ghost use Rattle.lexauto.specs.MachineLaws.{MachineLaws};
ghost use Rattle.lexauto.specs.TableFor.{TableFor};
ghost use Rattle.lexauto.specs.Automata.{machine_of, conditions_of};
ghost use Rattle.lexspec.specs.Views.{spec_of, conditions_in};

use crate::scanning::PLAIN;
use lexauto::{BuildError, Dfa, Limits, build};
use lexkit::{Flat, MemorySink, Options, TableError, Tables, generate, read_tables, write_tables};
use lexspec::{Spec, SpecError, read_spec};
use std::alloc::{AllocError, Global};
use std::test::Fail;

const MOST: Limits = Limits {
    positions: 16_384,
    states: 8_192,
};

/// The automaton of a specification, within the greatest limits.
pub(crate) fn built(alloc: Global, spec: &Spec) -> Result<Dfa, BuildError>
    ensures conditions { IfOk result (λ d. conditions_of d ≡ length (conditions_in (spec_of spec.now))) }
    ensures laws { IfOk result (λ d. MachineLaws (machine_of d (spec_of spec.now))) }
    ensures table { IfOk result (λ d. TableFor (machine_of d (spec_of spec.now)) (spec_of spec.now)) }
{
    build(alloc, spec, MOST)
}

/// The specification of a text, with patterns as they stand.
pub(crate) fn read(alloc: Global, text: &[u8]) -> Result<Spec, SpecError> {
    read_spec(alloc, text, PLAIN)
}

/// The table file of a specification. Where memory for its bytes is refused, that is told as of a table.
pub(crate) fn made(alloc: Global, text: &[u8]) -> Result<MemorySink, Fail> {
    let made = generate(alloc, text, Options::new())?.made;
    let mut file = MemorySink::new(alloc);
    match write_tables(&made.tables, &mut file) {
        Ok(()) => Ok(file),
        Err(_) => Err(TableError::OutOfMemory)?,
    }
}

/// The tables of a specification, written to a file and read back, as a scan by a table file has them.
pub(crate) fn read_back(alloc: Global, text: &[u8]) -> Result<Tables, Fail> {
    let file = made(alloc, text)?;
    Ok(read_tables(alloc, file.written())?)
}

/// The machine of a specification, by the tables that are read back.
pub(crate) fn machine_of(alloc: Global, text: &str) -> Result<Flat, Fail> {
    let tables = read_back(alloc, text.as_bytes())?;
    Ok(Flat::new(alloc, tables)?)
}

/// A text with a part of it so many times.
pub(crate) fn repeated(
    alloc: Global,
    before: &[u8],
    part: &[u8],
    times: usize,
    after: &[u8],
) -> Result<Vec<u8>, AllocError> {
    let mut text = Vec::from_slice(alloc, before)?;
    for _ in 0..times {
        text.extend_from_slice(part)?;
    }
    text.extend_from_slice(after)?;
    Ok(text)
}
