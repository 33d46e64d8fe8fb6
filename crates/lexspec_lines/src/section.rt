//! The definitions section. (POSIX, lex, Definitions in lex; flex, Format of the Input File.)
ghost use Rattle.std.specs.Prelude.{◌≡◌, ℕ, ◌≤◌, ◌+◌, true, List, length, codes, IfOk, IfErr};
ghost use Rattle.lex_semantics.specs.Reading.{begins};
ghost use Rattle.lexspec_lines.specs.DefinitionLines.{DefinitionLine as Meant, definition_at, IsUpTo};
ghost use Rattle.lexspec_lines.specs.Declaring.{AreAllowed};
ghost use Rattle.lexspec_lines.specs.Sections.{HasSection, IsFaultyLine, reported_kind};
ghost use Rattle.lexspec_lines.specs.Outcome.{UnlessMemory};
ghost use Rattle.lex_semantics.specs.Limits.{max_file_bytes};

use crate::declarations::Declarations;
use crate::definition::{DefinitionFault, definition_at};
use crate::newlines::newlines_before;
use lexre::ReadOptions;
use lexre_bytes::{SpecError, SpecErrorKind};
use std::alloc::Global;

/// What the definitions section declares, and where the next section begins.
#[derive(Drop)]
pub struct Section<'a> {
    /// What the lines before it declare.
    pub declarations: Declarations,
    /// The text from the line on that begins with `%%`.
    pub rest: &'a [u8],
    /// The number of that line, from 1.
    pub line: u32,
}

/// The definitions section, up to a line that begins with `%%`. `options` says how patterns are read
/// without an option. The first faulty line is refused; without a `%%` it is the line after the last, as
/// `NoRulesSection`.
pub fn read_section(
    alloc: Global,
    text: &[u8],
    options: ReadOptions,
) -> Result<Section<'_>, SpecError>
    requires { length text.now ≤ max_file_bytes }
    ensures found { IfOk result (λ s. HasSection options text.now s) }
    ensures none { IfErr result (λ e. UnlessMemory e.kind ((ds : List Meant) (after : List ℕ)
        → IsUpTo definition_at text.now ds after
        → begins (codes "%%") after ≡ true → AreAllowed ds → ⊥)) }
    ensures line { IfErr result (λ e. UnlessMemory e.kind (1 ≤ e.line)) }
    ensures told { IfErr result (λ e. UnlessMemory e.kind (IsFaultyLine AreAllowed text.now e)) }
{
    let mut declarations = Declarations::new(alloc, options)?;
    let mut rest = text;
    let mut line: u32 = 1;
    'lines: loop {
        if rest.is_empty() {
            let line = if text.is_empty() || text.ends_with(b"\n") {
                line
            } else {
                line + 1
            };
            return Err(SpecError {
                line,
                kind: SpecErrorKind::NoRulesSection,
            });
        }
        if rest.starts_with(b"%%") {
            return Ok(Section {
                declarations,
                rest,
                line,
            });
        }
        let (definition, after) = match definition_at(rest) {
            Ok(found) => found,
            Err(fault) => {
                return Err(SpecError {
                    line,
                    kind: declarations.kind_of(fault),
                });
            }
        };
        match declarations.take(definition, line) {
            Ok(()) => {}
            Err(kind) => return Err(SpecError { line, kind }),
        }
        line += newlines_before(rest, after);
        rest = after;
    }
}

impl Declarations {
    /// The reason that is reported for a fault of a line: `DuplicateName` where the name is defined already.
    fn kind_of(&self, fault: DefinitionFault<'_>) -> SpecErrorKind
        ensures { result ≡ reported_kind self.now.definitions fault.entry }
    {
        match fault {
            DefinitionFault::BadLine => SpecErrorKind::BadDefinitionLine,
            DefinitionFault::Unclosed => SpecErrorKind::Unclosed,
            DefinitionFault::Anchored { name } => {
                if self.definitions.find(name).is_some() {
                    SpecErrorKind::DuplicateName
                } else {
                    SpecErrorKind::AnchoredDefinition
                }
            }
        }
    }
}
