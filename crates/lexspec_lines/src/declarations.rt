//! What the definitions section declares. (POSIX, lex, Definitions in lex; flex, Start Conditions and Options.)
ghost use Rattle.std.specs.Prelude.{◌≡◌, ◌≤◌, ◌<◌, ◌+◌, ◌^◌, ◌||◌, Bool, List, [], ◌∷◌, ◌++◌};
ghost use Rattle.std.specs.Prelude.{map, length, codes, is_some, IfOk, IfErr, IfSome, OnOk};
ghost use Rattle.lexspec_lines.specs.Lines.{words};
ghost use Rattle.lexspec_lines.specs.DefinitionLines.{DefinitionLine as Meant, has_name};
ghost use Rattle.lexspec_lines.specs.DefinitionLines.{known_options};
ghost use Rattle.lexspec_lines.specs.Declaring.{Declared};
ghost use Rattle.lexspec_lines.specs.DefinitionViews.{are_known};
ghost use Rattle.lexspec_lines.specs.DefinitionViews.{definition_of};
ghost use Rattle.lexspec_lines.specs.Declaring.{declared_of, with_kind, AreGood, AreAllowed, Declares};
ghost use Rattle.lexspec_lines.specs.SkippedCode.{code_of_definition};
ghost use Rattle.lexspec_lines.specs.Skips.{TellsCode, AddsCode};
ghost use Rattle.lexspec_lines.specs.Outcome.{UnlessMemory};
ghost use Rattle.lexre.specs.declared.options.ReadOptions.{ReadOptions as Reading};

use crate::definition::Definition;
use crate::lines::{has_word, next_word};
use crate::skipped::Skipped;
use lex_semantics::MAX_CONDITIONS;
use lexre::{Defs, DefsError, ReadOptions};
use lexre_bytes::SpecErrorKind;
use lexspec_actions::{Condition, EndAction, number_of};
use std::alloc::{AllocError, Global};

/// What the lines of the definitions section declare.
#[derive(Drop)]
pub struct Declarations {
    alloc: Global,
    /// INITIAL, and the others in order of declaration, each without an end action.
    pub conditions: Vec<Condition>,
    /// The names with their substitutes.
    pub definitions: Defs,
    /// How patterns are read.
    pub options: ReadOptions,
    /// Whether actions may push and pop conditions.
    pub stack: bool,
    /// The lines where code was skipped.
    pub skipped: Skipped,
}

/// A condition without an end action.
fn condition(alloc: Global, name: &[u8], exclusive: bool) -> Result<Condition, AllocError>
    ensures { IfOk result (λ c. declared_of c ≡ (exclusive, name.now)) }
{
    Ok(Condition {
        name: Vec::from_slice(alloc, name)?,
        exclusive,
        end: EndAction {
            print: Vec::new(alloc),
            status: 0,
        },
    })
}

/// Declares the conditions that the text names: `DuplicateCondition`, `TooManyConditions`.
fn declare(
    alloc: Global,
    conditions: &mut Vec<Condition>,
    exclusive: bool,
    names: &[u8],
) -> Result<(), SpecErrorKind>
    requires { AreGood (map declared_of conditions.old.items) }
    ensures declared { OnOk result (map declared_of conditions.new.items
        ≡ map declared_of conditions.old.items ++ with_kind exclusive (words names.now)) }
    ensures good { OnOk result (AreGood (map declared_of conditions.new.items)) }
    ensures none { IfErr result (λ e. UnlessMemory e ((more : List Declared)
        → AreGood (map declared_of conditions.old.items ++ with_kind exclusive (words names.now) ++ more) → ⊥)) }
{
    let mut rest = names;
    while let Some((name, after)) = next_word(rest) {
        if number_of(conditions, name).is_some() {
            return Err(SpecErrorKind::DuplicateCondition);
        }
        if conditions.len() == MAX_CONDITIONS {
            return Err(SpecErrorKind::TooManyConditions);
        }
        conditions.push(condition(alloc, name, exclusive)?)?;
        rest = after;
    }
    Ok(())
}

const KNOWN_OPTIONS: &[u8] =
    b"noyywrap nounput noinput yylineno 8bit batch interactive always-interactive never-interactive case-insensitive stack";

/// Whether the word is an option that is known, with or without an effect.
fn is_known(word: &[u8]) -> bool
    ensures { result ≡ has_name known_options word.now }
{
    has_word(KNOWN_OPTIONS, word)
}

/// Whether patterns ignore case after these options, where `fold` says whether they do before. None where an option is
/// not known.
fn with_options(fold: bool, text: &[u8]) -> Option<bool>
    ensures found { IfSome result (λ folds. folds ≡ (fold || has_name (words text.now) (codes "case-insensitive"))) }
    ensures known { are_known (words text.now) ≡ is_some result }
{
    let mut folds = fold;
    let mut rest = text;
    while let Some((word, after)) = next_word(rest) {
        if !is_known(word) {
            return None;
        }
        folds = folds || word == b"case-insensitive".as_slice();
        rest = after;
    }
    Some(folds)
}

/// Whether actions may push and pop after these options, where `stack` says whether they might before.
fn with_stack(stack: bool, text: &[u8]) -> bool
    ensures { result ≡ (stack || has_name (words text.now) (codes "stack")) }
{
    stack || has_word(text, b"stack")
}

impl Declarations {
    /// INITIAL alone, which is inclusive.
    pub(crate) fn new(alloc: Global, options: ReadOptions) -> Result<Declarations, AllocError>
        ensures declares { IfOk result (λ d. Declares options [] d) }
        ensures code { IfOk result (λ d. TellsCode [] d.skipped) }
    {
        let initial = condition(alloc, b"INITIAL".as_slice(), false)?;
        let conditions: Vec<Condition> = vec![in alloc; initial]?;
        Ok(Declarations {
            alloc,
            conditions,
            definitions: Defs::new(alloc),
            options,
            stack: false,
            skipped: Skipped::new(alloc),
        })
    }

    /// Takes a line, which has this number. `DuplicateCondition` and `TooManyConditions` of a declaration,
    /// `UnsupportedOption`, and `DuplicateName` of a definition.
    pub(crate) fn take(
        &mut self,
        definition: Definition<'_>,
        line: u32,
    ) -> Result<(), SpecErrorKind>
        requires good { AreGood (map declared_of self.old.conditions.items) }
        requires line { line + 1 < 2 ^ 32 }
        ensures found { OnOk result ((how : Reading) (ds : List Meant) → Declares how ds self.old → AreAllowed ds
            → Declares how (ds ++ definition_of definition.entry ∷ []) self.new
            × AreAllowed (ds ++ definition_of definition.entry ∷ [])) }
        ensures code { OnOk result (AddsCode self.old.skipped
            (code_of_definition (line, definition_of definition.entry)) self.new.skipped) }
        ensures none { IfErr result (λ e. UnlessMemory e ((how : Reading) (ds more : List Meant)
            → Declares how ds self.old → AreAllowed (ds ++ definition_of definition.entry ∷ more) → ⊥)) }
    {
        match definition {
            Definition::Nothing => Ok(()),
            Definition::Ignored => Ok(()),
            Definition::CodeLine => Ok(self.skipped.add_line(line)?),
            Definition::CodeBlock => Ok(self.skipped.add_block(line)?),
            Definition::Declares { exclusive, names } => {
                declare(self.alloc, &mut self.conditions, exclusive, names)
            }
            Definition::Options(text) => match with_options(self.options.fold, text) {
                Some(folds) => {
                    self.options.fold = folds;
                    self.stack = with_stack(self.stack, text);
                    Ok(())
                }
                None => Err(SpecErrorKind::UnsupportedOption),
            },
            Definition::Defines { name, text } => match self.definitions.add(name, text) {
                Ok(()) => Ok(()),
                Err(DefsError::Duplicate) => Err(SpecErrorKind::DuplicateName),
                Err(DefsError::OutOfMemory) => Err(SpecErrorKind::OutOfMemory),
            },
        }
    }
}
