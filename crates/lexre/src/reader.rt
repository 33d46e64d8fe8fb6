//! Reads patterns. (POSIX, lex, Regular Expressions in lex; flex, Patterns. The bounds are this project's.)
//!
//! A name inside its own text is refused where it is met there. It stands for no tree: wherever it did, it would stand
//! for one inside that where fewer may be opened, and so down until none may be opened.
ghost use Rattle.std.specs.Prelude.{◌≡◌, ◌+◌, ◌-◌, ◌≤◌, ℕ, IfOk, IfErr, OnOk};
ghost use Rattle.lex_semantics.specs.Shapes.{IsSoundTree, nodes};
ghost use Rattle.lex_semantics.specs.Tree.{Tree};
ghost use Rattle.lexre.specs.Counting.{state_nodes};
ghost use Rattle.lexre.specs.Cycles.{AllLead, AllLeadToSymbol, AllLeadToText};
ghost use Rattle.lexre.specs.Names.{AreKnown, open_of, trees_of};
ghost use Rattle.lexre.specs.Outcome.{UnlessPatternMemory};
ghost use Rattle.lexre.specs.Reading.{IsRead, IsStep, NoneWithin, SpellsIn, StandsIn, StepsIn, begins_interval};
ghost use Rattle.lexre.specs.Running.{State};
ghost use Rattle.lexre.specs.Soundness.{IsSoundState, IsSoundSymbol};
ghost use Rattle.lexre.specs.Spelling.{Spells};
ghost use Rattle.lexre.specs.StackViews.{state_of};
ghost use Rattle.lexre.specs.SymbolViews.{symbol_of};
ghost use Rattle.lexre.specs.Views.{tree_of};
ghost use Rattle.lexre_bytes.specs.declared.error.PatternErrorKind.TheVariants.{OutOfMemory};
ghost use Rattle.lexre.specs.Limits.{max_open, max_nodes};

use crate::counted::Counted;
use crate::definitions::Defs;
use crate::frames::Stack;
use crate::lexer::symbol_at;
use crate::name_cache::NameCache;
use crate::options::ReadOptions;
use crate::pattern::Pattern;
use crate::symbols::Symbol;
use lexre_bytes::{Class, FaultAt, PatternError, PatternErrorKind};
use std::alloc::Global;

/// The most parentheses and names that may be open at one place.
const MAX_OPEN: u8 = 64;

/// The most nodes of a pattern.
const MAX_NODES: u64 = 65_536;

/// Whether the text begins with an opening brace and a digit.
fn begins_interval(text: &[u8]) -> bool
    ensures { result ≡ begins_interval text.now }
{
    match text {
        [first, second, ..] => *first == b'{' && Class::Digit.contains(*second),
        _ => false,
    }
}

/// What is reported of a fault in the text that stands at this place: an interval that is bad in itself is reported
/// after what lacks to its left.
fn reported(stack: &Stack, fault: FaultAt, text: &[u8], at: usize, posix: bool) -> PatternError
    ensures { fault.entry.kind ≡ OutOfMemory → result.kind ≡ OutOfMemory }
{
    let kind = match fault.kind {
        PatternErrorKind::BadInterval if begins_interval(text) => {
            stack.interval_fault(posix).unwrap_or(fault.kind)
        }
        other => other,
    };
    let inside = text.len().saturating_sub(fault.rest.len());
    PatternError {
        kind,
        at: at.saturating_add(inside),
    }
}

/// What a text is read under.
#[derive(Clone, Copy)]
struct Scope<'a> {
    definitions: &'a Defs,
    options: ReadOptions,
}

/// A pattern that was read.
#[derive(Drop)]
struct Read {
    tree: Counted,
    /// How many parentheses and names more might have been opened.
    spare: u8,
}

/// What a symbol brought.
#[derive(Clone, Copy)]
struct Taken {
    nodes: u64,
    /// How many parentheses and names more might have been opened at each place of it.
    spare: u8,
}

/// The pattern that a name stands for, where this many parentheses and names may be opened, of at most `room` nodes.
/// Its tree is kept. A name whose text is being read stands for none.
#[cycle(read)]
fn read_name(
    alloc: Global,
    name: &[u8],
    scope: Scope<'_>,
    left: u8,
    room: u64,
    names: &mut NameCache,
) -> Result<Read, PatternErrorKind>
    requires left { left ≤ max_open }
    requires room { room ≤ max_nodes }
    requires known_so_far { AreKnown scope.options scope.definitions.now (trees_of names.old) }
    requires lead { AllLead scope.options scope.definitions.now (open_of names.old) name.now }
    ensures read { IfOk result (λ r. IsRead (λ d. StandsIn scope.entry.options scope.entry.definitions.now d name.now)
        left room r.spare (tree_of r.tree.pattern)) }
    ensures known { AreKnown scope.entry.options scope.entry.definitions.now (trees_of names.new) }
    ensures same_open { OnOk result (open_of names.new ≡ open_of names.old) }
    ensures none { IfErr result (λ e. UnlessPatternMemory e
        (NoneWithin room (StandsIn scope.entry.options scope.entry.definitions.now left name.now))) }
{
    if let Some(kept) = names.find(name, left) {
        if kept.tree.nodes > room {
            return Err(PatternErrorKind::TooBig);
        }
        return Ok(Read {
            tree: kept.tree.share()?,
            spare: left - kept.needed,
        });
    }
    let Some(substitute) = scope.definitions.find(name) else {
        return Err(PatternErrorKind::UndefinedName);
    };
    if names.is_open(name) {
        return Err(PatternErrorKind::DefinitionCycle);
    }
    if left == 0 {
        return Err(PatternErrorKind::TooDeep);
    }
    names.enter(name)?;
    match read_within(alloc, substitute, scope, left - 1, room, names) {
        Ok(Read { tree, spare }) => {
            names.leave();
            names.keep(name, left - spare, tree.share()?)?;
            Ok(Read { tree, spare })
        }
        Err(error) => Err(error.kind),
    }
}

/// Takes a symbol that stands at this place and brings at most `room` nodes.
#[cycle(read)]
fn step(
    stack: &mut Stack,
    symbol: Symbol,
    at: usize,
    scope: Scope<'_>,
    room: u64,
    names: &mut NameCache,
) -> Result<Taken, PatternErrorKind>
    requires room { room ≤ max_nodes }
    requires sound { IsSoundSymbol symbol × IsSoundState (state_of stack.old) }
    requires known_so_far { AreKnown scope.options scope.definitions.now (trees_of names.old) }
    requires lead { AllLeadToSymbol scope.options scope.definitions.now (open_of names.old) (symbol_of symbol) }
    ensures stepped { IfOk result (λ a. IsStep scope.entry.options scope.entry.definitions.now (symbol_of symbol.entry)
        (state_of stack.old) (state_of stack.new) room a.spare a.nodes) }
    ensures known { AreKnown scope.entry.options scope.entry.definitions.now (trees_of names.new) }
    ensures same_open { OnOk result (open_of names.new ≡ open_of names.old) }
    ensures none { IfErr result (λ e. UnlessPatternMemory e
        ((after : State) → StepsIn scope.entry.options scope.entry.definitions.now (state_of stack.old)
        (symbol_of symbol.entry) after → state_nodes after ≤ state_nodes (state_of stack.old) + room → ⊥)) }
{
    let taken = match symbol {
        Symbol::Name(name) => {
            stack.here.start = at;
            let Read { tree, spare } = read_name(
                stack.alloc,
                name,
                scope,
                stack.left,
                room,
                names,
            )?;
            let nodes = stack.push(tree, at)?;
            Taken { nodes, spare }
        }
        plain => {
            let nodes = stack.take(plain, at, scope.options.posix)?;
            Taken {
                nodes,
                spare: stack.left,
            }
        }
    };
    if taken.nodes > room {
        return Err(PatternErrorKind::TooBig);
    }
    Ok(taken)
}

/// The pattern of a text in which this many parentheses and names may be opened, of at most `room` nodes.
#[cycle(read)]
fn read_within(
    alloc: Global,
    text: &[u8],
    scope: Scope<'_>,
    left: u8,
    room: u64,
    names: &mut NameCache,
) -> Result<Read, PatternError>
    requires left { left ≤ max_open }
    requires room { room ≤ max_nodes }
    requires known_so_far { AreKnown scope.options scope.definitions.now (trees_of names.old) }
    requires lead { AllLeadToText scope.options scope.definitions.now (open_of names.old) text.now }
    ensures read { IfOk result (λ r. IsRead (λ d. SpellsIn scope.entry.options scope.entry.definitions.now d text.now)
        left room r.spare (tree_of r.tree.pattern)) }
    ensures known { AreKnown scope.entry.options scope.entry.definitions.now (trees_of names.new) }
    ensures same_open { OnOk result (open_of names.new ≡ open_of names.old) }
    ensures none { IfErr result (λ e. UnlessPatternMemory e.kind
        (NoneWithin room (SpellsIn scope.entry.options scope.entry.definitions.now left text.now))) }
{
    let mut stack = Stack::new(alloc, left);
    let mut nodes = 0;
    let mut spare = left;
    let mut rest = text;
    while !rest.is_empty() {
        let at = text.len().saturating_sub(rest.len());
        let (symbol, after) = match symbol_at(alloc, rest, scope.options.fold) {
            Ok(found) => found,
            Err(fault) => return Err(reported(&stack, fault, rest, at, scope.options.posix)),
        };
        match step(&mut stack, symbol, at, scope, room - nodes, names) {
            Ok(taken) => {
                nodes += taken.nodes;
                spare = spare.min(taken.spare);
            }
            Err(kind) => return Err(stack.fault(kind, at)),
        }
        rest = after;
    }
    let opening = stack.here.opening;
    match stack.finish() {
        Ok(pattern) => Ok(Read {
            tree: Counted { pattern, nodes },
            spare,
        }),
        Err(PatternErrorKind::UnbalancedParen) => Err(PatternError {
            kind: PatternErrorKind::UnbalancedParen,
            at: opening,
        }),
        Err(kind) => Err(PatternError {
            kind,
            at: text.len(),
        }),
    }
}

/// Reads a pattern. The whole text has to be one: what a rule has besides, as `^`, `$` and `/`, is taken off before.
/// Offsets are from 0. (POSIX, lex, Regular Expressions in lex; flex, Patterns.)
///
/// The first fault from the left is reported, at the place of its sign; where an operand was expected, at the byte
/// there, or the end. A fault inside a substitute is reported at the `{` of the text that was handed in, and want of
/// memory at 0.
pub fn read_pattern(
    alloc: Global,
    text: &[u8],
    definitions: &Defs,
    options: ReadOptions,
) -> Result<Pattern, PatternError>
    ensures found { IfOk result (λ p. Spells options definitions.now text.now (tree_of p)) }
    ensures sound { IfOk result (λ p. IsSoundTree (tree_of p)) }
    ensures none { IfErr result (λ e. UnlessPatternMemory e.kind ((t : Tree)
        → Spells options definitions.now text.now t → ⊥)) }
{
    let mut names = NameCache::new(alloc);
    read_with_names(alloc, text, definitions, options, &mut names)
}

/// Reads a pattern as `read_pattern` does, by what is kept of names, and keeps those that it reads. So the patterns of
/// one file, with one set of definitions and options, read each name once.
pub fn read_with_names(
    alloc: Global,
    text: &[u8],
    definitions: &Defs,
    options: ReadOptions,
    names: &mut NameCache,
) -> Result<Pattern, PatternError>
    requires known_so_far { AreKnown options definitions.now (trees_of names.old) }
    ensures found { IfOk result (λ p. Spells options definitions.now text.now (tree_of p)) }
    ensures sound { IfOk result (λ p. IsSoundTree (tree_of p)) }
    ensures known { AreKnown options definitions.now (trees_of names.new) }
    ensures none { IfErr result (λ e. UnlessPatternMemory e.kind ((t : Tree)
        → Spells options definitions.now text.now t → ⊥)) }
{
    let scope = Scope {
        definitions,
        options,
    };
    names.begin();
    match read_within(alloc, text, scope, MAX_OPEN, MAX_NODES, names) {
        Ok(Read { tree, .. }) => {
            let Counted { pattern, .. } = tree;
            Ok(pattern)
        }
        Err(
            PatternError {
                kind: PatternErrorKind::OutOfMemory,
                ..
            },
        ) => Err(PatternError {
            kind: PatternErrorKind::OutOfMemory,
            at: 0,
        }),
        Err(error) => Err(error),
    }
}
