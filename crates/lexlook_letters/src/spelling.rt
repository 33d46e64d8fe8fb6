//! The pattern of sequences.
ghost use Rattle.std.specs.Prelude.{◌≡◌, ◌↔◌, ◌+◌, ◌<◌, [], ◌++◌, ℕ, IfErr, IfOk, List, OnOk, true};
ghost use Rattle.std.specs.List.{AllByRecursion};
ghost use Rattle.lex_semantics.specs.Shapes.{nodes, nodes_of};
ghost use Rattle.lex_semantics.specs.Tree.{In, trees};
ghost use Rattle.lexre.specs.Limits.{max_nodes};
ghost use Rattle.lexlook_letters.specs.Sequences.{FollowsOne, IsSoundSequence};
ghost use Rattle.lexlook_letters.specs.Text.{Reaches, SpellsAlways, branches_at, branches_text, choices, is_one, letters_text, letters_tree, parts};
ghost use Rattle.lexlook_letters.specs.Refusals.{IsRefusedFor};

use crate::grouping::{going_through, run_length};
use crate::sequence::Sequence;
use crate::text::{add_byte, add_class, add_last_class};
use std::alloc::{AllocError, Global};
use thiserror::Error;

/// The most nodes of a pattern.
const MAX_NODES: u64 = 65_536;

/// Why no pattern is written.
#[derive(Clone, Copy, Debug, PartialEq, Eq, Error)]
pub enum LettersError {
    /// There is no sequence: a pattern takes some text.
    #[error("no code point")]
    NoCodePoint,
    /// The pattern has more than 65,536 nodes.
    #[error("too many ranges of code points")]
    TooBig,
    /// Memory ran out.
    #[error("out of memory")]
    OutOfMemory,
}

impl From<AllocError> for LettersError {
    ghost use Rattle.lexlook_letters.specs.declared.spelling.LettersError.TheVariants.{OutOfMemory};

    ghost from_gives = { λ error told. told ≡ OutOfMemory };

    /// Want of memory.
    fn from(_error: AllocError) -> LettersError {
        LettersError::OutOfMemory
    }
}

/// Takes a node of those that are left.
fn use_node(left: &mut u64) -> Result<(), LettersError>
    ensures nodes { OnOk result (left.new + 1 ≡ left.old) }
    ensures refused { IfErr result (λ e. (e ≡ LettersError.TooBig) × (left.old ≡ 0)) }
{
    if *left == 0 {
        return Err(LettersError::TooBig);
    }
    *left -= 1;
    Ok(())
}

/// Adds sequences that are one branch from the range with a number on, and takes the nodes of its parts.
#[cycle(branches)]
fn add_branch(
    text: &mut Vec<u8>,
    left: &mut u64,
    run: &[Sequence],
    at: usize,
) -> Result<(), LettersError>
    requires reach { AllByRecursion (Reaches at) run.now }
    requires one { is_one (branches_at at run.now) ≡ true }
    ensures text { OnOk result (text.new.items ≡ text.old.items ++ branches_text (branches_at at run.now)) }
    ensures nodes { OnOk result (left.new + nodes_of (trees (parts (branches_at at run.now))) ≡ left.old) }
    ensures refused { IfErr result (λ e. IsRefusedFor e left.old (nodes_of (trees (parts (branches_at at run.now))))) }
{
    let Some((first, more)) = run.split_first() else {
        return Ok(());
    };
    use_node(left)?;
    match going_through(*first, at) {
        None => {
            add_last_class(text, run)?;
            Ok(())
        }
        Some(range) => {
            add_class(text, range)?;
            if run_length(*first, more, at + 1) == run.len() {
                return add_branch(text, left, run, at + 1);
            }
            use_node(left)?;
            add_byte(text, b'(')?;
            add_branches(text, left, run, at + 1)?;
            add_byte(text, b')')?;
            Ok(())
        }
    }
}

/// Adds the branches of sequences from the range with a number on, with bars between, and takes their nodes.
#[cycle(branches)]
fn add_branches(
    text: &mut Vec<u8>,
    left: &mut u64,
    sequences: &[Sequence],
    at: usize,
) -> Result<(), LettersError>
    requires reach { AllByRecursion (Reaches at) sequences.now }
    ensures text { OnOk result (text.new.items ≡ text.old.items ++ branches_text (branches_at at sequences.now)) }
    ensures nodes { OnOk result (left.new + nodes_of (trees (choices (branches_at at sequences.now))) ≡ left.old) }
    ensures refused { IfErr result (λ e.
        IsRefusedFor e left.old (nodes_of (trees (choices (branches_at at sequences.now))))) }
{
    let mut rest = sequences;
    while let Some((first, more)) = rest.split_first() {
        let (run, later) = rest.split_at(run_length(*first, more, at));
        if going_through(*first, at).is_some() {
            // A series of two parts or more is a node itself.
            use_node(left)?;
        }
        add_branch(text, left, run, at)?;
        if !later.is_empty() {
            add_byte(text, b'|')?;
        }
        rest = later;
    }
    Ok(())
}

/// The text of a pattern whose words are those of the sequences: `[\xHH]` or `[\xHH-\xHH]` for a range of bytes, and `|`
/// between branches. Sequences next to each other that begin with the same ranges are one branch up to there, and then
/// branches in parentheses; those that differ in the last range alone have one class for these. Of `options` none matters
/// but that letters stand for themselves.
///
/// `NoCodePoint` where there is no sequence, and `TooBig` where the pattern has more nodes than one may have.
pub fn spell(alloc: Global, sequences: &[Sequence]) -> Result<Vec<u8>, LettersError>
    requires { AllByRecursion IsSoundSequence sequences.now }
    ensures text { IfOk result (λ text. text.items ≡ letters_text sequences.now) }
    ensures spelled { IfOk result (λ text. SpellsAlways text.items (letters_tree sequences.now)) }
    ensures words { OnOk result ((w : List ℕ) → In (letters_tree sequences.now) w ↔ FollowsOne sequences.now w) }
    ensures none { IfErr result (λ e. e ≡ LettersError.NoCodePoint → sequences.now ≡ []) }
    ensures big { IfErr result (λ e. e ≡ LettersError.TooBig → max_nodes < nodes (letters_tree sequences.now)) }
{
    let Some((first, more)) = sequences.split_first() else {
        return Err(LettersError::NoCodePoint);
    };
    let mut left = MAX_NODES;
    if run_length(*first, more, 0) < sequences.len() {
        // A choice of two branches or more is a node itself.
        left -= 1;
    }
    let mut text = Vec::new(alloc);
    add_branches(&mut text, &mut left, sequences, 0)?;
    Ok(text)
}
