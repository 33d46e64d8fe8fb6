//! How many positions there are where a limit is passed, and which rule has the most.
ghost use Rattle.std.specs.Prelude.{◌≡◌, ◌^◌, ◌++◌, min, IfOk, OnOk, map};
ghost use Rattle.lex_semantics.specs.Positions.{positions};
ghost use Rattle.lex_semantics.specs.Subsets.{all_positions, positions_of_rule};
ghost use Rattle.lexre.specs.Views.{tree_of};
ghost use Rattle.lexspec.specs.RuleViews.{rule_of};
ghost use Rattle.lexlook_check.specs.Weights.{AreWeightsIn, allowed_by, count_words, heavier, heaviest, heaviest_words, limit_told, rule_weight, weight_words, weights_of};

use crate::findings::What;
use crate::lines::add_place;
use crate::places::SourceFile;
use itoa::Buffer;
use lexauto::{BuildError, Limits};
use lexkit::{Options, read_text};
use lexlook_specs::{add, add_number};
use lexre::{Pattern, positions};
use lexspec::Rule;
use std::alloc::{AllocError, Global};

/// A count above this is as good as this.
const CAP: u64 = 1 << 32;

/// A rule, and how many positions it has.
#[derive(Clone, Copy)]
pub struct RuleWeight {
    /// Its line, from 1.
    pub line: u32,
    /// How many it has, up to 4,294,967,296.
    pub positions: u64,
}

/// How many positions there are where a limit is passed.
#[derive(Clone, Copy)]
pub struct Weights {
    /// How many positions or states are allowed.
    pub allowed: u32,
    /// How many positions there are, up to 4,294,967,296.
    pub all: u64,
    /// The first rule that has the most.
    pub heaviest: RuleWeight,
}

/// How many positions a pattern has, up to 4,294,967,296.
fn pattern_positions(pattern: &Pattern) -> u64
    ensures { result ≡ min (2 ^ 32) (positions (tree_of pattern.now)) }
{
    match positions(pattern) {
        None => CAP,
        Some(count) => u64::from(count),
    }
}

/// How many positions a rule has, up to 4,294,967,296.
fn rule_positions(rule: &Rule) -> u64
    ensures { result ≡ min (2 ^ 32) (positions_of_rule (rule_of rule.now)) }
{
    let head = pattern_positions(&rule.head);
    match &rule.trail {
        None => head,
        Some(trail) => (head + pattern_positions(trail)).min(CAP),
    }
}

/// How many positions rules have together, up to 4,294,967,296.
fn all_positions(rules: &[Rule]) -> u64
    ensures { result ≡ min (2 ^ 32) (all_positions (map rule_of rules.now)) }
{
    let mut total = 0;
    for rule in rules {
        total = (total + rule_positions(rule)).min(CAP);
    }
    total
}

/// A rule with its positions.
fn rule_weight(rule: &Rule) -> RuleWeight
    ensures { result ≡ rule_weight (rule_of rule.now) }
{
    RuleWeight {
        line: rule.line,
        positions: rule_positions(rule),
    }
}

/// Of two rules that which has more positions, and else the first.
fn heavier(best: RuleWeight, other: RuleWeight) -> RuleWeight
    ensures { result ≡ heavier best other }
{
    if best.positions < other.positions {
        other
    } else {
        best
    }
}

/// The first rule that has the most positions.
fn heaviest(rules: &[Rule]) -> RuleWeight
    ensures { result ≡ heaviest (map rule_of rules.now) }
{
    let mut best = RuleWeight {
        line: 0,
        positions: 0,
    };
    for rule in rules {
        best = heavier(best, rule_weight(rule));
    }
    best
}

/// How many positions or states are allowed, by which of them there are too many.
fn allowed_by(limits: Limits, limit: BuildError) -> u32
    ensures { result ≡ allowed_by limits limit }
{
    match limit {
        BuildError::TooManyPositions => limits.positions,
        BuildError::TooManyStates => limits.states,
        BuildError::OutOfMemory => 0,
    }
}

/// So many are allowed, and how many positions rules have.
fn weights_of(allowed: u32, rules: &[Rule]) -> Weights
    ensures { result ≡ weights_of allowed (map rule_of rules.now) }
{
    Weights {
        allowed,
        all: all_positions(rules),
        heaviest: heaviest(rules),
    }
}

/// How many positions the specification has that a text spells, and how many are allowed where this limit is passed.
pub(crate) fn weights_in(
    alloc: Global,
    text: &[u8],
    options: Options,
    limit: BuildError,
) -> Result<Weights, AllocError>
    ensures { IfOk result (AreWeightsIn options text.now limit) }
{
    match read_text(alloc, text, options) {
        Err(_) => Err(AllocError),
        Ok(spec) => Ok(weights_of(allowed_by(options.limits, limit), spec.rules())),
    }
}

/// Appends a count that goes up to 4,294,967,296.
fn add_count(text: &mut Vec<u8>, count: u64) -> Result<(), AllocError>
    ensures { OnOk result (text.new.items ≡ text.old.items ++ count_words count) }
{
    if count == CAP {
        return add(text, b"4294967296 or more");
    }
    let mut digits = Buffer::new();
    add(text, digits.format(count).as_bytes())
}

/// Appends the rule that has the most positions.
fn add_heaviest(
    text: &mut Vec<u8>,
    files: &[SourceFile<'_>],
    rule: RuleWeight,
) -> Result<(), AllocError>
    ensures { OnOk result (text.new.items ≡ text.old.items ++ heaviest_words files.now rule) }
{
    add(text, b"the rule at ")?;
    add_place(text, files, rule.line)?;
    add(text, b" has the most positions, ")?;
    add_count(text, rule.positions)
}

/// Appends what is said of positions, where they are known.
fn add_weights(
    text: &mut Vec<u8>,
    files: &[SourceFile<'_>],
    weights: Option<Weights>,
) -> Result<(), AllocError>
    ensures { OnOk result (text.new.items ≡ text.old.items ++ weight_words files.now weights) }
{
    match weights {
        None => add(text, b""),
        Some(weights) => {
            add_number(text, weights.allowed)?;
            add(text, b" are allowed; ")?;
            add_heaviest(text, files, weights.heaviest)?;
            add(text, b" of ")?;
            add_count(text, weights.all)?;
            add(text, b"; ")
        }
    }
}

/// Appends what is said of positions where a limit is passed.
pub(crate) fn add_limit(
    text: &mut Vec<u8>,
    files: &[SourceFile<'_>],
    what: What,
) -> Result<(), AllocError>
    ensures { OnOk result (text.new.items ≡ text.old.items ++ limit_told files.now what) }
{
    match what {
        What::Limit(_, weights) => add_weights(text, files, weights),
        _ => add(text, b""),
    }
}
