//! The rules that are read so far, and the same after one item more. (POSIX, lex, Actions in lex; flex, End-of-File.)
ghost use Rattle.std.specs.Prelude.{◌≡◌, ◌≢◌, ◌+◌, ◌<◌, ◌≤◌, ◌^◌, [], false};
ghost use Rattle.std.specs.Prelude.{length, codes, IfOk, IfErr, OnOk};
ghost use Rattle.lex_semantics.specs.Reading.{begins};
ghost use Rattle.lexspec.specs.ItemRuns.{code_of_item};
ghost use Rattle.lexspec.specs.ItemReads.{NoRulesAfter, RefusesItem, SomeWait};
ghost use Rattle.lexspec.specs.Agreeing.{GoesOn, IsTaken};
ghost use Rattle.lexspec.specs.Keeping.{HasRoom, Keeps};
ghost use Rattle.lexspec.specs.KeptNames.{AreKept};
ghost use Rattle.lexspec.specs.SkipViews.{item_of};
ghost use Rattle.lexspec.specs.EndOpenings.{begins_end};
ghost use Rattle.lexspec.specs.SectionReads.{line_of_last};
ghost use Rattle.lexspec_lines.specs.Outcome.{UnlessMemory};
ghost use Rattle.lexre_bytes.specs.declared.refusals.SpecErrorKind.TheVariants.{DanglingBar};
ghost use Rattle.lexspec_lines.specs.Skips.{AddsCode};
ghost use Rattle.lexspec.specs.SoundSides.{HasSoundFront};
ghost use Rattle.lexspec.specs.declared.rule_text.Front.TheVariants.{Matching, AtEnd};
ghost use Rattle.lex_semantics.specs.Limits.{max_conditions, max_rules};

use crate::action_text::is_bar;
use crate::endings::{EndRule, may_join};
use crate::rule::Rule;
use crate::rule_text::{Front, RuleText, read_rule_text};
use crate::skips::{Skip, skip_at};
use crate::statements::finish;
use crate::subject::conditions_at;
use lex_semantics::MAX_RULES;
use lexre::NameCache;
use lexspec_actions::{read_action, read_end_action};
use lexspec_lines::{Declarations, Skipped, SpecErrorKind};
use std::alloc::{AllocError, Global};

/// The rules that are read so far.
#[derive(Drop)]
pub(crate) struct RulesSoFar {
    pub(crate) rules: Vec<Rule>,
    /// The rules that wait for the action of the next one.
    pub(crate) waiting: Vec<Rule>,
    pub(crate) ends: Vec<EndRule>,
}

/// Whether a text begins with an `<<EOF>>` rule, with or without a condition list.
fn begins_end(text: &[u8]) -> bool
    ensures { result ≡ begins_end text.now }
{
    match conditions_at(text) {
        Some((_, after)) => after.starts_with(b"<<EOF>>"),
        None => false,
    }
}

/// Keeps the line of what is skipped there, if it is code.
fn add_skip(skipped: &mut Skipped, skip: Skip, line: u32) -> Result<(), AllocError>
    requires { line + 1 < 2 ^ 32 }
    ensures { OnOk result (AddsCode skipped.old (code_of_item (line, item_of skip)) skipped.new) }
{
    match skip {
        Skip::Blank => Ok(()),
        Skip::Code => skipped.add_line(line),
        Skip::Block => skipped.add_block(line),
    }
}

impl RulesSoFar {
    /// No rule so far.
    pub(crate) fn new(alloc: Global) -> RulesSoFar
        ensures rules { result.rules.items ≡ [] }
        ensures waiting { result.waiting.items ≡ [] }
        ensures ends { result.ends.items ≡ [] }
    {
        RulesSoFar {
            rules: Vec::new(alloc),
            waiting: Vec::new(alloc),
            ends: Vec::new(alloc),
        }
    }

    /// The rules with one more, which matches a pattern. Its faults are those of the statements of its action.
    fn with_matching(
        self,
        alloc: Global,
        declarations: &Declarations,
        rule: Rule,
        action: &[u8],
    ) -> Result<RulesSoFar, SpecErrorKind>
        requires { length declarations.now.conditions.items ≤ max_conditions }
        ensures found { IfOk result (λ s. GoesOn declarations.now (Matching rule) action.now self s) }
        ensures keeps { IfOk result (λ s. HasSoundFront (Matching rule) → HasRoom (Matching rule) self
            → Keeps declarations.now self → Keeps declarations.now s) }
        ensures none { IfErr result (λ e. UnlessMemory e
            (NoRulesAfter declarations.now self (Matching rule) action.now)) }
        ensures no_bar { IfErr result (λ e. e ≢ DanglingBar) }
    {
        let RulesSoFar {
            rules,
            waiting,
            ends,
        } = self;
        if is_bar(action) {
            let mut waiting = waiting;
            waiting.push(rule)?;
            return Ok(RulesSoFar {
                rules,
                waiting,
                ends,
            });
        }
        match read_action(alloc, &declarations.conditions, declarations.stack, action) {
            Ok(statements) => {
                let rules = finish(alloc, rules, waiting, rule, statements)?;
                Ok(RulesSoFar {
                    rules,
                    waiting: Vec::new(alloc),
                    ends,
                })
            }
            Err(kind) => Err(kind),
        }
    }

    /// The rules with an `<<EOF>>` rule more. Its faults are `DanglingBar` where others wait for its action,
    /// `BadEofAction` of `|`, those of its statements, and `DuplicateEof`.
    fn with_end(
        self,
        alloc: Global,
        declarations: &Declarations,
        conditions: Option<Vec<u8>>,
        action: &[u8],
    ) -> Result<RulesSoFar, SpecErrorKind>
        requires { length declarations.now.conditions.items ≤ max_conditions }
        ensures found { IfOk result (λ s. GoesOn declarations.now (AtEnd conditions) action.now self s) }
        ensures keeps { IfOk result (λ s. Keeps declarations.now self → Keeps declarations.now s) }
        ensures none { IfErr result (λ e. UnlessMemory e
            (NoRulesAfter declarations.now self (AtEnd conditions) action.now)) }
        ensures bar { IfErr result (λ e. e ≡ DanglingBar → SomeWait self) }
    {
        if !self.waiting.is_empty() {
            return Err(SpecErrorKind::DanglingBar);
        }
        if is_bar(action) {
            return Err(SpecErrorKind::BadEofAction);
        }
        match read_end_action(alloc, &declarations.conditions, declarations.stack, action) {
            Ok(action) => {
                let end = EndRule { conditions, action };
                if !may_join(&self.ends, &end) {
                    return Err(SpecErrorKind::DuplicateEof);
                }
                let mut progress = self;
                progress.ends.push(end)?;
                Ok(progress)
            }
            Err(kind) => Err(kind),
        }
    }

    /// The rules with one more: `with_matching`, `with_end`.
    fn with_rule(
        self,
        alloc: Global,
        declarations: &Declarations,
        text: RuleText<'_>,
    ) -> Result<RulesSoFar, SpecErrorKind>
        requires { length declarations.now.conditions.items ≤ max_conditions }
        ensures found { IfOk result (λ s. GoesOn declarations.now text.entry.front text.entry.action.now self s) }
        ensures keeps { IfOk result (λ s. HasSoundFront text.entry.front → HasRoom text.entry.front self
            → Keeps declarations.now self → Keeps declarations.now s) }
        ensures none { IfErr result (λ e. UnlessMemory e
            (NoRulesAfter declarations.now self text.entry.front text.entry.action.now)) }
        ensures bar { IfErr result (λ e. e ≡ DanglingBar → SomeWait self) }
    {
        let RuleText {
            front,
            action,
            rest: _rest,
        } = text;
        match front {
            Front::Matching(rule) => self.with_matching(alloc, declarations, rule, action),
            Front::AtEnd(conditions) => self.with_end(alloc, declarations, conditions, action),
        }
    }

    /// The rules with that of the item that begins a text, at the line with this number, and what follows the item.
    /// A block that is left open is `Unclosed`, an `<<EOF>>` rule for whose action others wait is a `DanglingBar`, and
    /// another rule where there may be no more is `TooManyRules`; the other faults are those of a rule.
    pub(crate) fn with_item<'a>(
        self,
        alloc: Global,
        declarations: &Declarations,
        names: &mut NameCache,
        skipped: &mut Skipped,
        text: &'a [u8],
        line: u32,
    ) -> Result<(RulesSoFar, &'a [u8]), SpecErrorKind>
        requires few { length declarations.now.conditions.items ≤ max_conditions }
        requires known_so_far { AreKept declarations.now names.old }
        requires starts { (0 < length text.now) × (begins (codes "%%") text.now ≡ false) }
        requires line { line + 1 < 2 ^ 32 }
        requires room { length self.rules.items + length self.waiting.items ≤ max_rules }
        ensures taken { IfOk result (λ x. IsTaken declarations.now line text.now x.1.now self x.0 skipped.old skipped.new) }
        ensures known { OnOk result (AreKept declarations.now names.new) }
        ensures refused { IfErr result (RefusesItem declarations.now self line text.now) }
    {
        let plain = match skip_at(text) {
            Ok(found) => found,
            Err(kind) => return Err(kind),
        };
        if let Some((skip, rest)) = plain {
            add_skip(skipped, skip, line)?;
            return Ok((self, rest));
        }
        if begins_end(text) {
            if !self.waiting.is_empty() {
                return Err(SpecErrorKind::DanglingBar);
            }
        } else if self.rules.len() + self.waiting.len() >= MAX_RULES {
            return Err(SpecErrorKind::TooManyRules);
        }
        let found = match read_rule_text(alloc, declarations, names, text, line) {
            Ok(found) => found,
            Err(kind) => return Err(kind),
        };
        let rest = found.rest;
        match self.with_rule(alloc, declarations, found) {
            Ok(progress) => Ok((progress, rest)),
            Err(kind) => Err(kind),
        }
    }

    /// The line of the last rule that waits for an action, or else this one.
    pub(crate) fn line_waiting(&self, line: u32) -> u32
        ensures { result ≡ line_of_last line self.now.waiting.items }
    {
        match self.waiting.last() {
            Some(last) => last.line,
            None => line,
        }
    }
}
