//! One step of the position automaton of all rules.
ghost use Rattle.std.specs.Prelude.{◌≡◌, ℕ, ◌+◌, ◌<◌, ◌^◌, ◌++◌, ◌∷◌, [], ◌||◌};
ghost use Rattle.std.specs.Prelude.{false, cond, length, map, slice_index, IfOk};
ghost use Rattle.lex_semantics.specs.Active.{contains};
ghost use Rattle.lex_semantics.specs.Sound.{HasSoundSides, HaveSoundSides};
ghost use Rattle.lex_semantics.specs.Subsets.{positions_of_rule, all_positions};
ghost use Rattle.lex_semantics.specs.Text.{flag, listed};
ghost use Rattle.lexspec.specs.RuleViews.{rule_of};
ghost use Rattle.lexauto_positions.specs.Alike.{Alike};
ghost use Rattle.lexauto_positions.specs.Cursors.{IsCursor, IsFront};
ghost use Rattle.lexauto_positions.specs.Laid.{shape_of, AlikeTrails, AlikeRules, IsSizedRule, HaveSized};
ghost use Rattle.lexauto_positions.specs.Owners.{AreOwners};
ghost use Rattle.lexauto_positions.specs.RuleFlow.{chosen, rule_exits, rule_enters, rules_enter, rules_left};

use crate::layout::{SizedPattern, lay};
use crate::owners::Owner;
use crate::walk::{Passed, enter};
use lexspec::Rule;
use std::alloc::{AllocError, Global};

/// The sides of a rule, laid out.
#[derive(Drop)]
pub struct LaidRule {
    pub(crate) head: SizedPattern,
    pub(crate) trail: Option<SizedPattern>,
}

impl LaidRule {
    /// How many positions the rule has.
    pub(crate) fn size(&self) -> usize
        requires { IsSizedRule self.now }
        ensures { result ≡ positions_of_rule (shape_of self.now) }
    {
        let head = self.head.size() as usize;
        match &self.trail {
            None => head,
            Some(trail) => head + trail.size() as usize,
        }
    }
}

/// The sides of a rule, laid out.
fn lay_rule(alloc: Global, rule: &Rule) -> Result<LaidRule, AllocError>
    requires sound { HasSoundSides (rule_of rule.now) }
    requires few { positions_of_rule (rule_of rule.now) < 2 ^ 32 }
    ensures sized { IfOk result IsSizedRule }
    ensures head { IfOk result (λ r. Alike (shape_of r).head (rule_of rule.now).head) }
    ensures trail { IfOk result (λ r. AlikeTrails (shape_of r).trail (rule_of rule.now).trail) }
{
    let head = lay(alloc, &rule.head)?;
    match &rule.trail {
        None => Ok(LaidRule { head, trail: None }),
        Some(trail) => {
            let trail = lay(alloc, trail)?;
            Ok(LaidRule {
                head,
                trail: Some(trail),
            })
        }
    }
}

/// The rules, laid out.
pub fn lay_rules(alloc: Global, rules: &[Rule]) -> Result<Vec<LaidRule>, AllocError>
    requires sound { HaveSoundSides (map rule_of rules.now) }
    requires few { all_positions (map rule_of rules.now) < 2 ^ 32 }
    ensures sized { IfOk result (λ v. HaveSized v.items) }
    ensures alike { IfOk result (λ v. AlikeRules (map shape_of v.items) (map rule_of rules.now)) }
{
    let mut laid = Vec::new(alloc);
    for rule in rules {
        let rule = lay_rule(alloc, rule)?;
        laid.push(rule)?;
    }
    Ok(laid)
}

/// Adds the positions of a rule that come next, where it is not entered, and these are the last ones. Tells whether it
/// is left at its end.
fn pass_rule(
    rule: &LaidRule,
    last: &[u32],
    at: usize,
    base: usize,
    next: &mut Vec<u32>,
) -> Result<Passed, AllocError>
    requires sized { IsSizedRule rule.now }
    requires cursor { IsCursor last.now at base }
    requires few { base + positions_of_rule (shape_of rule.now) < 2 ^ 32 }
    requires front { IsFront next.old.items base }
    ensures left { IfOk result (λ p. p.left ≡ rule_exits (shape_of rule.now) (contains last.now) base) }
    ensures cursor { IfOk result (λ p. IsCursor last.now p.at (base + positions_of_rule (shape_of rule.now))) }
    ensures front { IfOk result (λ _. IsFront next.new.items (base + positions_of_rule (shape_of rule.now))) }
    ensures next { IfOk result (λ _. (q : ℕ)
        → contains next.new.items q ≡ (contains next.old.items q || rule_enters (shape_of rule.now)
        (contains last.now) q base false)) }
{
    let head = enter(&rule.head, last, at, base, false, next)?;
    match &rule.trail {
        Some(trail) => {
            let behind = base + rule.head.size() as usize;
            enter(trail, last, head.at, behind, head.left, next)
        }
        None => Ok(head),
    }
}

/// What the last positions lead to.
#[derive(Drop)]
pub struct Walked {
    /// The positions that come next, ascending.
    pub followers: Vec<u32>,
    /// The numbers of the rules that are left at their ends, ascending.
    pub accepted: Vec<u32>,
}

impl Walked {
    /// Walks a rule. Answers where the last positions behind it begin.
    fn pass(
        &mut self,
        rule: &LaidRule,
        owner: Owner,
        last: &[u32],
        at: usize,
    ) -> Result<usize, AllocError>
        requires sized { IsSizedRule rule.now }
        requires cursor { IsCursor last.now at owner.base }
        requires few { owner.base + positions_of_rule (shape_of rule.now) < 2 ^ 32 }
        requires front { IsFront self.old.followers.items owner.base }
        ensures cursor { IfOk result (λ n. IsCursor last.now n (owner.base + positions_of_rule (shape_of rule.now))) }
        ensures front { IfOk result (λ _. IsFront self.new.followers.items
            (owner.base + positions_of_rule (shape_of rule.now))) }
        ensures followers { IfOk result (λ _. (q : ℕ)
            → contains self.new.followers.items q
            ≡ (contains self.old.followers.items q || rule_enters (shape_of rule.now)
            (contains last.now) q owner.base false)) }
        ensures accepted { IfOk result (λ _. self.new.accepted.items
            ≡ self.old.accepted.items ++ cond (rule_exits (shape_of rule.now) (contains last.now) owner.base)
            (owner.rule ∷ []) []) }
    {
        let passed = pass_rule(rule, last, at, owner.base as usize, &mut self.followers)?;
        if !passed.left {
            return Ok(passed.at);
        }
        self.accepted.push(owner.rule)?;
        Ok(passed.at)
    }

    /// Keeps all of the rules, or the first of them alone.
    pub fn choose(&mut self, all: bool)
        ensures followers { self.new.followers.items ≡ self.old.followers.items }
        ensures accepted { self.new.accepted.items ≡ chosen all self.old.accepted.items }
    {
        if all {
            return;
        }
        self.accepted.truncate(1);
    }
}

/// What these last positions lead to, where no rule is entered. It goes from rule to rule by them.
pub fn pass_rules(
    alloc: Global,
    rules: &[LaidRule],
    owners: &[Owner],
    last: &[u32],
) -> Result<Walked, AllocError>
    requires sized { HaveSized rules.now }
    requires few { all_positions (map shape_of rules.now) < 2 ^ 32 }
    requires owners { AreOwners (map shape_of rules.now) owners.now }
    requires cursor { IsCursor last.now 0 0 }
    requires within { (j : ℕ) → j < length last.now → slice_index last.now j < length owners.now }
    ensures followers { IfOk result (λ w. w.followers.items
        ≡ listed (λ q. rules_enter (map shape_of rules.now) (λ _. false) (contains last.now) q 0 0) 0
        (all_positions (map shape_of rules.now))) }
    ensures accepted { IfOk result (λ w. w.accepted.items ≡ rules_left (map shape_of rules.now) (contains last.now) 0 0) }
{
    let mut walked = Walked {
        followers: Vec::new(alloc),
        accepted: Vec::new(alloc),
    };
    let mut at = 0;
    while at < last.len() {
        let owner = owners[last[at] as usize];
        at = walked.pass(&rules[owner.rule as usize], owner, last, at)?;
    }
    Ok(walked)
}

/// Adds the first positions of a rule that is entered: those of its head, some of which is read.
fn enter_rule(
    rule: &LaidRule,
    base: usize,
    entered: bool,
    next: &mut Vec<u32>,
) -> Result<(), AllocError>
    requires sized { IsSizedRule rule.now }
    requires few { base + positions_of_rule (shape_of rule.now) < 2 ^ 32 }
    requires front { IsFront next.old.items base }
    ensures front { IfOk result (λ _. IsFront next.new.items (base + positions_of_rule (shape_of rule.now))) }
    ensures next { IfOk result (λ _. (q : ℕ)
        → contains next.new.items q ≡ (contains next.old.items q || rule_enters (shape_of rule.now)
        (λ _. false) q base entered)) }
{
    enter(&rule.head, &[], 0, base, entered, next)?;
    Ok(())
}

/// The first positions of the rules of `on`.
pub fn enter_rules(alloc: Global, rules: &[LaidRule], on: &[bool]) -> Result<Vec<u32>, AllocError>
    requires sized { HaveSized rules.now }
    requires few { all_positions (map shape_of rules.now) < 2 ^ 32 }
    requires on { length on.now ≡ length rules.now }
    ensures { IfOk result (λ v. v.items
        ≡ listed (λ q. rules_enter (map shape_of rules.now) (flag on.now) (λ _. false) q 0 0) 0
        (all_positions (map shape_of rules.now))) }
{
    let mut next = Vec::new(alloc);
    let mut base = 0;
    for (i, rule) in rules.iter().enumerate() {
        enter_rule(rule, base, on[i], &mut next)?;
        base += rule.size();
    }
    Ok(next)
}
