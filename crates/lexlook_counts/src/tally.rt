//! The counts of the turns of a scan.
ghost use Rattle.std.specs.Prelude.{◌≡◌, ◌+◌, ◌-◌, ◌∷◌, [], ◌++◌, List, ℕ, true, IfOk};
ghost use Rattle.lexscan_window.specs.declared.matched.MatchedRule.{MatchedRule as RuleModel};
ghost use Rattle.lexscan_window.specs.declared.matched.MatchedRule.TheVariants.{Numbered};
ghost use Rattle.lexlook_counts.specs.Costs.{TurnCost, cost_by};
ghost use Rattle.lexlook_counts.specs.CountLines.{all_counts, together};
ghost use Rattle.lexlook_counts.specs.Counts.{IsTallyOf, rule_count, rule_counts, same_rule, turn_counts};

use lexscan::{MatchedRule, PulledToken};
use std::alloc::{AllocError, Global};

/// What is counted of a rule: its matches, the bytes of their texts in all, the longest, and the bytes behind their texts
/// that they looked at.
#[derive(Clone, Copy)]
pub struct RuleCount {
    pub matches: u64,
    pub bytes: u64,
    pub longest: u64,
    pub beyond: u64,
}

/// No match.
const NONE: RuleCount = RuleCount {
    matches: 0,
    bytes: 0,
    longest: 0,
    beyond: 0,
};

impl RuleCount {
    /// The counts with one match more, whose text is so long, and which looks at so many bytes behind it.
    fn with(self, length: u64, beyond: u64) -> RuleCount
        ensures { (rule : RuleModel) (costs : List TurnCost) (c : TurnCost) → self ≡ rule_count costs rule
            → same_rule rule c.token.rule ≡ true → c.token.end ≡ c.token.start + length → c.beyond ≡ beyond
            → result ≡ rule_count (costs ++ c ∷ []) rule }
    {
        RuleCount {
            matches: self.matches.saturating_add(1),
            bytes: self.bytes.saturating_add(length),
            longest: self.longest.max(length),
            beyond: self.beyond.saturating_add(beyond),
        }
    }

    /// The counts of two rules together, each up to the greatest number.
    fn together(self, other: RuleCount) -> RuleCount
        ensures { result ≡ together self other }
    {
        RuleCount {
            matches: self.matches.saturating_add(other.matches),
            bytes: self.bytes.saturating_add(other.bytes),
            longest: self.longest.max(other.longest),
            beyond: self.beyond.saturating_add(other.beyond),
        }
    }
}

/// Counts a match of a rule, where there is one of this number.
fn count_rule(rules: &mut Vec<RuleCount>, rule: usize, length: u64, beyond: u64)
    ensures { (n : ℕ) (costs : List TurnCost) (c : TurnCost) → rules.old.items ≡ rule_counts n costs
        → c.token.rule ≡ Numbered rule → c.token.end ≡ c.token.start + length → c.beyond ≡ beyond
        → rules.new.items ≡ rule_counts n (costs ++ c ∷ []) }
{
    if rule < rules.len() {
        rules[rule] = rules[rule].with(length, beyond);
    }
}

/// Counts a turn that began in a condition, where there is one of this number.
fn count_turn(turns: &mut Vec<u64>, condition: usize)
    ensures { (n : ℕ) (costs : List TurnCost) (c : TurnCost) → turns.old.items ≡ turn_counts n costs
        → c.token.condition ≡ condition → turns.new.items ≡ turn_counts n (costs ++ c ∷ []) }
{
    if condition < turns.len() {
        turns[condition] = turns[condition].saturating_add(1);
    }
}

/// The counts of the turns so far: of each rule by its number, of the default rule, and of each start condition by its
/// number, in how many turns the scan was in it.
#[derive(Drop)]
pub struct Tally {
    pub rules: Vec<RuleCount>,
    pub default_rule: RuleCount,
    pub turns: Vec<u64>,
}

impl Tally {
    /// The counts of no turns, for so many rules and conditions.
    pub(crate) fn new(alloc: Global, rules: usize, conditions: usize) -> Result<Tally, AllocError>
        ensures { IfOk result (IsTallyOf rules conditions []) }
    {
        Ok(Tally {
            rules: vec![in alloc; NONE; rules]?,
            default_rule: NONE,
            turns: vec![in alloc; 0; conditions]?,
        })
    }

    /// The counts of all rules together.
    pub(crate) fn all(&self) -> RuleCount
        ensures { result ≡ all_counts self.now }
    {
        let mut all = self.default_rule;
        for count in &self.rules {
            all = all.together(*count);
        }
        all
    }

    /// Counts one turn more, of this token, which looks at so many bytes behind its text.
    pub(crate) fn count(&mut self, token: PulledToken, beyond: u64)
        ensures { (rules conditions : ℕ) (costs : List TurnCost) → IsTallyOf rules conditions costs self.old
            → IsTallyOf rules conditions (costs ++ cost_by token beyond ∷ []) self.new }
    {
        count_turn(&mut self.turns, usize::from(token.condition));
        let length = token.length as u64;
        match token.rule {
            MatchedRule::Default => self.default_rule = self.default_rule.with(length, beyond),
            MatchedRule::Numbered(rule) => {
                count_rule(&mut self.rules, rule as usize, length, beyond);
            }
        }
    }
}
