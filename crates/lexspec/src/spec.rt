//! A specification as a value, and its readers.
ghost use Rattle.std.specs.Prelude.{◌≡◌, true, map};
ghost use Rattle.lexspec_actions.specs.Views.{condition_of};
ghost use Rattle.lexspec.specs.RuleViews.{rule_of};
ghost use Rattle.lexspec.specs.Tests.{is_sound};

use crate::rule::Rule;
use lex_machine::has_reject;
use lexspec_actions::Condition;

/// A specification: conditions, of which the first is INITIAL, and rules in the order of the file.
/// (POSIX, lex, Definitions in lex and Rules in lex.)
#[derive(Drop)]
pub struct Spec {
    pub(crate) conditions: Vec<Condition>,
    pub(crate) rules: Vec<Rule>,
    pub(crate) skipped: Vec<u32>,
    // Its trees, cuts, lists and actions are sound, and it keeps to the limits.
    ghost sound: { is_sound (record { conditions = map condition_of conditions.items; rules = map rule_of rules.items })
        ≡ true },
}

impl Spec {
    ghost use Rattle.lex_semantics.specs.Spec.{rejects};
    ghost use Rattle.lexspec.specs.Views.{spec_of, skipped_in, conditions_in, rules_in};

    /// A specification of these conditions and rules, which keep to its tests. `skipped` has the lines of skipped code.
    pub fn new(conditions: Vec<Condition>, rules: Vec<Rule>, skipped: Vec<u32>) -> Spec
        requires { is_sound (record { conditions = map condition_of conditions.items; rules = map rule_of rules.items })
            ≡ true }
        ensures spec { spec_of result ≡ record {
          conditions = map condition_of conditions.items;
          rules = map rule_of
              rules.items;
        } }
        ensures skipped { skipped_in result ≡ skipped.items }
    {
        Spec {
            conditions,
            rules,
            skipped,
        }
    }

    /// The conditions, by number.
    pub fn conditions(&self) -> &[Condition]
        ensures conditions { map condition_of result.now ≡ conditions_in (spec_of self.now) }
        ensures sound { is_sound (spec_of self.now) ≡ true }
    {
        &self.conditions
    }

    /// The rules, in the order of the file.
    pub fn rules(&self) -> &[Rule]
        ensures rules { map rule_of result.now ≡ rules_in (spec_of self.now) }
        ensures sound { is_sound (spec_of self.now) ≡ true }
    {
        &self.rules
    }

    /// The conditions by number, the rules in their order, and the lines where code was skipped, each by value.
    pub fn into_parts(self) -> (Vec<Condition>, Vec<Rule>, Vec<u32>)
        ensures conditions { map condition_of result.0.items ≡ conditions_in (spec_of self) }
        ensures rules { map rule_of result.1.items ≡ rules_in (spec_of self) }
        ensures skipped { result.2.items ≡ skipped_in self }
        ensures sound { is_sound (spec_of self) ≡ true }
    {
        (self.conditions, self.rules, self.skipped)
    }

    /// Whether some rule has REJECT.
    pub fn rejects(&self) -> bool
        ensures { result ≡ rejects (spec_of self.now) }
    {
        for i in 0..self.rules.len() {
            if has_reject(&self.rules[i].statements) {
                return true;
            }
        }
        false
    }

    /// The lines where code was skipped, ascending.
    pub fn skipped(&self) -> &[u32]
        ensures { result.now ≡ skipped_in self.now }
    {
        &self.skipped
    }
}
