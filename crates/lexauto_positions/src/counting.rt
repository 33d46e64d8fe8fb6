//! How many positions rules have.
ghost use Rattle.std.specs.Prelude.{◌≡◌, ◌<◌, ◌≤◌, ◌^◌, map, IfSome, IfNone};
ghost use Rattle.lex_semantics.specs.Subsets.{positions_of_rule, all_positions};
ghost use Rattle.lexspec.specs.RuleViews.{rule_of};

use lexre::positions;
use lexspec::Rule;

/// How many positions a rule has. None where its head or its trail alone has more than 4,294,967,295.
fn positions_of_rule(rule: &Rule) -> Option<u64>
    ensures found { IfSome result (λ n. n ≡ positions_of_rule (rule_of rule.now)) }
    ensures none { IfNone result (2 ^ 32 ≤ positions_of_rule (rule_of rule.now)) }
{
    let head = positions(&rule.head)?;
    match &rule.trail {
        None => Some(u64::from(head)),
        Some(trail) => Some(u64::from(head) + u64::from(positions(trail)?)),
    }
}

/// How many positions the rules have together. None exactly where there are more than the limit.
pub fn count_positions(rules: &[Rule], limit: u32) -> Option<u32>
    ensures found { IfSome result (λ n. n ≡ all_positions (map rule_of rules.now)) }
    ensures within { IfSome result (λ n. n ≤ limit) }
    ensures none { IfNone result (limit < all_positions (map rule_of rules.now)) }
{
    let mut sum: u32 = 0;
    for rule in rules {
        let more = positions_of_rule(rule)?;
        if more > u64::from(limit - sum) {
            return None;
        }
        sum += more as u32;
    }
    Some(sum)
}
