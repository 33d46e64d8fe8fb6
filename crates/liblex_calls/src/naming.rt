//! The names of rules, into a buffer of the caller.
ghost use Rattle.std.specs.Prelude.{◌≡◌, ◌<◌, ◌≤◌, ℕ, List, [], None};
ghost use Rattle.lex_names.specs.RuleNames.{rule_name};
ghost use Rattle.liblex_calls.specs.Buffers.{NothingOut};
ghost use Rattle.liblex_calls.specs.Handles.{loaded_in};
ghost use Rattle.liblex_calls.specs.Loading.{AreRulesOf, HoldsTable};
ghost use Rattle.liblex_calls.specs.NamedRules.{NamesRule};
ghost use Rattle.liblex_calls.specs.Rules.{rules_machine};

use crate::answer::Answer;
use crate::buffers::hand_out;
use crate::loading::rules_of;
use crate::rules::Rules;
use crate::tables::LoadedTables;
use lex_machine::Machine;
use lex_names::rule_name;
use std::alloc::Global;

/// The name of a rule, and no byte where it has none, or there is no rule of this number.
fn name_of(rules: &Rules, rule: u32) -> &[u8]
    ensures named { rule < (rules_machine rules.now).count
        → result.now ≡ rule_name ((rules_machine rules.now).statements rule) }
    ensures none { (rules_machine rules.now).count ≤ rule → result.now ≡ [] }
{
    if (rule as usize) < rules.rules() {
        rule_name(rules.rule(rule).1)
    } else {
        b""
    }
}

/// Hands out the name of one of these rules.
fn name_by_rules(rules: &Rules, rule: u32, buffer: &mut [u8], count: &mut usize) -> Answer
    ensures { (file : List ℕ) → AreRulesOf file rules.now
        → NamesRule file rule buffer.old buffer.new count.new result }
{
    hand_out(name_of(rules, rule), buffer, count)
}

/// Hands out into the buffer the name of a rule of a table that is loaded, and no byte where it has none, or there is no rule of this
/// number. How long it is is told in `count`, also where the buffer is too small.
pub fn rule_name_into(
    alloc: Global,
    tables: &mut LoadedTables,
    rule: u32,
    buffer: &mut [u8],
    count: &mut usize,
) -> Answer
    ensures named { (file : List ℕ) → HoldsTable file tables.old
        → NamesRule file rule buffer.old buffer.new count.new result }
    ensures same { loaded_in tables.new ≡ loaded_in tables.old }
    ensures unloaded { loaded_in tables.old ≡ None → (result ≡ Answer.Closed)
        × NothingOut buffer.old buffer.new count.new }
{
    *count = 0;
    match rules_of(alloc, tables) {
        Err(answer) => answer,
        Ok(rules) => name_by_rules(&rules, rule, buffer, count),
    }
}
