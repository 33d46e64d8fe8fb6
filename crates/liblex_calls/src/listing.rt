//! The tokens of whole inputs and the lines of rules, into a buffer of the caller.
ghost use Rattle.std.specs.Prelude.{◌≡◌, ℕ, List, None};
ghost use Rattle.liblex_calls.specs.Loading.{AreRulesOf, HoldsTable};
ghost use Rattle.liblex_calls.specs.Handles.{loaded_in};
ghost use Rattle.liblex_calls.specs.Buffers.{NothingOut};
ghost use Rattle.liblex_calls.specs.Listing.{ListsInto, TellsLines, rule_number};

use crate::answer::Answer;
use crate::buffers::hand_out;
use crate::gathering::{KeptTokens, WholeScan};
use crate::kinds::kind_number;
use crate::loading::rules_of;
use crate::rules::Rules;
use crate::tables::LoadedTables;
use lexkit::{GenError, MatchedRule, Options, RunError, TableError, lines_of, read_text};
use std::alloc::Global;

/// A match of a scan: where its text begins and ends in the input, the number of its rule, from 0 on in the order of
/// the file, or 4,294,967,295 for the default rule, and the number of the start condition in which it was made.
#[repr(C)]
#[derive(Clone, Copy, Debug, PartialEq, Eq)]
pub struct TextToken {
    pub start: usize,
    pub end: usize,
    pub rule: u32,
    pub condition: u32,
}

/// The number of a rule. The default rule has the greatest.
pub(crate) fn rule_number(rule: MatchedRule) -> u32
    ensures { result ≡ rule_number rule }
{
    match rule {
        MatchedRule::Numbered(rule) => rule,
        MatchedRule::Default => u32::MAX,
    }
}

/// Lists the tokens of an input by a table file, and hands them out into the buffer. How many there are is told in
/// `count`, also where the buffer is too small, and the status that the scan ends with in `status`.
pub fn tokens_into(
    alloc: Global,
    file: &[u8],
    input: &[u8],
    buffer: &mut [TextToken],
    count: &mut usize,
    status: &mut u8,
) -> Answer
    ensures { ListsInto file.now input.now buffer.old buffer.new count.new status.new result }
{
    *count = 0;
    *status = 0;
    match Rules::read(alloc, file) {
        Err(TableError::OutOfMemory) => Answer::OutOfMemory,
        Err(_) => Answer::Refused,
        Ok(rules) => tokens_by_rules(alloc, rules, input, buffer, count, status),
    }
}

/// Lists the tokens of an input by a table that is loaded, as `tokens_into` does by its file.
pub fn tokens_loaded(
    alloc: Global,
    tables: &mut LoadedTables,
    input: &[u8],
    buffer: &mut [TextToken],
    count: &mut usize,
    status: &mut u8,
) -> Answer
    ensures listed { (file : List ℕ) → HoldsTable file tables.old
        → ListsInto file input.now buffer.old buffer.new count.new status.new result }
    ensures same { loaded_in tables.new ≡ loaded_in tables.old }
    ensures unloaded { loaded_in tables.old ≡ None → (result ≡ Answer.Closed) × NothingOut buffer.old buffer.new count.new
        × (status.new ≡ 0) }
{
    *count = 0;
    *status = 0;
    match rules_of(alloc, tables) {
        Err(answer) => answer,
        Ok(rules) => tokens_by_rules(alloc, rules, input, buffer, count, status),
    }
}

/// Lists the tokens of an input by rules.
fn tokens_by_rules(
    alloc: Global,
    rules: Rules,
    input: &[u8],
    buffer: &mut [TextToken],
    count: &mut usize,
    status: &mut u8,
) -> Answer
    ensures { (file : List ℕ) → AreRulesOf file rules
        → ListsInto file input.now buffer.old buffer.new count.new status.new result }
{
    *count = 0;
    *status = 0;
    let mut kept = KeptTokens::new(alloc, buffer.len());
    let mut scan = WholeScan::new(alloc, rules);
    match scan.gather(input, &mut kept) {
        Ok(end) => {
            *status = end;
            kept.hand_tokens(buffer, count)
        }
        Err(RunError::Stack) => {
            kept.hand_tokens(buffer, count);
            Answer::Stack
        }
        Err(_) => Answer::OutOfMemory,
    }
}

/// Hands out the lines of the rules of the specification that a text spells, in their order. How many rules there are
/// is told in `count`, also where the buffer is too small.
pub fn rule_lines_into(
    alloc: Global,
    text: &[u8],
    options: Options,
    buffer: &mut [u32],
    count: &mut usize,
) -> Answer
    ensures { TellsLines options text.now buffer.old buffer.new count.new result }
{
    *count = 0;
    let spec = match read_text(alloc, text, options) {
        Err(GenError::Spec(error)) if kind_number(error.kind) != 0 => return Answer::Refused,
        Err(_) => return Answer::OutOfMemory,
        Ok(spec) => spec,
    };
    match lines_of(alloc, spec.rules()) {
        Err(_) => Answer::OutOfMemory,
        Ok(lines) => hand_out(&lines, buffer, count),
    }
}
