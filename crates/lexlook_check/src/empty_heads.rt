//! Rules with trailing context whose text may be empty, which flex matches there, again and again.
ghost use Rattle.std.specs.Prelude.{◌≡◌, ◌==◌, ◌++◌, OnOk, map, unwrap_or};
ghost use Rattle.lex_semantics.specs.Tree.{trees};
ghost use Rattle.lexre.specs.Lengths.{least_of_each, least_of_some};
ghost use Rattle.lexre.specs.Views.{tree_of};
ghost use Rattle.lexspec.specs.RuleViews.{rule_of};
ghost use Rattle.lexlook_text.specs.LineViews.{line_of};
ghost use Rattle.lexlook_check.specs.EmptyHeads.{empty_heads, empty_notices, takes_empty};

use crate::bar_trails::{text_at, trail_place};
use crate::flex_trails::add_sign;
use crate::notices::{Notice, NoticeKind};
use lexlook_text::{Line, pieces_of};
use lexre::Pattern;
use lexspec::Rule;
use std::alloc::{AllocError, Global};

/// Whether the least text of a pattern has no byte.
#[cycle(empty)]
fn takes_empty(pattern: &Pattern) -> bool
    ensures { result ≡ takes_empty (tree_of pattern.now) }
{
    match pattern {
        Pattern::Empty => true,
        Pattern::Set(_) => false,
        Pattern::Cat(parts) => {
            if parts.is_bare() {
                return true;
            }
            all_take_empty(parts.items())
        }
        Pattern::Alt(parts) => {
            if parts.is_bare() {
                return true;
            }
            some_takes_empty(parts.items())
        }
        Pattern::Star(_) => true,
        Pattern::Repeat(inner, times, _) => *times == 0 || takes_empty(inner),
    }
}

/// Whether that of each of these has none.
#[cycle(empty)]
fn all_take_empty(parts: &[Pattern]) -> bool
    ensures { result ≡ (least_of_each (trees (map tree_of parts.now)) == 0) }
{
    for part in parts {
        if !takes_empty(part) {
            return false;
        }
    }
    true
}

/// Whether that of one of these has none, where there are some.
#[cycle(empty)]
fn some_takes_empty(parts: &[Pattern]) -> bool
    ensures { result ≡ (unwrap_or (least_of_some (trees (map tree_of parts.now))) 0 == 0) }
{
    if parts.is_empty() {
        return true;
    }
    for part in parts {
        if takes_empty(part) {
            return true;
        }
    }
    false
}

/// Appends the slash of a rule, or the `$` at its end, where what stands before it may be empty.
fn add_empty_head(
    alloc: Global,
    notices: &mut Vec<Notice>,
    lines: &[Line<'_>],
    rule: &Rule,
) -> Result<(), AllocError>
    ensures { OnOk result (notices.new.items
        ≡ notices.old.items ++ empty_notices (map line_of lines.now) (rule_of rule.now)) }
{
    if rule.trail.is_none() || !takes_empty(&rule.head) {
        return Ok(());
    }
    let pieces = pieces_of(alloc, 0, text_at(lines, rule.line))?;
    add_sign(
        notices,
        rule.line,
        NoticeKind::EmptyHead,
        trail_place(pieces.as_slice()),
    )
}

/// Appends those of these rules of a text with these lines.
pub(crate) fn add_empty_heads(
    alloc: Global,
    notices: &mut Vec<Notice>,
    lines: &[Line<'_>],
    rules: &[Rule],
) -> Result<(), AllocError>
    ensures { OnOk result (notices.new.items
        ≡ notices.old.items ++ empty_heads (map line_of lines.now) (map rule_of rules.now)) }
{
    for rule in rules {
        add_empty_head(alloc, notices, lines, rule)?;
    }
    Ok(())
}
