//! The nodes of a picture.
ghost use Rattle.std.specs.Prelude.{◌≡◌, ℕ, ◌+◌, ◌<◌, ◌==◌, true, false, ◌++◌, length, OnOk, flat_map};
ghost use Rattle.lex_semantics.specs.Text.{Among};
ghost use Rattle.lexlook_specs.specs.Pictures.{accepting_line, arrow, entry, node_line, node_of, rule_label, starts};

use crate::picture::adding::{add, add_number, add_quoted};
use std::alloc::AllocError;

/// Appends the node of a condition.
fn add_node(text: &mut Vec<u8>, name: &[u8], line_start: bool) -> Result<(), AllocError>
    ensures { OnOk result (text.new.items ≡ text.old.items ++ node_of name.now line_start) }
{
    add(text, b"  \"<")?;
    add_quoted(text, name)?;
    if line_start {
        return add(text, b">^\"");
    }
    add(text, b">\"")
}

/// Appends the arrow from the node of a condition to a state, unless that is the dead one.
fn add_arrow(
    text: &mut Vec<u8>,
    name: &[u8],
    line_start: bool,
    state: u32,
) -> Result<(), AllocError>
    ensures { OnOk result (text.new.items ≡ text.old.items ++ arrow (node_of name.now line_start) state) }
{
    if state == 0 {
        return Ok(());
    }
    add_node(text, name, line_start)?;
    add(text, b" -> ")?;
    add_number(text, state)?;
    add(text, b";\n")
}

/// Appends the start of a condition: its node, and an arrow to the state.
fn add_entry(
    text: &mut Vec<u8>,
    name: &[u8],
    line_start: bool,
    state: u32,
) -> Result<(), AllocError>
    ensures { OnOk result (text.new.items ≡ text.old.items ++ entry (node_of name.now line_start) state) }
{
    add_node(text, name, line_start)?;
    add(text, b" [shape=plaintext];\n")?;
    add_arrow(text, name, line_start, state)
}

/// Appends the starts of a condition.
pub(crate) fn add_starts(
    text: &mut Vec<u8>,
    name: &[u8],
    state: u32,
    at_line_start: u32,
) -> Result<(), AllocError>
    ensures { OnOk result (text.new.items ≡ text.old.items ++ starts name.now state at_line_start) }
{
    add_entry(text, name, false, state)?;
    if at_line_start == state {
        return Ok(());
    }
    add_entry(text, name, true, at_line_start)
}

/// Appends the lines of the rules that a state accepts.
fn add_rules(text: &mut Vec<u8>, rules: &[u32], lines: &[u32]) -> Result<(), AllocError>
    requires { (i : ℕ) → Among rules.now i → i < length lines.now }
    ensures { OnOk result (text.new.items ≡ text.old.items ++ flat_map (rule_label lines.now) rules.now) }
{
    for rule in rules {
        add(text, b"\\nline ")?;
        add_number(text, lines[*rule as usize])?;
    }
    Ok(())
}

/// Appends the line of a state that accepts some rules.
fn add_accepting(
    text: &mut Vec<u8>,
    state: u32,
    rules: &[u32],
    lines: &[u32],
) -> Result<(), AllocError>
    requires { (i : ℕ) → Among rules.now i → i < length lines.now }
    ensures { OnOk result (text.new.items ≡ text.old.items ++ accepting_line lines.now state rules.now) }
{
    add(text, b"  ")?;
    add_number(text, state)?;
    add(text, b" [shape=doublecircle, label=\"")?;
    add_number(text, state)?;
    add_rules(text, rules, lines)?;
    add(text, b"\"];\n")
}

/// Appends the line of a state that accepts these rules, if any.
pub(crate) fn add_state(
    text: &mut Vec<u8>,
    state: u32,
    rules: &[u32],
    lines: &[u32],
) -> Result<(), AllocError>
    requires { (i : ℕ) → Among rules.now i → i < length lines.now }
    ensures { OnOk result (text.new.items ≡ text.old.items ++ node_line lines.now state rules.now) }
{
    if !rules.is_empty() {
        return add_accepting(text, state, rules, lines);
    }
    add(text, b"  ")?;
    add_number(text, state)?;
    add(text, b";\n")
}
