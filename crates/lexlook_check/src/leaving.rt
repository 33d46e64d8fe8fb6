//! The text without a rule.
ghost use Rattle.std.specs.Prelude.{◌≡◌, ◌++◌, IfOk, OnOk};
ghost use Rattle.lexlook_check.specs.Leaving.{continues_rule, without_first_rule, without_rule_at};

use lexlook_specs::add;
use lexspec_lines::is_blank;
use std::alloc::{AllocError, Global};

/// Whether the line that begins here belongs to the rule before it: it is empty, or begins with a blank or a `}`.
fn continues_rule(text: &[u8]) -> bool
    ensures { result ≡ continues_rule text.now }
{
    match text.split_first() {
        Some((first, _)) => {
            is_blank(*first) || *first == b'\n' || *first == b'\r' || *first == b'}'
        }
        None => false,
    }
}

/// Appends what stands before the line with this number, from 1, and answers the text from there on.
fn keep_before<'a>(kept: &mut Vec<u8>, text: &'a [u8], line: u32) -> Result<&'a [u8], AllocError>
    ensures { IfOk result (λ rest. kept.new.items ++ without_first_rule rest.now
        ≡ kept.old.items ++ without_rule_at line text.now) }
{
    let mut rest = text;
    let mut line = line;
    'bytes: while let Some((first, next)) = rest.split_first() {
        if line == 1 {
            return Ok(rest);
        }
        kept.push(*first)?;
        if *first == b'\n' {
            line = line.saturating_sub(1);
        }
        rest = next;
    }
    Ok(rest)
}

/// Appends the text without the rule that begins it: of that the newlines alone.
fn keep_behind(kept: &mut Vec<u8>, text: &[u8]) -> Result<(), AllocError>
    ensures { OnOk result (kept.new.items ≡ kept.old.items ++ without_first_rule text.now) }
{
    let mut rest = text;
    'bytes: while let Some((first, next)) = rest.split_first() {
        if *first == b'\n' {
            kept.push(b'\n')?;
            if !continues_rule(next) {
                return add(kept, next);
            }
        }
        rest = next;
    }
    Ok(())
}

/// The text in which the lines of the rule are empty that begins at this line, from 1. Other lines stay where they are.
pub(crate) fn without_rule_at(alloc: Global, text: &[u8], line: u32) -> Result<Vec<u8>, AllocError>
    ensures { IfOk result (λ kept. kept.items ≡ without_rule_at line text.now) }
{
    let mut kept = Vec::new(alloc);
    let rest = keep_before(&mut kept, text, line)?;
    keep_behind(&mut kept, rest)?;
    Ok(kept)
}
