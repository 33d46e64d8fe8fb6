//! End actions that tell the end of the input.
ghost use Rattle.std.specs.Prelude.{◌≡◌, ◌≤◌, length, map, IfOk};
ghost use Rattle.lexspec_actions.specs.Views.{condition_of};
ghost use Rattle.lexlook_specs.specs.Traced.{end_line, traced_conditions};
ghost use Rattle.lex_semantics.specs.Limits.{max_conditions};

use crate::trace::lines::{add, add_number};
use lexspec::Condition;
use std::alloc::{AllocError, Global};

/// The line of the end of the input in a condition.
fn end_line(alloc: Global, condition: u32) -> Result<Vec<u8>, AllocError>
    ensures { IfOk result (λ v. v.items ≡ end_line condition) }
{
    let mut line = Vec::new(alloc);
    add(&mut line, b"--EOF (start condition ")?;
    add_number(&mut line, condition)?;
    add(&mut line, b")\n")?;
    Ok(line)
}

/// The condition with an end action that prints this line.
fn with_line(condition: Condition, line: Vec<u8>) -> Condition
    ensures { condition_of result ≡ record {
      name = condition.name.items;
      exclusive = condition.exclusive;
      end = record { print = line.items; status = condition.end.status };
    } }
{
    let mut telling = condition;
    telling.end.print = line;
    telling
}

/// The conditions with end actions that write that line.
pub(crate) fn telling_ends(
    alloc: Global,
    conditions: Vec<Condition>,
) -> Result<Vec<Condition>, AllocError>
    requires { length conditions.items ≤ max_conditions }
    ensures { IfOk result (λ v. map condition_of v.items
        ≡ traced_conditions 0 (map condition_of conditions.items)) }
{
    let mut told = Vec::new(alloc);
    for condition in conditions {
        let line = end_line(alloc, told.len() as u32)?;
        told.push(with_line(condition, line))?;
    }
    Ok(told)
}
