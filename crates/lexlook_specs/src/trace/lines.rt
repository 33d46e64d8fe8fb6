//! Lines that grow at their end.
ghost use Rattle.std.specs.Prelude.{◌≡◌, ◌++◌, OnOk, IfOk, decimal};
ghost use Rattle.lexlook_specs.specs.Traced.{rule_front};

use itoa::Buffer;
use std::alloc::{AllocError, Global};

/// Appends bytes.
pub(crate) fn add(line: &mut Vec<u8>, bytes: &[u8]) -> Result<(), AllocError>
    ensures { OnOk result (line.new.items ≡ line.old.items ++ bytes.now) }
{
    line.extend_from_slice(bytes)
}

/// Appends a number, in decimal.
pub(crate) fn add_number(line: &mut Vec<u8>, number: u32) -> Result<(), AllocError>
    ensures { OnOk result (line.new.items ≡ line.old.items ++ decimal number) }
{
    let mut digits = Buffer::new();
    add(line, digits.format(number).as_bytes())
}

/// What is written before the text of a rule in this line.
pub(crate) fn rule_front(alloc: Global, number: u32) -> Result<Vec<u8>, AllocError>
    ensures { IfOk result (λ v. v.items ≡ rule_front number) }
{
    let mut line = Vec::new(alloc);
    add(&mut line, b"--accepting rule at line ")?;
    add_number(&mut line, number)?;
    add(&mut line, b" (\"")?;
    Ok(line)
}
