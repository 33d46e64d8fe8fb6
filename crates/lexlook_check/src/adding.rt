//! Messages that are put together of parts.
ghost use Rattle.std.specs.Prelude.{◌≡◌, ◌++◌, OnOk};
ghost use Rattle.lexauto_reports.specs.Joined.{joined};

use lexlook_specs::add;
use std::alloc::AllocError;

/// Appends parts, one behind the other.
pub(crate) fn add_each(text: &mut Vec<u8>, parts: &[&[u8]]) -> Result<(), AllocError>
    ensures { OnOk result (text.new.items ≡ text.old.items ++ joined parts.now) }
{
    for part in parts {
        add(text, *part)?;
    }
    Ok(())
}
