//! The faults of a text, one behind the other.
ghost use Rattle.std.specs.Prelude.{◌≡◌, IfOk, option_map};
ghost use Rattle.lexkit.specs.Faults.{lacks_memory};
ghost use Rattle.lexlook_check.specs.Finding.{AreFaultsOf, max_faults};

use crate::leaving::without_rule_at;
use crate::reader::SpecReader;
use lexkit::{Fault, GenError, ScanError};
use lexspec::SpecError;
use std::alloc::{AllocError, Global};

/// The most faults that are told of a text.
pub const MAX_FAULTS: usize = 100;

/// What a reader finds in a text.
#[derive(Drop)]
pub(crate) struct Found {
    /// Its faults, in the order in which they were found.
    pub(crate) faults: Vec<SpecError>,
    /// The text without the rules at fault, where that is a specification.
    pub(crate) left: Option<Vec<u8>>,
}

/// Whether the refusal says nothing of the text, since memory ran out: it is reported so.
fn lacks_memory(fault: SpecError) -> bool
    ensures { result ≡ lacks_memory fault.kind }
{
    Fault::Scan(ScanError::Generate(GenError::Spec(fault))).status() == 71
}

/// The faults of a text: the first, that of the text without its rule, and so on, up to 100.
pub(crate) fn find_faults<R: SpecReader>(
    alloc: Global,
    reader: &R,
    text: &[u8],
) -> Result<Found, AllocError>
    ensures { IfOk result (λ f. AreFaultsOf (R.reads reader.now) max_faults text.now f.faults.items
        (option_map (λ v. v.items) f.left)) }
{
    let mut left = Vec::from_slice(alloc, text)?;
    let mut faults = Vec::new(alloc);
    'faults: while faults.len() < MAX_FAULTS {
        let fault = match reader.read(alloc, left.as_slice()) {
            Ok(()) => {
                return Ok(Found {
                    faults,
                    left: Some(left),
                });
            }
            Err(fault) => fault,
        };
        if lacks_memory(fault) {
            return Err(AllocError);
        }
        faults.push(fault)?;
        let next = without_rule_at(alloc, left.as_slice(), fault.line)?;
        if next.as_slice() == left.as_slice() {
            return Ok(Found { faults, left: None });
        }
        left = next;
    }
    Ok(Found { faults, left: None })
}
