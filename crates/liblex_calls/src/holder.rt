//! What holds a scan for the handle.
ghost use Rattle.std.specs.Prelude.{◌≡◌, Some, None, Option};
ghost use Rattle.std.specs.Coded.{coded_option};
ghost use Rattle.liblex_calls.specs.Owned.{owned_at};
ghost use Rattle.liblex_calls.specs.contracts.piece_scan.PieceScan.{the_row};
ghost use Rattle.liblex_calls.specs.declared.piece_scan.PieceScan.{PieceScan};

use crate::loose::Loose;
use crate::piece_scan::PieceScan;
use std::alloc::Global;
use std::marker::Model;

/// Holds a scan, or nothing: a pointer that owns the scan, or none.
#[repr(C)]
pub struct Holder {
    at: *mut u8,
    pub(crate) ghost value: { Option PieceScan } by { coded_option the_row.coded },
}

impl Model for Holder {
    ghost also_owns = { λ l. owned_at the_row l.at l.value };
}

impl Holder {
    /// One that holds nothing.
    pub(crate) fn empty() -> Holder
        ensures { result.value ≡ None }
    {
        Holder {
            at: std::ptr::null_mut(),
        }
    }

    /// One that holds what a pointer owns.
    pub(crate) fn filled(scan: Loose<PieceScan, Global>) -> Holder
        ensures { result.value ≡ Some scan.value }
    {
        let Loose { at, alloc: _ } = scan;
        Holder { at: at as *mut u8 }
    }

    /// The pointer again, of one that is filled.
    pub(crate) fn emptied(self, alloc: Global) -> Loose<PieceScan, Global>
        requires { (v : PieceScan) × (self.value ≡ Some v) }
        ensures { self.value ≡ Some result.value }
    {
        let Holder { at } = self;
        Loose {
            at: at as *mut PieceScan,
            alloc,
        }
    }

    /// Lets one go that holds nothing.
    pub(crate) fn let_go(self)
        requires { self.value ≡ None }
    {
        let Holder { at: _ } = self;
    }
}
