//! What holds a scan for the handle of a stream of tokens.
ghost use Rattle.std.specs.Prelude.{◌≡◌, Some, None, Option};
ghost use Rattle.std.specs.Coded.{coded_option};
ghost use Rattle.liblex_calls.specs.Owned.{owned_at};
ghost use Rattle.liblex_calls.specs.contracts.token_scan.TokenScan.{the_row};
ghost use Rattle.liblex_calls.specs.declared.token_scan.TokenScan.{TokenScan};

use crate::loose::Loose;
use crate::token_scan::TokenScan;
use std::alloc::Global;
use std::marker::Model;

/// Holds a scan, or nothing: a pointer that owns the scan, or none.
#[repr(C)]
pub struct StreamHolder {
    at: *mut u8,
    pub(crate) ghost value: { Option TokenScan } by { coded_option the_row.coded },
}

impl Model for StreamHolder {
    ghost also_owns = { λ l. owned_at the_row l.at l.value };
}

impl StreamHolder {
    ghost use Rattle.std.specs.Borrow.{sem};
    ghost use Rattle.liblex_calls.specs.Lent.{LendsScan};

    /// The scan that is held, where it lies.
    #[inline(always)]
    pub(crate) fn scan(&mut self) -> &mut TokenScan
        requires { (v : TokenScan) × (self.old.value ≡ Some v) }
        ensures* lent { sem 𝓛 (LendsScan self.entry result) }
        ensures value { self.old.value ≡ Some result.now }
    {
        unsafe { &mut *(self.at as *mut TokenScan) }
    }

    /// One that holds nothing.
    pub(crate) fn empty() -> StreamHolder
        ensures { result.value ≡ None }
    {
        StreamHolder {
            at: std::ptr::null_mut(),
        }
    }

    /// One that holds what a pointer owns.
    pub(crate) fn filled(scan: Loose<TokenScan, Global>) -> StreamHolder
        ensures { result.value ≡ Some scan.value }
    {
        let Loose { at, alloc: _ } = scan;
        StreamHolder { at: at as *mut u8 }
    }

    /// The pointer again, of one that is filled.
    pub(crate) fn emptied(self, alloc: Global) -> Loose<TokenScan, Global>
        requires { (v : TokenScan) × (self.value ≡ Some v) }
        ensures { self.value ≡ Some result.value }
    {
        let StreamHolder { at } = self;
        Loose {
            at: at as *mut TokenScan,
            alloc,
        }
    }

    /// Lets one go that holds nothing.
    pub(crate) fn let_go(self)
        requires { self.value ≡ None }
    {
        let StreamHolder { at: _ } = self;
    }
}
