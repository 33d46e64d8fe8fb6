//! What a program in C holds of a scan by pieces.
ghost use Rattle.std.specs.Prelude.{◌≡◌, Some, None, is_some, IfSome};
ghost use Rattle.liblex_calls.specs.declared.piece_scan.PieceScan.{PieceScan};

use crate::holder::Holder;
use crate::loose::Loose;
use crate::piece_scan::PieceScan;
use std::alloc::Global;
use std::mem;

/// What a program in C holds of a scan by pieces, open or closed.
#[repr(C)]
pub struct Scan {
    /// Whether a scan is held.
    is_open: bool,
    pub(crate) place: Holder,
    ghost told: { is_open ≡ is_some place.value },
}

impl Scan {
    ghost use Rattle.liblex_calls.specs.Handles.{open_in};

    /// One that is closed.
    pub fn closed() -> Scan
        ensures { open_in result ≡ None }
    {
        Scan {
            is_open: false,
            place: Holder::empty(),
        }
    }

    /// Closes it, and gives its memory back: for callers in Rattle, who have to end what they own.
    pub fn close(self, alloc: Global) {
        match self.into_box(alloc) {
            None => {}
            Some(_) => {}
        }
    }

    /// One that holds an open scan.
    fn holding(scan: Box<PieceScan>) -> Scan
        ensures { result.place.value ≡ Some scan.value }
    {
        Scan {
            is_open: true,
            place: Holder::filled(Loose::of(scan)),
        }
    }

    /// The open scan, where it holds one.
    fn into_box(self, alloc: Global) -> Option<Box<PieceScan>>
        ensures value { (p : PieceScan) → self.place.value ≡ Some p → IfSome result (λ b. b.value ≡ p) }
        ensures is_some { is_some result ≡ is_some self.place.value }
    {
        let Scan { is_open, place } = self;
        if is_open {
            Some(place.emptied(alloc).into_box())
        } else {
            place.let_go();
            None
        }
    }
}

/// Takes what is held, and leaves the scan closed.
pub(crate) fn take(alloc: Global, scan: &mut Scan) -> Option<Box<PieceScan>>
    ensures closed { scan.new.place.value ≡ None }
    ensures value { (p : PieceScan) → scan.old.place.value ≡ Some p → IfSome result (λ b. b.value ≡ p) }
    ensures is_some { is_some result ≡ is_some scan.old.place.value }
{
    mem::replace(scan, Scan::closed()).into_box(alloc)
}

/// Puts a scan into one that is closed.
pub(crate) fn put(scan: &mut Scan, held: Box<PieceScan>)
    requires { scan.old.place.value ≡ None }
    ensures { scan.new.place.value ≡ Some held.value }
{
    let Scan { is_open: _, place } = mem::replace(scan, Scan::holding(held));
    place.let_go();
}
