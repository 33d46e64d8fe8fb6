//! What a program in C holds of a stream of tokens.
ghost use Rattle.std.specs.Prelude.{◌≡◌, Some, None, is_some, IfSome};
ghost use Rattle.liblex_calls.specs.declared.token_scan.TokenScan.{TokenScan};

use crate::loose::Loose;
use crate::stream_holder::StreamHolder;
use crate::token_scan::TokenScan;
use std::alloc::Global;
use std::mem;

/// What a program in C holds of a stream of tokens, open or closed.
#[repr(C)]
pub struct TokenStream {
    /// Whether a scan is held.
    is_open: bool,
    pub(crate) place: StreamHolder,
    ghost told: { is_open ≡ is_some place.value },
}

impl TokenStream {
    ghost use Rattle.liblex_calls.specs.Handles.{stream_in};

    /// One that is closed.
    pub fn closed() -> TokenStream
        ensures { stream_in result ≡ None }
    {
        TokenStream {
            is_open: false,
            place: StreamHolder::empty(),
        }
    }

    /// Closes it, and gives its memory back: for callers in Rattle, who have to end what they own.
    pub fn close(self, alloc: Global) {
        match self.into_box(alloc) {
            None => {}
            Some(_) => {}
        }
    }

    /// Whether it is open.
    #[inline(always)]
    pub(crate) fn is_open(&self) -> bool
        ensures { result ≡ is_some self.now.place.value }
    {
        self.is_open
    }

    /// One that holds an open scan.
    fn holding(scan: Box<TokenScan>) -> TokenStream
        ensures { result.place.value ≡ Some scan.value }
    {
        TokenStream {
            is_open: true,
            place: StreamHolder::filled(Loose::of(scan)),
        }
    }

    /// The open scan, where it holds one.
    fn into_box(self, alloc: Global) -> Option<Box<TokenScan>>
        ensures value { (p : TokenScan) → self.place.value ≡ Some p → IfSome result (λ b. b.value ≡ p) }
        ensures is_some { is_some result ≡ is_some self.place.value }
    {
        let TokenStream { is_open, place } = self;
        if is_open {
            Some(place.emptied(alloc).into_box())
        } else {
            place.let_go();
            None
        }
    }
}

/// Takes what is held, and leaves the stream closed.
pub(crate) fn take(alloc: Global, stream: &mut TokenStream) -> Option<Box<TokenScan>>
    ensures closed { stream.new.place.value ≡ None }
    ensures value { (p : TokenScan) → stream.old.place.value ≡ Some p → IfSome result (λ b. b.value ≡ p) }
    ensures is_some { is_some result ≡ is_some stream.old.place.value }
{
    mem::replace(stream, TokenStream::closed()).into_box(alloc)
}

/// Puts a scan into one that is closed.
pub(crate) fn put(stream: &mut TokenStream, held: Box<TokenScan>)
    requires { stream.old.place.value ≡ None }
    ensures { stream.new.place.value ≡ Some held.value }
{
    let TokenStream { is_open: _, place } = mem::replace(stream, TokenStream::holding(held));
    place.let_go();
}
