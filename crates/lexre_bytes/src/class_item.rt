//! What a class is made of.
use crate::error::FaultAt;

/// An element of a class.
#[derive(Clone, Copy)]
pub enum ClassItem<'a> {
    /// The bytes from the first to the second.
    Span(u8, u8),
    /// `[:name:]`.
    Named(&'a [u8]),
    /// What may not stand in a class, and the fault that says why.
    Refused(FaultAt<'a>),
}
