//! Ranges of code points.

/// The code points from the first to the last, both in it: none where the first is the greater one. (The Unicode
/// Standard, section 2.4: code points go up to U+10FFFF. Greater numbers are none.)
#[derive(Clone, Copy)]
pub struct CodeRange {
    pub first: u32,
    pub last: u32,
}
