//! Words with the states that they are the first to lead to. The words stand in one text, where a word may be the front
//! of the next one.
ghost use Rattle.std.specs.Prelude.{length};
ghost use Rattle.lexauto_reports.specs.Stretches.{AreWithin, AreWithin-prop};

/// Where a word stands, and the states that it is the first to lead to.
#[derive(Drop)]
pub struct Group {
    /// Where its word begins in the text.
    pub start: usize,
    /// Where its word ends.
    pub end: usize,
    /// The states, each three times its number and how many bytes were read, up to two.
    pub states: Vec<u32>,
}

/// Groups in the order of their words, and the text of these.
#[derive(Drop)]
pub struct Groups {
    /// The text in which the words stand.
    pub text: Vec<u8>,
    /// The groups.
    pub groups: Vec<Group>,
    ghost within: { AreWithin (length text.items) groups.items } by { AreWithin-prop (length text.items) groups.items },
}
