//! The words of groups, and groups with one more.
ghost use Rattle.std.specs.Prelude.{◌≡◌, ℕ, ◌+◌, ◌-◌, ◌<◌, ◌≤◌, List, [], ◌∷◌, ◌++◌, length, take, drop, IfOk, OnOk};
ghost use Rattle.lexauto_reports.specs.Searching.{at, words_of, states_of_groups};

use crate::groups::{Group, Groups};
use std::alloc::{AllocError, Global};

impl Groups {
    /// The group of the empty word alone.
    pub(crate) fn first(alloc: Global, states: Vec<u32>) -> Result<Groups, AllocError>
        ensures words { IfOk result (λ g. words_of g ≡ [] ∷ []) }
        ensures states { IfOk result (λ g. states_of_groups g ≡ states.items ∷ []) }
    {
        let text = Vec::new(alloc);
        let group = Group {
            start: 0,
            end: 0,
            states,
        };
        let groups = vec![in alloc; group]?;
        Ok(Groups { text, groups })
    }

    /// The word of a group.
    pub fn word(&self, place: usize) -> &[u8]
        requires { place < length (words_of self.now) }
        ensures { result.now ≡ at (words_of self.now) place }
    {
        let group = &self.groups[place];
        &self.text[group.start..group.end]
    }

    /// Adds a group of these states, whose word is that of another with one byte more.
    pub(crate) fn add(
        &mut self,
        alloc: Global,
        place: usize,
        byte: u8,
        states: Vec<u32>,
    ) -> Result<(), AllocError>
        requires { place < length (words_of self.old) }
        ensures words { OnOk result (words_of self.new
            ≡ words_of self.old ++ (at (words_of self.old) place ++ byte ∷ []) ∷ []) }
        ensures states { OnOk result (states_of_groups self.new ≡ states_of_groups self.old ++ states.items ∷ []) }
        ensures more { OnOk result (length self.new.groups.items ≡ length self.old.groups.items + 1) }
    {
        let group = &self.groups[place];
        let start = lengthen(alloc, &mut self.text, group.start, group.end, byte)?;
        let end = self.text.len();
        self.groups.push(Group { start, end, states })?;
        Ok(())
    }
}

/// Puts a word of a text with one byte more at its end, unless the word stands there and the byte alone is to be put.
/// Answers where it begins.
fn lengthen(
    alloc: Global,
    text: &mut Vec<u8>,
    start: usize,
    end: usize,
    byte: u8,
) -> Result<usize, AllocError>
    requires order { start ≤ end }
    requires within { end ≤ length text.old.items }
    ensures grown { (xs : List ℕ) × (text.new.items ≡ text.old.items ++ xs) }
    ensures begins { IfOk result (λ i. i ≤ length text.new.items) }
    ensures word { IfOk result (λ i. drop i text.new.items
        ≡ take (end - start) (drop start text.old.items) ++ byte ∷ []) }
{
    if end == text.len() {
        text.push(byte)?;
        return Ok(start);
    }
    let begin = text.len();
    let word = Vec::from_slice(alloc, &text[start..end])?;
    text.extend_from_slice(&word)?;
    text.push(byte)?;
    Ok(begin)
}
