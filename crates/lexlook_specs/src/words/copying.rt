//! What the default rule copies.
ghost use Rattle.std.specs.Prelude.{◌≡◌, ◌<◌, ◌≤◌, ℕ, true, false, [], ◌∷◌, length, Option, Some, IfOk, slice_get};
ghost use Rattle.lex_semantics.specs.Text.{Among};
ghost use Rattle.lexauto_dfa.specs.Automata.{accepts_of, conditions_of, lists_of, states_of};
ghost use Rattle.lexlook_specs.specs.Copied.{AreCopied, CopiesByte, IsFirstCopied};
ghost use Rattle.lexlook_specs.specs.Matches.{matches_in};
ghost use Rattle.lexlook_specs.specs.Placing.{MeetsAfter};
ghost use Rattle.lexlook_specs.specs.Words.{TellsDefault};
ghost use Rattle.lexlook_specs.specs.declared.words.finding.ShownText.{ShownText as ShownTextModel};

use crate::words::finding::{ShownText, shown_text};
use crate::words::starting::{Start, Wish, meets_after};
use lexauto_dfa::Dfa;
use std::alloc::{AllocError, Global};

/// Whether the default rule copies this byte in a condition, at the start of a line or not.
fn copies(dfa: &Dfa, rejects: &[bool], condition: u8, byte: u8) -> bool
    requires condition { condition < conditions_of dfa.now }
    requires rules { (s i : ℕ) → s < states_of dfa.now → Among (accepts_of dfa.now s) i → i < length rejects.now }
    ensures yes { result ≡ true → CopiesByte (matches_in (lists_of dfa.now) rejects.now) condition byte }
    ensures no { result ≡ false → CopiesByte (matches_in (lists_of dfa.now) rejects.now) condition byte → ⊥ }
{
    let text = [byte];
    let within = Start {
        condition,
        line_start: false,
    };
    if meets_after(dfa, rejects, &text, Wish::Copies, within) {
        return true;
    }
    let begins = Start {
        condition,
        line_start: true,
    };
    meets_after(dfa, rejects, &text, Wish::Copies, begins)
}

/// The first byte that the default rule copies in a condition, if it copies any.
fn copied_in(dfa: &Dfa, rejects: &[bool], condition: u8) -> Option<u8>
    requires condition { condition < conditions_of dfa.now }
    requires rules { (s i : ℕ) → s < states_of dfa.now → Among (accepts_of dfa.now s) i → i < length rejects.now }
    ensures { IsFirstCopied (matches_in (lists_of dfa.now) rejects.now) condition result }
{
    for code in 0..256u32 {
        if copies(dfa, rejects, condition, code as u8) {
            return Some(code as u8);
        }
    }
    None
}

/// Where in a condition a match starts of which the default rule copies this byte: not at the start of a line, if it does
/// so there.
fn copied_start(dfa: &Dfa, rejects: &[bool], condition: u8, byte: u8) -> Start
    requires condition { condition < conditions_of dfa.now }
    requires rules { (s i : ℕ) → s < states_of dfa.now → Among (accepts_of dfa.now s) i → i < length rejects.now }
    ensures condition { result.condition ≡ condition }
    ensures within { result.line_start ≡ false
        → MeetsAfter (lists_of dfa.now) rejects.now (byte ∷ []) Wish.Copies condition false }
    ensures begins { result.line_start ≡ true
        → MeetsAfter (lists_of dfa.now) rejects.now (byte ∷ []) Wish.Copies condition false → ⊥ }
{
    let within = Start {
        condition,
        line_start: false,
    };
    if meets_after(dfa, rejects, &[byte], Wish::Copies, within) {
        return within;
    }
    Start {
        condition,
        line_start: true,
    }
}

/// The first text, of one byte, that the default rule copies in a condition, if it copies any.
fn copied_text(
    alloc: Global,
    dfa: &Dfa,
    rejects: &[bool],
    condition: u8,
) -> Result<Option<ShownText>, AllocError>
    requires condition { condition < conditions_of dfa.now }
    requires rules { (s i : ℕ) → s < states_of dfa.now → Among (accepts_of dfa.now s) i → i < length rejects.now }
    ensures { IfOk result (TellsDefault (matches_in (lists_of dfa.now) rejects.now) condition) }
{
    let Some(byte) = copied_in(dfa, rejects, condition) else {
        return Ok(None);
    };
    let start = copied_start(dfa, rejects, condition, byte);
    Ok(Some(shown_text(alloc, start, &[byte])?))
}

/// The same of each condition.
pub(crate) fn copied_texts(
    alloc: Global,
    dfa: &Dfa,
    rejects: &[bool],
) -> Result<Vec<Option<ShownText>>, AllocError>
    requires conditions { conditions_of dfa.now ≤ 255 }
    requires rules { (s i : ℕ) → s < states_of dfa.now → Among (accepts_of dfa.now s) i → i < length rejects.now }
    ensures each { IfOk result (λ v. length v.items ≡ conditions_of dfa.now) }
    ensures told { IfOk result (λ v. (c : ℕ) (o : Option ShownTextModel) → slice_get v.items c ≡ Some o
        → TellsDefault (matches_in (lists_of dfa.now) rejects.now) c o) }
{
    let conditions = dfa.parts().starts.len() as u8;
    let mut texts = Vec::new(alloc);
    for condition in 0..conditions {
        texts.push(copied_text(alloc, dfa, rejects, condition)?)?;
    }
    Ok(texts)
}

/// For each condition of a specification the first byte that the default rule copies in it, if it copies any: by an
/// automaton that accepts all rules that fit, and the flags of the rules that have REJECT.
pub fn copied_bytes(
    alloc: Global,
    dfa: &Dfa,
    rejects: &[bool],
) -> Result<Vec<Option<u8>>, AllocError>
    requires conditions { conditions_of dfa.now ≤ 255 }
    requires rules { (s i : ℕ) → s < states_of dfa.now → Among (accepts_of dfa.now s) i → i < length rejects.now }
    ensures { IfOk result (λ bytes. AreCopied (matches_in (lists_of dfa.now) rejects.now) bytes.items) }
{
    let conditions = dfa.parts().starts.len() as u8;
    let mut bytes = Vec::new(alloc);
    for condition in 0..conditions {
        bytes.push(copied_in(dfa, rejects, condition))?;
    }
    Ok(bytes)
}
