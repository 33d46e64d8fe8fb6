//! The texts that rules take.
ghost use Rattle.std.specs.Prelude.{◌≡◌, ◌<◌, ◌≤◌, ◌^◌, ℕ, length, IfOk};
ghost use Rattle.lex_semantics.specs.Text.{Among};
ghost use Rattle.lexauto_dfa.specs.Automata.{accepts_of, conditions_of, lists_of, states_of};
ghost use Rattle.lexauto_reports.specs.Searching.{words_of, AreFound};
ghost use Rattle.lexlook_specs.specs.Matches.{matches_in};
ghost use Rattle.lexlook_specs.specs.Placing.{IsLeastOf, TakesAt};
ghost use Rattle.lexlook_specs.specs.Words.{AreWords, IsWordOf};

use crate::words::copying::copied_texts;
use crate::words::placing::{first_places, takers};
use crate::words::starting::{Start, Wish, first_start};
use lexauto_dfa::Dfa;
use lexauto_reports::{Found, first_words};
use std::alloc::{AllocError, Global};

/// A text, in this condition, at the start of a line or not.
#[derive(Drop)]
pub struct ShownText {
    pub condition: u8,
    pub line_start: bool,
    pub text: Vec<u8>,
}

/// What is shown of a rule.
#[derive(Drop)]
pub enum Word {
    /// The first text that it takes.
    Taken(ShownText),
    /// It takes none. Each text that fits it is taken by one of these rules, ascending by number.
    Never(Vec<u32>),
}

/// What is shown of all rules, and of the default rule in each condition.
#[derive(Drop)]
pub struct Words {
    /// By the number of the rule.
    pub rules: Vec<Word>,
    /// For each condition the first byte that the default rule copies in it, if it copies any.
    pub defaults: Vec<Option<ShownText>>,
}

/// A text from a start on.
pub(crate) fn shown_text(alloc: Global, start: Start, text: &[u8]) -> Result<ShownText, AllocError>
    ensures condition { IfOk result (λ p. p.condition ≡ start.condition) }
    ensures line_start { IfOk result (λ p. p.line_start ≡ start.line_start) }
    ensures text { IfOk result (λ p. p.text.items ≡ text.now) }
{
    let text = Vec::from_slice(alloc, text)?;
    Ok(ShownText {
        condition: start.condition,
        line_start: start.line_start,
        text,
    })
}

/// What is shown of a rule, where `first` is the place of the first word by which it takes a text.
fn word_of(
    alloc: Global,
    dfa: &Dfa,
    rejects: &[bool],
    found: &Found,
    first: Option<usize>,
    rule: u32,
) -> Result<Word, AllocError>
    requires conditions { conditions_of dfa.now ≤ 255 }
    requires rules { (s i : ℕ) → s < states_of dfa.now → Among (accepts_of dfa.now s) i → i < length rejects.now }
    requires few { length rejects.now < 2 ^ 32 }
    requires found { AreFound (lists_of dfa.now) (words_of found.now.groups) found.now.places.items }
    requires first { IsLeastOf
        (TakesAt (lists_of dfa.now) rejects.now found.now.places.items (states_of dfa.now) rule) first }
    ensures { IfOk result (IsWordOf (matches_in (lists_of dfa.now) rejects.now) rule) }
{
    if let Some(place) = first {
        let conditions = dfa.parts().starts.len() as u8;
        let text = found.groups.word(place);
        if let Some(start) = first_start(dfa, rejects, text, Wish::Takes(rule), conditions) {
            return Ok(Word::Taken(shown_text(alloc, start, text)?));
        }
    }
    Ok(Word::Never(takers(alloc, dfa, rejects, &found.places, rule)?))
}

/// What is shown of each rule of a specification, by an automaton that accepts all rules that fit, and the flags of the
/// rules that have REJECT: the first text that the rule takes, or the rules that take its texts. A text is taken by the
/// first rule that fits it and by those to which REJECT goes on. Shorter texts come first, then the first in byte
/// order, then those of the first condition, and then those not at the start of a line. Of the default rule it is, for each
/// condition, the first byte that it copies there.
pub fn find_words(alloc: Global, dfa: &Dfa, rejects: &[bool]) -> Result<Words, AllocError>
    requires conditions { conditions_of dfa.now ≤ 255 }
    requires rules { (s i : ℕ) → s < states_of dfa.now → Among (accepts_of dfa.now s) i → i < length rejects.now }
    requires few { length rejects.now < 2 ^ 32 }
    ensures { IfOk result (AreWords (matches_in (lists_of dfa.now) rejects.now)) }
{
    let found = first_words(alloc, dfa)?;
    let firsts = first_places(alloc, dfa, rejects, &found.places)?;
    let mut rules = Vec::new(alloc);
    for rule in 0..rejects.len() {
        let word = word_of(alloc, dfa, rejects, &found, firsts[rule], rule as u32)?;
        rules.push(word)?;
    }
    let defaults = copied_texts(alloc, dfa, rejects)?;
    Ok(Words { rules, defaults })
}
