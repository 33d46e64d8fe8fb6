//! What the default rule copies in each condition.
ghost use Rattle.std.specs.Prelude.{◌≡◌, ◌≤◌, ◌++◌, true, IfOk, OnOk, length, map, option_map};
ghost use Rattle.lex_semantics.specs.Limits.{max_conditions, max_positions, max_states};
ghost use Rattle.lexspec.specs.RuleViews.{rule_of};
ghost use Rattle.lexspec.specs.Views.{spec_of};
ghost use Rattle.lexspec_actions.specs.Views.{condition_of};
ghost use Rattle.lexlook_text.specs.DeclaredNames.{declared_name_of};
ghost use Rattle.lexlook_specs.specs.Copied.{AreCopied};
ghost use Rattle.lexlook_specs.specs.Matches.{matches_of};
ghost use Rattle.lexlook_check.specs.Checks.{AreCopiedOf};
ghost use Rattle.lexlook_check.specs.Copies.{asked_copies, copies_at, copies_from, copies_in, copy_at, met_byte, warned_bytes};

use crate::conditions::{byte_of, is_entered};
use crate::findings::{Finding, What, known_lines};
use lexauto::{Limits, build};
use lexkit::{Options, read_text};
use lexlook_specs::{copied_bytes, rejecting, rejects_of};
use lexlook_text::{DeclaredName, declared_conditions, first_named};
use lexspec::{Condition, Rule, Spec};
use lexspec_lines::without_returns;
use std::alloc::{AllocError, Global};

/// For each condition of a specification the first byte that the default rule copies in it.
fn copied_by(alloc: Global, spec: Spec, limits: Limits) -> Result<Vec<Option<u8>>, AllocError>
    requires few_positions { limits.positions ≤ max_positions }
    requires few_states { limits.states ≤ max_states }
    ensures { IfOk result (λ bytes. AreCopied (matches_of (spec_of spec)) bytes.items) }
{
    let rejects = rejects_of(alloc, &spec)?;
    let spec = rejecting(alloc, spec)?;
    match build(alloc, &spec, limits) {
        Err(_) => Err(AllocError),
        Ok(automaton) => copied_bytes(alloc, &automaton, rejects.as_slice()),
    }
}

/// The same of the specification that a text spells, where that is asked for.
pub(crate) fn copied_of(
    alloc: Global,
    asked: bool,
    text: &[u8],
    options: Options,
) -> Result<Vec<Option<u8>>, AllocError>
    requires few_positions { options.limits.positions ≤ max_positions }
    requires few_states { options.limits.states ≤ max_states }
    ensures { IfOk result (λ bytes. asked ≡ true → AreCopiedOf options text.now bytes.items) }
{
    if !asked {
        return Ok(Vec::new(alloc));
    }
    match read_text(alloc, text, options) {
        Err(_) => Err(AllocError),
        Ok(spec) => copied_by(alloc, spec, options.limits),
    }
}

/// The first byte that the default rule copies in the condition with this number, if a match may be made there.
fn met_byte(rules: &[Rule], copied: &[Option<u8>], number: u8) -> Option<u8>
    ensures { result ≡ met_byte (map rule_of rules.now) copied.now number }
{
    if number == 0 || is_entered(rules, number) {
        byte_of(copied, number)
    } else {
        None
    }
}

/// That this byte is copied in a condition, which is declared at this place.
fn copy_at(place: Option<DeclaredName<'_>>, byte: u8) -> Finding
    ensures { result ≡ copy_at (option_map declared_name_of place.entry) byte }
{
    let what = What::Copied(byte);
    match place {
        None => Finding {
            line: 0,
            at: None,
            size: 1,
            what,
        },
        Some(place) => Finding {
            line: place.line,
            at: Some(place.at),
            size: place.name.len(),
            what,
        },
    }
}

/// Appends the same, where a byte is copied.
fn add_copy(
    copies: &mut Vec<Finding>,
    place: Option<DeclaredName<'_>>,
    byte: Option<u8>,
) -> Result<(), AllocError>
    ensures { OnOk result (copies.new.items
        ≡ copies.old.items ++ copies_at (option_map declared_name_of place.entry) byte) }
{
    if let Some(byte) = byte {
        copies.push(copy_at(place, byte))?;
    }
    Ok(())
}

/// Of all conditions of a specification with these rules each in which a match may be made and a byte is copied. They are
/// declared at these places.
fn copies_from(
    alloc: Global,
    rules: &[Rule],
    conditions: &[Condition],
    copied: &[Option<u8>],
    places: &[DeclaredName<'_>],
) -> Result<Vec<Finding>, AllocError>
    requires { length conditions.now ≤ max_conditions }
    ensures { IfOk result (λ copies. copies.items ≡ copies_from (map rule_of rules.now) copied.now
        (map declared_name_of places.now) 0 (map condition_of conditions.now)) }
{
    let mut copies = Vec::new(alloc);
    for index in 0..conditions.len() {
        let condition = &conditions[index];
        let place = first_named(places, condition.name.as_slice());
        let byte = met_byte(rules, copied, index as u8);
        add_copy(&mut copies, place, byte)?;
    }
    Ok(copies)
}

/// The same of the specification that this text spells.
fn copies_in(
    alloc: Global,
    spec: &Spec,
    copied: &[Option<u8>],
    text: &[u8],
) -> Result<Vec<Finding>, AllocError>
    ensures { IfOk result (λ copies. copies.items ≡ copies_in (spec_of spec.now) copied.now text.now) }
{
    let whole = without_returns(alloc, text)?;
    let lines = known_lines(alloc, whole.as_slice())?;
    let places = declared_conditions(alloc, lines.as_slice())?;
    copies_from(
        alloc,
        spec.rules(),
        spec.conditions(),
        copied,
        places.as_slice(),
    )
}

/// The same, where that is asked for, and nothing is left out of the text.
pub(crate) fn asked_copies(
    alloc: Global,
    strict: bool,
    faultless: bool,
    spec: &Spec,
    copied: &[Option<u8>],
    text: &[u8],
) -> Result<Vec<Finding>, AllocError>
    ensures { IfOk result (λ copies. copies.items
        ≡ asked_copies strict faultless (spec_of spec.now) copied.now text.now) }
{
    if !strict || !faultless {
        return Ok(Vec::new(alloc));
    }
    copies_in(alloc, spec, copied, text)
}

/// The bytes of which is warned in exclusive conditions.
pub(crate) fn warned_bytes(strict: bool, copied: &[Option<u8>]) -> &[Option<u8>]
    ensures { result.now ≡ warned_bytes strict copied.now }
{
    if strict { &[] } else { copied }
}
