//! Conditions that nothing enters, that nothing leaves, and exclusive ones in which the default rule copies.
//! (flex, Start Conditions.)
ghost use Rattle.std.specs.Prelude.{◌≡◌, ◌<◌, ◌++◌, None, Some, OnOk, flat_map, length, map, option_map, slice_get, unwrap_or};
ghost use Rattle.std.specs.List.{list_any};
ghost use Rattle.lex_semantics.specs.Active.{contains, serves};
ghost use Rattle.lexspec.specs.RuleViews.{rule_of};
ghost use Rattle.lexspec.specs.Views.{conditions_in, spec_of};
ghost use Rattle.lexspec_actions.specs.Views.{condition_of, statement_of};
ghost use Rattle.lexlook_text.specs.DeclaredNames.{declared_name_of};
ghost use Rattle.lexlook_check.specs.Conditions.{condition_notice, condition_notices, copied_notice, copy_if, declared_notices, faultless_notices, is_entered, is_left, leads_in, leads_out, notice_if, numbered_notices, placed_notices};

use crate::findings::known_lines;
use crate::notices::{Notice, NoticeKind};
use lexlook_text::{DeclaredName, declared_conditions};
use lexspec::{Condition, Rule, Spec, Statement};
use lexspec_actions::number_of;
use lexspec_lines::without_returns;
use std::alloc::{AllocError, Global};

/// Whether a statement enters the condition with this number.
fn leads_in(number: u8, statement: &Statement) -> bool
    ensures { result ≡ leads_in number (statement_of statement.now) }
{
    match statement {
        Statement::Begin(next) => *next == number,
        Statement::Push(next) => *next == number,
        _ => false,
    }
}

/// Whether a statement leads out of the condition: into another, back to the one below on the stack, or to the end.
fn leads_out(number: u8, statement: &Statement) -> bool
    ensures { result ≡ leads_out number (statement_of statement.now) }
{
    match statement {
        Statement::Begin(next) => *next != number,
        Statement::Push(next) => *next != number,
        Statement::Pop | Statement::End(_) => true,
        _ => false,
    }
}

/// Whether one of these statements enters the condition.
fn any_leads_in(number: u8, statements: &[Statement]) -> bool
    ensures { result ≡ list_any (leads_in number) (map statement_of statements.now) }
{
    for statement in statements {
        if leads_in(number, statement) {
            return true;
        }
    }
    false
}

/// Whether one of these statements leads out of it.
fn any_leads_out(number: u8, statements: &[Statement]) -> bool
    ensures { result ≡ list_any (leads_out number) (map statement_of statements.now) }
{
    for statement in statements {
        if leads_out(number, statement) {
            return true;
        }
    }
    false
}

/// Whether a number is among these.
fn contains(numbers: &[u8], number: u8) -> bool
    ensures { result ≡ contains numbers.now number }
{
    numbers.iter().any(|other| *other == number)
}

/// Whether a rule is active in the condition, which has this number.
fn serves(rule: &Rule, number: u8, condition: &Condition) -> bool
    ensures { result ≡ serves (option_map (λ v. v.items) rule.now.conditions) number (Some (condition_of condition.now)) }
{
    match &rule.conditions {
        None => !condition.exclusive,
        Some(numbers) => contains(numbers.as_slice(), number),
    }
}

/// Whether the action of one of these rules enters the condition.
pub(crate) fn is_entered(rules: &[Rule], number: u8) -> bool
    ensures { result ≡ is_entered (map rule_of rules.now) number }
{
    for rule in rules {
        if any_leads_in(number, rule.statements.as_slice()) {
            return true;
        }
    }
    false
}

/// Whether the action of one of these rules that is active in the condition leads out of it.
fn is_left(rules: &[Rule], number: u8, condition: &Condition) -> bool
    ensures { result ≡ is_left (map rule_of rules.now) number (Some (condition_of condition.now)) }
{
    for rule in rules {
        if serves(rule, number, condition) && any_leads_out(number, rule.statements.as_slice()) {
            return true;
        }
    }
    false
}

/// What is warned of of a condition, by whether some action enters it, and whether one leaves it.
fn notice_if(entered: bool, left: bool) -> Option<NoticeKind>
    ensures { result ≡ notice_if entered left }
{
    if !entered {
        Some(NoticeKind::NeverEntered)
    } else if !left {
        Some(NoticeKind::NeverLeft)
    } else {
        None
    }
}

/// What is warned of of the condition with this number.
fn condition_notice(spec: &Spec, number: u8) -> Option<NoticeKind>
    requires { number < length (conditions_in (spec_of spec.now)) }
    ensures { result ≡ condition_notice (spec_of spec.now) number }
{
    let condition = &spec.conditions()[number as usize];
    let entered = is_entered(spec.rules(), number);
    let left = is_left(spec.rules(), number, condition);
    notice_if(entered, left)
}

/// The warning of this byte, if there is one, of a condition that is exclusive or not, and that some action enters or not.
fn copy_if(exclusive: bool, entered: bool, byte: Option<u8>) -> Option<NoticeKind>
    ensures { result ≡ copy_if exclusive entered byte }
{
    if !exclusive || !entered {
        return None;
    }
    match byte {
        None => None,
        Some(byte) => Some(NoticeKind::DefaultRule(byte)),
    }
}

/// The byte of this number, if there is one.
pub(crate) fn byte_of(bytes: &[Option<u8>], number: u8) -> Option<u8>
    ensures { result ≡ unwrap_or (slice_get bytes.now number) None }
{
    match bytes.get(number as usize) {
        None => None,
        Some(byte) => *byte,
    }
}

/// The first byte that the default rule copies in the condition with this number, where it is exclusive and some action
/// enters it. These are such bytes of all conditions.
fn copied_notice(spec: &Spec, copied: &[Option<u8>], number: u8) -> Option<NoticeKind>
    requires { number < length (conditions_in (spec_of spec.now)) }
    ensures { result ≡ copied_notice (spec_of spec.now) copied.now number }
{
    let condition = &spec.conditions()[number as usize];
    let entered = is_entered(spec.rules(), number);
    copy_if(condition.exclusive, entered, byte_of(copied, number))
}

/// Appends what is warned of of the condition that is declared at this place, if anything is.
fn add_placed(
    notices: &mut Vec<Notice>,
    place: DeclaredName<'_>,
    kind: Option<NoticeKind>,
) -> Result<(), AllocError>
    ensures { OnOk result (notices.new.items
        ≡ notices.old.items ++ placed_notices (declared_name_of place.entry) kind) }
{
    if let Some(kind) = kind {
        notices.push(Notice {
            line: place.line,
            at: place.at,
            size: place.name.len(),
            kind,
        })?;
    }
    Ok(())
}

/// Appends all that is warned of of the condition with this number, which is declared at this place.
fn add_numbered(
    notices: &mut Vec<Notice>,
    spec: &Spec,
    copied: &[Option<u8>],
    place: DeclaredName<'_>,
    number: u8,
) -> Result<(), AllocError>
    requires { number < length (conditions_in (spec_of spec.now)) }
    ensures { OnOk result (notices.new.items ≡ notices.old.items
        ++ numbered_notices (spec_of spec.now) copied.now (declared_name_of place.entry) (Some number)) }
{
    add_placed(notices, place, condition_notice(spec, number))?;
    add_placed(notices, place, copied_notice(spec, copied, number))
}

/// Appends all that is warned of of the condition that is declared at this place.
fn add_declared(
    notices: &mut Vec<Notice>,
    spec: &Spec,
    copied: &[Option<u8>],
    place: DeclaredName<'_>,
) -> Result<(), AllocError>
    ensures { OnOk result (notices.new.items
        ≡ notices.old.items ++ declared_notices (spec_of spec.now) copied.now (declared_name_of place.entry)) }
{
    match number_of(spec.conditions(), place.name) {
        None => Ok(()),
        Some(number) => add_numbered(notices, spec, copied, place, number),
    }
}

/// Appends what is warned of of the conditions that are declared at these places.
fn add_all_declared(
    notices: &mut Vec<Notice>,
    spec: &Spec,
    copied: &[Option<u8>],
    places: &[DeclaredName<'_>],
) -> Result<(), AllocError>
    ensures { OnOk result (notices.new.items ≡ notices.old.items
        ++ flat_map (declared_notices (spec_of spec.now) copied.now) (map declared_name_of places.now)) }
{
    for place in places {
        add_declared(notices, spec, copied, *place)?;
    }
    Ok(())
}

/// Appends what is warned of of the conditions of a specification, in the order in which this text declares them. Of each
/// condition is handed in which byte the default rule copies first.
fn add_known(
    alloc: Global,
    notices: &mut Vec<Notice>,
    spec: &Spec,
    copied: &[Option<u8>],
    text: &[u8],
) -> Result<(), AllocError>
    ensures { OnOk result (notices.new.items
        ≡ notices.old.items ++ condition_notices (spec_of spec.now) copied.now text.now) }
{
    let whole = without_returns(alloc, text)?;
    let lines = known_lines(alloc, whole.as_slice())?;
    let places = declared_conditions(alloc, lines.as_slice())?;
    add_all_declared(notices, spec, copied, places.as_slice())
}

/// Appends the same, where nothing is left out of the text.
pub(crate) fn add_conditions(
    alloc: Global,
    notices: &mut Vec<Notice>,
    faultless: bool,
    spec: &Spec,
    copied: &[Option<u8>],
    text: &[u8],
) -> Result<(), AllocError>
    ensures { OnOk result (notices.new.items ≡ notices.old.items
        ++ faultless_notices faultless (spec_of spec.now) copied.now text.now) }
{
    if !faultless {
        return Ok(());
    }
    add_known(alloc, notices, spec, copied, text)
}
