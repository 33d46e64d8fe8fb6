//! The line that tells of what two files do not do the same.
ghost use Rattle.std.specs.Prelude.{◌≡◌, ◌<◌, ℕ, List, ◌++◌, length, IfOk, IfSome, OnOk, codes};
ghost use Rattle.lextab_packed.specs.Machines.{table_machine};
ghost use Rattle.lexspec.specs.Views.{conditions_in, rules_in};
ghost use Rattle.lexlook_calls.specs.Lines.{asked_words, taken, taken_by, naming, text_place, both, side_words, told_line};
ghost use Rattle.lexlook_calls.specs.Lines.{side_as, IsLabelled};
ghost use Rattle.lexlook_calls.specs.Compared.{HoldsOfSides};
ghost use Rattle.lexlook_tables.specs.Same.{number_in};
ghost use Rattle.lexlook_tables.specs.declared.same.tables.Comparison.{Comparison};
ghost use Rattle.lexlook_calls.specs.Sides.{read_as};

use crate::labels::{add_condition, add_rule, add_start};
use crate::sides::Side;
use lexlook_specs::{add, add_string};
use lexlook_tables::{Comparison, Difference, number_in, rules_after};
use lexspec::Spec;
use lextab_packed::Tables;
use std::alloc::{AllocError, Global};

/// A file that is compared, with its name.
#[derive(Clone, Copy)]
pub(crate) struct Named<'a> {
    pub name: &'a [u8],
    pub side: &'a Side,
}

/// How many rules there are.
fn count_of(tables: &Tables) -> u32
    ensures { result ≡ (table_machine tables.now).count }
{
    tables.parts().rules.len() as u32
}

/// Appends a rule of which a match asks, where there are so many: the one behind them is the default rule.
fn add_asked(
    text: &mut Vec<u8>,
    given: &Option<Spec>,
    count: u32,
    rule: u32,
) -> Result<(), AllocError>
    requires { IfSome (read_as given.now) (λ S. length (rules_in S) ≡ count) }
    ensures { OnOk result (text.new.items ≡ text.old.items ++ asked_words (read_as given.now) count rule) }
{
    if rule < count {
        return add_rule(text, given, rule);
    }
    add(text, b" the default rule")
}

/// Appends the rules of which a match asks.
fn add_taken(
    text: &mut Vec<u8>,
    given: &Option<Spec>,
    count: u32,
    rules: &[u32],
) -> Result<(), AllocError>
    requires { IfSome (read_as given.now) (λ S. length (rules_in S) ≡ count) }
    ensures { OnOk result (text.new.items ≡ text.old.items ++ taken (read_as given.now) count rules.now) }
{
    if rules.is_empty() {
        return add(text, b" nothing");
    }
    for rule in rules {
        add_asked(text, given, count, *rule)?;
    }
    Ok(())
}

/// Appends a file's name, and what it does.
fn add_side(
    text: &mut Vec<u8>,
    name: &[u8],
    given: &Option<Spec>,
    count: u32,
    rules: &[u32],
) -> Result<(), AllocError>
    requires { IfSome (read_as given.now) (λ S. length (rules_in S) ≡ count) }
    ensures { OnOk result (text.new.items
        ≡ text.old.items ++ side_words name.now (read_as given.now) count rules.now) }
{
    add(text, name)?;
    add_taken(text, given, count, rules)
}

/// Appends in which condition and after which text.
fn add_place(
    text: &mut Vec<u8>,
    given: &Option<Spec>,
    difference: &Difference,
) -> Result<(), AllocError>
    requires { IfSome (read_as given.now) (λ S. difference.now.condition < length (conditions_in S)) }
    ensures { OnOk result (text.new.items ≡ text.old.items ++ text_place (read_as given.now) difference.now) }
{
    add(text, b"in ")?;
    add_condition(text, given, difference.condition)?;
    add_start(text, difference.line_start)?;
    add(text, b" after \"")?;
    add_string(text, difference.text.as_slice())?;
    add(text, b"\": ")
}

/// Appends the names of both files.
fn add_both(text: &mut Vec<u8>, name: &[u8], other: &[u8]) -> Result<(), AllocError>
    ensures { OnOk result (text.new.items ≡ text.old.items ++ both name.now other.now) }
{
    add(text, name)?;
    add(text, b" and ")?;
    add(text, other)
}

/// Appends a file's name, and what it does of a text.
fn add_taken_by(
    alloc: Global,
    text: &mut Vec<u8>,
    name: &[u8],
    side: &Side,
    condition: u8,
    difference: &Difference,
) -> Result<(), AllocError>
    requires condition { condition < (table_machine side.now.tables).conditions }
    requires labels { IsLabelled (side_as name.now side.now) }
    ensures { OnOk result (text.new.items ≡ text.old.items
        ++ taken_by (side_as name.now side.now) condition difference.now) }
{
    let bytes = difference.text.as_slice();
    let line_start = difference.line_start;
    let count = count_of(&side.tables);
    let rules = rules_after(alloc, &side.tables, count, condition, line_start, bytes)?;
    add_side(text, name, &side.spec, count, rules.as_slice())
}

/// The specification that names the conditions of both.
fn naming<'a>(given: &'a Option<Spec>, other: &'a Option<Spec>) -> &'a Option<Spec>
    ensures { read_as result.now ≡ naming (read_as given.now) (read_as other.now) }
{
    match given {
        Some(_) => given,
        None => other,
    }
}

/// Appends the line of a text of which two files do not do the same.
fn add_difference(
    alloc: Global,
    text: &mut Vec<u8>,
    left: Named<'_>,
    right: Named<'_>,
    order: &[u8],
    difference: &Difference,
) -> Result<(), AllocError>
    requires left { difference.now.condition < (table_machine left.side.now.tables).conditions }
    requires right { number_in order.now difference.now.condition < (table_machine right.side.now.tables).conditions }
    requires conditions { (table_machine left.side.now.tables).conditions
        ≡ (table_machine right.side.now.tables).conditions }
    requires left_labels { IsLabelled (side_as left.name.now left.side.now) }
    requires right_labels { IsLabelled (side_as right.name.now right.side.now) }
    ensures { OnOk result (text.new.items ≡ text.old.items
        ++ told_line (side_as left.entry.name.now left.entry.side.now)
        (side_as right.entry.name.now right.entry.side.now) order.now (Comparison.Texts difference.now)) }
{
    let there = number_in(order, difference.condition);
    add_place(text, naming(&left.side.spec, &right.side.spec), difference)?;
    add_taken_by(
        alloc,
        text,
        left.name,
        left.side,
        difference.condition,
        difference,
    )?;
    add(text, b", ")?;
    add_taken_by(alloc, text, right.name, right.side, there, difference)?;
    add(text, b"\n")
}

/// Appends the line of end actions that differ.
fn add_end(
    text: &mut Vec<u8>,
    left: Named<'_>,
    right: Named<'_>,
    condition: u8,
) -> Result<(), AllocError>
    requires condition { condition < (table_machine left.side.now.tables).conditions }
    requires conditions { (table_machine left.side.now.tables).conditions
        ≡ (table_machine right.side.now.tables).conditions }
    requires left_labels { IsLabelled (side_as left.name.now left.side.now) }
    requires right_labels { IsLabelled (side_as right.name.now right.side.now) }
    ensures { (order : List ℕ) → OnOk result (text.new.items ≡ text.old.items
        ++ told_line (side_as left.entry.name.now left.entry.side.now)
        (side_as right.entry.name.now right.entry.side.now) order (Comparison.Ends condition)) }
{
    add(text, b"in ")?;
    add_condition(text, naming(&left.side.spec, &right.side.spec), condition)?;
    add(text, b" at the end of the input ")?;
    add_both(text, left.name, right.name)?;
    add(text, b" do different things")?;
    add(text, b"\n")
}

/// Appends the line of other conditions.
fn add_conditions(text: &mut Vec<u8>, name: &[u8], other: &[u8]) -> Result<(), AllocError>
    ensures { OnOk result (text.new.items ≡ text.old.items
        ++ (both name.now other.now ++ codes " have different start conditions\n")) }
{
    add_both(text, name, other)?;
    add(text, b" have different start conditions\n")
}

/// Appends the line of what is told of two files, and no byte where they do the same.
fn add_told(
    alloc: Global,
    text: &mut Vec<u8>,
    left: Named<'_>,
    right: Named<'_>,
    order: &[u8],
    told: &Comparison,
) -> Result<(), AllocError>
    requires left_labels { IsLabelled (side_as left.name.now left.side.now) }
    requires right_labels { IsLabelled (side_as right.name.now right.side.now) }
    requires holds { HoldsOfSides (side_as left.name.now left.side.now) (side_as right.name.now right.side.now)
        order.now told.now }
    ensures { OnOk result (text.new.items ≡ text.old.items
        ++ told_line (side_as left.entry.name.now left.entry.side.now)
        (side_as right.entry.name.now right.entry.side.now) order.now told.now) }
{
    match told {
        Comparison::Same => add(text, b""),
        Comparison::Conditions => add_conditions(text, left.name, right.name),
        Comparison::Ends(condition) => add_end(text, left, right, *condition),
        Comparison::Texts(difference) => add_difference(
            alloc, text, left, right, order, difference,
        ),
    }
}

/// The line of what is told of two files, and no byte where they do the same.
pub(crate) fn told_line(
    alloc: Global,
    left: Named<'_>,
    right: Named<'_>,
    order: &[u8],
    told: &Comparison,
) -> Result<Vec<u8>, AllocError>
    requires left_labels { IsLabelled (side_as left.name.now left.side.now) }
    requires right_labels { IsLabelled (side_as right.name.now right.side.now) }
    requires holds { HoldsOfSides (side_as left.name.now left.side.now) (side_as right.name.now right.side.now)
        order.now told.now }
    ensures { IfOk result (λ line. line.items ≡ told_line (side_as left.entry.name.now left.entry.side.now)
        (side_as right.entry.name.now right.entry.side.now) order.now told.now) }
{
    let mut text = Vec::new(alloc);
    add_told(alloc, &mut text, left, right, order, told)?;
    Ok(text)
}
