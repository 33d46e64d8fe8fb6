//! The lines in which counts are told.
ghost use Rattle.std.specs.Prelude.{◌≡◌, ◌++◌, [], IfOk, OnOk, length, map, slice_index_or};
ghost use Rattle.lexlook_counts.specs.CountLines.{column, condition_lines, kind_line, count_lines, count_columns, json_field, json_last, json_line};
ghost use Rattle.lexlook_counts.specs.CountLines.{counted_subject, kind_lines, last_columns, matched_line, never_line, never_tried, numbered_lines};
ghost use Rattle.lexlook_counts.specs.CountLines.{all_given_up, all_line, ended_line, rule_heads, turn_line};
ghost use Rattle.lexlook_counts.specs.GivenUp.{given_where};

use crate::counting::Counted;
use crate::tally::RuleCount;
use itoa::Buffer;
use lexlook_specs::{add, add_number};
use std::alloc::{AllocError, Global};

/// How counts are told.
#[derive(Clone, Copy)]
pub enum CountForm {
    /// In columns, for reading.
    Columns,
    /// A line of JSON each, for programs.
    Json,
}

/// Which line of a rule this is.
#[derive(Clone, Copy)]
pub(crate) enum LineKind {
    /// That of one that has matched.
    Matched,
    /// That of one that has not.
    Never,
    /// As JSON.
    Json,
}

/// Of which rule a line is, or whether it is of all.
#[derive(Clone, Copy)]
pub(crate) enum Subject {
    /// The one at this line of the file.
    Line(u32),
    DefaultRule,
    AllRules,
}

/// As many blanks as a column is wide.
const BLANKS: &[u8] = b"            ";

/// Appends a number at the right of a column, and a blank.
fn add_column(text: &mut Vec<u8>, number: u64) -> Result<(), AllocError>
    ensures { OnOk result (text.new.items ≡ text.old.items ++ column number) }
{
    let mut digits = Buffer::new();
    let shown = digits.format(number).as_bytes();
    add(text, &BLANKS[..BLANKS.len().saturating_sub(shown.len())])?;
    add(text, shown)?;
    add(text, b" ")
}

/// Appends what a rule is called.
pub(crate) fn add_subject(
    text: &mut Vec<u8>,
    kind: LineKind,
    subject: Subject,
) -> Result<(), AllocError>
    ensures { OnOk result (text.new.items ≡ text.old.items ++ counted_subject kind subject) }
{
    match (kind, subject) {
        (LineKind::Json, Subject::Line(line)) => {
            add(text, b"\"line\":")?;
            add_number(text, line)
        }
        (LineKind::Json, Subject::DefaultRule) => add(text, b"\"rule\":\"default\""),
        (LineKind::Json, Subject::AllRules) => add(text, b"\"rule\":\"all\""),
        (_, Subject::Line(line)) => {
            add(text, b"line ")?;
            add_number(text, line)
        }
        (_, Subject::DefaultRule) => add(text, b"default rule"),
        (_, Subject::AllRules) => add(text, b"all"),
    }
}

/// How often a rule was given up, where that is told: some rule of the file has REJECT.
fn given_where(rejecting: bool, count: u64) -> Option<u64>
    ensures { result ≡ given_where rejecting count }
{
    if rejecting { Some(count) } else { None }
}

/// Appends the last columns of the counts of a rule.
fn add_last_columns(
    text: &mut Vec<u8>,
    beyond: u64,
    given_up: Option<u64>,
) -> Result<(), AllocError>
    ensures { OnOk result (text.new.items ≡ text.old.items ++ last_columns beyond given_up) }
{
    match given_up {
        None => add_column(text, beyond),
        Some(count) => {
            add_column(text, beyond)?;
            add_column(text, count)
        }
    }
}

/// Appends the line of the counts of a rule.
fn add_columns(
    text: &mut Vec<u8>,
    subject: Subject,
    count: RuleCount,
    given_up: Option<u64>,
) -> Result<(), AllocError>
    ensures { OnOk result (text.new.items ≡ text.old.items ++ count_columns subject count given_up) }
{
    add_column(text, count.matches)?;
    add_column(text, count.bytes)?;
    add_column(text, count.longest)?;
    add_last_columns(text, count.beyond, given_up)?;
    add_subject(text, LineKind::Matched, subject)?;
    add(text, b"\n")
}

/// Whether no match of a rule was taken or given up.
fn never_tried(count: RuleCount, given_up: Option<u64>) -> bool
    ensures { result ≡ never_tried count given_up }
{
    count.matches == 0 && given_up.unwrap_or(0) == 0
}

/// Appends the line of a rule that has matched.
fn add_matched(
    text: &mut Vec<u8>,
    subject: Subject,
    count: RuleCount,
    given_up: Option<u64>,
) -> Result<(), AllocError>
    ensures { OnOk result (text.new.items ≡ text.old.items ++ matched_line subject count given_up) }
{
    if never_tried(count, given_up) {
        return add(text, b"");
    }
    add_columns(text, subject, count, given_up)
}

/// Appends the line of a rule that has not matched.
fn add_never(
    text: &mut Vec<u8>,
    subject: Subject,
    count: RuleCount,
    given_up: Option<u64>,
) -> Result<(), AllocError>
    ensures { OnOk result (text.new.items ≡ text.old.items ++ never_line subject count given_up) }
{
    if !never_tried(count, given_up) {
        return add(text, b"");
    }
    add_subject(text, LineKind::Never, subject)?;
    add(text, b": never\n")
}

/// Appends a name of JSON with what stands before it, and a number.
pub(crate) fn add_field(text: &mut Vec<u8>, front: &[u8], number: u64) -> Result<(), AllocError>
    ensures { OnOk result (text.new.items ≡ text.old.items ++ json_field front.now number) }
{
    let mut digits = Buffer::new();
    add(text, front)?;
    add(text, digits.format(number).as_bytes())
}

/// Appends the last fields of the line of a rule as JSON.
fn add_json_last(text: &mut Vec<u8>, beyond: u64, given_up: Option<u64>) -> Result<(), AllocError>
    ensures { OnOk result (text.new.items ≡ text.old.items ++ json_last beyond given_up) }
{
    match given_up {
        None => add_field(text, b",\"beyond\":", beyond),
        Some(count) => {
            add_field(text, b",\"beyond\":", beyond)?;
            add_field(text, b",\"given_up\":", count)
        }
    }
}

/// Appends the line of a rule as JSON.
fn add_json(
    text: &mut Vec<u8>,
    subject: Subject,
    count: RuleCount,
    given_up: Option<u64>,
) -> Result<(), AllocError>
    ensures { OnOk result (text.new.items ≡ text.old.items ++ json_line subject count given_up) }
{
    add(text, b"{")?;
    add_subject(text, LineKind::Json, subject)?;
    add_field(text, b",\"matches\":", count.matches)?;
    add_field(text, b",\"bytes\":", count.bytes)?;
    add_field(text, b",\"longest\":", count.longest)?;
    add_json_last(text, count.beyond, given_up)?;
    add(text, b"}\n")
}

/// Appends the line of a rule, if it has one of this kind.
fn add_line(
    text: &mut Vec<u8>,
    kind: LineKind,
    subject: Subject,
    count: RuleCount,
    given_up: Option<u64>,
) -> Result<(), AllocError>
    ensures { OnOk result (text.new.items ≡ text.old.items ++ kind_line kind subject count given_up) }
{
    match kind {
        LineKind::Matched => add_matched(text, subject, count, given_up),
        LineKind::Never => add_never(text, subject, count, given_up),
        LineKind::Json => add_json(text, subject, count, given_up),
    }
}

/// Appends the lines of this kind of the rules at these lines of the file.
fn add_numbered(
    text: &mut Vec<u8>,
    kind: LineKind,
    rejecting: bool,
    lines: &[u32],
    counted: &Counted,
) -> Result<(), AllocError>
    requires rules { length counted.now.tally.rules.items ≡ length lines.now }
    requires given_up { length counted.now.given_up.items ≡ length lines.now }
    ensures { OnOk result (text.new.items ≡ text.old.items ++ numbered_lines kind rejecting lines.now counted.now) }
{
    for rule in 0..lines.len() {
        let subject = Subject::Line(lines[rule]);
        let given_up = given_where(rejecting, counted.given_up[rule]);
        add_line(text, kind, subject, counted.tally.rules[rule], given_up)?;
    }
    Ok(())
}

/// How often all rules were given up.
fn all_given_up(counts: &[u64]) -> u64
    ensures { result ≡ all_given_up counts.now }
{
    let mut all = 0u64;
    for count in counts {
        all = all.saturating_add(*count);
    }
    all
}

/// Appends the line of all rules, if there is one of this kind.
fn add_all(
    text: &mut Vec<u8>,
    kind: LineKind,
    rejecting: bool,
    counted: &Counted,
) -> Result<(), AllocError>
    ensures { OnOk result (text.new.items ≡ text.old.items ++ all_line kind rejecting counted.now) }
{
    let given_up = given_where(rejecting, all_given_up(&counted.given_up));
    match kind {
        LineKind::Matched => add_columns(text, Subject::AllRules, counted.tally.all(), given_up),
        LineKind::Never => add(text, b""),
        LineKind::Json => add_json(text, Subject::AllRules, counted.tally.all(), given_up),
    }
}

/// Appends the lines of this kind of all rules, of the default rule, and of all together.
fn add_rules(
    text: &mut Vec<u8>,
    kind: LineKind,
    rejecting: bool,
    lines: &[u32],
    counted: &Counted,
) -> Result<(), AllocError>
    requires rules { length counted.now.tally.rules.items ≡ length lines.now }
    requires given_up { length counted.now.given_up.items ≡ length lines.now }
    ensures { OnOk result (text.new.items ≡ text.old.items ++ kind_lines kind rejecting lines.now counted.now) }
{
    add_numbered(text, kind, rejecting, lines, counted)?;
    let given_up = given_where(rejecting, 0);
    let count = counted.tally.default_rule;
    add_line(text, kind, Subject::DefaultRule, count, given_up)?;
    add_all(text, kind, rejecting, counted)
}

/// Appends the line of a condition.
fn add_turns(text: &mut Vec<u8>, form: CountForm, name: &[u8], turns: u64) -> Result<(), AllocError>
    ensures { OnOk result (text.new.items ≡ text.old.items ++ turn_line form name.now turns) }
{
    match form {
        CountForm::Columns => {
            add_column(text, turns)?;
            add(text, name)?;
            add(text, b"\n")
        }
        CountForm::Json => {
            add(text, b"{\"condition\":\"")?;
            add(text, name)?;
            add_field(text, b"\",\"turns\":", turns)?;
            add(text, b"}\n")
        }
    }
}

/// Appends the lines of the conditions of these names.
fn add_conditions(
    text: &mut Vec<u8>,
    form: CountForm,
    names: &[&[u8]],
    turns: &[u64],
) -> Result<(), AllocError>
    requires { length turns.now ≡ length names.now }
    ensures { OnOk result (text.new.items
        ≡ text.old.items ++ condition_lines form (map (λ n. n.now) names.now) turns.now) }
{
    for condition in 0..names.len() {
        add_turns(text, form, names[condition], turns[condition])?;
    }
    Ok(())
}

/// The name of a condition, if it is one of these.
fn name_at<'a>(names: &[&'a [u8]], condition: u8) -> &'a [u8]
    ensures { result.now ≡ slice_index_or (map (λ n. n.now) names.now) condition [] }
{
    let condition = usize::from(condition);
    if condition < names.len() {
        names[condition]
    } else {
        b""
    }
}

/// Appends the line of the condition, one of these names, in which the end of the input was met.
pub(crate) fn add_end(
    text: &mut Vec<u8>,
    form: CountForm,
    names: &[&[u8]],
    ended: Option<u8>,
) -> Result<(), AllocError>
    ensures { OnOk result (text.new.items ≡ text.old.items ++ ended_line form (map (λ n. n.now) names.now) ended) }
{
    let Some(condition) = ended else {
        return add(text, b"");
    };
    let name = name_at(names, condition);
    match form {
        CountForm::Columns => {
            add(text, b"end: ")?;
            add(text, name)?;
            add(text, b"\n")
        }
        CountForm::Json => {
            add(text, b"{\"end\":\"")?;
            add(text, name)?;
            add(text, b"\"}\n")
        }
    }
}

/// What stands above the counts of rules.
const RULE_HEADS: &[u8] = b"     matches        bytes      longest       beyond\n";

/// The same, where some rule has REJECT.
const RULE_HEADS_GIVEN_UP: &[u8] =
    b"     matches        bytes      longest       beyond     given up\n";

/// What stands above the counts of conditions.
const TURN_HEAD: &[u8] = b"       turns\n";

/// Appends what stands above the counts of rules.
fn add_rule_heads(text: &mut Vec<u8>, rejecting: bool) -> Result<(), AllocError>
    ensures { OnOk result (text.new.items ≡ text.old.items ++ rule_heads rejecting) }
{
    if rejecting {
        add(text, RULE_HEADS_GIVEN_UP)
    } else {
        add(text, RULE_HEADS)
    }
}

/// Appends all lines, of rules at these lines of the file and of conditions of these names.
fn add_count_lines(
    text: &mut Vec<u8>,
    form: CountForm,
    rejecting: bool,
    lines: &[u32],
    names: &[&[u8]],
    counted: &Counted,
) -> Result<(), AllocError>
    requires rules { length counted.now.tally.rules.items ≡ length lines.now }
    requires given_up { length counted.now.given_up.items ≡ length lines.now }
    requires conditions { length counted.now.tally.turns.items ≡ length names.now }
    ensures { OnOk result (text.new.items
        ≡ text.old.items ++ count_lines form rejecting lines.now (map (λ n. n.now) names.now) counted.now) }
{
    match form {
        CountForm::Columns => {
            add_rule_heads(text, rejecting)?;
            add_rules(text, LineKind::Matched, rejecting, lines, counted)?;
            add_rules(text, LineKind::Never, rejecting, lines, counted)?;
            add(text, TURN_HEAD)?;
            add_conditions(text, form, names, &counted.tally.turns)
        }
        CountForm::Json => {
            add_rules(text, LineKind::Json, rejecting, lines, counted)?;
            add_conditions(text, form, names, &counted.tally.turns)
        }
    }
}

/// The lines of the counts, of rules at these lines of the file and of conditions of these names, where some rule has REJECT
/// or none.
pub(crate) fn count_lines(
    alloc: Global,
    form: CountForm,
    rejecting: bool,
    lines: &[u32],
    names: &[&[u8]],
    counted: &Counted,
) -> Result<Vec<u8>, AllocError>
    requires rules { length counted.now.tally.rules.items ≡ length lines.now }
    requires given_up { length counted.now.given_up.items ≡ length lines.now }
    requires conditions { length counted.now.tally.turns.items ≡ length names.now }
    ensures { IfOk result (λ text. text.items
        ≡ count_lines form rejecting lines.now (map (λ n. n.now) names.now) counted.now) }
{
    let mut text = Vec::new(alloc);
    add_count_lines(&mut text, form, rejecting, lines, names, counted)?;
    Ok(text)
}
