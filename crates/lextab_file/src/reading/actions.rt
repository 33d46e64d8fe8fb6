//! Reads the rules: their cuts and their actions.
ghost use Rattle.std.specs.Prelude.{◌≡◌, ◌≤◌, ◌-◌, ◌+◌, IfOk, map, length};
ghost use Rattle.lex_machine.specs.Literals.{literal_bytes};
ghost use Rattle.lex_machine.specs.Views.{statement_of, cut_of};
ghost use Rattle.lextab_packed.specs.Views.{table_rule_of};
ghost use Rattle.lextab_file.specs.Seen.{following, unseen, seen_after};
ghost use Rattle.lextab_file.specs.Reading.{many, read_literal, read_cut, bars, arguments};
ghost use Rattle.lextab_file.specs.Reading.{read_statement, read_statements, read_rule};
ghost use Rattle.lextab_file.specs.Tags.{statement_byte};
ghost use Rattle.lextab_file.specs.Views.{Gives, seen_of};
ghost use Rattle.lex_semantics.specs.Limits.{max_literal_bytes};

use super::fields::{byte, byte_below, long, long_below, long_within, positive, text};
use crate::error::ReadError;
use crate::tag::{CutTag, StatementTag};
use lex_machine::{Cut, Statement};
use lex_semantics::{MAX_FIXED_LENGTH, MAX_LITERAL_BYTES, MAX_STATEMENTS, MAX_STATUS};
use lextab_packed::TableRule;
use std::alloc::Global;

/// What stood before a statement in its action: the bytes of its literals, and whether a literal stands directly
/// before, a yymore and a yyless. And how many statements there are from this one on.
#[derive(Clone, Copy)]
pub struct Before {
    pub literal: u32,
    pub printed: bool,
    pub more: bool,
    pub less: bool,
    pub left: u32,
    /// Whether the file's version has statements of the stack.
    pub stack: bool,
}

impl Before {
    /// Whether a statement of this kind may not stand here.
    fn bars(self, tag: StatementTag) -> bool
        ensures { result ≡ bars (seen_of self) (statement_byte tag) }
    {
        match tag {
            StatementTag::Echo | StatementTag::Begin => false,
            StatementTag::Print => self.printed,
            StatementTag::More => self.less,
            StatementTag::Less => self.less || self.more,
            StatementTag::Reject => self.less || self.more || self.left > 1,
            StatementTag::End => self.left > 1,
            StatementTag::Push | StatementTag::Pop => !self.stack,
        }
    }

    /// The same with this statement.
    fn and(self, statement: &Statement) -> Before
        requires short { self.literal + literal_bytes (statement_of statement.now) ≤ max_literal_bytes }
        requires left { 1 ≤ self.left }
        ensures { seen_of result ≡ seen_after (seen_of self) (statement_of statement.now) }
    {
        let mut now = self;
        now.printed = false;
        now.left -= 1;
        match statement {
            Statement::Print(bytes) => {
                now.printed = true;
                now.literal += bytes.len() as u32;
            }
            Statement::More => now.more = true,
            Statement::Less(_) => now.less = true,
            Statement::Echo
            | Statement::Begin(_)
            | Statement::Reject
            | Statement::End(_)
            | Statement::Push(_)
            | Statement::Pop => {}
        }
        now
    }
}

/// How much of a match of a rule is the text: a tag and a number.
#[tactic(auto, unfolding(crate::specs::Reading::read_cut))]
fn rule_cut(bytes: &[u8]) -> Result<(Cut, &[u8]), ReadError>
    ensures gives { Gives (λ x. (cut_of x.0, x.1.now)) result (read_cut bytes.now) }
{
    let (code, rest) = byte(bytes)?;
    match CutTag::of(code) {
        Some(CutTag::Whole) => {
            let (_, rest) = long_below(rest, 1)?;
            Ok((Cut::Whole, rest))
        }
        Some(CutTag::Head) => {
            let (number, rest) = long_below(rest, MAX_FIXED_LENGTH + 1)?;
            Ok((Cut::Head(number as u16), rest))
        }
        Some(CutTag::Trail) => {
            let (number, rest) = long_below(rest, MAX_FIXED_LENGTH + 1)?;
            Ok((Cut::Trail(number as u16), rest))
        }
        None => Err(ReadError::BadField(bytes.len())),
    }
}

/// A literal of at most `room` bytes. A longer one of at most 4,096 is a fault of the field that has `left` bytes from
/// its start to the end.
fn literal(
    alloc: Global,
    bytes: &[u8],
    room: u32,
    left: usize,
) -> Result<(Vec<u8>, &[u8]), ReadError>
    requires { room ≤ max_literal_bytes }
    ensures gives { Gives (λ x. (x.0.items, x.1.now)) result (read_literal room (ReadError.BadField left) bytes.now) }
    ensures length { IfOk result (λ x. length x.0.items ≤ room) }
{
    let (count, rest) = long(bytes)?;
    if count < 1 || MAX_LITERAL_BYTES < count as usize {
        return Err(ReadError::BadField(bytes.len()));
    }
    if room < count {
        return Err(ReadError::BadField(left));
    }
    text(alloc, rest, count)
}

/// A statement of this kind, without its tag. A literal that is too long for its place is a fault of the tag, which has
/// `left` bytes from its start to the end.
fn arguments(
    alloc: Global,
    bytes: &[u8],
    conditions: u32,
    before: Before,
    tag: StatementTag,
    left: usize,
) -> Result<(Statement, &[u8]), ReadError>
    requires { before.literal ≤ max_literal_bytes }
    ensures gives { Gives (λ x. (statement_of x.0, x.1.now)) result
        (arguments conditions (seen_of before) (ReadError.BadField left) (statement_byte tag) bytes.now) }
    ensures literal { IfOk result (λ x. before.literal + literal_bytes (statement_of x.0) ≤ max_literal_bytes) }
{
    match tag {
        StatementTag::Echo => Ok((Statement::Echo, bytes)),
        StatementTag::Print => {
            let room = MAX_LITERAL_BYTES as u32 - before.literal;
            let (print, rest) = literal(alloc, bytes, room, left)?;
            Ok((Statement::Print(print), rest))
        }
        StatementTag::Begin => {
            let (condition, rest) = byte_below(bytes, conditions)?;
            Ok((Statement::Begin(condition), rest))
        }
        StatementTag::More => Ok((Statement::More, bytes)),
        StatementTag::Less => {
            let (count, rest) = positive(bytes)?;
            Ok((Statement::Less(count), rest))
        }
        StatementTag::Reject => Ok((Statement::Reject, bytes)),
        StatementTag::End => {
            let (status, rest) = byte_below(bytes, MAX_STATUS + 1)?;
            Ok((Statement::End(status), rest))
        }
        StatementTag::Push => {
            let (condition, rest) = byte_below(bytes, conditions)?;
            Ok((Statement::Push(condition), rest))
        }
        StatementTag::Pop => Ok((Statement::Pop, bytes)),
    }
}

/// A statement, by its tag, judged by what stands before it in its action.
#[tactic(auto, unfolding(crate::specs::Reading::read_statement))]
fn statement(
    alloc: Global,
    bytes: &[u8],
    conditions: u32,
    before: Before,
) -> Result<(Statement, &[u8]), ReadError>
    requires { before.literal ≤ max_literal_bytes }
    ensures gives { Gives (λ x. (statement_of x.0, x.1.now)) result
        (read_statement conditions (seen_of before) bytes.now) }
    ensures literal { IfOk result (λ x. before.literal + literal_bytes (statement_of x.0) ≤ max_literal_bytes) }
{
    let left = bytes.len();
    let (code, rest) = byte(bytes)?;
    match StatementTag::of(code) {
        Some(tag) if !before.bars(tag) => arguments(alloc, rest, conditions, before, tag, left),
        _ => Err(ReadError::BadField(left)),
    }
}

/// So many statements of one action.
fn statements(
    alloc: Global,
    bytes: &[u8],
    count: u32,
    conditions: u32,
    stack: bool,
) -> Result<(Vec<Statement>, &[u8]), ReadError>
    ensures { Gives (λ x. (map statement_of x.0.items, x.1.now)) result
        (many (read_statement conditions) seen_after count (unseen stack count) bytes.now) }
{
    let mut read = Vec::new(alloc);
    let mut rest = bytes;
    let mut before = Before {
        literal: 0,
        printed: false,
        more: false,
        less: false,
        left: count,
        stack,
    };
    for i in 0..count {
        let (one, after) = statement(alloc, rest, conditions, before)?;
        before = before.and(&one);
        read.push(one)?;
        rest = after;
    }
    Ok((read, rest))
}

/// A rule: its cut, the number of its statements, and these.
#[tactic(auto, unfolding(crate::specs::Reading::read_rule))]
fn rule(
    alloc: Global,
    bytes: &[u8],
    conditions: u32,
    stack: bool,
) -> Result<(TableRule, &[u8]), ReadError>
    ensures gives { Gives (λ x. (table_rule_of x.0, x.1.now)) result (read_rule conditions stack bytes.now) }
{
    let (cut, rest) = rule_cut(bytes)?;
    let (count, rest) = long_within(rest, 0, MAX_STATEMENTS as u32)?;
    let (statements, rest) = statements(alloc, rest, count, conditions, stack)?;
    Ok((TableRule { cut, statements }, rest))
}

/// The rules, `count` of them. `stack` tells whether the version has statements of the stack.
pub fn rules(
    alloc: Global,
    bytes: &[u8],
    count: u32,
    conditions: u32,
    stack: bool,
) -> Result<(Vec<TableRule>, &[u8]), ReadError>
    ensures { Gives (λ x. (map table_rule_of x.0.items, x.1.now)) result
        (many (λ i. read_rule conditions stack) following count 0 bytes.now) }
{
    let mut read = Vec::new(alloc);
    let mut rest = bytes;
    for i in 0..count {
        let (one, after) = rule(alloc, rest, conditions, stack)?;
        read.push(one)?;
        rest = after;
    }
    Ok((read, rest))
}
