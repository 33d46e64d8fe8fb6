//! Whether two rules do the same.
ghost use Rattle.std.specs.Prelude.{◌≡◌, ℕ, ◌<◌, true, false, ◌⊎◌, List, [], map, IfOk};
ghost use Rattle.lex_semantics.specs.Text.{Among};
ghost use Rattle.lex_semantics.specs.Machine.{state_after};
ghost use Rattle.lexlook_tables.specs.Same.{deed_of, deed_in, rules_at, deeds_at, deeds_in, number_in, renumbered};
ghost use Rattle.lexlook_tables.specs.Same.{is_single, may_yield, asked};
ghost use Rattle.lexlook_tables.specs.Searching.{DoAlike};
ghost use Rattle.lex_machine.specs.Views.{statement_of, cut_of};

use lex_machine::{Cut, Machine, Statement, has_reject};
use std::alloc::{AllocError, Global};

/// The number that a condition of the left machine has in the right one.
pub fn number_in(order: &[u8], condition: u8) -> u8
    ensures { result ≡ number_in order.now condition }
{
    match order.get(condition as usize) {
        Some(number) => *number,
        None => condition,
    }
}

/// Whether these are the same statement, where conditions have these numbers in the other one.
fn is_same(order: &[u8], statement: &Statement, other: &Statement) -> bool
    ensures yes { result ≡ true → renumbered order.now (statement_of statement.now) ≡ statement_of other.now }
    ensures no { result ≡ false → renumbered order.now (statement_of statement.now) ≡ statement_of other.now → ⊥ }
{
    match statement {
        Statement::Echo => matches!(other, Statement::Echo),
        Statement::Print(bytes) => match other {
            Statement::Print(others) => bytes.as_slice() == others.as_slice(),
            _ => false,
        },
        Statement::Begin(condition) => match other {
            Statement::Begin(another) => number_in(order, *condition) == *another,
            _ => false,
        },
        Statement::More => matches!(other, Statement::More),
        Statement::Less(count) => match other {
            Statement::Less(another) => count == another,
            _ => false,
        },
        Statement::Reject => matches!(other, Statement::Reject),
        Statement::End(status) => match other {
            Statement::End(another) => status == another,
            _ => false,
        },
        Statement::Push(condition) => match other {
            Statement::Push(another) => number_in(order, *condition) == *another,
            _ => false,
        },
        Statement::Pop => matches!(other, Statement::Pop),
    }
}

/// Whether these are the same statements, one after another.
fn are_same(order: &[u8], statements: &[Statement], others: &[Statement]) -> bool
    ensures yes { result ≡ true
        → map (renumbered order.now) (map statement_of statements.now) ≡ map statement_of others.now }
    ensures no { result ≡ false
        → map (renumbered order.now) (map statement_of statements.now) ≡ map statement_of others.now → ⊥ }
{
    if statements.len() != others.len() {
        return false;
    }
    let mut at = 0usize;
    'places: while at < statements.len() {
        if !is_same(order, &statements[at], &others[at]) {
            return false;
        }
        at += 1;
    }
    true
}

/// Whether the two rules do the same.
fn do_same<A: Machine, B: Machine>(order: &[u8], left: &A, rule: u32, right: &B, other: u32) -> bool
    requires rule { rule < (A.machine left.now).count }
    requires other { other < (B.machine right.now).count }
    ensures yes { result ≡ true → deed_in order.now (A.machine left.now) rule ≡ deed_of (B.machine right.now) other }
    ensures no { result ≡ false
        → deed_in order.now (A.machine left.now) rule ≡ deed_of (B.machine right.now) other → ⊥ }
{
    let (cut, statements) = left.rule(rule);
    let (other_cut, others) = right.rule(other);
    cut == other_cut && are_same(order, statements, others)
}

/// Whether a rule that matches may leave the text to the next one: by REJECT, or by its trailing context.
fn may_yield<M: Machine>(machine: &M, rule: u32) -> bool
    requires { rule < (M.machine machine.now).count }
    ensures { result ≡ may_yield (deed_of (M.machine machine.now) rule) }
{
    let (cut, statements) = machine.rule(rule);
    has_reject(statements) || cut != Cut::Whole
}

/// Whether a rule does what the default rule does.
fn copies<M: Machine>(machine: &M, rule: u32) -> bool
    requires { rule < (M.machine machine.now).count }
    ensures yes { result ≡ true
        → deed_of (M.machine machine.now) rule ≡ deed_of (M.machine machine.now) (M.machine machine.now).count }
    ensures no { result ≡ false
        → deed_of (M.machine machine.now) rule ≡ deed_of (M.machine machine.now) (M.machine machine.now).count → ⊥ }
{
    let (cut, statements) = machine.rule(rule);
    cut == Cut::Whole && statements.len() == 1 && matches!(&statements[0], Statement::Echo)
}

/// Whether both do the same of a text where the rules of one side have ended: the other has no more, or does what the
/// default rule does of a single byte.
fn rest_agrees<A: Machine, B: Machine>(
    left: &A,
    right: &B,
    single: bool,
    rules: &[u32],
    others: &[u32],
) -> bool
    requires rules { (i : ℕ) → Among rules.now i → i < (A.machine left.now).count }
    requires others { (i : ℕ) → Among others.now i → i < (B.machine right.now).count }
    requires one { (rules.now ≡ []) ⊎ (others.now ≡ []) }
    ensures yes { result ≡ true → (order : List ℕ) → DoAlike order single (A.machine left.now) (B.machine right.now)
        rules.now others.now }
    ensures no { result ≡ false → (order : List ℕ) → DoAlike order single (A.machine left.now) (B.machine right.now)
        rules.now others.now → ⊥ }
{
    if !rules.is_empty() {
        single && copies(left, rules[0])
    } else if !others.is_empty() {
        single && copies(right, others[0])
    } else {
        true
    }
}

/// Whether both do the same of a match that ends in these states, of a single byte or of more.
pub fn agree<A: Machine, B: Machine>(
    order: &[u8],
    left: &A,
    right: &B,
    single: bool,
    state: u32,
    other: u32,
) -> bool
    requires state { state < A.states left.now }
    requires other { other < B.states right.now }
    ensures yes { result ≡ true
        → deeds_in order.now single (A.machine left.now) state ≡ deeds_at single (B.machine right.now) other }
    ensures no { result ≡ false
        → deeds_in order.now single (A.machine left.now) state ≡ deeds_at single (B.machine right.now) other → ⊥ }
{
    let rules = left.accepts(state);
    let others = right.accepts(other);
    let mut at = 0usize;
    'places: while at < rules.len() && at < others.len() {
        if !do_same(order, left, rules[at], right, others[at]) {
            return false;
        }
        if !may_yield(left, rules[at]) {
            return true;
        }
        at += 1;
    }
    rest_agrees(left, right, single, &rules[at..], &others[at..])
}

/// The state after a text, from a condition on, at the start of a line or not.
fn state_after<M: Machine>(machine: &M, condition: u8, line_start: bool, text: &[u8]) -> u32
    requires { condition < (M.machine machine.now).conditions }
    ensures state { result ≡ state_after (M.machine machine.now) condition line_start text.now }
    ensures known { result < M.states machine.now }
{
    let mut state = machine.start(condition, line_start);
    for byte in text {
        state = machine.step(state, *byte);
    }
    state
}

/// The rules of which a match asks, where these accept a text. The default rule has the number after the last.
fn asked<M: Machine>(
    alloc: Global,
    machine: &M,
    count: u32,
    single: bool,
    rules: &[u32],
) -> Result<Vec<u32>, AllocError>
    requires count { count ≡ (M.machine machine.now).count }
    requires rules { (i : ℕ) → Among rules.now i → i < (M.machine machine.now).count }
    ensures { IfOk result (λ v. v.items ≡ asked single (M.machine machine.now) rules.now) }
{
    let mut asked = Vec::new(alloc);
    for rule in rules {
        asked.push(*rule)?;
        if !may_yield(machine, *rule) {
            return Ok(asked);
        }
    }
    if single {
        asked.push(count)?;
    }
    Ok(asked)
}

/// The rules of which a match of this text asks, from a condition on, at the start of a line or not: up to the first that
/// is taken for certain. The default rule has the number after the last: there are so many rules.
pub fn rules_after<M: Machine>(
    alloc: Global,
    machine: &M,
    count: u32,
    condition: u8,
    line_start: bool,
    text: &[u8],
) -> Result<Vec<u32>, AllocError>
    requires count { count ≡ (M.machine machine.now).count }
    requires condition { condition < (M.machine machine.now).conditions }
    ensures { IfOk result (λ rules. rules.items ≡ rules_at (is_single text.now) (M.machine machine.now)
        (state_after (M.machine machine.now) condition line_start text.now)) }
{
    let state = state_after(machine, condition, line_start, text);
    asked(
        alloc,
        machine,
        count,
        text.len() == 1,
        machine.accepts(state),
    )
}
