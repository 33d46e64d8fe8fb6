//! What the bytes of a match tell of it at a glance, and what its rule does then.
ghost use Rattle.std.specs.Prelude.{◌≡◌, ℕ, ◌+◌, ◌-◌, ◌<◌, ◌≤◌, ◌⊎◌, List, [], length, take, true, None, map, IfOk};
ghost use Rattle.std.specs.Prelude.{IfSome};
ghost use Rattle.lex_semantics.specs.Machine.{walk};
ghost use Rattle.lex_io.specs.Sink.{Appended};
ghost use Rattle.lex_machine.specs.Glances.{Leads};
ghost use Rattle.lex_machine.specs.declared.glance.Gist.TheVariants.{NoRule};
ghost use Rattle.lexscan_window.specs.Intakes.{sink_of, sink_name, can_write};
ghost use Rattle.lexscan_window.specs.Ends.{SinkLeft};
ghost use Rattle.lex_machine.specs.Views.{statement_of};
ghost use Rattle.lexscan_window.specs.Acts.{said};
ghost use Rattle.lexscan_matching.specs.Glanced.{names_rule, begun, all_said, all_begun, condition_after, written_by};
ghost use Rattle.lexscan_matching.specs.Glanced.{IsGlancedMatch, IsLongestPart, IsNearMatch, NoneAfter};

use lex_io::Sink;
use lex_machine::{Gist, Machine, Statement, Way};
use lexscan_window::{Outlet, RunError, put};

/// The rule of a match, told at a glance, and how many bytes it keeps.
#[derive(Clone, Copy)]
pub struct GlancedMatch<'m> {
    pub gist: Gist<'m>,
    pub keep: usize,
}

/// How many bytes a walk has at most that is gone over again.
const FEW: usize = 32;

/// The longest part of a walk that a rule takes: how many bytes it has, none where there is no such part, and the state
/// after it.
#[derive(Clone, Copy)]
struct LongestPart {
    keep: usize,
    state: u32,
}

/// The longest part of a walk that a rule takes, where the walk is gone over again.
#[inline(always)]
fn longest_part<M: Machine>(machine: &M, first: u32, bytes: &[u8]) -> LongestPart
    requires first { first < M.states machine.now }
    ensures part { IsLongestPart (M.machine machine.now) first bytes.now result }
    ensures known { result.state < M.states machine.now }
{
    let mut state = first;
    let mut longest = LongestPart {
        keep: 0,
        state: first,
    };
    let mut count = 0usize;
    'bytes: while count < bytes.len() {
        state = machine.step(state, bytes[count]);
        count += 1;
        if !machine.accepts(state).is_empty() {
            longest = LongestPart { keep: count, state };
        }
    }
    longest
}

/// The same, where no rule takes all of the walk or all but one byte of it. It is looked for backwards, as long as only
/// one state leads to the one before. Else the walk is gone over again.
#[inline(never)]
fn farther_part<M: Machine>(machine: &M, first: u32, bytes: &[u8], before: u32) -> LongestPart
    requires first { first < M.states machine.now }
    requires some { 2 ≤ length bytes.now }
    requires known_before { before < M.states machine.now }
    requires before { before ≡ walk (M.machine machine.now) first (take (length bytes.now - 1) bytes.now) }
    requires none { NoneAfter (M.machine machine.now) first bytes.now (length bytes.now - 2) (length bytes.now) }
    ensures part { IsLongestPart (M.machine machine.now) first bytes.now result }
    ensures known { result.state < M.states machine.now }
{
    let mut state = before;
    let mut keep = bytes.len() - 1;
    'back: while 1 < keep {
        let Some(earlier) = machine.only_before(state) else {
            break 'back;
        };
        state = earlier;
        keep -= 1;
        if !machine.accepts(state).is_empty() {
            return LongestPart { keep, state };
        }
    }
    longest_part(machine, first, bytes)
}

/// What the last two states of a walk tell of its match: the last where it accepts a rule, or else the one before it.
#[inline(always)]
pub fn near_match<'m, M: Machine>(machine: &'m M, way: Way<'m>) -> GlancedMatch<'m>
    requires known_before { way.before < M.states machine.now }
    ensures near { (first : ℕ) (bytes : List ℕ) → Leads (M.machine machine.now) first bytes way.entry
        → IsNearMatch (M.machine machine.now) first bytes way.entry.count result }
    ensures both { result.gist ≡ NoRule → (result.keep + 1 ≡ way.entry.count) ⊎ (way.entry.count ≤ 1) }
{
    if matches!(way.gist, Gist::NoRule) && 1 < way.count {
        return GlancedMatch {
            gist: machine.gist(way.before),
            keep: way.count - 1,
        };
    }
    GlancedMatch {
        gist: way.gist,
        keep: way.count,
    }
}

/// How many bytes a rule keeps that does nothing, where that is what is told of the match.
#[inline(always)]
pub fn silent_part(near: GlancedMatch<'_>) -> Option<usize>
    ensures { IfSome result (λ keep. near.entry ≡ record { gist = Gist.Silent; keep = keep }) }
{
    if matches!(near.gist, Gist::Silent) {
        Some(near.keep)
    } else {
        None
    }
}

/// What is told of the match of a walk: by its last two states, or, where it is a short one, by the only state that
/// leads to the first of these, or by going over it again.
#[inline(always)]
pub fn longest_match<'m, M: Machine>(
    machine: &'m M,
    first: u32,
    bytes: &[u8],
    way: Way<'m>,
    near: GlancedMatch<'m>,
) -> GlancedMatch<'m>
    requires first { first < M.states machine.now }
    requires known_before { way.before < M.states machine.now }
    requires leads { Leads (M.machine machine.now) first bytes.now way }
    requires near { IsNearMatch (M.machine machine.now) first bytes.now way.count near }
    requires both { near.gist ≡ NoRule → (near.keep + 1 ≡ way.count) ⊎ (way.count ≤ 1) }
    ensures { IsGlancedMatch (M.machine machine.now) first bytes.now way.entry.count result }
{
    if !matches!(near.gist, Gist::NoRule) {
        return near;
    }
    // A long walk is left to a turn, which marks what it has gone over.
    if FEW < way.count {
        return GlancedMatch {
            gist: Gist::Any,
            keep: way.count,
        };
    }
    if near.keep != 1 {
        let longest = farther_part(machine, first, &bytes[..way.count], way.before);
        if longest.keep != 0 {
            return GlancedMatch {
                gist: machine.gist(longest.state),
                keep: longest.keep,
            };
        }
    }
    GlancedMatch {
        gist: Gist::Echo,
        keep: 1,
    }
}

/// Whether a rule is told.
#[inline(always)]
pub fn names_rule(gist: Gist<'_>) -> bool
    ensures { result ≡ names_rule gist.entry }
{
    !matches!(gist, Gist::Any | Gist::NoRule)
}

/// Carries out statements that each write the text or a literal, or set the condition; others do nothing. Answers the
/// condition of the next match.
#[inline(always)]
pub fn do_several<K: Sink>(
    outlet: &mut Outlet<'_, K>,
    statements: &[Statement],
    text: &[u8],
    condition: u8,
) -> Result<u8, RunError>
    requires live { can_write outlet.old ≡ true }
    ensures same { sink_name outlet.new ≡ sink_name outlet.old }
    ensures bytes { Appended (λ xs. K.wrote (sink_of outlet.old) xs (sink_of outlet.new))
        (all_said (map statement_of statements.now) text.now) result }
    ensures sink { SinkLeft K.failures (sink_of outlet.old) (sink_of outlet.new) (can_write outlet.new) result }
    ensures condition { IfOk result (λ after. after ≡ all_begun (map statement_of statements.now) condition) }
{
    let mut after = condition;
    for statement in statements {
        after = do_one(outlet, statement, text, after)?;
    }
    Ok(after)
}

/// Carries out one such statement.
#[inline(always)]
fn do_one<K: Sink>(
    outlet: &mut Outlet<'_, K>,
    statement: &Statement,
    text: &[u8],
    condition: u8,
) -> Result<u8, RunError>
    requires live { can_write outlet.old ≡ true }
    ensures same { sink_name outlet.new ≡ sink_name outlet.old }
    ensures bytes { Appended (λ xs. K.wrote (sink_of outlet.old) xs (sink_of outlet.new))
        (said (statement_of statement.now) text.now) result }
    ensures sink { SinkLeft K.failures (sink_of outlet.old) (sink_of outlet.new) (can_write outlet.new) result }
    ensures condition { IfOk result (λ after. after ≡ begun (statement_of statement.now) condition) }
{
    if let Some(said) = said_by(statement, text) {
        return match put(outlet, said) {
            Err(e) => Err(e),
            Ok(()) => Ok(condition),
        };
    }
    // No gist has any other (`are_simple` of lex_machine).
    match statement {
        Statement::Begin(after) => Ok(*after),
        _ => Ok(condition),
    }
}

/// What a statement writes, where it writes the text or a literal.
#[inline(always)]
fn said_by<'t>(statement: &'t Statement, text: &'t [u8]) -> Option<&'t [u8]>
    ensures some { IfSome result (λ bytes. bytes.now ≡ said (statement_of statement.now) text.now) }
    ensures none { result ≡ None → said (statement_of statement.now) text.now ≡ [] }
    ensures stays { IfSome result (λ bytes. (condition : ℕ) → begun (statement_of statement.now) condition ≡ condition) }
{
    match statement {
        Statement::Echo => Some(text),
        Statement::Print(bytes) => Some(bytes.as_slice()),
        _ => None,
    }
}

/// Does what is told of a rule, over the text of its match. Answers the condition of the next match.
#[inline(always)]
pub fn do_gist<K: Sink>(
    outlet: &mut Outlet<'_, K>,
    gist: Gist<'_>,
    text: &[u8],
    condition: u8,
) -> Result<u8, RunError>
    requires live { can_write outlet.old ≡ true }
    ensures same { sink_name outlet.new ≡ sink_name outlet.old }
    ensures bytes { Appended (λ xs. K.wrote (sink_of outlet.old) xs (sink_of outlet.new))
        (written_by gist.entry text.now) result }
    ensures sink { SinkLeft K.failures (sink_of outlet.old) (sink_of outlet.new) (can_write outlet.new) result }
    ensures condition { IfOk result (λ after. after ≡ condition_after gist.entry condition) }
{
    match gist {
        Gist::Echo => match put(outlet, text) {
            Err(e) => Err(e),
            Ok(()) => Ok(condition),
        },
        Gist::Print(bytes) => match put(outlet, bytes) {
            Err(e) => Err(e),
            Ok(()) => Ok(condition),
        },
        Gist::Begin(after) => Ok(after),
        Gist::Several(statements) => match do_several(outlet, statements, text, condition) {
            Err(e) => Err(e),
            Ok(after) => Ok(after),
        },
        // Of the last two no rule is known: a burst ends before one of these.
        Gist::Silent | Gist::Any | Gist::NoRule => Ok(condition),
    }
}
