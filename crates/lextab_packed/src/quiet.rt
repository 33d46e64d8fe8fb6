//! A flat table in which rules that do nothing but REJECT fit no text.
ghost use Rattle.std.specs.Prelude.{◌≡◌, ℕ, ◌<◌, map, length, slice_get, Some, IfOk};
ghost use Rattle.lex_semantics.specs.Text.{Among};
ghost use Rattle.lex_semantics.specs.Machine.{rules_of_machine};
ghost use Rattle.lex_semantics.specs.ScanLaws.{SameScan};
ghost use Rattle.lex_machine.specs.Quiets.{only_rejects, quiet};
ghost use Rattle.lextab_packed.specs.FlatViews.{tables_of};
ghost use Rattle.lextab_packed.specs.Machines.{table_machine, table_parts, table_states};
ghost use Rattle.lextab_packed.specs.Rejections.{acts_and_rejects, all_only_reject};
ghost use Rattle.lextab_packed.specs.Rejections.{some_rule_acts_and_rejects, some_rule_only_rejects};
ghost use Rattle.lextab_packed.specs.Views.{table_rule_of};

use crate::flat::Flat;
use crate::parts::TableRule;
use lex_machine::{Cut, EndAction, Gist, Machine, Statement, Way, has_reject, only_rejects};
use std::alloc::{AllocError, Global};

/// A flat table in which rules that do nothing but REJECT fit no text. It makes the same turns as the table. Where no
/// other rule has REJECT, a scan need not look for the matches that are given up. It takes a byte a state.
#[derive(Drop)]
pub struct Quiet<'a> {
    flat: &'a Flat,
    silent: Vec<bool>,
    ghost column: { length silent.items ≡ table_states (tables_of flat.now) },
    ghost told: { (s : ℕ) → s < table_states (tables_of flat.now) → slice_get silent.items s
        ≡ Some (all_only_reject (table_machine (tables_of flat.now)) ((table_machine (tables_of flat.now)).accepts s)) },
}

/// Whether some rule does nothing but REJECT.
fn any_only_rejects(rules: &[TableRule]) -> bool
    ensures { result ≡ some_rule_only_rejects (map table_rule_of rules.now) }
{
    for rule in rules {
        if only_rejects(&rule.statements) {
            return true;
        }
    }
    false
}

/// Whether the rule does something else and then REJECT.
fn acts_and_rejects(rule: &TableRule) -> bool
    ensures { result ≡ acts_and_rejects (table_rule_of rule.now) }
{
    has_reject(&rule.statements) && !only_rejects(&rule.statements)
}

/// Whether some rule does something else and then REJECT.
fn any_acts_and_rejects(rules: &[TableRule]) -> bool
    ensures { result ≡ some_rule_acts_and_rejects (map table_rule_of rules.now) }
{
    for rule in rules {
        if acts_and_rejects(rule) {
            return true;
        }
    }
    false
}

impl Flat {
    ghost use Rattle.lextab_packed.specs.Quiets.{quiet_machine};

    /// Whether some rule does nothing but REJECT.
    pub fn has_quiet_rule(&self) -> bool
        ensures { result ≡ some_rule_only_rejects (map table_rule_of (table_parts (tables_of self.now)).rules.items) }
    {
        any_only_rejects(&self.tables.parts.rules)
    }

    /// Whether each of these rules does nothing but REJECT.
    fn all_only_reject(&self, rules: &[u32]) -> bool
        requires { (i : ℕ) → Among rules.now i → i < (table_machine (tables_of self.now)).count }
        ensures { result ≡ all_only_reject (table_machine (tables_of self.now)) rules.now }
    {
        for rule in rules {
            if !only_rejects(self.rule(*rule).1) {
                return false;
            }
        }
        true
    }

    /// Of each state, whether each rule that it accepts does nothing but REJECT.
    fn silent_states(&self, alloc: Global) -> Result<Vec<bool>, AllocError>
        ensures len { IfOk result (λ v. length v.items ≡ table_states (tables_of self.now)) }
        ensures each { IfOk result (λ v. (s : ℕ) → s < table_states (tables_of self.now) → slice_get v.items s
            ≡ Some (all_only_reject (table_machine (tables_of self.now)) ((table_machine (tables_of self.now)).accepts s))) }
    {
        let states = self.tables.parts.rows.len();
        let mut silent = Vec::with_capacity(alloc, states)?;
        for state in 0..states {
            silent.push(self.all_only_reject(self.accepts(state as u32)))?;
        }
        Ok(silent)
    }

    /// The table as the machine in which such rules fit no text. It makes the same turns.
    pub fn quiet(&self, alloc: Global) -> Result<Quiet<'_>, AllocError>
        ensures machine { IfOk result (λ q. quiet_machine q ≡ quiet (table_machine (tables_of self.now))) }
        ensures scan { IfOk result (λ q. SameScan (rules_of_machine (quiet_machine q))
            (rules_of_machine (table_machine (tables_of self.now)))) }
    {
        let silent = self.silent_states(alloc)?;
        Ok(Quiet { flat: self, silent })
    }
}

impl Machine for Quiet<'_> {
    ghost use Rattle.lextab_packed.specs.Quiets.{quiet_machine, quiet_machine_laws, quiet_machine_below};

    ghost machine = { λ q. quiet_machine q };

    ghost states = { λ q. table_states (tables_of q.flat.now) };

    ghost laws = { λ q. quiet_machine_laws q };

    ghost below = { λ q. quiet_machine_below q };

    /// How many conditions there are.
    fn conditions(&self) -> usize {
        self.flat.conditions()
    }

    /// How many rules there are.
    fn rules(&self) -> usize {
        self.flat.rules()
    }

    /// The state where a match starts in a condition, at the start of a line or not.
    fn start(&self, condition: u8, line_start: bool) -> u32 {
        self.flat.start(condition, line_start)
    }

    /// The state after one byte more.
    fn step(&self, state: u32, byte: u8) -> u32 {
        self.flat.step(state, byte)
    }

    /// Whether a longer text may be accepted.
    fn goes_on(&self, state: u32) -> bool {
        self.flat.goes_on(state)
    }

    /// The rules that the state accepts, those that fit no text too.
    fn accepts(&self, state: u32) -> &[u32] {
        self.flat.accepts(state)
    }

    /// Whether each rule that the state accepts does nothing but REJECT.
    fn fits_none(&self, state: u32) -> bool {
        self.silent[state as usize]
    }

    /// How much of a match of a rule is the text, and what is done: none and nothing where the rule only rejects.
    fn rule(&self, rule: u32) -> (Cut, &[Statement]) {
        let (cut, statements) = self.flat.rule(rule);
        if only_rejects(statements) {
            (Cut::Head(0), &[])
        } else {
            (cut, statements)
        }
    }

    /// What is done at the end of the input in a condition.
    fn eof(&self, condition: u8) -> &EndAction {
        self.flat.eof(condition)
    }

    /// Whether some rule does something else and then REJECT.
    fn rejects(&self) -> bool {
        any_acts_and_rejects(&self.flat.tables.parts.rules)
    }

    /// Where the bytes lead to from a state, as the table tells it.
    #[inline(always)]
    fn way(&self, first: u32, bytes: &[u8]) -> Option<Way<'_>> {
        self.flat.way(first, bytes)
    }

    /// The only state that leads to this one by a byte, as the table tells it.
    fn only_before(&self, state: u32) -> Option<u32> {
        self.flat.only_before(state)
    }

    /// Whether the first rule that the state accepts keeps all of a match, and does yymore alone, as the table tells it.
    #[inline(always)]
    fn does_more(&self, state: u32) -> bool {
        self.flat.does_more(state)
    }

    /// What is told at a glance of what the first rule does that the state accepts, as the table tells it.
    #[inline(always)]
    fn gist(&self, state: u32) -> Gist<'_> {
        self.flat.gist(state)
    }

    /// Whether most bytes are dropped or copied in a condition, as the table tells it.
    #[inline(always)]
    fn has_singles(&self, condition: u8) -> bool {
        self.flat.has_singles(condition)
    }

    /// How many of the first bytes are dropped, as the table tells it.
    fn dropped(&self, condition: u8, first: u32, bytes: &[u8]) -> usize {
        self.flat.dropped(condition, first, bytes)
    }

    /// How many of the first bytes are copied, as the table tells it.
    fn copied(&self, condition: u8, first: u32, bytes: &[u8]) -> usize {
        self.flat.copied(condition, first, bytes)
    }
}
