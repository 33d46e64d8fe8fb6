//! Counts of what is made of a specification.
ghost use Rattle.std.specs.Prelude.{◌≡◌, ℕ, ◌+◌, ◌-◌, ◌^◌, ◌<◌, ◌≤◌, length};
ghost use Rattle.lex_io.specs.Sink.{Appended, fault_count};
ghost use Rattle.lexspec.specs.Views.{spec_of, rules_in};
ghost use Rattle.lex_semantics.specs.Subsets.{HasSubsets, all_positions};
ghost use Rattle.lextab_packed.specs.Machines.{table_parts};
ghost use Rattle.lextab_packed.specs.Views.{table_of};
ghost use Rattle.lexkit.specs.Generated.{AreCounts};
ghost use Rattle.lexkit.specs.Statistics.{stats_lines};

use crate::counting::file_length;
use itoa::Buffer;
use lexauto::{Limits, count_positions};
use lexauto_reports::put_all;
use lexspec::Spec;
use lextab::{Sink, Tables, WriteFault};

/// The counts that `-v` writes.
#[derive(Clone, Copy, Debug, PartialEq, Eq)]
pub struct Stats {
    /// Rules of the specification, but for `<<EOF>>`.
    pub rules: u32,
    /// Start conditions, INITIAL among them.
    pub conditions: u32,
    /// Positions of all heads and trails.
    pub positions: u32,
    /// States before minimising.
    pub subsets: u32,
    /// States of the tables, the dead one among them.
    pub states: u32,
    /// Byte classes.
    pub classes: u32,
    /// Slots of the packed rows.
    pub slots: u32,
    /// Bytes of the table file.
    pub bytes: u32,
}

/// The counts of a specification and its tables.
pub(crate) fn stats_of(spec: &Spec, limits: Limits, subsets: u32, tables: &Tables) -> Stats
    requires few { all_positions (rules_in (spec_of spec.now)) ≤ limits.positions }
    requires subsets { HasSubsets (spec_of spec.now) subsets }
    ensures { AreCounts (spec_of spec.now) (table_of (table_parts tables.now)) result }
{
    let parts = tables.parts();
    Stats {
        rules: spec.rules().len() as u32,
        conditions: spec.conditions().len() as u32,
        positions: count_positions(spec.rules(), limits.positions).unwrap_or(0),
        subsets,
        states: parts.rows.len() as u32,
        classes: parts.classes,
        slots: parts.checks.len().min(parts.nexts.len()) as u32,
        bytes: file_length(tables),
    }
}

/// Writes a line for each count, as `rules 2`. It takes no memory.
pub fn write_stats<K: Sink>(stats: &Stats, sink: &mut K) -> Result<(), WriteFault>
    requires { K.failures sink.old < 2 ^ 64 - 1 }
    ensures bytes { Appended (λ xs. K.wrote sink.old xs sink.new) (stats_lines stats.now) result }
    ensures failures { K.failures sink.new ≡ K.failures sink.old + fault_count result }
{
    let mut rules = Buffer::new();
    let rules = rules.format(stats.rules);
    let mut conditions = Buffer::new();
    let conditions = conditions.format(stats.conditions);
    let mut positions = Buffer::new();
    let positions = positions.format(stats.positions);
    let mut subsets = Buffer::new();
    let subsets = subsets.format(stats.subsets);
    let mut states = Buffer::new();
    let states = states.format(stats.states);
    let mut classes = Buffer::new();
    let classes = classes.format(stats.classes);
    let mut slots = Buffer::new();
    let slots = slots.format(stats.slots);
    let mut bytes = Buffer::new();
    let bytes = bytes.format(stats.bytes);
    put_all(
        sink,
        &[
            "rules ",
            rules,
            "\nconditions ",
            conditions,
            "\npositions ",
            positions,
            "\nsubsets ",
            subsets,
            "\nstates ",
            states,
            "\nclasses ",
            classes,
            "\nslots ",
            slots,
            "\nbytes ",
            bytes,
            "\n",
        ],
    )
}
