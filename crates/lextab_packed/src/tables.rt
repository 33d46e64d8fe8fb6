//! Packed tables.
ghost use Rattle.std.specs.Prelude.{◌≡◌, map, length};
ghost use Rattle.lex_semantics.specs.MachineLaws.{MachineLaws, MachineLaws-prop, StaysBelow, StaysBelow-prop};
ghost use Rattle.lextab_packed.specs.Checks.{IsTable, some_rule_rejects};
ghost use Rattle.lextab_packed.specs.Invariant.{GoesOn, GoesOn-prop, IsTable-prop};
ghost use Rattle.lextab_packed.specs.Views.{table_rule_of, table_of, machine_of_parts};

use crate::parts::{TableParts, TableRule};
use lex_machine::has_reject;

/// A packed table, which keeps to all that a table file is checked for. No reader takes memory.
#[derive(Drop)]
pub struct Tables {
    pub(crate) parts: TableParts,
    pub(crate) goes_on: Vec<bool>,
    pub(crate) rejects: bool,
    ghost lawful: { IsTable (table_of parts) } by { IsTable-prop (table_of parts) },
    ghost leading: { GoesOn (table_of parts) goes_on.items } by { GoesOn-prop (table_of parts) goes_on.items },
    ghost laws: { MachineLaws (machine_of_parts parts goes_on.items) } by { MachineLaws-prop
        (machine_of_parts parts goes_on.items) },
    ghost below: { StaysBelow (machine_of_parts parts goes_on.items) (length parts.rows.items) } by { StaysBelow-prop
        (machine_of_parts parts goes_on.items) (length parts.rows.items) },
    ghost rejecting: { rejects ≡ some_rule_rejects (map table_rule_of parts.rules.items) },
}

/// Whether some rule has REJECT.
pub fn any_reject(rules: &[TableRule]) -> bool
    ensures { result ≡ some_rule_rejects (map table_rule_of rules.now) }
{
    for rule in rules {
        if has_reject(&rule.statements) {
            return true;
        }
    }
    false
}

impl Tables {
    ghost use Rattle.lextab_packed.specs.Machines.{table_parts, flags_of};

    /// The table of these parts. The flags say of each state whether some text of at least one byte leads from it to a
    /// state that accepts a rule.
    pub fn new(parts: TableParts, goes_on: Vec<bool>) -> Tables
        requires table { IsTable (table_of parts) }
        requires flags { GoesOn (table_of parts) goes_on.items }
        ensures parts { table_parts result ≡ parts }
        ensures flags { flags_of result ≡ goes_on.items }
    {
        let rejects = any_reject(&parts.rules);
        Tables {
            parts,
            goes_on,
            rejects,
        }
    }

    /// The parts of which it is made.
    pub fn parts(&self) -> &TableParts
        ensures { result.now ≡ table_parts self.now }
    {
        &self.parts
    }
}
