//! Whether pieces of an input may be scanned apart by a table.
ghost use Rattle.std.specs.Prelude.{◌≡◌, None, IfOk};
ghost use Rattle.lex_semantics.specs.Machine.{rules_of_machine};
ghost use Rattle.lextab_packed.specs.Machines.{table_machine};
ghost use Rattle.lexlook_tables.specs.Lines.{ScansApart};
ghost use Rattle.lexlook_tables.specs.Obstacles.{FirstOf, Hinders};

use crate::lines::cutting::{MachineSizes, Obstacle, find_obstacle};
use lextab_packed::Tables;
use std::alloc::{AllocError, Global};

/// What stands first against a cut of an input after any of its newlines, where it is scanned by these tables. The
/// order is that of `find_obstacle`. Where nothing does, the pieces may be scanned apart, and what is written put
/// together.
pub fn find_obstacle_in(alloc: Global, tables: &Tables) -> Result<Option<Obstacle>, AllocError>
    ensures none { IfOk result (λ found. found ≡ None → ScansApart (rules_of_machine (table_machine tables.now))) }
    ensures first { IfOk result (FirstOf (Hinders (table_machine tables.now))) }
{
    let parts = tables.parts();
    let sizes = MachineSizes {
        states: parts.rows.len() as u32,
        conditions: parts.conditions.len() as u8,
        rules: parts.rules.len() as u32,
    };
    find_obstacle(alloc, tables, sizes)
}
