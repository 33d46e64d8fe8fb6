//! Of each state the only one that leads to it by a byte, where no other does.
ghost use Rattle.std.specs.Prelude.{◌≡◌, ℕ, ◌<◌, length, slice_index, IfOk};
ghost use Rattle.lextab_packed.specs.Checks.{IsTable};
ghost use Rattle.lextab_packed.specs.Predecessors.{IsSource, StaySources};
ghost use Rattle.lextab_packed.specs.Steps.{row_in, slot_at, step_of};
ghost use Rattle.lextab_packed.specs.Views.{table_of};

use crate::parts::TableParts;
use std::alloc::{AllocError, Global};

/// Which states lead to another by a byte.
#[derive(Clone, Copy)]
pub(crate) enum Sources {
    /// None is known.
    Unknown,
    /// No other than this one.
    Only(u32),
    /// Any may be one.
    Several,
}

/// Adds a state to the sources of its target.
fn add_source(sources: &mut Vec<Sources>, target: u32, state: u32)
    requires { target < length sources.old.items }
    ensures len { length sources.new.items ≡ length sources.old.items }
    ensures added { IsSource sources.new.items target state }
    ensures stay { StaySources sources.old.items sources.new.items }
{
    let place = target as usize;
    match sources[place] {
        Sources::Unknown => sources[place] = Sources::Only(state),
        Sources::Only(other) if other == state => {}
        Sources::Only(_) => sources[place] = Sources::Several,
        Sources::Several => {}
    }
}

/// Adds each state to the sources of its default target, as if some byte led there.
fn add_defaults(parts: &TableParts, sources: &mut Vec<Sources>)
    requires table { IsTable (table_of parts.now) }
    requires len { length sources.old.items ≡ length parts.now.rows.items }
    ensures len { length sources.new.items ≡ length sources.old.items }
    ensures added { (s : ℕ) → s < length parts.now.rows.items
        → IsSource sources.new.items (row_in (table_of parts.now) s).default_target s }
{
    for state in 0..parts.rows.len() {
        add_source(sources, parts.rows[state].default_target, state as u32);
    }
}

/// Adds the state of each slot to the sources of the target that stands there.
fn add_slots(parts: &TableParts, sources: &mut Vec<Sources>)
    requires table { IsTable (table_of parts.now) }
    requires len { length sources.old.items ≡ length parts.now.rows.items }
    ensures len { length sources.new.items ≡ length sources.old.items }
    ensures added { (i : ℕ) → i < length (table_of parts.now).slots → IsSource sources.new.items
        (slot_at (table_of parts.now) i).next (slot_at (table_of parts.now) i).check }
    ensures stay { StaySources sources.old.items sources.new.items }
{
    let slots = parts.checks.len().min(parts.nexts.len());
    for place in 0..slots {
        add_source(
            sources,
            u32::from(parts.nexts[place]),
            u32::from(parts.checks[place]),
        );
    }
}

/// Of each state the states that lead to it by a byte.
pub(crate) fn sources_of(alloc: Global, parts: &TableParts) -> Result<Vec<Sources>, AllocError>
    requires { IsTable (table_of parts.now) }
    ensures len { IfOk result (λ v. length v.items ≡ length parts.now.rows.items) }
    ensures each { IfOk result (λ v. (s b : ℕ) → s < length parts.now.rows.items → b < 256
        → IsSource v.items (step_of (table_of parts.now) s b) s) }
{
    let mut sources = vec![in alloc; Sources::Unknown; parts.rows.len()]?;
    // Most slots lead to states to which several do by default, so these come first.
    add_defaults(parts, &mut sources);
    add_slots(parts, &mut sources);
    Ok(sources)
}
