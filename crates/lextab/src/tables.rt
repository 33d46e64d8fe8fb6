//! The packed tables of an automaton, with the actions of its specification.
ghost use Rattle.std.specs.Prelude.{◌≡◌, ℕ, ◌≤◌, length, IfOk};
ghost use Rattle.lex_semantics.specs.TableFor.{TableFor};
ghost use Rattle.lexauto_dfa.specs.Parts.{conditions, states, lists_in};
ghost use Rattle.lexauto_dfa.specs.Invariant.{IsAutomaton};
ghost use Rattle.lexauto_dfa.specs.Automata.{machine_of, conditions_of, states_of, next_of};
ghost use Rattle.lexspec.specs.Views.{spec_of, conditions_in};
ghost use Rattle.lextab_packed.specs.Views.{table_of};
ghost use Rattle.lextab_packed.specs.FlatViews.{tables_of};
ghost use Rattle.lextab_packed.specs.Machines.{table_machine, table_parts, table_states};
ghost use Rattle.lextab.specs.Assembled.{assembled, HasTexts};
ghost use Rattle.lextab.specs.Columns.{GoesAs, packing_in};
ghost use Rattle.lextab.specs.Packing.{IsPacked};
ghost use Rattle.lextab.specs.PackingViews.{packing_of};

use crate::assembling::{table_conditions, table_rows, table_rules};
use crate::packing::{Packed, pack_rows};
use crate::unpacked::unpacked;
use lexauto_dfa::{Dfa, OutOfMemory, Parts};
use lexspec::Spec;
use lextab_packed::{Flat, TableParts, Tables};
use std::alloc::{AllocError, Global};

/// The parts of the table of an automaton that is packed so.
fn table_parts(
    alloc: Global,
    parts: &Parts,
    spec: &Spec,
    packed: Packed,
) -> Result<TableParts, AllocError>
    requires automaton { IsAutomaton parts.now }
    requires conditions { conditions parts.now ≡ length (conditions_in (spec_of spec.now)) }
    requires defaults { length packed.defaults.items ≡ states parts.now }
    requires bases { length packed.bases.items ≡ states parts.now }
    requires classes { packed.class_count ≤ 256 }
    ensures table { IfOk result (λ t. table_of t ≡ assembled parts.now (spec_of spec.now) (packing_of packed)) }
    ensures texts { IfOk result (λ t. HasTexts (table_of t)) }
{
    let conditions = table_conditions(alloc, &parts.starts, &parts.line_starts, spec.conditions())?;
    let rules = table_rules(alloc, spec.rules())?;
    let rows = table_rows(alloc, &packed.defaults, &packed.bases, &parts.accepts)?;
    Ok(TableParts {
        conditions,
        rules,
        classes: packed.class_count as u32,
        class_of: packed.class_of,
        rows,
        checks: packed.check,
        nexts: packed.next,
    })
}

/// The tables of an automaton that is one for the specification, by columns in which its states go as they do.
fn tables_by(alloc: Global, dfa: &Dfa, spec: &Spec, packed: Packed) -> Result<Tables, AllocError>
    requires conditions { conditions_of dfa.now ≡ length (conditions_in (spec_of spec.now)) }
    requires table { TableFor (machine_of dfa.now (spec_of spec.now)) (spec_of spec.now) }
    requires goes { GoesAs (states_of dfa.now) (next_of dfa.now) (packing_of packed) }
    ensures columns { IfOk result (λ t. packing_in (table_of (table_parts t)) ≡ packing_of packed) }
    ensures machine { IfOk result (λ t. table_machine t ≡ machine_of dfa.now (spec_of spec.now)) }
{
    let parts = dfa.parts();
    let table = table_parts(alloc, parts, spec, packed)?;
    let goes_on = Vec::from_slice(alloc, &parts.goes_on)?;
    Ok(Tables::new(table, goes_on))
}

/// The packed tables of an automaton that is one for the specification: its byte classes, defaults, bases and slots are
/// those of first fit in order of state number, and the machine is the automaton's with the specification's actions.
pub fn pack(alloc: Global, dfa: &Dfa, spec: &Spec) -> Result<Tables, OutOfMemory>
    requires conditions { conditions_of dfa.now ≡ length (conditions_in (spec_of spec.now)) }
    requires table { TableFor (machine_of dfa.now (spec_of spec.now)) (spec_of spec.now) }
    ensures packed { IfOk result (λ t. IsPacked (states_of dfa.now) (next_of dfa.now) (table_of (table_parts t))) }
    ensures machine { IfOk result (λ t. table_machine t ≡ machine_of dfa.now (spec_of spec.now)) }
{
    let parts = dfa.parts();
    let packed = pack_rows(alloc, &parts.next, parts.goes_on.len())?;
    let tables = tables_by(alloc, dfa, spec, packed)?;
    Ok(tables)
}

/// The tables of a scan by an automaton that is one for the specification. They are made at once, and not packed.
fn scan_tables(alloc: Global, dfa: &Dfa, spec: &Spec) -> Result<Tables, OutOfMemory>
    requires conditions { conditions_of dfa.now ≡ length (conditions_in (spec_of spec.now)) }
    requires table { TableFor (machine_of dfa.now (spec_of spec.now)) (spec_of spec.now) }
    ensures states { IfOk result (λ t. table_states t ≡ states_of dfa.now) }
    ensures machine { IfOk result (λ t. table_machine t ≡ machine_of dfa.now (spec_of spec.now)) }
{
    let parts = dfa.parts();
    let columns = unpacked(alloc, &parts.next, parts.goes_on.len())?;
    Ok(tables_by(alloc, dfa, spec, columns)?)
}

/// The machine of a scan by an automaton that is one for the specification. Its tables are made at once, and not packed.
pub fn pack_flat(alloc: Global, dfa: &Dfa, spec: &Spec) -> Result<Flat, OutOfMemory>
    requires conditions { conditions_of dfa.now ≡ length (conditions_in (spec_of spec.now)) }
    requires table { TableFor (machine_of dfa.now (spec_of spec.now)) (spec_of spec.now) }
    ensures { IfOk result (λ f. table_machine (tables_of f) ≡ machine_of dfa.now (spec_of spec.now)) }
{
    let tables = scan_tables(alloc, dfa, spec)?;
    Ok(Flat::new(alloc, tables)?)
}

/// The same by an automaton that is given up. Its rows become those of the scan, and are not laid out again.
pub fn into_flat(alloc: Global, dfa: Dfa, spec: &Spec) -> Result<Flat, OutOfMemory>
    requires conditions { conditions_of dfa ≡ length (conditions_in (spec_of spec.now)) }
    requires table { TableFor (machine_of dfa (spec_of spec.now)) (spec_of spec.now) }
    ensures { IfOk result (λ f. table_machine (tables_of f) ≡ machine_of dfa (spec_of spec.now)) }
{
    let tables = scan_tables(alloc, &dfa, spec)?;
    Ok(Flat::of_rows(alloc, tables, dfa.into_parts().next)?)
}
