//! Minimising: the automaton of the classes of an automaton.
ghost use Rattle.std.specs.Prelude.{◌≡◌, ℕ, ◌<◌, false, length, slice_index, slice_index_or, IfOk};
ghost use Rattle.lex_semantics.specs.Spec.{Spec};
ghost use Rattle.lex_semantics.specs.MachineLaws.{MachineLaws};
ghost use Rattle.lex_semantics.specs.TableFor.{TableFor};
ghost use Rattle.lexauto_dfa.specs.Invariant.{IsAutomaton};
ghost use Rattle.lexauto_dfa.specs.Automata.{conditions_of, lists_of, machine_of};
ghost use Rattle.lexauto_dfa.specs.Building.{ArePartsOf, FitsTable};
ghost use Rattle.lexauto_dfa.specs.Least.{AcceptsAs, GoesOnAs, IsLeast, IsNumbered};
ghost use Rattle.lexauto_dfa.specs.Lists.{AreLabels, list_at};
ghost use Rattle.lexauto_dfa.specs.Numbers.{AreMade};
ghost use Rattle.lexauto_dfa.specs.Quotients.{AreClasses};
ghost use Rattle.lexauto_dfa.specs.Sources.{IsRow};
ghost use Rattle.lexauto_dfa.specs.Least.{by_turns};
ghost use Rattle.lexauto_dfa.specs.Views.{automaton_of};

use crate::dfa::{Dfa, Parts};
use crate::least::futures::classes;
use crate::least::interleaving::{every_other, interleave};
use crate::least::labels::labels_of;
use crate::least::tables::{ClassTable, quotient};
use crate::memory::OutOfMemory;
use std::alloc::{AllocError, Global};
use std::rc::Rc;

/// The lists at some places, each the first list with its label, so that equal ones are kept once.
fn lists_at(
    alloc: Global,
    lists: &[Rc<Vec<u32>>],
    labels: &[u32],
    places: &[u32],
) -> Result<Vec<Rc<Vec<u32>>>, AllocError>
    requires labels { AreLabels lists.now labels.now }
    requires places { (k : ℕ) → k < length places.now → slice_index places.now k < length lists.now }
    ensures len { IfOk result (λ v. length v.items ≡ length places.now) }
    ensures each { IfOk result (λ v. (k : ℕ) → k < length places.now
        → list_at v.items k ≡ list_at lists.now (slice_index places.now k)) }
{
    let mut some = Vec::new(alloc);
    for i in 0..places.len() {
        let first = labels[places[i] as usize];
        some.push(Rc::clone(&lists[first as usize])?)?;
    }
    Ok(some)
}

/// The flags at some places.
fn flags_at(alloc: Global, flags: &[bool], places: &[u32]) -> Result<Vec<bool>, AllocError>
    requires places { (k : ℕ) → k < length places.now → slice_index places.now k < length flags.now }
    ensures len { IfOk result (λ v. length v.items ≡ length places.now) }
    ensures each { IfOk result (λ v. (k : ℕ) → k < length places.now
        → slice_index_or v.items k false ≡ slice_index_or flags.now (slice_index places.now k) false) }
{
    let mut some = Vec::new(alloc);
    for i in 0..places.len() {
        some.push(flags[places[i] as usize])?;
    }
    Ok(some)
}

/// For each state the class of those with the same future.
fn classes_of(alloc: Global, parts: &Parts, labels: &[u32]) -> Result<Vec<u32>, AllocError>
    requires automaton { IsAutomaton parts.now }
    requires labels { AreLabels parts.now.accepts.items labels.now }
    ensures row { IfOk result (λ v. IsRow v.items) }
    ensures classes { IfOk result (λ v. AreClasses (automaton_of parts.now) v.items) }
{
    let copy = Vec::from_slice(alloc, labels)?;
    let classes = classes(alloc, &parts.next, copy)?;
    Ok(classes)
}

/// The table of the classes that are called.
fn table_of(alloc: Global, parts: &Parts, classes: &[u32]) -> Result<ClassTable, AllocError>
    requires automaton { IsAutomaton parts.now }
    requires len { length classes.now ≡ length parts.now.goes_on.items }
    requires row { IsRow classes.now }
    ensures { IfOk result (λ t. AreMade classes.now
        (by_turns parts.now.starts.items parts.now.line_starts.items) parts.now.next.items t.members.items
        t.starts.items t.table.items) }
{
    let starts = interleave(alloc, &parts.starts, &parts.line_starts)?;
    let table = quotient(alloc, classes, &starts, &parts.next)?;
    Ok(table)
}

/// The lists of the automaton of a table of classes.
fn parts_of(
    alloc: Global,
    parts: &Parts,
    labels: &[u32],
    classes: ClassTable,
) -> Result<Parts, AllocError>
    requires automaton { IsAutomaton parts.now }
    requires labels { AreLabels parts.now.accepts.items labels.now }
    requires fits { FitsTable parts.now classes }
    ensures { IfOk result (λ q. ArePartsOf parts.now classes q) }
{
    let conditions = parts.starts.len();
    let starts = every_other(alloc, &classes.starts, conditions, 0)?;
    let line_starts = every_other(alloc, &classes.starts, conditions, 1)?;
    let accepts = lists_at(alloc, &parts.accepts, labels, &classes.members)?;
    let goes_on = flags_at(alloc, &parts.goes_on, &classes.members)?;
    Ok(Parts {
        starts,
        line_starts,
        next: classes.table,
        accepts,
        goes_on,
    })
}

/// The least automaton that accepts as another does after every word from every start. Its states are numbered from 1
/// in the order of their first call: by the starts, condition by condition, elsewhere and then at the start of a line;
/// and then by the states in order of number, byte by byte. A specification's machine stays one, and its table too.
pub fn minimise(alloc: Global, dfa: &Dfa) -> Result<Dfa, OutOfMemory>
    ensures conditions { IfOk result (λ e. conditions_of e ≡ conditions_of dfa.now) }
    ensures accepts { IfOk result (λ e. AcceptsAs (lists_of dfa.now) (lists_of e)) }
    ensures goes_on { IfOk result (λ e. GoesOnAs (lists_of dfa.now) (lists_of e)) }
    ensures least { IfOk result (λ e. IsLeast (lists_of e)) }
    ensures numbered { IfOk result (λ e. IsNumbered (lists_of e)) }
    ensures laws { IfOk result (λ e. (S : Spec) → MachineLaws (machine_of dfa.now S) → MachineLaws (machine_of e S)) }
    ensures table { IfOk result (λ e. (S : Spec) → TableFor (machine_of dfa.now S) S → TableFor (machine_of e S) S) }
{
    let parts = dfa.parts();
    let labels = labels_of(alloc, &parts.accepts)?;
    let classes = classes_of(alloc, parts, &labels)?;
    let table = table_of(alloc, parts, &classes)?;
    let least = parts_of(alloc, parts, &labels, table)?;
    Ok(Dfa::new(least))
}
