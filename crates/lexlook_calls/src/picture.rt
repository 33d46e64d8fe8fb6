//! The picture of the automaton of a specification.
ghost use Rattle.std.specs.Prelude.{◌≡◌, ◌≤◌, ◌+◌, ◌-◌, ◌^◌, ◌<◌, ℕ, length};
ghost use Rattle.lex_io.specs.Sink.{Appended};
ghost use Rattle.lex_semantics.specs.Limits.{max_positions, max_states};
ghost use Rattle.lex_semantics.specs.Text.{Among};
ghost use Rattle.lexauto_dfa.specs.Automata.{accepts_of, conditions_of, states_of};
ghost use Rattle.lexspec.specs.Views.{conditions_in, rules_in, spec_of};
ghost use Rattle.lexlook_specs.specs.Faults.{picture_fault_count};
ghost use Rattle.lexlook_calls.specs.Errors.{look_fault_count};
ghost use Rattle.lexlook_calls.specs.Looks.{Draws, picture_of};

use crate::error::LookError;
use crate::labels::names_of;
use lexauto::Dfa;
use lexkit::{Options, Sink, least_automaton, lines_of, read_text};
use lexlook_specs::{PictureError, write_picture};
use lexspec::Spec;
use std::alloc::Global;

/// Writes the picture of an automaton with the names and lines of a specification.
fn draw_automaton<K: Sink>(
    alloc: Global,
    spec: &Spec,
    dfa: &Dfa,
    sink: &mut K,
) -> Result<(), PictureError>
    requires few { K.failures sink.old < 2 ^ 64 - 1 }
    requires conditions { conditions_of dfa.now ≡ length (conditions_in (spec_of spec.now)) }
    requires rules { (s i : ℕ) → s < states_of dfa.now → Among (accepts_of dfa.now s) i
        → i < length (rules_in (spec_of spec.now)) }
    ensures bytes { Appended (λ xs. K.wrote sink.old xs sink.new) (picture_of dfa.now (spec_of spec.now)) result }
    ensures failures { K.failures sink.new ≡ K.failures sink.old + picture_fault_count result }
{
    let names = names_of(alloc, spec.conditions())?;
    let lines = lines_of(alloc, spec.rules())?;
    write_picture(alloc, dfa, &names, &lines, sink)
}

/// Writes the picture of the least automaton of the specification that a text spells. A text that spells none, or one
/// whose automaton passes the limits, is refused, and then nothing is written.
pub fn draw<K: Sink>(
    alloc: Global,
    text: &[u8],
    options: Options,
    sink: &mut K,
) -> Result<(), LookError>
    requires few_positions { options.limits.positions ≤ max_positions }
    requires few_states { options.limits.states ≤ max_states }
    requires few { K.failures sink.old < 2 ^ 64 - 1 }
    ensures told { Draws K.wrote options text.now sink.old sink.new result }
    ensures failures { K.failures sink.new ≡ K.failures sink.old + look_fault_count result }
{
    let spec = read_text(alloc, text, options)?;
    let least = least_automaton(alloc, &spec, options.limits)?;
    match draw_automaton(alloc, &spec, &least.automaton, sink) {
        Err(error) => Err(LookError::from(error)),
        Ok(()) => Ok(()),
    }
}
