//! A suite as a value, and its lines.
ghost use Rattle.std.specs.Prelude.{◌≡◌, ◌++◌, ◌∷◌, [], codes, length, map, slice_index_or, IfOk, OnOk};
ghost use Rattle.std.specs.List.{concat, flat_map, range_with_len};
ghost use Rattle.lexlook_suites.specs.CoverLines.{HasName};
ghost use Rattle.lexlook_suites.specs.SuiteLines.{lines_under, input_line, left_lines, lines_in, status_words, suite_lines};

use crate::inputs::Input;
use crate::lines::{add_all_missed, add_more};
use crate::texts::Missed;
use lexlook_specs::{add, add_number, add_string};
use std::alloc::{AllocError, Global};

/// Inputs that together go over the edges of a specification's automaton, with what their scans do.
#[derive(Drop)]
pub struct Suite {
    /// The names of the start conditions.
    pub names: Vec<Vec<u8>>,
    pub inputs: Vec<Input>,
    /// Lines of the first 1,000 edges that no input goes over, and one of how many more there are.
    pub left: Vec<u8>,
}

/// Appends the status of an input, behind its output.
fn add_status(text: &mut Vec<u8>, input: &Input) -> Result<(), AllocError>
    ensures { OnOk result (text.new.items ≡ text.old.items ++ status_words input.now.status) }
{
    add(text, b"\" ")?;
    add_number(text, u32::from(input.status))?;
    add(text, b"\n")
}

/// Appends the line of an input.
fn add_input(text: &mut Vec<u8>, input: &Input) -> Result<(), AllocError>
    ensures { OnOk result (text.new.items ≡ text.old.items ++ input_line input.now) }
{
    add(text, b"\"")?;
    add_string(text, &input.text)?;
    add(text, b"\" -> \"")?;
    add_string(text, &input.output)?;
    add_status(text, input)
}

/// Appends the line of an input, if it was made for this condition.
fn add_input_of(text: &mut Vec<u8>, input: &Input, condition: usize) -> Result<(), AllocError>
    ensures { OnOk result (text.new.items ≡ text.old.items ++ lines_in (input.now ∷ []) condition) }
{
    if usize::from(input.condition) != condition {
        return add(text, b"");
    }
    add_input(text, input)
}

/// Appends the lines of the inputs that were made for a condition.
fn add_inputs(text: &mut Vec<u8>, inputs: &[Input], condition: usize) -> Result<(), AllocError>
    ensures { OnOk result (text.new.items ≡ text.old.items ++ lines_in inputs.now condition) }
{
    for input in inputs {
        add_input_of(text, input, condition)?;
    }
    Ok(())
}

/// Appends the same under the name of the condition.
fn add_condition(
    text: &mut Vec<u8>,
    name: &[u8],
    inputs: &[Input],
    condition: usize,
) -> Result<(), AllocError>
    ensures { OnOk result (text.new.items
        ≡ text.old.items ++ concat (name.now ∷ codes ":\n" ∷ lines_in inputs.now condition ∷ [])) }
{
    add(text, name)?;
    add(text, b":\n")?;
    add_inputs(text, inputs, condition)
}

/// The lines of edges that no input goes over, and how many more of them there are.
pub(crate) fn left_lines(
    alloc: Global,
    names: &[&[u8]],
    missed: &[Missed],
    more: usize,
) -> Result<Vec<u8>, AllocError>
    requires { HasName (length names.now) missed.now }
    ensures { IfOk result (λ text. text.items ≡ left_lines (map (λ n. n.now) names.now) missed.now more) }
{
    let mut text = Vec::new(alloc);
    add_all_missed(&mut text, names, missed)?;
    add_more(&mut text, more)?;
    Ok(text)
}

impl Suite {
    /// The lines of the inputs that were made for a condition, by its number.
    pub fn lines_in(&self, alloc: Global, condition: usize) -> Result<Vec<u8>, AllocError>
        ensures { IfOk result (λ text. text.items ≡ lines_in self.now.inputs.items condition) }
    {
        let mut text = Vec::new(alloc);
        add_inputs(&mut text, &self.inputs, condition)?;
        Ok(text)
    }

    /// All lines: for each condition its name and the lines of its inputs, and then of the edges that none goes over.
    pub fn lines(&self, alloc: Global) -> Result<Vec<u8>, AllocError>
        ensures { IfOk result (λ text. text.items ≡ suite_lines self.now) }
    {
        let mut text = Vec::new(alloc);
        for condition in 0..self.names.len() {
            add_condition(&mut text, &self.names[condition], &self.inputs, condition)?;
        }
        add(&mut text, &self.left)?;
        Ok(text)
    }
}
