//! The rules of a specification as constants of a program.
ghost use Rattle.std.specs.Prelude.{◌≡◌, ◌+◌, ◌-◌, ◌^◌, ◌<◌, ◌++◌, length, map, decimal};
ghost use Rattle.std.specs.Prelude.{IfOk, OnOk};
ghost use Rattle.std.specs.List.{flat_map, range_with_len};
ghost use Rattle.lex_semantics.specs.ByteSets.{same_bytes};
ghost use Rattle.lexspec.specs.RuleViews.{rule_of};
ghost use Rattle.lexlook_calls.specs.Errors.{look_fault_count};
ghost use Rattle.lexlook_calls.specs.Headers.{TellsHeader, called, called_by, constant_line, first_called, first_rules};
ghost use Rattle.lexlook_calls.specs.Headers.{header, in_language, number_line, rule_line};

use crate::error::LookError;
use itoa::Buffer;
use lex_names::rule_name;
use lexkit::{Options, Sink, read_text};
use lexlook_specs::{add, add_number};
use lexspec::Rule;
use std::alloc::{AllocError, Global};

/// The language of the program.
#[derive(Clone, Copy)]
pub enum Language {
    /// C, and C++: an enum.
    C,
    /// Rust: constants.
    Rust,
}

/// Appends the one of two texts that a language has.
fn add_in(text: &mut Vec<u8>, language: Language, c: &[u8], rust: &[u8]) -> Result<(), AllocError>
    ensures { OnOk result (text.new.items ≡ text.old.items ++ in_language language c.now rust.now) }
{
    match language {
        Language::C => add(text, c),
        Language::Rust => add(text, rust),
    }
}

/// Appends a number, in decimal.
fn add_count(text: &mut Vec<u8>, count: usize) -> Result<(), AllocError>
    ensures { OnOk result (text.new.items ≡ text.old.items ++ decimal count) }
{
    let mut digits = Buffer::new();
    add(text, digits.format(count).as_bytes())
}

/// What a rule at this line and of this name is called.
fn called_by(alloc: Global, line: u32, name: &[u8]) -> Result<Vec<u8>, AllocError>
    ensures { IfOk result (λ text. text.items ≡ called_by line name.now) }
{
    let mut text = Vec::new(alloc);
    if name.is_empty() {
        add(&mut text, b"LINE_")?;
        add_number(&mut text, line)?;
    } else {
        add(&mut text, b"RULE_")?;
        add(&mut text, name)?;
    }
    Ok(text)
}

/// What rules are called, in their order.
fn called(alloc: Global, rules: &[Rule]) -> Result<Vec<Vec<u8>>, AllocError>
    ensures { IfOk result (λ names. map (λ n. n.items) names.items ≡ called (map rule_of rules.now)) }
{
    let mut names = Vec::new(alloc);
    for rule in rules {
        let name = called_by(alloc, rule.line, rule_name(rule.statements.as_slice()))?;
        names.push(name)?;
    }
    Ok(names)
}

/// Whether both are called the same.
fn same_bytes(name: &[u8], other: &[u8]) -> bool
    ensures { result ≡ same_bytes name.now other.now }
{
    name == other
}

/// The first rule that is called as this one is.
fn first_called(names: &[Vec<u8>], rule: usize) -> usize
    requires { rule < length names.now }
    ensures { result ≡ first_called (map (λ n. n.items) names.now) rule }
{
    for other in 0..rule {
        if same_bytes(names[rule].as_slice(), names[other].as_slice()) {
            return other;
        }
    }
    rule
}

/// Appends the line of a constant.
fn add_constant(
    text: &mut Vec<u8>,
    language: Language,
    name: &[u8],
    number: usize,
) -> Result<(), AllocError>
    ensures { OnOk result (text.new.items ≡ text.old.items ++ constant_line language name.now number) }
{
    add_in(text, language, b"    ", b"pub const ")?;
    add(text, name)?;
    add_in(text, language, b" = ", b": u32 = ")?;
    add_count(text, number)?;
    add_in(text, language, b",\n", b";\n")
}

/// Appends the line of a rule, where it is the first that is called so.
fn add_rule(
    text: &mut Vec<u8>,
    language: Language,
    names: &[Vec<u8>],
    rule: usize,
) -> Result<(), AllocError>
    requires { rule < length names.now }
    ensures { OnOk result (text.new.items ≡ text.old.items ++ rule_line language (map (λ n. n.items) names.now) rule) }
{
    if first_called(names, rule) == rule {
        return add_constant(text, language, names[rule].as_slice(), rule);
    }
    add(text, b"")
}

/// Appends the lines of all rules that are the first ones called so.
fn add_rules(text: &mut Vec<u8>, language: Language, names: &[Vec<u8>]) -> Result<(), AllocError>
    ensures { OnOk result (text.new.items ≡ text.old.items
        ++ flat_map (rule_line language (map (λ n. n.items) names.now)) (range_with_len 0 (length names.now))) }
{
    for rule in 0..names.len() {
        add_rule(text, language, names, rule)?;
    }
    Ok(())
}

/// Appends a number of a list.
fn add_number_line(text: &mut Vec<u8>, number: usize) -> Result<(), AllocError>
    ensures { OnOk result (text.new.items ≡ text.old.items ++ number_line number) }
{
    add(text, b"    ")?;
    add_count(text, number)?;
    add(text, b",\n")
}

/// Appends for each rule the number of the first one that is called as it is.
fn add_numbers(text: &mut Vec<u8>, names: &[Vec<u8>]) -> Result<(), AllocError>
    ensures { OnOk result (text.new.items ≡ text.old.items
        ++ flat_map (λ i. number_line (first_called (map (λ n. n.items) names.now) i))
        (range_with_len 0 (length names.now))) }
{
    for rule in 0..names.len() {
        add_number_line(text, first_called(names, rule))?;
    }
    Ok(())
}

const C_HEAD: &[u8] =
    b"/* The rules of a specification, by `lexlook header`. */\n#pragma once\nenum lex_rule {\n";

const RUST_HEAD: &[u8] = b"// The rules of a specification, by `lexlook header --rust`.\n";

const C_WORDS: &[u8] =
    b"};\n\n/* For each rule the first one that is called as it is, and RULES for the default rule. */\n";

const RUST_WORDS: &[u8] =
    b"\n/// For each rule the first one that is called as it is, and RULES for the default rule.\n";

const C_LIST: &[u8] = b"static const unsigned lex_first_rule[RULES + 1] = {\n";

const RUST_LIST: &[u8] = b"pub const FIRST_RULE: [u32; RULES as usize + 1] = [\n";

/// Appends the list of the first rules.
fn add_first_rules(
    text: &mut Vec<u8>,
    language: Language,
    names: &[Vec<u8>],
) -> Result<(), AllocError>
    ensures { OnOk result (text.new.items ≡ text.old.items
        ++ first_rules language (map (λ n. n.items) names.now)) }
{
    add_in(text, language, C_WORDS, RUST_WORDS)?;
    add_in(text, language, C_LIST, RUST_LIST)?;
    add_numbers(text, names)?;
    add_number_line(text, names.len())?;
    add_in(text, language, b"};\n", b"];\n")
}

/// The header of rules that are called so.
fn header(alloc: Global, language: Language, names: &[Vec<u8>]) -> Result<Vec<u8>, AllocError>
    ensures { IfOk result (λ text. text.items ≡ header language (map (λ n. n.items) names.now)) }
{
    let mut text = Vec::new(alloc);
    add_in(&mut text, language, C_HEAD, RUST_HEAD)?;
    add_rules(&mut text, language, names)?;
    add_constant(&mut text, language, b"RULES", names.len())?;
    add_first_rules(&mut text, language, names)?;
    Ok(text)
}

/// The header of rules.
fn header_of(alloc: Global, language: Language, rules: &[Rule]) -> Result<Vec<u8>, AllocError>
    ensures { IfOk result (λ text. text.items ≡ header language (called (map rule_of rules.now))) }
{
    let names = called(alloc, rules)?;
    header(alloc, language, names.as_slice())
}

/// Writes a constant for each rule of the specification that a text spells, by its name or its line, and for rules that are called
/// the same one alone; then which rules these are. A text that spells no specification is refused, and then nothing is written.
/// The limits count for nothing.
#[tactic(auto, using(crate::proofs::ReadAlone::read_alone))]
pub fn tell_header<K: Sink>(
    alloc: Global,
    text: &[u8],
    options: Options,
    language: Language,
    sink: &mut K,
) -> Result<(), LookError>
    requires { K.failures sink.old < 2 ^ 64 - 1 }
    ensures told { TellsHeader K.wrote options language text.now sink.old sink.new result }
    ensures failures { K.failures sink.new ≡ K.failures sink.old + look_fault_count result }
{
    let spec = read_text(alloc, text, options)?;
    let lines = match header_of(alloc, language, spec.rules()) {
        Err(_) => return Err(LookError::OutOfMemory),
        Ok(lines) => lines,
    };
    match sink.put(lines.as_slice()) {
        Err(_) => Err(LookError::Write),
        Ok(()) => Ok(()),
    }
}
