//! The reader of a rule up to its action: conditions, trees and cut. (POSIX, lex, Rules in lex; flex, Patterns.)
ghost use Rattle.std.specs.Prelude.{◌≡◌, ◌≢◌, ℕ, ◌≤◌, true, List, length, Option, Some, None};
ghost use Rattle.std.specs.Prelude.{option_map, IfOk, IfErr, IfSome, OnErr, OnOk};
ghost use Rattle.lex_semantics.specs.Tree.{Tree};
ghost use Rattle.lex_semantics.specs.Shapes.{IsSoundTree};
ghost use Rattle.lexre.specs.Views.{tree_of};
ghost use Rattle.lexre.specs.Spelling.{Spells};
ghost use Rattle.lex_semantics.specs.Reading.{after_blanks};
ghost use Rattle.lexspec.specs.WaitingRules.{IsTrail};
ghost use Rattle.lexspec.specs.Items.{starts_rule, action_at};
ghost use Rattle.lex_semantics.specs.Sound.{IsCutOf};
ghost use Rattle.lexspec.specs.RuleViews.{cut_of};
ghost use Rattle.lexspec.specs.SubjectViews.{trailing_of};
ghost use Rattle.lexspec.specs.ItemReads.{NoRules, NoSides, ReadsItem};
ghost use Rattle.lexspec.specs.KeptNames.{AreKept};
ghost use Rattle.lexspec.specs.SoundSides.{HasSoundFront};
ghost use Rattle.lex_semantics.specs.Sound.{AreSoundSides};
ghost use Rattle.lexspec_lines.specs.Outcome.{UnlessMemory};
ghost use Rattle.lexre_bytes.specs.declared.refusals.SpecErrorKind.TheVariants.{DanglingBar, Unclosed};
ghost use Rattle.lex_semantics.specs.Limits.{max_conditions};

use crate::action_text::split_action;
use crate::condition_list::condition_numbers;
use crate::cuts::cut_by;
use crate::rule::Rule;
use crate::subject::{Subject, Trailing, conditions_at, subject_at};
use lex_machine::Cut;
use lexre::{ByteSet, NameCache, Pattern, PatternError, read_with_names};
use lexspec_lines::{Declarations, SpecErrorKind, skip_blanks};
use std::alloc::Global;

/// A rule without its statements, or the conditions of an `<<EOF>>` rule.
#[derive(Drop)]
pub(crate) enum Front {
    Matching(Rule),
    AtEnd(Option<Vec<u8>>),
}

/// A rule with the text of its action, and what follows that.
#[derive(Drop)]
pub(crate) struct RuleText<'a> {
    pub(crate) front: Front,
    pub(crate) action: &'a [u8],
    pub(crate) rest: &'a [u8],
}

/// The trees of a pattern's sides, and how they cut a match.
#[derive(Drop)]
struct Sides {
    head: Pattern,
    trail: Option<Pattern>,
    cut: Cut,
}

/// The pattern of a text, which stands at this place of the rule's line.
fn read_side(
    alloc: Global,
    declarations: &Declarations,
    names: &mut NameCache,
    text: &[u8],
    at: usize,
) -> Result<Pattern, SpecErrorKind>
    requires known_so_far { AreKept declarations.now names.old }
    ensures found { IfOk result (λ p. Spells declarations.now.options declarations.now.definitions text.now
        (tree_of p)) }
    ensures sound { IfOk result (λ p. IsSoundTree (tree_of p)) }
    ensures known { OnOk result (AreKept declarations.now names.new) }
    ensures none { IfErr result (λ e. UnlessMemory e ((t : Tree)
        → Spells declarations.now.options declarations.now.definitions text.now t → ⊥)) }
    ensures no_bar { IfErr result (λ e. e ≢ DanglingBar) }
{
    let Declarations {
        options,
        definitions,
        ..
    } = declarations;
    match read_with_names(alloc, text, definitions, *options, names) {
        Ok(pattern) => Ok(pattern),
        Err(fault) => Err(SpecErrorKind::Pattern(PatternError {
            kind: fault.kind,
            at: fault.at.saturating_add(at),
        })),
    }
}

/// The trailing context of a rule.
fn read_trail(
    alloc: Global,
    declarations: &Declarations,
    names: &mut NameCache,
    trail: Trailing<'_>,
    at: usize,
) -> Result<Option<Pattern>, SpecErrorKind>
    requires known_so_far { AreKept declarations.now names.old }
    ensures found { IfOk result (λ t. IsTrail declarations.now.options declarations.now.definitions
        (trailing_of trail.entry) (option_map tree_of t)) }
    ensures sound { IfOk result (λ t. IfSome t (λ p. IsSoundTree (tree_of p))) }
    ensures known { OnOk result (AreKept declarations.now names.new) }
    ensures none { IfErr result (λ e. UnlessMemory e ((t : Option Tree)
        → IsTrail declarations.now.options declarations.now.definitions (trailing_of trail.entry) t → ⊥)) }
    ensures no_bar { IfErr result (λ e. e ≢ DanglingBar) }
{
    match trail {
        Trailing::None => Ok(None),
        Trailing::LineEnd => Ok(Some(Pattern::Set(ByteSet::of(b'\n')))),
        Trailing::Pattern(text) => match read_side(alloc, declarations, names, text, at) {
            Ok(pattern) => Ok(Some(pattern)),
            Err(kind) => Err(kind),
        },
    }
}

/// The trees of a pattern's sides, of which the head stands at this place of the rule's line. `Pattern` faults of the
/// head and then of the trailing context come before `VariableTrailing`.
fn read_sides(
    alloc: Global,
    declarations: &Declarations,
    names: &mut NameCache,
    head: &[u8],
    trail: Trailing<'_>,
    at: usize,
) -> Result<Sides, SpecErrorKind>
    requires known_so_far { AreKept declarations.now names.old }
    ensures head { IfOk result (λ s. Spells declarations.now.options declarations.now.definitions head.now
        (tree_of s.head)) }
    ensures trail { IfOk result (λ s. IsTrail declarations.now.options declarations.now.definitions
        (trailing_of trail.entry) (option_map tree_of s.trail)) }
    ensures cut { IfOk result (λ s. IsCutOf (tree_of s.head) (option_map tree_of s.trail) (cut_of s.cut)) }
    ensures sound { IfOk result (λ s. AreSoundSides (tree_of s.head) (option_map tree_of s.trail)) }
    ensures known { OnOk result (AreKept declarations.now names.new) }
    ensures none { IfErr result (λ e. UnlessMemory e (NoSides declarations.now head.now (trailing_of trail.entry))) }
    ensures no_bar { IfErr result (λ e. e ≢ DanglingBar) }
{
    let after = at.saturating_add(head.len()).saturating_add(1);
    let head = match read_side(alloc, declarations, names, head, at) {
        Ok(pattern) => pattern,
        Err(kind) => return Err(kind),
    };
    let trail = match read_trail(alloc, declarations, names, trail, after) {
        Ok(pattern) => pattern,
        Err(kind) => return Err(kind),
    };
    match cut_by(&head, &trail) {
        Some(cut) => Ok(Sides { head, trail, cut }),
        None => Err(SpecErrorKind::VariableTrailing),
    }
}

/// The rule that begins a text, at the line with this number. Its faults are reported in this order:
/// `UnknownCondition`, `BadEofRule`, `Pattern` of the cutting, `TwoTrailing`, `Pattern` of the head and of the trailing
/// context, `VariableTrailing`, `Unclosed`.
pub(crate) fn read_rule_text<'a>(
    alloc: Global,
    declarations: &Declarations,
    names: &mut NameCache,
    text: &'a [u8],
    line: u32,
) -> Result<RuleText<'a>, SpecErrorKind>
    requires starts { starts_rule text.now ≡ true }
    requires known_so_far { AreKept declarations.now names.old }
    requires few { length declarations.now.conditions.items ≤ max_conditions }
    ensures found { IfOk result (λ x. ReadsItem declarations.now line text.now x) }
    ensures sound { IfOk result (λ x. HasSoundFront x.front) }
    ensures known { OnOk result (AreKept declarations.now names.new) }
    ensures none { IfErr result (λ e. UnlessMemory e (NoRules declarations.now text.now)) }
    ensures no_bar { IfErr result (λ e. e ≢ DanglingBar) }
{
    let Some((asked, after_list)) = conditions_at(text) else {
        return Err(SpecErrorKind::UnknownCondition);
    };
    let conditions = match condition_numbers(alloc, &declarations.conditions, asked) {
        Ok(numbers) => numbers,
        Err(kind) => return Err(kind),
    };
    let at = text.len().saturating_sub(after_list.len());
    let (subject, after) = match subject_at(after_list, at) {
        Ok(found) => found,
        Err(kind) => return Err(kind),
    };
    match subject {
        Subject::AtEnd => with_action(Front::AtEnd(conditions), after),
        Subject::Matching {
            anchored,
            head,
            trail,
        } => {
            let place = at.saturating_add(usize::from(anchored));
            match read_sides(alloc, declarations, names, head, trail, place) {
                Ok(sides) => {
                    let Sides { head, trail, cut } = sides;
                    let rule = Rule {
                        line,
                        conditions,
                        anchored,
                        head,
                        trail,
                        cut,
                        statements: Vec::new(alloc),
                    };
                    with_action(Front::Matching(rule), after)
                }
                Err(kind) => Err(kind),
            }
        }
    }
}

/// The rule with the action that follows its pattern. An action that is left open is `Unclosed`.
fn with_action(front: Front, after: &[u8]) -> Result<RuleText<'_>, SpecErrorKind>
    ensures front { IfOk result (λ x. x.front ≡ front) }
    ensures action { IfOk result (λ x. ◌≡◌ {A = Option (List ℕ
        × List ℕ)} (action_at (after_blanks after.now)) (Some (x.action.now, x.rest.now))) }
    ensures none { OnErr result (◌≡◌ {A = Option (List ℕ
        × List ℕ)} (action_at (after_blanks after.now)) None) }
    ensures fault { IfErr result (λ e. e ≡ Unclosed) }
{
    match split_action(skip_blanks(after)) {
        Some((action, rest)) => Ok(RuleText {
            front,
            action,
            rest,
        }),
        None => Err(SpecErrorKind::Unclosed),
    }
}
