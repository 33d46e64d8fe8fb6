//! Laws over the definitions, and worked examples.
ghost use Rattle.std.specs.Prelude.{◌≡◌, ◌≤◌, ℕ, ◌↔◌, Bool, true, false, List, map, length};
ghost use Rattle.lex_semantics.specs.Tree.{Tree};
ghost use Rattle.lex_semantics.specs.Shapes.{IsSoundTree};
ghost use Rattle.lex_semantics.specs.Spec.{Rule, Spec};
ghost use Rattle.lexre.specs.Definitions.{Definitions};
ghost use Rattle.lexspec.specs.Items.{Item};
ghost use Rattle.lexspec.specs.RuleItems.{EndRule, AreRules};
ghost use Rattle.lex_semantics.specs.Sound.{HaveSoundSides, IsSound};
ghost use Rattle.lexspec.specs.Files.{SpellsSpec};
ghost use Rattle.lexspec.specs.Endings.{conditions_with};
ghost use Rattle.lexre.specs.declared.options.ReadOptions.{ReadOptions};
ghost use Rattle.lexspec.specs.Tests.{is_sound, sound_tree};
ghost use Rattle.lexspec.specs.FaultExamples.{NoBarWaits};
ghost use Rattle.lexspec.specs.RuleExamples.{ConditionLists, Actions, Sides};
ghost use Rattle.lexspec.specs.SpecExamples.{WholeFile, WholeSkips, ShortFile, KeyFile, NoFiles, NoRules};
ghost use Rattle.lex_semantics.specs.Limits.{max_conditions, max_rules};

/// A tree passes the test exactly if it is sound.
pub fn tested_trees()
    ensures { (t : Tree) → (sound_tree t ≡ true) ↔ IsSoundTree t }
{}

/// A specification that passes the test is sound.
pub fn tested_specifications()
    ensures { (S : Spec) → is_sound S ≡ true → IsSound S }
{}

/// A file spells at most one specification.
pub fn one_specification()
    ensures { (how : ReadOptions) (file : List ℕ) (S T : Spec) → SpellsSpec how file S → SpellsSpec how file T → S ≡ T }
{}

/// The rules that items spell, with the conditions and their ends, pass the test where each rule has sound sides, there
/// are 1 to 255 conditions, and there are at most 4,096 rules.
pub fn sound_specifications()
    ensures { (cs : List (Bool × List ℕ)) (how : ReadOptions) (stack : Bool) (defined : Definitions)
        (items : List (ℕ × Item)) (rules : List Rule) (ends : List EndRule)
        → 1 ≤ length cs → length cs ≤ max_conditions → length rules ≤ max_rules
        → AreRules (map (λ c. c.1) cs) how stack defined items rules ends false → HaveSoundSides rules
        → is_sound (record { conditions = conditions_with 0 cs ends; rules = rules }) ≡ true }
{}

/// Worked examples of condition lists, actions, and the sides of patterns.
pub fn examples_of_rules()
    ensures lists { ConditionLists }
    ensures actions { Actions }
    ensures sides { Sides }
{}

/// Worked examples of files: one with each kind of line, and where it has code; a short one with an option; one of a
/// rule; and files that spell no specification.
pub fn examples_of_specs()
    ensures whole { WholeFile }
    ensures skipped { WholeSkips }
    ensures short { ShortFile }
    ensures key { KeyFile }
    ensures none { NoFiles }
{}

/// Worked examples of lines that are no rules, in files that so spell no specification, and of one for which no `|` is
/// told.
pub fn examples_of_refused_rules()
    ensures rules { NoRules }
    ensures bar { NoBarWaits }
{}
