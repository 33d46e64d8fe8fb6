//! Laws of the definitions.
ghost use Rattle.std.specs.Prelude.{◌≡◌, ◌≤◌, ℕ, Bool, List, length};
ghost use Rattle.lex_semantics.specs.Spec.{EndAction, Statement};
ghost use Rattle.lex_semantics.specs.Legal.{IsLegal};
ghost use Rattle.lexspec_actions.specs.Names.{Scope, known_in};
ghost use Rattle.lexspec_actions.specs.Actions.{SpellsAction, SpellsEndAction};
ghost use Rattle.lexspec_actions.specs.ActionExamples.{EachStatement, SeveralStatements, NoActions, EndActions};
ghost use Rattle.lex_semantics.specs.Limits.{max_status};

/// A text spells at most one action, whatever numbers the conditions have.
pub fn one_action()
    ensures { (known : Scope) (text : List ℕ) (ss tt : List Statement) → SpellsAction known text ss
        → SpellsAction known text tt → ss ≡ tt }
{}

/// A text spells at most one end action.
pub fn one_end_action()
    ensures { (known : Scope) (text : List ℕ) (e f : EndAction) → SpellsEndAction known text e
        → SpellsEndAction known text f → e ≡ f }
{}

/// An action that is spelled is legal and in normal form.
pub fn legal_actions()
    ensures { (names : List (List ℕ)) (stack : Bool) (text : List ℕ) (ss : List Statement) → 1 ≤ length names
        → SpellsAction (known_in names stack) text ss → IsLegal (length names) ss }
{}

/// The status of an end action that is spelled is one that exit may answer.
pub fn end_statuses()
    ensures { (names : List (List ℕ)) (stack : Bool) (text : List ℕ) (e : EndAction) → 1 ≤ length names
        → SpellsEndAction (known_in names stack) text e → e.status ≤ max_status }
{}

/// Worked examples of actions: what each statement spells, several of them, texts that are no action, and an end
/// action.
pub fn examples_of_actions()
    ensures each { EachStatement }
    ensures several { SeveralStatements }
    ensures none { NoActions }
    ensures ends { EndActions }
{}
