//! How much of a match is the text. (flex, Patterns: `r/s`. The bound is this project's.)
ghost use Rattle.std.specs.Prelude.{ℕ, Option, Some, None, option_map, IfSome, IfNone};
ghost use Rattle.lex_semantics.specs.Shapes.{IsSoundTree};
ghost use Rattle.lexre.specs.Views.{tree_of};
ghost use Rattle.lex_semantics.specs.Sound.{HasFixed, IsCutOf};
ghost use Rattle.lexspec.specs.RuleViews.{cut_of};
ghost use Rattle.lex_semantics.specs.Spec.{Cut as Meant};

use crate::fixed::one_length;
use lex_machine::Cut;
use lexre::Pattern;

/// The length of each word of the pattern, where they have one length that is not too great.
fn fixed_length(pattern: &Pattern) -> Option<u16>
    requires { IsSoundTree (tree_of pattern.now) }
    ensures found { IfSome result (λ n. HasFixed (tree_of pattern.now) n) }
    ensures none { IfNone result ((n : ℕ) → HasFixed (tree_of pattern.now) n → ⊥) }
{
    one_length(pattern)
}

/// The cut of a rule without trailing context, or by a side of fixed length, the head if it is such a side. None where
/// neither side is.
pub(crate) fn cut_by(head: &Pattern, trail: &Option<Pattern>) -> Option<Cut>
    requires head { IsSoundTree (tree_of head.now) }
    requires trail { IfSome trail.now (λ p. IsSoundTree (tree_of p)) }
    ensures found { IfSome result (λ cut. IsCutOf (tree_of head.now) (option_map tree_of trail.now) (cut_of cut)) }
    ensures none { IfNone result ((cut : Meant) → IsCutOf (tree_of head.now) (option_map tree_of trail.now) cut → ⊥) }
{
    let Some(after) = trail else {
        return Some(Cut::Whole);
    };
    if let Some(count) = fixed_length(head) {
        return Some(Cut::Head(count));
    }
    let count = fixed_length(after)?;
    Some(Cut::Trail(count))
}
