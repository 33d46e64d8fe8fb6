//! The length of all words of a pattern, where they have one. No part is looked at once there is no such length.
ghost use Rattle.std.specs.Prelude.{◌≡◌, ◌≤◌, map, IfSome};
ghost use Rattle.lex_semantics.specs.Shapes.{IsSoundTree, AreSoundTrees, HasPart};
ghost use Rattle.lex_semantics.specs.Tree.{Tree, Repeat, trees};
ghost use Rattle.lexre.specs.Views.{tree_of};
ghost use Rattle.lexspec.specs.Fixed.{HasOne, JoinHasOne, AllHaveOne, TellsLength};

use lexre::Pattern;

/// The length of each word of the pattern, where they have one length that is not too great.
#[cycle(fixed)]
pub(crate) fn one_length(pattern: &Pattern) -> Option<u16>
    requires { IsSoundTree (tree_of pattern.now) }
    ensures { TellsLength (HasOne (tree_of pattern.now)) result }
{
    match pattern {
        Pattern::Empty => Some(0),
        Pattern::Set(_) => Some(1),
        Pattern::Cat(parts) => {
            if parts.is_bare() {
                return Some(0);
            }
            joined_length(parts.items())
        }
        Pattern::Alt(parts) => {
            if parts.is_bare() {
                return Some(0);
            }
            common_length(parts.items())
        }
        Pattern::Star(inner) => repeated_length(one_length(inner), 0, None),
        Pattern::Repeat(inner, least, most) => repeated_length(one_length(inner), *least, *most),
    }
}

/// The sum of the lengths of these, where each has one.
#[cycle(fixed)]
fn joined_length(parts: &[Pattern]) -> Option<u16>
    requires { AreSoundTrees (trees (map tree_of parts.now)) }
    ensures { TellsLength (JoinHasOne (trees (map tree_of parts.now))) result }
{
    let mut total: u16 = 0;
    for part in parts {
        let one = one_length(part)?;
        total = total.checked_add(one)?;
    }
    Some(total)
}

/// The length that all of these have.
#[cycle(fixed)]
fn common_length(parts: &[Pattern]) -> Option<u16>
    requires sound { AreSoundTrees (trees (map tree_of parts.now)) }
    requires some { HasPart (trees (map tree_of parts.now)) }
    ensures { TellsLength (AllHaveOne (trees (map tree_of parts.now))) result }
{
    let mut found: Option<u16> = None;
    for part in parts {
        let one = one_length(part)?;
        if found.unwrap_or(one) != one {
            return None;
        }
        found = Some(one);
    }
    found
}

/// The length of what is repeated between these bounds, where one copy has this length.
fn repeated_length(one: Option<u16>, least: u8, most: Option<u8>) -> Option<u16>
    ensures { (t : Tree) → IsSoundTree t → IfSome most (λ n. (least ≤ n) × (1 ≤ n))
        → TellsLength (HasOne t) one → TellsLength (HasOne (Repeat t least most)) result }
{
    let one = one?;
    if one == 0 {
        return Some(0);
    }
    let most = most?;
    if most != least {
        return None;
    }
    one.checked_mul(u16::from(most))
}
