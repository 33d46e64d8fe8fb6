//! The positions of a pattern: the places of it that read a byte.
ghost use Rattle.std.specs.Prelude.{◌≡◌, ◌<◌, ◌≤◌, ◌^◌, min, map, IfSome, IfNone};
ghost use Rattle.lex_semantics.specs.Positions.{positions, positions_of};
ghost use Rattle.lex_semantics.specs.Shapes.{nodes_of};
ghost use Rattle.lex_semantics.specs.Tree.{trees};
ghost use Rattle.lexre.specs.Counting.{capped_nodes};
ghost use Rattle.lexre.specs.Views.{parts_of, tree_of};

use crate::pattern::{Operands, Pattern};

/// A count above this is as good as this.
const CAP: u64 = 1 << 32;

/// How many positions the pattern has: one for each set, in each copy that a repetition counts. None exactly where
/// there are more than 4,294,967,295.
pub fn positions(pattern: &Pattern) -> Option<u32>
    ensures found { IfSome result (λ n. n ≡ positions (tree_of pattern.now)) }
    ensures none { IfNone result (2 ^ 32 ≤ positions (tree_of pattern.now)) }
{
    u32::try_from(capped_positions(pattern)).ok()
}

/// How many positions the pattern has, up to 4,294,967,296.
#[cycle(positions)]
fn capped_positions(pattern: &Pattern) -> u64
    ensures { result ≡ min (2 ^ 32) (positions (tree_of pattern.now)) }
{
    match pattern {
        Pattern::Empty => 0,
        Pattern::Set(_) => 1,
        Pattern::Cat(parts) => positions_in(parts),
        Pattern::Alt(parts) => positions_in(parts),
        Pattern::Star(inner) => capped_positions(inner),
        Pattern::Repeat(inner, least, most) => {
            let copies = match most {
                Some(most) => *most,
                None => (*least).max(1),
            };
            (u64::from(copies) * capped_positions(inner)).min(CAP)
        }
    }
}

/// Parts without sets are not looked at.
#[cycle(positions)]
fn positions_in(parts: &Operands<Pattern>) -> u64
    ensures { result ≡ min (2 ^ 32) (positions_of (parts_of parts.now)) }
{
    if parts.is_bare() {
        return 0;
    }
    capped_positions_of(parts.items())
}

/// How many positions the patterns have together, up to 4,294,967,296.
#[cycle(positions)]
fn capped_positions_of(parts: &[Pattern]) -> u64
    ensures { result ≡ min (2 ^ 32) (positions_of (trees (map tree_of parts.now))) }
{
    let mut total = 0;
    for part in parts {
        total = (total + capped_positions(part)).min(CAP);
    }
    total
}

/// How many nodes the pattern has, up to 4,294,967,296.
#[cycle(nodes)]
pub(crate) fn capped_nodes(pattern: &Pattern) -> u64
    ensures { result ≡ capped_nodes (tree_of pattern.now) }
{
    match pattern {
        Pattern::Empty | Pattern::Set(_) => 1,
        Pattern::Cat(parts) => (1 + capped_nodes_of(parts.items())).min(CAP),
        Pattern::Alt(parts) => (1 + capped_nodes_of(parts.items())).min(CAP),
        Pattern::Star(inner) => (1 + capped_nodes(inner)).min(CAP),
        Pattern::Repeat(inner, _, _) => (1 + capped_nodes(inner)).min(CAP),
    }
}

/// How many nodes the patterns have together, up to 4,294,967,296.
#[cycle(nodes)]
fn capped_nodes_of(parts: &[Pattern]) -> u64
    ensures { result ≡ min (2 ^ 32) (nodes_of (trees (map tree_of parts.now))) }
{
    let mut total = 0;
    for part in parts {
        total = (total + capped_nodes(part)).min(CAP);
    }
    total
}
