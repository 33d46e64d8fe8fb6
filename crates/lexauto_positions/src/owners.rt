//! Which rule has a position.
ghost use Rattle.std.specs.Prelude.{◌≡◌, ◌<◌, ◌^◌, length, map, IfOk};
ghost use Rattle.lex_semantics.specs.Subsets.{all_positions};
ghost use Rattle.lexauto_positions.specs.Laid.{shape_of, HaveSized};
ghost use Rattle.lexauto_positions.specs.Owners.{AreOwners};

use crate::rules::LaidRule;
use std::alloc::{AllocError, Global};

/// The rule that has a position.
#[derive(Clone, Copy)]
pub struct Owner {
    /// The number of the rule.
    pub rule: u32,
    /// The first of its positions.
    pub base: u32,
}

/// The rule of each position.
pub fn owners_of(alloc: Global, rules: &[LaidRule]) -> Result<Vec<Owner>, AllocError>
    requires sized { HaveSized rules.now }
    requires few { all_positions (map shape_of rules.now) < 2 ^ 32 }
    requires rules { length rules.now < 2 ^ 32 }
    ensures len { IfOk result (λ v. length v.items ≡ all_positions (map shape_of rules.now)) }
    ensures owners { IfOk result (λ v. AreOwners (map shape_of rules.now) v.items) }
{
    let mut owners = Vec::new(alloc);
    let mut base = 0;
    for (i, rule) in rules.iter().enumerate() {
        let owner = Owner {
            rule: i as u32,
            base: base as u32,
        };
        base += rule.size();
        owners.resize(base, owner)?;
    }
    Ok(owners)
}
