//! What holds rules for the handle.
ghost use Rattle.std.specs.Prelude.{◌≡◌, Some, None, Option};
ghost use Rattle.std.specs.Coded.{coded_option};
ghost use Rattle.liblex_calls.specs.Owned.{owned_at};
ghost use Rattle.liblex_calls.specs.contracts.rules.Rules.{the_row};
ghost use Rattle.liblex_calls.specs.declared.rules.Rules.{Rules};

use crate::loose::Loose;
use crate::rules::Rules;
use std::alloc::Global;
use std::marker::Model;

/// Holds rules, or nothing: a pointer that owns them, or none.
#[repr(C)]
pub struct RulesHolder {
    at: *mut u8,
    pub(crate) ghost value: { Option Rules } by { coded_option the_row.coded },
}

impl Model for RulesHolder {
    ghost also_owns = { λ l. owned_at the_row l.at l.value };
}

impl RulesHolder {
    /// One that holds nothing.
    pub(crate) fn empty() -> RulesHolder
        ensures { result.value ≡ None }
    {
        RulesHolder {
            at: std::ptr::null_mut(),
        }
    }

    /// One that holds what a pointer owns.
    pub(crate) fn filled(rules: Loose<Rules, Global>) -> RulesHolder
        ensures { result.value ≡ Some rules.value }
    {
        let Loose { at, alloc: _ } = rules;
        RulesHolder { at: at as *mut u8 }
    }

    /// The pointer again, of one that is filled.
    pub(crate) fn emptied(self, alloc: Global) -> Loose<Rules, Global>
        requires { (v : Rules) × (self.value ≡ Some v) }
        ensures { self.value ≡ Some result.value }
    {
        let RulesHolder { at } = self;
        Loose {
            at: at as *mut Rules,
            alloc,
        }
    }

    /// Lets one go that holds nothing.
    pub(crate) fn let_go(self)
        requires { self.value ≡ None }
    {
        let RulesHolder { at: _ } = self;
    }
}
