//! What a program in C holds of a loaded table.
ghost use Rattle.std.specs.Prelude.{◌≡◌, Some, None, is_some, IfSome};
ghost use Rattle.liblex_calls.specs.declared.rules.Rules.{Rules};

use crate::loose::Loose;
use crate::rules::Rules;
use crate::rules_holder::RulesHolder;
use std::alloc::Global;
use std::mem;

/// What a program in C holds of a loaded table, loaded or not.
#[repr(C)]
pub struct LoadedTables {
    /// Whether rules are held.
    is_loaded: bool,
    pub(crate) place: RulesHolder,
    ghost told: { is_loaded ≡ is_some place.value },
}

impl LoadedTables {
    ghost use Rattle.liblex_calls.specs.Handles.{loaded_in};

    /// One that holds none.
    pub fn unloaded() -> LoadedTables
        ensures { loaded_in result ≡ None }
    {
        LoadedTables {
            is_loaded: false,
            place: RulesHolder::empty(),
        }
    }

    /// Unloads it, and gives its memory back: for callers in Rattle, who have to end what they own.
    pub fn unload(self, alloc: Global) {
        match self.into_box(alloc) {
            None => {}
            Some(_) => {}
        }
    }

    /// One that holds rules.
    fn holding(rules: Box<Rules>) -> LoadedTables
        ensures { result.place.value ≡ Some rules.value }
    {
        LoadedTables {
            is_loaded: true,
            place: RulesHolder::filled(Loose::of(rules)),
        }
    }

    /// The rules, where it holds any.
    fn into_box(self, alloc: Global) -> Option<Box<Rules>>
        ensures value { (r : Rules) → self.place.value ≡ Some r → IfSome result (λ b. b.value ≡ r) }
        ensures is_some { is_some result ≡ is_some self.place.value }
    {
        let LoadedTables { is_loaded, place } = self;
        if is_loaded {
            Some(place.emptied(alloc).into_box())
        } else {
            place.let_go();
            None
        }
    }
}

/// Takes what is held, and leaves none there.
pub(crate) fn take(alloc: Global, tables: &mut LoadedTables) -> Option<Box<Rules>>
    ensures closed { tables.new.place.value ≡ None }
    ensures value { (r : Rules) → tables.old.place.value ≡ Some r → IfSome result (λ b. b.value ≡ r) }
    ensures is_some { is_some result ≡ is_some tables.old.place.value }
{
    mem::replace(tables, LoadedTables::unloaded()).into_box(alloc)
}

/// Puts rules into one that holds none.
pub(crate) fn put(tables: &mut LoadedTables, held: Box<Rules>)
    requires { tables.old.place.value ≡ None }
    ensures { tables.new.place.value ≡ Some held.value }
{
    let LoadedTables {
        is_loaded: _,
        place,
    } = mem::replace(tables, LoadedTables::holding(held));
    place.let_go();
}
