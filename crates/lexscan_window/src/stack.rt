//! The stack of start conditions.
ghost use Rattle.std.specs.Prelude.{◌≡◌, List, [], ◌∷◌, true, false, IfSome, IfNone};
ghost use Rattle.lex_semantics.specs.ActionResults.{has_room};

use arrayvec::ArrayVec;
use lex_semantics::MAX_STACK;
use std::marker::Model;

/// The conditions that pushes have put there, in an array of fixed capacity.
#[derive(Drop)]
pub struct Stack {
    conditions: ArrayVec<u8, MAX_STACK>,
}

impl Model for Stack {
    ghost use Rattle.std.specs.Prelude.{ℕ, List, reverse};

    ghost Value = { List ℕ };

    // from the top down
    ghost view = { λ s. reverse s.conditions.items };
}

impl Stack {
    /// No conditions.
    pub fn new() -> Stack
        ensures { result ≡ [] }
    {
        Stack {
            conditions: ArrayVec::new(),
        }
    }

    /// Puts a condition on top, if there is room, and answers whether there was.
    pub fn push(&mut self, condition: u8) -> bool
        ensures room { result ≡ has_room self.old }
        ensures top { result ≡ true → self.new ≡ condition ∷ self.old }
        ensures full { result ≡ false → self.new ≡ self.old }
    {
        if self.conditions.is_full() {
            return false;
        }
        self.conditions.push(condition);
        true
    }

    /// Becomes a copy of another stack.
    pub fn copy_from(&mut self, other: &Stack)
        ensures { self.new ≡ other.now }
    {
        self.conditions.clear();
        if !other.conditions.is_empty() {
            let _ = self
                .conditions
                .try_extend_from_slice(other.conditions.as_slice());
        }
    }

    /// Takes the condition on top, if there is one.
    pub fn pop(&mut self) -> Option<u8>
        ensures top { IfSome result (λ condition. self.old ≡ condition ∷ self.new) }
        ensures empty { IfNone result (self.old ≡ []) }
        ensures unchanged { IfNone result (self.new ≡ self.old) }
    {
        self.conditions.pop()
    }
}
