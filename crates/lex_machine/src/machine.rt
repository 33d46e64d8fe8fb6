//! What a scan obeys.
ghost use Rattle.std.specs.Prelude.{◌≡◌, ℕ, ◌<◌, [], ◌∷◌, map, true, false, IfSome};
ghost use Rattle.lex_semantics.specs.Machine.{Machine as MachineModel};
ghost use Rattle.lex_semantics.specs.Spec.{More};
ghost use Rattle.lex_machine.specs.Views.{statement_of, end_action_of, cut_of};
ghost use Rattle.lex_machine.specs.Glances.{Leads, Gists, FirstDoes, FirstBegins, OnlyBefore};
ghost use Rattle.lex_machine.specs.Quiets.{NoneFits};
ghost use Rattle.lex_machine.specs.Singles.{IsDropped, IsCopied, Singles};
ghost use Rattle.lex_semantics.specs.MachineLaws.{MachineLaws, StaysBelow, NoReject, SomeReject};

use crate::action::{EndAction, Statement};
use crate::cut::Cut;
use crate::glance::{BegunMore, Gist, Way};

/// States, the rules that they accept, and what these do.
pub trait Machine {
    ghost machine: { Self → MachineModel };

    /// Its states are the numbers below this one.
    ghost states: { Self → ℕ };

    ghost laws: { (m : Self) → MachineLaws (machine m) };

    ghost below: { (m : Self) → StaysBelow (machine m) (states m) };

    /// How many start conditions there are: they are the numbers below this one.
    fn conditions(&self) -> usize
        ensures { result ≡ (machine self.now).conditions };

    /// How many rules there are, the default rule not counted: they are the numbers below this one.
    fn rules(&self) -> usize
        ensures { result ≡ (machine self.now).count };

    /// The state where a match starts in a condition, at the start of a line or not.
    fn start(&self, condition: u8, line_start: bool) -> u32
        requires { condition < (machine self.now).conditions }
        ensures state { result ≡ (machine self.now).start condition line_start }
        ensures known { result < states self.now };

    /// The state after one byte more.
    fn step(&self, state: u32, byte: u8) -> u32
        requires { state < states self.now }
        ensures state { result ≡ (machine self.now).next state byte }
        ensures known { result < states self.now };

    /// Whether some word that is not empty leads from the state to one that accepts.
    fn goes_on(&self, state: u32) -> bool
        requires { state < states self.now }
        ensures { result ≡ (machine self.now).goes_on state };

    /// The rules that the state accepts, ascending.
    fn accepts(&self, state: u32) -> &[u32]
        requires { state < states self.now }
        ensures { result.now ≡ (machine self.now).accepts state };

    /// Whether it is known that no text that leads to the state fits a rule there.
    fn fits_none(&self, state: u32) -> bool
        requires { state < states self.now }
        ensures { result ≡ true → NoneFits (machine self.now) state }
    {
        self.accepts(state).is_empty()
    }

    /// How much of a match of the rule is the text, and what is done.
    fn rule(&self, rule: u32) -> (Cut, &[Statement])
        requires { rule < (machine self.now).count }
        ensures cut { cut_of result.0 ≡ (machine self.now).cut rule }
        ensures statements { map statement_of result.1.now ≡ (machine self.now).statements rule };

    /// What is done at the end of the input.
    fn eof(&self, condition: u8) -> &EndAction
        requires { condition < (machine self.now).conditions }
        ensures { end_action_of result.now ≡ (machine self.now).ending condition };

    /// Whether some rule has REJECT.
    fn rejects(&self) -> bool
        ensures no { result ≡ false → NoReject (machine self.now) }
        ensures yes { result ≡ true → SomeReject (machine self.now) };

    /// A walk over bytes up to the first after which the machine goes on no more, if it is found at a glance.
    fn way(&self, first: u32, bytes: &[u8]) -> Option<Way<'_>>
        requires { first < states self.now }
        ensures way { IfSome result (Leads (machine self.now) first bytes.now) }
        ensures known { IfSome result (λ way. way.state < states self.now) }
        ensures known_before { IfSome result (λ way. way.before < states self.now) }
    {
        let _bytes = bytes;
        let _first = first;
        None
    }

    /// The only state that leads to this one by a byte, where that is known.
    fn only_before(&self, state: u32) -> Option<u32>
        requires { state < states self.now }
        ensures { IfSome result (OnlyBefore (machine self.now) (states self.now) state) }
    {
        let _state = state;
        None
    }

    /// What is known of the first rule that the state accepts.
    fn gist(&self, state: u32) -> Gist<'_>
        requires { state < states self.now }
        ensures { Gists (machine self.now) state result }
    {
        let _state = state;
        Gist::Any
    }

    /// Whether it is known that the first rule that the state accepts keeps all of a match, and does yymore alone.
    fn does_more(&self, state: u32) -> bool
        requires { state < states self.now }
        ensures { result ≡ true → FirstDoes (machine self.now) state (More ∷ []) }
    {
        let _state = state;
        false
    }

    /// What the first rule that the state accepts keeps of a match, and the condition that it sets, where it is known that
    /// it does yymore then, and no more.
    fn begins_more(&self, state: u32) -> Option<BegunMore>
        requires { state < states self.now }
        ensures { IfSome result (λ begun. FirstBegins (machine self.now) state (cut_of begun.cut) begun.condition) }
    {
        let _state = state;
        None
    }

    /// Whether most bytes are matches by themselves in a condition, which a scan drops or copies. It is asked before the
    /// next two, and says only what pays.
    fn has_singles(&self, condition: u8) -> bool
        requires { condition < (machine self.now).conditions }
    {
        let _condition = condition;
        false
    }

    /// Some of the first bytes, each a match by itself that is dropped: how many are passed.
    fn dropped(&self, condition: u8, first: u32, bytes: &[u8]) -> usize
        requires condition { condition < (machine self.now).conditions }
        requires first { first < states self.now }
        ensures { Singles IsDropped (machine self.now) condition first bytes.now result }
    {
        let _condition = condition;
        let _first = first;
        let _bytes = bytes;
        0
    }

    /// Some of the first bytes, each a match by itself that is copied: how many are passed.
    fn copied(&self, condition: u8, first: u32, bytes: &[u8]) -> usize
        requires condition { condition < (machine self.now).conditions }
        requires first { first < states self.now }
        ensures { Singles IsCopied (machine self.now) condition first bytes.now result }
    {
        let _condition = condition;
        let _first = first;
        let _bytes = bytes;
        0
    }
}
