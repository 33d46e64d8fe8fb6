//! Position automata of lex (Glushkov's): the positions of the rules of a specification, which of them come first, come
//! last and follow one another, and one step of the automaton without a table of what follows what. It knows no sets of
//! positions.
//!
//! The modules, in an order for reading:
//! - `counting`: how many positions rules have, up to a limit.
//! - `layout`: patterns laid out for walks, each part with how many positions it has.
//! - `walk`: one step over a part: which positions come next, and whether it is left.
//! - `letter_copies`: the same over copies of one letter, by their positions.
//! - `rules`: one step over all rules.
//! - `owners`: the rule that has a position.
//! - `letters`: the bytes that each position reads.
//! - `laws`: the position automaton reads what the patterns do; how the last positions of a specification move;
//!   worked examples.
//!
//! It promises that a step leads to the positions that follow by the definitions, and leaves the rules that have a last
//! one. lexauto alone stands on it. How a rule is laid out and walked may change alone. The positions may not:
//! lex_semantics defines them.
//!
//! Decided here:
//! - No followpos relation is stored. What follows a set of positions is found by one walk over the trees of the rules.
//!   So memory grows with the positions and not with their square. Parts without positions cost nothing.
//! - A walk goes from rule to rule by the last positions. A rule that is not entered, and has none of them, is passed
//!   over.
//! - Copies of a letter are walked by their positions, and no part is looked at for each copy. If such a letter may be
//!   left out and its first copy is entered, so is each other, and the last positions among them are passed over.
//! - A rule is laid out with few parts. Of operators on operators one is laid out, which does what they do together. A
//!   part without positions drops out of a series and makes a choice optional. A series or choice of one part is that
//!   part. The positions, what follows them and what is accepted stay as they are.
#![tactic(auto)]

mod counting;
mod laws;
mod layout;
mod letter_copies;
mod letters;
mod owners;
mod rules;
mod walk;

pub use counting::count_positions;
pub use laws::{
    examples_of_positions, first_positions, live_positions, next_positions, one_step,
    one_step_of_rules, position_automaton, words_that_fit,
};
pub use letters::{letters_of, mask_of};
pub use owners::{Owner, owners_of};
pub use rules::{LaidRule, Walked, enter_rules, lay_rules, pass_rules};
