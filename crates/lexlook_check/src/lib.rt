//! Every fault of a specification, not the first alone: what `lexlook check` tells.
//!
//! - `error`: why nothing is told, or not all, and how the program reports it.
//! - `adding`: messages that are put together of parts.
//! - `reader`: a reader of specifications, known by what it answers of a text. That of lex is one.
//! - `leaving`: the text in which the lines of a rule are empty.
//! - `finding`: the faults that a reader answers of a text, each behind that of the text without the rules before.
//! - `returns`: carriage returns that end no line.
//! - `unused`: definitions that no pattern uses.
//! - `line_walks`: rules that walk a line at each of its bytes.
//! - `case_ranges`: ranges from an upper to a lower case letter.
//! - `flex_trails`: trailing context that flex takes otherwise.
//! - `bar_trails`: trailing context behind a rule whose action is `|`, which it takes otherwise too.
//! - `end_rules`: `<<EOF>>` rules whose action does not end the scan.
//! - `named_trails`: definitions at the end of trailing context, which it reads in no parentheses.
//! - `empty_heads`: rules with trailing context whose text may be empty, which it matches again and again.
//! - `idle_ends`: `<<EOF>>` rules that serve no condition, since each has one of its own.
//! - `differences`: these three, of a text that spells a specification.
//! - `copies`: what the default rule copies in each condition, and where it is not to.
//! - `conditions`: conditions that no action enters, or leaves, and exclusive ones in which the default rule copies.
//! - `notices`: what is warned of in patterns and definitions, beside what lex warns of.
//! - `takings`: by which rules the texts of one are taken that cannot be matched.
//! - `weights`: how many positions there are where a limit is passed, and which rule has the most.
//! - `checking`: the faults, the limit that the automaton of what is left passes, and the warnings: `check`.
//! - `places`: the files, as one text, and in which of them a line stands.
//! - `source`: the line of a fault as it stands, with a mark under its place.
//! - `hints`: what is expected where a fault is.
//! - `words`: the word at the place of a fault that has no meaning there, and the nearest one that has.
//! - `remarks`: what is said of what stands at the place of a fault, where that is known from flex or from elsewhere.
//! - `homes`: where the name at the place of a fault is defined or declared.
//! - `findings`: what is told of a text, in order of place.
//! - `lines`: the lines of what was found.
//! - `json`: the same as objects of JSON.
//! - `telling`: what is written of files, `tell_check`.
//! - `laws`: nothing is told just of a specification within the limits, in which nothing is copied that is not to be;
//!   worked examples.
//!
//! It promises that the first fault is the reader's own, kind and line, and that each other one is the reader's of what the
//! definitions of `specs/Leaving` leave of the text. What a fault is, at which line and where in it, lexspec says. Words of
//! lines are in `specs/CheckLines` and `specs/Hints`. It is for lexlook alone, and lex's own lines stay as they are.
//!
//! - **The reader is one call.** It is asked again of each text that is left, so no second reader has to agree with it. That
//!   takes a reading for each fault, and 100 faults are the most.
//! - **What is found is said of any reader** (`SpecReader`). So no body can tell a kind that the reader did not.
//! - **A rule has the line that its fault tells, and the lines behind it that are empty or begin with a blank or a `}`.** No
//!   rule begins so, but one of `}`. An action in braces whose lines begin at the margin is not left out whole, and what
//!   is left of it may be told too. Braces are not counted: one in a quoted pattern would leave out all that follows.
//! - **Where nothing can be left out, the fault is the last**: that of a text without `%%`, and of one that is too long.
//! - **A column is told of patterns**, by lexspec, and of a word that has no meaning where it stands, by lexlook_text. It counts
//!   bytes, and a mark stands under a blank for each byte before it, or a tab.
//! - **All is written in order of place**, by two stable sorts. So lex's own fault may stand behind one that it brought.
//! - **Warnings of patterns are of the text alone**, by their pieces: the reader keeps no places of what it takes. Which lines
//!   are rules the reader says.
//! - **What is left out may be missed elsewhere.** Without the line of a definition each rule that uses the name is at fault.
//!   Of conditions nothing is told where a rule was left out: it may be the one that enters or leaves them.
//! - **Where no byte is to be copied, conditions are told by their numbers**, and each is looked for in the text. So that nothing is
//!   told means that nothing is copied, whatever lines declare.
//! - **A condition is warned of at its name**, where it is declared. Its number is that of the condition with this name.
#![tactic(auto)]

mod adding;
mod bar_trails;
mod case_ranges;
mod checking;
mod conditions;
mod copies;
mod differences;
mod empty_heads;
mod end_rules;
mod error;
mod finding;
mod findings;
mod flex_trails;
mod hints;
mod homes;
mod idle_ends;
mod json;
mod laws;
mod leaving;
mod line_walks;
mod lines;
mod named_trails;
mod notices;
mod places;
mod reader;
mod remarks;
mod returns;
mod source;
mod takings;
mod telling;
mod unused;
mod weights;
mod words;

pub use checking::{Checked, check};
pub use error::CheckError;
pub use finding::MAX_FAULTS;
pub use laws::{
    examples_of_conditions, examples_of_differences, examples_of_flex_rules, examples_of_leaving,
    examples_of_notices, examples_of_warned_rules, examples_of_words, nothing_told,
};
pub use notices::{Notice, NoticeKind};
pub use places::SourceFile;
pub use takings::Taking;
pub use telling::{Form, tell_check};
pub use weights::{RuleWeight, Weights};
