//! A scanner over any machine, any source and any sink: its turns (a match with its actions, or the end action), whole
//! runs, and the tokens of an input. Which rule matches, and REJECT, are in lexscan_matching. The bytes held, what
//! statements do, and the stack of start conditions are in lexscan_window.
//!
//! - `scan`: what a scan keeps between two turns, with its source and its sink.
//! - `turn`: one turn, of any scan.
//! - `find`: looks for the match at the place of the scan.
//! - `carry`: carries the match out, or the end action.
//! - `leave`: leaves the place of the match for that of the next one.
//! - `burst`: many turns in one loop over bytes in memory, where each rule at most writes or sets the condition.
//! - `singles`: a run of one-byte matches is passed at once, for bursts.
//! - `starts`: where the matches of a condition start, for bursts and series.
//! - `texts`: bursts where yymore keeps bytes of the text before a match, and between planned turns.
//! - `apart`: one turn in a burst whose rule is not told at a glance, but planned: with trailing context, yymore or REJECT.
//! - `glance`: one turn over bytes in memory, whose rule at most writes or sets the condition.
//! - `series`: many such turns in one loop, which lists their tokens.
//! - `further`: lets a burst go over the bytes that the source has ready.
//! - `whole`: `run`, all turns to the end.
//! - `scanner`: single turns, for callers.
//! - `attempt`: for `push` and `pull`: turns that are undone where they ask for a byte that was not fed yet.
//! - `asking`: the state after all bytes of a match that asks for more, from where the next piece goes on.
//! - `push`: a scan that is fed its input piece by piece.
//! - `pull`: a scan that is fed piece by piece, and is asked for its tokens one by one.
//! - `token`: the tokens of an input in memory, by the turns of a scanner.
//! - `laws`: a table has the tokens of its specification; worked examples of what turns ask for and of tokens in few bytes.
//!
//! It promises lexkit what a run writes, takes and holds, by relations between scan, source and sink before and after
//! (`specs/Scans`, `TurnInvariants`, `Runs`). How turns are made may be changed alone, under the contracts of `run`,
//! `Scanner`, `PushScanner` and `PullScanner`.
//!
//! Decided for this room alone; docs/DECISIONS.md has what concerns others (The scanner):
//!
//! - A burst keeps the state in which the next match starts, and no flag for the start of a line: each match had to
//!   wait for that flag. It keeps the two states too in which a match of the condition may start.
//! - What a burst knows of a match is used at once: the compiler joins each kind of rule with what it does, where
//!   little stands between.
//! - How many bytes a burst may look at halves where it used few, down to 64, and doubles where it used all, up to 8,192.
//! - A burst asks for a run of one-byte matches after a match of any length that does nothing or is ECHO: what follows a
//!   longer one is as often such a run.
//! - Marks (`memo` of lexscan_window) are used only where over 32 bytes are held: other matches pay one comparison. There
//!   a burst makes the turns that go over 32 bytes at most, since a longer walk may come to a mark. Where four such
//!   bursts in a row made none, the next 64 matches go without.
//! - The place of a match is read field by field: as one word it would wait for what the last match has set of it.
//! - A turn keeps only the rule of its match. Where its text begins is worked out from counts, and no byte is copied.
//! - A token that is told at a glance is looked for among 64 bytes that wait: most are shorter, and each look copies these.
//! - All marks are dropped where a turn is undone or refused, since its contract says nothing of them.
//! - `tokens` fills a list, and is no iterator: a struct cannot borrow from the source and the sink beside it.
#![tactic(auto)]

mod apart;
mod asking;
mod attempt;
mod burst;
mod carry;
mod find;
mod further;
mod glance;
mod laws;
mod leave;
mod pull;
mod push;
mod scan;
mod scanner;
mod series;
mod singles;
mod starts;
mod texts;
mod token;
mod turn;
mod whole;

pub use laws::{examples_of_asking, examples_of_begins, examples_of_series, table_tokens};
pub use lex_io::{ByteReader, FromBytes, FromRead, MemorySource, ReadFault, Source};
pub use lexscan_matching::{accepted, longest};
pub use lexscan_window::{Candidate, Match, MatchedRule, RunError, Window};
pub use pull::{PullScanner, Pulled, PulledToken};
pub use push::PushScanner;
pub use scanner::Scanner;
pub use series::BriefToken;
pub use token::{Token, texts_of, tokens};
pub use turn::Turn;
pub use whole::run;
