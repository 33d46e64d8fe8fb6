//! What a program in C or Rust calls: tables made, and scans from one buffer into another, with numbers for answers. It
//! is for liblex, whose functions make these calls; docs/C.md is for their callers.
//!
//! - `answer`: what a call answers, as a number.
//! - `flags` and `kinds`: how a specification is read, whether a stream counts lines, and the kinds of refusals, as numbers.
//! - `buffers` and `memory`: buffers of a caller, and the sink that keeps what a scan writes.
//! - `generating`: table files, made into a buffer.
//! - `machines`: the machine of a table file, laid flat.
//! - `rules`: the same, read once for any number of scans.
//! - `scanning`: scans of whole inputs.
//! - `gathering`: a scan that tells the tokens of an input, of which the first are kept, most of them as `brief` has them.
//!   `listing`: its calls, and the lines of rules. `naming`: the names of rules.
//! - `stage`, `backlog` and `piece_scan`: a scan by pieces, how far it has come, and what was not handed out yet.
//! - `tables`: the struct that C holds of a loaded table, with `rules_holder`, the owning pointer in it. `loading` has its calls.
//! - `handle`: the struct that C holds of a scan by pieces. `holder` and `loose` are the owning pointer in it, and
//!   `by_pieces` has its calls.
//! - `lines`: the line and the column of a token.
//! - `ahead`: tokens that a scan tells ahead of those that it hands on. `texts`: the bytes that their texts are part of.
//!   `examples`: worked examples of both.
//! - `token_scan`: a scan that is asked for its tokens one by one. `stream` is the struct that C holds of one, with
//!   `stream_holder`, the owning pointer in it. `streaming` has its calls.
//!
//! It promises that what was handed out is the file, the run of the whole input or of all pieces, or its tokens, listed or
//! one by one. The
//! numbers stand in include/lex.h, in bindings/rust and in docs/C.md too: none of them may change. How bytes are kept
//! (`backlog`, `memory`) and how C holds a scan (`loose`, `holder`) are seen by no caller.
//!
//! - **What is made goes into buffers of the caller.** No struct with a list in it crosses to C, and no closure. Where the
//!   buffer is too small, the count says how large it has to be, and the call is made again.
//! - **A scan by pieces is what the caller holds, with a pointer in it that owns the scan.** An open scan and a closed one are
//!   told apart by a flag and not by the pointer. So a closed scan may be closed again, and feeding it has an answer.
//! - **`next_token` and `text_into` are lent the scan where it lies**, and do not take it and put it back: they are called for
//!   each token.
//! - **A loaded table is a handle of its owner, given to one call at a time.** All handles and scans that share a table own it
//!   together (`Arc`), so none outlives it. To read through a `&` to a struct with a pointer would take a law of its own.
//! - **Output that does not fit the caller's buffer is kept and handed out first**; only then is the end or the fault
//!   answered. A feed takes each piece whole. After out of memory a scan by pieces has stopped.
//! - **Listed tokens are kept, and handed out at the end**: where memory runs out, nothing was. Those that the buffer has no room
//!   for are counted only. Most begin where the one before them ends: these are kept in 8 bytes, since what is kept is memory to
//!   ask for. The input is fed to the scan by pieces, so that it holds no copy of the whole.
//! - **The text of a token is copied out.** A pointer into the scan could be read after the next call has moved what it
//!   leads to, and no contract could say what stands there. Who needs no text pays nothing for it.
//! - **Lines are counted as a stream goes, over the bytes that its tokens take for good**, and not where they are read: what
//!   trailing context and yyless give back is counted with the token that takes it. Where a token begins is known from the one
//!   before it: at its end, or, after yymore, at its beginning.
//! - **A stream of tokens may be fed again after a refusal.** A feed that is refused keeps nothing of its piece and changes
//!   nothing, since no turn was made. After a turn that was refused each call answers the same again.
//! - **Answers are the exit statuses of the program lex**, so that a number has one meaning in a log. The default rule has the
//!   greatest number of 32 bits: no specification has so many rules. It cannot be 0, which is a rule's number.
//! - **Lines of rules are a call of their own, by the text.** A table file keeps none: the same rules have the same file.
//! - **Names of rules are told by a loaded table**, one by one: a table has what rules do, and so their names.
#![tactic(auto)]

mod ahead;
mod answer;
mod backlog;
mod brief;
mod buffers;
mod by_pieces;
mod examples;
mod flags;
mod gathering;
mod generating;
mod handle;
mod holder;
mod kinds;
mod lines;
mod listing;
mod loading;
mod loose;
mod machines;
mod memory;
mod naming;
mod piece_scan;
mod rules;
mod rules_holder;
mod scanning;
mod stage;
mod stream;
mod stream_holder;
mod streaming;
mod tables;
mod texts;
mod token_scan;

pub use answer::Answer;
pub use by_pieces::{close_scan, feed_into, finish_into, open_loaded, open_scan};
pub use examples::examples_of_ahead;
pub use flags::{counts_lines, options_of};
pub use generating::{TextFault, generate_into};
pub use handle::Scan;
pub use lines::examples_of_lines;
pub use listing::{TextToken, rule_lines_into, tokens_into, tokens_loaded};
pub use loading::{load_tables, share_tables, unload_tables};
pub use naming::rule_name_into;
pub use scanning::{scan_into, scan_loaded};
pub use stream::TokenStream;
pub use streaming::{
    close_stream, end_stream, feed_stream, next_token, open_stream, open_stream_loaded, text_into,
};
pub use tables::LoadedTables;
pub use token_scan::NextToken;
