//! Streams of tokens: a scan by pieces that is asked for one token after another.
ghost use Rattle.std.specs.Prelude.{◌≡◌, ℕ, Bool, true, List, None};
ghost use Rattle.lexscan.specs.declared.token.Token.{Token as TokenModel};
ghost use Rattle.liblex_calls.specs.Buffers.{NothingOut};
ghost use Rattle.liblex_calls.specs.Handles.{stream_in, loaded_in};
ghost use Rattle.liblex_calls.specs.Loading.{AreRulesOf, HoldsTable};
ghost use Rattle.liblex_calls.specs.Streams.{Streams, OpensStream, FeedsStream, TellsNext, AnswersAgain, ComesAsFar, HandsText};

use crate::answer::Answer;
use crate::loading::rules_of;
use crate::rules::Rules;
use crate::stream::{TokenStream, put, take};
use crate::tables::LoadedTables;
use crate::token_scan::{NextToken, TokenScan};
use lexkit::TableError;
use std::alloc::Global;

/// Opens a stream of tokens by a table file, which counts lines or not. What the stream was open for before is closed.
pub fn open_stream(alloc: Global, stream: &mut TokenStream, file: &[u8], lines: bool) -> Answer
    ensures { OpensStream file.now lines stream.new result }
{
    close_stream(alloc, stream);
    match Rules::read(alloc, file) {
        Err(TableError::OutOfMemory) => Answer::OutOfMemory,
        Err(_) => Answer::Refused,
        Ok(rules) => open_with(alloc, stream, rules, lines),
    }
}

/// Opens a stream of tokens by a table that is loaded, as `open_stream` does by its file. The stream keeps what it needs of
/// it.
pub fn open_stream_loaded(
    alloc: Global,
    stream: &mut TokenStream,
    tables: &mut LoadedTables,
    lines: bool,
) -> Answer
    ensures opened { (file : List ℕ) → HoldsTable file tables.old → OpensStream file lines stream.new result }
    ensures same { loaded_in tables.new ≡ loaded_in tables.old }
    ensures unloaded { loaded_in tables.old ≡ None → (result ≡ Answer.Closed) × (stream_in stream.new ≡ None) }
{
    close_stream(alloc, stream);
    match rules_of(alloc, tables) {
        Err(answer) => answer,
        Ok(rules) => open_with(alloc, stream, rules, lines),
    }
}

/// Opens a stream that is closed, by these rules.
fn open_with(alloc: Global, stream: &mut TokenStream, rules: Rules, lines: bool) -> Answer
    requires { stream_in stream.old ≡ None }
    ensures { (file : List ℕ) → AreRulesOf file rules → OpensStream file lines stream.new result }
{
    match Box::new(alloc, TokenScan::new(alloc, rules, lines)) {
        Err(_) => Answer::OutOfMemory,
        Ok(held) => {
            put(stream, held);
            Answer::Done
        }
    }
}

/// Feeds a piece of the input, of any length. Once the end was told, or the scan has ended or stopped, it counts for nothing.
/// Where memory is refused or too much was fed, nothing has changed, and it may be fed again.
pub fn feed_stream(alloc: Global, stream: &mut TokenStream, piece: &[u8]) -> Answer
    ensures fed { (file : List ℕ) (lines told : Bool) (fed : List ℕ) (tokens : List TokenModel) (text : List ℕ)
        → Streams file lines told fed tokens text stream.old
        → FeedsStream file lines told fed piece.now tokens text stream.new result }
    ensures again { AnswersAgain stream.old stream.new result }
    ensures closed { stream_in stream.old ≡ None → (result ≡ Answer.Closed) × (stream_in stream.new ≡ None) }
{
    let Some(mut held) = take(alloc, stream) else {
        return Answer::Closed;
    };
    let answer = held.feed(piece);
    put(stream, held);
    answer
}

/// Tells the end of the input.
pub fn end_stream(alloc: Global, stream: &mut TokenStream) -> Answer
    ensures told { (file : List ℕ) (lines told : Bool) (fed : List ℕ) (tokens : List TokenModel) (text : List ℕ)
        → Streams file lines told fed tokens text stream.old
        → Streams file lines true fed tokens text stream.new × (result ≡ Answer.Done) }
    ensures as_far { ComesAsFar stream.old stream.new }
    ensures closed { stream_in stream.old ≡ None → (result ≡ Answer.Closed) × (stream_in stream.new ≡ None) }
{
    let Some(mut held) = take(alloc, stream) else {
        return Answer::Closed;
    };
    held.end();
    put(stream, held);
    Answer::Done
}

/// Tells the next token in `token`; or that the next match asks for more than was fed, which never comes once the end was
/// told; or that the scan has ended, with its status, 0 to 63, in `status`; or a fault. After the end and a fault the same
/// is told again.
pub fn next_token(stream: &mut TokenStream, token: &mut NextToken, status: &mut u8) -> Answer
    ensures told { (file : List ℕ) (lines told : Bool) (fed : List ℕ) (tokens : List TokenModel) (text : List ℕ)
        → Streams file lines told fed tokens text stream.old
        → TellsNext file lines told fed tokens stream.new token.old token.new status.new result }
    ensures again { AnswersAgain stream.old stream.new result }
    ensures closed { stream_in stream.old ≡ None → (result ≡ Answer.Closed) × (stream_in stream.new ≡ None)
        × (token.new ≡ token.old) × (status.new ≡ 0) }
{
    if !stream.is_open() {
        *status = 0;
        return Answer::Closed;
    }
    stream.place.scan().next(token, status)
}

/// Hands out into the buffer the text of the token that was told last, as often as it is asked for, until the next one is;
/// and nothing after each other answer. How long it is is told in `count`, also where the buffer is too small.
pub fn text_into(stream: &mut TokenStream, buffer: &mut [u8], count: &mut usize) -> Answer
    ensures handed { (file : List ℕ) (lines told : Bool) (fed : List ℕ) (tokens : List TokenModel) (text : List ℕ)
        → Streams file lines told fed tokens text stream.old
        → HandsText text stream.old stream.new buffer.old buffer.new count.new result }
    ensures closed { stream_in stream.old ≡ None → (result ≡ Answer.Closed) × (stream_in stream.new ≡ None)
        × NothingOut buffer.old buffer.new count.new }
{
    if !stream.is_open() {
        *count = 0;
        return Answer::Closed;
    }
    stream.place.scan().hand_text(buffer, count)
}

/// Closes a stream, and gives its memory back. One that is closed stays so.
pub fn close_stream(alloc: Global, stream: &mut TokenStream)
    ensures { stream_in stream.new ≡ None }
{
    match take(alloc, stream) {
        None => {}
        Some(_) => {}
    }
}
