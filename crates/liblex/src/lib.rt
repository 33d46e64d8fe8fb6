//! The scanner generator for C: a static library, whose header is include/lex.h.
//!
//! Each function has a name of C (`lex_..`) and makes one call of liblex_calls: table files (`lex_generate`), scans of whole
//! inputs (`lex_scan_table`), tokens, the lines and the names of rules, loaded tables, and scans by pieces and streams of tokens, from
//! opening to closing.
//!
//! It promises what liblex_calls does, and its contracts repeat those. A slice is passed as a pointer and a length: that
//! these are right is up to the caller in C. A function here, its line in include/lex.h and its call in bindings/rust
//! change together, and `bindings/c/test.c` tries them.
//!
//! It links lexkit and what that stands on, and no reader of command lines. Wrong bodies of the same contracts
//! (docs/EDITS.md) stand in liblex_calls.
#![tactic(auto)]

ghost use Rattle.std.specs.Prelude.{◌≡◌, ℕ, Bool, true, List, None};
ghost use Rattle.liblex_calls.specs.Handles.{open_in, loaded_in, stream_in};
ghost use Rattle.liblex_calls.specs.Loading.{HoldsTable, LoadsTable};
ghost use Rattle.liblex_calls.specs.Buffers.{NothingOut};
ghost use Rattle.liblex_calls.specs.declared.answer.Answer.TheVariants as answers;
ghost use Rattle.liblex_calls.specs.declared.answer.Answer.{Answer};
ghost use Rattle.liblex_calls.specs.Numbers.{number_of};
ghost use Rattle.liblex_calls.specs.Generating.{Generates};
ghost use Rattle.liblex_calls.specs.Scanning.{ScansInto};
ghost use Rattle.liblex_calls.specs.Listing.{ListsInto, TellsLines};
ghost use Rattle.liblex_calls.specs.NamedRules.{NamesRule};
ghost use Rattle.liblex_calls.specs.Flags.{options_of, counts_lines};
ghost use Rattle.liblex_calls.specs.Progress.{fed_with};
ghost use Rattle.liblex_calls.specs.Pieces.{Scanning, OpensScan, FeedsInto, FinishesInto, StaysOpen, StaysClosed};
ghost use Rattle.liblex_calls.specs.Streams.{Streams, OpensStream, FeedsStream, TellsNext, AnswersAgain, ComesAsFar, HandsText};
ghost use Rattle.lexscan.specs.declared.token.Token.{Token as TokenModel};

use liblex_calls::{
    LoadedTables, NextToken, Scan, TextFault, TextToken, TokenStream, close_scan, close_stream,
    counts_lines, end_stream, feed_into, feed_stream, finish_into, generate_into, load_tables,
    next_token, open_loaded, open_scan, open_stream, open_stream_loaded, options_of,
    rule_lines_into, rule_name_into, scan_into, scan_loaded, share_tables, text_into, tokens_into,
    tokens_loaded, unload_tables,
};
use std::alloc::Global;

/// The version of the library, 1.0.0: 10,000 times its first number, 100 times its second, and its third.
const VERSION: u32 = 10_000;

/// Tells the version of the library.
#[unsafe(no_mangle)]
pub extern "C" fn lex_version() -> u32
    ensures { result ≡ 10000 }
{
    VERSION
}

/// Makes the table file of the specification that a text spells.
#[unsafe(no_mangle)]
pub extern "C" fn lex_generate(
    alloc: Global,
    text: &[u8],
    flags: u32,
    buffer: &mut [u8],
    count: &mut usize,
    fault: &mut TextFault,
) -> i32
    ensures { (answer : Answer) × (result ≡ number_of answer)
        × Generates (options_of flags) text.now buffer.old buffer.new count.new fault.new answer }
{
    generate_into(alloc, text, options_of(flags), buffer, count, fault).number()
}

/// Scans a whole input by a table file.
#[unsafe(no_mangle)]
pub extern "C" fn lex_scan_table(
    alloc: Global,
    file: &[u8],
    input: &[u8],
    buffer: &mut [u8],
    count: &mut usize,
    status: &mut u8,
) -> i32
    ensures { (answer : Answer) × (result ≡ number_of answer)
        × ScansInto file.now input.now buffer.old buffer.new count.new status.new answer }
{
    scan_into(alloc, file, input, buffer, count, status).number()
}

/// Lists the tokens of a whole input by a table file.
#[unsafe(no_mangle)]
pub extern "C" fn lex_tokens(
    alloc: Global,
    file: &[u8],
    input: &[u8],
    buffer: &mut [TextToken],
    count: &mut usize,
    status: &mut u8,
) -> i32
    ensures { (answer : Answer) × (result ≡ number_of answer)
        × ListsInto file.now input.now buffer.old buffer.new count.new status.new answer }
{
    tokens_into(alloc, file, input, buffer, count, status).number()
}

/// Tells the lines of the rules of the specification that a text spells.
#[unsafe(no_mangle)]
pub extern "C" fn lex_rule_lines(
    alloc: Global,
    text: &[u8],
    flags: u32,
    buffer: &mut [u32],
    count: &mut usize,
) -> i32
    ensures { (answer : Answer) × (result ≡ number_of answer)
        × TellsLines (options_of flags) text.now buffer.old buffer.new count.new answer }
{
    rule_lines_into(alloc, text, options_of(flags), buffer, count).number()
}

/// Reads a table file once, for any number of scans.
#[unsafe(no_mangle)]
pub extern "C" fn lex_load(alloc: Global, tables: &mut LoadedTables, file: &[u8]) -> i32
    ensures { (answer : Answer) × (result ≡ number_of answer) × LoadsTable file.now tables.new answer }
{
    load_tables(alloc, tables, file).number()
}

/// Has another one hold the same table.
#[unsafe(no_mangle)]
pub extern "C" fn lex_share(
    alloc: Global,
    tables: &mut LoadedTables,
    other: &mut LoadedTables,
) -> i32
    ensures { (answer : Answer) × (result ≡ number_of answer)
        × ((file : List ℕ) → HoldsTable file tables.old → LoadsTable file other.new answer)
        × (loaded_in tables.new ≡ loaded_in tables.old)
        × (loaded_in tables.old ≡ None → (answer ≡ answers.Closed) × (loaded_in other.new ≡ None)) }
{
    share_tables(alloc, tables, other).number()
}

/// Unloads a table.
#[unsafe(no_mangle)]
pub extern "C" fn lex_unload(alloc: Global, tables: &mut LoadedTables)
    ensures { loaded_in tables.new ≡ None }
{
    unload_tables(alloc, tables);
}

/// Scans a whole input by a table that is loaded.
#[unsafe(no_mangle)]
pub extern "C" fn lex_scan_loaded(
    alloc: Global,
    tables: &mut LoadedTables,
    input: &[u8],
    buffer: &mut [u8],
    count: &mut usize,
    status: &mut u8,
) -> i32
    ensures { (answer : Answer) × (result ≡ number_of answer)
        × ((file : List ℕ) → HoldsTable file tables.old
        → ScansInto file input.now buffer.old buffer.new count.new status.new answer)
        × (loaded_in tables.new ≡ loaded_in tables.old)
        × (loaded_in tables.old ≡ None → (answer ≡ answers.Closed) × NothingOut buffer.old buffer.new count.new
        × (status.new ≡ 0)) }
{
    scan_loaded(alloc, tables, input, buffer, count, status).number()
}

/// Lists the tokens of a whole input by a table that is loaded.
#[unsafe(no_mangle)]
pub extern "C" fn lex_tokens_loaded(
    alloc: Global,
    tables: &mut LoadedTables,
    input: &[u8],
    buffer: &mut [TextToken],
    count: &mut usize,
    status: &mut u8,
) -> i32
    ensures { (answer : Answer) × (result ≡ number_of answer)
        × ((file : List ℕ) → HoldsTable file tables.old
        → ListsInto file input.now buffer.old buffer.new count.new status.new answer)
        × (loaded_in tables.new ≡ loaded_in tables.old)
        × (loaded_in tables.old ≡ None → (answer ≡ answers.Closed) × NothingOut buffer.old buffer.new count.new
        × (status.new ≡ 0)) }
{
    tokens_loaded(alloc, tables, input, buffer, count, status).number()
}

/// Tells the name of a rule of a table that is loaded.
#[unsafe(no_mangle)]
pub extern "C" fn lex_rule_name(
    alloc: Global,
    tables: &mut LoadedTables,
    rule: u32,
    buffer: &mut [u8],
    count: &mut usize,
) -> i32
    ensures { (answer : Answer) × (result ≡ number_of answer)
        × ((file : List ℕ) → HoldsTable file tables.old
        → NamesRule file rule buffer.old buffer.new count.new answer)
        × (loaded_in tables.new ≡ loaded_in tables.old)
        × (loaded_in tables.old ≡ None → (answer ≡ answers.Closed) × NothingOut buffer.old buffer.new count.new) }
{
    rule_name_into(alloc, tables, rule, buffer, count).number()
}

/// Begins a scan by pieces by a table that is loaded.
#[unsafe(no_mangle)]
pub extern "C" fn lex_open_loaded(alloc: Global, scan: &mut Scan, tables: &mut LoadedTables) -> i32
    ensures { (answer : Answer) × (result ≡ number_of answer)
        × ((file : List ℕ) → HoldsTable file tables.old → OpensScan file scan.new answer)
        × (loaded_in tables.new ≡ loaded_in tables.old)
        × (loaded_in tables.old ≡ None → (answer ≡ answers.Closed) × (open_in scan.new ≡ None)) }
{
    open_loaded(alloc, scan, tables).number()
}

/// Begins a scan by pieces by a table file.
#[unsafe(no_mangle)]
pub extern "C" fn lex_open(alloc: Global, scan: &mut Scan, file: &[u8]) -> i32
    ensures { (answer : Answer) × (result ≡ number_of answer) × OpensScan file.now scan.new answer }
{
    open_scan(alloc, scan, file).number()
}

/// Scans on with a piece more.
#[unsafe(no_mangle)]
pub extern "C" fn lex_feed(
    alloc: Global,
    scan: &mut Scan,
    piece: &[u8],
    buffer: &mut [u8],
    count: &mut usize,
) -> i32
    ensures { (answer : Answer) × (result ≡ number_of answer)
        × ((file : List ℕ) (told : Bool) (fed out : List ℕ) → Scanning file told fed out scan.old
        → FeedsInto file told (fed_with told fed piece.now) out scan.new buffer.old buffer.new count.new answer)
        × StaysOpen scan.old scan.new buffer.new count.new
        × (open_in scan.old ≡ None → StaysClosed scan.new buffer.old buffer.new count.new answer) }
{
    feed_into(alloc, scan, piece, buffer, count).number()
}

/// Scans to the end of what was fed.
#[unsafe(no_mangle)]
pub extern "C" fn lex_finish(
    alloc: Global,
    scan: &mut Scan,
    buffer: &mut [u8],
    count: &mut usize,
    status: &mut u8,
) -> i32
    ensures { (answer : Answer) × (result ≡ number_of answer)
        × ((file : List ℕ) (told : Bool) (fed out : List ℕ) → Scanning file told fed out scan.old
        → FinishesInto file fed out scan.new buffer.old buffer.new count.new status.new answer)
        × StaysOpen scan.old scan.new buffer.new count.new
        × (open_in scan.old ≡ None → StaysClosed scan.new buffer.old buffer.new count.new answer
        × (status.new ≡ 0)) }
{
    finish_into(alloc, scan, buffer, count, status).number()
}

/// Closes a scan by pieces.
#[unsafe(no_mangle)]
pub extern "C" fn lex_close(alloc: Global, scan: &mut Scan)
    ensures { open_in scan.new ≡ None }
{
    close_scan(alloc, scan);
}

/// Opens a stream of tokens by a table file.
#[unsafe(no_mangle)]
pub extern "C" fn lex_open_stream(
    alloc: Global,
    stream: &mut TokenStream,
    file: &[u8],
    flags: u32,
) -> i32
    ensures { (answer : Answer) × (result ≡ number_of answer)
        × OpensStream file.now (counts_lines flags) stream.new answer }
{
    open_stream(alloc, stream, file, counts_lines(flags)).number()
}

/// Opens a stream of tokens by a table that is loaded.
#[unsafe(no_mangle)]
pub extern "C" fn lex_open_stream_loaded(
    alloc: Global,
    stream: &mut TokenStream,
    tables: &mut LoadedTables,
    flags: u32,
) -> i32
    ensures { (answer : Answer) × (result ≡ number_of answer)
        × ((file : List ℕ) → HoldsTable file tables.old → OpensStream file (counts_lines flags) stream.new answer)
        × (loaded_in tables.new ≡ loaded_in tables.old)
        × (loaded_in tables.old ≡ None → (answer ≡ answers.Closed) × (stream_in stream.new ≡ None)) }
{
    open_stream_loaded(alloc, stream, tables, counts_lines(flags)).number()
}

/// Feeds a stream of tokens a piece of the input.
#[unsafe(no_mangle)]
pub extern "C" fn lex_feed_stream(alloc: Global, stream: &mut TokenStream, piece: &[u8]) -> i32
    ensures { (answer : Answer) × (result ≡ number_of answer)
        × ((file : List ℕ) (lines told : Bool) (fed : List ℕ) (tokens : List TokenModel) (text : List ℕ)
        → Streams file lines told fed tokens text stream.old
        → FeedsStream file lines told fed piece.now tokens text stream.new answer)
        × AnswersAgain stream.old stream.new answer
        × (stream_in stream.old ≡ None → (answer ≡ answers.Closed) × (stream_in stream.new ≡ None)) }
{
    feed_stream(alloc, stream, piece).number()
}

/// Tells a stream of tokens the end of the input.
#[unsafe(no_mangle)]
pub extern "C" fn lex_end_stream(alloc: Global, stream: &mut TokenStream) -> i32
    ensures { (answer : Answer) × (result ≡ number_of answer)
        × ((file : List ℕ) (lines told : Bool) (fed : List ℕ) (tokens : List TokenModel) (text : List ℕ)
        → Streams file lines told fed tokens text stream.old
        → Streams file lines true fed tokens text stream.new × (answer ≡ answers.Done))
        × ComesAsFar stream.old stream.new
        × (stream_in stream.old ≡ None → (answer ≡ answers.Closed) × (stream_in stream.new ≡ None)) }
{
    end_stream(alloc, stream).number()
}

/// Tells the next token of a stream.
#[unsafe(no_mangle)]
pub extern "C" fn lex_next(stream: &mut TokenStream, token: &mut NextToken, status: &mut u8) -> i32
    ensures { (answer : Answer) × (result ≡ number_of answer)
        × ((file : List ℕ) (lines told : Bool) (fed : List ℕ) (tokens : List TokenModel) (text : List ℕ)
        → Streams file lines told fed tokens text stream.old
        → TellsNext file lines told fed tokens stream.new token.old token.new status.new answer)
        × AnswersAgain stream.old stream.new answer
        × (stream_in stream.old ≡ None → (answer ≡ answers.Closed) × (stream_in stream.new ≡ None)
        × (token.new ≡ token.old) × (status.new ≡ 0)) }
{
    next_token(stream, token, status).number()
}

/// Hands out the text of the token that was told last.
#[unsafe(no_mangle)]
pub extern "C" fn lex_text(stream: &mut TokenStream, buffer: &mut [u8], count: &mut usize) -> i32
    ensures { (answer : Answer) × (result ≡ number_of answer)
        × ((file : List ℕ) (lines told : Bool) (fed : List ℕ) (tokens : List TokenModel) (text : List ℕ)
        → Streams file lines told fed tokens text stream.old
        → HandsText text stream.old stream.new buffer.old buffer.new count.new answer)
        × (stream_in stream.old ≡ None → (answer ≡ answers.Closed) × (stream_in stream.new ≡ None)
        × NothingOut buffer.old buffer.new count.new) }
{
    text_into(stream, buffer, count).number()
}

/// Closes a stream of tokens.
#[unsafe(no_mangle)]
pub extern "C" fn lex_close_stream(alloc: Global, stream: &mut TokenStream)
    ensures { stream_in stream.new ≡ None }
{
    close_stream(alloc, stream);
}
