//! What a program in C does, step by step, and what it is answered.
use crate::c_rows::Row;
use crate::for_c::{
    NO_TOKEN, Place, UNTOUCHED, answers, are_listed, ends, feeds, finishes, has_name, holds, list,
    list_by, opens, scan, shows, takes, tells_all,
};
use liblex_calls::{
    Answer, LoadedTables, Scan, TokenStream, close_stream, load_tables, open_loaded, open_scan,
    open_stream_loaded, scan_loaded, share_tables, unload_tables,
};
use std::alloc::Global;

/// What a program in C holds: a table and one that may share it, two scans by pieces, and two streams of tokens.
struct Handles {
    tables: LoadedTables,
    sharing: LoadedTables,
    scan: Scan,
    other_scan: Scan,
    stream: TokenStream,
    other_stream: TokenStream,
}

impl Handles {
    /// None of them loaded or open.
    fn closed() -> Handles {
        Handles {
            tables: LoadedTables::unloaded(),
            sharing: LoadedTables::unloaded(),
            scan: Scan::closed(),
            other_scan: Scan::closed(),
            stream: TokenStream::closed(),
            other_stream: TokenStream::closed(),
        }
    }

    /// Gives all memory back.
    fn close(self, alloc: Global) {
        let Handles {
            tables,
            sharing,
            scan,
            other_scan,
            stream,
            other_stream,
        } = self;
        tables.unload(alloc);
        sharing.unload(alloc);
        scan.close(alloc);
        other_scan.close(alloc);
        stream.close(alloc);
        other_stream.close(alloc);
    }
}

/// An input, the answer, what is written, and the status.
pub(crate) type Scanned = (&'static [u8], Answer, &'static [u8], u8);

/// An input, the answer, its tokens, and the status.
pub(crate) type Listed = (&'static [u8], Answer, &'static [Place], u8);

/// What a program does, and what it is answered.
pub(crate) enum Step {
    /// It scans an input by the table file.
    Scan(Scanned),
    /// It lists the tokens of an input by the table file.
    List(Listed),
    /// It does this with a table.
    Table(OfTable),
    /// It does this with the table that may share the first.
    Sharing(OfTable),
    /// It does this with a scan by pieces.
    Pieces(OfPieces),
    /// It does this with another scan, which is by the table that may share the first.
    OtherPieces(OfPieces),
    /// It does this with a stream of tokens.
    Stream(OfStream),
    /// It does this with another stream.
    OtherStream(OfStream),
}

/// What is done with a table.
pub(crate) enum OfTable {
    /// It is loaded from the table file.
    Load(Answer),
    /// The other one shares it.
    Share(Answer),
    /// It is unloaded.
    Unload,
    /// An input is scanned.
    Scan(Scanned),
    /// The tokens of an input are listed.
    List(Listed),
    /// A rule has this name.
    Name(u32, &'static [u8]),
}

/// What is done with a scan by pieces.
pub(crate) enum OfPieces {
    /// It is opened by the table file.
    Open(Answer),
    /// It is opened by the table.
    OpenLoaded(Answer),
    /// It is fed a piece: the room for what that hands out, the answer, and all that there is to be handed out.
    Feed(&'static [u8], usize, Answer, &'static [u8]),
    /// It is told the end: the room, the answer, all that there is to be handed out, and the status.
    Finish(usize, Answer, &'static [u8], u8),
}

/// What is done with a stream of tokens.
pub(crate) enum OfStream {
    /// It is opened by the table file, and counts lines or not.
    Open(bool, Answer),
    /// It is opened by the table, and counts lines or not.
    OpenLoaded(bool, Answer),
    /// It is fed a piece.
    Feed(&'static [u8], Answer),
    /// It is told the end.
    End,
    /// Just these tokens come next, with their lines and columns.
    Tokens(&'static [Row]),
    /// A text is shown: the room, the answer, and the text.
    Text(usize, Answer, &'static [u8]),
    /// No token comes next, but this answer, with status 0, twice.
    Answer(Answer),
    /// It is closed.
    Close,
}

/// Whether a table is answered so.
fn does_table(
    alloc: Global,
    tables: &mut LoadedTables,
    other: &mut LoadedTables,
    file: &[u8],
    step: &OfTable,
) -> bool {
    match step {
        OfTable::Load(answer) => load_tables(alloc, tables, file) == *answer,
        OfTable::Share(answer) => share_tables(alloc, tables, other) == *answer,
        OfTable::Unload => {
            unload_tables(alloc, tables);
            true
        }
        OfTable::Scan(wanted) => scans_by(alloc, tables, *wanted),
        OfTable::List(wanted) => lists_by(alloc, tables, *wanted),
        OfTable::Name(rule, name) => has_name(alloc, tables, *rule, *name),
    }
}

/// Whether a scan by pieces is answered so.
fn does_pieces(
    alloc: Global,
    scan: &mut Scan,
    tables: &mut LoadedTables,
    file: &[u8],
    step: &OfPieces,
) -> bool {
    match step {
        OfPieces::Open(answer) => open_scan(alloc, scan, file) == *answer,
        OfPieces::OpenLoaded(answer) => open_loaded(alloc, scan, tables) == *answer,
        OfPieces::Feed(piece, room, answer, out) => {
            feeds(alloc, scan, *piece, *room, *answer, *out)
        }
        OfPieces::Finish(room, answer, out, status) => {
            finishes(alloc, scan, *room, *answer, *out, *status)
        }
    }
}

/// Whether a stream is answered so.
fn does_stream(
    alloc: Global,
    stream: &mut TokenStream,
    tables: &mut LoadedTables,
    file: &[u8],
    step: &OfStream,
) -> bool {
    match step {
        OfStream::Open(lines, answer) => opens(alloc, stream, file, *lines, *answer),
        OfStream::OpenLoaded(lines, answer) => {
            open_stream_loaded(alloc, stream, tables, *lines) == *answer
        }
        OfStream::Feed(piece, answer) => takes(alloc, stream, *piece, *answer),
        OfStream::End => ends(alloc, stream),
        OfStream::Tokens(rows) => tells_all(stream, *rows),
        OfStream::Text(room, answer, text) => shows(stream, *room, *answer, *text),
        OfStream::Answer(answer) => answers(stream, *answer, 0),
        OfStream::Close => {
            close_stream(alloc, stream);
            true
        }
    }
}

/// Whether a scan of an input by a table file is answered so.
fn scans(alloc: Global, file: &[u8], wanted: Scanned) -> bool {
    let (input, answer, out, status) = wanted;
    let mut buffer = [UNTOUCHED; 16];
    let (got, count, ended) = scan(alloc, file, input, &mut buffer);
    (got, ended) == (answer, status) && holds(&buffer, 16, count, out)
}

/// Whether a scan of an input by a table is answered so.
fn scans_by(alloc: Global, tables: &mut LoadedTables, wanted: Scanned) -> bool {
    let (input, answer, out, status) = wanted;
    let mut buffer = [UNTOUCHED; 16];
    let mut count = 9;
    let mut ended = 9;
    let got = scan_loaded(alloc, tables, input, &mut buffer, &mut count, &mut ended);
    (got, ended) == (answer, status) && holds(&buffer, 16, count, out)
}

/// Whether the tokens of an input by a table file are answered so.
fn lists(alloc: Global, file: &[u8], wanted: Listed) -> bool {
    let (input, answer, tokens, status) = wanted;
    let mut buffer = [NO_TOKEN; 9];
    let got = list(alloc, file, input, &mut buffer);
    got == (answer, tokens.len(), status) && are_listed(&buffer, tokens)
}

/// Whether the tokens of an input by a table are answered so.
fn lists_by(alloc: Global, tables: &mut LoadedTables, wanted: Listed) -> bool {
    let (input, answer, tokens, status) = wanted;
    let mut buffer = [NO_TOKEN; 9];
    let got = list_by(alloc, tables, input, &mut buffer);
    got == (answer, tokens.len(), status) && are_listed(&buffer, tokens)
}

/// Whether a step is answered so.
fn does(alloc: Global, handles: &mut Handles, file: &[u8], step: &Step) -> bool {
    match step {
        Step::Scan(wanted) => scans(alloc, file, *wanted),
        Step::List(wanted) => lists(alloc, file, *wanted),
        Step::Pieces(step) => {
            does_pieces(alloc, &mut handles.scan, &mut handles.tables, file, step)
        }
        Step::Stream(step) => {
            does_stream(alloc, &mut handles.stream, &mut handles.tables, file, step)
        }
        Step::Table(step) => {
            does_table(alloc, &mut handles.tables, &mut handles.sharing, file, step)
        }
        Step::Sharing(step) => {
            does_table(alloc, &mut handles.sharing, &mut handles.tables, file, step)
        }
        Step::OtherPieces(step) => {
            does_pieces(
                alloc,
                &mut handles.other_scan,
                &mut handles.sharing,
                file,
                step,
            )
        }
        Step::OtherStream(step) => {
            does_stream(
                alloc,
                &mut handles.other_stream,
                &mut handles.tables,
                file,
                step,
            )
        }
    }
}

/// Whether all steps are answered so, by a table file.
pub(crate) fn goes_so(alloc: Global, file: &[u8], steps: &[Step]) -> bool {
    let mut handles = Handles::closed();
    let mut so = true;
    for step in steps {
        so = does(alloc, &mut handles, file, step) && so;
    }
    handles.close(alloc);
    so
}
