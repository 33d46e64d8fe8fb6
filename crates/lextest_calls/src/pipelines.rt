//! Scans whose input comes a piece at a time: what was written has been handed on before the next piece is asked for.
use crate::building::made;
use lexkit::{
    ByteReader, ByteWriter, FromBytes, Options, RunError, ScanError, ToWrite, scan_spec, scan_table,
};
use std::alloc::Global;
use std::cell::Cell;
use std::io::{self, Error, ErrorKind, Read, Write};
use std::test::Fail;

/// A piece of an input, and how many bytes have to be written before the next one is asked for.
#[derive(Clone, Copy)]
struct Piece {
    bytes: &'static [u8],
    wanted: usize,
}

/// Gives a piece a read, and notes whether something was still to be written then.
#[derive(Drop)]
struct Pieces<'a> {
    left: &'a [Piece],
    wanted: usize,
    written: &'a Cell<usize>,
    late: &'a Cell<bool>,
}

impl Read for Pieces<'_> {
    fn read(&mut self, buf: &mut [u8]) -> io::Result<usize> {
        if self.written.get() != self.wanted {
            self.late.set(true);
        }
        let Some((piece, left)) = self.left.split_first() else {
            return Ok(0);
        };
        self.left = left;
        let Piece { mut bytes, wanted } = *piece;
        self.wanted = wanted;
        bytes.read(buf)
    }
}

/// Counts the bytes that have arrived; or takes bytes uncounted, and can't hand them on.
#[derive(Drop)]
struct Arrived<'a> {
    written: &'a Cell<usize>,
    is_stuck: bool,
}

impl Write for Arrived<'_> {
    fn write(&mut self, buf: &[u8]) -> io::Result<usize> {
        if !self.is_stuck {
            self.written
                .set(self.written.get().saturating_add(buf.len()));
        }
        Ok(buf.len())
    }

    fn flush(&mut self) -> io::Result<()> {
        if self.is_stuck {
            return Err(Error::from(ErrorKind::Other));
        }
        Ok(())
    }
}

const LINES: &[Piece] = &[
    Piece {
        bytes: b"ab\n",
        wanted: 3,
    },
    Piece {
        bytes: b"c\n",
        wanted: 6,
    },
    Piece {
        bytes: b"d\ne\n",
        wanted: 12,
    },
];

const PARTS: &[Piece] = &[
    Piece {
        bytes: b"ab",
        wanted: 0,
    },
    Piece {
        bytes: b"c\nde",
        wanted: 3,
    },
    Piece {
        bytes: b"f",
        wanted: 3,
    },
    Piece {
        bytes: b"\ng\nh",
        wanted: 9,
    },
    Piece {
        bytes: b"\n",
        wanted: 12,
    },
];

/// Each line is answered by three bytes: by a rule that is told at a glance, by REJECT, by yyless and in another
/// condition, and with a text that yymore keeps.
const FILTERS: &[&[u8]] = &[
    b"%%\n[a-z]+\\n printf(\"ok\\n\");\n",
    b"%%\n[a-z]+\\n REJECT;\n[a-z]+\\n printf(\"ok\\n\");\n",
    b"%x L\n%%\n[a-z] yyless(1); BEGIN(L);\n<L>[a-z]*\\n printf(\"ok\\n\"); BEGIN(INITIAL);\n",
    b"%%\n[a-z] yymore();\n\\n printf(\"ok\\n\");\n",
];

/// What a scan answers, and whether it asked for some piece before all was written that the pieces before it bring. A table file, if
/// there is one, is used in the place of the filter that it was made of.
fn scanned(
    alloc: Global,
    filter: &[u8],
    pieces: &'static [Piece],
    file: Option<&[u8]>,
    is_stuck: bool,
) -> Result<(Result<u8, ScanError>, bool), Fail> {
    let written = Cell::new(0);
    let late = Cell::new(false);
    let reader = Pieces {
        left: pieces,
        wanted: 0,
        written: &written,
        late: &late,
    };
    let writer = Arrived {
        written: &written,
        is_stuck,
    };
    let mut source = FromBytes::new(ByteReader::new(alloc, reader)?);
    let mut sink = ToWrite::new(ByteWriter::new(alloc, writer)?);
    let got = match file {
        Some(file) => scan_table(alloc, file, &mut source, &mut sink),
        None => scan_spec(alloc, filter, Options::new(), &mut source, &mut sink),
    };
    Ok((got, late.get()))
}

/// Whether each line is answered before more is asked for, by a filter and by its table file.
fn answers_lines(alloc: Global, filter: &[u8]) -> Result<bool, Fail> {
    const IN_TIME: (Result<u8, ScanError>, bool) = (Ok(0), false);
    let file = made(alloc, filter)?;
    Ok(
        scanned(alloc, filter, LINES, None, false)? == IN_TIME
            && scanned(alloc, filter, LINES, Some(file.written()), false)? == IN_TIME
            && scanned(alloc, filter, PARTS, None, false)? == IN_TIME,
    )
}

#[test]
fn answers_a_line_before_it_asks_for_more(rt: HostRuntime) -> Result<(), Fail> {
    for (place, &filter) in FILTERS.iter().enumerate() {
        assert!(rt; answers_lines(rt.alloc(), filter)?, "filter {place}");
    }
    Ok(())
}

/// What can't be handed on is a write fault, and no byte is asked for after it.
#[test]
fn tells_what_cannot_be_handed_on(rt: HostRuntime) -> Result<(), Fail> {
    let got = scanned(rt.alloc(), FILTERS[0], LINES, None, true)?;
    assert!(rt; got == (Err(ScanError::Run(RunError::Write)), false));
    Ok(())
}
