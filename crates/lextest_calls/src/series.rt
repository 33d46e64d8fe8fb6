//! Tokens that are told several in one go or one by one: where a series stops and goes on, over pieces and over inputs longer than one
//! of them, and a text over many pieces.
use crate::building::{machine_of, made, repeated};
use crate::for_c::{NO_TOKEN, list, token};
use lexkit::{Flat, RunError};
use lexscan::{BriefToken, MatchedRule, PullScanner, Pulled, PulledToken};
use liblex_calls::{Answer, TextToken};
use std::alloc::Global;
use std::test::Fail;

/// Tokens in few bytes: a word, a number of two digits and one of one, and a blank.
const WORD: BriefToken = BriefToken {
    rule: 0,
    length: 2,
    condition: 0,
};

const NUMBER: BriefToken = BriefToken {
    rule: 1,
    length: 2,
    condition: 0,
};

const DIGIT: BriefToken = BriefToken {
    rule: 1,
    length: 1,
    condition: 0,
};

const BLANK: BriefToken = BriefToken {
    rule: 2,
    length: 1,
    condition: 0,
};

/// Others: the letter that begins a condition, the one that ends it, and one that does neither.
const BEGINNING: BriefToken = BriefToken {
    rule: 0,
    length: 1,
    condition: 0,
};

const RETURNING: BriefToken = BriefToken {
    rule: 1,
    length: 1,
    condition: 1,
};

const OTHER: BriefToken = BriefToken {
    rule: 3,
    length: 1,
    condition: 0,
};

/// Whether just these tokens are told in one go, of which the first begins there.
fn tells(
    alloc: Global,
    scanner: &mut PullScanner<Flat>,
    start: u64,
    wanted: &[BriefToken],
) -> bool {
    let mut tokens = Vec::new(alloc);
    let first = scanner.next_several(&mut tokens);
    tokens.as_slice() == wanted
        && (wanted.is_empty() || first == start)
        && scanner.text().is_empty()
}

/// What comes next. What it promises is left out, so that what calls it is proved in less time.
fn next(scanner: &mut PullScanner<Flat>) -> Result<Pulled, RunError> {
    scanner.next()
}

/// Whether a piece is kept.
fn feeds(scanner: &mut PullScanner<Flat>, piece: &[u8]) -> bool {
    scanner.feed(piece) == Ok(())
}

/// Whether a piece decides no token, as often as it is fed.
fn waits(scanner: &mut PullScanner<Flat>, piece: &[u8], times: u32) -> bool {
    for _ in 0..times {
        if !feeds(scanner, piece) || next(scanner) != Ok(Pulled::More) {
            return false;
        }
    }
    true
}

/// What comes next.
enum Step {
    /// These bytes are fed.
    Feed(&'static [u8]),
    /// These bytes are fed so many times, and decide no token.
    Wait(&'static [u8], u32),
    /// The end is told.
    Finish,
    /// Just these tokens are told in one go, of which the first begins there.
    Several(u64, &'static [BriefToken]),
    /// This is told by itself.
    Next(Pulled),
    /// The text is so long, and ends with these bytes.
    Text(usize, &'static [u8]),
}

/// Whether this comes next.
fn does(alloc: Global, scanner: &mut PullScanner<Flat>, step: &Step) -> bool {
    match step {
        Step::Feed(piece) => feeds(scanner, *piece),
        Step::Wait(piece, times) => waits(scanner, *piece, *times),
        Step::Finish => {
            scanner.finish();
            true
        }
        Step::Several(start, wanted) => tells(alloc, scanner, *start, *wanted),
        Step::Next(told) => next(scanner) == Ok(*told),
        Step::Text(length, end) => {
            scanner.text().len() == *length && scanner.text().ends_with(*end)
        }
    }
}

/// Whether a scan by a specification goes so.
fn goes_so(alloc: Global, text: &str, steps: &[Step]) -> Result<bool, Fail> {
    let mut scanner = PullScanner::new(alloc, machine_of(alloc, text)?);
    for step in steps {
        if !does(alloc, &mut scanner, step) {
            return Ok(false);
        }
    }
    Ok(true)
}

/// The first token is told by itself, since no byte is held before it; the last one may go on.
const ENDING: &[Step] = &[
    Step::Several(0, &[]),
    Step::Feed(b"ab 12 c"),
    Step::Next(Pulled::Token(PulledToken {
        rule: MatchedRule::Numbered(0),
        start: 0,
        length: 2,
        condition: 0,
    })),
    Step::Several(2, &[BLANK, NUMBER, BLANK]),
    Step::Several(6, &[]),
    Step::Next(Pulled::More),
    Step::Feed(b"d"),
    Step::Several(6, &[]),
    Step::Feed(b" 3 "),
    Step::Several(6, &[WORD, BLANK, DIGIT, BLANK]),
    Step::Finish,
    Step::Several(0, &[]),
    Step::Next(Pulled::Ended(0)),
    Step::Several(0, &[]),
    Step::Next(Pulled::Ended(0)),
];

/// Each token has its own condition. A series stops before a rule that does more than write or begin a condition.
const STOPPING: &[Step] = &[
    Step::Feed(b"fabcfab"),
    Step::Next(Pulled::Token(PulledToken {
        rule: MatchedRule::Numbered(3),
        start: 0,
        length: 1,
        condition: 0,
    })),
    Step::Several(1, &[BEGINNING, RETURNING]),
    Step::Several(3, &[]),
    Step::Next(Pulled::Token(PulledToken {
        rule: MatchedRule::Numbered(2),
        start: 3,
        length: 1,
        condition: 0,
    })),
    Step::Several(4, &[OTHER, BEGINNING, RETURNING]),
];

/// One long token comes in many small pieces, and its text lies over all of them.
const LONG: &[Step] = &[
    Step::Wait(b"abc", 20_000),
    Step::Feed(b" "),
    Step::Next(Pulled::Token(PulledToken {
        rule: MatchedRule::Numbered(0),
        start: 0,
        length: 60_000,
        condition: 0,
    })),
    Step::Text(60_000, b"cabc"),
];

#[test]
fn tells_those_that_end_in_what_was_fed(rt: HostRuntime) -> Result<(), Fail> {
    const ROWS: &[(&str, &[Step])] = &[
        ("%%\n[a-z]+ ;\n[0-9]+ ;\n\" \" ;\n", ENDING),
        (
            "%x C\n%%\na BEGIN(C);\n<C>b BEGIN(INITIAL);\nc yyless(1);\n[f-z] ;\n",
            STOPPING,
        ),
        ("%%\n[a-z]+ ;\n\" \" ;\n", LONG),
    ];
    for &(text, steps) in ROWS {
        assert!(rt; goes_so(rt.alloc(), text, steps)?, "{text}");
    }
    Ok(())
}

/// A line, and how many of them are scanned: more bytes than one series goes over.
const LINE: &[u8] = b"ab 12\n";

const LINES: usize = 5_000;

/// The token at a place in their list.
fn token_at(place: usize) -> TextToken {
    let line = 6 * (place / 4).min(LINES);
    match place % 4 {
        0 => token(line, line + 2, 0),
        1 => token(line + 2, line + 3, 3),
        2 => token(line + 3, line + 5, 1),
        _ => token(line + 5, line + 6, 2),
    }
}

/// Whether these are the first of all tokens.
fn are_first(tokens: &[TextToken]) -> bool {
    let mut so = true;
    for (place, token) in tokens.iter().enumerate() {
        so = so && *token == token_at(place);
    }
    so
}

/// What is answered where there is room for so many tokens, with how many there are; and whether those in the buffer are these.
fn listed(alloc: Global, room: usize) -> Result<(Answer, usize, bool), Fail> {
    let file = made(alloc, b"%%\n[a-z]+ ;\n[0-9]+ ;\n\\n ;\n\" \" ;\n")?;
    let input = repeated(alloc, b"", LINE, LINES, b"")?;
    let mut tokens = Vec::new(alloc);
    tokens.resize(room, NO_TOKEN)?;
    let (answer, count, status) = list(alloc, file.written(), &input, &mut tokens);
    Ok((answer, count, status == 0 && are_first(&tokens)))
}

/// There is room for all, up to the middle of a series, and for none.
#[test]
fn lists_over_the_seams_of_series(rt: HostRuntime) -> Result<(), Fail> {
    const ROOMS: &[(usize, Answer)] = &[
        (20_000, Answer::Done),
        (10_001, Answer::TooSmall),
        (0, Answer::TooSmall),
    ];
    for &(room, answer) in ROOMS {
        assert!(rt;
            listed(rt.alloc(), room)? == (answer, 20_000, true),
            "{room}"
        );
    }
    Ok(())
}
