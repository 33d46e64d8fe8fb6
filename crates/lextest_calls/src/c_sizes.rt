//! What a program in C calls over much: texts at their limits, long inputs and outputs, many tokens and pieces. No contract says
//! that memory is left. Here there is ample, so no call may answer that it ran out. Most of an input is one match, which takes
//! little time.
use crate::building::{made, repeated};
use crate::for_c::{NO_TOKEN, Place, are_listed, feeds, finishes, generate, lines, list, scan};
use liblex_calls::{Answer, Scan, close_scan, open_scan};
use std::alloc::{AllocError, Global};
use std::test::Fail;

/// A word is written as it is, as is what else comes.
const WORDS: &[u8] = b"%%\n[a-z]+ ECHO;\n";

/// More than 2^20.
const LONG: usize = 1_100_000;

/// How long the table file of a text is, in so many bytes at most, or nothing where it is answered otherwise.
fn file_length(alloc: Global, text: &[u8], room: usize) -> Result<usize, AllocError> {
    let mut file = Vec::new(alloc);
    file.resize(room, 0)?;
    let (answer, count, _) = generate(alloc, text, &mut file);
    Ok(if answer == Answer::Done { count } else { 0 })
}

/// Texts with a rule that cannot be matched, and with code that is skipped, of which the program warns. The last has an automaton of more
/// than 500 states, whose file is long too. For each there is so much room, and its file is longer than this.
#[test]
fn makes_files(rt: HostRuntime) -> Result<(), Fail> {
    const TEXTS: &[(&[u8], usize, usize)] = &[
        (b"%%\n[a-z]+ ;\nif ;\n", 4_096, 0),
        (b"%{\nint n;\n%}\n%%\na ;\n", 4_096, 0),
        (b"%%\na ;\n%%\nint main(){}\n", 4_096, 0),
        (b"%%\n(a|b)*a(a|b){8} ;\n", 1_000_000, 4_096),
    ];
    for &(text, room, least) in TEXTS {
        assert!(rt; least < file_length(rt.alloc(), text, room)?, "{room}");
    }
    Ok(())
}

/// Whether the lines of the most rules are told.
fn tells_lines(alloc: Global) -> Result<bool, AllocError> {
    let text = repeated(alloc, b"%%\n", b"a ;\n", 4_096, b"")?;
    let mut told = [0u32; 4_096];
    let got = lines(alloc, &text, &mut told);
    Ok(got == (Answer::Done, 4_096) && told[4_095] == 4_097)
}

#[test]
fn tells_the_lines_of_the_most_rules(rt: HostRuntime) -> Result<(), Fail> {
    assert!(rt; tells_lines(rt.alloc())?);
    Ok(())
}

/// A letter, more than 2^20 times.
fn word(alloc: Global, letter: &[u8; 1], after: &[u8]) -> Result<Vec<u8>, AllocError> {
    repeated(alloc, b"", letter, LONG, after)
}

/// Whether an input that is one match is scanned, and an output as long is written.
fn scans_long(alloc: Global, file: &[u8]) -> Result<bool, AllocError> {
    let input = word(alloc, b"x", b"")?;
    let mut out = word(alloc, b"0", b"")?;
    let scanned = scan(alloc, file, &input, &mut out);
    Ok(scanned == (Answer::Done, LONG, 0) && out == input)
}

/// Whether a long word and 50,000 blanks are listed, of which there is room for two. Each blank is a token of the default rule.
fn lists_many(alloc: Global, file: &[u8]) -> Result<bool, AllocError> {
    const TOKENS: &[Place] = &[(0, LONG, 0), (LONG, 1_100_001, u32::MAX)];
    let mut tokens = [NO_TOKEN; 2];
    let mut input = word(alloc, b"x", b"")?;
    input.resize(1_150_000, b' ')?;
    let listed = list(alloc, file, &input, &mut tokens);
    Ok(listed == (Answer::TooSmall, 50_001, 0) && are_listed(&tokens, TOKENS))
}

#[test]
fn goes_over_long_inputs(rt: HostRuntime) -> Result<(), Fail> {
    let file = made(rt.alloc(), WORDS)?;
    let so = scans_long(rt.alloc(), file.written())? && lists_many(rt.alloc(), file.written())?;
    assert!(rt; so);
    Ok(())
}

/// Whether all of these lines wait, each of 4,000 bytes, that are fed with no room.
fn waits(alloc: Global, scan: &mut Scan, lines: &[u8]) -> bool {
    let mut so = true;
    let mut fed = 0usize;
    for line in lines.chunks(4_000) {
        fed = fed.saturating_add(line.len());
        let all = lines.get(..fed).unwrap_or_default();
        so = feeds(alloc, scan, line, 0, Answer::TooSmall, all) && so;
    }
    so
}

/// Whether these bytes are handed out in their order, by 4,096 at a time.
fn hands_out(alloc: Global, scan: &mut Scan, bytes: &[u8]) -> bool {
    let mut so = true;
    let mut left = bytes;
    for part in bytes.chunks(4_096) {
        let is_last = left.len() <= 4_096;
        let answer = if is_last {
            Answer::Done
        } else {
            Answer::TooSmall
        };
        so = feeds(alloc, scan, b"", 4_096, answer, left) && so;
        left = left.get(part.len()..).unwrap_or_default();
    }
    so
}

/// Whether all bytes of many lines wait, and are handed out in their order.
fn keeps_long_output(alloc: Global, scan: &mut Scan) -> Result<bool, AllocError> {
    let line = repeated(alloc, b"", b"x", 3_999, b"\n")?;
    let lines = repeated(alloc, b"", &line, 275, b"")?;
    Ok(waits(alloc, scan, &lines) && hands_out(alloc, scan, &lines))
}

/// Whether a match of a long piece and a short one is made at the end.
fn makes_a_long_match(alloc: Global, scan: &mut Scan) -> Result<bool, AllocError> {
    let all = word(alloc, b"y", b"z")?;
    let long = all.get(..LONG).unwrap_or_default();
    Ok(
        feeds(alloc, scan, long, 1, Answer::Done, b"")
            && feeds(alloc, scan, b"z", 1, Answer::Done, b"")
            && finishes(alloc, scan, 1, Answer::TooSmall, &all, 0),
    )
}

/// Whether a scan by pieces goes over much: lines that are written at once, then a match.
fn scans_much(alloc: Global, file: &[u8]) -> Result<bool, AllocError> {
    let mut scan = Scan::closed();
    let opened = open_scan(alloc, &mut scan, file) == Answer::Done;
    let kept = keeps_long_output(alloc, &mut scan);
    let matched = makes_a_long_match(alloc, &mut scan);
    close_scan(alloc, &mut scan);
    scan.close(alloc);
    Ok(opened && kept? && matched?)
}

#[test]
fn scans_many_pieces(rt: HostRuntime) -> Result<(), Fail> {
    let file = made(rt.alloc(), WORDS)?;
    assert!(rt; scans_much(rt.alloc(), file.written())?);
    Ok(())
}
