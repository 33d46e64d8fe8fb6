//! Scans by an automaton as it stands, by lexscan.
use crate::building::{built, read};
use lexscan::{MemorySource, RunError, Scanner, Turn};
use lextab::{MemorySink, Plain};
use std::alloc::Global;
use std::test::Fail;

/// A scanner over memory.
type Turns<'a, 'b> = Scanner<'a, Plain<'b>, MemorySource<'b>, MemorySink>;

/// One turn. What it promises is left out, so that what calls it is proved in less time.
fn turn(scanner: &mut Turns<'_, '_>) -> Result<Turn, RunError> {
    scanner.turn()
}

/// Whether the first turn takes all letters, and keeps one.
fn keeps_a_letter(scanner: &mut Turns<'_, '_>) -> bool {
    turn(scanner) == Ok(Turn::Went)
        && scanner.taken() == 3
        && scanner.held() == b"bc".as_slice()
        && scanner.text() == b"a".as_slice()
        && scanner.condition() == 0
}

/// Whether the turns over three letters are as worked out: two more are taken, and the next two end.
fn turns_by(alloc: Global, machine: &Plain<'_>) -> bool {
    let mut source = MemorySource::new(b"abc");
    let mut sink = MemorySink::new(alloc);
    let mut scanner = Scanner::new(alloc, machine, &mut source, &mut sink, 4);
    keeps_a_letter(&mut scanner)
        && turn(&mut scanner) == Ok(Turn::Went)
        && turn(&mut scanner) == Ok(Turn::Went)
        && turn(&mut scanner) == Ok(Turn::Ended(0))
        && turn(&mut scanner) == Ok(Turn::Ended(0))
        && scanner.text().is_empty()
        && scanner.matched().is_none()
}

/// Each turn keeps one letter of all, and gives the others back.
#[test]
fn turns(rt: HostRuntime) -> Result<(), Fail> {
    let alloc = rt.alloc();
    let spec = read(alloc, b"%%\n[a-z]+ yyless(1);\n")?;
    let automaton = built(alloc, &spec)?;
    assert!(rt; turns_by(alloc, &Plain::new(&automaton, &spec)));
    Ok(())
}
