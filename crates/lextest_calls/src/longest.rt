//! The longest match at the front of a text.
use lexkit::{Options, generate};
use lexscan::{Candidate, MatchedRule, accepted, longest};
use lextab::{Machine, Tables};
use std::test::Fail;

/// Words, of which one has a rule of its own, and numbers before a unit.
const LONGEST: &[u8] = b"%%\nif ;\n[a-z]+ ;\n[0-9]+/\"kg\" ;\n";

/// A rule, the length of its match, and that of its text.
type Match = (MatchedRule, usize, usize);

/// Whether this is the longest match at the front of a text, and its first byte leads to these rules.
fn begins_with(tables: &Tables, text: &[u8], wanted: Option<Match>, rules: &[u32]) -> bool {
    if tables.parts().conditions.is_empty() {
        return false;
    }
    let start = tables.start(0, true);
    let first = match text.first() {
        Some(byte) => tables.step(start, *byte),
        None => start,
    };
    accepted(tables, first) == rules
        && match longest(tables, 0, true, text) {
            Some(Candidate { rule, length, text }) => wanted == Some((rule, length, text)),
            None => wanted.is_none(),
        }
}

/// Nothing is matched at the end of an input.
const FRONTS: &[(&[u8], Option<Match>, &[u32])] = &[
    (b"if x", Some((MatchedRule::Numbered(0), 2, 2)), &[1]),
    (b"iffy", Some((MatchedRule::Numbered(1), 4, 4)), &[1]),
    (b"iffy ", Some((MatchedRule::Numbered(1), 4, 4)), &[1]),
    (b"12kg", Some((MatchedRule::Numbered(2), 4, 2)), &[]),
    (b"12", Some((MatchedRule::Default, 1, 1)), &[]),
    (b"12g", Some((MatchedRule::Default, 1, 1)), &[]),
    (b"", None, &[]),
];

/// Whether each text begins so.
fn all_begin_so(tables: &Tables) -> bool {
    let mut so = true;
    for &(text, matched, first) in FRONTS {
        so = begins_with(tables, text, matched, first) && so;
    }
    so
}

#[test]
fn the_longest_match(rt: HostRuntime) -> Result<(), Fail> {
    let made = generate(rt.alloc(), LONGEST, Options::new())?.made;
    assert!(rt; all_begin_so(&made.tables));
    Ok(())
}
