//! The kinds of rows.

/// What a row asks.
#[derive(Clone, Copy, PartialEq, Eq)]
pub(crate) enum Kind {
    Action,
    Arguments,
    Change,
    Check,
    Compare,
    Count,
    Counts,
    Cover,
    Cut,
    End,
    Equal,
    File,
    Header,
    Lengths,
    Letters,
    Limit,
    Lines,
    Look,
    Obstacle,
    Overlaps,
    Pattern,
    Picture,
    Positions,
    Reads,
    Report,
    Same,
    Scan,
    Skipped,
    Specification,
    Suite,
    Table,
    Tokens,
    Trace,
    Tree,
    Words,
}

/// The word that begins a row, and its kind.
pub(crate) const KINDS: &[(&str, Kind)] = &[
    ("action", Kind::Action),
    ("arguments", Kind::Arguments),
    ("change", Kind::Change),
    ("check", Kind::Check),
    ("compare", Kind::Compare),
    ("count", Kind::Count),
    ("counts", Kind::Counts),
    ("cover", Kind::Cover),
    ("cut", Kind::Cut),
    ("end", Kind::End),
    ("equal", Kind::Equal),
    ("file", Kind::File),
    ("header", Kind::Header),
    ("lengths", Kind::Lengths),
    ("letters", Kind::Letters),
    ("limit", Kind::Limit),
    ("lines", Kind::Lines),
    ("look", Kind::Look),
    ("obstacle", Kind::Obstacle),
    ("overlaps", Kind::Overlaps),
    ("pattern", Kind::Pattern),
    ("picture", Kind::Picture),
    ("positions", Kind::Positions),
    ("reads", Kind::Reads),
    ("report", Kind::Report),
    ("same", Kind::Same),
    ("scan", Kind::Scan),
    ("skipped", Kind::Skipped),
    ("specification", Kind::Specification),
    ("suite", Kind::Suite),
    ("table", Kind::Table),
    ("tokens", Kind::Tokens),
    ("trace", Kind::Trace),
    ("tree", Kind::Tree),
    ("words", Kind::Words),
];

/// The kind that a word names.
pub(crate) fn kind_of(word: &[u8]) -> Option<Kind> {
    for &(name, kind) in KINDS {
        if name.as_bytes() == word {
            return Some(kind);
        }
    }
    None
}
