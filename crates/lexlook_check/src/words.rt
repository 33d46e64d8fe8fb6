//! The word at the place of a fault that has no meaning there, and the nearest one that has.
ghost use Rattle.std.specs.Prelude.{◌≡◌, ◌++◌, ℕ, List, OnOk, option_map};
ghost use Rattle.lexlook_text.specs.Known.{AreNamesOf};
ghost use Rattle.lexlook_check.specs.WordViews.{vocabulary_of};
ghost use Rattle.lexlook_check.specs.Words.{named_there, copied_words, front_words, named_words, near_words, pattern_vocabulary, subject_words, vocabulary, word_words, words_by};

use crate::adding::add_each;
use crate::findings::What;
use crate::notices::NoticeKind;
use itoa::Buffer;
use lexlook_specs::add;
use lexlook_text::{CLASSES, KnownNames, OPTIONS, has_word, nearest};
use lexre_bytes::split_name;
use lexspec::{PatternErrorKind, SpecErrorKind};
use std::alloc::{AllocError, Global};

/// The words that have a meaning at a place.
#[derive(Clone, Copy)]
struct KnownWords<'a> {
    /// How many bytes at the place stand before a word.
    before: usize,
    /// The words.
    known: &'a [u8],
    /// What they are.
    noun: &'static str,
}

/// The words that have a meaning where a pattern is at fault, for faults of words.
fn pattern_vocabulary(names: &KnownNames, kind: PatternErrorKind) -> Option<KnownWords<'_>>
    ensures { (lines : List (ℕ × List ℕ)) → AreNamesOf lines names.now
        → option_map vocabulary_of result ≡ pattern_vocabulary lines kind }
{
    match kind {
        PatternErrorKind::UndefinedName => Some(KnownWords {
            before: 1,
            known: names.definitions.as_slice(),
            noun: "definition",
        }),
        PatternErrorKind::UnknownClassName => Some(KnownWords {
            before: 2,
            known: CLASSES,
            noun: "class",
        }),
        _ => None,
    }
}

/// The words that have a meaning where a fault is, for faults of words.
fn vocabulary(names: &KnownNames, kind: SpecErrorKind) -> Option<KnownWords<'_>>
    ensures { (lines : List (ℕ × List ℕ)) → AreNamesOf lines names.now
        → option_map vocabulary_of result ≡ vocabulary lines kind }
{
    match kind {
        SpecErrorKind::UnknownStatement => Some(KnownWords {
            before: 0,
            known: names.words.as_slice(),
            noun: "word of a statement",
        }),
        SpecErrorKind::UnknownCondition => Some(KnownWords {
            before: 0,
            known: names.conditions.as_slice(),
            noun: "condition",
        }),
        SpecErrorKind::UnsupportedOption => Some(KnownWords {
            before: 0,
            known: OPTIONS,
            noun: "option that is read",
        }),
        SpecErrorKind::Pattern(error) => pattern_vocabulary(names, error.kind),
        _ => None,
    }
}

/// Appends which name is the nearest, where one is near.
fn add_near(text: &mut Vec<u8>, near: Option<&[u8]>) -> Result<(), AllocError>
    ensures { OnOk result (text.new.items ≡ text.old.items ++ near_words (option_map (λ n. n.now) near.entry)) }
{
    match near {
        None => add(text, b""),
        Some(name) => { add_each(text, &[b", the nearest is `", name, b"`"]) }
    }
}

/// Appends what is said of this word.
fn add_word(text: &mut Vec<u8>, words: KnownWords<'_>, word: &[u8]) -> Result<(), AllocError>
    ensures { OnOk result (text.new.items ≡ text.old.items ++ word_words (vocabulary_of words.entry) word.now) }
{
    if word.is_empty() || has_word(words.known, word) {
        return add(text, b"");
    }
    add_each(text, &[b"`", word, b"` is no "])?;
    add(text, words.noun.as_bytes())?;
    add_near(text, nearest(word, words.known))?;
    add(text, b"; ")
}

/// Appends what is said of the word that stands in this text.
fn add_met(text: &mut Vec<u8>, words: Option<KnownWords<'_>>, rest: &[u8]) -> Result<(), AllocError>
    ensures { OnOk result (text.new.items ≡ text.old.items ++ words_by (option_map vocabulary_of words.entry) rest.now) }
{
    match words {
        None => add(text, b""),
        Some(words) => {
            let from = rest.get(words.before..).unwrap_or(b"");
            add_word(text, words, split_name(from).0)
        }
    }
}

/// Appends the name that begins the text.
fn add_named(text: &mut Vec<u8>, rest: &[u8]) -> Result<(), AllocError>
    ensures { OnOk result (text.new.items ≡ text.old.items ++ named_words rest.now) }
{
    add_each(text, &[b"`", split_name(rest).0, b"`: "])
}

/// Appends which byte the default rule copies first.
fn add_copied(text: &mut Vec<u8>, byte: u8) -> Result<(), AllocError>
    ensures { OnOk result (text.new.items ≡ text.old.items ++ copied_words byte) }
{
    let mut digits = Buffer::new();
    let digits = digits.format(byte).as_bytes();
    add_each(text, &[b"the first byte that it copies is ", digits, b"; "])
}

/// Appends what is said of the name that begins the text, where a condition is warned of.
fn add_subject(text: &mut Vec<u8>, kind: NoticeKind, rest: &[u8]) -> Result<(), AllocError>
    ensures { OnOk result (text.new.items ≡ text.old.items ++ subject_words kind rest.now) }
{
    match kind {
        NoticeKind::NeverEntered | NoticeKind::NeverLeft => add_named(text, rest),
        NoticeKind::DefaultRule(byte) => {
            add_named(text, rest)?;
            add_copied(text, byte)
        }
        _ => add(text, b""),
    }
}

/// The name of a condition at this place of the line. No line declares INITIAL.
fn named_there(at: Option<usize>, line: &[u8]) -> &[u8]
    ensures { result.now ≡ named_there at line.now }
{
    match at {
        None => b"INITIAL",
        Some(at) => line.get(at..).unwrap_or(b""),
    }
}

/// Appends what is said of the word at this place of the line, where one is told.
pub(crate) fn add_front(
    text: &mut Vec<u8>,
    names: &KnownNames,
    what: What,
    at: Option<usize>,
    line: &[u8],
) -> Result<(), AllocError>
    ensures { OnOk result ((lines : List (ℕ × List ℕ)) → AreNamesOf lines names.now
        → text.new.items ≡ text.old.items ++ front_words lines what at line.now) }
{
    match what {
        What::Fault(kind) => match at {
            None => add(text, b""),
            Some(at) => {
                let rest = line.get(at..).unwrap_or(b"");
                add_met(text, vocabulary(names, kind), rest)
            }
        },
        What::Noticed(kind) => match at {
            None => add(text, b""),
            Some(at) => add_subject(text, kind, line.get(at..).unwrap_or(b"")),
        },
        What::Copied(byte) => {
            add_subject(text, NoticeKind::DefaultRule(byte), named_there(at, line))
        }
        _ => add(text, b""),
    }
}
