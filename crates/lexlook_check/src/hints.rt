//! What is expected where a fault is.
ghost use Rattle.std.specs.Prelude.{◌≡◌, ◌++◌, OnOk};
ghost use Rattle.lexlook_check.specs.Hints.{action_hint, definition_hint, difference_hint, hint_words, limit_hint, notice_hint, outside_hint, pattern_hint, rule_hint};

use crate::adding::add_each;
use crate::notices::NoticeKind;
use crate::source::add_under;
use itoa::Buffer;
use lexauto::BuildError;
use lexlook_specs::add;
use lexspec::{PatternErrorKind, SpecErrorKind};
use std::alloc::AllocError;

/// What is expected in a pattern.
fn pattern_hint(kind: PatternErrorKind) -> &'static str
    ensures { result.now ≡ pattern_hint kind }
{
    match kind {
        PatternErrorKind::UnclosedQuote => "a quote ends on its line",
        PatternErrorKind::UnclosedClass => {
            "a class ends with `]` on its line; a `]` of its bytes stands first"
        }
        PatternErrorKind::BadRange => "a range goes from a byte to the same or a greater one",
        PatternErrorKind::EmptyClass => "a class has a byte",
        PatternErrorKind::UnknownClassName => {
            "classes are alpha, digit, alnum, upper, lower, space, blank, cntrl, graph, print, punct and xdigit"
        }
        PatternErrorKind::UnsupportedBracket => "[=a=], [.a.] and [:^alpha:] are not read",
        PatternErrorKind::BadEscape => {
            "octal digits are 377 at most, and no backslash stands at the end of a line"
        }
        PatternErrorKind::BadInterval => {
            "an interval has numbers up to 255, the lesser first; a `{` that is a byte stands in quotes or behind a backslash"
        }
        PatternErrorKind::UnbalancedParen => {
            "a parenthesis has its other; one that is a byte stands in quotes or behind a backslash"
        }
        PatternErrorKind::MissingOperand => {
            "something to repeat or to choose stands there; a sign that is a byte stands in quotes or behind a backslash"
        }
        PatternErrorKind::UndefinedName => {
            "a name is defined before the first `%%`, and so are those in its pattern"
        }
        PatternErrorKind::DefinitionCycle => "no definition leads back to its name",
        PatternErrorKind::TooDeep => {
            "64 parentheses and names are open at most, and 64 signs stand on an item"
        }
        PatternErrorKind::TooBig => "a pattern has 65536 nodes at most",
        PatternErrorKind::MisplacedSlash => {
            "a `/` stands outside of parentheses and definitions; one that is a byte stands in quotes or behind a backslash"
        }
        PatternErrorKind::OutOfMemory => "memory ran out",
    }
}

/// What is expected in an action.
fn action_hint(kind: SpecErrorKind) -> &'static str
    ensures { result.now ≡ action_hint kind }
{
    match kind {
        SpecErrorKind::UnknownStatement => {
            "statements are ECHO, BEGIN, printf, fputs, puts, yymore, yyless, REJECT, exit, yyterminate and more, each with its `;`: see lex(1)"
        }
        SpecErrorKind::LessAndMore => "yyless stands once in an action, and without yymore",
        SpecErrorKind::RejectCombination => "REJECT stands without yymore and yyless",
        SpecErrorKind::NotLast => "REJECT, yyterminate and exit stand last",
        SpecErrorKind::BadEofAction => "an action of <<EOF>> prints, ends the scan, or both",
        SpecErrorKind::BadCount => "yyless keeps 1 to 65535 bytes",
        SpecErrorKind::BadStatus => "the status of exit is 0 to 63",
        SpecErrorKind::Pattern(error) => pattern_hint(error.kind),
        _ => "memory ran out",
    }
}

/// What is expected of a rule.
fn rule_hint(kind: SpecErrorKind) -> &'static str
    ensures { result.now ≡ rule_hint kind }
{
    match kind {
        SpecErrorKind::UnknownCondition => {
            "%s and %x declare conditions, and a list of them ends with `>` on its line"
        }
        SpecErrorKind::VariableTrailing => {
            "neither side of the `/` has texts of one length, of 65535 bytes at most: what stands behind it may be a byte or a class, or a rule of a condition may take it"
        }
        SpecErrorKind::TwoTrailing => {
            "a rule has one trailing context, by `/` or by a `$` at its end"
        }
        SpecErrorKind::BadEofRule => "<<EOF>> stands alone before its action",
        SpecErrorKind::DuplicateEof => "a condition has one <<EOF>> rule",
        SpecErrorKind::DanglingBar => {
            "`|` is the action of the next rule that has a pattern, and there is none"
        }
        SpecErrorKind::Unclosed => "a string, a comment, a brace or a `%{` has no end",
        SpecErrorKind::TooManyRules => "there are 4096 rules at most",
        SpecErrorKind::TooLong => {
            "a file has 1048576 bytes at most, and an action 256 statements and 4096 bytes to print"
        }
        _ => action_hint(kind),
    }
}

/// What is expected of the definitions section, and of a file.
pub(crate) fn definition_hint(kind: SpecErrorKind) -> &'static str
    ensures { result.now ≡ definition_hint kind }
{
    match kind {
        SpecErrorKind::NoRulesSection => "a line `%%` stands between definitions and rules",
        SpecErrorKind::BadDefinitionLine => {
            "a definition is a name, blanks and a pattern; %s, %x and %option declare"
        }
        SpecErrorKind::DuplicateName => "each name is defined once",
        SpecErrorKind::DuplicateCondition => {
            "each condition is declared once, and INITIAL always is"
        }
        SpecErrorKind::AnchoredDefinition => "`^` and `$` stand in rules, and in no definition",
        SpecErrorKind::UnsupportedOption => {
            "options are case-insensitive, stack, and some that do nothing: see lex(1)"
        }
        SpecErrorKind::TooManyConditions => "there are 255 conditions at most, INITIAL among them",
        _ => rule_hint(kind),
    }
}

/// What is to be known where this limit is passed.
pub(crate) fn limit_hint(limit: BuildError) -> &'static str
    ensures { result.now ≡ limit_hint limit }
{
    match limit {
        BuildError::TooManyPositions => {
            "a pattern has a position for each byte and class, in each copy that a repetition counts"
        }
        BuildError::TooManyStates => {
            "there is a state for each set of positions that some input may have read last, so what a counted repetition has to remember may double with each count"
        }
        BuildError::OutOfMemory => "memory ran out",
    }
}

/// What is to be known where flex takes this otherwise by what a whole specification says, and of the default rule.
fn difference_hint(kind: NoticeKind) -> &'static str
    ensures { result.now ≡ difference_hint kind }
{
    match kind {
        NoticeKind::NamedTrail => {
            "flex reads the pattern of a name at the end of a trailing context in no parentheses, so that a `|` of it divides what stands before the name too: write `({NAME})`"
        }
        NoticeKind::EmptyHead => {
            "a match has a byte at least, but flex may match the empty text before this trailing context, again and again: write what has a byte, as `a+` for `a*`"
        }
        NoticeKind::IdleEnd => {
            "each condition has an <<EOF>> rule with a list, which it takes, so this one does nothing; flex makes of it a program that does not compile, or gives it the conditions whose own stands behind it"
        }
        _ => { "a last rule `.|\\n` of it takes each byte that the others leave" }
    }
}

/// What is to be known where this is warned of outside of patterns.
fn outside_hint(kind: NoticeKind) -> &'static str
    ensures { result.now ≡ outside_hint kind }
{
    match kind {
        NoticeKind::EndAgain => {
            "the end of the input ends the scan, whatever the action; in flex an action without yyterminate and exit meets the end again, for ever"
        }
        NoticeKind::LoneReturn => {
            "a carriage return ends a line with the newline behind it, and else it is a byte of its line: a file whose lines end with carriage returns alone is one line"
        }
        NoticeKind::UnusedDefinition => {
            "a definition stands for its pattern where its name is in braces, as `{DIGIT}`"
        }
        NoticeKind::NeverEntered => {
            "no BEGIN and no yy_push_state of a rule names it, so no match is made in it"
        }
        NoticeKind::NeverLeft => {
            "no rule that is active in it has BEGIN or yy_push_state of another, yy_pop_state, exit or yyterminate, so it lasts to the end of the input"
        }
        _ => difference_hint(kind),
    }
}

/// What is to be known where this is warned of.
pub(crate) fn notice_hint(kind: NoticeKind) -> &'static str
    ensures { result.now ≡ notice_hint kind }
{
    match kind {
        NoticeKind::LettersAsBytes => {
            "a class has bytes, and a letter beyond ASCII is several of them: `lexlook utf8` and share/utf8.l have patterns of letters"
        }
        NoticeKind::LetterAlone => {
            "`\\d`, `\\s` and `\\w` are the letters themselves, and so are `\\D`, `\\S` and `\\W`: [0-9], [ \\t\\n] and [A-Za-z0-9_] are classes"
        }
        NoticeKind::Backspace => {
            "`\\b` is a backspace, the byte 8: no sign stands for the end of a word, and the longest text is taken anyway"
        }
        NoticeKind::CaseRange => {
            "such a range has the bytes between `Z` and `a` too, and with -i flex adds no other case to it: write `[A-Za-z]`"
        }
        NoticeKind::LineWalk => {
            "where it does not match it is walked to the end of the line, and again from the next byte, so a line of 1000 bytes may take some 500000 steps: with `^` it is walked once"
        }
        NoticeKind::FlexTrail => {
            "one side has texts of one length, and so many bytes are left or taken; flex takes a side with `*`, `+`, `?`, `|` or an interval to vary, and may take more of what follows"
        }
        NoticeKind::BarTrail => {
            "behind a rule whose action is `|` flex takes a trailing context to vary in length, and may take more of what follows; behind a `$` there the next match is at the start of a line: write the action in place of the `|`"
        }
        _ => outside_hint(kind),
    }
}

/// Appends the line of a hint, below a line with this number.
pub(crate) fn add_hint(text: &mut Vec<u8>, number: u32, hint: &[u8]) -> Result<(), AllocError>
    ensures { OnOk result (text.new.items ≡ text.old.items ++ hint_words number hint.now) }
{
    let mut digits = Buffer::new();
    add(text, b"    ")?;
    add_under(text, digits.format(number).as_bytes())?;
    add_each(text, &[b" = ", hint, b"\n"])
}
