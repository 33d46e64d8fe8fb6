//! Where in a line the word is that has no meaning there.
ghost use Rattle.std.specs.Prelude.{◌≡◌, ◌≤◌, ◌+◌, length, option_map};
ghost use Rattle.lex_semantics.specs.Limits.{max_file_bytes};
ghost use Rattle.lexlook_text.specs.LineViews.{line_of};
ghost use Rattle.lexlook_text.specs.Spots.{action_spot, condition_spot, first_spot, front_spot, kind_spot, listed_spot, option_spot, other_spot, others_before, prints_alone, slash_spot, sound_words, spot_behind, spot_of, statement_spot};
ghost use Rattle.lexlook_text.specs.WordViews.{words_of};

use crate::definitions::Line;
use crate::formats::format_spot;
use crate::known::{KnownNames, OPTIONS, STATEMENTS};
use crate::names::split_word;
use crate::opened::unclosed_spot;
use crate::pieces::{behind_pattern, from_slash};
pub use crate::scan::Spot;
use crate::scan::{Cursor, Words, unknown_behind};
use lex_semantics::MAX_FILE_BYTES;
use lexre_bytes::{SpecErrorKind, skip_first, split_name};
use lexspec_lines::{skip_blanks, split_before};

/// The first name that is not among these words, from a rest of the text of a line on, but for so many before it.
fn spot_behind(known: Words<'_>, others: usize, line: Line<'_>, rest: &[u8]) -> Option<Spot>
    requires few { line.number + length line.text.now ≤ max_file_bytes + 1 }
    requires rest { length rest.now ≤ length line.text.now }
    ensures { result ≡ spot_behind (words_of known.entry) others (line_of line.entry) rest.now }
{
    let at = line.text.len().saturating_sub(rest.len());
    unknown_behind(known, others, Cursor::start_at(line.number, at), rest)
}

/// The first word of a line of options that is none.
fn option_spot(line: Line<'_>) -> Option<Spot>
    requires { line.number + length line.text.now ≤ max_file_bytes + 1 }
    ensures { result ≡ option_spot (line_of line.entry) }
{
    let known = Words {
        some: OPTIONS,
        others: NOTHING,
    };
    spot_behind(known, 0, line, split_word(line.text).1)
}

/// The first name in the condition list of a rule that is none of these.
fn listed_spot(conditions: &[u8], line: Line<'_>) -> Option<Spot>
    requires { line.number + length line.text.now ≤ max_file_bytes + 1 }
    ensures { result ≡ listed_spot conditions.now (line_of line.entry) }
{
    if !line.text.starts_with(b"<") || line.text.starts_with(b"<<") {
        return None;
    }
    let list = split_before(|byte| byte == b'>' || byte == b'\n', skip_first(line.text)).0;
    let known = Words {
        some: conditions,
        others: NOTHING,
    };
    unknown_behind(known, 0, Cursor::start_at(line.number, 1), list)
}

/// The first name in the action of a rule that is not among these words, but for so many before it.
fn action_spot(known: Words<'_>, others: usize, line: Line<'_>) -> Option<Spot>
    requires { line.number + length line.text.now ≤ max_file_bytes + 1 }
    ensures { result ≡ action_spot (words_of known.entry) others (line_of line.entry) }
{
    spot_behind(known, others, line, behind_pattern(line.text))
}

/// The first byte of the action of a rule.
fn first_spot(line: Line<'_>) -> Spot
    ensures { result ≡ first_spot (line_of line.entry) }
{
    let action = skip_blanks(behind_pattern(line.text));
    Spot {
        line: line.number,
        at: line.text.len().saturating_sub(action.len()),
        size: 1,
    }
}

/// What of a format in the action is not read, or else its first byte.
fn other_spot(line: Line<'_>) -> Spot
    requires { line.number + length line.text.now ≤ max_file_bytes + 1 }
    ensures { result ≡ other_spot (line_of line.entry) }
{
    match format_spot(line) {
        Some(spot) => spot,
        None => first_spot(line),
    }
}

/// The words of statements without yyless.
const WITHOUT_LESS: &[u8] =
    b"ECHO REJECT BEGIN printf fputs puts yymore yyterminate exit yytext yyout";

/// Those without yymore too.
const WITHOUT_MORE: &[u8] = b"ECHO REJECT BEGIN printf fputs puts yyterminate exit yytext yyout";

/// Those without exit.
const WITHOUT_EXIT: &[u8] =
    b"ECHO REJECT BEGIN printf fputs puts yymore yyless yyterminate yytext yyout";

/// Those without REJECT.
const WITHOUT_REJECT: &[u8] =
    b"ECHO BEGIN printf fputs puts yymore yyless yyterminate exit yytext yyout";

/// Those that may stand before others.
const WITHOUT_LAST: &[u8] = b"ECHO BEGIN printf fputs puts yymore yyless yytext yyout";

/// Those of an end action.
const PRINTING: &[u8] = b"printf fputs puts yyterminate exit yytext yyout";

/// Those that print.
const PRINTS: &[u8] = b"printf fputs puts yytext yyout";

/// No words.
const NOTHING: &[u8] = b"";

/// The words of statements that are not at fault in an action with a fault of this kind.
fn sound_words(kind: SpecErrorKind) -> Option<&'static [u8]>
    ensures { option_map (λ words. words.now) result ≡ sound_words kind }
{
    match kind {
        SpecErrorKind::UnknownStatement => Some(STATEMENTS),
        SpecErrorKind::BadCount => Some(WITHOUT_LESS),
        SpecErrorKind::LessAndMore => Some(WITHOUT_MORE),
        SpecErrorKind::BadStatus => Some(WITHOUT_EXIT),
        SpecErrorKind::RejectCombination => Some(WITHOUT_REJECT),
        SpecErrorKind::NotLast => Some(WITHOUT_LAST),
        SpecErrorKind::BadEofAction => Some(PRINTING),
        _ => None,
    }
}

/// How many of these words stand before the one at fault.
fn others_before(kind: SpecErrorKind) -> usize
    ensures { result ≡ others_before kind }
{
    match kind {
        SpecErrorKind::LessAndMore => 1,
        _ => 0,
    }
}

/// The first word of an action that is at fault behind so many others, where these are not, or else what of
/// a format is not read, or else its first byte.
fn statement_spot(
    sound: Option<&[u8]>,
    others: usize,
    arguments: &[u8],
    line: Line<'_>,
) -> Option<Spot>
    requires { line.number + length line.text.now ≤ max_file_bytes + 1 }
    ensures { result
        ≡ statement_spot (option_map (λ words. words.now) sound.entry) others arguments.now (line_of line.entry) }
{
    let some = sound?;
    let known = Words {
        some,
        others: arguments,
    };
    match action_spot(known, others, line) {
        Some(spot) => Some(spot),
        None => Some(other_spot(line)),
    }
}

/// The word of a condition that is none of these: in the list of a rule, or else in its action.
fn condition_spot(conditions: &[u8], arguments: &[u8], line: Line<'_>) -> Option<Spot>
    requires { line.number + length line.text.now ≤ max_file_bytes + 1 }
    ensures { result ≡ condition_spot conditions.now arguments.now (line_of line.entry) }
{
    let known = Words {
        some: STATEMENTS,
        others: arguments,
    };
    match listed_spot(conditions, line) {
        Some(spot) => Some(spot),
        None => action_spot(known, 0, line),
    }
}

/// Whether the action that begins the text has no name but those that print, so that it does not end a scan.
pub fn prints_alone(text: &[u8]) -> bool
    ensures { result ≡ prints_alone text.now }
{
    if text.len() > MAX_FILE_BYTES {
        return false;
    }
    let known = Words {
        some: PRINTS,
        others: NOTHING,
    };
    unknown_behind(known, 0, Cursor::start_at(1, 0), text).is_none()
}

/// The name that begins a line.
fn front_spot(line: Line<'_>) -> Spot
    ensures { result ≡ front_spot (line_of line.entry) }
{
    Spot {
        line: line.number,
        at: 0,
        size: split_name(line.text).0.len(),
    }
}

/// The slash of the rule that stands at a line.
fn slash_spot(line: Line<'_>) -> Spot
    ensures { result ≡ slash_spot (line_of line.entry) }
{
    let rest = from_slash(line.text);
    Spot {
        line: line.number,
        at: line.text.len().saturating_sub(rest.len()),
        size: 1,
    }
}

/// The word of a line with a fault of this kind that is at fault.
fn kind_spot(names: &KnownNames, kind: SpecErrorKind, line: Line<'_>) -> Option<Spot>
    requires { line.number + length line.text.now ≤ max_file_bytes + 1 }
    ensures { result ≡ kind_spot names.now.conditions.items names.now.arguments.items kind (line_of line.entry) }
{
    let conditions = names.conditions.as_slice();
    let arguments = names.arguments.as_slice();
    match kind {
        SpecErrorKind::UnsupportedOption => option_spot(line),
        SpecErrorKind::UnknownCondition => condition_spot(conditions, arguments, line),
        SpecErrorKind::Unclosed => unclosed_spot(line),
        SpecErrorKind::DuplicateName => Some(front_spot(line)),
        SpecErrorKind::VariableTrailing => Some(slash_spot(line)),
        _ => statement_spot(sound_words(kind), others_before(kind), arguments, line),
    }
}

/// The word of a line with a fault of this kind that is at fault. None where it is no fault of words or statements, of a name
/// that is defined twice, or of trailing context.
pub fn spot_of(names: &KnownNames, kind: SpecErrorKind, line: Line<'_>) -> Option<Spot>
    ensures { result ≡ spot_of names.now.conditions.items names.now.arguments.items kind (line_of line.entry) }
{
    if (line.number as usize).saturating_add(line.text.len()) > MAX_FILE_BYTES + 1 {
        return None;
    }
    kind_spot(names, kind, line)
}
